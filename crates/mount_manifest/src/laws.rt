//! What is true of what every text of a manifest says.

ghost use Rattle.mount_manifest.specs.Sound.{AreSound};

/// A text that is a manifest says files and segments within the limits, with names that differ.
pub fn sound_manifests()
    ensures { AreSound }
{}
