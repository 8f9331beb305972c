// The roster of a run.
ghost use Rattle.std.specs.Prelude.{◌≡◌, ◌<◌, option_map, IfSome, OnErr};
ghost use Rattle.index_mounts.specs.Rosters.{mounted, no_mounts, without, IsResolved, IsMount, IsRoster};
ghost use Rattle.index_mounts.specs.Calls.{mount_view, check_of, number_of, Mounts};
ghost use Rattle.index_mounts.specs.declared.roster.RosterError.TheVariants.{NoMemory};

use blob_parts::PartTable;
use byte_text::Name;
use cache_outside::Archive;
use mount_manifest::Manifest;
use std::alloc::{AllocFailed, Global};
use std::collections::BTreeMap;
use std::marker::Model;
use thiserror::Error;

/// The most mounts that are made in a run.
const MOUNTS: u32 = 4096;

/// A mount: an index of which a manifest of the archive tells.
#[derive(Drop)]
pub struct Mounted<A: Archive> {
    /// Its own number, from 0: how many mounts were made before it.
    pub mount: u32,
    /// The number of its manifest.
    pub number: u32,
    /// What the manifest tells.
    pub manifest: Manifest,
    /// Where the bytes of its files are.
    pub parts: PartTable<A>,
}

/// Why a roster refused a call. It is then as it was.
#[derive(Clone, Copy, Debug, PartialEq, Eq, Error)]
pub enum RosterError {
    /// A mount has this name.
    #[error("the name is taken")]
    NameTaken,
    /// 4,096 mounts were made, those that are no longer mounted among them.
    #[error("no more mounts can be made")]
    Full,
    /// No mount has this name.
    #[error("no mount has the name")]
    NotMounted,
    /// Memory was wanting.
    #[error("no memory")]
    NoMemory,
}

impl<T: Drop> From<AllocFailed<T>> for RosterError {
    ghost from_gives = { λ _ e. e ≡ NoMemory };

    fn from(_: AllocFailed<T>) -> Self {
        RosterError::NoMemory
    }
}

/// The mounts of a run, each under its name. Clauses see the mount under each name, and how many were made.
#[derive(Drop)]
pub struct Roster<A: Archive> {
    mounts: BTreeMap<Name, Mounted<A>>,
    made: u32,
}

impl<A: Archive> Model for Roster<A> {
    ghost use Rattle.index_mounts.specs.Rosters.{RosterView, IsRoster};
    ghost use Rattle.index_mounts.specs.Calls.{roster_view};

    ghost Value = { RosterView };

    ghost view = { λ r. roster_view r.mounts.entries r.made };

    ghost invariant = { λ r. IsRoster A.tells A.blobs (roster_view r.mounts.entries r.made) };
}

/// The number of a mount.
fn number_of<A: Archive>(mounted: Option<Mounted<A>>) -> Result<u32, RosterError>
    ensures { result ≡ number_of (option_map mount_view mounted) }
{
    match mounted {
        Some(mounted) => Ok(mounted.mount),
        None => Err(RosterError::NotMounted),
    }
}

impl<A: Archive> Roster<A> {
    /// No mounts; takes no memory.
    pub fn new(alloc: Global) -> Roster<A>
        ensures { result ≡ no_mounts }
    {
        Roster {
            mounts: BTreeMap::new(alloc),
            made: 0,
        }
    }

    /// The mount under this name, None exactly where there is none.
    pub fn find(&self, name: &Name) -> Option<&Mounted<A>>
        ensures mount { option_map (λ m. mount_view m.now) result ≡ mounted name.now self.now }
        ensures kept { IfSome result (λ m. IsMount A.tells A.blobs self.now.made (mount_view m.now)) }
        ensures below { IfSome result (λ m. m.now.mount < 4096) }
    {
        self.mounts.get(name)
    }

    /// Whether a mount can be made under this name: `NameTaken` exactly where there is one, then `Full` exactly where
    /// 4,096 were made.
    pub fn check(&self, name: &Name) -> Result<(), RosterError>
        ensures { result ≡ check_of name.now self.now }
    {
        if self.find(name).is_some() {
            return Err(RosterError::NameTaken);
        }
        if self.made >= MOUNTS {
            return Err(RosterError::Full);
        }
        Ok(())
    }

    /// Makes a mount under this name, of manifest `number`, and gives the mount's number: how many were made before.
    /// `parts` was resolved from that number and manifest.
    ///
    /// It is refused exactly as `check` says, or for want of memory.
    pub fn mount(
        &mut self,
        name: Name,
        number: u32,
        manifest: Manifest,
        parts: PartTable<A>,
    ) -> Result<u32, RosterError>
        requires { IsResolved A.tells A.blobs number manifest parts }
        ensures { Mounts name number manifest parts self.old self.new result }
    {
        self.check(&name)?;
        let mount = self.made;
        let mounted = Mounted {
            mount,
            number,
            manifest,
            parts,
        };
        self.mounts.insert(name, mounted)?;
        self.made += 1;
        Ok(mount)
    }

    /// Takes the mount under this name out, and gives its number, which no later mount gets. `NotMounted` comes
    /// exactly where there is none.
    pub fn unmount(&mut self, name: &Name) -> Result<u32, RosterError>
        ensures number { result ≡ number_of (mounted name.now self.old) }
        ensures roster { self.new ≡ without name.now self.old }
        ensures refused { OnErr result (self.new ≡ self.old) }
    {
        number_of(self.mounts.remove(name))
    }

    /// What is true of every roster: its mounts fit their manifests, and no two names have one mount.
    pub fn lesson(&self)
        ensures { IsRoster A.tells A.blobs self.now }
    {
        let _made = self.made;
    }
}

// A missing proof of `Send` or `Sync` shows here, and not first at the threads above.
fn crosses<T: Send + Sync>() {}

/// A roster may be shared by threads.
pub fn roster_crosses<A: Archive + Send + Sync>() {
    crosses::<Roster<A>>();
    crosses::<Mounted<A>>();
}
