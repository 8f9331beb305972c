// A text cut into the parts of a file, each a blob.
ghost use Rattle.std.specs.Prelude.{◌≡◌, ◌≤◌, ◌<◌, ◌++◌, length, OnOk, IfOk};
ghost use Rattle.mount_manifest.specs.Parts.{parts_of};
ghost use Rattle.shard_maker.specs.Cuts.{part_bytes, part_blobs};

use byte_text::{Blobs, Text};
use mount_manifest::FileRecord;
use std::alloc::{AllocError, Global};

/// The bytes of part `k`.
fn part_text(alloc: Global, file: &FileRecord, text: &[u8], k: u64) -> Result<Text, AllocError>
    requires size { 1 ≤ file.now.part_size }
    requires whole { file.now.length ≡ length text.now }
    requires part { k < parts_of file.now }
    ensures { IfOk result (λ t. t ≡ part_bytes file.now text.now k) }
{
    let from = k * file.part_size;
    let to = from + file.part_len(k);
    Text::of(alloc, &text[from as usize..to as usize])
}

/// The blobs of a file's parts.
pub(crate) fn part_blobs(alloc: Global, file: &FileRecord, text: &[u8]) -> Result<Blobs, AllocError>
    requires size { 1 ≤ file.now.part_size }
    requires whole { file.now.length ≡ length text.now }
    requires name { length file.now.name ≤ 200 }
    ensures { IfOk result (λ b. b ≡ part_blobs file.now text.now) }
{
    let mut blobs = Blobs::new(alloc);
    for k in 0..file.parts() {
        let name = file.part_name(alloc, k)?;
        blobs.push((name, part_text(alloc, file, text, k)?))?;
    }
    Ok(blobs)
}
