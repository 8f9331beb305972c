// An archive made of a number.
ghost use Rattle.std.specs.Prelude.{◌≡◌, ◌≤◌, IfOk, IsTrue, Ok, length};
ghost use Rattle.mount_script.specs.Scripts.{script};
ghost use Rattle.shard_maker.specs.MadeRows.{made_rows};
ghost use Rattle.shard_maker.specs.Searches.{made_script};
ghost use Rattle.shard_maker.specs.Made.{AreLimits, AreMadeBlobs, IsMadeArchive};

use crate::cuts::part_blobs;
use crate::draws::Draws;
use crate::manifest::{made_file, made_manifest, manifest_name};
use crate::rows::made_rows;
use crate::script::made_script;
use byte_text::{Blobs, Text};
use simpletext_postings::write;
use std::alloc::{AllocError, Global};

/// What is made of a number: an archive and a script that searches it.
#[derive(Drop)]
pub struct Made {
    /// The parts of the postings text, in order, and the manifest behind them.
    pub blobs: Blobs,
    /// How many pairs of a term and a document there are.
    pub postings: u64,
    /// A mount of the archive and 64 searches of it.
    pub script: Text,
}

/// The blobs of a postings text for so many documents.
fn made_blobs(alloc: Global, docs: u32, text: &Text) -> Result<Blobs, AllocError>
    requires docs { docs ≤ 100000 }
    requires size { length text.now ≤ 4294967296 }
    ensures { IfOk result (λ b. AreMadeBlobs docs text.now b) }
{
    let bytes = text.as_bytes();
    let size = bytes.len() as u64;
    let file = made_file(alloc, size)?;
    let mut blobs = part_blobs(alloc, &file, bytes)?;
    blobs.push((manifest_name(alloc)?, made_manifest(alloc, docs, size)?))?;
    Ok(blobs)
}

/// Makes an archive with one segment of `docs` documents, 1 to 100,000, over `terms` terms, 1 to 100,000, of which the
/// product is at most 4,000,000; and a script of a mount and 64 searches. All are drawn by a linear congruential
/// generator of 64 bits from `seed`: first one number below 16 for each pair of a term and a document, which has the
/// term where it is 0, then two terms for each search.
pub fn make(alloc: Global, seed: u64, docs: u32, terms: u32) -> Result<Made, AllocError>
    requires { AreLimits docs terms }
    ensures archive { IfOk result (λ m. IsMadeArchive seed docs terms m.blobs) }
    ensures postings { IfOk result (λ m. m.postings ≡ length (made_rows seed docs terms)) }
    ensures script { IfOk result (λ m. script m.script ≡ Ok (made_script seed docs terms)) }
{
    let mut draws = Draws { state: seed };
    let rows = made_rows(alloc, &mut draws, docs, terms)?;
    let text = write(alloc, &rows)?;
    let blobs = made_blobs(alloc, docs, &text)?;
    let script = made_script(alloc, &mut draws, terms)?;
    Ok(Made {
        blobs,
        postings: rows.len() as u64,
        script,
    })
}

/// Whether something can be made of so many documents and terms: each from 1 to 100,000, and their product at most
/// 4,000,000.
pub fn can_make(docs: u32, terms: u32) -> bool
    ensures only { IsTrue result → AreLimits docs terms }
    ensures all { AreLimits docs terms → IsTrue result }
{
    1 <= docs
        && docs <= 100_000
        && 1 <= terms
        && terms <= 100_000
        && u64::from(docs) * u64::from(terms) <= 4_000_000
}
