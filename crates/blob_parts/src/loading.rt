// Loading a manifest by its name.
ghost use Rattle.std.specs.Prelude.{◌≡◌, ◌<◌, ◌≤◌, ◌+◌, length, take, IsTrue, OnOk, IfOk, IfErr, IsErr, IsErrOf, Some, None};
ghost use Rattle.cache_outside.specs.Listing.{manifest_number, place_of, blob_bytes, blob_size};
ghost use Rattle.mount_manifest.specs.Manifest.{manifest};
ghost use Rattle.blob_parts.specs.Content.{places};
ghost use Rattle.blob_parts.specs.Loads.{Loads, Refusal, LoadTakes, RefusedTakes, Judges, asked};
ghost use Rattle.blob_parts.specs.Takes.{SourceLater, Takes};

use crate::FetchError;
use crate::read::read_blob;
use cache_outside::{Archive, BlobSource, OutError};
use mount_manifest::{Field, Manifest, ManifestError};
use std::alloc::Global;

/// Why a manifest could not be loaded.
#[derive(Drop)]
pub enum LoadError {
    /// The archive has no manifest with this name.
    Missing,
    /// The text of the manifest is refused, and why.
    Manifest(ManifestError),
    /// The source failed, and its count of failures rose.
    Fault,
    /// Memory was wanted.
    NoMemory,
}

/// The most bytes that the text of a manifest may have.
const LONGEST: u64 = 16_777_216;

/// Where a manifest is: its number, its blob, and the blob's size in bytes.
#[derive(Clone, Copy, Debug, PartialEq, Eq)]
struct Located {
    number: u32,
    blob: u32,
    size: u64,
}

/// Asks for the manifest's number, its blob and the blob's size.
#[tactic(auto, using(crate::proofs::Named::none_named, crate::proofs::Named::place_below, crate::proofs::Taken::took_nothing))]
fn locate<A: Archive, S: BlobSource<A>>(source: &mut S, name: &str) -> Result<Located, LoadError>
    ensures number { IsTrue A.tells → IfOk result (λ l. manifest_number name.now A.blobs ≡ Some l.number) }
    ensures blob { IsTrue A.tells → IfOk result (λ l. place_of name.now A.blobs ≡ Some l.blob) }
    ensures size { IsTrue A.tells → IfOk result (λ l. l.size ≡ blob_size A.blobs l.blob) }
    ensures small { IfOk result (λ l. l.number < 65536) }
    ensures refusal { IsTrue A.tells → IfErr result (λ e. Refusal A.blobs name.now e) }
    ensures source { SourceLater (S.view source.old) (S.view source.new) (IsErrOf result LoadError.Fault) }
    ensures reads { (S.view source.new).reads ≡ (S.view source.old).reads }
    ensures refused { IfErr result
        (λ e. RefusedTakes (S.view source.old).reads (S.view source.new).reads (asked A.blobs name.now) e) }
{
    let number = match source.manifest(name) {
        Ok(Some(number)) => number,
        Ok(None) => return Err(LoadError::Missing),
        Err(OutError::Failed) => return Err(LoadError::Fault),
        Err(OutError::NoMemory) => return Err(LoadError::NoMemory),
    };
    let blob = match source.find(name) {
        Ok(Some(blob)) => blob,
        Ok(None) => return Err(LoadError::Missing),
        Err(OutError::Failed) => return Err(LoadError::Fault),
        Err(OutError::NoMemory) => return Err(LoadError::NoMemory),
    };
    match source.size(blob) {
        Ok(size) => Ok(Located { number, blob, size }),
        Err(OutError::Failed) => Err(LoadError::Fault),
        Err(OutError::NoMemory) => Err(LoadError::NoMemory),
    }
}

/// Fills `out` with the bytes of a blob, which has just as many.
fn fill<A: Archive, S: BlobSource<A>>(
    source: &mut S,
    blob: u32,
    out: &mut [u8],
) -> Result<(), FetchError>
    requires whole { IsTrue A.tells → (blob < length A.blobs) × (blob_size A.blobs blob ≡ length out.old) }
    requires short { length out.old ≤ 16777216 }
    ensures bytes { IsTrue A.tells → OnOk result (out.new ≡ blob_bytes A.blobs blob) }
    ensures source { SourceLater (S.view source.old) (S.view source.new) (IsErrOf result FetchError.Fault) }
    ensures reads { Takes (S.view source.old).reads (S.view source.new).reads (places blob 0 (length out.old)) result }
{
    let mut done = 0;
    while done < out.len() {
        match read_blob::<A, S>(source, blob, done as u64, &mut out[done..]) {
            Ok(count) => done += count,
            Err(e) => return Err(e),
        }
    }
    Ok(())
}

/// The bytes of a blob of this size.
fn whole_blob<A: Archive, S: BlobSource<A>>(
    alloc: Global,
    source: &mut S,
    blob: u32,
    size: u64,
) -> Result<Vec<u8>, FetchError>
    requires whole { IsTrue A.tells → (blob < length A.blobs) × (blob_size A.blobs blob ≡ size) }
    requires short { size ≤ 16777216 }
    ensures bytes { IsTrue A.tells → IfOk result (λ v. v.items ≡ blob_bytes A.blobs blob) }
    ensures source { SourceLater (S.view source.old) (S.view source.new) (IsErrOf result FetchError.Fault) }
    ensures reads { Takes (S.view source.old).reads (S.view source.new).reads (places blob 0 size) result }
{
    let mut bytes = vec![in alloc; 0; size as usize]?;
    fill::<A, S>(source, blob, &mut bytes)?;
    Ok(bytes)
}

/// What the text of manifest `number` says, under this number, or its refusal.
fn judge(alloc: Global, number: u32, text: &[u8]) -> Result<(u32, Manifest), LoadError>
    ensures judged { Judges number result (manifest text.now) }
    ensures number { IfOk result (λ loaded. loaded.0 ≡ number) }
    ensures unfailed { IsErrOf result LoadError.Fault → ⊥ }
{
    match Manifest::read(alloc, text) {
        Ok(manifest) => Ok((number, manifest)),
        Err(ManifestError::NoMemory) => Err(LoadError::NoMemory),
        Err(e) => Err(LoadError::Manifest(e)),
    }
}

/// Loads the manifest with this name whole: its number, which is below 65,536, and what its text says.
///
/// `Missing` comes exactly where the archive has no such manifest. `Manifest` comes with the first refusal of the
/// text; a blob longer than 16,777,216 bytes is `Limit` on `bytes`, with its size, and none of it is read. `Fault`
/// comes only where the source's count of failures rose in this call.
pub fn load<A: Archive, S: BlobSource<A>>(
    alloc: Global,
    source: &mut S,
    name: &str,
) -> Result<(u32, Manifest), LoadError>
    ensures loads { IsTrue A.tells → Loads A.blobs name.now result }
    ensures small { IfOk result (λ loaded. loaded.0 < 65536) }
    ensures source { SourceLater (S.view source.old) (S.view source.new) (IsErrOf result LoadError.Fault) }
    ensures reads { IsTrue A.tells
        → LoadTakes (S.view source.old).reads (S.view source.new).reads (asked A.blobs name.now) result }
{
    let found = locate::<A, S>(source, name)?;
    if found.size > LONGEST {
        let (field, value) = (Field::Bytes, found.size);
        return Err(LoadError::Manifest(ManifestError::Limit { field, value }));
    }
    let text = match whole_blob::<A, S>(alloc, source, found.blob, found.size) {
        Ok(text) => text,
        Err(FetchError::Fault) => return Err(LoadError::Fault),
        Err(FetchError::NoMemory) => return Err(LoadError::NoMemory),
    };
    judge(alloc, found.number, &text)
}
