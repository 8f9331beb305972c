// Finding the blobs of a manifest's files, and comparing their sizes.
ghost use Rattle.std.specs.Prelude.{◌≡◌, ◌<◌, ◌≤◌, ℕ, IsTrue, IfOk, OnOk, IsErrOf, Ok, Some, length, map, slice_get};
ghost use Rattle.blob_parts.specs.Takes.{SourceLater};
ghost use Rattle.cache_outside.specs.Listing.{place_of, blob_size};
ghost use Rattle.mount_manifest.specs.Parts.{parts_of, part_name, part_length};
ghost use Rattle.mount_manifest.specs.Sound.{IsFile};
ghost use Rattle.blob_parts.specs.Content.{manifest_at, part_refusal, missing_in, wrong_part, wrong_in, first_of};
ghost use Rattle.blob_parts.specs.Tables.{AreNamed, lengths_of};
ghost use Rattle.blob_parts.specs.Resolving.{Resolves, FindsPart, AreEntries, AllSized, AreSized};
ghost use Rattle.blob_parts.specs.Entries.{parts_in};
ghost use Rattle.blob_parts.specs.declared.resolving.ResolveError.TheVariants.{Fault, NoMemory};

use crate::table::{FileEntry, PartTable};
use byte_text::Name;
use cache_outside::{Archive, BlobSource, OutError};
use mount_manifest::{FileRecord, Manifest};
use std::alloc::{AllocError, AllocFailed, Global};

/// Why a manifest's files have no table of parts.
#[derive(Drop)]
pub enum ResolveError {
    /// The archive has no blob of this name: the first part, in order of files and parts, that is missing.
    Missing { name: Name },
    /// The first part, where none is missing, whose blob has another size than the manifest says: `told` bytes, where
    /// `wanted` are wanted.
    PartSize { name: Name, told: u64, wanted: u64 },
    /// The source failed, and its count of failures rose.
    Fault,
    /// Memory was wanted.
    NoMemory,
}

impl From<AllocError> for ResolveError {
    ghost from_gives = { λ _ e. e ≡ NoMemory };

    fn from(_: AllocError) -> Self {
        ResolveError::NoMemory
    }
}

impl<T: Drop> From<AllocFailed<T>> for ResolveError {
    ghost from_gives = { λ _ e. e ≡ NoMemory };

    fn from(_: AllocFailed<T>) -> Self {
        ResolveError::NoMemory
    }
}

impl From<OutError> for ResolveError {
    ghost use Rattle.blob_parts.specs.Resolving.{same_cause};

    ghost from_gives = { λ from e. e ≡ same_cause from };

    fn from(error: OutError) -> Self {
        match error {
            OutError::Failed => ResolveError::Fault,
            OutError::NoMemory => ResolveError::NoMemory,
        }
    }
}

/// The blob of part `k` of a file.
fn find_part<A: Archive, S: BlobSource<A>>(
    alloc: Global,
    source: &mut S,
    file: &FileRecord,
    k: u64,
) -> Result<u32, ResolveError>
    requires kept { IsFile file.now }
    requires part { k < parts_of file.now }
    ensures blob { IsTrue A.tells → FindsPart A.blobs file.now k result }
    ensures source { SourceLater (S.view source.old) (S.view source.new) (IsErrOf result Fault) }
    ensures reads { (S.view source.new).reads ≡ (S.view source.old).reads }
{
    let name = file.part_name(alloc, k)?;
    match source.find(name.as_str()) {
        Ok(Some(blob)) => Ok(blob),
        Ok(None) => Err(ResolveError::Missing { name }),
        Err(e) => Err(ResolveError::from(e)),
    }
}

/// The blobs of a file's parts, in order.
fn find_parts<A: Archive, S: BlobSource<A>>(
    alloc: Global,
    source: &mut S,
    file: &FileRecord,
) -> Result<Vec<u32>, ResolveError>
    requires { IsFile file.now }
    ensures count { IfOk result (λ v. length v.items ≡ parts_of file.now) }
    ensures named { IsTrue A.tells → IfOk result (λ v. AreNamed A.blobs file.now v.items) }
    ensures missing { IsTrue A.tells → Resolves result (missing_in A.blobs file.now) }
    ensures source { SourceLater (S.view source.old) (S.view source.new) (IsErrOf result Fault) }
    ensures reads { (S.view source.new).reads ≡ (S.view source.old).reads }
{
    let mut blobs = Vec::new(alloc);
    for k in 0..file.parts() {
        match find_part(alloc, source, file, k) {
            Ok(blob) => blobs.push(blob)?,
            Err(e) => return Err(e),
        }
    }
    Ok(blobs)
}

/// Whether the blob of part `k` of a file has its size.
fn size_part<A: Archive, S: BlobSource<A>>(
    alloc: Global,
    source: &mut S,
    file: &FileRecord,
    k: u64,
    blob: u32,
) -> Result<(), ResolveError>
    requires kept { IsFile file.now }
    requires part { k < parts_of file.now }
    requires named { IsTrue A.tells → place_of (part_name file.now k) A.blobs ≡ Some blob }
    ensures wrong { IsTrue A.tells → Resolves result (wrong_part A.blobs file.now k) }
    ensures size { IsTrue A.tells
        → OnOk result (blob_size A.blobs blob ≡ part_length file.now.length file.now.part_size k) }
    ensures source { SourceLater (S.view source.old) (S.view source.new) (IsErrOf result Fault) }
    ensures reads { (S.view source.new).reads ≡ (S.view source.old).reads }
{
    let wanted = file.part_len(k);
    let told = match source.size(blob) {
        Ok(told) => told,
        Err(e) => return Err(ResolveError::from(e)),
    };
    if told == wanted {
        return Ok(());
    }
    let name = file.part_name(alloc, k)?;
    Err(ResolveError::PartSize { name, told, wanted })
}

/// Whether the blobs of a file's parts have their sizes.
fn size_parts<A: Archive, S: BlobSource<A>>(
    alloc: Global,
    source: &mut S,
    file: &FileRecord,
    blobs: &[u32],
) -> Result<(), ResolveError>
    requires kept { IsFile file.now }
    requires count { length blobs.now ≡ parts_of file.now }
    requires named { IsTrue A.tells → AreNamed A.blobs file.now blobs.now }
    ensures wrong { IsTrue A.tells → Resolves result (wrong_in A.blobs file.now) }
    ensures sized { IsTrue A.tells → OnOk result (AreSized A.blobs file.now blobs.now) }
    ensures source { SourceLater (S.view source.old) (S.view source.new) (IsErrOf result Fault) }
    ensures reads { (S.view source.new).reads ≡ (S.view source.old).reads }
{
    for k in 0..blobs.len() {
        match size_part(alloc, source, file, k as u64, blobs[k]) {
            Ok(()) => {}
            Err(e) => return Err(e),
        }
    }
    Ok(())
}

/// The files of a manifest with the blobs of their parts.
fn find_files<A: Archive, S: BlobSource<A>>(
    alloc: Global,
    source: &mut S,
    manifest: &Manifest,
) -> Result<Vec<FileEntry>, ResolveError>
    ensures count { IfOk result (λ v. length v.items ≡ length manifest.now.files) }
    ensures entries { IfOk result (λ v. AreEntries A.tells A.blobs manifest.now.files (map parts_in v.items)) }
    ensures missing { IsTrue A.tells → Resolves result (first_of (missing_in A.blobs) manifest.now.files) }
    ensures source { SourceLater (S.view source.old) (S.view source.new) (IsErrOf result Fault) }
    ensures reads { (S.view source.new).reads ≡ (S.view source.old).reads }
{
    let mut entries = Vec::new(alloc);
    for i in 0..manifest.files_len() {
        let file = manifest.file(i);
        let blobs = match find_parts(alloc, source, file) {
            Ok(blobs) => blobs,
            Err(e) => return Err(e),
        };
        entries.push(FileEntry {
            length: file.length,
            part_size: file.part_size,
            blobs,
        })?;
    }
    Ok(entries)
}

/// Whether the blobs of the files' parts have their sizes.
fn size_files<A: Archive, S: BlobSource<A>>(
    alloc: Global,
    source: &mut S,
    manifest: &Manifest,
    entries: &[FileEntry],
) -> Result<(), ResolveError>
    requires count { length entries.now ≡ length manifest.now.files }
    requires entries { AreEntries A.tells A.blobs manifest.now.files (map parts_in entries.now) }
    ensures wrong { IsTrue A.tells → Resolves result (first_of (wrong_in A.blobs) manifest.now.files) }
    ensures sized { IsTrue A.tells
        → OnOk result (AllSized A.blobs (length manifest.now.files) manifest.now.files (map parts_in entries.now)) }
    ensures source { SourceLater (S.view source.old) (S.view source.new) (IsErrOf result Fault) }
    ensures reads { (S.view source.new).reads ≡ (S.view source.old).reads }
{
    for i in 0..manifest.files_len() {
        match size_parts(alloc, source, manifest.file(i), &entries[i as usize].blobs) {
            Ok(()) => {}
            Err(e) => return Err(e),
        }
    }
    Ok(())
}

/// Where the parts of a manifest's files are. The blob of every part is found first, in order of files and parts, and
/// the first that is missing is refused (`Missing`); then every size is asked, and the first that differs is refused
/// (`PartSize`). `number` is the manifest's, below 65,536. No byte of a blob is read.
///
/// `Fault` comes only where the source's count of failures rose in this call.
pub fn resolve<A: Archive, S: BlobSource<A>>(
    alloc: Global,
    source: &mut S,
    number: u32,
    manifest: &Manifest,
) -> Result<PartTable<A>, ResolveError>
    requires small { number < 65536 }
    requires whole { IsTrue A.tells → manifest_at A.blobs number ≡ Ok manifest.now }
    ensures refusal { IsTrue A.tells → Resolves result (part_refusal A.blobs manifest.now.files) }
    ensures number { IfOk result (λ t. t.number ≡ number) }
    ensures files { IfOk result (λ t. lengths_of t.files ≡ map (λ f. f.length) manifest.now.files) }
    ensures source { SourceLater (S.view source.old) (S.view source.new) (IsErrOf result Fault) }
    ensures reads { (S.view source.new).reads ≡ (S.view source.old).reads }
{
    let entries = match find_files::<A, S>(alloc, source, manifest) {
        Ok(entries) => entries,
        Err(e) => return Err(e),
    };
    match size_files::<A, S>(alloc, source, manifest, &entries) {
        Ok(()) => {
            manifest.lesson();
            Ok(PartTable::of(number, entries))
        }
        Err(e) => Err(e),
    }
}
