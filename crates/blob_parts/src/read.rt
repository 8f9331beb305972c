// Reading the bytes of a file of a table.
ghost use Rattle.std.specs.Prelude.{◌≡◌, ◌<◌, ◌≤◌, ◌+◌, length, take, drop, IsTrue, OnOk, IfOk, IsErr, IsErrOf};
ghost use Rattle.cache_outside.specs.declared.fault.OutError.TheVariants.{Failed};
ghost use Rattle.cache_outside.specs.Listing.{IsWithin, blob_bytes};
ghost use Rattle.blob_parts.specs.declared.read.FetchError.TheVariants.{NoMemory};
ghost use Rattle.blob_parts.specs.Content.{content, content_places, places, slice_of};
ghost use Rattle.blob_parts.specs.Tables.{file_length};
ghost use Rattle.blob_parts.specs.Takes.{SourceLater, Took, Takes};

use crate::PartTable;
use cache_outside::{Archive, BlobSource, OutError};
use std::alloc::AllocError;

/// Why bytes could not be read.
#[derive(Clone, Copy, Debug, PartialEq, Eq)]
pub enum FetchError {
    /// The source failed, and its count of failures rose.
    Fault,
    /// The source wanted memory.
    NoMemory,
}

fn fetch_error(e: OutError) -> FetchError
    ensures { result ≡ FetchError.Fault → e ≡ OutError.Failed }
{
    match e {
        OutError::Failed => FetchError::Fault,
        OutError::NoMemory => FetchError::NoMemory,
    }
}

impl From<AllocError> for FetchError {
    ghost from_gives = { λ _ e. e ≡ NoMemory };

    fn from(_: AllocError) -> Self {
        FetchError::NoMemory
    }
}

/// Some bytes of a blob from place `at` on, and how many: one read of the source.
pub(crate) fn read_blob<A: Archive, S: BlobSource<A>>(
    source: &mut S,
    blob: u32,
    at: u64,
    out: &mut [u8],
) -> Result<usize, FetchError>
    requires within { IsTrue A.tells → IsWithin A.blobs blob at (length out.old) }
    requires some { 0 < length out.old }
    ensures count { IfOk result (λ n. (0 < n) × (n ≤ length out.old)) }
    ensures bytes { IsTrue A.tells → IfOk result (λ n. take n out.new ≡ take n (drop at (blob_bytes A.blobs blob))) }
    ensures source { SourceLater (S.view source.old) (S.view source.new) (IsErrOf result FetchError.Fault) }
    ensures reads { IfOk result (λ n. Took (S.view source.old).reads (S.view source.new).reads (places blob at n)) }
    ensures unread { IsErr result → (S.view source.new).reads ≡ (S.view source.old).reads }
{
    match source.read(blob, at, out) {
        Ok(n) => Ok(n),
        Err(e) => Err(fetch_error(e)),
    }
}

/// Some first bytes of a file's range, and how many: one read of the source.
fn read_some<A: Archive, S: BlobSource<A>>(
    source: &mut S,
    table: &PartTable<A>,
    file: u32,
    at: u64,
    out: &mut [u8],
) -> Result<usize, FetchError>
    requires file { file < length table.now.files }
    requires some { 0 < length out.old }
    requires inside { at + length out.old ≤ file_length table.now file }
    ensures count { IfOk result (λ n. (0 < n) × (n ≤ length out.old)) }
    ensures bytes { IsTrue A.tells
        → IfOk result (λ n. take n out.new ≡ slice_of (content A.blobs table.now.number file) at n) }
    ensures source { SourceLater (S.view source.old) (S.view source.new) (IsErrOf result FetchError.Fault) }
    ensures reads { IsTrue A.tells → IfOk result (λ n. Took (S.view source.old).reads (S.view source.new).reads
        (slice_of (content_places A.blobs table.now.number file) at n)) }
    ensures unread { IsErr result → (S.view source.new).reads ≡ (S.view source.old).reads }
{
    let place = table.place(file, at);
    let most = (out.len() as u64).min(place.room) as usize;
    read_blob(source, place.blob, place.at, &mut out[..most])
}

/// Fills `out` with the bytes of a file from place `at` on, straight from the source, without a buffer between. The
/// bytes are asked in rising order, split where parts meet.
///
/// `Fault` comes only where the source's count of failures rose in this call, and `NoMemory` only from the source.
/// After a refusal `out` may hold anything.
pub fn read_into<A: Archive, S: BlobSource<A>>(
    source: &mut S,
    table: &PartTable<A>,
    file: u32,
    at: u64,
    out: &mut [u8],
) -> Result<(), FetchError>
    requires file { file < length table.now.files }
    requires inside { at + length out.old ≤ file_length table.now file }
    ensures bytes { IsTrue A.tells
        → OnOk result (out.new ≡ slice_of (content A.blobs table.now.number file) at (length out.old)) }
    ensures source { SourceLater (S.view source.old) (S.view source.new) (IsErrOf result FetchError.Fault) }
    ensures reads { IsTrue A.tells → Takes (S.view source.old).reads (S.view source.new).reads
        (slice_of (content_places A.blobs table.now.number file) at (length out.old)) result }
{
    let _length = table.length(file);
    let mut done = 0;
    while done < out.len() {
        match read_some(source, table, file, at + done as u64, &mut out[done..]) {
            Ok(count) => done += count,
            Err(e) => return Err(e),
        }
    }
    Ok(())
}
