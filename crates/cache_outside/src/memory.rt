// A source in memory.
ghost use Rattle.std.specs.Prelude.{◌≡◌, ◌<◌, ◌≤◌, IsTrue, Some, [], length, take, drop};
ghost use Rattle.cache_outside.specs.Listing.{manifests};

use crate::calls::Calls;
use crate::listed::{bytes_at, number, place};
use crate::{Archive, BlobSource, OutError, SourceCall};
use byte_text::Blobs;
use std::alloc::Global;
use std::marker::PhantomData;

/// A source of the blobs of a list, in memory. It gives at most `step` bytes a read, fails at the calls listed,
/// counted from 1 by kind, and keeps its reads.
#[derive(Drop)]
pub struct MemSource<A: Archive> {
    blobs: Blobs,
    step: usize,
    calls: Calls,
    number: u64,
    reads: Vec<(u32, u64, u64)>,
    archive: PhantomData<A>,
    pub ghost step_is_some: { 0 < step },
    pub ghost few_manifests: { length (manifests blobs) ≤ 65536 },
    pub ghost whole: { IsTrue A.tells → blobs ≡ A.blobs },
}

impl<A: Archive> MemSource<A> {
    ghost use Rattle.cache_outside.specs.MemSources.{source_view};

    /// A source of these blobs that was not read yet; takes no memory. At most 65,536 of the blobs are
    /// manifests (`manifests_in`), and where the archive tells they are the archive's.
    pub fn new(
        alloc: Global,
        blobs: Blobs,
        step: usize,
        fails: Vec<(SourceCall, u64)>,
    ) -> MemSource<A>
        requires step { 0 < step }
        requires few_manifests { length (manifests blobs) ≤ 65536 }
        requires whole { IsTrue A.tells → blobs ≡ A.blobs }
        ensures source { source_view result ≡ record { identity = 0; faults = 0; reads = Some [] } }
    {
        MemSource {
            blobs,
            step,
            calls: Calls::new(fails),
            number: 0,
            reads: Vec::new(alloc),
            archive: PhantomData,
        }
    }

    /// The same source under a number of its own, by which callers tell it from others; without it the number is 0.
    pub fn with_number(mut self, number: u64) -> MemSource<A>
        ensures source { source_view result ≡ record (source_view self) { identity = number } }
    {
        self.number = number;
        self
    }

    /// The reads so far that gave a byte, in order: blob, place and count.
    pub fn reads(&self) -> &[(u32, u64, u64)]
        ensures { (source_view self.now).reads ≡ Some result.now }
    {
        &self.reads
    }
}

/// Copies at most `most` bytes from a place on, and says how many.
fn copy_some(bytes: &[u8], at: usize, most: usize, out: &mut [u8]) -> usize
    requires place { at < length bytes.now }
    requires some { 0 < most }
    ensures most { result ≤ length out.old }
    ensures least { 0 < length out.old → 0 < result }
    ensures front { take result out.new ≡ take result (drop at bytes.now) }
{
    let count = out.len().min(most).min(bytes.len() - at);
    out[..count].copy_from_slice(&bytes[at..at + count]);
    count
}

impl<A: Archive> BlobSource<A> for MemSource<A> {
    ghost use Rattle.cache_outside.specs.MemSources.{source_view};

    ghost view = { source_view };

    fn find(&mut self, name: &str) -> Result<Option<u32>, OutError> {
        self.calls.begin(SourceCall::Find)?;
        match place(&self.blobs, name) {
            None => Ok(None),
            Some(k) => match u32::try_from(k) {
                Ok(k) => Ok(Some(k)),
                Err(_) => Err(self.calls.fail()),
            },
        }
    }

    fn manifest(&mut self, name: &str) -> Result<Option<u32>, OutError> {
        self.calls.begin(SourceCall::Manifest)?;
        match number(&self.blobs, name) {
            None => Ok(None),
            Some(k) => Ok(Some(k as u32)),
        }
    }

    fn size(&mut self, blob: u32) -> Result<u64, OutError> {
        self.calls.begin(SourceCall::Size)?;
        let k = blob as usize;
        if k < self.blobs.len() {
            Ok(bytes_at(&self.blobs, k).len() as u64)
        } else {
            Err(self.calls.fail())
        }
    }

    fn read(&mut self, blob: u32, at: u64, out: &mut [u8]) -> Result<usize, OutError> {
        self.reads.reserve(1)?;
        self.calls.begin(SourceCall::Read)?;
        if out.is_empty() {
            return Ok(0);
        }
        let k = blob as usize;
        if k >= self.blobs.len() {
            return Err(self.calls.fail());
        }
        let bytes = bytes_at(&self.blobs, k);
        if at >= bytes.len() as u64 {
            return Err(self.calls.fail());
        }
        let count = copy_some(bytes, at as usize, self.step, out);
        self.reads.push((blob, at, count as u64))?;
        Ok(count)
    }
}
