// The parts of a manifest's files: which blobs hold each file, and where each byte is.
ghost use Rattle.std.specs.Prelude.{◌≡◌, ◌<◌, ◌≤◌, ◌+◌, ◌-◌, ◌*◌, ◌/◌, ◌%◌, length, map, IsTrue, slice_get, Some};
ghost use Rattle.blob_parts.specs.Tables.{IsCut, IsFound, IsPlaced, IsTable, file_length};
ghost use Rattle.blob_parts.specs.Content.{content};
ghost use Rattle.blob_parts.specs.Entries.{parts_in};
ghost use Rattle.mount_manifest.specs.Parts.{part_length};

use cache_outside::Archive;
use std::marker::{Model, PhantomData};

/// A file: its length and its part size in bytes, and the numbers of the blobs of its parts.
#[derive(Drop)]
pub(crate) struct FileEntry {
    pub(crate) length: u64,
    pub(crate) part_size: u64,
    pub(crate) blobs: Vec<u32>,
}

/// Where the bytes of a manifest's files are: for each file the blobs of its parts, found and of the right size.
/// Clauses see the manifest's number and, file by file, length, part size and blobs.
#[derive(Drop)]
pub struct PartTable<A: Archive> {
    number: u32,
    entries: Vec<FileEntry>,
    archive: PhantomData<A>,
}

impl<A: Archive> Model for PartTable<A> {
    ghost use Rattle.std.specs.Prelude.{map};
    ghost use Rattle.blob_parts.specs.Tables.{TableParts, IsTable};
    ghost use Rattle.blob_parts.specs.Entries.{parts_in};

    ghost Value = { TableParts };

    ghost view = { λ t. record { number = t.number; files = map parts_in t.entries.items } };

    ghost invariant = { λ t.
        IsTable A.tells A.blobs (record { number = t.number; files = map parts_in t.entries.items }) };
}

/// Where a byte of a file is: its blob, its place there, and how many bytes of the part begin there.
#[derive(Clone, Copy, Debug, PartialEq, Eq)]
pub(crate) struct Place {
    pub(crate) blob: u32,
    pub(crate) at: u64,
    pub(crate) room: u64,
}

#[tactic(auto, using(crate::proofs::Placed::part_below))]
fn place_in(entry: &FileEntry, at: u64) -> Place
    requires cut { IsCut (parts_in entry.now) }
    requires inside { at < entry.now.length }
    ensures blob { slice_get entry.now.blobs.items (at / entry.now.part_size) ≡ Some result.blob }
    ensures at { result.at ≡ at % entry.now.part_size }
    ensures room { result.room
        ≡ part_length entry.now.length entry.now.part_size (at / entry.now.part_size) - result.at }
    ensures some { 0 < result.room }
    ensures whole { (at / entry.now.part_size) * entry.now.part_size + result.at ≡ at }
{
    let part = at / entry.part_size;
    let from = at % entry.part_size;
    let rest = entry.length - part * entry.part_size;
    let room = rest.min(entry.part_size) - from;
    Place {
        blob: entry.blobs[part as usize],
        at: from,
        room,
    }
}

impl<A: Archive> PartTable<A> {
    /// The table of these files. It keeps what its type keeps.
    pub(crate) fn of(number: u32, entries: Vec<FileEntry>) -> PartTable<A>
        requires { IsTable A.tells A.blobs (record { number = number; files = map parts_in entries.items }) }
        ensures { result ≡ record { number = number; files = map parts_in entries.items } }
    {
        PartTable {
            number,
            entries,
            archive: PhantomData,
        }
    }

    /// The manifest's number.
    pub fn number(&self) -> u32
        ensures value { result ≡ self.now.number }
        ensures small { result < 65536 }
    {
        self.number
    }

    /// How many files there are.
    pub fn files(&self) -> u32
        ensures value { result ≡ length self.now.files }
        ensures most { result ≤ 4096 }
    {
        self.entries.len() as u32
    }

    fn entry(&self, file: u32) -> &FileEntry
        requires { file < length self.now.files }
        ensures found { slice_get self.now.files file ≡ Some (parts_in result.now) }
        ensures cut { IsCut (parts_in result.now) }
        ensures blobs { IsTrue A.tells → IsFound A.blobs self.now.number file (parts_in result.now) }
    {
        &self.entries[file as usize]
    }

    /// The length of a file in bytes.
    pub fn length(&self, file: u32) -> u64
        requires { file < length self.now.files }
        ensures value { result ≡ file_length self.now file }
        ensures most { result ≤ 1099511623680 }
        ensures whole { IsTrue A.tells → length (content A.blobs self.now.number file) ≡ result }
    {
        self.entry(file).length
    }

    /// Where byte `at` of a file is.
    pub(crate) fn place(&self, file: u32, at: u64) -> Place
        requires file { file < length self.now.files }
        requires inside { at < file_length self.now file }
        ensures some { 0 < result.room }
        ensures placed { IsTrue A.tells → IsPlaced A.blobs self.now.number file at result.blob result.at result.room }
    {
        place_in(self.entry(file), at)
    }
}

// A missing proof of `Send` or `Sync` shows here, and not first at the threads above.
fn crosses<T: Send + Sync>() {}

/// A table may be shared by threads.
pub fn table_crosses<A: Archive + Send + Sync>() {
    crosses::<PartTable<A>>();
}
