// What a manifest tells of a file and of a segment.
ghost use Rattle.std.specs.Prelude.{◌≡◌, ◌≤◌, ◌<◌, ◌+◌, ◌-◌, ◌*◌, ◌++◌, length, codes, IfOk};
ghost use Rattle.std.specs.Fmt.{decimal};
ghost use Rattle.mount_manifest.specs.Parts.{part_length, part_name, parts_of};

use byte_text::Name;
use std::alloc::{AllocError, Global};

/// A file of a mount: the number of its manifest, and its own in that manifest.
#[derive(Clone, Copy, Debug, PartialEq, Eq)]
pub struct FileId {
    pub manifest: u32,
    pub file: u32,
}

/// A file of an index, whose bytes stand in one or more blobs of the store.
#[derive(Drop)]
pub struct FileRecord {
    /// What its blobs are named after.
    pub name: Name,
    /// Its name in the index.
    pub physical_name: Name,
    /// Its length in bytes.
    pub length: u64,
    /// The size in bytes of each of its parts but the last.
    pub part_size: u64,
}

/// A segment of an index. Its files are given by their numbers in the manifest.
#[derive(Drop)]
pub struct Segment {
    /// Its name.
    pub name: Name,
    /// How many documents it has, with those that are no longer live.
    pub docs: u32,
    /// The file of its postings.
    pub postings: u32,
    /// The file of its stored fields.
    pub stored: Option<u32>,
    /// The file of its live documents; without one all are live.
    pub live: Option<u32>,
}

/// A segment as the text has it, with its files by their names.
#[derive(Drop)]
pub struct NamedSegment {
    pub name: Name,
    pub docs: u64,
    pub postings: Name,
    pub stored: Option<Name>,
    pub live: Option<Name>,
}

impl FileRecord {
    /// How many parts the file has: its length divided by the part size, rounded up, and at least 1.
    pub fn parts(&self) -> u64
        requires { 1 ≤ self.now.part_size }
        ensures count { result ≡ parts_of self.now }
        ensures least { 1 ≤ result }
        ensures most { result ≤ self.now.length + 1 }
        ensures whole { self.now.length ≤ result * self.now.part_size }
        ensures needed { 1 < result → (result - 1) * self.now.part_size < self.now.length }
    {
        self.length.div_ceil(self.part_size).max(1)
    }

    /// The length in bytes of part `k`, from 0: every part but the last has the part size, and the last has the rest.
    pub fn part_len(&self, k: u64) -> u64
        requires size { 1 ≤ self.now.part_size }
        requires part { k < parts_of self.now }
        ensures value { result ≡ part_length self.now.length self.now.part_size k }
        ensures inner { k + 1 < parts_of self.now → result ≡ self.now.part_size }
        ensures last { k + 1 ≡ parts_of self.now → k * self.now.part_size + result ≡ self.now.length }
    {
        (self.length - k * self.part_size).min(self.part_size)
    }

    /// The name of the blob that holds part `k`, from 0: the file's own where it has one part, else that with
    /// `.part` and `k` in decimal.
    pub fn part_name(&self, alloc: Global, k: u64) -> Result<Name, AllocError>
        requires size { 1 ≤ self.now.part_size }
        requires part { k < parts_of self.now }
        requires name { length self.now.name ≤ 200 }
        ensures { IfOk result (λ n. n ≡ part_name self.now k) }
    {
        if self.parts() == 1 {
            return self.name.clone();
        }
        numbered(alloc, &self.name, k)
    }
}

/// The name with `.part` and k in decimal.
fn numbered(alloc: Global, name: &Name, k: u64) -> Result<Name, AllocError>
    requires { length name.now ≤ 200 }
    ensures { IfOk result (λ n. n ≡ name.now ++ (codes ".part" ++ decimal k)) }
{
    let own = name.as_str();
    let text = format!(in alloc; "{own}.part{k}")?;
    Ok(Name::read(alloc, text.as_bytes())?.unwrap())
}
