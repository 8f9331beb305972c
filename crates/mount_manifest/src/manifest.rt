// A manifest that was read.
ghost use Rattle.std.specs.Prelude.{◌≡◌, ◌<◌, length, sum_by, slice_get, Some, IfSome};
ghost use Rattle.mount_manifest.specs.Steps.{Gives};
ghost use Rattle.mount_manifest.specs.Manifest.{manifest, checked, file_number, segment_number};
ghost use Rattle.mount_manifest.specs.Sound.{IsSound, IsFile, IsSegment};

use crate::form::{ShapedText, json_of, shaped};
use crate::limits::{
    all_file_limits, all_placed, all_segment_limits, at_most, file_number, no_double_files,
    no_double_segments,
};
use crate::{Field, FileRecord, ManifestError, Segment};
use byte_text::Name;
use std::alloc::Global;
use std::marker::Model;

/// The files and segments of a mounted index, as the text of its manifest tells them. Clauses see the list of its
/// files and the list of its segments.
#[derive(Drop)]
pub struct Manifest {
    files: Vec<FileRecord>,
    segments: Vec<Segment>,
}

impl Model for Manifest {
    ghost use Rattle.mount_manifest.specs.Manifest.{Facts};
    ghost use Rattle.mount_manifest.specs.Sound.{IsSound};

    ghost Value = { Facts };

    ghost view = { λ m. record { files = m.files.items; segments = m.segments.items } };

    ghost invariant = { λ m. IsSound (record { files = m.files.items; segments = m.segments.items }) };
}

/// Goes through what is refused in a text of the right form.
#[tactic(auto, unfolding(crate::specs::Manifest::checked))]
fn checked(alloc: Global, text: ShapedText) -> Result<Manifest, ManifestError>
    ensures { Gives result (checked text) }
{
    let ShapedText { files, segments } = text;
    at_most(4096, Field::Files, files.len() as u64)?;
    all_file_limits(&files)?;
    at_most(1024, Field::Segments, segments.len() as u64)?;
    all_segment_limits(&segments)?;
    no_double_files(&files)?;
    no_double_segments(&segments)?;
    let segments = all_placed(alloc, &files, &segments)?;
    Ok(Manifest { files, segments })
}

impl Manifest {
    /// Reads the text of a manifest: one JSON value. A member that is not named here is passed over, at every level;
    /// where a member stands twice, `serde_json` takes the last.
    ///
    /// The first refusal in this order is answered, each pass going through the whole text before the next begins:
    ///
    /// 1. `Limit` on `bytes`: more than 16,777,216 bytes.
    /// 2. `NotJson`: bytes that are no UTF-8, or a text that `serde_json` refuses.
    /// 3. `Shape`, the first member that is missing or not of its form: the top value is an object (`manifest`);
    ///    `version` is the whole number 1; `files` is an array of objects; then file by file `name` (3 to 200 bytes
    ///    that begin with `__` and do not end with `.part` and digits), `physical_name`, `length` in bytes, and
    ///    `part_size` in bytes, which may be missing or null: then the file is one part; `segments` is an array of
    ///    objects; then segment by segment `name`, `docs`, `postings`, and `stored` and `live`, which may be missing
    ///    or null. Names are of the type `Name`, numbers whole and below 2^64.
    /// 4. `Limit`, with the value that passed it: more than 4,096 `files`; file by file a `length` above
    ///    1,099,511,623,680, a `part_size` of 0, more than 1,048,576 `parts` so far; more than 1,024 `segments`;
    ///    segment by segment more than 16,777,216 `docs`. The limit on `length` keeps the number of a file's last
    ///    region below 268,435,455, where regions have at least 4,096 bytes.
    /// 5. `Double`: the first file whose physical name or name is that of an earlier file, by its physical name; else
    ///    the first segment whose name is that of an earlier one.
    /// 6. `NoFile`: the first of the segments' `postings`, `stored` and `live` that is no file's physical name.
    ///
    /// Want of memory (`NoMemory`) may come at any time.
    pub fn read(alloc: Global, bytes: &[u8]) -> Result<Manifest, ManifestError>
        ensures { Gives result (manifest bytes.now) }
    {
        at_most(16_777_216, Field::Bytes, bytes.len() as u64)?;
        let value = json_of(alloc, bytes)?;
        let text = shaped(alloc, &value)?;
        checked(alloc, text)
    }

    /// What is true of every manifest, whatever its text: limits, numbers of files, names that differ.
    pub fn lesson(&self)
        ensures { IsSound self.now }
    {
        let _files = &self.files;
    }

    /// How many files there are: at most 4,096.
    pub fn files_len(&self) -> u32
        ensures { result ≡ length self.now.files }
    {
        self.files.len() as u32
    }

    /// How many segments there are: at most 1,024.
    pub fn segments_len(&self) -> u32
        ensures { result ≡ length self.now.segments }
    {
        self.segments.len() as u32
    }

    /// The file with this number.
    pub fn file(&self, i: u32) -> &FileRecord
        requires { i < length self.now.files }
        ensures value { slice_get self.now.files i ≡ Some result.now }
        ensures kept { IsFile result.now }
    {
        &self.files[i as usize]
    }

    /// The segment with this number.
    pub fn segment(&self, i: u32) -> &Segment
        requires { i < length self.now.segments }
        ensures value { slice_get self.now.segments i ≡ Some result.now }
        ensures kept { IsSegment (length self.now.files) result.now }
    {
        &self.segments[i as usize]
    }

    /// The number of the file with this physical name, None exactly where there is none.
    pub fn find_file(&self, name: &Name) -> Option<u32>
        ensures number { result ≡ file_number self.now.files name.now }
        ensures below { IfSome result (λ i. i < length self.now.files) }
    {
        file_number(&self.files, name)
    }

    /// The number of the segment with this name, None exactly where there is none.
    pub fn find_segment(&self, name: &Name) -> Option<u32>
        ensures number { result ≡ segment_number self.now.segments name.now }
        ensures below { IfSome result (λ i. i < length self.now.segments) }
    {
        for i in 0..self.segments.len() {
            if self.segments[i].name == *name {
                return Some(i as u32);
            }
        }
        None
    }

    /// The documents of all segments.
    pub fn docs_total(&self) -> u64
        ensures { result ≡ sum_by (λ s. s.docs) self.now.segments }
    {
        let mut total = 0;
        for segment in &self.segments {
            total += segment.docs as u64;
        }
        total
    }
}

// A missing proof of `Send` or `Sync` shows here, and not first at the threads above.
fn crosses<T: Send + Sync>() {}

/// A manifest may be shared by threads.
pub fn manifest_crosses() {
    crosses::<Manifest>();
}
