// Fetching the stored fields of a document.
ghost use Rattle.std.specs.Prelude.{◌≡◌, ◌<◌, ◌≤◌, ℕ, List, Bool, length, IsTrue, IfOk, IfErr, slice_get, Some};
ghost use Rattle.std.specs.Option.{ForSome};
ghost use Rattle.directory_input.specs.Files.{GoesOn};
ghost use Rattle.directory_input.specs.Causes.{HasBytesCause};
ghost use Rattle.directory_input.specs.Windows.{window_bytes};
ghost use Rattle.simpletext_stored.specs.Stored.{stored};
ghost use Rattle.simpletext_stored.specs.Answers.{FitsStored, HasDocument};
ghost use Rattle.shard_search.specs.Hits.{document, document_in, in_file};
ghost use Rattle.shard_search.specs.Answers.{search_refusal, GivesDocument, HasStored, IsBeyond, Opens, IsOfBytes, NamesFile, is_alive};

use crate::SearchError;
use crate::error::refused_in;
use crate::files::live_set;
use directory_input::{FileBytes, Input};
use doc_bits::DocBits;
use mount_manifest::{Manifest, Segment};
use simpletext_stored::{StoredError, StoredField, StoredIndex};
use std::alloc::Global;

/// The index of a file of stored fields.
fn index_of<B: FileBytes>(
    alloc: Global,
    bytes: &mut B,
    file: u32,
    docs: u32,
) -> Result<StoredIndex, SearchError>
    requires { file < (B.view bytes.old).count }
    ensures documents { IsTrue (B.view bytes.old).tells
        → Opens result (in_file file (stored ((B.view bytes.old).bytes file) docs)) }
    ensures docs { IfOk result (λ index. index.docs ≡ docs) }
    ensures text { IsTrue (B.view bytes.old).tells
        → IfOk result (λ index. window_bytes (B.view bytes.old).bytes index.input ≡ (B.view bytes.old).bytes file) }
    ensures fits { IfOk result (FitsStored (B.view bytes.new)) }
    ensures known { (n : ℕ) → file < n → IfErr result (NamesFile n) }
    ensures goes { GoesOn B.goes_by bytes.old bytes.new }
    ensures cause { HasBytesCause (B.view bytes.old) (B.view bytes.new) (search_refusal result) }
{
    let input = Input::open(bytes, file);
    match StoredIndex::open(alloc, bytes, input, docs) {
        Ok(index) => Ok(index),
        Err(e) => Err(refused_in(file, e)),
    }
}

/// The fields of a document that the index has.
fn fields_in<B: FileBytes>(
    bytes: &mut B,
    index: &StoredIndex,
    file: u32,
    doc: u32,
) -> Result<Vec<StoredField>, SearchError>
    requires fits { FitsStored (B.view bytes.old) index.now }
    requires below { doc < index.now.docs }
    ensures fields { IsTrue (B.view bytes.old).tells
        → IfOk result (λ fields. HasDocument
        (stored (window_bytes (B.view bytes.old).bytes index.now.input) index.now.docs) doc fields.items) }
    ensures never_bad { IsTrue (B.view bytes.old).tells → IfErr result IsOfBytes }
    ensures known { (n : ℕ) → file < n → IfErr result (NamesFile n) }
    ensures goes { GoesOn B.goes_by bytes.old bytes.new }
    ensures cause { HasBytesCause (B.view bytes.old) (B.view bytes.new) (search_refusal result) }
{
    match index.fetch(bytes, doc) {
        Ok(fields) => Ok(fields),
        Err(StoredError::Bad { at }) => Err(SearchError::Bad { file, at }),
        Err(StoredError::Bytes(e)) => Err(SearchError::Bytes(e)),
        Err(StoredError::NoDoc { .. }) => unreachable!(),
    }
}

fn is_alive(live: &Option<DocBits>, doc: u32) -> bool
    requires { ForSome live.now (λ bits. doc < length bits) }
    ensures { result ≡ is_alive live.now doc }
{
    match live {
        None => true,
        Some(bits) => bits.get(doc),
    }
}

/// The stored fields of a document that the segment has, where it is live.
fn document_of<B: FileBytes>(
    alloc: Global,
    bytes: &mut B,
    segment: &Segment,
    file: u32,
    doc: u32,
) -> Result<Option<Vec<StoredField>>, SearchError>
    requires file { file < (B.view bytes.old).count }
    requires live { ForSome segment.now.live (λ f. f < (B.view bytes.old).count) }
    requires below { doc < segment.now.docs }
    ensures fields { IsTrue (B.view bytes.old).tells
        → GivesDocument result (document (B.view bytes.old).bytes file segment.now doc) }
    ensures known { (n : ℕ) → file < n → ForSome segment.now.live (λ f. f < n) → IfErr result (NamesFile n) }
    ensures goes { GoesOn B.goes_by bytes.old bytes.new }
    ensures cause { HasBytesCause (B.view bytes.old) (B.view bytes.new) (search_refusal result) }
{
    let index = match index_of(alloc, bytes, file, segment.docs) {
        Ok(index) => index,
        Err(e) => return Err(e),
    };
    let live = match live_set(alloc, bytes, segment) {
        Ok(live) => live,
        Err(e) => return Err(e),
    };
    if !is_alive(&live, doc) {
        return Ok(None);
    }
    match fields_in(bytes, &index, file, doc) {
        Ok(fields) => Ok(Some(fields)),
        Err(e) => Err(e),
    }
}

/// The stored fields of a document of a segment that has a file of them. None comes exactly where the number is not
/// below the segment's count, or the document is not live; in the first case no file is looked at. Else the file of
/// stored fields is read before that of the live documents, and `Bad` comes exactly with the first of them that has a
/// line that is not allowed, and the place of its first such line. Its condition is that the bytes are those of the
/// manifest's files.
pub fn fetch_doc<B: FileBytes>(
    alloc: Global,
    bytes: &mut B,
    shard: &Manifest,
    segment: u32,
    doc: u32,
) -> Result<Option<Vec<StoredField>>, SearchError>
    requires files { length shard.now.files ≤ (B.view bytes.old).count }
    requires stored { HasStored shard.now.segments segment }
    ensures fields { IsTrue (B.view bytes.old).tells
        → GivesDocument result (document_in (B.view bytes.old).bytes (slice_get shard.now.segments segment) doc) }
    ensures beyond { IsBeyond (slice_get shard.now.segments segment) doc result bytes.old bytes.new }
    ensures known { IfErr result (NamesFile (length shard.now.files)) }
    ensures goes { GoesOn B.goes_by bytes.old bytes.new }
    ensures cause { HasBytesCause (B.view bytes.old) (B.view bytes.new) (search_refusal result) }
{
    let segment = shard.segment(segment);
    if doc >= segment.docs {
        return Ok(None);
    }
    let file = segment.stored.unwrap();
    document_of(alloc, bytes, segment, file, doc)
}
