// The files of a segment.
ghost use Rattle.std.specs.Prelude.{◌≡◌, ◌<◌, ◌&&◌, ℕ, List, Bool, Some, None, IsTrue, IfOk, IfErr, MatchOption, length};
ghost use Rattle.std.specs.Option.{ForSome};
ghost use Rattle.doc_bits.specs.Places.{zip_with};
ghost use Rattle.directory_input.specs.Files.{GoesOn};
ghost use Rattle.directory_input.specs.Causes.{HasBytesCause};
ghost use Rattle.directory_input.specs.Windows.{window_bytes};
ghost use Rattle.simpletext_postings.specs.Postings.{postings};
ghost use Rattle.simpletext_postings.specs.Terms.{FitsText};
ghost use Rattle.query_lang.specs.Trees.{tree_of};
ghost use Rattle.shard_search.specs.Hits.{segment_docs, live_in, in_file};
ghost use Rattle.shard_search.specs.Answers.{search_refusal, GivesSet, GivesLive, Opens, NamesFile};
ghost use Rattle.shard_search.specs.Shelves.{kept_at, whole_file, IsKept, KeepsMore};

use crate::combining::matching;
use crate::error::refused_in;
use crate::{SearchError, Shelf};
use directory_input::{FileBytes, Input};
use doc_bits::DocBits;
use mount_manifest::Segment;
use query_lang::Query;
use simpletext_postings::Dictionary;
use simpletext_stored::live;
use std::alloc::Global;

/// The dictionary of a segment's postings.
pub(crate) fn dictionary<B: FileBytes>(
    alloc: Global,
    bytes: &mut B,
    segment: &Segment,
) -> Result<Dictionary, SearchError>
    requires { segment.now.postings < (B.view bytes.old).count }
    ensures rows { IsTrue (B.view bytes.old).tells
        → Opens result (in_file segment.now.postings
        (postings ((B.view bytes.old).bytes segment.now.postings) segment.now.docs)) }
    ensures kept { IfOk result (IsKept (B.view bytes.new) segment.now) }
    ensures known { (n : ℕ) → segment.now.postings < n → IfErr result (NamesFile n) }
    ensures goes { GoesOn B.goes_by bytes.old bytes.new }
    ensures cause { HasBytesCause (B.view bytes.old) (B.view bytes.new) (search_refusal result) }
{
    let input = Input::open(bytes, segment.postings);
    match Dictionary::open(alloc, bytes, input, segment.docs) {
        Ok(dictionary) => Ok(dictionary),
        Err(e) => Err(refused_in(segment.postings, e)),
    }
}

/// The live documents of a segment, where it has a file of them.
pub(crate) fn live_set<B: FileBytes>(
    alloc: Global,
    bytes: &mut B,
    segment: &Segment,
) -> Result<Option<DocBits>, SearchError>
    requires { ForSome segment.now.live (λ f. f < (B.view bytes.old).count) }
    ensures documents { IsTrue (B.view bytes.old).tells
        → GivesLive result segment.now.docs (live_in (B.view bytes.old).bytes segment.now.docs segment.now.live) }
    ensures length { IfOk result (λ o. ForSome o (λ bits. length bits ≡ segment.now.docs)) }
    ensures known { (n : ℕ) → ForSome segment.now.live (λ f. f < n) → IfErr result (NamesFile n) }
    ensures goes { GoesOn B.goes_by bytes.old bytes.new }
    ensures cause { HasBytesCause (B.view bytes.old) (B.view bytes.new) (search_refusal result) }
{
    match segment.live {
        None => Ok(None),
        Some(file) => {
            let input = Input::open(bytes, file);
            match live(alloc, bytes, input, segment.docs) {
                Ok(bits) => Ok(Some(bits)),
                Err(e) => Err(refused_in(file, e)),
            }
        }
    }
}

fn and_live(bits: DocBits, live: Option<DocBits>) -> DocBits
    requires { ForSome live (λ l. length l ≡ length bits) }
    ensures { MatchOption live (result ≡ bits) (λ l. result ≡ zip_with ◌&&◌ bits l) }
{
    let mut kept = bits;
    if let Some(live) = live {
        kept.and(&live);
    }
    kept
}

/// The set of the live documents of a segment that a query matches. Its postings are read before its live documents,
/// the whole of them only where the shelf keeps no dictionary of this segment.
pub(crate) fn found_in<B: FileBytes>(
    alloc: Global,
    bytes: &mut B,
    shelf: &mut Shelf,
    number: u32,
    segment: &Segment,
    query: &Query,
) -> Result<DocBits, SearchError>
    requires postings { segment.now.postings < (B.view bytes.old).count }
    requires live { ForSome segment.now.live (λ f. f < (B.view bytes.old).count) }
    requires kept { ForSome (kept_at shelf.old number) (IsKept (B.view bytes.old) segment.now) }
    ensures documents { IsTrue (B.view bytes.old).tells
        → GivesSet result (segment_docs (B.view bytes.old).bytes (tree_of query.now) segment.now) }
    ensures length { IfOk result (λ bits. length bits ≡ segment.now.docs) }
    ensures more { KeepsMore (B.view bytes.new) number segment.now shelf.old shelf.new }
    ensures known { (n : ℕ) → segment.now.postings < n → ForSome segment.now.live (λ f. f < n)
        → IfErr result (NamesFile n) }
    ensures goes { GoesOn B.goes_by bytes.old bytes.new }
    ensures cause { HasBytesCause (B.view bytes.old) (B.view bytes.new) (search_refusal result) }
{
    if let Err(e) = shelf.keep(alloc, bytes, number, segment) {
        return Err(e);
    }
    let dictionary = shelf.dictionary(number);
    let live = match live_set(alloc, bytes, segment) {
        Ok(live) => live,
        Err(e) => return Err(e),
    };
    let bits = match matching(alloc, bytes, dictionary, segment.docs, query) {
        Ok(bits) => bits,
        Err(e) => return Err(refused_in(segment.postings, e)),
    };
    Ok(and_live(bits, live))
}
