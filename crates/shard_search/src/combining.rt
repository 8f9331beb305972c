// The documents that a query matches, by sets of documents.
ghost use Rattle.std.specs.Prelude.{◌≡◌, ◌+◌, ◌&&◌, ℕ, List, Bool, map, length, nat_le, IsTrue, IfOk, IfErr, OnOk, OnErr};
ghost use Rattle.doc_bits.specs.Places.{zip_with, and_not};
ghost use Rattle.directory_input.specs.Files.{GoesOn};
ghost use Rattle.directory_input.specs.Causes.{HasBytesCause};
ghost use Rattle.text_lines.specs.Errors.{text_refusal};
ghost use Rattle.simpletext_postings.specs.Terms.{FitsText, IsOfBytes};
ghost use Rattle.simpletext_postings.specs.declared.rows.Row.{Row};
ghost use Rattle.query_lang.specs.Trees.{tree_of, trees_of};
ghost use Rattle.shard_search.specs.Matches.{matches, all_match, some_match, count_match, needed, is_empty};
ghost use Rattle.shard_search.specs.Hits.{has_in};
ghost use Rattle.shard_search.specs.Sets.{each_of, AreRowsOf};

use crate::terms::docs_with;
use directory_input::{BytesError, FileBytes};
use doc_bits::{DocBits, Tally};
use query_lang::{Clauses, Query};
use simpletext_postings::Dictionary;
use std::alloc::Global;
use text_lines::TextError;

/// How many sets a tally can count.
const MOST_SETS: usize = 4_294_967_295;

#[tactic(auto, using(crate::proofs::Clauses::no_queries))]
fn is_empty(clauses: &Clauses) -> bool
    ensures { result ≡ is_empty (trees_of (map tree_of clauses.now)) }
{
    clauses.len() == 0
}

/// How many queries of `should` have to match.
fn needed(must: &Clauses, filter: &Clauses, should: &Clauses, minimum: Option<u64>) -> u64
    ensures { result ≡ needed (trees_of (map tree_of must.now)) (trees_of (map tree_of filter.now))
        (trees_of (map tree_of should.now)) minimum }
{
    let only_should = !is_empty(should) && is_empty(must) && is_empty(filter);
    match minimum {
        Some(minimum) => minimum,
        None => u64::from(only_should),
    }
}

/// The set of the documents that a query matches, of the `docs` documents of a dictionary. Each term's postings are
/// read once per place in the query.
#[cycle(matching)]
pub(crate) fn matching<B: FileBytes>(
    alloc: Global,
    bytes: &mut B,
    dictionary: &Dictionary,
    docs: u32,
    query: &Query,
) -> Result<DocBits, TextError>
    requires docs { docs ≡ dictionary.now.docs }
    requires fits { FitsText (B.view bytes.old) dictionary.now }
    ensures documents { IsTrue (B.view bytes.old).tells → (rows : List Row)
        → AreRowsOf (B.view bytes.old).bytes dictionary.now rows
        → IfOk result (λ bits. bits ≡ each_of (matches (has_in rows) (tree_of query.now)) docs) }
    ensures never_bad { IsTrue (B.view bytes.old).tells → IfErr result IsOfBytes }
    ensures length { IfOk result (λ bits. length bits ≡ docs) }
    ensures goes { GoesOn B.goes_by bytes.old bytes.new }
    ensures cause { HasBytesCause (B.view bytes.old) (B.view bytes.new) (text_refusal result) }
{
    match query {
        Query::MatchAll => Ok(DocBits::ones(alloc, docs)?),
        Query::Term { field, value } => {
            docs_with(
                alloc,
                bytes,
                dictionary,
                docs,
                field.as_bytes(),
                value.as_bytes(),
            )
        }
        Query::Bool {
            must,
            filter,
            should,
            must_not,
            minimum,
        } => {
            let least = needed(must, filter, should, *minimum);
            let all = DocBits::ones(alloc, docs)?;
            let kept = match keep_all(alloc, bytes, dictionary, docs, must.as_slice(), all) {
                Ok(kept) => kept,
                Err(e) => return Err(e),
            };
            let kept = match keep_all(alloc, bytes, dictionary, docs, filter.as_slice(), kept) {
                Ok(kept) => kept,
                Err(e) => return Err(e),
            };
            let kept = match drop_any(alloc, bytes, dictionary, docs, must_not.as_slice(), kept) {
                Ok(kept) => kept,
                Err(e) => return Err(e),
            };
            keep_least(
                alloc,
                bytes,
                dictionary,
                docs,
                should.as_slice(),
                least,
                kept,
            )
        }
    }
}

/// What of a set each of these queries matches.
#[cycle(matching)]
fn keep_all<B: FileBytes>(
    alloc: Global,
    bytes: &mut B,
    dictionary: &Dictionary,
    docs: u32,
    queries: &[Query],
    set: DocBits,
) -> Result<DocBits, TextError>
    requires docs { docs ≡ dictionary.now.docs }
    requires fits { FitsText (B.view bytes.old) dictionary.now }
    requires length { length set ≡ docs }
    ensures documents { IsTrue (B.view bytes.old).tells → (rows : List Row)
        → AreRowsOf (B.view bytes.old).bytes dictionary.now rows
        → IfOk result (λ bits. bits
        ≡ zip_with ◌&&◌ set (each_of (all_match (has_in rows) (trees_of (map tree_of queries.now))) docs)) }
    ensures never_bad { IsTrue (B.view bytes.old).tells → IfErr result IsOfBytes }
    ensures length { IfOk result (λ bits. length bits ≡ docs) }
    ensures fits { FitsText (B.view bytes.new) dictionary.now }
    ensures goes { GoesOn B.goes_by bytes.old bytes.new }
    ensures cause { HasBytesCause (B.view bytes.old) (B.view bytes.new) (text_refusal result) }
{
    let mut kept = set;
    for query in queries {
        let bits = match matching(alloc, bytes, dictionary, docs, query) {
            Ok(bits) => bits,
            Err(e) => return Err(e),
        };
        kept.and(&bits);
    }
    Ok(kept)
}

/// What of a set none of these queries matches.
#[cycle(matching)]
fn drop_any<B: FileBytes>(
    alloc: Global,
    bytes: &mut B,
    dictionary: &Dictionary,
    docs: u32,
    queries: &[Query],
    set: DocBits,
) -> Result<DocBits, TextError>
    requires docs { docs ≡ dictionary.now.docs }
    requires fits { FitsText (B.view bytes.old) dictionary.now }
    requires length { length set ≡ docs }
    ensures documents { IsTrue (B.view bytes.old).tells → (rows : List Row)
        → AreRowsOf (B.view bytes.old).bytes dictionary.now rows
        → IfOk result (λ bits. bits
        ≡ zip_with and_not set (each_of (some_match (has_in rows) (trees_of (map tree_of queries.now))) docs)) }
    ensures never_bad { IsTrue (B.view bytes.old).tells → IfErr result IsOfBytes }
    ensures length { IfOk result (λ bits. length bits ≡ docs) }
    ensures fits { FitsText (B.view bytes.new) dictionary.now }
    ensures goes { GoesOn B.goes_by bytes.old bytes.new }
    ensures cause { HasBytesCause (B.view bytes.old) (B.view bytes.new) (text_refusal result) }
{
    let mut kept = set;
    for query in queries {
        let bits = match matching(alloc, bytes, dictionary, docs, query) {
            Ok(bits) => bits,
            Err(e) => return Err(e),
        };
        kept.and_not(&bits);
    }
    Ok(kept)
}

/// What of a set at least `least` of these queries match, each counted once per place. Where none has to match, their
/// postings are not read.
#[cycle(matching)]
fn keep_least<B: FileBytes>(
    alloc: Global,
    bytes: &mut B,
    dictionary: &Dictionary,
    docs: u32,
    queries: &[Query],
    least: u64,
    set: DocBits,
) -> Result<DocBits, TextError>
    requires docs { docs ≡ dictionary.now.docs }
    requires fits { FitsText (B.view bytes.old) dictionary.now }
    requires length { length set ≡ docs }
    ensures documents { IsTrue (B.view bytes.old).tells → (rows : List Row)
        → AreRowsOf (B.view bytes.old).bytes dictionary.now rows
        → IfOk result (λ bits. bits
        ≡ zip_with ◌&&◌ set (each_of (λ d.
        nat_le least (count_match (has_in rows) (trees_of (map tree_of queries.now)) d)) docs)) }
    ensures never_bad { IsTrue (B.view bytes.old).tells → IfErr result IsOfBytes }
    ensures length { IfOk result (λ bits. length bits ≡ docs) }
    ensures goes { GoesOn B.goes_by bytes.old bytes.new }
    ensures cause { HasBytesCause (B.view bytes.old) (B.view bytes.new) (text_refusal result) }
{
    if least == 0 {
        return Ok(set);
    }
    let tally = match count_each(alloc, bytes, dictionary, docs, queries) {
        Ok(tally) => tally,
        Err(e) => return Err(e),
    };
    let mut kept = set;
    let mut enough = DocBits::zeros(alloc, docs)?;
    tally.at_least(least, &mut enough);
    kept.and(&enough);
    Ok(kept)
}

/// How many of these queries match each document.
#[cycle(matching)]
fn count_each<B: FileBytes>(
    alloc: Global,
    bytes: &mut B,
    dictionary: &Dictionary,
    docs: u32,
    queries: &[Query],
) -> Result<Tally, TextError>
    requires docs { docs ≡ dictionary.now.docs }
    requires fits { FitsText (B.view bytes.old) dictionary.now }
    ensures counts { IsTrue (B.view bytes.old).tells → (rows : List Row)
        → AreRowsOf (B.view bytes.old).bytes dictionary.now rows
        → IfOk result (λ tally. tally.counts
        ≡ each_of (count_match (has_in rows) (trees_of (map tree_of queries.now))) docs) }
    ensures never_bad { IsTrue (B.view bytes.old).tells → IfErr result IsOfBytes }
    ensures length { IfOk result (λ tally. length tally.counts ≡ docs) }
    ensures goes { GoesOn B.goes_by bytes.old bytes.new }
    ensures cause { HasBytesCause (B.view bytes.old) (B.view bytes.new) (text_refusal result) }
{
    if queries.len() > MOST_SETS {
        return Err(TextError::Bytes(BytesError::NoMemory));
    }
    let mut tally = Tally::new(alloc, docs)?;
    for query in queries {
        let bits = match matching(alloc, bytes, dictionary, docs, query) {
            Ok(bits) => bits,
            Err(e) => return Err(e),
        };
        tally.add(&bits);
    }
    Ok(tally)
}
