//! Searches and fetches over files in memory.
use crate::samples::three_files;
use directory_input::BytesError;
use mount_manifest::Manifest;
use query_lang::{Query, Text};
use shard_search::{Hits, SearchError, Shelf, fetch_doc, search};
use std::alloc::{AllocError, Global};
use std::process::Abort;
use std::test::Fail;

/// All documents are live.
const ALL: &str = r#"{"version":1,"files":[{"name":"__a","physical_name":"_0.pst","length":172}],
"segments":[{"name":"_0","docs":3,"postings":"_0.pst"}]}"#;

/// Documents 0 and 2 are live.
const SOME: &str = r#"{"version":1,"files":[{"name":"__a","physical_name":"_0.pst","length":172},
{"name":"__c","physical_name":"_0.fld","length":111},{"name":"__d","physical_name":"_0_1.liv","length":57}],
"segments":[{"name":"_0","docs":3,"postings":"_0.pst","stored":"_0.fld","live":"_0_1.liv"}]}"#;

/// Two segments: the second has the live documents of the first as its postings, and the stored fields as its live
/// ones.
const BAD: &str = r#"{"version":1,"files":[{"name":"__a","physical_name":"_0.pst","length":172},
{"name":"__c","physical_name":"_0.fld","length":111},{"name":"__d","physical_name":"_0_1.liv","length":57}],
"segments":[{"name":"_0","docs":3,"postings":"_0.pst"},
{"name":"_1","docs":3,"postings":"_0_1.liv","live":"_0.fld"}]}"#;

const BOTH: &str = r#"{"bool":{"should":[{"term":{"body":"fox"}},{"term":{"body":"red"}}],
"minimum_should_match":2}}"#;

const MORE_THAN_BOTH: &str = r#"{"bool":{"should":[{"term":{"body":"fox"}},{"term":{"body":"red"}}],
"minimum_should_match":3}}"#;

const FOX_TWICE: &str = r#"{"bool":{"should":[{"term":{"body":"fox"}},{"term":{"body":"fox"}}],
"minimum_should_match":2}}"#;

/// The total, and each hit that is shown.
fn text_of(alloc: Global, hits: &Hits) -> Result<String, AllocError> {
    let total = hits.total;
    let mut text = format!(in alloc; "{total}")?;
    for i in 0..hits.list.len() {
        let hit = hits.list.get(i);
        let (segment, doc) = (hit.segment, hit.doc);
        let one = format!(in alloc; " {segment}/{doc}")?;
        text.push_str(&one)?;
    }
    Ok(text)
}

/// What a search of these files gives, or `bad`, the file and the place.
fn answer(
    rt: &impl Abort,
    alloc: Global,
    manifest: &str,
    query: &[u8],
    size: u32,
) -> Result<String, Fail> {
    let shard = Manifest::read(alloc, manifest.as_bytes())?;
    let query = Query::read(alloc, query)?;
    let mut bytes = three_files(alloc, 0)?;
    assert!(rt; shard.files_len() <= 3);
    match search(
        alloc,
        &mut bytes,
        &mut Shelf::new(alloc),
        &shard,
        &query,
        size,
    ) {
        Ok(hits) => Ok(text_of(alloc, &hits)?),
        Err(SearchError::Bad { file, at }) => Ok(format!(in alloc; "bad {file} {at}")?),
        Err(e) => Err(Fail::from(e)),
    }
}

#[test]
fn finds_what_matches(rt: HostRuntime) -> Result<(), Fail> {
    let alloc = rt.alloc();
    for (manifest, query, size, expected) in [
        (ALL, "{\"term\":{\"body\":\"fox\"}}", 10, "2 0/0 0/2"),
        (ALL, "{\"term\":{\"body\":\"fox\"}}", 1, "2 0/0"),
        (
            ALL,
            "{\"bool\":{\"must_not\":{\"term\":{\"body\":\"red\"}}}}",
            10,
            "2 0/1 0/2",
        ),
        (
            SOME,
            "{\"bool\":{\"must_not\":{\"term\":{\"body\":\"red\"}}}}",
            10,
            "1 0/2",
        ),
        (ALL, "{\"bool\":{}}", 0, "3"),
        (ALL, BOTH, 10, "1 0/0"),
        (ALL, MORE_THAN_BOTH, 10, "0"),
        (ALL, FOX_TWICE, 10, "2 0/0 0/2"),
        (ALL, "{\"term\":{\"none\":\"fox\"}}", 10, "0"),
        // every segment is looked at, whatever the size, and its postings before its live documents
        (BAD, "{\"match_all\":{}}", 0, "bad 2 0"),
    ] {
        assert_eq!(rt;
            answer(&rt, alloc, manifest, query.as_bytes(), size)?.as_str(),
            expected
        );
    }
    Ok(())
}

#[test]
fn counts_many_clauses(rt: HostRuntime) -> Result<(), Fail> {
    let alloc = rt.alloc();
    let mut query = Text::of(
        alloc,
        b"{\"bool\":{\"minimum_should_match\":100001,\"should\":[",
    )?;
    for _ in 0..100_000 {
        query.extend(b"{\"match_all\":{}},")?;
    }
    query.extend(b"{\"term\":{\"body\":\"fox\"}}]}}")?;
    assert_eq!(rt;
        answer(&rt, alloc, ALL, query.as_bytes(), 10)?.as_str(),
        "2 0/0 0/2"
    );
    Ok(())
}

/// The fields of a document of the files of which some documents are live: how many, and the value of the last one.
fn fetched(rt: &impl Abort, alloc: Global, doc: u32) -> Result<Option<(usize, Text)>, Fail> {
    let shard = Manifest::read(alloc, SOME.as_bytes())?;
    let mut bytes = three_files(alloc, 0)?;
    assert!(rt; shard.files_len() <= 3);
    assert!(rt; shard.segments_len() > 0);
    assert!(rt; shard.segment(0).stored.is_some());
    let Some(mut fields) = fetch_doc(alloc, &mut bytes, &shard, 0, doc)? else {
        return Ok(None);
    };
    let count = fields.len();
    match fields.pop() {
        Some(field) => Ok(Some((count, field.value))),
        None => Ok(Some((count, Text::new(alloc)))),
    }
}

#[test]
fn fetches_a_live_document(rt: HostRuntime) -> Result<(), Fail> {
    let alloc = rt.alloc();
    let first = fetched(&rt, alloc, 0)?;
    assert!(rt; first.is_some());
    if let Some((count, value)) = first {
        assert_eq!(rt; count, 1);
        assert_eq!(rt; value.as_bytes(), b"red fox".as_slice());
    }
    assert!(rt; fetched(&rt, alloc, 1)?.is_none());
    assert!(rt; fetched(&rt, alloc, 3)?.is_none());
    Ok(())
}

#[test]
fn answers_after_a_fault(rt: HostRuntime) -> Result<(), Fail> {
    let alloc = rt.alloc();
    let shard = Manifest::read(alloc, ALL.as_bytes())?;
    let query = Query::read(alloc, b"{\"term\":{\"body\":\"fox\"}}")?;
    let mut bytes = three_files(alloc, 1)?;
    let mut shelf = Shelf::new(alloc);
    assert!(rt; shard.files_len() <= 3);
    let failed = matches!(
        search(alloc, &mut bytes, &mut shelf, &shard, &query, 10),
        Err(SearchError::Bytes(BytesError::Fault))
    );
    assert!(rt; failed);
    let hits = search(alloc, &mut bytes, &mut shelf, &shard, &query, 10)?;
    assert_eq!(rt; text_of(alloc, &hits)?.as_str(), "2 0/0 0/2");
    Ok(())
}

#[test]
fn answers_after_a_bad_text(rt: HostRuntime) -> Result<(), Fail> {
    let alloc = rt.alloc();
    let shard = Manifest::read(alloc, BAD.as_bytes())?;
    let query = Query::read(alloc, b"{\"term\":{\"body\":\"fox\"}}")?;
    let mut bytes = three_files(alloc, 0)?;
    let mut shelf = Shelf::new(alloc);
    assert!(rt; shard.files_len() <= 3);
    // the first segment's dictionary is kept, and the second one's text is bad once more
    let failed = matches!(
        search(alloc, &mut bytes, &mut shelf, &shard, &query, 10),
        Err(SearchError::Bad { file: 2, at: 0 })
    );
    assert!(rt; failed);
    let failed = matches!(
        search(alloc, &mut bytes, &mut shelf, &shard, &query, 10),
        Err(SearchError::Bad { file: 2, at: 0 })
    );
    assert!(rt; failed);
    Ok(())
}
