// Tests over whole archives, one file an archive, and what they share.
ghost use Rattle.std.specs.Prelude.{◌<◌};

mod lucene_tests;
mod sample_tests;
mod shelf_tests;

use blob_parts::{DirectBytes, load, resolve};
use cache_outside::{Archive, MemSource};
use query_lang::{Query, QueryError};
use shard_search::{Hits, Shelf, fetch_doc, search};
use simpletext_stored::StoredField;
use std::alloc::Global;
use std::test::Fail;

/// The text of hits: their number, and each segment's number and document.
fn text_of(alloc: Global, hits: &Hits) -> Result<String, Fail> {
    let mut text = format!(in alloc; "{}", hits.total)?;
    for i in 0..hits.list.len() {
        let hit = hits.list.get(i);
        text.push_str(format!(in alloc; " {}/{}", hit.segment, hit.doc)?.as_str())?;
    }
    Ok(text)
}

/// What a search of a manifest finds, as a text; or the step that refused.
fn found<A: Archive>(
    alloc: Global,
    source: &mut MemSource<A>,
    manifest: &str,
    query: &str,
    size: u32,
) -> Result<String, Fail> {
    let query = match Query::read(alloc, query.as_bytes()) {
        Ok(query) => query,
        Err(QueryError::Shape) => return Ok(String::from_str(alloc, "bad query")?),
        Err(e) => return Err(Fail::from(e)),
    };
    let Ok((number, shard)) = load::<A, MemSource<A>>(alloc, source, manifest) else {
        return Ok(String::from_str(alloc, "not loaded")?);
    };
    let Ok(table) = resolve::<A, MemSource<A>>(alloc, source, number, &shard) else {
        return Ok(String::from_str(alloc, "not resolved")?);
    };
    let mut bytes = DirectBytes::<A, MemSource<A>>::new(source, &table);
    match search(
        alloc,
        &mut bytes,
        &mut Shelf::new(alloc),
        &shard,
        &query,
        size,
    ) {
        Ok(hits) => text_of(alloc, &hits),
        Err(_) => Ok(String::from_str(alloc, "refused")?),
    }
}

/// The stored fields of a document of the first segment; None also where it has no stored file.
fn document<A: Archive>(
    alloc: Global,
    source: &mut MemSource<A>,
    manifest: &str,
    doc: u32,
) -> Result<Option<Vec<StoredField>>, Fail> {
    let Ok((number, shard)) = load::<A, MemSource<A>>(alloc, source, manifest) else {
        return Ok(None);
    };
    let Ok(table) = resolve::<A, MemSource<A>>(alloc, source, number, &shard) else {
        return Ok(None);
    };
    if shard.segments_len() == 0 || shard.segment(0).stored.is_none() {
        return Ok(None);
    }
    let mut bytes = DirectBytes::<A, MemSource<A>>::new(source, &table);
    Ok(fetch_doc(alloc, &mut bytes, &shard, 0, doc)?)
}
