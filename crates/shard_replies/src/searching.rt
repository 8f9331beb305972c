// The reply to a search.
ghost use Rattle.std.specs.Prelude.{◌≡◌, ◌≤◌, length, map, take, All, IsTrue, IfOk};
ghost use Rattle.directory_input.specs.Causes.{HasBytesCause, refusal};
ghost use Rattle.directory_input.specs.Files.{GoesOn};
ghost use Rattle.query_lang.specs.Trees.{tree_of};
ghost use Rattle.shard_search.specs.Answers.{IsHitOf, pair_of};
ghost use Rattle.shard_search.specs.Shelves.{ShelfFits, StillKept};
ghost use Rattle.shard_replies.specs.Answers.{HasHits};
ghost use Rattle.shard_replies.specs.ExpectedReplies.{shown, tree_reply, search_reply};
ghost use Rattle.mount_script.specs.declared.reply.Reply.TheVariants as reply;

use crate::words::{bad_reply, made, refused};
use directory_input::{BytesError, FileBytes};
use mount_manifest::Manifest;
use mount_script::{Reply, Shown};
use query_lang::{Query, QueryError};
use shard_search::{HitList, Hits, SearchError, Shelf, search};
use std::alloc::{AllocError, Global};

/// The hits as they are shown.
fn shown_of(alloc: Global, shard: &Manifest, hits: &HitList) -> Result<Shown, AllocError>
    requires { All (IsHitOf shard.now.segments) hits.now }
    ensures { IfOk result (λ list. list ≡ map (shown shard.now.segments) (map pair_of hits.now)) }
{
    let mut list = Shown::new(alloc);
    for i in 0..hits.len() {
        let hit = hits.get(i);
        let segment = shard.segment(hit.segment);
        list.push((segment.name.clone()?, hit.doc))?;
    }
    Ok(list)
}

fn hits_reply(alloc: Global, shard: &Manifest, hits: &Hits) -> Result<Reply, AllocError>
    requires { All (IsHitOf shard.now.segments) hits.now.list }
    ensures { IfOk result
        (λ r. r ≡ reply.Hits hits.now.total (map (shown shard.now.segments) (map pair_of hits.now.list))) }
{
    Ok(Reply::Hits {
        total: hits.total,
        shown: shown_of(alloc, shard, &hits.list)?,
    })
}

/// The reply to a search for what a query asks: how many documents match, and the first `size` of them; or the first
/// bad file. The shelf is one that belongs to this mount, and does so afterwards; it may then keep further
/// dictionaries. The bytes are those of the manifest's files.
pub fn query_reply<B: FileBytes>(
    alloc: Global,
    bytes: &mut B,
    shelf: &mut Shelf,
    shard: &Manifest,
    size: u32,
    query: &Query,
) -> Result<Reply, BytesError>
    requires files { length shard.now.files ≤ (B.view bytes.old).count }
    requires shelf { ShelfFits (B.view bytes.old) shard.now.segments shelf.old }
    ensures reply { IsTrue (B.view bytes.old).tells
        → IfOk result (λ r. r ≡ tree_reply (B.view bytes.old).bytes shard.now size (tree_of query.now)) }
    ensures form { IfOk result HasHits }
    ensures shelf { ShelfFits (B.view bytes.new) shard.now.segments shelf.new }
    ensures kept { StillKept shelf.old shelf.new }
    ensures goes { GoesOn B.goes_by bytes.old bytes.new }
    ensures cause { HasBytesCause (B.view bytes.old) (B.view bytes.new) (refusal result) }
{
    match search(alloc, bytes, shelf, shard, query, size) {
        Ok(hits) => made(hits_reply(alloc, shard, &hits)),
        Err(SearchError::Bad { file, at }) => made(bad_reply(alloc, shard, file, at)),
        Err(SearchError::Bytes(e)) => Err(e),
    }
}

/// The reply to a `search` of this text: `bad query` exactly where it is no query, else as `query_reply`.
pub fn search_reply<B: FileBytes>(
    alloc: Global,
    bytes: &mut B,
    shelf: &mut Shelf,
    shard: &Manifest,
    size: u32,
    text: &[u8],
) -> Result<Reply, BytesError>
    requires files { length shard.now.files ≤ (B.view bytes.old).count }
    requires shelf { ShelfFits (B.view bytes.old) shard.now.segments shelf.old }
    ensures reply { IsTrue (B.view bytes.old).tells
        → IfOk result (λ r. r ≡ search_reply (B.view bytes.old).bytes shard.now size text.now) }
    ensures form { IfOk result HasHits }
    ensures shelf { ShelfFits (B.view bytes.new) shard.now.segments shelf.new }
    ensures kept { StillKept shelf.old shelf.new }
    ensures goes { GoesOn B.goes_by bytes.old bytes.new }
    ensures cause { HasBytesCause (B.view bytes.old) (B.view bytes.new) (refusal result) }
{
    match Query::read(alloc, text) {
        Ok(query) => query_reply(alloc, bytes, shelf, shard, size, &query),
        Err(QueryError::NoMemory) => Err(BytesError::NoMemory),
        Err(_) => made(refused(alloc, "bad query")),
    }
}
