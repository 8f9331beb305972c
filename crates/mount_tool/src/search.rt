// The command `term`: the documents of a manifest's segments that have a term in a field.
ghost use Rattle.std.specs.Prelude.{◌≡◌, Ok, IfOk, length};
ghost use Rattle.blob_parts.specs.Content.{content};
ghost use Rattle.query_lang.specs.Trees.{tree_of, term};
ghost use Rattle.shard_replies.specs.ExpectedReplies.{tree_reply};
ghost use Rattle.mount_tool.specs.Runs.{IsAllowed};
ghost use Rattle.mount_tool.specs.Terms.{term_reply};

use blob_parts::{DirectBytes, PartTable};
use byte_text::Text;
use cache_outside::{Archive, BlobSource};
use directory_input::BytesError;
use mount_manifest::Manifest;
use mount_script::Reply;
use query_lang::Query;
use shard_replies::{MountError, load_mount, query_reply};
use shard_search::Shelf;
use std::alloc::{AllocError, Global};

/// The most hits that a reply shows.
const SHOWN: u32 = 10_000;

/// The query for a term of a field.
fn term_query(alloc: Global, field: &str, value: &str) -> Result<Query, AllocError>
    ensures { IfOk result (λ query. tree_of query ≡ term field.now value.now) }
{
    Ok(Query::Term {
        field: Text::of(alloc, field.as_bytes())?,
        value: Text::of(alloc, value.as_bytes())?,
    })
}

/// The reply of a manifest whose parts are all there.
fn shard_reply<A: Archive, S: BlobSource<A>>(
    alloc: Global,
    source: &mut S,
    shard: &Manifest,
    table: &PartTable<A>,
    field: &str,
    value: &str,
) -> Reply
    requires { length table.now.files ≡ length shard.now.files }
    ensures allowed { IsAllowed A.tells
        (tree_reply (content A.blobs table.now.number) shard.now 10000 (term field.now value.now))
        (S.view source.old).faults (S.view source.new).faults result }
    ensures same { (S.view source.new).identity ≡ (S.view source.old).identity }
{
    let Ok(query) = term_query(alloc, field, value) else {
        return Reply::NoMemory;
    };
    let mut bytes = DirectBytes::<A, S>::new(source, table);
    let mut shelf = Shelf::new(alloc);
    match query_reply(alloc, &mut bytes, &mut shelf, shard, SHOWN, &query) {
        Ok(reply) => reply,
        Err(BytesError::Fault) => Reply::Fault,
        Err(BytesError::NoMemory) => Reply::NoMemory,
        Err(BytesError::Gone { .. }) => unreachable!(),
    }
}

/// The reply that `term` writes for a manifest of this name, a field and a term, with what is read from this source.
pub(crate) fn term_reply<A: Archive, S: BlobSource<A>>(
    alloc: Global,
    source: &mut S,
    manifest: &str,
    field: &str,
    value: &str,
) -> Reply
    ensures allowed { IsAllowed A.tells
        (term_reply A.blobs (record { manifest = manifest.now; field = field.now; term = value.now }))
        (S.view source.old).faults (S.view source.new).faults result }
    ensures same { (S.view source.new).identity ≡ (S.view source.old).identity }
{
    match load_mount::<A, S>(alloc, source, manifest) {
        Ok((_, shard, table)) => {
            shard_reply::<A, S>(alloc, source, &shard, &table, field, value)
        }
        Err(MountError::Refused { text }) => Reply::Refused { text },
        Err(MountError::Fault) => Reply::Fault,
        Err(MountError::NoMemory) => Reply::NoMemory,
    }
}
