// What a command answers, read without a cache.
ghost use Rattle.std.specs.Prelude.{◌<◌};

mod refused_tests;
mod sample_tests;

use blob_parts::{DirectBytes, PartTable};
use byte_text::{Blobs, Name, Text};
use cache_outside::{MemSource, SourceCall, Untold, manifests_in};
use directory_input::BytesError;
use mount_manifest::Manifest;
use shard_replies::{
    MountError, Reply, fetch_reply, load_mount, mounted_reply, read_reply, search_reply,
};
use shard_search::Shelf;
use std::alloc::{AllocError, Global};
use std::process::Abort;
use std::test::Fail;

/// A source that tells nothing.
pub type Source = MemSource<Untold>;

/// What is asked of a mount.
#[derive(Clone, Copy)]
pub enum Ask {
    Mount,
    Search(u32, &'static str),
    Fetch(&'static str, u32),
    Read(&'static str, u64, u32),
}

/// A source over these blobs, whose calls of the listed kinds and numbers fail.
pub fn source_of(
    rt: &impl Abort,
    alloc: Global,
    blobs: Blobs,
    step: usize,
    fails: Vec<(SourceCall, u64)>,
) -> Source
    requires { 0 < step }
{
    assert!(rt; manifests_in(&blobs) <= 65_536);
    MemSource::new(alloc, blobs, step, fails)
}

fn name_of(rt: &impl Abort, alloc: Global, text: &str) -> Result<Name, AllocError> {
    Ok(Name::read(alloc, text.as_bytes())?.expect(rt, "no name"))
}

fn ask_shard(
    rt: &impl Abort,
    alloc: Global,
    source: &mut Source,
    parts: &PartTable<Untold>,
    shard: &Manifest,
    ask: Ask,
) -> Result<Result<Reply, BytesError>, AllocError> {
    let mut bytes = DirectBytes::<Untold, Source>::new(source, parts);
    assert!(rt; shard.files_len() <= parts.files());
    match ask {
        Ask::Mount => Ok(Ok(mounted_reply(shard))),
        Ask::Search(size, query) => {
            let mut shelf = Shelf::new(alloc);
            Ok(search_reply(alloc, &mut bytes, &mut shelf, shard, size, query.as_bytes()))
        }
        Ask::Fetch(segment, doc) => {
            let segment = name_of(rt, alloc, segment)?;
            Ok(fetch_reply(alloc, &mut bytes, shard, &segment, doc))
        }
        Ask::Read(file, at, len) => {
            let file = name_of(rt, alloc, file)?;
            Ok(read_reply(alloc, &mut bytes, shard, &file, at, len))
        }
    }
}

/// The text of the reply, or that of its mark.
pub fn answer(
    rt: &impl Abort,
    alloc: Global,
    source: &mut Source,
    manifest: &str,
    ask: Ask,
) -> Result<Text, Fail> {
    let reply = match load_mount::<Untold, Source>(alloc, source, manifest) {
        Ok((_, shard, parts)) => match ask_shard(rt, alloc, source, &parts, &shard, ask)? {
            Ok(reply) => reply,
            Err(BytesError::Fault) => Reply::Fault,
            Err(BytesError::Gone { .. }) => Reply::Gone,
            Err(BytesError::NoMemory) => Reply::NoMemory,
        },
        Err(MountError::Refused { text }) => Reply::Refused { text },
        Err(MountError::Fault) => Reply::Fault,
        Err(MountError::NoMemory) => Reply::NoMemory,
    };
    Ok(reply.text(alloc)?)
}
