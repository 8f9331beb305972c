// The command `term`: one reply, its text and its status.
ghost use Rattle.std.specs.Prelude.{◌≡◌, ◌++◌, codes};
ghost use Rattle.mount_script.specs.Replies.{text_of};
ghost use Rattle.mount_tool.specs.Replies.{status_of};
ghost use Rattle.mount_tool.specs.Runs.{IsWritten, IsTermRun};

use crate::search::term_reply;
use cache_outside::{Archive, BlobSource, OutError, Sink};
use mount_script::Reply;
use script_run::write_all;
use std::alloc::Global;

/// The program's status where a reply was written whole.
fn status_of(reply: &Reply) -> u8
    ensures { result ≡ status_of reply.now }
{
    match reply {
        Reply::Hits { .. } => 0,
        Reply::NoMemory => 6,
        _ => 1,
    }
}

/// Writes a reply and a newline, and gives the status: the reply's own, 5 where the sink failed, 6 for want of memory.
fn finish<K: Sink>(alloc: Global, sink: &mut K, reply: &Reply) -> u8
    ensures { IsWritten (K.view sink.old) (K.view sink.new)
        (text_of reply.now ++ codes "\n") (status_of reply.now) result }
{
    let Ok(mut text) = reply.text(alloc) else {
        return 6;
    };
    if text.push(b'\n').is_err() {
        return 6;
    }
    match write_all(sink, text.as_bytes()) {
        Ok(()) => status_of(reply),
        Err(OutError::Failed) => 5,
        Err(OutError::NoMemory) => 6,
    }
}

/// Writes the reply for a manifest of this name, a field and a term, and gives the status.
pub(crate) fn run_term<A: Archive, S: BlobSource<A>, K: Sink>(
    alloc: Global,
    source: &mut S,
    manifest: &str,
    field: &str,
    term: &str,
    sink: &mut K,
) -> u8
    ensures run { IsTermRun A.tells A.blobs (record { manifest = manifest.now; field = field.now; term = term.now })
        (S.view source.old).faults (S.view source.new).faults (K.view sink.old) (K.view sink.new) result }
    ensures same { (S.view source.new).identity ≡ (S.view source.old).identity }
{
    let reply = term_reply::<A, S>(alloc, source, manifest, field, term);
    finish(alloc, sink, &reply)
}
