// The reply to a fetch.
ghost use Rattle.std.specs.Prelude.{◌≡◌, ◌≤◌, length, map, IsTrue, IfOk};
ghost use Rattle.directory_input.specs.Causes.{HasBytesCause, refusal};
ghost use Rattle.directory_input.specs.Files.{GoesOn};
ghost use Rattle.shard_replies.specs.Answers.{HasFields};
ghost use Rattle.shard_replies.specs.ExpectedReplies.{given, fetch_reply};
ghost use Rattle.mount_script.specs.declared.reply.Reply.TheVariants as reply;

use crate::words::{bad_reply, kind_word, made, refused};
use byte_text::{Name, Text};
use directory_input::{BytesError, FileBytes};
use mount_manifest::Manifest;
use mount_script::{Fields, Reply};
use shard_search::{SearchError, fetch_doc};
use simpletext_stored::StoredField;
use std::alloc::{AllocError, Global};

fn fields_reply(alloc: Global, fields: &[StoredField]) -> Result<Reply, AllocError>
    ensures { IfOk result (λ r. r ≡ reply.Fields (map given fields.now)) }
{
    let mut list = Fields::new(alloc);
    for field in fields {
        let name = Text::of(alloc, field.name.as_bytes())?;
        let kind = Text::of(alloc, kind_word(field.kind).as_bytes())?;
        let value = Text::of(alloc, field.value.as_bytes())?;
        list.push((name, kind, value))?;
    }
    Ok(Reply::Fields { fields: list })
}

/// The reply to a `fetch`: the stored fields of document `doc` of a segment. `no file` where the manifest has no such
/// segment or the segment has no file of stored fields; `no doc` where the number is not below the segment's count;
/// the first bad file, that of the stored fields before that of the live documents; `no doc` where the document is not
/// live. The bytes are those of the manifest's files.
pub fn fetch_reply<B: FileBytes>(
    alloc: Global,
    bytes: &mut B,
    shard: &Manifest,
    segment: &Name,
    doc: u32,
) -> Result<Reply, BytesError>
    requires { length shard.now.files ≤ (B.view bytes.old).count }
    ensures reply { IsTrue (B.view bytes.old).tells
        → IfOk result (λ r. r ≡ fetch_reply (B.view bytes.old).bytes shard.now segment.now doc) }
    ensures form { IfOk result HasFields }
    ensures goes { GoesOn B.goes_by bytes.old bytes.new }
    ensures cause { HasBytesCause (B.view bytes.old) (B.view bytes.new) (refusal result) }
{
    let Some(number) = shard.find_segment(segment) else {
        return made(refused(alloc, "no file"));
    };
    if shard.segment(number).stored.is_none() {
        return made(refused(alloc, "no file"));
    }
    match fetch_doc(alloc, bytes, shard, number, doc) {
        Ok(Some(fields)) => made(fields_reply(alloc, &fields)),
        Ok(None) => made(refused(alloc, "no doc")),
        Err(SearchError::Bad { file, at }) => made(bad_reply(alloc, shard, file, at)),
        Err(SearchError::Bytes(e)) => Err(e),
    }
}
