// The reply to a read.
ghost use Rattle.std.specs.Prelude.{◌≡◌, ◌<◌, ◌≤◌, ◌+◌, length, IsTrue, IfOk};
ghost use Rattle.directory_input.specs.Causes.{HasBytesCause, refusal};
ghost use Rattle.directory_input.specs.Reads.{slice_of, one_read};
ghost use Rattle.mount_script.specs.declared.reply.Reply.TheVariants.{Bytes};
ghost use Rattle.shard_replies.specs.Answers.{HasBytes, ReadsAsAsked};
ghost use Rattle.shard_replies.specs.ExpectedReplies.{read_reply, read_steps};

use crate::words::{made, refused};
use byte_text::{Name, Text};
use directory_input::{BytesError, FileBytes};
use mount_manifest::Manifest;
use mount_script::Reply;
use std::alloc::Global;

/// The bytes `at` to `at + len` of a file, which has them.
fn piece_reply<B: FileBytes>(
    alloc: Global,
    bytes: &mut B,
    file: u32,
    at: u64,
    len: u32,
) -> Result<Reply, BytesError>
    requires file { file < (B.view bytes.old).count }
    requires inside { at + len ≤ (B.view bytes.old).lengths file }
    ensures reply { IsTrue (B.view bytes.old).tells
        → IfOk result (λ r. r ≡ Bytes (slice_of at len ((B.view bytes.old).bytes file))) }
    ensures form { IfOk result HasBytes }
    ensures goes { ReadsAsAsked B.goes_by (one_read file at len) (refusal result) bytes.old bytes.new }
    ensures cause { HasBytesCause (B.view bytes.old) (B.view bytes.new) (refusal result) }
{
    let Ok(mut piece) = vec![in alloc; 0u8; len as usize] else {
        return Err(BytesError::NoMemory);
    };
    bytes.read(file, at, &mut piece)?;
    Ok(Reply::Bytes {
        bytes: Text::from_vec(piece),
    })
}

/// The reply to a `read`: `len` bytes of the file with this physical name, from the byte `at` on. `no file` where the
/// manifest has no such file; `past end` where they pass the file's end. The bytes are those of the manifest's files. It
/// reads this range once and nothing else; nothing at all where it answers one of those refusals, or where there is
/// no memory for the bytes.
pub fn read_reply<B: FileBytes>(
    alloc: Global,
    bytes: &mut B,
    shard: &Manifest,
    file: &Name,
    at: u64,
    len: u32,
) -> Result<Reply, BytesError>
    requires { length shard.now.files ≤ (B.view bytes.old).count }
    ensures reply { IsTrue (B.view bytes.old).tells
        → IfOk result (λ r. r ≡ read_reply (B.view bytes.old).bytes shard.now file.now at len) }
    ensures form { IfOk result HasBytes }
    ensures goes { ReadsAsAsked B.goes_by (read_steps (B.view bytes.old).lengths shard.now file.now at len)
        (refusal result) bytes.old bytes.new }
    ensures cause { HasBytesCause (B.view bytes.old) (B.view bytes.new) (refusal result) }
{
    let Some(number) = shard.find_file(file) else {
        return made(refused(alloc, "no file"));
    };
    let room = bytes.len(number);
    if at > room || u64::from(len) > room - at {
        return made(refused(alloc, "past end"));
    }
    piece_reply(alloc, bytes, number, at, len)
}
