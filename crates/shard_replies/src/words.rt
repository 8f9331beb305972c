// The texts of refused replies.
ghost use Rattle.std.specs.Prelude.{◌≡◌, ◌++◌, ◌<◌, IfOk, length, Ok, Err};
ghost use Rattle.directory_input.specs.declared.files.BytesError.TheVariants.{NoMemory};
ghost use Rattle.mount_manifest.specs.Words.{word};
ghost use Rattle.shard_replies.specs.ExpectedReplies.{refused, bad_reply, kind_word};
ghost use Rattle.shard_replies.specs.Answers.{made};

use byte_text::Text;
use directory_input::BytesError;
use itoa::Buffer;
use mount_manifest::Manifest;
use mount_script::Reply;
use simpletext_stored::Kind;
use std::alloc::{AllocError, Global};

/// The word of a kind of stored field, as Lucene SimpleText writes it.
pub fn kind_word(kind: Kind) -> &'static str
    ensures { result.now ≡ kind_word kind }
{
    match kind {
        Kind::Str => "string",
        Kind::Binary => "binary",
        Kind::Int => "int",
        Kind::Long => "long",
        Kind::Float => "float",
        Kind::Double => "double",
    }
}

/// A refused reply of this text.
pub(crate) fn refused(alloc: Global, text: &str) -> Result<Reply, AllocError>
    ensures { IfOk result (λ r. r ≡ refused text.now) }
{
    Ok(Reply::Refused {
        text: Text::of(alloc, text.as_bytes())?,
    })
}

/// Two texts, one behind the other.
pub(crate) fn joined(alloc: Global, front: &str, end: &str) -> Result<Text, AllocError>
    ensures { IfOk result (λ t. t ≡ front.now ++ end.now) }
{
    let mut text = Text::of(alloc, front.as_bytes())?;
    text.extend(end.as_bytes())?;
    Ok(text)
}

/// The reply where a file's first line that is not allowed begins at the byte `at`.
pub(crate) fn bad_reply(
    alloc: Global,
    shard: &Manifest,
    file: u32,
    at: u64,
) -> Result<Reply, AllocError>
    requires { file < length shard.now.files }
    ensures { IfOk result (λ r. r ≡ bad_reply shard.now.files (record { file = file; at = at })) }
{
    let mut text = joined(alloc, "bad shard ", shard.file(file).physical_name.as_str())?;
    let mut buffer = Buffer::new();
    text.extend(b" ")?;
    text.extend(buffer.format(at).as_bytes())?;
    Ok(Reply::Refused { text })
}

/// A reply that was made, or want of memory.
pub(crate) fn made(reply: Result<Reply, AllocError>) -> Result<Reply, BytesError>
    ensures { result ≡ made reply }
{
    match reply {
        Ok(reply) => Ok(reply),
        Err(_) => Err(BytesError::NoMemory),
    }
}
