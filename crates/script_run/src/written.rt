// Writing the replies of a block.
ghost use Rattle.std.specs.Prelude.{◌≡◌, OnOk, OnErr, IfOk, length};
ghost use Rattle.cache_outside.specs.Causes.{HasCause};
ghost use Rattle.cache_outside.specs.Sinks.{behind};
ghost use Rattle.script_run.specs.Runs.{IsFront};
ghost use Rattle.script_run.specs.Texts.{line_text, block_text};

use byte_text::Text;
use cache_outside::{OutError, Sink};
use itoa::Buffer;
use mount_script::{Line, Reply};
use std::alloc::{AllocError, Global};

/// Hands the sink a text whole, and after it took a part of it the rest, until it has taken all.
///
/// After a refusal a front of the text was written. `Failed` comes only where the sink's count of failures rose in this
/// call.
pub fn write_all<K: Sink>(sink: &mut K, text: &[u8]) -> Result<(), OutError>
    ensures whole { OnOk result ((K.view sink.new).written ≡ behind (K.view sink.old).written text.now) }
    ensures front { OnErr result (IsFront (K.view sink.old).written (K.view sink.new).written text.now) }
    ensures cause { HasCause (K.view sink.old).faults (K.view sink.new).faults result }
{
    let mut done = 0;
    while done < text.len() {
        done += sink.write(&text[done..])?;
    }
    Ok(())
}

/// A line's number, a blank, its reply and a newline.
fn line_text(alloc: Global, line: &Line, reply: &Reply) -> Result<Text, AllocError>
    ensures { IfOk result (λ t. t ≡ line_text line.now reply.now) }
{
    let mut buffer = Buffer::new();
    let mut text = Text::of(alloc, buffer.format(line.number).as_bytes())?;
    text.extend(b" ")?;
    text.extend(reply.text(alloc)?.as_bytes())?;
    text.extend(b"\n")?;
    Ok(text)
}

/// Writes the line of one reply.
fn write_line<K: Sink>(
    alloc: Global,
    sink: &mut K,
    line: &Line,
    reply: &Reply,
) -> Result<(), OutError>
    ensures whole { OnOk result
        ((K.view sink.new).written ≡ behind (K.view sink.old).written (line_text line.now reply.now)) }
    ensures front { OnErr result
        (IsFront (K.view sink.old).written (K.view sink.new).written (line_text line.now reply.now)) }
    ensures cause { HasCause (K.view sink.old).faults (K.view sink.new).faults result }
{
    let Ok(text) = line_text(alloc, line, reply) else {
        return Err(OutError::NoMemory);
    };
    write_all(sink, text.as_bytes())
}

/// Writes the lines of a block's replies, in order, one after another.
pub fn write_block<K: Sink>(
    alloc: Global,
    sink: &mut K,
    block: &[Line],
    replies: &[Reply],
) -> Result<(), OutError>
    requires { length replies.now ≡ length block.now }
    ensures whole { OnOk result
        ((K.view sink.new).written ≡ behind (K.view sink.old).written (block_text block.now replies.now)) }
    ensures front { OnErr result
        (IsFront (K.view sink.old).written (K.view sink.new).written (block_text block.now replies.now)) }
    ensures cause { HasCause (K.view sink.old).faults (K.view sink.new).faults result }
{
    for i in 0..block.len() {
        write_line(alloc, sink, &block[i], &replies[i])?;
    }
    Ok(())
}
