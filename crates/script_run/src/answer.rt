// What a line was answered.
ghost use Rattle.std.specs.Prelude.{◌≡◌};
ghost use Rattle.cache_reader.specs.Reports.{no_bytes};
ghost use Rattle.shard_replies.specs.ExpectedReplies.{refused};
ghost use Rattle.script_run.specs.Lines.{marked, IsOrNoMemory};

use byte_text::Text;
use cache_reader::Report;
use directory_input::BytesError;
use mount_script::Reply;
use std::alloc::Global;

/// What a line was answered, and what its reads counted.
#[derive(Drop)]
pub struct Answer {
    pub reply: Reply,
    pub report: Report,
}

impl Answer {
    /// An answer of a line that read nothing.
    pub(crate) fn of(reply: Reply) -> Answer
        ensures reply { result.reply ≡ reply }
        ensures report { result.report ≡ no_bytes }
    {
        Answer {
            reply,
            report: Report {
                hit: 0,
                fetched: 0,
                direct: 0,
            },
        }
    }

    /// The answer of a line whose reads gave a reply, or were refused.
    pub(crate) fn read(given: Result<Reply, BytesError>, report: Report) -> Answer
        ensures reply { result.reply ≡ marked given }
        ensures report { result.report ≡ report }
    {
        let reply = match given {
            Ok(reply) => reply,
            Err(BytesError::Fault) => Reply::Fault,
            Err(BytesError::Gone { .. }) => Reply::Gone,
            Err(BytesError::NoMemory) => Reply::NoMemory,
        };
        Answer { reply, report }
    }
}

/// A refused reply of this text.
pub(crate) fn refused(alloc: Global, text: &[u8]) -> Reply
    ensures { IsOrNoMemory (refused text.now) result }
{
    match Text::of(alloc, text) {
        Ok(text) => Reply::Refused { text },
        Err(_) => Reply::NoMemory,
    }
}
