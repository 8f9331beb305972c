// Writing a line of the program's own.
ghost use Rattle.mount_tool.specs.Runs.{IsNoted};

use cache_outside::{OutError, Sink};
use script_run::write_all;

/// Writes a text, and gives the status: this one, also where the sink failed, or 6 where it wanted memory.
pub(crate) fn note<K: Sink>(sink: &mut K, text: &str, own: u8) -> u8
    ensures { IsNoted (K.view sink.old) (K.view sink.new) text.now own result }
{
    match write_all(sink, text.as_bytes()) {
        Ok(()) | Err(OutError::Failed) => own,
        Err(OutError::NoMemory) => 6,
    }
}
