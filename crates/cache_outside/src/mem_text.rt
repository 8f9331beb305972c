// A text in memory, as a source.
ghost use Rattle.std.specs.Prelude.{◌≡◌, ◌↔◌, ◌<◌, ◌≤◌, Some, IfOk, IsTrue, IsErr, length};
ghost use Rattle.cache_outside.specs.Texts.{TextAfter, IsFront, left_after};

use crate::fault::fail;
use crate::{OutError, TextSource};
use byte_text::Text;

/// A text in memory. It gives at most `step` bytes a read, and fails at the reads listed, counted from 1.
#[derive(Drop)]
pub struct MemText {
    text: Text,
    place: usize,
    step: usize,
    fails: Vec<u64>,
    reads: u64,
    faults: u64,
    pub ghost step_is_some: { 0 < step },
    pub ghost place_in_text: { place ≤ length text },
}

impl MemText {
    ghost use Rattle.cache_outside.specs.MemTexts.{text_view};

    /// A source of this text, of which all is left; takes no memory.
    pub fn new(bytes: Text, step: usize, fails: Vec<u64>) -> MemText
        requires { 0 < step }
        ensures text { text_view result ≡ record { faults = 0; left = Some bytes } }
    {
        MemText {
            text: bytes,
            place: 0,
            step,
            fails,
            reads: 0,
            faults: 0,
        }
    }
}

impl TextSource for MemText {
    ghost use Rattle.cache_outside.specs.MemTexts.{text_view, bytes_left, is_failing};

    ghost view = { text_view };

    /// `Failed` comes exactly at the reads listed.
    fn read(&mut self, out: &mut [u8]) -> Result<usize, OutError>
        requires { 0 < length out.old }
        ensures count { IfOk result (λ n. n ≤ length out.old) }
        ensures bytes { IfOk result (λ n. IsFront (bytes_left self.old) out.new n) }
        ensures text { TextAfter (text_view self.old) (text_view self.new)
            (left_after (Some (bytes_left self.old)) result) result }
        ensures failing { IsErr result ↔ IsTrue (is_failing self.old) }
    {
        self.reads = self.reads.saturating_add(1);
        if self.fails.contains(&self.reads) {
            return Err(fail(&mut self.faults));
        }
        let left = &self.text.as_bytes()[self.place..];
        let count = out.len().min(self.step).min(left.len());
        out[..count].copy_from_slice(&left[..count]);
        self.place += count;
        Ok(count)
    }
}
