// A sink in memory.
ghost use Rattle.std.specs.Prelude.{◌≡◌, ◌<◌, Some, []};

use crate::fault::fail;
use crate::{OutError, Sink};
use std::alloc::Global;

/// A sink in memory that keeps what is written, takes at most `step` bytes a write, and fails at the writes
/// listed, counted from 1.
#[derive(Drop)]
pub struct MemSink {
    step: usize,
    fails: Vec<u64>,
    writes: u64,
    faults: u64,
    bytes: Vec<u8>,
    pub ghost step_is_some: { 0 < step },
}

impl MemSink {
    ghost use Rattle.cache_outside.specs.MemSinks.{sink_view};

    /// A sink to which nothing is written yet; takes no memory.
    pub fn new(alloc: Global, step: usize, fails: Vec<u64>) -> MemSink
        requires { 0 < step }
        ensures sink { sink_view result ≡ record { faults = 0; written = Some [] } }
    {
        MemSink {
            step,
            fails,
            writes: 0,
            faults: 0,
            bytes: Vec::new(alloc),
        }
    }

    /// What was written, in order.
    pub fn written(&self) -> &[u8]
        ensures { (sink_view self.now).written ≡ Some result.now }
    {
        &self.bytes
    }
}

impl Sink for MemSink {
    ghost use Rattle.cache_outside.specs.MemSinks.{sink_view};

    ghost view = { sink_view };

    fn write(&mut self, piece: &[u8]) -> Result<usize, OutError> {
        let count = piece.len().min(self.step);
        self.bytes.reserve(count)?;
        self.writes = self.writes.saturating_add(1);
        if self.fails.contains(&self.writes) {
            return Err(fail(&mut self.faults));
        }
        self.bytes.extend_from_slice(&piece[..count])?;
        Ok(count)
    }
}
