// Standard output as a sink.
use crate::fault::fail;
use crate::{OutError, Sink};

/// Standard output. It counts its failures, and tells nothing of what was written.
#[derive(Drop)]
pub struct StdSink<Rt: Print + Drop> {
    rt: Rt,
    faults: u64,
}

impl<Rt: Print + Drop> StdSink<Rt> {
    /// The standard output of this runtime, with no failure yet.
    pub fn new(rt: Rt) -> StdSink<Rt> {
        StdSink { rt, faults: 0 }
    }
}

impl<Rt: Print + Drop> Sink for StdSink<Rt> {
    ghost use Rattle.std.specs.Prelude.{None};

    ghost view = { λ s. record { faults = s.faults; written = None } };

    fn write(&mut self, piece: &[u8]) -> Result<usize, OutError> {
        if piece.is_empty() {
            return Ok(0);
        }
        match self.rt.write_some(piece) {
            Ok(0) => Err(fail(&mut self.faults)),
            Ok(n) => Ok(n),
            Err(_) => Err(fail(&mut self.faults)),
        }
    }
}
