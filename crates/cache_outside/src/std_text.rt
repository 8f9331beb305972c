// Standard input as a source of text.
use crate::fault::fail;
use crate::{OutError, TextSource};
use std::io::Read;

/// Standard input. It counts its failures, and tells nothing of what is left.
#[derive(Drop)]
pub struct StdText<Rt: Input> {
    reader: Rt::Reader,
    faults: u64,
}

impl<Rt: Input + Drop> StdText<Rt> {
    /// The standard input of this runtime, with no failure yet.
    pub fn new(rt: Rt) -> StdText<Rt> {
        StdText {
            reader: rt.reader(),
            faults: 0,
        }
    }
}

impl<Rt: Input + Drop> TextSource for StdText<Rt> {
    ghost use Rattle.std.specs.Prelude.{None};

    ghost view = { λ t. record { faults = t.faults; left = None } };

    fn read(&mut self, out: &mut [u8]) -> Result<usize, OutError> {
        match self.reader.read(out) {
            Ok(n) => Ok(n),
            Err(_) => Err(fail(&mut self.faults)),
        }
    }
}
