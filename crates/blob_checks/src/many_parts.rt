// A source with as many parts as are asked.
ghost use Rattle.std.specs.Prelude.{None};

use cache_outside::{BlobSource, OutError, Untold};

/// The parts of one file named `__a`, of one byte each: the lowest byte of the part's number.
#[derive(Drop)]
pub struct OneByteParts;

impl BlobSource<Untold> for OneByteParts {
    ghost view = { λ _. record { identity = 0; faults = 0; reads = None } };

    fn find(&mut self, name: &str) -> Result<Option<u32>, OutError> {
        match name.strip_prefix("__a.part") {
            Some(number) => Ok(number.parse::<u32>().ok()),
            None => Ok(None),
        }
    }

    fn manifest(&mut self, _name: &str) -> Result<Option<u32>, OutError> {
        Ok(None)
    }

    fn size(&mut self, _blob: u32) -> Result<u64, OutError> {
        Ok(1)
    }

    fn read(&mut self, blob: u32, _at: u64, out: &mut [u8]) -> Result<usize, OutError> {
        if out.is_empty() {
            return Ok(0);
        }
        out[0] = (blob & 0xff) as u8;
        Ok(1)
    }
}
