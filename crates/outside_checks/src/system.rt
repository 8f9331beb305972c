// The system's clock and its standard output, over a system of the tests' own.
use cache_outside::{Clock, OutError, Sink, StdClock, StdSink};
use std::cell::Cell;
use std::fmt::Display;
use std::io;
use std::test::Fail;
use std::time::{self, Duration};

/// A clock whose readings are in a list, in milliseconds, None where it cannot be read; the last one again and again.
#[derive(Drop)]
struct Listed {
    readings: &'static [Option<u64>],
    next: Cell<usize>,
}

impl time::Clock for Listed {
    fn monotonic(&self) -> io::Result<Duration> {
        let next = self.next.get();
        self.next.set(next.saturating_add(1));
        match self.readings.get(next) {
            Some(Some(millis)) => Ok(Duration::from_millis(*millis)),
            _ => Err(io::Error::from(io::ErrorKind::Unsupported)),
        }
    }

    fn since_1970(&self) -> io::Result<Duration> {
        Err(io::Error::from(io::ErrorKind::Unsupported))
    }
}

/// Milliseconds since it was made; the last answer where it cannot be read, and 0 where it could not be read then.
#[test]
fn clock_counts_from_its_making(rt: HostRuntime) {
    for (readings, wanted) in [
        (
            [Some(1000), Some(1005), None, Some(1012)].as_slice(),
            [5, 5, 12],
        ),
        (&[Some(7), None, Some(7), Some(70_007)], [0, 0, 70_000]),
        (&[None, Some(5), Some(6), Some(7)], [0, 0, 0]),
    ] {
        let next = Cell::new(0);
        let mut clock = StdClock::new(Listed { readings, next });
        for time in wanted {
            assert_eq!(rt; clock.now(), time);
        }
    }
}

/// An output that takes at most two bytes of a piece, none of one that begins with `n`, and fails at one that begins
/// with `x`. It counts the bytes that it took.
#[derive(Drop)]
struct Narrow<'t> {
    taken: &'t Cell<usize>,
}

impl Print for Narrow<'_> {
    fn print<D: Display + Drop>(&self, _value: D) -> io::Result<()> {
        Ok(())
    }

    fn println<D: Display + Drop>(&self, _value: D) -> io::Result<()> {
        Ok(())
    }

    fn write_all(&self, _bytes: &[u8]) -> io::Result<()> {
        Ok(())
    }

    fn write_some(&self, bytes: &[u8]) -> io::Result<usize> {
        match bytes.first() {
            Some(b'x') => Err(io::Error::from(io::ErrorKind::BrokenPipe)),
            Some(b'n') => Ok(0),
            _ => {
                let count = bytes.len().min(2);
                self.taken.set(self.taken.get().saturating_add(count));
                Ok(count)
            }
        }
    }
}

/// As many bytes as the output took; to take none of some is a failure.
#[test]
fn output_takes_pieces(rt: HostRuntime) -> Result<(), Fail> {
    let taken = Cell::new(0);
    let mut sink = StdSink::new(Narrow { taken: &taken });
    for (piece, wanted, all) in [
        ("fox", Ok(2), 2),
        ("r", Ok(1), 3),
        ("xy", Err(OutError::Failed), 3),
        ("no", Err(OutError::Failed), 3),
        ("", Ok(0), 3),
        ("ed", Ok(2), 5),
    ] {
        assert_eq!(rt; sink.write(piece.as_bytes()), wanted);
        assert_eq!(rt; taken.get(), all);
    }
    Ok(())
}
