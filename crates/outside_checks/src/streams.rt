// Sources of text, sinks and clocks: in memory in several steps and with failures, and over the system.
use byte_text::Text;
use cache_outside::{
    Clock, MemClock, MemSink, MemText, OutError, Sink, StdClock, StdSink, StdText, TextSource,
};
use std::alloc::{AllocError, Allocator, Global};
use std::io::{self, BufRead, Lines, Read};
use std::process::Abort;
use std::test::Fail;

/// What a text was read as: its bytes, how many reads gave some, and how many failed.
#[derive(Drop)]
struct Reading {
    bytes: Vec<u8>,
    reads: u32,
    failures: u32,
}

/// Reads a text to its end, at most 100 times, into pieces of at most 16 bytes.
fn read_all<T: TextSource>(
    alloc: Global,
    text: &mut T,
    piece: usize,
) -> Result<Reading, AllocError> {
    let mut reading = Reading {
        bytes: Vec::new(alloc),
        reads: 0,
        failures: 0,
    };
    let mut out = [0; 16];
    for _ in 0..100 {
        let room = piece.min(16);
        if room == 0 {
            break;
        }
        match text.read(&mut out[..room]) {
            Ok(0) => break,
            Ok(n) => {
                reading.bytes.extend_from_slice(&out[..n.min(16)])?;
                reading.reads = reading.reads.saturating_add(1);
            }
            Err(_) => reading.failures = reading.failures.saturating_add(1),
        }
    }
    Ok(reading)
}

fn some(alloc: Global, numbers: &[u64]) -> Result<Vec<u64>, AllocError> {
    Vec::from_slice(alloc, numbers)
}

/// Steps of 1, of 7 and whole, into pieces of 16 and of 5 bytes, none failing, the first, the second and the last.
#[test]
fn texts_are_read_to_their_ends(rt: HostRuntime) -> Result<(), Fail> {
    let alloc = rt.alloc();
    for (step, piece, failing, reads, failures) in [
        (1, 16, 0, 13, 0),
        (1, 16, 13, 13, 1),
        (7, 16, 1, 2, 1),
        (7, 5, 2, 3, 1),
        (65_536, 16, 0, 1, 0),
        (65_536, 16, 2, 1, 1),
        (65_536, 5, 4, 3, 1),
    ] {
        assert!(rt; step > 0);
        let text = Text::of(alloc, b"stats\ndecay\n\n")?;
        let mut text = MemText::new(text, step, some(alloc, &[failing])?);
        let reading = read_all(alloc, &mut text, piece)?;
        assert_eq!(rt; reading.bytes.as_slice(), b"stats\ndecay\n\n".as_slice());
        assert_eq!(rt; reading.reads, reads);
        assert_eq!(rt; reading.failures, failures);
    }
    Ok(())
}

/// A standard input of a few bytes, or one that cannot be read.
#[derive(Drop)]
struct Typed {
    fails: bool,
}

#[derive(Drop)]
struct TypedBytes {
    left: &'static [u8],
    fails: bool,
}

impl Read for TypedBytes {
    fn read(&mut self, buf: &mut [u8]) -> io::Result<usize> {
        if self.fails {
            self.fails = false;
            return Err(io::Error::from(io::ErrorKind::BrokenPipe));
        }
        self.left.read(buf)
    }
}

impl BufRead for TypedBytes {
    fn fill_buf(&mut self) -> io::Result<&[u8]> {
        Ok(self.left)
    }

    fn consume(&mut self, amount: usize) {
        self.left = &self.left[amount.min(self.left.len())..];
    }
}

impl Input for Typed {
    type Reader = TypedBytes;

    fn read_line<A: Allocator + Clone>(&self, buf: &mut String<A>) -> io::Result<usize> {
        self.reader().read_line(buf)
    }

    fn lines<A: Allocator>(&self, alloc: A) -> Lines<TypedBytes, A> {
        self.reader().lines(alloc)
    }

    fn reader(&self) -> TypedBytes {
        TypedBytes {
            left: b"clear X\n",
            fails: self.fails,
        }
    }
}

#[test]
fn standard_input_is_read(rt: HostRuntime) -> Result<(), Fail> {
    let alloc = rt.alloc();
    for (fails, failures) in [(false, 0), (true, 1)] {
        let mut text = StdText::new(Typed { fails });
        let reading = read_all(alloc, &mut text, 5)?;
        assert_eq!(rt; reading.bytes.as_slice(), b"clear X\n".as_slice());
        assert_eq!(rt; reading.reads, 2);
        assert_eq!(rt; reading.failures, failures);
    }
    Ok(())
}

#[test]
fn sinks_take_pieces(rt: HostRuntime) -> Result<(), Fail> {
    let alloc = rt.alloc();
    for (step, wanted, all) in [(1, 1, "fg"), (7, 3, "foxgo"), (65_536, 3, "foxgo")] {
        assert!(rt; step > 0);
        let mut sink = MemSink::new(alloc, step, some(alloc, &[2])?);
        assert_eq!(rt; sink.write(b"fox"), Ok(wanted));
        assert_eq!(rt; sink.write(b"red"), Err(OutError::Failed));
        assert!(rt; sink.write(b"go").is_ok());
        assert_eq!(rt; sink.written(), all.as_bytes());
    }
    let mut out = StdSink::new(rt.clone()?);
    assert_eq!(rt; out.write(b"\n"), Ok(1));
    assert_eq!(rt; out.write(b""), Ok(0));
    Ok(())
}

/// Whether a clock of these times gives the wanted ones.
fn gives(alloc: Global, times: &[u64], wanted: &[u64]) -> Result<bool, AllocError> {
    let mut clock = MemClock::new(some(alloc, times)?);
    for time in wanted {
        if clock.now() != *time {
            return Ok(false);
        }
    }
    Ok(true)
}

#[test]
fn clocks_tell_their_times(rt: HostRuntime) -> Result<(), Fail> {
    let alloc = rt.alloc();
    assert!(rt; gives(alloc, &[], &[0, 0])?);
    assert!(rt; gives(alloc, &[3], &[3, 3, 3])?);
    assert!(rt; gives(alloc, &[5, 8, 7, 7, 9], &[5, 8, 7, 7, 9, 9, 9])?);
    let mut clock = StdClock::new(rt.clone()?);
    let first = clock.now();
    let later = clock.now();
    assert!(rt; first <= later && later < 60_000);
    Ok(())
}
