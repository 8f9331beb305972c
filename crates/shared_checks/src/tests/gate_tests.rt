// What a gate is told.
use super::{Cache, run_at, sample_sources, times};
use cache_outside::MemSink;
use script_run::Ended;
use shared_run::Gate;
use std::sync::atomic::{AtomicU64, Ordering};
use std::test::Fail;

/// A gate that counts, for each of two workers, how often each of its lines was answered: line n at the n-th digit.
#[derive(Drop)]
struct Counting {
    first: AtomicU64,
    second: AtomicU64,
}

impl Gate for Counting {
    fn answered(&self, worker: u32, line: u32) {
        let digit = match line {
            1 => 1,
            2 => 10,
            3 => 100,
            4 => 1_000,
            5 => 10_000,
            _ => 1_000_000,
        };
        if worker == 0 {
            self.first.fetch_add(digit, Ordering::SeqCst);
        } else {
            self.second.fetch_add(digit, Ordering::SeqCst);
        }
    }
}

/// The first worker runs the mount of line 1, and lines 2 and 4 of the block behind it; the second one runs lines 3 and
/// 5.
#[test]
fn each_line_is_told_once(rt: HostRuntime) -> Result<(), Fail> {
    let alloc = rt.alloc();
    let gate = Counting {
        first: AtomicU64::new(0),
        second: AtomicU64::new(0),
    };
    let mut sources = sample_sources(alloc, 2)?;
    let mut sink = MemSink::new(alloc, 65_536, Vec::new(alloc));
    let ended = run_at(
        &rt,
        alloc,
        b"mount y mount-y\nread y big.bin 0 4\ndecay\nread y big.bin 0 4\nclear y\n",
        Cache::Four,
        &mut sources,
        2,
        &gate,
        &mut sink,
        times(alloc)?,
    )?;
    assert!(rt; ended == Ended::Done { marked: false });
    assert_eq!(rt; gate.first.load(Ordering::SeqCst), 1_011);
    assert_eq!(rt; gate.second.load(Ordering::SeqCst), 10_100);
    Ok(())
}
