// Each call of what the program is handed, failing in turn, until none is left that could: the status, and what is
// written, by one worker and by two, of which the second runs no line. Counts of calls are those of this script over
// the sample archive.
use crate::tests::{Left, Plan, called_by, smooth};
use cache_outside::SourceCall;
use std::alloc::{AllocError, Global};
use std::sync::Wait;
use std::thread::Threads;

/// 58 bytes.
const SCRIPT: &[u8] = b"mount logs mount-x\nsearch logs 10 {\"term\":{\"body\":\"fox\"}}\n";

/// A line of 25 bytes, and one of 19.
const TEXT: &[u8] = b"1 mounted 1 files 3 docs\n2 hits 2 _0/0 _0/2\n";

/// The word that asks for so many workers.
const WORKERS: [(usize, &str); 2] = [(1, "workers=1"), (2, "workers=2")];

/// Whether a run by this plan, over four regions, has this status and writes this.
fn ends_so<Rt: Threads + Wait + Sync>(
    rt: &Rt,
    alloc: Global,
    workers: (usize, &str),
    plan: Plan,
    status: u8,
    text: &[u8],
) -> Result<bool, AllocError> {
    let words = ["run", "region=4096", workers.1];
    let left = called_by(rt, alloc, &words, SCRIPT, plan, workers.0, &[])?;
    let Left {
        status: answer,
        sink,
        ..
    } = left;
    Ok(answer == status && sink.written() == text)
}

#[test]
fn each_read_of_the_script(rt: HostRuntime) -> Result<(), AllocError> {
    let alloc = rt.alloc();
    for workers in WORKERS {
        // four reads of at most 16 bytes, and the one that finds the end
        for n in 1..7 {
            let mut plan = smooth(alloc, 16);
            plan.text.push(n)?;
            let (status, text) = if n < 6 {
                (4, b"".as_slice())
            } else {
                (0, TEXT)
            };
            assert!(rt; ends_so(&rt, alloc, workers, plan, status, text)?, "{n}");
        }
    }
    Ok(())
}

#[test]
fn each_frame(rt: HostRuntime) -> Result<(), AllocError> {
    let alloc = rt.alloc();
    for workers in WORKERS {
        for index in 0..5 {
            let mut plan = smooth(alloc, 65_536);
            plan.frames.push(index)?;
            let (status, text) = if index < 4 {
                (7, b"".as_slice())
            } else {
                (0, TEXT)
            };
            assert!(rt;
                ends_so(&rt, alloc, workers, plan, status, text)?,
                "{index}"
            );
        }
    }
    Ok(())
}

/// What stands written where a write of at most 10 bytes fails: each line is handed over from its begin on.
const FRONTS: [(u64, &str); 5] = [
    (1, ""),
    (2, "1 mounted "),
    (3, "1 mounted 1 files 3 "),
    (4, "1 mounted 1 files 3 docs\n"),
    (5, "1 mounted 1 files 3 docs\n2 hits 2 _"),
];

#[test]
fn each_write(rt: HostRuntime) -> Result<(), AllocError> {
    let alloc = rt.alloc();
    for workers in WORKERS {
        for (n, front) in FRONTS {
            let mut plan = smooth(alloc, 65_536);
            plan.sink_step = 10;
            plan.sink.push(n)?;
            assert!(rt;
                ends_so(&rt, alloc, workers, plan, 5, front.as_bytes())?,
                "{n}"
            );
        }
        let mut plan = smooth(alloc, 65_536);
        plan.sink_step = 10;
        plan.sink.push(6)?;
        assert!(rt; ends_so(&rt, alloc, workers, plan, 0, TEXT)?);
    }
    Ok(())
}

/// By kind, how many calls the mount makes, and how many with those of the search behind it.
const CALLS: [(SourceCall, u64, u64); 4] = [
    // the manifest's blob and two parts
    (SourceCall::Find, 3, 3),
    (SourceCall::Manifest, 1, 1),
    (SourceCall::Size, 3, 3),
    // the manifest's text; the two parts
    (SourceCall::Read, 1, 3),
];

#[test]
fn each_call_of_the_source(rt: HostRuntime) -> Result<(), AllocError> {
    let alloc = rt.alloc();
    let unmounted = b"1 fault\n2 not mounted\n".as_slice();
    let unread = b"1 mounted 1 files 3 docs\n2 fault\n".as_slice();
    for workers in WORKERS {
        for (kind, mounts, all) in CALLS {
            for n in 1..6 {
                let mut plan = smooth(alloc, 65_536);
                plan.source.push((kind, n))?;
                let (status, text) = if n <= mounts {
                    (1, unmounted)
                } else if n <= all {
                    (1, unread)
                } else {
                    (0, TEXT)
                };
                assert!(rt; ends_so(&rt, alloc, workers, plan, status, text)?, "{n}");
            }
        }
    }
    Ok(())
}
