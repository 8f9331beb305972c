// Sources and sinks that fail.
use super::{run_by_two, sample_source};
use cache_outside::{MemSink, SourceCall};
use script_run::Ended;
use std::alloc::{AllocError, Global};
use std::process::Abort;
use std::sync::Wait;
use std::test::Fail;
use std::thread::Threads;

/// A source, a kind of its calls, and on which line each of them stands in a run, where none before it failed.
type Calls = (usize, SourceCall, &'static [u32]);

/// A script, its replies with the numbers of their lines, and the calls of its sources.
struct Row {
    text: &'static str,
    replies: &'static [(u32, &'static str)],
    calls: &'static [Calls],
}

/// A mount finds the manifest's blob and the blob of each part, asks each one's size, and reads the manifest's text at
/// once. The file of the first script has two parts; the files of the second have two, one and one, and its lines 2 and
/// 4 are run on the first source, line 3 on the other.
const ROWS: [Row; 2] = [
    Row {
        text: "mount logs mount-x\n\
             search logs 10 {\"term\":{\"body\":\"fox\"}}\n",
        replies: &[(1, "mounted 1 files 3 docs"), (2, "hits 2 _0/0 _0/2")],
        calls: &[
            (0, SourceCall::Find, &[1, 1, 1]),
            (0, SourceCall::Manifest, &[1]),
            (0, SourceCall::Size, &[1, 1, 1]),
            (0, SourceCall::Read, &[1, 2, 2]),
            (1, SourceCall::Find, &[]),
            (1, SourceCall::Manifest, &[]),
            (1, SourceCall::Size, &[]),
            (1, SourceCall::Read, &[]),
        ],
    },
    Row {
        text: "mount z mount-z\n\
             read z _0.pst 98 4\n\
             read z _0.fld 0 4\n\
             read z _0_1.liv 0 4\n",
        replies: &[
            (1, "mounted 3 files 3 docs"),
            (2, "bytes 4 20726564"),
            (3, "bytes 4 646f6320"),
            (4, "bytes 4 73697a65"),
        ],
        calls: &[
            (0, SourceCall::Find, &[1, 1, 1, 1, 1]),
            (0, SourceCall::Manifest, &[1]),
            (0, SourceCall::Size, &[1, 1, 1, 1, 1]),
            (0, SourceCall::Read, &[1, 2, 2, 4]),
            (1, SourceCall::Find, &[]),
            (1, SourceCall::Manifest, &[]),
            (1, SourceCall::Size, &[]),
            (1, SourceCall::Read, &[3]),
        ],
    },
];

/// The text of a run in which this line failed, if it is one of its lines: behind a mount that failed nothing is
/// mounted.
fn text_where(alloc: Global, row: &Row, failed: u32) -> Result<String, AllocError> {
    let mut text = String::new(alloc);
    for (number, reply) in row.replies {
        let reply = if *number == failed {
            "fault"
        } else if failed == 1 {
            "not mounted"
        } else {
            *reply
        };
        text.push_str(format!(in alloc; "{number} {reply}\n")?.as_str())?;
    }
    Ok(text)
}

/// Runs a script where one call of one source fails, and compares its text with that in which this line failed.
fn run_failing<R: Abort + Threads + Wait + Sync>(
    rt: &R,
    alloc: Global,
    row: &Row,
    failing: usize,
    call: (SourceCall, u64),
    failed: Option<u32>,
) -> Result<(), AllocError> {
    let mut sources = Vec::new(alloc);
    for number in 0..2 {
        let mut fails = Vec::new(alloc);
        if number == failing {
            fails.push(call)?;
        }
        sources.push(sample_source(alloc, number as u64, fails)?)?;
    }
    let mut sink = MemSink::new(alloc, 65_536, Vec::new(alloc));
    let ended = run_by_two(rt, alloc, row.text.as_bytes(), &mut sources, &mut sink)?;
    let marked = failed.is_some();
    assert!(rt; ended == Ended::Done { marked });
    let wanted = text_where(alloc, row, failed.unwrap_or(0))?;
    assert_eq!(rt; sink.written(), wanted.as_bytes());
    Ok(())
}

#[test]
fn each_call_of_each_source(rt: HostRuntime) -> Result<(), Fail> {
    let alloc = rt.alloc();
    for row in &ROWS {
        for (source, kind, lines) in row.calls {
            for n in 0..lines.len() + 1 {
                let failed = lines.get(n).copied();
                run_failing(&rt, alloc, row, *source, (*kind, n as u64 + 1), failed)?;
            }
        }
    }
    Ok(())
}

/// What a sink of 10 bytes a write has where its write of this number fails: the lines have 25 and 19 bytes, and each
/// is handed over from its begin on.
const FRONTS: [(u64, usize); 6] = [(1, 0), (2, 10), (3, 20), (4, 25), (5, 35), (6, 44)];

#[test]
fn each_write_to_the_sink(rt: HostRuntime) -> Result<(), Fail> {
    let alloc = rt.alloc();
    let text = b"mount logs mount-x\nsearch logs 10 {\"term\":{\"body\":\"fox\"}}\n";
    let wanted = b"1 mounted 1 files 3 docs\n2 hits 2 _0/0 _0/2\n";
    for (n, front) in FRONTS {
        let mut sources = super::sample_sources(alloc, 2)?;
        let mut sink = MemSink::new(alloc, 10, vec![in alloc; n]?);
        let ended = run_by_two(&rt, alloc, text, &mut sources, &mut sink)?;
        let wanted_end = if front < 44 {
            Ended::SinkFault
        } else {
            Ended::Done { marked: false }
        };
        assert!(rt; ended == wanted_end);
        assert!(rt; sink.written() == &wanted[..front]);
    }
    Ok(())
}
