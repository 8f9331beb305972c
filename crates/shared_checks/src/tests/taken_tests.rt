// Which bytes the sources of a run give.
use super::{Cache, Source, run_at, run_by_two, sample_sources};
use cache_outside::MemSink;
use script_run::Ended;
use shared_run::OpenGate;
use std::alloc::{AllocError, Global};
use std::process::Abort;
use std::sync::Wait;
use std::test::Fail;
use std::thread::Threads;

/// A read of a source: the blob's number, the place, and how many bytes it gave.
type Read = (u32, u64, u64);

/// The text of the manifest of the blob of 10,000 bytes, which a mount reads at once.
const MANIFEST: Read = (8, 0, 93);

/// The regions of the blob of 10,000 bytes.
const FIRST: Read = (2, 0, 4096);

const SECOND: Read = (2, 4096, 4096);

const LAST: Read = (2, 8192, 1808);

/// A block of a script, its time in milliseconds, and what its lines take of the first source. The other one gives
/// nothing in these runs.
type Block = (&'static str, u64, &'static [Read]);

/// A cache, the blocks of a script, and the text of its run.
type Row = (Cache, &'static [Block], &'static str);

const ROWS: [Row; 3] = [
    // a region is taken once, and again after it was cleared
    (
        Cache::Four,
        &[
            ("mount y mount-y\n", 0, &[MANIFEST]),
            ("read y big.bin 0 4\n--\n", 0, &[FIRST]),
            ("read y big.bin 0 4\nread y big.bin 0 4\n--\n", 0, &[]),
            ("clear y\n--\n", 0, &[]),
            ("read y big.bin 0 4\n--\n", 0, &[FIRST]),
        ],
        "1 mounted 1 files 0 docs\n\
         2 bytes 4 00010203\n\
         4 bytes 4 00010203\n\
         5 bytes 4 00010203\n\
         7 cleared\n\
         9 bytes 4 00010203\n",
    ),
    // the region that was read twice is aged by the decay, and then evicted before the last one
    (
        Cache::Two,
        &[
            ("mount y mount-y\n", 0, &[MANIFEST]),
            ("read y big.bin 0 4\n--\n", 0, &[FIRST]),
            ("read y big.bin 0 4\n--\n", 60_000, &[]),
            ("read y big.bin 4096 4\n--\n", 60_000, &[SECOND]),
            ("decay\n--\n", 180_000, &[]),
            ("read y big.bin 8192 4\n--\n", 180_000, &[LAST]),
            ("read y big.bin 4096 4\n--\n", 180_000, &[SECOND]),
            ("read y big.bin 8192 4\n--\n", 180_000, &[]),
        ],
        "1 mounted 1 files 0 docs\n\
         2 bytes 4 00010203\n\
         4 bytes 4 00010203\n\
         6 bytes 4 50515253\n\
         8 decayed\n\
         10 bytes 4 a0a1a2a3\n\
         12 bytes 4 50515253\n\
         14 bytes 4 a0a1a2a3\n",
    ),
    // without the decay it stays, and the last one is evicted
    (
        Cache::Two,
        &[
            ("mount y mount-y\n", 0, &[MANIFEST]),
            ("read y big.bin 0 4\n--\n", 0, &[FIRST]),
            ("read y big.bin 0 4\n--\n", 60_000, &[]),
            ("read y big.bin 4096 4\n--\n", 60_000, &[SECOND]),
            ("read y big.bin 8192 4\n--\n", 180_000, &[LAST]),
            ("read y big.bin 4096 4\n--\n", 180_000, &[SECOND]),
            ("read y big.bin 8192 4\n--\n", 180_000, &[LAST]),
        ],
        "1 mounted 1 files 0 docs\n\
         2 bytes 4 00010203\n\
         4 bytes 4 00010203\n\
         6 bytes 4 50515253\n\
         8 bytes 4 a0a1a2a3\n\
         10 bytes 4 50515253\n\
         12 bytes 4 a0a1a2a3\n",
    ),
];

/// Runs these first blocks of a script, and compares what the sources gave and what was written.
fn run_front<R: Abort + Threads + Wait + Sync>(
    rt: &R,
    alloc: Global,
    cache: Cache,
    blocks: &[Block],
    wanted: &[u8],
) -> Result<(), AllocError> {
    let mut text = String::new(alloc);
    let mut times = Vec::new(alloc);
    let mut taken = Vec::new(alloc);
    for (lines, time, reads) in blocks {
        text.push_str(lines)?;
        times.push(*time)?;
        for read in *reads {
            taken.push(*read)?;
        }
    }
    let mut sources = sample_sources(alloc, 2)?;
    let mut sink = MemSink::new(alloc, 65_536, Vec::new(alloc));
    let ended = run_at(
        rt,
        alloc,
        text.as_bytes(),
        cache,
        &mut sources,
        2,
        &OpenGate,
        &mut sink,
        times,
    )?;
    assert!(rt; ended == Ended::Done { marked: false });
    assert!(rt; sources.len() == 2);
    assert!(rt; sources[0].reads() == taken.as_slice() && sources[1].reads().is_empty());
    assert!(rt; wanted.starts_with(sink.written()));
    Ok(())
}

#[test]
fn bytes_taken(rt: HostRuntime) -> Result<(), Fail> {
    let alloc = rt.alloc();
    for (cache, blocks, wanted) in ROWS {
        for count in 0..blocks.len() + 1 {
            run_front(&rt, alloc, cache, &blocks[..count], wanted.as_bytes())?;
        }
    }
    Ok(())
}

/// How many bytes the reads of these sources gave.
fn bytes_given(sources: &[Source]) -> u64 {
    let mut given: u64 = 0;
    for source in sources {
        for (_, _, count) in source.reads() {
            given = given.saturating_add(*count);
        }
    }
    given
}

/// A script, how many bytes its run takes of both sources together, and its text. The manifest's text has 291 bytes; a
/// search reads the postings, of 172 bytes, and the live documents, of 57; a fetch reads the live documents too, and
/// the stored fields, of 111. Each file lies in a region of its own.
const FILES: [(&str, u64, &str); 3] = [
    ("mount z mount-z\n", 291, "1 mounted 3 files 3 docs\n"),
    (
        "mount z mount-z\n\
         search z 10 {\"bool\":{\"must_not\":{\"term\":{\"body\":\"red\"}}}}\n\
         fetch z _0 0\n",
        631,
        "1 mounted 3 files 3 docs\n\
         2 hits 1 _0/2\n\
         3 fields 1 dGl0bGU=:string:cmVkIGZveA==\n",
    ),
    (
        "mount z mount-z\n\
         search z 10 {\"bool\":{\"must_not\":{\"term\":{\"body\":\"red\"}}}}\n\
         fetch z _0 0\n\
         --\n\
         search z 10 {\"bool\":{\"must_not\":{\"term\":{\"body\":\"red\"}}}}\n\
         fetch z _0 0\n",
        631,
        "1 mounted 3 files 3 docs\n\
         2 hits 1 _0/2\n\
         3 fields 1 dGl0bGU=:string:cmVkIGZveA==\n\
         5 hits 1 _0/2\n\
         6 fields 1 dGl0bGU=:string:cmVkIGZveA==\n",
    ),
];

#[test]
fn files_taken_once(rt: HostRuntime) -> Result<(), Fail> {
    let alloc = rt.alloc();
    for (text, given, wanted) in FILES {
        let mut sources = sample_sources(alloc, 2)?;
        let mut sink = MemSink::new(alloc, 65_536, Vec::new(alloc));
        let ended = run_by_two(&rt, alloc, text.as_bytes(), &mut sources, &mut sink)?;
        assert!(rt; ended == Ended::Done { marked: false }, "{text}");
        assert_eq!(rt; sink.written(), wanted.as_bytes(), "{text}");
        assert_eq!(rt; bytes_given(&sources), given, "{text}");
    }
    Ok(())
}
