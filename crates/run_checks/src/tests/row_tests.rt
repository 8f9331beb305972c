// Scripts over the sample archive: their texts, and the bytes that they take from the source.
use super::{Cache, SOME_TIMES, run_at, run_text, sample_source};
use cache_outside::{MemSink, MemSource};
use sample_archive::SampleArchive;
use script_run::Ended;
use std::alloc::{AllocError, Global};
use std::process::Abort;
use std::test::Fail;

/// Bytes of a blob: the blob's number, the place of the first, and how many.
type Taken = (u32, u64, u64);

/// The number of the first blob that is a manifest. Before it stand the two parts of a postings file, the 10,000 bytes
/// of `big.bin`, stored fields, live documents and another postings file.
const MANIFESTS: u32 = 6;

/// The cache, the times of the blocks, a script, the text of its run, and the bytes of blobs but manifests that the run
/// takes, in order.
type Row = (
    Cache,
    &'static [u64],
    &'static str,
    &'static str,
    &'static [Taken],
);

const ROWS: [Row; 16] = [
    (Cache::Four, SOME_TIMES, "", "", &[]),
    // postings of two parts are taken once, whole
    (
        Cache::Four,
        SOME_TIMES,
        "mount logs mount-x\n\
         search logs 10 {\"term\":{\"body\":\"fox\"}}\n\
         search logs 1 {\"term\":{\"body\":\"fox\"}}\n\
         read logs _0.pst 98 4\n",
        "1 mounted 1 files 3 docs\n\
         2 hits 2 _0/0 _0/2\n\
         3 hits 2 _0/0\n\
         4 bytes 4 20726564\n",
        &[(0, 0, 100), (1, 0, 72)],
    ),
    (
        Cache::Four,
        SOME_TIMES,
        "mount x mount-x\n\
         search x 10 {\"bool\":{\"must_not\":{\"term\":{\"body\":\"red\"}}}}\n\
         search x 0 {\"bool\":{}}\n",
        "1 mounted 1 files 3 docs\n\
         2 hits 2 _0/1 _0/2\n\
         3 hits 3\n",
        &[(0, 0, 100), (1, 0, 72)],
    ),
    (
        Cache::Four,
        SOME_TIMES,
        "mount x mount-x\n\
         search x 10 {\"bool\":{\"should\":[{\"term\":{\"body\":\"fox\"}},{\"term\":{\"body\":\"red\"}}],\
         \"minimum_should_match\":2}}\n\
         search x 10 {\"bool\":{\"should\":[{\"term\":{\"body\":\"fox\"}},{\"term\":{\"body\":\"red\"}}],\
         \"minimum_should_match\":3}}\n\
         search x 10 {\"term\":{\"none\":\"fox\"}}\n\
         search x 10 {\"term\":{\"body\":5}}\n",
        "1 mounted 1 files 3 docs\n\
         2 hits 1 _0/0\n\
         3 hits 0\n\
         4 hits 0\n\
         5 bad query\n",
        &[(0, 0, 100), (1, 0, 72)],
    ),
    // across two regions; the same again is there
    (
        Cache::Four,
        SOME_TIMES,
        "mount y mount-y\n\
         read y big.bin 4090 16\n\
         --\n\
         read y big.bin 4090 16\n\
         stats",
        "1 mounted 1 files 0 docs\n\
         2 bytes 16 4a4b4c4d4e4f50515253545556575859\n\
         4 bytes 16 4a4b4c4d4e4f50515253545556575859\n\
         5 stats free 2 listed 2 leaving 0 evictions 0 promotions 2 demotions 0 fetched 8192 direct 0\n",
        &[(2, 0, 4096), (2, 4096, 4096)],
    ),
    // the last region is shorter, and nothing is read of an empty range or past the end
    (
        Cache::Four,
        SOME_TIMES,
        "mount y mount-y\n\
         read y big.bin 9999 1\n\
         read y big.bin 9999 2\n\
         read y big.bin 10000 0\n\
         read y big.bin 10001 0\n\
         read y big.bin 18446744073709551615 1048576\n\
         read y other.bin 0 0\n",
        "1 mounted 1 files 0 docs\n\
         2 bytes 1 d2\n\
         3 past end\n\
         4 bytes 0\n\
         5 past end\n\
         6 past end\n\
         7 no file\n",
        &[(2, 8192, 1808)],
    ),
    // one region for all
    (
        Cache::One,
        SOME_TIMES,
        "mount y mount-y\n\
         read y big.bin 0 4\n\
         read y big.bin 4096 4\n\
         read y big.bin 0 4\n\
         stats\n",
        "1 mounted 1 files 0 docs\n\
         2 bytes 4 00010203\n\
         3 bytes 4 50515253\n\
         4 bytes 4 00010203\n\
         5 stats free 0 listed 1 leaving 0 evictions 2 promotions 0 demotions 0 fetched 12288 direct 0\n",
        &[(2, 0, 4096), (2, 4096, 4096), (2, 0, 4096)],
    ),
    // stored fields are read before live documents
    (
        Cache::Four,
        SOME_TIMES,
        "mount z mount-z\n\
         fetch z _0 0\n\
         fetch z _0 1\n\
         fetch z _0 3\n\
         fetch z _1 0\n\
         search z 10 {\"bool\":{\"must_not\":{\"term\":{\"body\":\"red\"}}}}\n",
        "1 mounted 3 files 3 docs\n\
         2 fields 1 dGl0bGU=:string:cmVkIGZveA==\n\
         3 no doc\n\
         4 no doc\n\
         5 no file\n\
         6 hits 1 _0/2\n",
        &[(3, 0, 111), (4, 0, 57), (0, 0, 100), (1, 0, 72)],
    ),
    // postings are read before live documents; a second search and fetch take nothing
    (
        Cache::Four,
        SOME_TIMES,
        "mount z mount-z\n\
         search z 10 {\"bool\":{\"must_not\":{\"term\":{\"body\":\"red\"}}}}\n\
         fetch z _0 0\n\
         --\n\
         search z 10 {\"bool\":{\"must_not\":{\"term\":{\"body\":\"red\"}}}}\n\
         fetch z _0 0\n",
        "1 mounted 3 files 3 docs\n\
         2 hits 1 _0/2\n\
         3 fields 1 dGl0bGU=:string:cmVkIGZveA==\n\
         5 hits 1 _0/2\n\
         6 fields 1 dGl0bGU=:string:cmVkIGZveA==\n",
        &[(0, 0, 100), (1, 0, 72), (4, 0, 57), (3, 0, 111)],
    ),
    (
        Cache::Four,
        SOME_TIMES,
        "mount logs mount-x\n\
         decay\n\
         clear logs\n\
         clear none\n",
        "1 mounted 1 files 3 docs\n\
         2 decayed\n\
         3 cleared\n\
         4 not mounted\n",
        &[],
    ),
    // a name is free again behind the block of its unmount
    (
        Cache::Four,
        SOME_TIMES,
        "mount logs mount-x\n\
         unmount logs\n\
         unmount logs\n\
         --\n\
         unmount logs\n\
         mount logs mount-y\n\
         read logs big.bin 0 1\n",
        "1 mounted 1 files 3 docs\n\
         2 unmounted\n\
         3 unmounted\n\
         5 not mounted\n\
         6 mounted 1 files 0 docs\n\
         7 bytes 1 00\n",
        &[(2, 0, 4096)],
    ),
    // what was cleared is taken again, in the same block
    (
        Cache::Four,
        SOME_TIMES,
        "mount y mount-y\n\
         read y big.bin 0 1\n\
         clear y\n\
         read y big.bin 0 1\n\
         stats\n",
        "1 mounted 1 files 0 docs\n\
         2 bytes 1 00\n\
         3 cleared\n\
         4 bytes 1 00\n\
         5 stats free 3 listed 1 leaving 0 evictions 0 promotions 0 demotions 0 fetched 8192 direct 0\n",
        &[(2, 0, 4096), (2, 0, 4096)],
    ),
    // and in a later one
    (
        Cache::Four,
        SOME_TIMES,
        "mount y mount-y\n\
         read y big.bin 0 4\n\
         --\n\
         read y big.bin 0 4\n\
         read y big.bin 0 4\n\
         --\n\
         clear y\n\
         --\n\
         read y big.bin 0 4\n\
         stats\n",
        "1 mounted 1 files 0 docs\n\
         2 bytes 4 00010203\n\
         4 bytes 4 00010203\n\
         5 bytes 4 00010203\n\
         7 cleared\n\
         9 bytes 4 00010203\n\
         10 stats free 3 listed 1 leaving 0 evictions 0 promotions 1 demotions 0 fetched 8192 direct 0\n",
        &[(2, 0, 4096), (2, 0, 4096)],
    ),
    // what was unmounted is taken again
    (
        Cache::Four,
        SOME_TIMES,
        "mount y mount-y\n\
         read y big.bin 0 4\n\
         unmount y\n\
         mount y mount-y\n\
         read y big.bin 0 4\n\
         stats\n",
        "1 mounted 1 files 0 docs\n\
         2 bytes 4 00010203\n\
         3 unmounted\n\
         4 mounted 1 files 0 docs\n\
         5 bytes 4 00010203\n\
         6 stats free 3 listed 1 leaving 0 evictions 0 promotions 0 demotions 0 fetched 8192 direct 0\n",
        &[(2, 0, 4096), (2, 0, 4096)],
    ),
    // region 0 is raised at 60,000; lowered at 180,000 it stands behind region 1, so that region 1 is evicted first,
    // and then region 0
    (
        Cache::Two,
        &[
            0, 0, 60_000, 60_000, 180_000, 180_000, 180_000, 180_000, 180_000,
        ],
        "mount y mount-y\n\
         read y big.bin 0 4\n\
         --\n\
         read y big.bin 0 4\n\
         --\n\
         read y big.bin 4096 4\n\
         --\n\
         decay\n\
         --\n\
         read y big.bin 8192 4\n\
         --\n\
         read y big.bin 4096 4\n\
         --\n\
         read y big.bin 8192 4\n\
         stats\n",
        "1 mounted 1 files 0 docs\n\
         2 bytes 4 00010203\n\
         4 bytes 4 00010203\n\
         6 bytes 4 50515253\n\
         8 decayed\n\
         10 bytes 4 a0a1a2a3\n\
         12 bytes 4 50515253\n\
         14 bytes 4 a0a1a2a3\n\
         15 stats free 0 listed 2 leaving 0 evictions 2 promotions 1 demotions 1 fetched 14096 direct 0\n",
        &[
            (2, 0, 4096),
            (2, 4096, 4096),
            (2, 8192, 1808),
            (2, 4096, 4096),
        ],
    ),
    // a millisecond earlier nothing is lowered, and region 1 is evicted each time
    (
        Cache::Two,
        &[
            0, 0, 60_000, 60_000, 179_999, 180_000, 180_000, 180_000, 180_000,
        ],
        "mount y mount-y\n\
         read y big.bin 0 4\n\
         --\n\
         read y big.bin 0 4\n\
         --\n\
         read y big.bin 4096 4\n\
         --\n\
         decay\n\
         --\n\
         read y big.bin 8192 4\n\
         --\n\
         read y big.bin 4096 4\n\
         --\n\
         read y big.bin 8192 4\n\
         stats\n",
        "1 mounted 1 files 0 docs\n\
         2 bytes 4 00010203\n\
         4 bytes 4 00010203\n\
         6 bytes 4 50515253\n\
         8 decayed\n\
         10 bytes 4 a0a1a2a3\n\
         12 bytes 4 50515253\n\
         14 bytes 4 a0a1a2a3\n\
         15 stats free 0 listed 2 leaving 0 evictions 3 promotions 1 demotions 0 fetched 15904 direct 0\n",
        &[
            (2, 0, 4096),
            (2, 4096, 4096),
            (2, 8192, 1808),
            (2, 4096, 4096),
            (2, 8192, 1808),
        ],
    ),
];

/// The reads so far of blobs but manifests, in order.
fn data_reads(alloc: Global, source: &MemSource<SampleArchive>) -> Result<Vec<Taken>, AllocError> {
    let mut taken = Vec::new(alloc);
    for (blob, at, count) in source.reads() {
        if *blob < MANIFESTS {
            taken.push((*blob, *at, *count))?;
        }
    }
    Ok(taken)
}

/// Puts bytes of a blob behind the others, each for itself.
fn push_each(bytes: &mut Vec<Taken>, blob: u32, at: u64, count: u64) -> Result<(), AllocError> {
    for i in 0..count {
        bytes.push((blob, at.saturating_add(i), 1))?;
    }
    Ok(())
}

/// The reads of the same bytes in the same order at a source that gives one byte a read.
fn one_by_one(alloc: Global, taken: &[Taken]) -> Result<Vec<Taken>, AllocError> {
    let mut bytes = Vec::new(alloc);
    for (blob, at, count) in taken {
        push_each(&mut bytes, *blob, *at, *count)?;
    }
    Ok(bytes)
}

/// Whether a run at these times through this cache, in steps of this many bytes, has this text and takes these bytes.
fn runs_so(
    rt: &impl Abort,
    alloc: Global,
    row: Row,
    step: usize,
    wanted: &[Taken],
) -> Result<bool, AllocError> {
    let (cache, times, script, text, _taken) = row;
    let mut source = sample_source(alloc, step, Vec::new(alloc))?;
    let mut sink = MemSink::new(alloc, step.max(1), Vec::new(alloc));
    let ended = run_at(
        rt,
        alloc,
        times,
        script.as_bytes(),
        cache,
        &mut source,
        &mut sink,
    )?;
    let unmarked = matches!(ended, Ended::Done { marked: false });
    let taken = data_reads(alloc, &source)?;
    Ok(unmarked && sink.written() == text.as_bytes() && taken.as_slice() == wanted)
}

#[test]
fn texts_and_bytes_taken(rt: HostRuntime) -> Result<(), Fail> {
    let alloc = rt.alloc();
    for row in ROWS {
        let (_cache, _times, script, _text, taken) = row;
        assert!(rt; runs_so(&rt, alloc, row, 65_536, taken)?, "{script}");
    }
    Ok(())
}

#[test]
fn texts_and_bytes_taken_one_by_one(rt: HostRuntime) -> Result<(), Fail> {
    let alloc = rt.alloc();
    for row in ROWS {
        let (_cache, _times, script, _text, taken) = row;
        let bytes = one_by_one(alloc, taken)?;
        assert!(rt; runs_so(&rt, alloc, row, 1, &bytes)?, "{script}");
    }
    Ok(())
}

#[test]
fn unmounted_in_its_block(rt: HostRuntime) -> Result<(), Fail> {
    let alloc = rt.alloc();
    let text = "mount logs mount-x\n\
         unmount logs\n\
         search logs 1 {\"bool\":{}}\n\
         --\n\
         search logs 1 {\"bool\":{}}\n";
    let mut source = sample_source(alloc, 65_536, Vec::new(alloc))?;
    let mut sink = MemSink::new(alloc, 65_536, Vec::new(alloc));
    let ended = run_text(
        &rt,
        alloc,
        text.as_bytes(),
        Cache::Four,
        &mut source,
        &mut sink,
    )?;
    assert!(rt; matches!(ended, Ended::Done { marked: true }));
    let wanted = b"1 mounted 1 files 3 docs\n2 unmounted\n3 gone\n5 not mounted\n";
    assert_eq!(rt; sink.written(), wanted.as_slice());
    Ok(())
}
