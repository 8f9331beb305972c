// Scripts by two workers, and their texts.
use super::{run_by_two, sample_sources};
use cache_outside::MemSink;
use script_run::Ended;
use std::alloc::{AllocError, Global};
use std::process::Abort;
use std::sync::Wait;
use std::test::Fail;
use std::thread::Threads;

/// A script, and the text of its run.
const ROWS: [(&str, &str); 4] = [
    ("", ""),
    (
        "mount logs mount-x\n\
         search logs 10 {\"term\":{\"body\":\"fox\"}}\n\
         search logs 1 {\"term\":{\"body\":\"fox\"}}\n\
         read logs _0.pst 98 4\n",
        "1 mounted 1 files 3 docs\n\
         2 hits 2 _0/0 _0/2\n\
         3 hits 2 _0/0\n\
         4 bytes 4 20726564\n",
    ),
    (
        "mount logs mount-x\n\
         decay\n\
         clear logs\n\
         clear none\n\
         stats\n",
        "1 mounted 1 files 3 docs\n\
         2 decayed\n\
         3 cleared\n\
         4 not mounted\n\
         5 refused stats\n",
    ),
    (
        "mount logs mount-x\n\
         mount logs mount-y\n\
         unmount logs\n\
         unmount logs\n\
         --\n\
         unmount logs\n\
         mount logs mount-y\n\
         read logs big.bin 4090 16\n",
        "1 mounted 1 files 3 docs\n\
         2 refused name\n\
         3 unmounted\n\
         4 unmounted\n\
         6 not mounted\n\
         7 mounted 1 files 0 docs\n\
         8 bytes 16 4a4b4c4d4e4f50515253545556575859\n",
    ),
];

#[test]
fn texts_of_runs(rt: HostRuntime) -> Result<(), Fail> {
    let alloc = rt.alloc();
    for (text, wanted) in ROWS {
        let mut sources = sample_sources(alloc, 2)?;
        let mut sink = MemSink::new(alloc, 65_536, Vec::new(alloc));
        let ended = run_by_two(&rt, alloc, text.as_bytes(), &mut sources, &mut sink)?;
        assert!(rt; ended == Ended::Done { marked: false }, "{text}");
        assert_eq!(rt; sink.written(), wanted.as_bytes(), "{text}");
    }
    Ok(())
}

/// A search beside the unmount of its name, and behind their block the search again.
const UNMOUNTED: &[u8] = b"mount logs mount-x\n\
     unmount logs\n\
     search logs 10 {\"term\":{\"body\":\"fox\"}}\n\
     --\n\
     search logs 10 {\"term\":{\"body\":\"fox\"}}\n";

const HITS: &[u8] = b"1 mounted 1 files 3 docs\n2 unmounted\n3 hits 2 _0/0 _0/2\n5 not mounted\n";

const GONE: &[u8] = b"1 mounted 1 files 3 docs\n2 unmounted\n3 gone\n5 not mounted\n";

/// The run ends marked exactly where its search is `gone`.
fn unmount_beside_a_search<R: Abort + Threads + Wait + Sync>(
    rt: &R,
    alloc: Global,
) -> Result<(), AllocError> {
    let mut sources = sample_sources(alloc, 2)?;
    let mut sink = MemSink::new(alloc, 65_536, Vec::new(alloc));
    let ended = run_by_two(rt, alloc, UNMOUNTED, &mut sources, &mut sink)?;
    let marked = sink.written() == GONE;
    assert!(rt; ended == Ended::Done { marked });
    assert!(rt; marked || sink.written() == HITS);
    Ok(())
}

#[test]
fn unmounted_beside_a_search(rt: HostRuntime) -> Result<(), Fail> {
    for _ in 0..50 {
        unmount_beside_a_search(&rt, rt.alloc())?;
    }
    Ok(())
}
