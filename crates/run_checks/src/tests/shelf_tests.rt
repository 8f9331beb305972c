// Searches one behind another: what is kept of a mount, and that it is let go with the mount.
use super::shard_tests::shard_source;
use super::{Cache, run_text};
use cache_outside::MemSink;
use script_run::Ended;
use std::alloc::{AllocError, Global};
use std::test::Fail;

/// How many documents have the term `red`.
const DOCS: u32 = 500;

/// A postings text of 9,586 bytes. The entries of `fox` stand in the bytes 22 to 40; behind them each document is one
/// of `red`, in a line of 19 bytes.
fn postings(alloc: Global) -> Result<String, AllocError> {
    let mut text = String::from_str(
        alloc,
        "field body\n  term fox\n    doc 0000000000\n  term red\n",
    )?;
    for doc in 0..DOCS {
        let line = format!(in alloc; "    doc {:010}\n", doc)?;
        text.push_str(&line)?;
    }
    text.push_str("END\nchecksum 00000000000000000000\n")?;
    Ok(text)
}

/// The cache is cleared between two searches, so that the second takes again what it reads.
const SCRIPT: &str = "mount s mount-s\n\
     search s 10 {\"term\":{\"body\":\"fox\"}}\n\
     clear s\n\
     search s 10 {\"term\":{\"body\":\"fox\"}}\n\
     unmount s\n\
     mount s mount-s\n\
     search s 10 {\"term\":{\"body\":\"fox\"}}\n";

const TEXT: &str = "1 mounted 1 files 500 docs\n\
     2 hits 1 _0/0\n\
     3 cleared\n\
     4 hits 1 _0/0\n\
     5 unmounted\n\
     6 mounted 1 files 500 docs\n\
     7 hits 1 _0/0\n";

/// The place and the count of each read of the postings, which are blob 0. The first search takes the whole text, in
/// ranges of 4,096 bytes. The second has the dictionary, and takes the range of the entries alone. The third is the
/// first of a new mount.
const TAKEN: [(u64, u64); 7] = [
    (0, 4096),
    (4096, 4096),
    (8192, 1394),
    (0, 4096),
    (0, 4096),
    (4096, 4096),
    (8192, 1394),
];

#[test]
fn a_mount_keeps_its_dictionaries(rt: HostRuntime) -> Result<(), Fail> {
    let alloc = rt.alloc();
    let text = postings(alloc)?;
    assert_eq!(rt; text.as_bytes().len(), 9586);
    let mut source = shard_source(alloc, text.as_str(), DOCS, 65_536)?;
    let mut sink = MemSink::new(alloc, 65_536, Vec::new(alloc));
    let ended = run_text(
        &rt,
        alloc,
        SCRIPT.as_bytes(),
        Cache::Four,
        &mut source,
        &mut sink,
    )?;
    assert!(rt; matches!(ended, Ended::Done { marked: false }));
    assert_eq!(rt; sink.written(), TEXT.as_bytes());
    let mut taken = Vec::new(alloc);
    for (blob, at, count) in source.reads() {
        if *blob == 0 {
            taken.push((*at, *count))?;
        }
    }
    assert!(rt; taken.as_slice() == TAKEN.as_slice());
    Ok(())
}
