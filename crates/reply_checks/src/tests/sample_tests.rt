// Commands on the sample archive.
use super::{Ask, answer, source_of};
use cache_outside::SourceCall;
use sample_archive::sample_blobs;
use std::alloc::Global;
use std::process::Abort;
use std::test::Fail;

const FOX: &str = "{\"term\":{\"body\":\"fox\"}}";

const NOT_RED: &str = "{\"bool\":{\"must_not\":{\"term\":{\"body\":\"red\"}}}}";

/// A manifest, what is asked of it, and the reply.
fn rows() -> [(&'static str, Ask, &'static str); 24] {
    [
        ("mount-x", Ask::Mount, "mounted 1 files 3 docs"),
        ("mount-y", Ask::Mount, "mounted 1 files 0 docs"),
        ("mount-z", Ask::Mount, "mounted 3 files 3 docs"),
        ("mount-q", Ask::Mount, "refused missing"),
        ("mount-x", Ask::Search(10, FOX), "hits 2 _0/0 _0/2"),
        ("mount-x", Ask::Search(1, FOX), "hits 2 _0/0"),
        ("mount-x", Ask::Search(10, NOT_RED), "hits 2 _0/1 _0/2"),
        ("mount-x", Ask::Search(0, "{\"bool\":{}}"), "hits 3"),
        (
            "mount-x",
            Ask::Search(10, "{\"term\":{\"body\":5}}"),
            "bad query",
        ),
        ("mount-z", Ask::Search(10, NOT_RED), "hits 1 _0/2"),
        ("mount-y", Ask::Search(10, FOX), "hits 0"),
        (
            "mount-z",
            Ask::Fetch("_0", 0),
            "fields 1 dGl0bGU=:string:cmVkIGZveA==",
        ),
        ("mount-z", Ask::Fetch("_0", 1), "no doc"),
        ("mount-z", Ask::Fetch("_0", 2), "fields 0"),
        ("mount-z", Ask::Fetch("_0", 3), "no doc"),
        ("mount-z", Ask::Fetch("_1", 0), "no file"),
        ("mount-x", Ask::Fetch("_0", 0), "no file"),
        ("mount-x", Ask::Read("_0.pst", 98, 4), "bytes 4 20726564"),
        (
            "mount-y",
            Ask::Read("big.bin", 4_090, 16),
            "bytes 16 4a4b4c4d4e4f50515253545556575859",
        ),
        ("mount-y", Ask::Read("big.bin", 9_999, 1), "bytes 1 d2"),
        ("mount-y", Ask::Read("big.bin", 9_999, 2), "past end"),
        ("mount-y", Ask::Read("big.bin", 10_000, 0), "bytes 0"),
        ("mount-y", Ask::Read("big.bin", u64::MAX, 1), "past end"),
        ("mount-y", Ask::Read("_0.pst", 0, 0), "no file"),
    ]
}

#[test]
fn replies_to_commands(rt: HostRuntime) -> Result<(), Fail> {
    let alloc = rt.alloc();
    for step in [1, 65_536] {
        for (manifest, ask, wanted) in rows() {
            let blobs = sample_blobs(alloc)?;
            let mut source = source_of(&rt, alloc, blobs, step, Vec::new(alloc));
            let text = answer(&rt, alloc, &mut source, manifest, ask)?;
            assert_eq!(rt; text.as_bytes(), wanted.as_bytes());
        }
    }
    Ok(())
}

/// From which n on the command makes no n-th call of this kind, where its reply is the wanted one; until then that call
/// fails and the reply is `fault`.
fn calls_made(
    rt: &impl Abort,
    alloc: Global,
    call: SourceCall,
    row: (&'static str, Ask, &'static str),
) -> Result<u64, Fail> {
    let (manifest, ask, wanted) = row;
    for n in 1..40 {
        let blobs = sample_blobs(alloc)?;
        let fails = vec![in alloc; (call, n)]?;
        let mut source = source_of(rt, alloc, blobs, 65_536, fails);
        let text = answer(rt, alloc, &mut source, manifest, ask)?;
        if text.as_bytes() != b"fault".as_slice() {
            assert!(rt; text.as_bytes() == wanted.as_bytes());
            return Ok(n);
        }
    }
    Ok(40)
}

#[test]
fn marks_a_failing_source(rt: HostRuntime) -> Result<(), Fail> {
    let alloc = rt.alloc();
    for call in [
        SourceCall::Find,
        SourceCall::Manifest,
        SourceCall::Size,
        SourceCall::Read,
    ] {
        for row in rows() {
            assert!(rt; calls_made(&rt, alloc, call, row)? < 40);
        }
    }
    Ok(())
}
