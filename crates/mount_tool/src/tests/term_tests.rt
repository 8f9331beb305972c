// The command `term` over archives in memory: the sample archive in steps, failing calls, and each refusal.
use crate::tests::{called, called_over, smooth};
use byte_text::{Blobs, Name, Text};
use cache_outside::{MemSink, SourceCall};
use std::alloc::{AllocError, Global};
use std::sync::Wait;
use std::thread::Threads;

#[test]
fn the_sample_archive(rt: HostRuntime) -> Result<(), AllocError> {
    let alloc = rt.alloc();
    for step in [1, 7, 65_536] {
        for (manifest, wanted, status) in [
            ("mount-w", "hits 2 _0/0 _0/2\n", 0),
            ("mount-q", "refused missing\n", 1),
            ("mount-x", "hits 2 _0/0 _0/2\n", 0),
            ("mount-y", "hits 0\n", 0),
            ("mount-z", "hits 2 _0/0 _0/2\n", 0),
        ] {
            let mut plan = smooth(alloc, step);
            plan.sink_step = 3;
            let (answer, sink) = called(&rt, alloc, &["term", manifest, "body", "fox"], b"", plan)?;
            assert_eq!(rt; answer, status, "{manifest}");
            assert_eq!(rt; sink.written(), wanted.as_bytes(), "{manifest}");
        }
    }
    Ok(())
}

#[test]
fn failures_of_the_source_and_the_sink(rt: HostRuntime) -> Result<(), AllocError> {
    let alloc = rt.alloc();
    let words = ["term", "mount-w", "body", "fox"];
    for call in [
        SourceCall::Find,
        SourceCall::Manifest,
        SourceCall::Size,
        SourceCall::Read,
    ] {
        let mut plan = smooth(alloc, 65_536);
        plan.source.push((call, 1))?;
        let (answer, sink) = called(&rt, alloc, &words, b"", plan)?;
        assert_eq!(rt; answer, 1);
        assert_eq!(rt; sink.written(), b"fault\n".as_slice());
    }
    let mut plan = smooth(alloc, 65_536);
    plan.sink_step = 3;
    plan.sink.push(2)?;
    let (answer, sink) = called(&rt, alloc, &words, b"", plan)?;
    assert_eq!(rt; answer, 5);
    assert_eq!(rt; sink.written(), b"hit".as_slice());
    Ok(())
}

/// What `term mount-a f t` answers and writes over an archive of which nothing is told: this manifest, and this blob
/// `__a` where there is one.
fn answered<Rt: Threads + Wait + Sync>(
    rt: &Rt,
    alloc: Global,
    manifest: &[u8],
    part: Option<&[u8]>,
) -> Result<(u8, MemSink), AllocError> {
    let mut blobs = Blobs::new(alloc);
    if let Some(name) = Name::read(alloc, b"mount-a")? {
        blobs.push((name, Text::of(alloc, manifest)?))?;
    }
    if let Some(bytes) = part {
        if let Some(name) = Name::read(alloc, b"__a")? {
            blobs.push((name, Text::of(alloc, bytes)?))?;
        }
    }
    called_over(rt, alloc, &["term", "mount-a", "f", "t"], blobs)
}

const EMPTY: &[u8] = b"END\nchecksum 00000000000000000000\n";

const CUT_OFF: &[u8] = b"END\nchecksum 00000000000000000000";

const LIVE: &[u8] =
    b"{\"version\":1,\"files\":[{\"name\":\"__a\",\"physical_name\":\"p\",\"length\":34}],\
    \"segments\":[{\"name\":\"s\",\"docs\":1,\"postings\":\"p\",\"live\":\"p\"}]}";

const PLAIN: &[u8] =
    b"{\"version\":1,\"files\":[{\"name\":\"__a\",\"physical_name\":\"p\",\"length\":34}],\
    \"segments\":[{\"name\":\"s\",\"docs\":1,\"postings\":\"p\"}]}";

const LONG: &[u8] =
    b"{\"version\":1,\"files\":[{\"name\":\"__a\",\"physical_name\":\"p\",\"length\":1099511623681}],\
    \"segments\":[{\"name\":\"s\",\"docs\":1,\"postings\":\"p\"}]}";

const DOUBLE: &[u8] =
    b"{\"version\":1,\"files\":[{\"name\":\"__a\",\"physical_name\":\"p\",\"length\":34},{\"name\":\"__b\",\
    \"physical_name\":\"p\",\"length\":34}],\"segments\":[{\"name\":\"s\",\"docs\":1,\"postings\":\"p\"}]}";

const NO_FILE: &[u8] =
    b"{\"version\":1,\"files\":[{\"name\":\"__a\",\"physical_name\":\"p\",\"length\":34}],\
    \"segments\":[{\"name\":\"s\",\"docs\":1,\"postings\":\"g\"}]}";

#[test]
fn refusals(rt: HostRuntime) -> Result<(), AllocError> {
    let alloc = rt.alloc();
    let (answer, sink) = answered(&rt, alloc, PLAIN, Some(EMPTY))?;
    assert_eq!(rt; answer, 0);
    assert_eq!(rt; sink.written(), b"hits 0\n".as_slice());
    let rows: [(&[u8], Option<&[u8]>, &str); 8] = [
        (b"{", None, "refused json\n"),
        (b"{\"version\":2}", None, "refused shape version\n"),
        (LONG, None, "refused limit length\n"),
        (DOUBLE, None, "refused double p\n"),
        (NO_FILE, None, "refused nofile g\n"),
        (PLAIN, None, "refused part __a\n"),
        (PLAIN, Some(CUT_OFF), "refused size __a\n"),
        (LIVE, Some(EMPTY), "bad shard p 0\n"),
    ];
    for (manifest, part, wanted) in rows {
        let (answer, sink) = answered(&rt, alloc, manifest, part)?;
        assert_eq!(rt; answer, 1);
        assert_eq!(rt; sink.written(), wanted.as_bytes());
    }
    Ok(())
}
