// Sources and sinks that fail.
use super::{Cache, add_blob, run_text, sample_source, untold_source};
use byte_text::Blobs;
use cache_outside::{MemSink, MemSource, SourceCall, Untold};
use script_run::Ended;
use std::alloc::{AllocError, Global};
use std::test::Fail;

/// Reads of every kind: four files are mounted, two of them read by the search, one more by the fetch, and none by
/// the read.
const SCRIPT: &str = "mount z mount-z\n\
     search z 10 {\"term\":{\"body\":\"fox\"}}\n\
     fetch z _0 0\n\
     read z _0.pst 98 4\n";

const REPLIES: [(u32, &str); 4] = [
    (1, "mounted 3 files 3 docs"),
    (2, "hits 2 _0/0 _0/2"),
    (3, "fields 1 dGl0bGU=:string:cmVkIGZveA=="),
    (4, "bytes 4 20726564"),
];

/// By kind, on which line each call of a run stands, where none before it failed.
///
/// The mount finds the manifest's blob, two parts of one file, and a blob for each of the two others, and asks each
/// one's size; it reads the manifest's text at once. The search reads the postings in two parts, and the live
/// documents; the fetch reads the stored fields.
const CALLS: [(SourceCall, &[u32]); 4] = [
    (SourceCall::Find, &[1, 1, 1, 1, 1]),
    (SourceCall::Manifest, &[1]),
    (SourceCall::Size, &[1, 1, 1, 1, 1]),
    (SourceCall::Read, &[1, 2, 2, 2, 3]),
];

/// The text of a run in which this line failed, if it is one of its lines: behind a mount that failed nothing is
/// mounted.
fn text_where(alloc: Global, failed: u32) -> Result<String, AllocError> {
    let mut text = String::new(alloc);
    for (number, reply) in REPLIES {
        let reply = if number == failed {
            "fault"
        } else if failed == 1 {
            "not mounted"
        } else {
            reply
        };
        text.push_str(format!(in alloc; "{number} {reply}\n")?.as_str())?;
    }
    Ok(text)
}

#[test]
fn each_call_of_the_source(rt: HostRuntime) -> Result<(), Fail> {
    let alloc = rt.alloc();
    for (kind, lines) in CALLS {
        for n in 0..lines.len() + 1 {
            let failed = lines.get(n).copied();
            let fails = vec![in alloc; (kind, n as u64 + 1)]?;
            let mut source = sample_source(alloc, 65_536, fails)?;
            let mut sink = MemSink::new(alloc, 65_536, Vec::new(alloc));
            let ended = run_text(
                &rt,
                alloc,
                SCRIPT.as_bytes(),
                Cache::Four,
                &mut source,
                &mut sink,
            )?;
            let marked = matches!(ended, Ended::Done { marked: true });
            assert_eq!(rt; marked, failed.is_some());
            assert!(rt; marked || matches!(ended, Ended::Done { marked: false }));
            let wanted = text_where(alloc, failed.unwrap_or(0))?;
            assert_eq!(rt; sink.written(), wanted.as_bytes());
        }
    }
    Ok(())
}

#[test]
fn fault_of_a_read(rt: HostRuntime) -> Result<(), Fail> {
    let alloc = rt.alloc();
    let text = b"mount y mount-y\nread y big.bin 0 4\nread y big.bin 0 4\n";
    let fails = vec![in alloc; (SourceCall::Read, 2)]?;
    let mut source = sample_source(alloc, 65_536, fails)?;
    let mut sink = MemSink::new(alloc, 65_536, Vec::new(alloc));
    let ended = run_text(&rt, alloc, text, Cache::Four, &mut source, &mut sink)?;
    assert!(rt; matches!(ended, Ended::Done { marked: true }));
    let wanted = b"1 mounted 1 files 0 docs\n2 fault\n3 bytes 4 00010203\n";
    assert_eq!(rt; sink.written(), wanted.as_slice());
    Ok(())
}

/// A manifest of one file of 140,000 bytes.
const LARGE: &str =
    "{\"version\":1,\"files\":[{\"name\":\"__v\",\"physical_name\":\"large.bin\",\"length\":140000}],\
     \"segments\":[]}";

/// A source of that file, whose byte at place i is i modulo 251, and of that manifest. Its third read fails.
fn large_source(alloc: Global) -> Result<MemSource<Untold>, AllocError> {
    let mut bytes = Vec::<u8>::new(alloc);
    for i in 0..140_000_u32 {
        bytes.push((i % 251) as u8)?;
    }
    let mut blobs = Blobs::new(alloc);
    add_blob(alloc, &mut blobs, "__v", &bytes)?;
    add_blob(alloc, &mut blobs, "mount-v", LARGE.as_bytes())?;
    untold_source(alloc, blobs, 65_536, vec![in alloc; (SourceCall::Read, 3)]?)
}

/// A read that fails behind another one of the same range leaves what that one gave.
#[test]
fn what_stands_behind_a_fault(rt: HostRuntime) -> Result<(), Fail> {
    let alloc = rt.alloc();
    let text = b"mount v mount-v\n\
        read v large.bin 100000 4\n\
        read v large.bin 0 4\n\
        read v large.bin 100000 4\n";
    let mut source = large_source(alloc)?;
    let mut sink = MemSink::new(alloc, 65_536, Vec::new(alloc));
    let ended = run_text(&rt, alloc, text, Cache::FourWide, &mut source, &mut sink)?;
    assert!(rt; matches!(ended, Ended::Done { marked: true }));
    let wanted = b"1 mounted 1 files 0 docs\n2 fault\n3 bytes 4 00010203\n4 bytes 4 66676869\n";
    assert_eq!(rt; sink.written(), wanted.as_slice());
    let taken = source
        .reads()
        .split_first()
        .map(|(_manifest, others)| others);
    let wanted: &[(u32, u64, u64)] = &[(0, 0, 65_536), (0, 65_536, 65_536), (0, 131_072, 8_928)];
    assert!(rt; taken == Some(wanted));
    Ok(())
}

/// What a sink of 10 bytes a write has where its write of this number fails: the lines have 25 and 19 bytes, and each
/// is handed over from its begin on.
const FRONTS: [(u64, usize); 6] = [(1, 0), (2, 10), (3, 20), (4, 25), (5, 35), (6, 44)];

#[test]
fn each_write_to_the_sink(rt: HostRuntime) -> Result<(), Fail> {
    let alloc = rt.alloc();
    let text = b"mount logs mount-x\nsearch logs 10 {\"term\":{\"body\":\"fox\"}}\n";
    let wanted = b"1 mounted 1 files 3 docs\n2 hits 2 _0/0 _0/2\n";
    for (n, front) in FRONTS {
        let mut source = sample_source(alloc, 65_536, Vec::new(alloc))?;
        let fails = vec![in alloc; n]?;
        let mut sink = MemSink::new(alloc, 10, fails);
        let ended = run_text(&rt, alloc, text, Cache::Four, &mut source, &mut sink)?;
        let failed = matches!(ended, Ended::SinkFault);
        assert_eq!(rt; failed, front < 44);
        assert!(rt; failed || matches!(ended, Ended::Done { marked: false }));
        assert_eq!(rt; sink.written().len(), front);
        assert!(rt; wanted.starts_with(sink.written()));
    }
    Ok(())
}
