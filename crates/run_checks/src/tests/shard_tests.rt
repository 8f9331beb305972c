// Postings texts that are bad at a place, and some that only look so.
use super::{Cache, add_blob, run_text, untold_source};
use byte_text::Blobs;
use cache_outside::{MemSink, MemSource, Untold};
use script_run::Ended;
use std::alloc::{AllocError, Global};
use std::test::Fail;

const FOX: &str = "{\"term\":{\"body\":\"fox\"}}";

/// A postings text, the number of its documents, a query, and the reply to a search of it.
const SHARDS: [(&str, u32, &str, &str); 7] = [
    // its checksum line is missing
    (
        "field body\n  term fox\n    doc 0\n      freq 1\n      pos 1\n    doc 2\n      freq 1\n      pos 0\n  \
         term red\n    doc 0\n      freq 1\n      pos 0\n",
        3,
        FOX,
        "bad shard _0.pst 138",
    ),
    // it ends inside the line of a term
    (
        "field body\n  term fox\n    doc 0\n      freq 1\n      pos 1\n    doc 2\n      freq 1\n      pos 0\n  term r",
        3,
        FOX,
        "bad shard _0.pst 92",
    ),
    // a document twice
    (
        "field body\n  term fox\n    doc 0\n      freq 1\n      pos 1\n    doc 0\n      freq 1\n      pos 0\n  \
         term red\n    doc 0\n      freq 1\n      pos 0\nEND\nchecksum 00000000000000000000\n",
        3,
        FOX,
        "bad shard _0.pst 57",
    ),
    // a document past the last
    (
        "field body\n  term fox\n    doc 0\n      freq 1\n      pos 1\n    doc 3\n      freq 1\n      pos 0\n  \
         term red\n    doc 0\n      freq 1\n      pos 0\nEND\nchecksum 00000000000000000000\n",
        3,
        FOX,
        "bad shard _0.pst 57",
    ),
    // one position of two
    (
        "field body\n  term fox\n    doc 0\n      freq 2\n      pos 1\n    doc 2\n      freq 1\n      pos 0\n  \
         term red\n    doc 0\n      freq 1\n      pos 0\nEND\nchecksum 00000000000000000000\n",
        3,
        FOX,
        "bad shard _0.pst 57",
    ),
    // a line that is passed over
    (
        "field body\n  term fox\n    doc 0\n      freq 1\n      pos 1\n    doc 2\n      freq 1\n      pos 0\n  \
         term red\n    doc 0\n      freq 1\n      pos 0\n    skipList \nEND\nchecksum 00000000000000000000\n",
        3,
        FOX,
        "hits 2 _0/0 _0/2",
    ),
    // a newline in a term
    (
        "field f\n  term a\\\nb\n    doc 0\nEND\nchecksum 00000000000000000000\n",
        1,
        "{\"term\":{\"f\":\"a\\nb\"}}",
        "hits 1 _0/0",
    ),
];

/// An archive of one manifest, `mount-s`, whose one segment has this postings text.
pub fn shard_source(
    alloc: Global,
    text: &str,
    docs: u32,
    step: usize,
) -> Result<MemSource<Untold>, AllocError> {
    let length = text.as_bytes().len();
    let manifest = format!(in alloc;
        "{{\"version\":1,\"files\":[{{\"name\":\"__s\",\"physical_name\":\"_0.pst\",\"length\":{length}}}],\
         \"segments\":[{{\"name\":\"_0\",\"docs\":{docs},\"postings\":\"_0.pst\"}}]}}"
    )?;
    let mut blobs = Blobs::new(alloc);
    add_blob(alloc, &mut blobs, "__s", text.as_bytes())?;
    add_blob(alloc, &mut blobs, "mount-s", manifest.as_bytes())?;
    untold_source(alloc, blobs, step, Vec::new(alloc))
}

#[test]
fn places_of_bad_lines(rt: HostRuntime) -> Result<(), Fail> {
    let alloc = rt.alloc();
    for step in [1, 65_536] {
        for (text, docs, query, reply) in SHARDS {
            let script = format!(in alloc; "mount s mount-s\nsearch s 10 {query}\n")?;
            let wanted = format!(in alloc; "1 mounted 1 files {docs} docs\n2 {reply}\n")?;
            let mut source = shard_source(alloc, text, docs, step)?;
            let mut sink = MemSink::new(alloc, 65_536, Vec::new(alloc));
            let ended = run_text(
                &rt,
                alloc,
                script.as_bytes(),
                Cache::Four,
                &mut source,
                &mut sink,
            )?;
            assert!(rt; matches!(ended, Ended::Done { marked: false }), "{reply}");
            assert_eq!(rt; sink.written(), wanted.as_bytes(), "{reply}");
        }
    }
    Ok(())
}
