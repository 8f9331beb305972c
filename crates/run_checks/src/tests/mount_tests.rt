// Mounts that are refused.
use super::{Cache, add_blob, run_text, sample_source, untold_source};
use byte_text::Blobs;
use cache_outside::{MemSink, MemSource, Untold};
use script_run::Ended;
use std::alloc::{AllocError, Global};
use std::test::Fail;

/// Blobs of which each manifest but the last is refused: the second part of `mount-x` is missing, and the blob of
/// `mount-y` has 9,999 bytes.
const REFUSED: [(&str, &str); 9] = [
    ("mount-json", "{"),
    (
        "mount-shape",
        "{\"version\":1,\"files\":[{\"name\":\"__w\",\"physical_name\":\"f\"}],\"segments\":[]}",
    ),
    (
        "mount-limit",
        "{\"version\":1,\"files\":[{\"name\":\"__w\",\"physical_name\":\"f\",\"length\":1099511623681}],\
         \"segments\":[]}",
    ),
    (
        "mount-double",
        "{\"version\":1,\"files\":[{\"name\":\"__w\",\"physical_name\":\"f\",\"length\":4},\
         {\"name\":\"__v\",\"physical_name\":\"f\",\"length\":4}],\"segments\":[]}",
    ),
    (
        "mount-nofile",
        "{\"version\":1,\"files\":[{\"name\":\"__w\",\"physical_name\":\"f\",\"length\":4}],\
         \"segments\":[{\"name\":\"_0\",\"docs\":3,\"postings\":\"g\"}]}",
    ),
    (
        "mount-x",
        "{\"version\":1,\"files\":[{\"name\":\"__a\",\"physical_name\":\"_0.pst\",\"length\":172,\"part_size\":100}],\
         \"segments\":[{\"name\":\"_0\",\"docs\":3,\"postings\":\"_0.pst\"}]}",
    ),
    (
        "mount-y",
        "{\"version\":1,\"files\":[{\"name\":\"__b\",\"physical_name\":\"big.bin\",\"length\":10000}],\
         \"segments\":[]}",
    ),
    (
        "mount-w",
        "{\"version\":1,\"files\":[{\"name\":\"__w\",\"physical_name\":\"f\",\"length\":4}],\"segments\":[]}",
    ),
    ("__w", "four"),
];

const SCRIPT: &str = "mount n mount-json\n\
     mount n mount-shape\n\
     mount n mount-limit\n\
     mount n mount-double\n\
     mount n mount-nofile\n\
     mount n mount-x\n\
     mount n mount-y\n\
     mount n mount-none\n\
     mount n mount-w\n\
     mount n mount-none\n\
     read n f 0 4\n";

const REPLIES: &str = "1 refused json\n\
     2 refused shape length\n\
     3 refused limit length\n\
     4 refused double f\n\
     5 refused nofile g\n\
     6 refused part __a.part1\n\
     7 refused size __b\n\
     8 refused missing\n\
     9 mounted 1 files 0 docs\n\
     10 refused name\n\
     11 bytes 4 666f7572\n";

/// So many zeros.
fn zeros(alloc: Global, count: u32) -> Result<Vec<u8>, AllocError> {
    let mut bytes = Vec::new(alloc);
    for _byte in 0..count {
        bytes.push(0)?;
    }
    Ok(bytes)
}

fn refused_source(alloc: Global, step: usize) -> Result<MemSource<Untold>, AllocError> {
    let mut blobs = Blobs::new(alloc);
    for (name, bytes) in REFUSED {
        add_blob(alloc, &mut blobs, name, bytes.as_bytes())?;
    }
    add_blob(alloc, &mut blobs, "__a.part0", &zeros(alloc, 100)?)?;
    add_blob(alloc, &mut blobs, "__b", &zeros(alloc, 9_999)?)?;
    untold_source(alloc, blobs, step, Vec::new(alloc))
}

#[test]
fn refusals(rt: HostRuntime) -> Result<(), Fail> {
    let alloc = rt.alloc();
    for step in [1, 65_536] {
        let mut source = refused_source(alloc, step)?;
        let mut sink = MemSink::new(alloc, 65_536, Vec::new(alloc));
        let ended = run_text(
            &rt,
            alloc,
            SCRIPT.as_bytes(),
            Cache::Four,
            &mut source,
            &mut sink,
        )?;
        assert!(rt; matches!(ended, Ended::Done { marked: false }));
        assert_eq!(rt; sink.written(), REPLIES.as_bytes());
    }
    Ok(())
}

/// How many mounts are made in a run at most.
const MOST: u32 = 4096;

/// Makes as many mounts as can be, each unmounted, and one more.
#[test]
fn one_mount_too_many(rt: HostRuntime) -> Result<(), Fail> {
    let alloc = rt.alloc();
    let mut script = String::new(alloc);
    let mut wanted = String::new(alloc);
    for k in 0..MOST {
        let mounts = 2 * k + 1;
        let unmounts = 2 * k + 2;
        script.push_str("mount y mount-y\nunmount y\n")?;
        let replies = format!(in alloc; "{mounts} mounted 1 files 0 docs\n{unmounts} unmounted\n")?;
        wanted.push_str(replies.as_str())?;
    }
    script.push_str("mount other mount-y\n")?;
    wanted.push_str("8193 refused full\n")?;
    let mut source = sample_source(alloc, 65_536, Vec::new(alloc))?;
    let mut sink = MemSink::new(alloc, 65_536, Vec::new(alloc));
    let ended = run_text(
        &rt,
        alloc,
        script.as_bytes(),
        Cache::Four,
        &mut source,
        &mut sink,
    )?;
    assert!(rt; matches!(ended, Ended::Done { marked: false }));
    assert_eq!(rt; sink.written(), wanted.as_bytes());
    Ok(())
}
