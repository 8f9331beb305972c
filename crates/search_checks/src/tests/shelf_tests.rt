// Searches one behind the other with one shelf.
ghost use Rattle.std.specs.Prelude.{◌<◌};

use crate::tests::{found, text_of};
use blob_parts::{DirectBytes, load, resolve};
use cache_outside::{Archive, MemSource, Untold, manifests_in};
use query_lang::Query;
use sample_archive::{SampleArchive, lucene_blobs, sample_blobs};
use shard_search::{Shelf, search};
use std::alloc::Global;
use std::process::Abort;
use std::test::Fail;

const FOX: &str = "{\"term\":{\"body\":\"fox\"}}";

/// What two searches of a manifest find, as texts; the second has the shelf that the first one left.
fn found_twice<A: Archive>(
    alloc: Global,
    source: &mut MemSource<A>,
    manifest: &str,
    first: &str,
    second: &str,
) -> Result<(String, String), Fail> {
    let first = Query::read(alloc, first.as_bytes())?;
    let second = Query::read(alloc, second.as_bytes())?;
    let none = (String::new(alloc), String::new(alloc));
    let Ok((number, shard)) = load::<A, MemSource<A>>(alloc, source, manifest) else {
        return Ok(none);
    };
    let Ok(table) = resolve::<A, MemSource<A>>(alloc, source, number, &shard) else {
        return Ok(none);
    };
    let mut bytes = DirectBytes::<A, MemSource<A>>::new(source, &table);
    let mut shelf = Shelf::new(alloc);
    let Ok(hits) = search(alloc, &mut bytes, &mut shelf, &shard, &first, 10) else {
        return Ok(none);
    };
    let Ok(more) = search(alloc, &mut bytes, &mut shelf, &shard, &second, 10) else {
        return Ok(none);
    };
    Ok((text_of(alloc, &hits)?, text_of(alloc, &more)?))
}

/// Whether one of these reads (blob, place and count) took the byte at a place of a blob.
fn took(reads: &[(u32, u64, u64)], blob: u32, at: u64) -> bool {
    reads.iter().any(|(of, from, count)| *of == blob && *from <= at && at - *from < *count)
}

fn sample_source(
    rt: &impl Abort,
    alloc: Global,
    step: usize,
) -> Result<MemSource<SampleArchive>, Fail>
    requires { 0 < step }
{
    let blobs = sample_blobs(alloc)?;
    assert!(rt; manifests_in(&blobs) <= 65_536);
    Ok(MemSource::new(alloc, blobs, step, Vec::new(alloc)))
}

// The postings text of the sample archive has 172 bytes in two parts, of 100 and 72 bytes. The line of `fox` begins at
// byte 11 and that of `red` at byte 92.
#[test]
fn a_kept_dictionary_is_not_read_again(rt: HostRuntime) -> Result<(), Fail> {
    let alloc = rt.alloc();
    for step in [1, 65_536] {
        let mut once = sample_source(&rt, alloc, step)?;
        let text = found(alloc, &mut once, "mount-x", FOX, 10)?;
        assert_eq!(rt; text.as_str(), "2 0/0 0/2");
        let mut source = sample_source(&rt, alloc, step)?;
        let (first, second) = found_twice(alloc, &mut source, "mount-x", FOX, FOX)?;
        assert_eq!(rt; first.as_str(), "2 0/0 0/2");
        assert_eq!(rt; second.as_str(), "2 0/0 0/2");
        // the first search reads as one with a new shelf does
        let reads = once.reads();
        assert!(rt; source.reads().len() > reads.len());
        let (same, more) = source.reads().split_at(reads.len());
        assert!(rt; same == reads);
        for at in 0..172 {
            let (part, place) = if at < 100 { (0, at) } else { (1, at - 100) };
            assert!(rt; took(reads, part, place), "byte {at} at step {step}");
        }
        for (part, at, count) in more {
            assert!(rt; *part == 0 && *at >= 11 && *at < 92 && *count > 0 && *count <= 92 - *at);
        }
    }
    Ok(())
}

#[test]
fn each_segment_has_its_own_dictionary(rt: HostRuntime) -> Result<(), Fail> {
    let alloc = rt.alloc();
    for (first, second, wanted, then) in [
        (FOX, FOX, "3 0/0 0/2 1/0", "3 0/0 0/2 1/0"),
        (FOX, "{\"term\":{\"id\":\"k3\"}}", "3 0/0 0/2 1/0", "1 1/0"),
        (
            "{\"term\":{\"body\":\"red\"}}",
            FOX,
            "1 0/0",
            "3 0/0 0/2 1/0",
        ),
        (
            "{\"match_all\":{}}",
            "{\"term\":{\"body\":\"red\"}}",
            "3 0/0 0/2 1/0",
            "1 0/0",
        ),
    ] {
        let blobs = lucene_blobs(alloc)?;
        assert!(rt; manifests_in(&blobs) <= 65_536);
        let mut source = MemSource::<Untold>::new(alloc, blobs, 65_536, Vec::new(alloc));
        let (one, two) = found_twice(alloc, &mut source, "mount-lucene", first, second)?;
        assert_eq!(rt; one.as_str(), wanted, "{first}");
        assert_eq!(rt; two.as_str(), then, "{second}");
    }
    Ok(())
}
