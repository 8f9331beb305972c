// Sources of blobs in memory: each call answered, and failing where it is listed.
use byte_text::{Blobs, Name, Text};
use cache_outside::{BlobSource, MemSource, OutError, SourceCall, Untold, manifests_in};
use std::alloc::{AllocError, Global};
use std::process::Abort;
use std::test::Fail;

fn blobs(rt: &impl Abort, alloc: Global) -> Result<Blobs, AllocError> {
    let mut blobs = Blobs::new(alloc);
    for (name, bytes) in [
        ("__a", "abcdefg"),
        ("mount-a", "first"),
        ("__b", ""),
        ("mount-b", "second"),
    ] {
        let Some(name) = Name::read(alloc, name.as_bytes())? else {
            continue;
        };
        blobs.push((name, Text::of(alloc, bytes.as_bytes())?))?;
    }
    assert_eq!(rt; blobs.len(), 4);
    Ok(blobs)
}

fn source(
    rt: &impl Abort,
    alloc: Global,
    step: usize,
    fails: Vec<(SourceCall, u64)>,
) -> Result<MemSource<Untold>, AllocError> {
    let blobs = blobs(rt, alloc)?;
    assert!(rt; step > 0);
    assert_eq!(rt; manifests_in(&blobs), 2);
    Ok(MemSource::new(alloc, blobs, step, fails).with_number(3))
}

#[test]
fn memory_answers(rt: HostRuntime) -> Result<(), Fail> {
    let alloc = rt.alloc();
    for (step, wanted, first) in [(1, 1, "b\0\0"), (65_536, 3, "bcd")] {
        let mut source = source(&rt, alloc, step, Vec::new(alloc))?;
        assert_eq!(rt; source.find("__b"), Ok(Some(2)));
        assert_eq!(rt; source.find("__c"), Ok(None));
        assert_eq!(rt; source.manifest("mount-b"), Ok(Some(1)));
        assert_eq!(rt; source.manifest("__a"), Ok(None));
        assert_eq!(rt; source.size(0), Ok(7));
        assert_eq!(rt; source.size(2), Ok(0));
        let mut out = [0; 3];
        assert_eq!(rt; source.read(0, 1, &mut out), Ok(wanted));
        assert_eq!(rt; out.as_slice(), first.as_bytes());
        assert_eq!(rt; source.read(0, 7, &mut []), Ok(0));
        assert_eq!(rt; source.reads().len(), 1);
        assert_eq!(rt; source.reads()[0], (0, 1, wanted as u64));
        assert_eq!(rt; source.size(4), Err(OutError::Failed));
        assert_eq!(rt; source.read(0, 7, &mut out), Err(OutError::Failed));
    }
    Ok(())
}

#[test]
fn memory_fails_where_listed(rt: HostRuntime) -> Result<(), Fail> {
    let alloc = rt.alloc();
    let mut fails = Vec::new(alloc);
    for fail in [
        (SourceCall::Find, 2),
        (SourceCall::Manifest, 1),
        (SourceCall::Size, 1),
        (SourceCall::Read, 2),
    ] {
        fails.push(fail)?;
    }
    let mut source = source(&rt, alloc, 65_536, fails)?;
    assert_eq!(rt; source.find("__a"), Ok(Some(0)));
    assert_eq!(rt; source.find("__a"), Err(OutError::Failed));
    assert_eq!(rt; source.find("__a"), Ok(Some(0)));
    assert_eq!(rt; source.manifest("mount-a"), Err(OutError::Failed));
    assert_eq!(rt; source.manifest("mount-a"), Ok(Some(0)));
    assert_eq!(rt; source.size(1), Err(OutError::Failed));
    assert_eq!(rt; source.size(1), Ok(5));
    let mut out = [0; 2];
    assert_eq!(rt; source.read(1, 0, &mut out), Ok(2));
    assert_eq!(rt; source.read(1, 2, &mut out), Err(OutError::Failed));
    assert_eq!(rt; source.read(1, 2, &mut out), Ok(2));
    assert_eq!(rt; source.reads().len(), 2);
    assert_eq!(rt; source.reads()[1], (1, 2, 2));
    Ok(())
}
