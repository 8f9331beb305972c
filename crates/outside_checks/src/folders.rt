// A folder as a source of blobs.
use crate::strange_files::StrangeFiles;
use cache_outside::{BlobSource, FolderSource, OutError};
use std::fs;
use std::test::Fail;

#[test]
fn folder_answers(rt: HostRuntime) -> Result<(), Fail> {
    fs::create_dir_all(&rt, "folder/below")?;
    for (name, text) in [
        ("folder/mount-b", "second"),
        ("folder/__a", "abcdefg"),
        ("folder/mount-a", "first"),
    ] {
        fs::write(&rt, name, text)?;
    }
    let mut source = FolderSource::open(rt.clone()?, "folder")?;
    assert_eq!(rt; source.find("__a"), Ok(Some(0)));
    assert_eq!(rt; source.find("below"), Ok(None));
    assert_eq!(rt; source.find("mount-b"), Ok(Some(2)));
    assert_eq!(rt; source.manifest("mount-b"), Ok(Some(1)));
    assert_eq!(rt; source.manifest("__a"), Ok(None));
    assert_eq!(rt; source.size(0), Ok(7));
    assert_eq!(rt; source.size(3), Err(OutError::Failed));
    let mut out = [0; 4];
    for (blob, at, wanted) in [
        (0, 1, "bcde"),
        (0, 3, "defg"),
        (2, 2, "cond"),
        (0, 0, "abcd"),
    ] {
        assert_eq!(rt; source.read(blob, at, &mut out), Ok(4));
        assert_eq!(rt; out.as_slice(), wanted.as_bytes());
    }
    assert_eq!(rt; source.read(0, 7, &mut out), Err(OutError::Failed));
    assert_eq!(rt; source.read(0, 6, &mut out), Ok(1));
    assert_eq!(rt; source.read(0, 6, &mut []), Ok(0));
    fs::remove_dir_all(&rt, "folder")?;
    assert!(rt; FolderSource::open(rt.clone()?, "folder").is_err());
    Ok(())
}

#[test]
fn folder_passes_over_strange_files(rt: HostRuntime) -> Result<(), Fail> {
    fs::create_dir_all(&rt, "strange/below")?;
    for (name, text) in [
        ("strange/mount-b", "second"),
        ("strange/__a", "abc"),
        ("strange/__locked", "x"),
    ] {
        fs::write(&rt, name, text)?;
    }
    let files = (StrangeFiles { rt: rt.clone()? }, rt.alloc());
    let mut source = FolderSource::open(files, "strange")?;
    assert_eq!(rt; source.find("__a"), Ok(Some(0)));
    assert_eq!(rt; source.find("__locked"), Ok(Some(1)));
    assert_eq!(rt; source.find("mount-b"), Ok(Some(2)));
    assert_eq!(rt; source.size(1), Ok(1));
    let mut out = [0; 3];
    assert_eq!(rt; source.read(1, 0, &mut out), Err(OutError::Failed));
    assert_eq!(rt; source.read(0, 0, &mut out), Ok(3));
    assert_eq!(rt; out.as_slice(), b"abc".as_slice());
    fs::remove_dir_all(&rt, "strange")?;
    Ok(())
}
