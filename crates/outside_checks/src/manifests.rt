// Manifests that are read and refused, and names.
use byte_text::{Name, Text};
use mount_manifest::{Manifest, ManifestError};
use std::alloc::Global;
use std::test::Fail;

const MOUNT_X: &str =
    "{\"version\":1,\"files\":[{\"name\":\"__a\",\"physical_name\":\"_0.pst\",\"length\":172,\"part_size\":100}],\"segments\":[{\"name\":\"_0\",\"docs\":3,\"postings\":\"_0.pst\"}]}";

const MOUNT_Y: &str =
    "{\"version\":1,\"files\":[{\"name\":\"__b\",\"physical_name\":\"big.bin\",\"length\":10000}],\"segments\":[]}";

#[test]
fn reads_mount_x(rt: HostRuntime) -> Result<(), ManifestError> {
    let alloc = rt.alloc();
    let manifest = Manifest::read(alloc, MOUNT_X.as_bytes())?;
    assert_eq!(rt; manifest.files_len(), 1);
    assert_eq!(rt; manifest.segments_len(), 1);
    assert_eq!(rt; manifest.docs_total(), 3);
    let file = manifest.file(0);
    assert_eq!(rt; file.physical_name.as_str(), "_0.pst");
    assert_eq!(rt; file.parts(), 2);
    assert_eq!(rt; file.part_len(1), 72);
    assert_eq!(rt; file.part_name(alloc, 1)?.as_str(), "__a.part1");
    let segment = manifest.segment(0);
    assert_eq!(rt; segment.docs, 3);
    assert_eq!(rt; segment.postings, 0);
    assert_eq!(rt; segment.live, None);
    Ok(())
}

#[test]
fn finds_by_name(rt: HostRuntime) -> Result<(), ManifestError> {
    let alloc = rt.alloc();
    let manifest = Manifest::read(alloc, MOUNT_X.as_bytes())?;
    for (text, file, segment) in [("_0.pst", Some(0), None), ("_0", None, Some(0))] {
        let name = Name::read(alloc, text.as_bytes())?;
        assert!(rt; name.is_some());
        if let Some(name) = name {
            assert_eq!(rt; manifest.find_file(&name), file);
            assert_eq!(rt; manifest.find_segment(&name), segment);
        }
    }
    Ok(())
}

/// Each kind of letter, the longest name and the first that is too long, and a text that grows.
#[test]
fn names_and_texts(rt: HostRuntime) -> Result<(), Fail> {
    let alloc = rt.alloc();
    for (text, is_name) in [
        ("", false),
        ("a", true),
        ("_0.pst-X", true),
        ("a b", false),
        ("é", false),
    ] {
        assert_eq!(rt; Name::read(alloc, text.as_bytes())?.is_some(), is_name);
    }
    for (count, is_name) in [(255, true), (256, false)] {
        let long = vec![in alloc; b'n'; count]?;
        assert_eq!(rt; Name::read(alloc, &long)?.is_some(), is_name);
    }
    let mut text = Text::of(alloc, b"ab")?;
    text.push(b'c')?;
    text.extend(b"de")?;
    assert_eq!(rt; text.as_bytes(), b"abcde".as_slice());
    text.clear();
    assert_eq!(rt; text.as_bytes(), b"".as_slice());
    Ok(())
}

#[test]
fn one_part_has_the_file_name(rt: HostRuntime) -> Result<(), ManifestError> {
    let alloc = rt.alloc();
    let manifest = Manifest::read(alloc, MOUNT_Y.as_bytes())?;
    assert_eq!(rt; manifest.files_len(), 1);
    let file = manifest.file(0);
    assert_eq!(rt; file.parts(), 1);
    assert_eq!(rt; file.part_name(alloc, 0)?.as_str(), "__b");
    Ok(())
}

/// A file of no bytes, a part size that divides the length, one that does not, and as many parts as a manifest may
/// have.
#[test]
fn counts_parts(rt: HostRuntime) -> Result<(), ManifestError> {
    let alloc = rt.alloc();
    for (length, part_size, parts, last) in [
        (0, 100, 1, 0),
        (200, 100, 2, 100),
        (172, 100, 2, 72),
        (1_048_576, 1, 1_048_576, 1),
    ] {
        let text = format!(in alloc;
            "{{\"version\":1,\"files\":[{{\"name\":\"__a\",\"physical_name\":\"f\",\"length\":{length},\"part_size\":{part_size}}}],\"segments\":[]}}"
        )?;
        let manifest = Manifest::read(alloc, text.as_bytes())?;
        assert_eq!(rt; manifest.files_len(), 1);
        let file = manifest.file(0);
        assert_eq!(rt; file.parts(), parts);
        assert_eq!(rt; file.part_len(parts - 1), last);
    }
    Ok(())
}

#[test]
fn refuses(rt: HostRuntime) -> Result<(), ManifestError> {
    let alloc = rt.alloc();
    for (text, wanted) in [
        ("{", "NotJson"),
        (
            "{\"version\":1,\"files\":[{\"name\":\"__a\",\"physical_name\":\"f\"}],\"segments\":[]}",
            "Shape { field: Length }",
        ),
        (
            "{\"version\":1,\"files\":[{\"name\":\"__a\",\"physical_name\":\"f\",\"length\":1099511623681}],\"segments\":[]}",
            "Limit { field: Length, value: 1099511623681 }",
        ),
        (
            "{\"version\":1,\"files\":[{\"name\":\"__a\",\"physical_name\":\"f\",\"length\":1048577,\"part_size\":1}],\"segments\":[]}",
            "Limit { field: Parts, value: 1048577 }",
        ),
        (
            "{\"version\":1,\"files\":[{\"name\":\"__a\",\"physical_name\":\"f\",\"length\":1},{\"name\":\"__b\",\"physical_name\":\"f\",\"length\":1}],\"segments\":[]}",
            "Double { name: \"f\" }",
        ),
        (
            "{\"version\":1,\"files\":[],\"segments\":[{\"name\":\"s\",\"docs\":1,\"postings\":\"g\"}]}",
            "NoFile { name: \"g\" }",
        ),
    ] {
        assert_eq!(rt; refusal(alloc, text)?.as_str(), wanted);
    }
    Ok(())
}

fn refusal(alloc: Global, text: &str) -> Result<String, ManifestError> {
    match Manifest::read(alloc, text.as_bytes()) {
        Ok(_) => Ok(String::from_str(alloc, "read")?),
        Err(e) => Ok(format!(in alloc; "{e:?}")?),
    }
}
