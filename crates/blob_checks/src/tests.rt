// Manifests loaded and files read: over an archive that tells, over sources that fail, and over many parts.
ghost use Rattle.std.specs.Prelude.{◌≡◌, ◌<◌, ◌≤◌, ℕ, List, OnOk, IsTrue, length};
ghost use Rattle.blob_parts.specs.Content.{content, slice_of};
ghost use Rattle.blob_parts.specs.Tables.{file_length};
ghost use Rattle.blob_parts.specs.Takes.{Took};
ghost use Rattle.directory_input.specs.Files.{GoesOn};
ghost use Rattle.directory_input.specs.Reads as reads;

use crate::example::{Example, source};
use crate::many_parts::OneByteParts;
use blob_parts::{
    DirectBytes, FetchError, LoadError, PartTable, ResolveError, fetch, load, read_into, resolve,
};
use byte_text::{Blobs, Name, Text};
use cache_outside::{Archive, BlobSource, MemSource, SourceCall, Untold, manifests_in};
use directory_input::{BytesError, FileBytes};
use mount_manifest::Manifest;
use std::alloc::{AllocError, Global};
use std::process::Abort;
use std::test::Fail;

/// The table of the example's only manifest.
fn example_table(
    rt: &impl Abort,
    alloc: Global,
    source: &mut MemSource<Example>,
) -> Option<PartTable<Example>> {
    let Ok((number, manifest)) = load::<Example, MemSource<Example>>(alloc, source, "mount-t")
    else {
        return None;
    };
    assert_eq!(rt; number, 0);
    resolve::<Example, MemSource<Example>>(alloc, source, number, &manifest).ok()
}

/// Whether these bytes of a file are read, at whichever step.
fn reads(
    rt: &impl Abort,
    source: &mut MemSource<Example>,
    table: &PartTable<Example>,
    file: u32,
    at: u64,
    wanted: &[u8],
) -> bool {
    let mut room = [0; 8];
    assert!(rt; wanted.len() <= 8);
    let out = &mut room[..wanted.len()];
    assert!(rt; file < table.files());
    let length = table.length(file);
    assert!(rt; at <= length && wanted.len() as u64 <= length - at);
    read_into(source, table, file, at, out) == Ok(()) && *out == *wanted
}

/// The first bytes of a file, through the bound alone.
fn front<B: FileBytes>(bytes: &mut B, file: u32, out: &mut [u8]) -> Result<(), BytesError>
    requires file { file < (B.view bytes.old).count }
    requires inside { length out.old ≤ (B.view bytes.old).lengths file }
    ensures bytes { IsTrue (B.view bytes.old).tells
        → OnOk result (out.new ≡ reads.slice_of 0 (length out.old) ((B.view bytes.old).bytes file)) }
    ensures goes { GoesOn B.goes_by bytes.old bytes.new }
{
    bytes.read(file, 0, out)
}

/// The first bytes of a file, by someone who lends its source and table, and learns what became of the source.
fn lent_front<A: Archive, S: BlobSource<A>>(
    source: &mut S,
    table: &PartTable<A>,
    file: u32,
    out: &mut [u8],
) -> Result<(), BytesError>
    requires file { file < length table.now.files }
    requires inside { length out.old ≤ file_length table.now file }
    ensures bytes { IsTrue A.tells
        → OnOk result (out.new ≡ slice_of (content A.blobs table.now.number file) 0 (length out.old)) }
    ensures identity { (S.view source.new).identity ≡ (S.view source.old).identity }
    ensures later { (S.view source.old).faults ≤ (S.view source.new).faults }
    ensures reads { IsTrue A.tells
        → (places : List (ℕ × ℕ)) × Took (S.view source.old).reads (S.view source.new).reads places }
{
    let mut bytes = DirectBytes::<A, S>::new(source, table);
    front(&mut bytes, file, out)
}

#[test]
fn files_are_read(rt: HostRuntime) -> Result<(), Fail> {
    let alloc = rt.alloc();
    for step in [1, 7] {
        assert!(rt; step > 0);
        let mut source = source(alloc, step, Vec::new(alloc))?;
        let missing = load::<Example, MemSource<Example>>(alloc, &mut source, "__a");
        assert!(rt; matches!(missing, Err(LoadError::Missing)));
        let Some(table) = example_table(&rt, alloc, &mut source) else {
            assert!(rt; false);
            return Ok(());
        };
        assert_eq!(rt; (table.number(), table.files()), (0, 3));
        for (file, at, wanted) in [
            (0, 0, ""),
            (1, 0, "abcdef"),
            (1, 2, "cde"),
            (2, 0, "xyz!"),
            (2, 3, "!"),
            (1, 6, ""),
        ] {
            assert!(rt;
                reads(&rt, &mut source, &table, file, at, wanted.as_bytes()),
                "file {file} at {at}"
            );
        }
        assert!(rt; table.files() > 1 && table.length(1) == 6);
        let piece = fetch(alloc, &mut source, &table, 1, 2, 3);
        assert!(rt;
            matches!(&piece, Ok(p) if p.bytes() == b"cde".as_slice() && p.at() == 2 && p.file().file == 1)
        );
        let mut out = [0; 4];
        assert_eq!(rt; lent_front(&mut source, &table, 1, &mut out), Ok(()));
        assert_eq!(rt; out.as_slice(), b"abcd".as_slice());
        let bytes = DirectBytes::<Example, MemSource<Example>>::new(&mut source, &table);
        assert_eq!(rt; bytes.len(1), 6);
    }
    Ok(())
}

/// The refusal of a manifest's parts over blobs of these names and sizes.
fn refusal(
    rt: &impl Abort,
    alloc: Global,
    manifest: &str,
    parts: &[(&str, usize)],
) -> Result<Option<ResolveError>, AllocError> {
    let mut blobs = Blobs::new(alloc);
    for (name, size) in parts {
        if let Some(name) = Name::read(alloc, name.as_bytes())? {
            blobs.push((name, Text::from_vec(vec![in alloc; 0; *size]?)))?;
        }
    }
    assert_eq!(rt; manifests_in(&blobs), 0);
    let mut source = MemSource::<Untold>::new(alloc, blobs, 4096, Vec::new(alloc));
    let Ok(manifest) = Manifest::read(alloc, manifest.as_bytes()) else {
        assert!(rt; false);
        return Ok(None);
    };
    Ok(resolve::<Untold, MemSource<Untold>>(alloc, &mut source, 0, &manifest).err())
}

#[test]
fn parts_are_refused(rt: HostRuntime) -> Result<(), Fail> {
    let alloc = rt.alloc();
    let cut =
        "{\"version\":1,\"files\":[{\"name\":\"__a\",\"physical_name\":\"_0.pst\",\"length\":172,\"part_size\":100}],\"segments\":[]}";
    for size in [100, 99] {
        let missing = refusal(&rt, alloc, cut, &[("__a.part0", size)])?;
        assert!(rt;
            matches!(&missing, Some(ResolveError::Missing { name }) if name.as_str() == "__a.part1")
        );
    }
    let whole =
        "{\"version\":1,\"files\":[{\"name\":\"__b\",\"physical_name\":\"big.bin\",\"length\":10000}],\"segments\":[]}";
    let short = refusal(&rt, alloc, whole, &[("__b", 9999)])?;
    assert!(rt;
        matches!(&short, Some(ResolveError::PartSize { name, told: 9999, wanted: 10000 }) if name.as_str() == "__b")
    );
    assert!(rt; refusal(&rt, alloc, whole, &[("__b", 10000)])?.is_none());
    Ok(())
}

/// A failure of the source is a fault, at whichever call, and never want of memory: a manifest takes one call of each
/// kind, and its parts five finds and sizes more.
#[test]
fn sources_that_fail(rt: HostRuntime) -> Result<(), Fail> {
    let alloc = rt.alloc();
    for call in [
        SourceCall::Manifest,
        SourceCall::Find,
        SourceCall::Size,
        SourceCall::Read,
    ] {
        let mut source = source(alloc, 4096, vec![in alloc; (call, 1)]?)?;
        let loaded = load::<Example, MemSource<Example>>(alloc, &mut source, "mount-t");
        assert!(rt; matches!(loaded, Err(LoadError::Fault)));
    }
    for (call, count) in [(SourceCall::Find, 3), (SourceCall::Size, 6)] {
        let mut source = source(alloc, 4096, vec![in alloc; (call, count)]?)?;
        let Ok((number, manifest)) = load::<Example, MemSource<Example>>(
            alloc,
            &mut source,
            "mount-t",
        ) else {
            assert!(rt; false);
            return Ok(());
        };
        let resolved = resolve::<Example, MemSource<Example>>(
            alloc,
            &mut source,
            number,
            &manifest,
        );
        assert!(rt; matches!(resolved, Err(ResolveError::Fault)));
    }
    let mut source = source(
        alloc,
        4096,
        vec![in alloc; (SourceCall::Read, 3), (SourceCall::Read, 4)]?,
    )?;
    let Some(table) = example_table(&rt, alloc, &mut source) else {
        assert!(rt; false);
        return Ok(());
    };
    assert!(rt; table.files() > 1 && table.length(1) == 6);
    let mut out = [0; 6];
    // the second of two parts fails, then the first
    assert_eq!(rt;
        read_into(&mut source, &table, 1, 0, &mut out),
        Err(FetchError::Fault)
    );
    assert!(rt;
        matches!(
            fetch(alloc, &mut source, &table, 1, 0, 6),
            Err(FetchError::Fault)
        )
    );
    let mut bytes = DirectBytes::<Example, MemSource<Example>>::new(&mut source, &table);
    assert_eq!(rt; bytes.read(1, 0, &mut out), Ok(()));
    assert_eq!(rt; out.as_slice(), b"abcdef".as_slice());
    Ok(())
}

/// As many parts as a manifest may have, and a read of more than 4,096 bytes. Built by `rt test` it runs in a third of
/// a second; `rt try` gives up on it.
/// Fills `out` with the last bytes of the first file, and says whether it did.
fn last_bytes(source: &mut OneByteParts, table: &PartTable<Untold>, out: &mut [u8]) -> bool {
    if table.files() == 0 || table.length(0) < out.len() as u64 {
        return false;
    }
    let at = table.length(0) - out.len() as u64;
    read_into::<Untold, OneByteParts>(source, table, 0, at, out).is_ok()
}

#[test]
fn most_parts(rt: HostRuntime) -> Result<(), Fail> {
    let alloc = rt.alloc();
    let text =
        "{\"version\":1,\"files\":[{\"name\":\"__a\",\"physical_name\":\"a\",\"length\":1048576,\"part_size\":1}],\"segments\":[]}";
    let Ok(manifest) = Manifest::read(alloc, text.as_bytes()) else {
        assert!(rt; false);
        return Ok(());
    };
    let mut source = OneByteParts;
    let Ok(table) = resolve::<Untold, OneByteParts>(alloc, &mut source, 0, &manifest) else {
        assert!(rt; false);
        return Ok(());
    };
    assert!(rt; table.files() > 0 && table.length(0) == 1_048_576);
    let mut out = vec![in alloc; 0; 5000]?;
    assert!(rt; last_bytes(&mut source, &table, &mut out));
    assert!(rt; out.starts_with(&[120, 121, 122]) && out.ends_with(&[253, 254, 255]));
    Ok(())
}
