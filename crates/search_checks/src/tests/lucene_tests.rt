// Searches and a fetch over shard files that Lucene itself wrote.
use crate::tests::{document, found};
use cache_outside::{MemSource, Untold, manifests_in};
use sample_archive::lucene_blobs;
use simpletext_stored::Kind;
use std::test::Fail;

#[test]
fn searches_of_what_lucene_wrote(rt: HostRuntime) -> Result<(), Fail> {
    let alloc = rt.alloc();
    for (query, wanted) in [
        ("{\"term\":{\"body\":\"fox\"}}", "3 0/0 0/2 1/0"),
        ("{\"term\":{\"body\":\"END\"}}", "0"),
        ("{\"term\":{\"body\":\"a\\\\b\"}}", "1 0/2"),
        ("{\"term\":{\"freqs\":\"été\"}}", "1 0/2"),
        ("{\"term\":{\"paid\":\"fox\"}}", "3 0/0 0/2 1/0"),
        ("{\"term\":{\"id\":\"k\\n0\"}}", "1 0/0"),
        ("{\"term\":{\"id\":\"k1\"}}", "0"),
        ("{\"term\":{\"id\":\"k2\\\\\"}}", "1 0/2"),
    ] {
        let blobs = lucene_blobs(alloc)?;
        assert!(rt; manifests_in(&blobs) <= 65_536);
        let mut source = MemSource::<Untold>::new(alloc, blobs, 7, Vec::new(alloc));
        let text = found(alloc, &mut source, "mount-lucene", query, 10)?;
        assert_eq!(rt; text.as_str(), wanted, "{query}");
    }
    Ok(())
}

#[test]
fn stored_fields_of_what_lucene_wrote(rt: HostRuntime) -> Result<(), Fail> {
    let alloc = rt.alloc();
    let blobs = lucene_blobs(alloc)?;
    assert!(rt; manifests_in(&blobs) <= 65_536);
    let mut source = MemSource::<Untold>::new(alloc, blobs, 65_536, Vec::new(alloc));
    let wanted = [
        ("body", Kind::Str, "red fox"),
        ("id", Kind::Str, "k\n0"),
        ("count", Kind::Int, "-2"),
    ];
    let fields = document(alloc, &mut source, "mount-lucene", 0)?;
    assert!(rt; matches!(&fields, Some(fields) if fields.len() == wanted.len()));
    if let Some(fields) = fields {
        for (field, (name, kind, value)) in fields.iter().zip(wanted) {
            assert_eq!(rt; field.name.as_bytes(), name.as_bytes());
            assert_eq!(rt; field.kind, kind);
            assert_eq!(rt; field.value.as_bytes(), value.as_bytes());
        }
    }
    // it was deleted
    assert!(rt; document(alloc, &mut source, "mount-lucene", 1)?.is_none());
    Ok(())
}
