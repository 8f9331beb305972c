//! Worked texts of stored fields and of live documents, read.
use crate::samples::{LIVE, STORED, file_of, line_start};
use directory_input::{BytesError, Input};
use simpletext_stored::{Kind, StoredError, StoredIndex, TextError, live};
use std::alloc::Global;
use std::test::Fail;

// A missing proof of `Send` or `Sync` shows here, and not first at the threads above.
fn crosses<T: Send + Sync>() {}

fn indexes_cross() {
    crosses::<StoredIndex>()
}

/// The place of the first line of a text of stored fields that is not allowed.
fn bad_place(alloc: Global, bytes: &[u8], docs: u32) -> Result<Option<u64>, TextError> {
    let mut files = file_of(alloc, bytes, 0)?;
    let input = Input::open(&files, 0);
    match StoredIndex::open(alloc, &mut files, input, docs) {
        Ok(_) => Ok(None),
        Err(TextError::Bad { at }) => Ok(Some(at)),
        Err(e) => Err(e),
    }
}

/// The place of the first line of a text of live documents that is not allowed.
fn bad_live_place(alloc: Global, bytes: &[u8], docs: u32) -> Result<Option<u64>, TextError> {
    let mut files = file_of(alloc, bytes, 0)?;
    let input = Input::open(&files, 0);
    match live(alloc, &mut files, input, docs) {
        Ok(_) => Ok(None),
        Err(TextError::Bad { at }) => Ok(Some(at)),
        Err(e) => Err(e),
    }
}

#[test]
fn fetches(rt: HostRuntime) -> Result<(), Fail> {
    let alloc = rt.alloc();
    let mut files = file_of(alloc, STORED, 0)?;
    let input = Input::open(&files, 0);
    let index = StoredIndex::open(alloc, &mut files, input, 3)?;
    assert_eq!(rt; files.reads(), 1);
    let fields = index.fetch(&mut files, 0)?;
    assert_eq!(rt; fields.len(), 1);
    assert_eq!(rt; fields[0].name.as_bytes(), b"title".as_slice());
    assert_eq!(rt; fields[0].kind, Kind::Str);
    assert_eq!(rt; fields[0].value.as_bytes(), b"red fox".as_slice());
    assert!(rt; index.fetch(&mut files, 1)?.is_empty());
    assert!(rt; index.fetch(&mut files, 2)?.is_empty());
    assert_eq!(rt; files.reads(), 4);
    let no_doc = matches!(
        index.fetch(&mut files, 3),
        Err(StoredError::NoDoc { doc: 3 })
    );
    assert!(rt; no_doc);
    assert_eq!(rt; files.reads(), 4);
    Ok(())
}

#[test]
fn lists_live_documents(rt: HostRuntime) -> Result<(), Fail> {
    let alloc = rt.alloc();
    assert_eq!(rt; LIVE.len(), 57);
    let mut files = file_of(alloc, LIVE, 0)?;
    let input = Input::open(&files, 0);
    let bits = live(alloc, &mut files, input, 3)?;
    assert!(rt; bits.get(0) && !bits.get(1) && bits.get(2));
    Ok(())
}

/// The second read fails; the same index answers afterwards.
#[test]
fn answers_after_a_fault(rt: HostRuntime) -> Result<(), Fail> {
    let alloc = rt.alloc();
    let mut files = file_of(alloc, STORED, 2)?;
    let input = Input::open(&files, 0);
    let index = StoredIndex::open(alloc, &mut files, input, 3)?;
    let fault = matches!(
        index.fetch(&mut files, 0),
        Err(StoredError::Bytes(BytesError::Fault))
    );
    assert!(rt; fault);
    assert_eq!(rt; index.fetch(&mut files, 0)?.len(), 1);
    Ok(())
}

#[test]
fn bad_places(rt: HostRuntime) -> Result<(), Fail> {
    let alloc = rt.alloc();
    assert_eq!(rt; STORED.len(), 111);
    for end in 0..STORED.len() {
        let cut_off = &STORED[..end];
        assert_eq!(rt;
            bad_place(alloc, cut_off, 3)?,
            Some(line_start(cut_off)),
            "at {end}"
        );
    }
    for end in 0..LIVE.len() {
        let cut_off = &LIVE[..end];
        assert_eq!(rt;
            bad_live_place(alloc, cut_off, 3)?,
            Some(line_start(cut_off)),
            "at {end}"
        );
    }
    assert_eq!(rt; bad_place(alloc, b"doc 0\ndoc 2\n", 3)?, Some(6));
    assert_eq!(rt; bad_live_place(alloc, b"size 4\nEND\n", 3)?, Some(0));
    assert_eq!(rt;
        bad_live_place(alloc, b"size 3\n  doc 2\n  doc 2\n", 3)?,
        Some(15)
    );
    Ok(())
}
