// An archive that Lucene 8.7 wrote with its SimpleText codec: two segments, one document of the first deleted.
// bench/lucene/WriteArchive.java writes these texts.
use byte_text::{Blobs, Name, Text};
use std::alloc::{AllocError, Global};

const MANIFEST: &[u8] =
    b"{\"version\":1,\"files\":[{\"name\":\"__0\",\"physical_name\":\"_0.pst\",\"length\":1411},{\"name\":\"__1\",\"physical_name\":\"_0.fld\",\"length\":547},{\"name\":\"__2\",\"physical_name\":\"_0_1.liv\",\"length\":57},{\"name\":\"__3\",\"physical_name\":\"_1.pst\",\"length\":284},{\"name\":\"__4\",\"physical_name\":\"_1.fld\",\"length\":196}],\"segments\":[{\"name\":\"_0\",\"docs\":3,\"postings\":\"_0.pst\",\"stored\":\"_0.fld\",\"live\":\"_0_1.liv\"},{\"name\":\"_1\",\"docs\":1,\"postings\":\"_1.pst\",\"stored\":\"_1.fld\"}]}";

const POSTINGS_0: &[u8] =
    b"field body\n  term END\n    doc 1\n      freq 1\n      pos 1\n      startOffset 4\n      endOffset 7\n  term a\\\\b\n    doc 2\n      freq 1\n      pos 0\n      startOffset 0\n      endOffset 3\n  term fox\n    doc 0\n      freq 1\n      pos 1\n      startOffset 4\n      endOffset 7\n    doc 1\n      freq 2\n      pos 0\n      startOffset 0\n      endOffset 3\n      pos 2\n      startOffset 8\n      endOffset 11\n    doc 2\n      freq 1\n      pos 2\n      startOffset 8\n      endOffset 11\n  term red\n    doc 0\n      freq 1\n      pos 0\n      startOffset 0\n      endOffset 3\n  term \xc3\xa9t\xc3\xa9\n    doc 2\n      freq 1\n      pos 1\n      startOffset 4\n      endOffset 7\nfield freqs\n  term END\n    doc 1\n      freq 1\n  term a\\\\b\n    doc 2\n      freq 1\n  term fox\n    doc 0\n      freq 1\n    doc 1\n      freq 2\n    doc 2\n      freq 1\n  term red\n    doc 0\n      freq 1\n  term \xc3\xa9t\xc3\xa9\n    doc 2\n      freq 1\nfield id\n  term k\\\n0\n    doc 0\n  term k1\n    doc 1\n  term k2\\\\\n    doc 2\nfield paid\n  term END\n    doc 1\n      freq 1\n      pos 1\n  term a\\\\b\n    doc 2\n      freq 1\n      pos 0\n        payload p\\\n\\\\0\n  term fox\n    doc 0\n      freq 1\n      pos 1\n    doc 1\n      freq 2\n      pos 0\n        payload p\\\n\\\\0\n      pos 2\n        payload p\\\n\\\\2\n    doc 2\n      freq 1\n      pos 2\n        payload p\\\n\\\\2\n  term red\n    doc 0\n      freq 1\n      pos 0\n        payload p\\\n\\\\0\n  term \xc3\xa9t\xc3\xa9\n    doc 2\n      freq 1\n      pos 1\nEND\nchecksum 00000000002282500003\n";

const STORED_0: &[u8] =
    b"doc 0\n  field 0\n    name body\n    type string\n    value red fox\n  field 3\n    name id\n    type string\n    value k\\\n0\n  field 4\n    name count\n    type int\n    value -2\ndoc 1\n  field 0\n    name body\n    type string\n    value fox END fox\n  field 3\n    name id\n    type string\n    value k1\n  field 4\n    name count\n    type int\n    value -2\ndoc 2\n  field 0\n    name body\n    type string\n    value a\\\\b \xc3\xa9t\xc3\xa9 fox\n  field 3\n    name id\n    type string\n    value k2\\\\\n  field 4\n    name count\n    type int\n    value -2\nEND\nchecksum 00000000003593926646\n";

const LIVE_0: &[u8] = b"size 3\n  doc 0\n  doc 2\nEND\nchecksum 00000000002372874694\n";

const POSTINGS_1: &[u8] =
    b"field body\n  term fox\n    doc 0\n      freq 1\n      pos 0\n      startOffset 0\n      endOffset 3\nfield freqs\n  term fox\n    doc 0\n      freq 1\nfield id\n  term k3\n    doc 0\nfield paid\n  term fox\n    doc 0\n      freq 1\n      pos 0\n        payload p\\\n\\\\0\nEND\nchecksum 00000000001325571626\n";

const STORED_1: &[u8] =
    b"doc 0\n  field 0\n    name body\n    type string\n    value fox\n  field 3\n    name id\n    type string\n    value k3\n  field 4\n    name count\n    type int\n    value -2\nEND\nchecksum 00000000000653128312\n";

/// The blobs of the archive that Lucene wrote; its manifest is `mount-lucene`.
///
/// Want of memory is the one refusal.
pub fn lucene_blobs(alloc: Global) -> Result<Blobs, AllocError> {
    let mut blobs = Blobs::new(alloc);
    for (name, bytes) in [
        ("__0", POSTINGS_0),
        ("__1", STORED_0),
        ("__2", LIVE_0),
        ("__3", POSTINGS_1),
        ("__4", STORED_1),
        ("mount-lucene", MANIFEST),
    ] {
        if let Some(name) = Name::read(alloc, name.as_bytes())? {
            blobs.push((name, Text::of(alloc, bytes)?))?;
        }
    }
    Ok(blobs)
}
