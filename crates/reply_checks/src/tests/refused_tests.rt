// Manifests and files that are refused, each for one cause.
use super::{Ask, answer, source_of};
use byte_text::{Blobs, Name, Text};
use std::alloc::{AllocError, Global};
use std::test::Fail;

const ONE_FILE: &str =
    "{\"version\":1,\"files\":[{\"name\":\"__a\",\"physical_name\":\"p\",\"length\":4,\"part_size\":3}],\
    \"segments\":[{\"name\":\"s\",\"docs\":1,\"postings\":\"p\"}]}";

fn blobs_of(alloc: Global, list: &[(&str, &str)]) -> Result<Blobs, AllocError> {
    let mut blobs = Blobs::new(alloc);
    for (name, bytes) in list {
        if let Some(name) = Name::read(alloc, name.as_bytes())? {
            blobs.push((name, Text::of(alloc, bytes.as_bytes())?))?;
        }
    }
    Ok(blobs)
}

/// The text of manifest `mount-m`, the two parts of its file, and the reply.
const ROWS: [(&str, &str, &str, &str); 9] = [
    ("{", "abc", "d", "refused json"),
    (
        "{\"version\":1,\"files\":[{\"name\":\"__a\",\"physical_name\":\"p\"}],\"segments\":[]}",
        "abc",
        "d",
        "refused shape length",
    ),
    (
        "{\"version\":1,\"files\":[{\"name\":\"__a\",\"physical_name\":\"p\",\"length\":1099511623681}],\
         \"segments\":[]}",
        "abc",
        "d",
        "refused limit length",
    ),
    (
        "{\"version\":1,\"files\":[{\"name\":\"__a\",\"physical_name\":\"p\",\"length\":1},\
         {\"name\":\"__b\",\"physical_name\":\"p\",\"length\":1}],\"segments\":[]}",
        "abc",
        "d",
        "refused double p",
    ),
    (
        "{\"version\":1,\"files\":[],\"segments\":[{\"name\":\"s\",\"docs\":1,\"postings\":\"g\"}]}",
        "abc",
        "d",
        "refused nofile g",
    ),
    (ONE_FILE, "", "d", "refused part __a.part0"),
    (ONE_FILE, "abc", "", "refused part __a.part1"),
    (ONE_FILE, "abc", "de", "refused size __a.part1"),
    (ONE_FILE, "abc", "d", "bad shard p 0"),
];

#[test]
fn refuses(rt: HostRuntime) -> Result<(), Fail> {
    let alloc = rt.alloc();
    for (manifest, first, second, wanted) in ROWS {
        // an empty part is left out
        let parts = [
            ("__a.part0", first),
            ("__a.part1", second),
            ("mount-m", manifest),
        ];
        let mut list = Vec::new(alloc);
        for (name, bytes) in parts {
            if !bytes.is_empty() {
                list.push((name, bytes))?;
            }
        }
        let blobs = blobs_of(alloc, &list)?;
        let mut source = source_of(&rt, alloc, blobs, 65_536, Vec::new(alloc));
        let text = answer(
            &rt,
            alloc,
            &mut source,
            "mount-m",
            Ask::Search(10, "{\"match_all\":{}}"),
        )?;
        assert_eq!(rt; text.as_bytes(), wanted.as_bytes());
    }
    Ok(())
}
