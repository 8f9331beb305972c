// The program over a folder: what it writes and answers.
use crate::mount_tool;
use crate::program::{Handed, prepare};
use crate::tests::words_of;
use cache_outside::{MemSink, Untold};
use std::fs;
use std::test::Fail;

const MANIFEST_W: &[u8] =
    b"{\"version\":1,\"files\":[{\"name\":\"__w\",\"physical_name\":\"_0.pst\",\"length\":136}],\
    \"segments\":[{\"name\":\"_0\",\"docs\":3,\"postings\":\"_0.pst\"}]}";

const POSTINGS_W: &[u8] = b"field body\n  term fox\n    doc 0\n      freq 1\n    \
    doc 2\n      freq 1\n  term red\n    doc 0\n      freq 1\nEND\nchecksum 00000000000000000000\n";

#[test]
fn a_folder(rt: HostRuntime) -> Result<(), Fail> {
    let alloc = rt.alloc();
    fs::create_dir_all(&rt, "sample")?;
    fs::write(&rt, "sample/mount-w", MANIFEST_W)?;
    fs::write(&rt, "sample/__w", POSTINGS_W)?;
    let rows: [(&[&str], &str, u8); 7] = [
        (
            &["sample", "-", "term", "mount-w", "body", "fox"],
            "hits 2 _0/0 _0/2\n",
            0,
        ),
        (
            &["sample", "-", "term", "mount-q", "body", "fox"],
            "refused missing\n",
            1,
        ),
        (&["sample", "-", "term", "mount-w", "body"], "usage\n", 2),
        (
            &["sample", "-", "find", "mount-w", "body", "fox"],
            "usage\n",
            2,
        ),
        (
            &["sample", "x", "term", "mount-w", "body", "fox"],
            "usage\n",
            2,
        ),
        (&["sample"], "usage\n", 2),
        (
            &["no-folder", "-", "term", "mount-w", "body", "fox"],
            "folder\n",
            7,
        ),
    ];
    for (words, wanted, status) in rows {
        let mut sink = MemSink::new(alloc, 5, Vec::new(alloc));
        let arguments = words_of(alloc, words)?;
        let answer = match prepare(&rt, &arguments, &mut sink) {
            Ok(handed) => {
                let Handed {
                    mut script,
                    sources,
                    mut frames,
                    mut clock,
                } = handed;
                let outcome = mount_tool::<_, Untold, _, _, _, _, _>(
                    &rt,
                    alloc,
                    &arguments[2..],
                    &mut script,
                    sources,
                    &mut frames,
                    &mut sink,
                    &mut clock,
                );
                outcome.status
            }
            Err(status) => status,
        };
        assert_eq!(rt; answer, status);
        assert_eq!(rt; sink.written(), wanted.as_bytes());
    }
    fs::remove_dir_all(&rt, "sample")?;
    Ok(())
}
