// The command `make`: lines of archives that are made, words out of form, and failing calls.
use crate::mount_tool;
use crate::tests::{called, smooth, words_of};
use byte_text::Text;
use cache_frame::MemFrames;
use cache_outside::{MemClock, MemSink, MemSource, MemText, SourceCall, Untold};
use std::alloc::AllocError;

type Row = (&'static [&'static str], &'static str);

/// Words behind `make`, and the line. Each line is that of a script of twenty lines of Python over the definition of
/// the generator, the pairs and the searches, and none is this program's. The first two by hand: seed 5 draws 0, so
/// that document 0 has term 0, and of the 64 searches the 48 that do not leave it out find it; seed 1 draws 6.
const ROWS: [Row; 10] = [
    (
        &["seed=5", "docs=1", "terms=1"],
        "made docs 1 terms 1 postings 1 total 48 sum 48\n",
    ),
    (
        &["terms=1", "docs=1", "workers=1", "seed=1"],
        "made docs 1 terms 1 postings 0 total 0 sum 0\n",
    ),
    (
        &["seed=7", "docs=200", "terms=500"],
        "made docs 200 terms 500 postings 6232 total 812 sum 35859\n",
    ),
    (
        &["seed=7", "docs=200", "terms=500", "workers=8"],
        "made docs 200 terms 500 postings 6232 total 812 sum 35859\n",
    ),
    (
        &["workers=2", "seed=5", "docs=1", "terms=1"],
        "made docs 1 terms 1 postings 1 total 48 sum 48\n",
    ),
    (
        &[
            "seed=11",
            "region=4096",
            "docs=40",
            "terms=3",
            "workers=5",
            "regions=1",
        ],
        "made docs 40 terms 3 postings 5 total 107 sum 2518\n",
    ),
    (
        &["seed=7", "docs=25", "terms=4", "region=4096"],
        "made docs 25 terms 4 postings 11 total 162 sum 1933\n",
    ),
    (
        &[
            "seed=2026",
            "docs=6",
            "terms=12",
            "regions=1",
            "region=4096",
        ],
        "made docs 6 terms 12 postings 6 total 26 sum 107\n",
    ),
    (
        &["seed=11", "region=4096", "docs=40", "terms=3"],
        "made docs 40 terms 3 postings 5 total 107 sum 2518\n",
    ),
    (
        &[
            "seed=18446744073709551615",
            "docs=16",
            "terms=2",
            "region=4096",
        ],
        "made docs 16 terms 2 postings 3 total 96 sum 1088\n",
    ),
];

#[test]
fn lines_of_what_is_made(rt: HostRuntime) -> Result<(), AllocError> {
    let alloc = rt.alloc();
    for (settings, wanted) in ROWS {
        let mut words = Vec::new(alloc);
        words.push("make")?;
        words.extend_from_slice(settings)?;
        let (answer, sink) = called(&rt, alloc, &words, b"", smooth(alloc, 65_536))?;
        assert_eq!(rt; answer, 0, "{wanted}");
        assert_eq!(rt; sink.written(), wanted.as_bytes(), "{wanted}");
    }
    Ok(())
}

/// Through a cache that holds a twentieth of the archive, the same line twice.
#[test]
fn a_small_cache(rt: HostRuntime) -> Result<(), AllocError> {
    let alloc = rt.alloc();
    let words = [
        "make",
        "seed=3",
        "docs=2000",
        "terms=100",
        "regions=3",
        "region=8192",
        "range=4096",
    ];
    for _ in 0..2 {
        let (answer, sink) = called(&rt, alloc, &words, b"", smooth(alloc, 65_536))?;
        assert_eq!(rt; answer, 0);
        assert_eq!(rt;
            sink.written(),
            b"made docs 2000 terms 100 postings 12354 total 7744 sum 173928\n".as_slice()
        );
    }
    Ok(())
}

#[test]
fn no_sources(rt: HostRuntime) -> Result<(), AllocError> {
    let alloc = rt.alloc();
    let words = words_of(
        alloc,
        &["make", "seed=5", "docs=1", "terms=1", "region=4096"],
    )?;
    let mut script = MemText::new(Text::new(alloc), 1, Vec::new(alloc));
    let mut frames = MemFrames::new(alloc, Vec::new(alloc));
    let mut sink = MemSink::new(alloc, 7, Vec::new(alloc));
    let mut clock = MemClock::new(Vec::new(alloc));
    let outcome = mount_tool::<_, Untold, MemSource<Untold>, _, _, _, _>(
        &rt,
        alloc,
        &words,
        &mut script,
        Vec::new(alloc),
        &mut frames,
        &mut sink,
        &mut clock,
    );
    assert_eq!(rt; outcome.status, 0);
    assert_eq!(rt; outcome.sources.len(), 0);
    assert_eq!(rt;
        sink.written(),
        b"made docs 1 terms 1 postings 1 total 48 sum 48\n".as_slice()
    );
    Ok(())
}

#[test]
fn make_words_out_of_form(rt: HostRuntime) -> Result<(), AllocError> {
    let alloc = rt.alloc();
    let rows: [&[&str]; 13] = [
        &["make"],
        &["make", "docs=1", "terms=1"],
        &["make", "seed=1", "terms=1"],
        &["make", "seed=1", "docs=1"],
        &["make", "seed=1", "docs=1", "terms=1", "seed=1"],
        &["make", "seed=1", "docs=0", "terms=1"],
        &["make", "seed=1", "docs=1", "terms=0"],
        &["make", "seed=1", "docs=100001", "terms=1"],
        &["make", "seed=1", "docs=1", "terms=100001"],
        &["make", "seed=1", "docs=2000", "terms=2001"],
        &["make", "seed=18446744073709551616", "docs=1", "terms=1"],
        &["make", "seed=1", "docs=1", "terms=1", "workers=9"],
        &["make", "seed=1", "docs=1", "terms=1", "depth=1"],
    ];
    for words in rows {
        let (answer, sink) = called(&rt, alloc, words, b"", smooth(alloc, 1))?;
        assert_eq!(rt; answer, 2);
        assert_eq!(rt; sink.written(), b"usage\n".as_slice());
    }
    Ok(())
}

/// The script's source and the sources of blobs are not asked, so that their failures are not met.
#[test]
fn make_over_calls_that_fail(rt: HostRuntime) -> Result<(), AllocError> {
    let alloc = rt.alloc();
    let words = ["make", "seed=5", "docs=1", "terms=1", "region=4096"];
    let mut plan = smooth(alloc, 1);
    plan.text.push(1)?;
    plan.source.push((SourceCall::Find, 1))?;
    plan.source.push((SourceCall::Read, 1))?;
    let (answer, sink) = called(&rt, alloc, &words, b"find logs\n", plan)?;
    assert_eq!(rt; answer, 0);
    assert_eq!(rt;
        sink.written(),
        b"made docs 1 terms 1 postings 1 total 48 sum 48\n".as_slice()
    );
    let mut plan = smooth(alloc, 1);
    plan.frames.push(3)?;
    let (answer, sink) = called(&rt, alloc, &words, b"", plan)?;
    assert_eq!(rt; answer, 7);
    assert_eq!(rt; sink.written(), b"".as_slice());
    let mut plan = smooth(alloc, 1);
    plan.sink_step = 10;
    plan.sink.push(2)?;
    let (answer, sink) = called(&rt, alloc, &words, b"", plan)?;
    assert_eq!(rt; answer, 5);
    assert_eq!(rt; sink.written(), b"made docs ".as_slice());
    Ok(())
}
