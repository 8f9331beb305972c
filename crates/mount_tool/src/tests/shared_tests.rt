// The commands by several workers: whole scripts, an unmount beside a search, and which bytes the sources give, those of
// one worker as well.
use crate::tests::{Left, called_by, smooth};
use std::alloc::AllocError;

/// A script, and what is written whatever the interleaving. `stats` is refused where there are several workers.
const ROWS: [(&str, &str); 5] = [
    ("", ""),
    (
        "mount logs mount-x\n\
         search logs 10 {\"term\":{\"body\":\"fox\"}}\n\
         search logs 1 {\"term\":{\"body\":\"fox\"}}\n",
        "1 mounted 1 files 3 docs\n2 hits 2 _0/0 _0/2\n3 hits 2 _0/0\n",
    ),
    (
        "mount y mount-y\nread y big.bin 4090 16\nread y big.bin 9999 1\nread y big.bin 9999 2\n",
        "1 mounted 1 files 0 docs\n2 bytes 16 4a4b4c4d4e4f50515253545556575859\n3 bytes 1 d2\n4 past end\n",
    ),
    (
        "mount z mount-z\nfetch z _0 0\nfetch z _0 1\nfetch z _0 3\nfetch x _0 0\n",
        "1 mounted 3 files 3 docs\n\
         2 fields 1 dGl0bGU=:string:cmVkIGZveA==\n\
         3 no doc\n\
         4 no doc\n\
         5 not mounted\n",
    ),
    (
        "mount logs mount-x\n\
         decay\n\
         clear logs\n\
         clear none\n\
         stats\n\
         --\n\
         unmount logs\n\
         --\n\
         read logs _0.pst 0 1\n",
        "1 mounted 1 files 3 docs\n\
         2 decayed\n\
         3 cleared\n\
         4 not mounted\n\
         5 refused stats\n\
         7 unmounted\n\
         9 not mounted\n",
    ),
];

#[test]
fn scripts_by_several(rt: HostRuntime) -> Result<(), AllocError> {
    let alloc = rt.alloc();
    for (count, workers) in [(2, "workers=2"), (3, "workers=3"), (8, "workers=8")] {
        for (script, wanted) in ROWS {
            let words = ["run", "region=4096", "regions=2", workers];
            let plan = smooth(alloc, 65_536);
            let left = called_by(&rt, alloc, &words, script.as_bytes(), plan, count, &[])?;
            let Left {
                status,
                sink,
                sources,
            } = left;
            assert_eq!(rt; status, 0, "{script}");
            assert_eq!(rt; sink.written(), wanted.as_bytes(), "{script}");
            assert_eq!(rt; sources.len(), count);
        }
    }
    Ok(())
}

#[test]
fn fewer_sources_than_workers(rt: HostRuntime) -> Result<(), AllocError> {
    let alloc = rt.alloc();
    for (count, workers) in [(1, "workers=2"), (2, "workers=3"), (7, "workers=8")] {
        let plan = smooth(alloc, 65_536);
        let left = called_by(&rt, alloc, &["run", workers], b"decay\n", plan, count, &[])?;
        let Left {
            status,
            sink,
            sources,
        } = left;
        assert_eq!(rt; status, 2);
        assert_eq!(rt; sink.written(), b"usage\n".as_slice());
        assert_eq!(rt; sources.len(), count);
    }
    Ok(())
}

/// What stands beside an `unmount`: the hits, or `gone`; the status is 1 exactly where it is `gone`.
#[test]
fn unmounted_in_one_block(rt: HostRuntime) -> Result<(), AllocError> {
    let alloc = rt.alloc();
    let script = b"mount logs mount-x\n\
          unmount logs\n\
          search logs 10 {\"term\":{\"body\":\"fox\"}}\n\
          --\n\
          search logs 10 {\"term\":{\"body\":\"fox\"}}\n";
    let hits =
        b"1 mounted 1 files 3 docs\n2 unmounted\n3 hits 2 _0/0 _0/2\n5 not mounted\n".as_slice();
    let gone = b"1 mounted 1 files 3 docs\n2 unmounted\n3 gone\n5 not mounted\n".as_slice();
    for _ in 0..20 {
        let words = ["run", "region=4096", "workers=2"];
        let plan = smooth(alloc, 65_536);
        let Left { status, sink, .. } = called_by(&rt, alloc, &words, script, plan, 2, &[])?;
        let wanted = if status == 0 { hits } else { gone };
        assert!(rt; status <= 1);
        assert_eq!(rt; sink.written(), wanted);
    }
    Ok(())
}

/// A read of a source: the blob's number, the place, and how many bytes it gave.
type Read = (u32, u64, u64);

/// The text of the manifest of the blob of 10,000 bytes, which a mount reads at once.
const MANIFEST: Read = (8, 0, 93);

/// The regions of the blob of 10,000 bytes.
const FIRST: Read = (2, 0, 4096);

const SECOND: Read = (2, 4096, 4096);

const LAST: Read = (2, 8192, 1808);

/// The number of regions, a script, the time of each of its blocks, and what the first source gives. Where there is
/// another, it gives nothing.
type Taken = (&'static str, &'static str, &'static [u64], &'static [Read]);

const TAKEN: [Taken; 3] = [
    // a region is taken once, and again after it was cleared
    (
        "regions=4",
        "mount y mount-y\n\
         read y big.bin 0 4\n\
         --\n\
         read y big.bin 0 4\n\
         read y big.bin 0 4\n\
         --\n\
         clear y\n\
         --\n\
         read y big.bin 0 4\n",
        &[0, 0, 0, 0, 0],
        &[MANIFEST, FIRST, FIRST],
    ),
    // the region that was read twice is aged by the decay, and then evicted before the last one
    (
        "regions=2",
        "mount y mount-y\n\
         read y big.bin 0 4\n\
         --\n\
         read y big.bin 0 4\n\
         --\n\
         read y big.bin 4096 4\n\
         --\n\
         decay\n\
         --\n\
         read y big.bin 8192 4\n\
         --\n\
         read y big.bin 4096 4\n\
         --\n\
         read y big.bin 8192 4\n",
        &[0, 0, 60_000, 60_000, 180_000, 180_000, 180_000, 180_000],
        &[MANIFEST, FIRST, SECOND, LAST, SECOND],
    ),
    // without the decay it stays, and the last one is evicted
    (
        "regions=2",
        "mount y mount-y\n\
         read y big.bin 0 4\n\
         --\n\
         read y big.bin 0 4\n\
         --\n\
         read y big.bin 4096 4\n\
         --\n\
         read y big.bin 8192 4\n\
         --\n\
         read y big.bin 4096 4\n\
         --\n\
         read y big.bin 8192 4\n",
        &[0, 0, 60_000, 60_000, 180_000, 180_000, 180_000],
        &[MANIFEST, FIRST, SECOND, LAST, SECOND, LAST],
    ),
];

#[test]
fn bytes_of_the_sources(rt: HostRuntime) -> Result<(), AllocError> {
    let alloc = rt.alloc();
    for (count, workers) in [(1, "workers=1"), (2, "workers=2")] {
        for (regions, script, times, reads) in TAKEN {
            let words = ["run", workers, "region=4096", "range=4096", regions];
            let plan = smooth(alloc, 65_536);
            let left = called_by(&rt, alloc, &words, script.as_bytes(), plan, count, times)?;
            let Left {
                status,
                sources,
                ..
            } = left;
            assert_eq!(rt; status, 0);
            assert!(rt; sources.len() == count && 1 <= count);
            assert!(rt; sources[0].reads() == reads, "{script}");
            for other in &sources[1..] {
                assert!(rt; other.reads().is_empty(), "{script}");
            }
        }
    }
    Ok(())
}
