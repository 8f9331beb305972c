// The command `run` over the sample archive: whole scripts, words and scripts out of form, and failing calls.
use crate::tests::{called, smooth};
use cache_outside::SourceCall;
use std::alloc::AllocError;

type Row = (&'static str, &'static str, &'static str, u8);

/// A setting of `run`, a script, what is written, and the status.
const ROWS: [Row; 8] = [
    ("region=4096", "", "", 0),
    (
        "region=4096",
        "mount logs mount-x\n\
         search logs 10 {\"term\":{\"body\":\"fox\"}}\n\
         search logs 1 {\"term\":{\"body\":\"fox\"}}\n",
        "1 mounted 1 files 3 docs\n2 hits 2 _0/0 _0/2\n3 hits 2 _0/0\n",
        0,
    ),
    (
        "range=4096",
        "mount logs mount-x\n\
         search logs 10 {\"bool\":{\"must_not\":{\"term\":{\"body\":\"red\"}}}}\n\
         search logs 0 {\"bool\":{}}\n\
         read logs _0.pst 98 4\n\
         search logs 10 {\"term\":{\"body\":5}}\n",
        "1 mounted 1 files 3 docs\n2 hits 2 _0/1 _0/2\n3 hits 3\n4 bytes 4 20726564\n5 bad query\n",
        0,
    ),
    (
        "region=4096",
        "mount y mount-y\n\
         read y big.bin 4090 16\n\
         read y big.bin 4090 16\n\
         read y big.bin 9999 1\n\
         read y big.bin 9999 2\n\
         read y big.bin 10000 0\n\
         read y big.bin 10001 0\n",
        "1 mounted 1 files 0 docs\n\
         2 bytes 16 4a4b4c4d4e4f50515253545556575859\n\
         3 bytes 16 4a4b4c4d4e4f50515253545556575859\n\
         4 bytes 1 d2\n\
         5 past end\n\
         6 bytes 0\n\
         7 past end\n",
        0,
    ),
    (
        "region=4096",
        "mount z mount-z\n\
         fetch z _0 0\n\
         fetch z _0 1\n\
         fetch z _0 3\n\
         search z 10 {\"bool\":{\"must_not\":{\"term\":{\"body\":\"red\"}}}}\n",
        "1 mounted 3 files 3 docs\n\
         2 fields 1 dGl0bGU=:string:cmVkIGZveA==\n\
         3 no doc\n\
         4 no doc\n\
         5 hits 1 _0/2\n",
        0,
    ),
    (
        "region=4096",
        "mount logs mount-x\n\
         mount logs mount-y\n\
         decay\n\
         clear logs\n\
         clear none\n\
         --\n\
         unmount logs\n\
         --\n\
         read logs _0.pst 0 1\n",
        "1 mounted 1 files 3 docs\n\
         2 refused name\n\
         3 decayed\n\
         4 cleared\n\
         5 not mounted\n\
         7 unmounted\n\
         9 not mounted\n",
        0,
    ),
    (
        "region=4096",
        "mount logs mount-x\nfind logs\n",
        "line 2\n",
        3,
    ),
    ("workers=2", "", "usage\n", 2),
];

#[test]
fn whole_scripts(rt: HostRuntime) -> Result<(), AllocError> {
    let alloc = rt.alloc();
    for step in [1, 65_536] {
        for (setting, script, wanted, status) in ROWS {
            let plan = smooth(alloc, step);
            let (answer, sink) = called(&rt, alloc, &["run", setting], script.as_bytes(), plan)?;
            assert_eq!(rt; answer, status, "{script}");
            assert_eq!(rt; sink.written(), wanted.as_bytes(), "{script}");
        }
    }
    Ok(())
}

#[test]
fn one_region(rt: HostRuntime) -> Result<(), AllocError> {
    let alloc = rt.alloc();
    let script =
        b"mount y mount-y\nread y big.bin 0 4\nread y big.bin 4096 4\nread y big.bin 0 4\nstats\n";
    let wanted = b"1 mounted 1 files 0 docs\n\
          2 bytes 4 00010203\n\
          3 bytes 4 50515253\n\
          4 bytes 4 00010203\n\
          5 stats free 0 listed 1 leaving 0 evictions 2 promotions 0 demotions 0 fetched 12288 direct 0\n";
    let words = ["run", "regions=1", "region=4096"];
    let (answer, sink) = called(&rt, alloc, &words, script, smooth(alloc, 65_536))?;
    assert_eq!(rt; answer, 0);
    assert_eq!(rt; sink.written(), wanted.as_slice());
    Ok(())
}

#[test]
fn words_out_of_form(rt: HostRuntime) -> Result<(), AllocError> {
    let alloc = rt.alloc();
    let rows: [&[&str]; 6] = [
        &[],
        &["run", "workers=9"],
        &["run", "region=1000"],
        &["run", "regions=1", "regions=1"],
        &["run", "range=8192", "region=4096"],
        &["run", "regions=512", "region=4194304"],
    ];
    for words in rows {
        let (answer, sink) = called(&rt, alloc, words, b"", smooth(alloc, 1))?;
        assert_eq!(rt; answer, 2);
        assert_eq!(rt; sink.written(), b"usage\n".as_slice());
    }
    Ok(())
}

#[test]
fn calls_that_fail(rt: HostRuntime) -> Result<(), AllocError> {
    let alloc = rt.alloc();
    let words = ["run", "region=4096"];
    let script = b"mount logs mount-x\nsearch logs 10 {\"term\":{\"body\":\"fox\"}}\n";
    let mut plan = smooth(alloc, 65_536);
    plan.text.push(1)?;
    let (answer, sink) = called(&rt, alloc, &words, script, plan)?;
    assert_eq!(rt; answer, 4);
    assert_eq!(rt; sink.written(), b"".as_slice());
    let mut plan = smooth(alloc, 65_536);
    plan.frames.push(0)?;
    let (answer, sink) = called(&rt, alloc, &words, script, plan)?;
    assert_eq!(rt; answer, 7);
    assert_eq!(rt; sink.written(), b"".as_slice());
    let mut plan = smooth(alloc, 65_536);
    plan.sink_step = 10;
    plan.sink.push(2)?;
    let (answer, sink) = called(&rt, alloc, &words, script, plan)?;
    assert_eq!(rt; answer, 5);
    assert_eq!(rt; sink.written(), b"1 mounted ".as_slice());
    let mut plan = smooth(alloc, 65_536);
    plan.source.push((SourceCall::Read, 2))?;
    let script = b"mount y mount-y\nread y big.bin 0 4\nread y big.bin 0 4\n";
    let (answer, sink) = called(&rt, alloc, &words, script, plan)?;
    assert_eq!(rt; answer, 1);
    assert_eq!(rt;
        sink.written(),
        b"1 mounted 1 files 0 docs\n2 fault\n3 bytes 4 00010203\n".as_slice()
    );
    Ok(())
}
