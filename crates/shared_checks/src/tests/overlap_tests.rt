// Two workers that run at one time: the source of one waits until the other has answered.
use super::waiting::{Telling, Waiting};
use super::{Cache, run_at, sample_source, times};
use cache_outside::MemSink;
use script_run::Ended;
use std::alloc::{AllocError, Global};
use std::sync::Arc;
use std::sync::atomic::AtomicBool;
use std::test::Fail;

/// A read of a region that is there beside one of a region that is not: the script, the number of the source that waits
/// when it reads the region that is not there, the number of the line that it waits for, and the text of the run.
const ROWS: [(&str, u64, u32, &str); 2] = [
    (
        "mount y mount-y\n\
         read y big.bin 0 4\n\
         --\n\
         read y big.bin 4096 4\n\
         read y big.bin 0 4\n",
        0,
        5,
        "1 mounted 1 files 0 docs\n\
         2 bytes 4 00010203\n\
         4 bytes 4 50515253\n\
         5 bytes 4 00010203\n",
    ),
    (
        "mount y mount-y\n\
         read y big.bin 0 4\n\
         --\n\
         read y big.bin 0 4\n\
         read y big.bin 4096 4\n",
        1,
        4,
        "1 mounted 1 files 0 docs\n\
         2 bytes 4 00010203\n\
         4 bytes 4 00010203\n\
         5 bytes 4 50515253\n",
    ),
];

/// Two sources, of which the one with this number waits for the flag when it reads at 4,096.
fn waiting_sources(
    alloc: Global,
    waiting: u64,
    heard: &Arc<AtomicBool, Global>,
) -> Result<Vec<Waiting>, AllocError> {
    let mut sources = Vec::new(alloc);
    for number in 0..2 {
        sources.push(Waiting {
            source: sample_source(alloc, number, Vec::new(alloc))?,
            place: (number == waiting).then_some(4096),
            heard: Arc::try_clone(heard)?,
            faults: 0,
        })?;
    }
    Ok(sources)
}

#[test]
fn workers_run_at_one_time(rt: HostRuntime) -> Result<(), Fail> {
    let alloc = rt.alloc();
    for (text, waiting, line, wanted) in ROWS {
        let heard = Arc::new(alloc, AtomicBool::new(false))?;
        let mut sources = waiting_sources(alloc, waiting, &heard)?;
        let gate = Telling { heard, line };
        let mut sink = MemSink::new(alloc, 65_536, Vec::new(alloc));
        let ended = run_at(
            &rt,
            alloc,
            text.as_bytes(),
            Cache::Four,
            &mut sources,
            2,
            &gate,
            &mut sink,
            times(alloc)?,
        )?;
        assert!(rt; ended == Ended::Done { marked: false }, "{text}");
        assert_eq!(rt; sink.written(), wanted.as_bytes(), "{text}");
    }
    Ok(())
}
