// The program over a runtime: its arguments, the sources over a folder, and what it writes where it has none.
ghost use Rattle.std.specs.Prelude.{◌≤◌, IfOk, length};

use crate::note::note;
use cache_frame::MemFrames;
use cache_outside::{FolderSource, Sink, StdClock, StdText};
use std::alloc::Global;
use std::rt::{Env, Files};
use std::{env, io, time};

/// How many sources are made over the folder.
const SOURCES: usize = 8;

/// The bytes of a block that is taken once and given back.
const BLOCK: usize = 16 * 1_048_576;

/// Has the C library keep memory that is given back for what is taken next, up to twice the block. Else it gives the end
/// of its heap back to the system as soon as 128 KiB are free there, and each line of a script has to get it again, page by
/// page; that a large block was given back raises this limit (mallopt(3), M_MMAP_THRESHOLD). No byte of the block is
/// touched. Where it cannot be had, nothing changes.
pub(crate) fn keep_memory(alloc: Global) {
    let _ = Vec::<u8>::with_capacity(alloc, BLOCK);
}

/// The arguments without the program's name. The error is `InvalidData` where one is no UTF-8.
pub(crate) fn arguments<Rt: Env + AllocGlobal>(rt: &Rt) -> io::Result<Vec<String>> {
    let mut words = Vec::new(rt.alloc());
    for word in env::args(rt)?.skip(1) {
        words.push(word)?;
    }
    Ok(words)
}

fn open_sources<Rt: Files + AllocGlobal + Clone + Drop>(
    rt: &Rt,
    folder: &str,
) -> io::Result<Vec<FolderSource<Rt>>> {
    let mut sources = Vec::new(rt.alloc());
    for _ in 0..SOURCES {
        sources.push(FolderSource::open(rt.clone()?, folder)?)?;
    }
    Ok(sources)
}

/// What is written and answered where the arguments or the folder could not be read: `line` with `status`, or
/// nothing with 6 for want of memory.
fn refuse<K: Sink>(sink: &mut K, error: &io::Error, line: &str, status: u8) -> u8 {
    if error.kind() == io::ErrorKind::OutOfMemory {
        return 6;
    }
    note(sink, line, status)
}

/// What the top call is handed beside its words and the sink.
#[derive(Drop)]
pub(crate) struct Handed<Rt: Files + Input + time::Clock + Drop> {
    pub(crate) script: StdText<Rt>,
    pub(crate) sources: Vec<FolderSource<Rt>>,
    pub(crate) frames: MemFrames,
    pub(crate) clock: StdClock<Rt>,
}

/// What the top call is handed for the arguments `FOLDER CACHE WORDS..`: sources over the folder, the script from the
/// standard input, and frames in memory. Or the status, where it is not called: fewer than two arguments or another
/// cache than `-` are `usage` with 2, and a folder that cannot be listed is `folder` with 7.
pub(crate) fn prepare<Rt: Files + Input + time::Clock + AllocGlobal + Clone + Drop, K: Sink>(
    rt: &Rt,
    arguments: &[String],
    sink: &mut K,
) -> Result<Handed<Rt>, u8>
    ensures { IfOk result (λ handed. 2 ≤ length arguments.now) }
{
    if arguments.len() < 2 || arguments[1].as_str() != "-" {
        return Err(note(sink, "usage\n", 2));
    }
    let Ok(input) = rt.clone() else {
        return Err(6);
    };
    let Ok(ticks) = rt.clone() else {
        return Err(6);
    };
    match open_sources(rt, arguments[0].as_str()) {
        Ok(sources) => Ok(Handed {
            script: StdText::new(input),
            sources,
            frames: MemFrames::new(rt.alloc(), Vec::new(rt.alloc())),
            clock: StdClock::new(ticks),
        }),
        Err(e) => Err(refuse(sink, &e, "folder\n", 7)),
    }
}

/// The arguments that the program was started with, or the status where they cannot be read.
pub(crate) fn start<Rt: Env + AllocGlobal, K: Sink>(
    rt: &Rt,
    sink: &mut K,
) -> Result<Vec<String>, u8> {
    match arguments(rt) {
        Ok(arguments) => Ok(arguments),
        Err(e) => Err(refuse(sink, &e, "usage\n", 2)),
    }
}
