// Tests of the top call over archives in memory, and of the program over a folder.
mod failing_tests;
mod folder_tests;
mod make_tests;
mod run_tests;
mod shared_tests;
mod term_tests;

use crate::mount_tool;
use byte_text::{Blobs, Text};
use cache_frame::MemFrames;
use cache_outside::{MemClock, MemSink, MemSource, MemText, SourceCall, Untold, manifests_in};
use sample_archive::{SampleArchive, sample_blobs};
use std::alloc::{AllocError, Global};
use std::sync::Wait;
use std::thread::Threads;

/// These words, as a program gets them.
pub(crate) fn words_of(alloc: Global, words: &[&str]) -> Result<Vec<String>, AllocError> {
    let mut list = Vec::new(alloc);
    for word in words {
        list.push(String::from_str(alloc, word)?)?;
    }
    Ok(list)
}

/// How many bytes each call gives or takes at most, and which calls fail, counted from 1 (frames by their index).
#[derive(Drop)]
pub(crate) struct Plan {
    pub(crate) step: usize,
    pub(crate) sink_step: usize,
    pub(crate) source: Vec<(SourceCall, u64)>,
    pub(crate) text: Vec<u64>,
    pub(crate) frames: Vec<u32>,
    pub(crate) sink: Vec<u64>,
}

/// A plan in which nothing fails.
pub(crate) fn smooth(alloc: Global, step: usize) -> Plan {
    Plan {
        step,
        sink_step: 65_536,
        source: Vec::new(alloc),
        text: Vec::new(alloc),
        frames: Vec::new(alloc),
        sink: Vec::new(alloc),
    }
}

/// A source of the sample archive that gives at most so many bytes a read, and fails at these calls.
fn sample_source(
    alloc: Global,
    step: usize,
    fails: Vec<(SourceCall, u64)>,
) -> Result<MemSource<SampleArchive>, AllocError> {
    let blobs = sample_blobs(alloc)?;
    if manifests_in(&blobs) > 65_536 {
        return Err(AllocError);
    }
    Ok(MemSource::<SampleArchive>::new(alloc, blobs, step.max(1), fails))
}

/// What a call left: its status, its sink, and the sources that it gave back.
#[derive(Drop)]
pub(crate) struct Left {
    pub(crate) status: u8,
    pub(crate) sink: MemSink,
    pub(crate) sources: Vec<MemSource<SampleArchive>>,
}

/// A call with these words and this script over as many sources of the sample archive, of which the first is the
/// plan's, while the clock gives these times.
pub(crate) fn called_by<Rt: Threads + Wait + Sync>(
    rt: &Rt,
    alloc: Global,
    words: &[&str],
    script: &[u8],
    plan: Plan,
    count: usize,
    times: &[u64],
) -> Result<Left, AllocError> {
    let mut sources = Vec::new(alloc);
    sources.push(sample_source(alloc, plan.step, plan.source)?)?;
    for _ in 1..count {
        sources.push(sample_source(alloc, plan.step, Vec::new(alloc))?)?;
    }
    let words = words_of(alloc, words)?;
    let mut script = MemText::new(Text::of(alloc, script)?, plan.step.max(1), plan.text);
    let mut frames = MemFrames::new(alloc, plan.frames);
    let mut sink = MemSink::new(alloc, plan.sink_step.max(1), plan.sink);
    let mut coming = Vec::new(alloc);
    coming.extend_from_slice(times)?;
    let mut clock = MemClock::new(coming);
    let outcome = mount_tool::<Rt, SampleArchive, _, _, _, _, _>(
        rt,
        alloc,
        &words,
        &mut script,
        sources,
        &mut frames,
        &mut sink,
        &mut clock,
    );
    Ok(Left {
        status: outcome.status,
        sink,
        sources: outcome.sources,
    })
}

/// The status of a call with these words and this script over the sample archive, and its sink.
pub(crate) fn called<Rt: Threads + Wait + Sync>(
    rt: &Rt,
    alloc: Global,
    words: &[&str],
    script: &[u8],
    plan: Plan,
) -> Result<(u8, MemSink), AllocError> {
    let Left { status, sink, .. } = called_by(rt, alloc, words, script, plan, 1, &[])?;
    Ok((status, sink))
}

/// The same over these blobs, of which nothing is told.
pub(crate) fn called_over<Rt: Threads + Wait + Sync>(
    rt: &Rt,
    alloc: Global,
    words: &[&str],
    blobs: Blobs,
) -> Result<(u8, MemSink), AllocError> {
    if manifests_in(&blobs) > 65_536 {
        return Err(AllocError);
    }
    let mut sources = Vec::new(alloc);
    sources.push(MemSource::<Untold>::new(alloc, blobs, 65_536, Vec::new(alloc)))?;
    let words = words_of(alloc, words)?;
    let mut script = MemText::new(Text::new(alloc), 1, Vec::new(alloc));
    let mut frames = MemFrames::new(alloc, Vec::new(alloc));
    let mut sink = MemSink::new(alloc, 65_536, Vec::new(alloc));
    let mut clock = MemClock::new(Vec::new(alloc));
    let outcome = mount_tool::<Rt, Untold, _, _, _, _, _>(
        rt,
        alloc,
        &words,
        &mut script,
        sources,
        &mut frames,
        &mut sink,
        &mut clock,
    );
    Ok((outcome.status, sink))
}
