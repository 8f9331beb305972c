// The command `make`: an archive that is made of a number, its searches, and a line of what there is and was found.
ghost use Rattle.std.specs.Prelude.{◌≡◌, ◌≤◌, ◌<◌, true, length, IfOk, IfSome, string_bytes};
ghost use Rattle.cache_outside.specs.Listing.{manifests};
ghost use Rattle.run_setup.specs.MakeSettings.{can_be_made};
ghost use Rattle.shard_maker.specs.Searches.{made_script};
ghost use Rattle.script_run.specs.Blocks.{WasRead};
ghost use Rattle.mount_tool.specs.Runs.{IsWritten};
ghost use Rattle.mount_tool.specs.Makes.{IsMakeRun, made_line, postings_of};
ghost use Rattle.mount_tool.specs.Calls.{MakeIsWhole};

use crate::hit_sums::HitSums;
use crate::script::run_blocks;
use crate::shared::share_blocks;
use byte_text::{Blobs, Name, Text};
use cache_outside::{Clock, FrameMaker, MemSource, OutError, Sink, Untold};
use mount_script::Script;
use run_setup::MakeSettings;
use script_run::write_all;
use shard_maker::{Made, make};
use std::alloc::{AllocError, Global};
use std::sync::Wait;
use std::thread::Threads;

/// At most so many bytes are given by one read of a blob.
const STEP: usize = 65_536;

/// The line of what was made and found.
fn summary(
    alloc: Global,
    settings: &MakeSettings,
    postings: u64,
    hits: &HitSums,
) -> Result<String, AllocError>
    requires { postings ≡ postings_of settings.now }
    ensures { IfOk result (λ s. string_bytes s ≡ made_line settings.now hits.now.total hits.now.sum) }
{
    let MakeSettings { docs, terms, .. } = *settings;
    let total = hits.total;
    let sum = hits.sum;
    format!(in alloc;
        "made docs {docs} terms {terms} postings {postings} total {total} sum {sum}\n"
    )
}

/// Writes the line, and gives the status: 0, 5 where the sink failed, 6 for want of memory.
fn write_summary<K: Sink>(
    alloc: Global,
    sink: &mut K,
    settings: &MakeSettings,
    postings: u64,
    hits: &HitSums,
) -> u8
    requires { postings ≡ postings_of settings.now }
    ensures { IsWritten (K.view sink.old) (K.view sink.new)
        (made_line settings.now hits.now.total hits.now.sum) 0 result }
{
    let Ok(text) = summary(alloc, settings, postings, hits) else {
        return 6;
    };
    match write_all(sink, text.as_str().as_bytes()) {
        Ok(()) => 0,
        Err(OutError::Failed) => 5,
        Err(OutError::NoMemory) => 6,
    }
}

/// An archive that was made, the number of its postings, and its script.
#[derive(Drop)]
struct Drawn {
    blobs: Blobs,
    postings: u64,
    script: Script,
}

/// Makes an archive and its script; None for want of memory.
fn draw(alloc: Global, settings: &MakeSettings) -> Option<Drawn>
    requires limits { can_be_made settings.now ≡ true }
    ensures few { IfSome result (λ d. length (manifests d.blobs) ≤ 65536) }
    ensures postings { IfSome result (λ d. d.postings ≡ postings_of settings.now) }
    ensures script { IfSome result
        (λ d. d.script ≡ made_script settings.now.seed settings.now.docs settings.now.terms) }
    ensures read { IfSome result (λ d. WasRead d.script) }
{
    let docs = settings.docs as u32;
    let terms = settings.terms as u32;
    let Ok(made) = make(alloc, settings.seed, docs, terms) else {
        return None;
    };
    let Made {
        blobs,
        postings,
        script,
    } = made;
    let Ok(script) = Script::read(alloc, script.as_bytes()) else {
        return None;
    };
    Some(Drawn {
        blobs,
        postings,
        script,
    })
}

/// Makes an archive, runs its script by one worker over a source in memory, writes the line, and gives the status.
///
/// 7 comes only where the maker of frames failed, and 5 only where the sink did. 6 is want of memory; where it was
/// wanted before the line, nothing is written.
pub(crate) fn run_make<K: Sink, C: Clock, M: FrameMaker>(
    alloc: Global,
    settings: &MakeSettings,
    frames: &mut M,
    sink: &mut K,
    clock: &mut C,
) -> u8
where
    M::F: Drop,
    requires limits { can_be_made settings.now ≡ true }
    requires one { settings.now.run.workers ≤ 1 }
    ensures run { IsMakeRun settings.now (M.view frames.old).faults (M.view frames.new).faults
        (K.view sink.old) (K.view sink.new) (C.view clock.old) (C.view clock.new) result }
{
    let Some(drawn) = draw(alloc, settings) else {
        return 6;
    };
    let Drawn {
        blobs,
        postings,
        script,
    } = drawn;
    let mut source = MemSource::<Untold>::new(alloc, blobs, STEP, Vec::new(alloc));
    let mut hits = HitSums::new();
    let status = run_blocks::<Untold, MemSource<Untold>, HitSums, C, M>(
        alloc,
        &settings.run,
        &script,
        &mut source,
        frames,
        &mut hits,
        clock,
    );
    if status > 1 {
        return status;
    }
    write_summary(alloc, sink, settings, postings, &hits)
}

fn copy_name(alloc: Global, name: &Name) -> Result<Name, AllocError>
    ensures { IfOk result (λ n. n ≡ name.now) }
{
    match Name::read(alloc, name.as_str().as_bytes())? {
        Some(name) => Ok(name),
        None => unreachable!(),
    }
}

fn copy_blobs(alloc: Global, blobs: &Blobs) -> Result<Blobs, AllocError>
    ensures { IfOk result (λ b. b ≡ blobs.now) }
{
    let mut copy = Blobs::new(alloc);
    for i in 0..blobs.len() {
        let (name, bytes) = blobs.get(i);
        let name = copy_name(alloc, name)?;
        let bytes = Text::of(alloc, bytes.as_bytes())?;
        copy.push((name, bytes))?;
    }
    Ok(copy)
}

/// As many sources in memory as there are workers, each with blobs of its own.
fn made_sources(
    alloc: Global,
    blobs: &Blobs,
    workers: u64,
) -> Result<Vec<MemSource<Untold>>, AllocError>
    requires { length (manifests blobs.now) ≤ 65536 }
    ensures { IfOk result (λ s. length s.items ≡ workers) }
{
    let mut sources = Vec::new(alloc);
    for _ in 0..workers {
        let copy = copy_blobs(alloc, blobs)?;
        sources.push(MemSource::<Untold>::new(alloc, copy, STEP, Vec::new(alloc)))?;
    }
    Ok(sources)
}

/// Does what `run_make` does by several workers, over a source in memory for each and a cache that they share.
pub(crate) fn share_make<Rt: Threads + Wait + Sync, K: Sink, C: Clock, M: FrameMaker>(
    rt: &Rt,
    alloc: Global,
    settings: &MakeSettings,
    frames: &mut M,
    sink: &mut K,
    clock: &mut C,
) -> u8
where
    M::F: Send + Drop,
    requires limits { can_be_made settings.now ≡ true }
    requires several { 1 < settings.now.run.workers }
    ensures run { IsMakeRun settings.now (M.view frames.old).faults (M.view frames.new).faults
        (K.view sink.old) (K.view sink.new) (C.view clock.old) (C.view clock.new) result }
{
    let Some(drawn) = draw(alloc, settings) else {
        return 6;
    };
    let Drawn {
        blobs,
        postings,
        script,
    } = drawn;
    let Ok(mut sources) = made_sources(alloc, &blobs, settings.run.workers) else {
        return 6;
    };
    let mut hits = HitSums::new();
    let status = share_blocks::<Rt, Untold, MemSource<Untold>, HitSums, C, M>(
        rt,
        alloc,
        &settings.run,
        &script,
        &mut sources,
        frames,
        &mut hits,
        clock,
    );
    if status > 1 {
        return status;
    }
    write_summary(alloc, sink, settings, postings, &hits)
}

/// A law of the top call: where the words ask for `make`, and neither the maker of frames nor the sink failed, the line
/// is written whole, with status 0; or memory was wanted, with status 6.
pub fn make_is_whole()
    ensures { MakeIsWhole }
{}
