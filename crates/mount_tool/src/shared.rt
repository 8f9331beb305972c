// The command `run`: a script, by several workers.
ghost use Rattle.std.specs.Prelude.{◌≡◌, ◌≤◌, length, map, drop, true};
ghost use Rattle.run_setup.specs.Settings.{in_limits};
ghost use Rattle.script_run.specs.Blocks.{WasRead};
ghost use Rattle.shared_run.specs.Runs.{outsides};
ghost use Rattle.mount_tool.specs.Calls.{IsScriptRun, world};
ghost use Rattle.mount_tool.specs.Steps.{SharedBlocksEnded};

use crate::script::{refuse, run_status};
use cache_outside::{Archive, BlobSource, Clock, FrameMaker, OutError, Sink, TextSource};
use cache_table::SharedCache;
use mount_script::Script;
use run_setup::{RunSettings, make_frames, read_script};
use shared_run::{OpenGate, run_shared};
use std::alloc::Global;
use std::sync::Wait;
use std::thread::Threads;

/// Runs a script by several workers, over a new cache that they share.
pub(crate) fn share_blocks<
    Rt: Threads + Wait + Sync,
    A: Archive + Send + Sync + Drop,
    S: BlobSource<A> + Send + Drop,
    K: Sink,
    C: Clock,
    M: FrameMaker,
>(
    rt: &Rt,
    alloc: Global,
    settings: &RunSettings,
    script: &Script,
    sources: &mut Vec<S>,
    frames: &mut M,
    sink: &mut K,
    clock: &mut C,
) -> u8
where
    M::F: Send + Drop,
    requires limits { in_limits settings.now ≡ true }
    requires several { (2 ≤ settings.now.workers) × (settings.now.workers ≤ length sources.old.items) }
    requires read { WasRead script.now }
    ensures run { SharedBlocksEnded A.tells A.blobs settings.now script.now (M.view frames.old) (M.view frames.new)
        (outsides (map S.view sources.old.items) (K.view sink.old) (C.view clock.old))
        (outsides (map S.view sources.new.items) (K.view sink.new) (C.view clock.new)) result }
    ensures same { map (λ s. (S.view s).identity) sources.new.items ≡ map (λ s. (S.view s).identity) sources.old.items }
    ensures others { drop settings.now.workers sources.new.items ≡ drop settings.now.workers sources.old.items }
{
    let config = settings.config();
    let made = match make_frames(alloc, frames, &config) {
        Ok(made) => made,
        Err(OutError::Failed) => return 7,
        Err(OutError::NoMemory) => return 6,
    };
    let Ok((cache, mut pass)) = SharedCache::<A, M::F>::open(alloc, &config, made) else {
        return 6;
    };
    let ended = run_shared(
        rt,
        alloc,
        script,
        &cache,
        &mut pass,
        &config,
        sources,
        settings.workers as u32,
        &OpenGate,
        sink,
        clock,
    );
    cache.close(pass);
    run_status(&ended)
}

/// Reads a script to its end, runs it by several workers over a new cache that they share, and gives the status.
pub(crate) fn share_script<
    Rt: Threads + Wait + Sync,
    A: Archive + Send + Sync + Drop,
    S: BlobSource<A> + Send + Drop,
    T: TextSource,
    K: Sink,
    C: Clock,
    M: FrameMaker,
>(
    rt: &Rt,
    alloc: Global,
    settings: &RunSettings,
    script: &mut T,
    sources: &mut Vec<S>,
    frames: &mut M,
    sink: &mut K,
    clock: &mut C,
) -> u8
where
    M::F: Send + Drop,
    requires limits { in_limits settings.now ≡ true }
    requires several { (2 ≤ settings.now.workers) × (settings.now.workers ≤ length sources.old.items) }
    ensures run { IsScriptRun A.tells A.blobs settings.now
        (world (T.view script.old) (M.view frames.old) (K.view sink.old) (C.view clock.old)
        (map S.view sources.old.items))
        (world (T.view script.new) (M.view frames.new) (K.view sink.new) (C.view clock.new)
        (map S.view sources.new.items))
        result }
    ensures same { map (λ s. (S.view s).identity) sources.new.items ≡ map (λ s. (S.view s).identity) sources.old.items }
    ensures others { drop settings.now.workers sources.new.items ≡ drop settings.now.workers sources.old.items }
{
    let text = match read_script(alloc, script) {
        Ok(text) => text,
        Err(OutError::Failed) => return 4,
        Err(OutError::NoMemory) => return 6,
    };
    match Script::read(alloc, text.as_bytes()) {
        Ok(script) => share_blocks::<Rt, A, S, K, C, M>(
            rt, alloc, settings, &script, sources, frames, sink, clock,
        ),
        Err(error) => refuse(alloc, sink, &error),
    }
}
