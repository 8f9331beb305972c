// The command `run`: a script, by one worker.
ghost use Rattle.std.specs.Prelude.{◌≡◌, ◌≤◌, ◌∷◌, List, IfOk, true, string_bytes};
ghost use Rattle.cache_outside.specs.Sources.{SourceView};
ghost use Rattle.run_setup.specs.Settings.{in_limits};
ghost use Rattle.mount_tool.specs.Replies.{error_text, run_status};
ghost use Rattle.script_run.specs.Blocks.{WasRead};
ghost use Rattle.script_run.specs.Runs.{outside};
ghost use Rattle.mount_tool.specs.Calls.{IsScriptRun, world};
ghost use Rattle.mount_tool.specs.Steps.{IsRefusal, BlocksEnded};

use crate::note::note;
use cache_door::Core;
use cache_outside::{Archive, BlobSource, Clock, FrameMaker, OutError, Sink, TextSource};
use mount_script::{Script, ScriptError};
use run_setup::{RunSettings, make_frames, read_script};
use script_run::{Ended, run_alone};
use std::alloc::{AllocError, Global};

/// The status of a run that ended so.
pub(crate) fn run_status(ended: &Ended) -> u8
    ensures { result ≡ run_status ended.now }
{
    match ended {
        Ended::Done { marked: false } => 0,
        Ended::Done { marked: true } => 1,
        Ended::SinkFault => 5,
        Ended::NoMemory => 6,
    }
}

/// `line` and the number of the line that is out of form, or `too long`, and a newline.
fn error_text(alloc: Global, error: &ScriptError) -> Result<String, AllocError>
    ensures { IfOk result (λ s. string_bytes s ≡ error_text error.now) }
{
    match error {
        ScriptError::TooLong => String::from_str(alloc, "too long\n"),
        ScriptError::BadLine { line } => {
            let line = *line;
            format!(in alloc; "line {line}\n")
        }
        ScriptError::NoMemory => Ok(String::new(alloc)),
    }
}

/// Writes why a text is no script, and gives the status.
pub(crate) fn refuse<K: Sink>(alloc: Global, sink: &mut K, error: &ScriptError) -> u8
    ensures { IsRefusal error.now (K.view sink.old) (K.view sink.new) result }
{
    if matches!(error, ScriptError::NoMemory) {
        return 6;
    }
    match error_text(alloc, error) {
        Ok(text) => note(sink, text.as_str(), 3),
        Err(_) => 6,
    }
}

/// Runs a script by one worker, over a new cache.
pub(crate) fn run_blocks<A: Archive + Drop, S: BlobSource<A>, K: Sink, C: Clock, M: FrameMaker>(
    alloc: Global,
    settings: &RunSettings,
    script: &Script,
    source: &mut S,
    frames: &mut M,
    sink: &mut K,
    clock: &mut C,
) -> u8
where
    M::F: Drop,
    requires limits { in_limits settings.now ≡ true }
    requires read { WasRead script.now }
    ensures run { BlocksEnded A.tells A.blobs settings.now script.now (M.view frames.old) (M.view frames.new)
        (outside (S.view source.old) (K.view sink.old) (C.view clock.old))
        (outside (S.view source.new) (K.view sink.new) (C.view clock.new)) result }
    ensures same { (S.view source.new).identity ≡ (S.view source.old).identity }
{
    let config = settings.config();
    let made = match make_frames(alloc, frames, &config) {
        Ok(made) => made,
        Err(OutError::Failed) => return 7,
        Err(OutError::NoMemory) => return 6,
    };
    let Ok(mut core) = Core::<A, M::F>::new(alloc, &config, made, 1) else {
        return 6;
    };
    let ended = run_alone(alloc, script, &mut core, &config, source, sink, clock);
    run_status(&ended)
}

/// Reads a script to its end, runs it by one worker over a new cache, and gives the status.
pub(crate) fn run_script<
    A: Archive + Drop,
    S: BlobSource<A>,
    T: TextSource,
    K: Sink,
    C: Clock,
    M: FrameMaker,
>(
    alloc: Global,
    settings: &RunSettings,
    script: &mut T,
    source: &mut S,
    frames: &mut M,
    sink: &mut K,
    clock: &mut C,
) -> u8
where
    M::F: Drop,
    requires one { settings.now.workers ≤ 1 }
    requires limits { in_limits settings.now ≡ true }
    ensures run { (rest : List SourceView) → IsScriptRun A.tells A.blobs settings.now
        (world (T.view script.old) (M.view frames.old) (K.view sink.old) (C.view clock.old) (S.view source.old ∷ rest))
        (world (T.view script.new) (M.view frames.new) (K.view sink.new) (C.view clock.new) (S.view source.new ∷ rest))
        result }
    ensures same { (S.view source.new).identity ≡ (S.view source.old).identity }
{
    let text = match read_script(alloc, script) {
        Ok(text) => text,
        Err(OutError::Failed) => return 4,
        Err(OutError::NoMemory) => return 6,
    };
    match Script::read(alloc, text.as_bytes()) {
        Ok(script) => {
            run_blocks::<A, S, K, C, M>(alloc, settings, &script, source, frames, sink, clock)
        }
        Err(error) => refuse(alloc, sink, &error),
    }
}
