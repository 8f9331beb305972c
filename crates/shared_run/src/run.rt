//! The run of a script by several workers.
ghost use Rattle.std.specs.Prelude.{◌≡◌, ◌≤◌, ◌&&◌, ℕ, true, false, length, map, drop, IfOk, IsErr};
ghost use Rattle.region_ranges.specs.Keys.{IsConfig};
ghost use Rattle.cache_table.specs.Calls.{marks};
ghost use Rattle.script_run.specs.Blocks.{IsBlock, WasRead};
ghost use Rattle.script_run.specs.Lines.{cached};
ghost use Rattle.shared_run.specs.Blocks.{several};
ghost use Rattle.shared_run.specs.Runs.{BlockRan, IsSharedRun, NoneGone, outsides};
ghost use Rattle.shared_run.specs.Workers.{IsIdle};

use crate::block::run_block;
use crate::gate::Gate;
use crate::lines::put;
use crate::mounting::mount_between;
use cache_outside::{Archive, BlobSource, Clock, Frame, OutError, Sink};
use cache_table::{Pass, SharedCache};
use index_mounts::Roster;
use mount_script::{Command, Line, Reply, Script};
use region_ranges::Config;
use script_run::{Ended, forget, has_mark, wants_memory, write_block};
use std::alloc::{AllocError, Global};
use std::sync::Wait;
use std::thread::Threads;

/// Runs the next block of a script: a `mount` line on the first source, and any other block by the workers. What it
/// unmounted is taken out of the roster behind it.
fn next_block<
    R: Threads + Wait + Sync,
    A: Archive + Drop + Send + Sync,
    F: Frame + Drop + Send,
    S: BlobSource<A> + Send + Drop,
    G: Gate + Sync,
>(
    rt: &R,
    alloc: Global,
    cache: &SharedCache<A, F>,
    pass: &mut Pass<A>,
    config: &Config,
    block: &[Line],
    roster: &mut Roster<A>,
    sources: &mut Vec<S>,
    workers: u32,
    gate: &G,
    now: u64,
) -> Result<Vec<Reply>, AllocError>
    requires workers { (2 ≤ workers) × (workers ≤ 8) × (workers ≤ length sources.old.items) }
    requires pass { IsIdle cache.now pass.old }
    requires whole { pass.old.view.shares ≡ 64 }
    requires setting { (cache.now.about.config ≡ config.now) × IsConfig config.now }
    requires block { IsBlock block.now }
    requires none { NoneGone roster.old pass.old }
    ensures ran { IfOk result (λ v. BlockRan (cached A.tells A.blobs config.now)
        (several (A.tells && cache.now.about.tells) A.blobs workers config.now.regions) roster.old roster.new block.now
        v.items (map S.view sources.old.items) (map S.view sources.new.items) pass.old pass.new) }
    ensures memory { IsErr result →
        (pass.new ≡ pass.old) × (roster.new ≡ roster.old) × (sources.new.items ≡ sources.old.items) }
    ensures others { drop workers sources.new.items ≡ drop workers sources.old.items }
    ensures count { length sources.new.items ≡ length sources.old.items }
    ensures pass { IsIdle cache.now pass.new × (pass.new.view.shares ≡ pass.old.view.shares) }
{
    if let Command::Mount { name, manifest } = &block[0].command {
        let mut replies = Vec::with_capacity(alloc, 1)?;
        let source = &mut sources[0];
        let reply = mount_between(rt, alloc, cache, pass, source, roster, name, manifest);
        put(&mut replies, reply);
        gate.answered(0, block[0].number);
        return Ok(replies);
    }
    let replies = run_block(
        rt, alloc, cache, pass, config, block, roster, sources, workers, gate, now,
    )?;
    roster.lesson();
    forget(roster, block, &replies);
    Ok(replies)
}

/// Runs a script by several workers, through one cache that they share.
///
/// Block after block: the clock is asked once, when the block begins, and its answer is the block's time; the workers
/// run its lines; then their replies are written in the order of the lines, each as its line's number, a blank, the
/// reply and a newline, in one piece, and after the sink took a part of it the rest. A `mount` line is run between
/// blocks, on the first source. The gate is told after each line.
///
/// Each reply is the one that whole files give, or a mark in its place: `Fault`, on at most as many lines of a source as
/// its count of failures rose; `Gone`, only in a block with an `unmount` of its name; or `NoMemory`, which is free and
/// ends the run by `Ended::NoMemory`, at the script's end. A `stats` line is `refused stats`. A run ends earlier where
/// memory is wanted for a block, or for the text of its replies, or where the sink fails; then a front of the text is
/// written.
///
/// Where the archive tells, no source's count of failures rose and no line wanted memory, all sources took at least as
/// many bytes of parts as the pass's count `stored` rose by, and above it at most twice the range for each one by which
/// `turned_away` rose, while both are below their last value.
///
/// After every answer the sources are the same ones in the same order, and the pass has its shares and holds nothing.
pub fn run_shared<
    R: Threads + Wait + Sync,
    A: Archive + Drop + Send + Sync,
    F: Frame + Drop + Send,
    S: BlobSource<A> + Send + Drop,
    G: Gate + Sync,
    K: Sink,
    C: Clock,
>(
    rt: &R,
    alloc: Global,
    script: &Script,
    cache: &SharedCache<A, F>,
    pass: &mut Pass<A>,
    config: &Config,
    sources: &mut Vec<S>,
    workers: u32,
    gate: &G,
    sink: &mut K,
    clock: &mut C,
) -> Ended
    requires read { WasRead script.now }
    requires workers { (2 ≤ workers) × (workers ≤ 8) × (workers ≤ length sources.old.items) }
    requires pass { IsIdle cache.now pass.old }
    requires whole { pass.old.view.shares ≡ 64 }
    requires unmounted { (m : ℕ) → marks pass.old.view.unmounted m ≡ false }
    requires setting { (cache.now.about.config ≡ config.now) × IsConfig config.now }
    ensures run { IsSharedRun (cached A.tells A.blobs config.now)
        (several (A.tells && cache.now.about.tells) A.blobs workers config.now.regions) script.now
        (outsides (map S.view sources.old.items) (K.view sink.old) (C.view clock.old))
        (outsides (map S.view sources.new.items) (K.view sink.new) (C.view clock.new)) pass.old pass.new result }
    ensures others { drop workers sources.new.items ≡ drop workers sources.old.items }
    ensures pass { IsIdle cache.now pass.new × (pass.new.view.shares ≡ 64) }
{
    let mut roster = Roster::new(alloc);
    let mut marked = false;
    let mut lacking = false;
    for i in 0..script.blocks_len() {
        let block = script.block(i);
        let now = clock.now();
        let Ok(replies) = next_block(
            rt,
            alloc,
            cache,
            pass,
            config,
            block,
            &mut roster,
            sources,
            workers,
            gate,
            now,
        ) else {
            return Ended::NoMemory;
        };
        marked |= has_mark(&replies);
        lacking |= wants_memory(&replies);
        match write_block(alloc, sink, block, &replies) {
            Ok(()) => {}
            Err(OutError::Failed) => return Ended::SinkFault,
            Err(OutError::NoMemory) => return Ended::NoMemory,
        }
    }
    if lacking {
        return Ended::NoMemory;
    }
    Ended::Done { marked }
}
