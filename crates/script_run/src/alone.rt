// The run of a script by one worker.
ghost use Rattle.std.specs.Prelude.{◌≡◌, ◌&&◌, length};
ghost use Rattle.std.specs.List.{list_any};
ghost use Rattle.region_ranges.specs.Keys.{IsConfig};
ghost use Rattle.cache_door.specs.Cores.{all_tell, Later};
ghost use Rattle.script_run.specs.Allowed.{is_mark, is_memory};
ghost use Rattle.script_run.specs.Lines.{cached};
ghost use Rattle.script_run.specs.Blocks.{alone, IsIdle, IsNew, WasRead};
ghost use Rattle.script_run.specs.Runs.{IsRun, outside, core_seen};

use crate::block::run_block;
use crate::ended::Ended;
use crate::shelves::Shelves;
use crate::sums::Sums;
use crate::written::write_block;
use cache_door::Core;
use cache_outside::{Archive, BlobSource, Clock, Frame, OutError, Sink};
use cache_reader::{acts_go_on, mounts_fit, mounts_once};
use index_mounts::Roster;
use mount_manifest::sound_manifests;
use mount_script::{Reply, Script};
use region_ranges::Config;
use std::alloc::Global;

fn is_mark(reply: &Reply) -> bool
    ensures { result ≡ is_mark reply.now }
{
    matches!(reply, Reply::Fault | Reply::Gone)
}

fn is_memory(reply: &Reply) -> bool
    ensures { result ≡ is_memory reply.now }
{
    matches!(reply, Reply::NoMemory)
}

/// Whether some reply is `fault` or `gone`.
pub fn has_mark(replies: &[Reply]) -> bool
    ensures { result ≡ list_any is_mark replies.now }
{
    let mut found = false;
    for reply in replies {
        found |= is_mark(reply);
    }
    found
}

/// Whether some reply is `no memory`.
pub fn wants_memory(replies: &[Reply]) -> bool
    ensures { result ≡ list_any is_memory replies.now }
{
    let mut found = false;
    for reply in replies {
        found |= is_memory(reply);
    }
    found
}

/// Runs a script by one worker, through a new core with one actor.
///
/// Block after block: the clock is asked once, when the block begins, and its answer is the block's time; the lines run
/// in order; then their replies are written, each as its line's number, a blank, the reply and a newline, in one piece,
/// and after the sink took a part of it the rest.
///
/// Each reply is the one that whole files give, or a mark in its place: `Fault`, on at most as many lines as the
/// source's count of failures rose; `Gone`, only behind an `unmount` of its name in the same block; or `NoMemory`,
/// which is free and ends the run by `Ended::NoMemory`, at the script's end. A run ends earlier where memory is wanted
/// for the replies of a block, or for their text, or where the sink fails; then a front of the text is written.
pub fn run_alone<A: Archive + Drop, F: Frame + Drop, S: BlobSource<A>, K: Sink, C: Clock>(
    alloc: Global,
    script: &Script,
    core: &mut Core<A, F>,
    config: &Config,
    source: &mut S,
    sink: &mut K,
    clock: &mut C,
) -> Ended
    requires read { WasRead script.now }
    requires fresh { IsNew core.old }
    requires setting { core.old.config ≡ config.now }
    requires limits { IsConfig config.now }
    ensures run { IsRun (cached A.tells A.blobs config.now)
        (alone (A.tells && all_tell core.old.cells) A.blobs config.now.regions) script.now
        (outside (S.view source.old) (K.view sink.old) (C.view clock.old))
        (outside (S.view source.new) (K.view sink.new) (C.view clock.new)) (core_seen core.old core.new) result }
    ensures core { Later core.old core.new }
    ensures idle { IsIdle core.new }
{
    core.lesson();
    sound_manifests();
    acts_go_on();
    mounts_fit();
    mounts_once();
    let mut roster = Roster::new(alloc);
    let mut shelves = Shelves::new(alloc);
    let mut sums = Sums::new();
    let mut marked = false;
    let mut lacking = false;
    for i in 0..script.blocks_len() {
        let block = script.block(i);
        let Ok(mut replies) = Vec::<Reply>::with_capacity(alloc, block.len()) else {
            return Ended::NoMemory;
        };
        let now = clock.now();
        run_block(
            alloc,
            core,
            source,
            &mut roster,
            &mut shelves,
            config,
            block,
            now,
            &mut sums,
            &mut replies,
        );
        marked |= has_mark(&replies);
        lacking |= wants_memory(&replies);
        match write_block(alloc, sink, block, &replies) {
            Ok(()) => {}
            Err(OutError::Failed) => return Ended::SinkFault,
            Err(OutError::NoMemory) => return Ended::NoMemory,
        }
    }
    if lacking {
        return Ended::NoMemory;
    }
    Ended::Done { marked }
}
