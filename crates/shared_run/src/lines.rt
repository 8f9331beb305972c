//! The lines of a block that one worker runs.
ghost use Rattle.std.specs.Prelude.{◌≡◌, ◌<◌, ◌≤◌, ◌+◌, ◌++◌, ◌∷◌, ◌&&◌, [], false, codes, length, vec_len};
ghost use Rattle.std.specs.Prelude.{vec_capacity};
ghost use Rattle.region_ranges.specs.Keys.{IsConfig};
ghost use Rattle.blob_parts.specs.Takes.{SourceLater};
ghost use Rattle.index_mounts.specs.Rosters.{mounted};
ghost use Rattle.mount_script.specs.declared.reply.Reply.TheVariants as reply;
ghost use Rattle.shard_replies.specs.ExpectedReplies.{expected_reply, refused, used_name};
ghost use Rattle.script_run.specs.Mounting.{mounts_of};
ghost use Rattle.cache_door.specs.Doors.{nothing};
ghost use Rattle.cache_reader.specs.Going.{moment};
ghost use Rattle.script_run.specs.Lines.{cached, is_mount, IsAnswer, IsMarked, IsOrNoMemory};
ghost use Rattle.script_run.specs.Blocks.{NoMounts};
ghost use Rattle.script_run.specs.Shelves.{ShelvesFit};
ghost use Rattle.shared_run.specs.Shares.{share};
ghost use Rattle.shared_run.specs.Workers.{ReplyKind, LineWorks, LinesDid};

use crate::gate::Gate;
use byte_text::Text;
use cache_door::CacheDoor;
use cache_outside::{Archive, BlobSource};
use index_mounts::Roster;
use mount_script::{Command, Line, Reply};
use region_ranges::Config;
use script_run::{Shelves, run_line};
use std::alloc::Global;

/// Puts a reply behind the others, where there is room.
pub(crate) fn put(replies: &mut Vec<Reply>, reply: Reply)
    requires { vec_len replies.old < vec_capacity replies.old }
    ensures items { replies.new.items ≡ replies.old.items ++ reply ∷ [] }
    ensures len { vec_len replies.new ≡ vec_len replies.old + 1 }
    ensures room { vec_capacity replies.old ≤ vec_capacity replies.new }
{
    match replies.push(reply) {
        Ok(()) => {}
        Err(_) => unreachable!(),
    }
}

/// How many of a block's lines a worker runs.
pub(crate) fn share_len(block: &[Line], worker: usize, workers: usize) -> usize
    requires { 0 < workers }
    ensures { result ≡ length (share workers worker 0 block.now) }
{
    let mut count = 0;
    for k in 0..block.len() {
        if k % workers == worker {
            count += 1;
        }
    }
    count
}

/// The reply to a `stats` line, which speaks of a cache that one worker has alone.
fn refused_stats(alloc: Global) -> Reply
    ensures { IsOrNoMemory (refused (codes "refused stats")) result }
{
    match Text::of(alloc, b"refused stats") {
        Ok(text) => Reply::Refused { text },
        Err(_) => Reply::NoMemory,
    }
}

/// Runs one line of a worker. Its reply is what `run_line` says; a `stats` line is refused, and asks neither the door
/// nor the source.
fn worker_line<A: Archive, D: CacheDoor<A>, S: BlobSource<A>>(
    alloc: Global,
    door: &mut D,
    source: &mut S,
    roster: &Roster<A>,
    shelves: &mut Shelves,
    config: &Config,
    command: &Command,
    now: u64,
) -> Reply
    requires idle { (D.view door.old).hold ≡ nothing }
    requires setting { (D.view door.old).config ≡ config.now }
    requires limits { IsConfig config.now }
    requires no_mount { is_mount command.now ≡ false }
    requires shelves { ShelvesFit (A.tells && (D.view door.old).frames_tell) A.blobs roster.now shelves.old }
    ensures reply { IsAnswer (A.tells && (D.view door.old).frames_tell)
        (expected_reply A.blobs (mounts_of roster.now) command.now) result }
    ensures mark { IsMarked command.now (mounted (used_name command.now) roster.now)
        (moment (S.view source.old) (D.view door.old)) (moment (S.view source.new) (D.view door.new)) result }
    ensures kind { ReplyKind command.now (mounted (used_name command.now) roster.now) result }
    ensures shelves { ShelvesFit (A.tells && (D.view door.old).frames_tell) A.blobs roster.now shelves.new }
    ensures stays { D.stays door.old door.new }
    ensures hold { (D.view door.new).hold ≡ nothing }
    ensures source { SourceLater (S.view source.old) (S.view source.new) (result ≡ reply.Fault) }
    ensures works { LineWorks config.now.range A.tells roster.now command.now result
        (moment (S.view source.old) (D.view door.old)) (moment (S.view source.new) (D.view door.new)) }
{
    if matches!(command, Command::Stats) {
        return refused_stats(alloc);
    }
    let answer = run_line(alloc, door, source, roster, shelves, config, command, now);
    answer.reply
}

/// Runs a worker's lines in order, through its door and on its source. The dictionaries of the mounts that it searches
/// are kept from line to line. The gate is told of each line.
pub(crate) fn run_share<A: Archive, D: CacheDoor<A>, S: BlobSource<A>, G: Gate>(
    alloc: Global,
    door: &mut D,
    source: &mut S,
    roster: &Roster<A>,
    config: &Config,
    block: &[Line],
    worker: usize,
    workers: usize,
    now: u64,
    gate: &G,
    replies: &mut Vec<Reply>,
)
    requires idle { (D.view door.old).hold ≡ nothing }
    requires setting { (D.view door.old).config ≡ config.now }
    requires limits { IsConfig config.now }
    requires lines { NoMounts block.now }
    requires workers { (worker < workers) × (workers ≤ 8) }
    requires none { (replies.old.items ≡ []) × (vec_len replies.old ≡ 0) }
    requires room { length (share workers worker 0 block.now) ≤ vec_capacity replies.old }
    ensures did { LinesDid (cached A.tells A.blobs config.now) roster.now (share workers worker 0 block.now)
        replies.new.items (moment (S.view source.old) (D.view door.old))
        (moment (S.view source.new) (D.view door.new)) }
    ensures len { vec_len replies.new ≡ length (share workers worker 0 block.now) }
    ensures stays { D.stays door.old door.new }
    ensures hold { (D.view door.new).hold ≡ nothing }
{
    let mut shelves = Shelves::new(alloc);
    for k in 0..block.len() {
        if k % workers == worker {
            let line = &block[k];
            let reply = worker_line(
                alloc,
                door,
                source,
                roster,
                &mut shelves,
                config,
                &line.command,
                now,
            );
            put(replies, reply);
            gate.answered(worker as u32, line.number);
        }
    }
}
