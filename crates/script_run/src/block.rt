// A block of lines by the one actor of a core.
ghost use Rattle.std.specs.Prelude.{◌≡◌, ◌<◌, ◌≤◌, ◌+◌, ◌++◌, ◌∷◌, ◌&&◌, [], List, ℕ, None, length, vec_len};
ghost use Rattle.std.specs.Prelude.{vec_capacity, if◌then◌else◌};
ghost use Rattle.index_mounts.specs.Rosters.{mounted};
ghost use Rattle.region_ranges.specs.Keys.{IsConfig};
ghost use Rattle.cache_door.specs.Cores.{all_tell};
ghost use Rattle.script_run.specs.Lines.{is_shared, cached};
ghost use Rattle.script_run.specs.Blocks.{alone, IsIdle, IsBlock, AllShared, UnmountedIn, LinesRan, BlockRan};
ghost use Rattle.script_run.specs.Blocks.{BlockStats, NoStats, Forgotten, forgets, SumsLater, point, LinesWent, BlockWent};
ghost use Rattle.script_run.specs.Shelves.{ShelvesFit};

use crate::core_lines::{core_line, core_mount};
use crate::shelves::Shelves;
use crate::stats::stats_reply;
use crate::sums::Sums;
use cache_door::Core;
use cache_outside::{Archive, BlobSource, Frame};
use index_mounts::Roster;
use mount_script::{Command, Line, Reply};
use region_ranges::Config;
use std::alloc::Global;

/// Whether a line with this command may stand in a block with others.
fn is_shared(command: &Command) -> bool
    ensures { result ≡ is_shared command.now }
{
    !matches!(command, Command::Mount { .. } | Command::Stats)
}

/// Puts a reply behind the others, where there is room.
fn put(replies: &mut Vec<Reply>, reply: Reply)
    requires { vec_len replies.old < vec_capacity replies.old }
    ensures items { replies.new.items ≡ replies.old.items ++ reply ∷ [] }
    ensures len { vec_len replies.new ≡ vec_len replies.old + 1 }
    ensures room { vec_capacity replies.old ≤ vec_capacity replies.new }
{
    match replies.push(reply) {
        Ok(()) => {}
        Err(_) => unreachable!(),
    }
}

/// Runs lines that are neither `mount` nor `stats`, one after another.
fn run_lines<A: Archive + Drop, F: Frame + Drop, S: BlobSource<A>>(
    alloc: Global,
    core: &mut Core<A, F>,
    source: &mut S,
    roster: &Roster<A>,
    shelves: &mut Shelves,
    config: &Config,
    block: &[Line],
    now: u64,
    sums: &mut Sums,
    replies: &mut Vec<Reply>,
)
    requires one { length core.old.holds ≡ 1 }
    requires idle { IsIdle core.old }
    requires setting { core.old.config ≡ config.now }
    requires limits { IsConfig config.now }
    requires shared { AllShared block.now }
    requires unmounted { UnmountedIn roster.now [] core.old }
    requires shelves { ShelvesFit (A.tells && all_tell core.old.cells) A.blobs roster.now shelves.old }
    requires none { (replies.old.items ≡ []) × (vec_len replies.old ≡ 0) }
    requires room { length block.now ≤ vec_capacity replies.old }
    ensures ran { LinesRan (alone (A.tells && all_tell core.old.cells) A.blobs config.now.regions) roster.now block.now
        block.now replies.new.items (S.view source.old) (S.view source.new) core.old core.new }
    ensures went { LinesWent (cached A.tells A.blobs config.now) now roster.now block.now replies.new.items
        (point (S.view source.old) core.old sums.old) (point (S.view source.new) core.new sums.new) }
    ensures shelves { ShelvesFit (A.tells && all_tell core.old.cells) A.blobs roster.now shelves.new }
    ensures sums { SumsLater sums.old sums.new }
{
    roster.lesson();
    for line in block {
        let answer = core_line(
            alloc,
            core,
            source,
            roster,
            shelves,
            config,
            &line.command,
            now,
        );
        sums.add(&answer.report);
        put(replies, answer.reply);
    }
}

/// Takes the mount that a line unmounted out of the roster.
fn forget_line<A: Archive>(roster: &mut Roster<A>, command: &Command, reply: &Reply)
    ensures mounts { (other : List ℕ) → mounted other roster.new
        ≡ (if forgets command.now reply.now other then None else mounted other roster.old) }
    ensures made { roster.new.made ≡ roster.old.made }
{
    roster.lesson();
    if let (Command::Unmount { name }, Reply::Unmounted) = (command, reply) {
        let _number = roster.unmount(name).is_ok();
    }
}

/// Takes the mounts that a block unmounted out of the roster.
pub fn forget<A: Archive>(roster: &mut Roster<A>, block: &[Line], replies: &[Reply])
    requires { length replies.now ≡ length block.now }
    ensures { Forgotten block.now replies.now roster.old roster.new }
{
    for i in 0..block.len() {
        forget_line(roster, &block[i].command, &replies[i]);
    }
}

/// Runs a block of lines that are neither `mount` nor `stats`.
fn shared_block<A: Archive + Drop, F: Frame + Drop, S: BlobSource<A>>(
    alloc: Global,
    core: &mut Core<A, F>,
    source: &mut S,
    roster: &mut Roster<A>,
    shelves: &mut Shelves,
    config: &Config,
    block: &[Line],
    now: u64,
    sums: &mut Sums,
    replies: &mut Vec<Reply>,
)
    requires one { length core.old.holds ≡ 1 }
    requires idle { IsIdle core.old }
    requires setting { core.old.config ≡ config.now }
    requires limits { IsConfig config.now }
    requires shared { AllShared block.now }
    requires unmounted { UnmountedIn roster.old [] core.old }
    requires shelves { ShelvesFit (A.tells && all_tell core.old.cells) A.blobs roster.old shelves.old }
    requires none { (replies.old.items ≡ []) × (vec_len replies.old ≡ 0) }
    requires room { length block.now ≤ vec_capacity replies.old }
    ensures ran { BlockRan (alone (A.tells && all_tell core.old.cells) A.blobs config.now.regions) roster.old roster.new
        block.now replies.new.items (S.view source.old) (S.view source.new) core.old core.new }
    ensures stats { NoStats replies.new.items }
    ensures went { BlockWent (cached A.tells A.blobs config.now) now roster.old roster.new block.now replies.new.items
        (point (S.view source.old) core.old sums.old) (point (S.view source.new) core.new sums.new) }
    ensures shelves { ShelvesFit (A.tells && all_tell core.old.cells) A.blobs roster.new shelves.new }
    ensures sums { SumsLater sums.old sums.new }
{
    roster.lesson();
    run_lines(
        alloc, core, source, roster, shelves, config, block, now, sums, replies,
    );
    forget(roster, block, replies);
}

/// Runs a block: its lines one after another, at the time `now` in milliseconds. All of them see the roster as it is
/// when the block begins; what they unmount is taken out of it behind them.
pub(crate) fn run_block<A: Archive + Drop, F: Frame + Drop, S: BlobSource<A>>(
    alloc: Global,
    core: &mut Core<A, F>,
    source: &mut S,
    roster: &mut Roster<A>,
    shelves: &mut Shelves,
    config: &Config,
    block: &[Line],
    now: u64,
    sums: &mut Sums,
    replies: &mut Vec<Reply>,
)
    requires one { length core.old.holds ≡ 1 }
    requires idle { IsIdle core.old }
    requires setting { core.old.config ≡ config.now }
    requires limits { IsConfig config.now }
    requires block { IsBlock block.now }
    requires unmounted { UnmountedIn roster.old [] core.old }
    requires shelves { ShelvesFit (A.tells && all_tell core.old.cells) A.blobs roster.old shelves.old }
    requires none { (replies.old.items ≡ []) × (vec_len replies.old ≡ 0) }
    requires room { length block.now ≤ vec_capacity replies.old }
    ensures ran { BlockRan (alone (A.tells && all_tell core.old.cells) A.blobs config.now.regions) roster.old roster.new
        block.now replies.new.items (S.view source.old) (S.view source.new) core.old core.new }
    ensures stats { BlockStats core.old core.new sums.old sums.new replies.new.items }
    ensures went { BlockWent (cached A.tells A.blobs config.now) now roster.old roster.new block.now replies.new.items
        (point (S.view source.old) core.old sums.old) (point (S.view source.new) core.new sums.new) }
    ensures shelves { ShelvesFit (A.tells && all_tell core.old.cells) A.blobs roster.new shelves.new }
    ensures sums { SumsLater sums.old sums.new }
{
    let first = &block[0].command;
    if is_shared(first) {
        shared_block(
            alloc, core, source, roster, shelves, config, block, now, sums, replies,
        );
        return;
    }
    match first {
        Command::Mount { name, manifest } => {
            let reply = core_mount(alloc, core, source, roster, name, manifest);
            put(replies, reply);
        }
        Command::Stats => {
            let reply = stats_reply(core, sums);
            put(replies, reply);
        }
        _ => unreachable!(),
    }
}
