// Lines by the one actor of a core.
ghost use Rattle.std.specs.Prelude.{◌≡◌, ◌&&◌, true, IsTrue, length};
ghost use Rattle.region_ranges.specs.Keys.{IsConfig};
ghost use Rattle.blob_parts.specs.Takes.{SourceLater};
ghost use Rattle.cache_door.specs.Cores.{all_tell, door_of, Later};
ghost use Rattle.index_mounts.specs.Rosters.{mounted};
ghost use Rattle.mount_script.specs.declared.reply.Reply.TheVariants as reply;
ghost use Rattle.shard_replies.specs.ExpectedReplies.{expected_reply, mount_reply, used_name};
ghost use Rattle.script_run.specs.Mounting.{mounts_of};
ghost use Rattle.script_run.specs.Lines.{is_shared, cached, IsAnswer, IsMarked, HasKind, LineDoes};
ghost use Rattle.script_run.specs.Bytes.{ManifestTook};
ghost use Rattle.script_run.specs.MountLines.{MountKind, RosterGoes, MountDoes};
ghost use Rattle.script_run.specs.Blocks.{seen, IsIdle};
ghost use Rattle.script_run.specs.Shelves.{ShelvesFit};

use crate::answer::Answer;
use crate::line::run_line;
use crate::mounting::mount_line;
use crate::shelves::Shelves;
use byte_text::Name;
use cache_door::Core;
use cache_outside::{Archive, BlobSource, Frame};
use index_mounts::Roster;
use mount_script::{Command, Reply};
use region_ranges::Config;
use std::alloc::Global;

/// A line that is neither `mount` nor `stats`.
pub(crate) fn core_line<A: Archive + Drop, F: Frame + Drop, S: BlobSource<A>>(
    alloc: Global,
    core: &mut Core<A, F>,
    source: &mut S,
    roster: &Roster<A>,
    shelves: &mut Shelves,
    config: &Config,
    command: &Command,
    now: u64,
) -> Answer
    requires one { length core.old.holds ≡ 1 }
    requires idle { IsIdle core.old }
    requires setting { core.old.config ≡ config.now }
    requires limits { IsConfig config.now }
    requires shared { is_shared command.now ≡ true }
    requires shelves { ShelvesFit (A.tells && all_tell core.old.cells) A.blobs roster.now shelves.old }
    ensures reply { IsAnswer (A.tells && all_tell core.old.cells)
        (expected_reply A.blobs (mounts_of roster.now) command.now) result.reply }
    ensures mark { IsMarked command.now (mounted (used_name command.now) roster.now)
        (seen (S.view source.old) core.old) (seen (S.view source.new) core.new) result.reply }
    ensures kind { HasKind command.now (mounted (used_name command.now) roster.now) result.reply }
    ensures shelves { ShelvesFit (A.tells && all_tell core.old.cells) A.blobs roster.now shelves.new }
    ensures later { Later core.old core.new }
    ensures idle { IsIdle core.new }
    ensures source { SourceLater (S.view source.old) (S.view source.new) (result.reply ≡ reply.Fault) }
    ensures does { LineDoes (cached A.tells A.blobs config.now) now command.now
        (mounted (used_name command.now) roster.now) result.reply result.report (seen (S.view source.old) core.old)
        (seen (S.view source.new) core.new) }
{
    let mut door = core.door(0);
    run_line(
        alloc, &mut door, source, roster, shelves, config, command, now,
    )
}

/// A `mount` line.
pub(crate) fn core_mount<A: Archive + Drop, F: Frame + Drop, S: BlobSource<A>>(
    alloc: Global,
    core: &mut Core<A, F>,
    source: &mut S,
    roster: &mut Roster<A>,
    name: &Name,
    manifest: &Name,
) -> Reply
    requires one { length core.old.holds ≡ 1 }
    ensures reply { IsAnswer A.tells (mount_reply A.blobs (mounts_of roster.old) name.now manifest.now) result }
    ensures kind { MountKind result }
    ensures roster { RosterGoes A.tells A.blobs name.now manifest.now roster.old roster.new result }
    ensures later { Later core.old core.new }
    ensures source { SourceLater (S.view source.old) (S.view source.new) (result ≡ reply.Fault) }
    ensures took { IsTrue A.tells → ManifestTook A.blobs manifest.now (S.view source.old) (S.view source.new) }
    ensures does { MountDoes (door_of core.old 0) (door_of core.new 0) result }
{
    let mut door = core.door(0);
    mount_line(alloc, &mut door, source, roster, name, manifest)
}
