//! A `mount` line between blocks of workers.
ghost use Rattle.std.specs.Prelude.{◌≡◌, ℕ, ◌≤◌};
ghost use Rattle.blob_parts.specs.Takes.{SourceLater};
ghost use Rattle.cache_reader.specs.Reports.{Grew};
ghost use Rattle.cache_table.specs.Calls.{marks};
ghost use Rattle.mount_script.specs.declared.reply.Reply.TheVariants as reply;
ghost use Rattle.shard_replies.specs.ExpectedReplies.{mount_reply};
ghost use Rattle.script_run.specs.Mounting.{mounts_of};
ghost use Rattle.script_run.specs.Lines.{IsAnswer};
ghost use Rattle.script_run.specs.MountLines.{MountKind, RosterGoes};
ghost use Rattle.shared_run.specs.Workers.{IsIdle};

use byte_text::Name;
use cache_outside::{Archive, BlobSource, Frame};
use cache_table::{Pass, SharedCache, TableDoor};
use index_mounts::Roster;
use mount_script::Reply;
use script_run::mount_line;
use std::alloc::Global;
use std::sync::Wait;

/// Runs a `mount` line, through a door of its own.
pub(crate) fn mount_between<R: Wait, A: Archive + Drop, F: Frame + Drop, S: BlobSource<A>>(
    rt: &R,
    alloc: Global,
    cache: &SharedCache<A, F>,
    pass: &mut Pass<A>,
    source: &mut S,
    roster: &mut Roster<A>,
    name: &Name,
    manifest: &Name,
) -> Reply
    requires idle { IsIdle cache.now pass.old }
    requires shares { 2 ≤ pass.old.view.shares }
    ensures reply { IsAnswer A.tells (mount_reply A.blobs (mounts_of roster.old) name.now manifest.now) result }
    ensures kind { MountKind result }
    ensures roster { RosterGoes A.tells A.blobs name.now manifest.now roster.old roster.new result }
    ensures source { SourceLater (S.view source.old) (S.view source.new) (result ≡ reply.Fault) }
    ensures idle { IsIdle cache.now pass.new }
    ensures shares { pass.new.view.shares ≡ pass.old.view.shares }
    ensures unmounted { (n : ℕ) → marks pass.new.view.unmounted n ≡ marks pass.old.view.unmounted n }
    ensures decays { Grew pass.old.work.decays pass.new.work.decays 0 }
    ensures clears { Grew pass.old.work.clears pass.new.work.clears 0 }
    ensures stored { Grew pass.old.work.stored pass.new.work.stored 0 }
    ensures turned { Grew pass.old.work.turned_away pass.new.work.turned_away 0 }
{
    let share = cache.split(pass);
    let mut door = TableDoor::new(rt, cache, share);
    let reply = mount_line(alloc, &mut door, source, roster, name, manifest);
    cache.join(pass, door.into_pass());
    reply
}
