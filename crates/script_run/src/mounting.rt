// A mount line over any door.
ghost use Rattle.std.specs.Prelude.{◌≡◌, IsTrue, Ok};
ghost use Rattle.blob_parts.specs.Takes.{SourceLater};
ghost use Rattle.index_mounts.specs.Rosters.{IsResolved};
ghost use Rattle.index_mounts.specs.Calls.{check_of};
ghost use Rattle.mount_script.specs.declared.reply.Reply.TheVariants as reply;
ghost use Rattle.shard_replies.specs.ExpectedReplies.{mount_reply, mounted, refused};
ghost use Rattle.script_run.specs.Mounting.{mounts_of};
ghost use Rattle.script_run.specs.Lines.{IsAnswer, IsOrNoMemory};
ghost use Rattle.script_run.specs.Bytes.{ManifestTook};
ghost use Rattle.script_run.specs.MountLines.{Taken, MountKind, RosterGoes, MountDoes, MayAdd};

use crate::answer::refused;
use blob_parts::PartTable;
use byte_text::Name;
use cache_door::CacheDoor;
use cache_outside::{Archive, BlobSource};
use index_mounts::{Roster, RosterError};
use mount_manifest::Manifest;
use mount_script::Reply;
use shard_replies::{MountError, load_mount, mounted_reply};
use std::alloc::Global;

/// The reply where no mount can be made under the name.
fn taken<A: Archive>(alloc: Global, roster: &Roster<A>, name: &Name) -> Option<Reply>
    ensures { Taken name.now roster.now result }
{
    match roster.check(name) {
        Ok(()) => None,
        Err(RosterError::NameTaken) => Some(refused(alloc, b"refused name")),
        Err(RosterError::Full) => Some(refused(alloc, b"refused full")),
        Err(_) => Some(Reply::NoMemory),
    }
}

/// Makes a mount under a name under which one can be made.
fn add_mount<A: Archive, D: CacheDoor<A>>(
    door: &mut D,
    roster: &mut Roster<A>,
    name: &Name,
    number: u32,
    manifest: Manifest,
    parts: PartTable<A>,
) -> Reply
    requires resolved { IsResolved A.tells A.blobs number manifest parts }
    requires free { check_of name.now roster.old ≡ Ok tt }
    ensures reply { IsOrNoMemory (mounted manifest) result }
    ensures stays { D.stays door.old door.new }
    ensures adds { MayAdd A.tells A.blobs name.now number manifest parts roster.old roster.new (D.view door.old)
        (D.view door.new) result }
{
    let reply = mounted_reply(&manifest);
    let Ok(name) = name.clone() else {
        return Reply::NoMemory;
    };
    match roster.mount(name, number, manifest, parts) {
        Ok(mount) => {
            door.live(mount);
            reply
        }
        Err(_) => Reply::NoMemory,
    }
}

/// Runs a `mount` line: loads the manifest with this name and makes a mount of it under the name, of which the door is
/// told.
///
/// The reply is the one that whole files give, with its refusals in order: the name is mounted; 4,096 mounts were made;
/// there is no such manifest; its text is refused; a part is missing, or has another size. `Fault` comes only where the
/// source's count of failures rose in this call; `NoMemory` is free. The roster changes only where the reply is
/// `Mounted`. Nothing is taken from the source but bytes of the manifest, from its first on.
pub fn mount_line<A: Archive, D: CacheDoor<A>, S: BlobSource<A>>(
    alloc: Global,
    door: &mut D,
    source: &mut S,
    roster: &mut Roster<A>,
    name: &Name,
    manifest: &Name,
) -> Reply
    ensures reply { IsAnswer A.tells (mount_reply A.blobs (mounts_of roster.old) name.now manifest.now) result }
    ensures kind { MountKind result }
    ensures roster { RosterGoes A.tells A.blobs name.now manifest.now roster.old roster.new result }
    ensures source { SourceLater (S.view source.old) (S.view source.new) (result ≡ reply.Fault) }
    ensures took { IsTrue A.tells → ManifestTook A.blobs manifest.now (S.view source.old) (S.view source.new) }
    ensures stays { D.stays door.old door.new }
    ensures does { MountDoes (D.view door.old) (D.view door.new) result }
{
    if let Some(reply) = taken(alloc, roster, name) {
        return reply;
    }
    match load_mount::<A, S>(alloc, source, manifest.as_str()) {
        Ok((number, manifest, parts)) => add_mount(door, roster, name, number, manifest, parts),
        Err(MountError::Refused { text }) => Reply::Refused { text },
        Err(MountError::Fault) => Reply::Fault,
        Err(MountError::NoMemory) => Reply::NoMemory,
    }
}
