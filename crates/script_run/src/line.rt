// One line over any door.
ghost use Rattle.std.specs.Prelude.{◌≡◌, ◌<◌, ◌≤◌, ◌&&◌, Some, true, IsTrue, IsSome, IfOk, option_map, length};
ghost use Rattle.std.specs.Option.{ForSome};
ghost use Rattle.region_ranges.specs.Keys.{IsConfig};
ghost use Rattle.directory_input.specs.Causes.{refusal};
ghost use Rattle.blob_parts.specs.Tables.{file_length};
ghost use Rattle.blob_parts.specs.Takes.{SourceLater};
ghost use Rattle.cache_door.specs.Doors.{nothing};
ghost use Rattle.cache_reader.specs.Going.{moment};
ghost use Rattle.index_mounts.specs.Rosters.{mounted, IsResolved};
ghost use Rattle.index_mounts.specs.Calls.{mount_view};
ghost use Rattle.mount_script.specs.declared.reply.Reply.TheVariants as reply;
ghost use Rattle.shard_replies.specs.ExpectedReplies.{expected_reply, named_reply, mount_command, used_name};
ghost use Rattle.script_run.specs.Allowed.{reads_files};
ghost use Rattle.script_run.specs.Mounting.{mounts_of};
ghost use Rattle.script_run.specs.Lines.{is_shared, named, cached, reading, IsAnswer, IsMarked, HasForm, HasKind, LineReads, LineDoes, asked_reads};
ghost use Rattle.script_run.specs.Shelves.{BelongsTo, IsNumber, ShelvesFit};

use crate::answer::{Answer, refused};
use crate::door_lines::{fetch_line, read_line, search_line};
use crate::shelves::Shelves;
use byte_text::Name;
use cache_door::CacheDoor;
use cache_outside::{Archive, BlobSource};
use cache_reader::Report;
use directory_input::BytesError;
use index_mounts::{Mounted, Roster};
use mount_script::{Command, Reply};
use region_ranges::Config;
use shard_search::Shelf;
use std::alloc::Global;

/// The name of the mount that a line needs.
fn named(command: &Command) -> Option<&Name>
    ensures { option_map (λ n. n.now) result ≡ named command.now }
{
    match command {
        Command::Unmount { name } => Some(name),
        Command::Clear { name } => Some(name),
        Command::Search { name, .. } => Some(name),
        Command::Fetch { name, .. } => Some(name),
        Command::Read { name, .. } => Some(name),
        Command::Mount { .. } | Command::Decay | Command::Stats => None,
    }
}

/// A line that reads files of this mount, and the sums of what its reads did.
fn files_line<A: Archive, D: CacheDoor<A>, S: BlobSource<A>>(
    alloc: Global,
    door: &mut D,
    source: &mut S,
    mount: &Mounted<A>,
    shelf: &mut Shelf,
    config: &Config,
    command: &Command,
    now: u64,
) -> (Result<Reply, BytesError>, Report)
    requires idle { (D.view door.old).hold ≡ nothing }
    requires setting { (D.view door.old).config ≡ config.now }
    requires limits { IsConfig config.now }
    requires below { mount.now.mount < 4096 }
    requires files { length mount.now.manifest.files ≤ length mount.now.parts.files }
    requires shelf { BelongsTo (A.tells && (D.view door.old).frames_tell) A.blobs shelf.old (mount_view mount.now) }
    requires reads { reads_files command.now ≡ true }
    ensures reply { IsTrue A.tells → IsTrue (D.view door.old).frames_tell → IfOk result.0
        (λ r. r ≡ mount_command A.blobs mount.now.parts.number mount.now.manifest command.now) }
    ensures form { IfOk result.0 (HasForm command.now) }
    ensures shelf { BelongsTo (A.tells && (D.view door.old).frames_tell) A.blobs shelf.new (mount_view mount.now) }
    ensures stays { D.stays door.old door.new }
    ensures hold { (D.view door.new).hold ≡ nothing }
    ensures goes { LineReads (reading (cached A.tells A.blobs config.now) (mount_view mount.now) now)
        (asked_reads (file_length mount.now.parts) mount.now.manifest command.now) (refusal result.0)
        result.1 (moment (S.view source.old) (D.view door.old)) (moment (S.view source.new) (D.view door.new)) }
{
    match command {
        Command::Search { size, query, .. } => search_line(
            alloc,
            door,
            source,
            mount,
            shelf,
            config,
            now,
            *size,
            query.as_bytes(),
        ),
        Command::Fetch { segment, doc, .. } => {
            fetch_line(alloc, door, source, mount, config, now, segment, *doc)
        }
        Command::Read { file, at, len, .. } => {
            read_line(alloc, door, source, mount, config, now, file, *at, *len)
        }
        _ => unreachable!(),
    }
}

/// A line that needs this mount.
fn mounted_line<A: Archive, D: CacheDoor<A>, S: BlobSource<A>>(
    alloc: Global,
    door: &mut D,
    source: &mut S,
    mount: &Mounted<A>,
    shelf: &mut Shelf,
    config: &Config,
    command: &Command,
    now: u64,
) -> Answer
    requires idle { (D.view door.old).hold ≡ nothing }
    requires setting { (D.view door.old).config ≡ config.now }
    requires limits { IsConfig config.now }
    requires below { mount.now.mount < 4096 }
    requires resolved { IsResolved A.tells A.blobs mount.now.number mount.now.manifest mount.now.parts }
    requires shelf { BelongsTo (A.tells && (D.view door.old).frames_tell) A.blobs shelf.old (mount_view mount.now) }
    requires named { IsSome (named command.now) }
    ensures reply { IsAnswer (A.tells && (D.view door.old).frames_tell)
        (named_reply A.blobs (Some mount.now.number) command.now) result.reply }
    ensures mark { IsMarked command.now (Some (mount_view mount.now)) (moment (S.view source.old) (D.view door.old))
        (moment (S.view source.new) (D.view door.new)) result.reply }
    ensures kind { HasKind command.now (Some (mount_view mount.now)) result.reply }
    ensures shelf { BelongsTo (A.tells && (D.view door.old).frames_tell) A.blobs shelf.new (mount_view mount.now) }
    ensures stays { D.stays door.old door.new }
    ensures hold { (D.view door.new).hold ≡ nothing }
    ensures source { SourceLater (S.view source.old) (S.view source.new) (result.reply ≡ reply.Fault) }
    ensures does { LineDoes (cached A.tells A.blobs config.now) now command.now (Some (mount_view mount.now))
        result.reply result.report (moment (S.view source.old) (D.view door.old))
        (moment (S.view source.new) (D.view door.new)) }
{
    match command {
        Command::Unmount { .. } => {
            door.unmount(mount.mount, mount.number);
            Answer::of(Reply::Unmounted)
        }
        Command::Clear { .. } => {
            door.clear(mount.number);
            Answer::of(Reply::Cleared)
        }
        _ => {
            let (given, report) = files_line(
                alloc, door, source, mount, shelf, config, command, now,
            );
            Answer::read(given, report)
        }
    }
}

/// Runs a line that is neither `mount` nor `stats`, with a shelf that belongs to the mount that it names, and does so
/// afterwards.
fn shelf_line<A: Archive, D: CacheDoor<A>, S: BlobSource<A>>(
    alloc: Global,
    door: &mut D,
    source: &mut S,
    roster: &Roster<A>,
    shelf: &mut Shelf,
    config: &Config,
    command: &Command,
    now: u64,
) -> Answer
    requires idle { (D.view door.old).hold ≡ nothing }
    requires setting { (D.view door.old).config ≡ config.now }
    requires limits { IsConfig config.now }
    requires shared { is_shared command.now ≡ true }
    requires shelf { ForSome (mounted (used_name command.now) roster.now)
        (BelongsTo (A.tells && (D.view door.old).frames_tell) A.blobs shelf.old) }
    ensures reply { IsAnswer (A.tells && (D.view door.old).frames_tell)
        (expected_reply A.blobs (mounts_of roster.now) command.now) result.reply }
    ensures mark { IsMarked command.now (mounted (used_name command.now) roster.now)
        (moment (S.view source.old) (D.view door.old)) (moment (S.view source.new) (D.view door.new)) result.reply }
    ensures kind { HasKind command.now (mounted (used_name command.now) roster.now) result.reply }
    ensures shelf { ForSome (mounted (used_name command.now) roster.now)
        (BelongsTo (A.tells && (D.view door.old).frames_tell) A.blobs shelf.new) }
    ensures stays { D.stays door.old door.new }
    ensures hold { (D.view door.new).hold ≡ nothing }
    ensures source { SourceLater (S.view source.old) (S.view source.new) (result.reply ≡ reply.Fault) }
    ensures does { LineDoes (cached A.tells A.blobs config.now) now command.now
        (mounted (used_name command.now) roster.now) result.reply result.report
        (moment (S.view source.old) (D.view door.old)) (moment (S.view source.new) (D.view door.new)) }
{
    let Some(name) = named(command) else {
        door.decay(now);
        return Answer::of(Reply::Decayed);
    };
    match roster.find(name) {
        Some(mount) => mounted_line(alloc, door, source, mount, shelf, config, command, now),
        None => Answer::of(refused(alloc, b"not mounted")),
    }
}

/// The number of the mount under a name.
fn number_of<A: Archive>(roster: &Roster<A>, name: &Name) -> Option<u32>
    ensures { ForSome result (IsNumber (mounted name.now roster.now)) }
{
    match roster.find(name) {
        Some(mount) => Some(mount.mount),
        None => None,
    }
}

/// The number of the mount whose shelf a line takes: one that it searches or unmounts.
fn shelf_number<A: Archive>(roster: &Roster<A>, command: &Command) -> Option<u32>
    ensures { ForSome result (IsNumber (mounted (used_name command.now) roster.now)) }
{
    match command {
        Command::Search { name, .. } => number_of(roster, name),
        Command::Unmount { name } => number_of(roster, name),
        _ => None,
    }
}

/// Runs a line that is neither `mount` nor `stats`, at the time `now` in milliseconds, and says what it was answered
/// and what its reads counted. Names are those of the roster, which stays as it is: an `unmount` marks the mount at the
/// door, and the caller takes it out of the roster. A search has the shelf of dictionaries that is kept of its mount,
/// and puts it back behind it; an `unmount` lets it go.
///
/// The reply is the one that whole files give, or a mark. `Fault` comes only on a line that reads files, and only
/// where the source's count of failures rose in this call; `Gone` only on such a line, and only where the door has
/// seen its mount unmounted; `NoMemory` is free. Whatever the archive tells, the reply is of its command's kind:
/// `Unmounted` exactly on an `unmount` of a name of the roster, and so `Cleared` and `Decayed`. Where the name is of no
/// mount, neither the door nor the source is asked. Whatever the answer, the door holds nothing behind it.
pub fn run_line<A: Archive, D: CacheDoor<A>, S: BlobSource<A>>(
    alloc: Global,
    door: &mut D,
    source: &mut S,
    roster: &Roster<A>,
    shelves: &mut Shelves,
    config: &Config,
    command: &Command,
    now: u64,
) -> Answer
    requires idle { (D.view door.old).hold ≡ nothing }
    requires setting { (D.view door.old).config ≡ config.now }
    requires limits { IsConfig config.now }
    requires shared { is_shared command.now ≡ true }
    requires shelves { ShelvesFit (A.tells && (D.view door.old).frames_tell) A.blobs roster.now shelves.old }
    ensures reply { IsAnswer (A.tells && (D.view door.old).frames_tell)
        (expected_reply A.blobs (mounts_of roster.now) command.now) result.reply }
    ensures mark { IsMarked command.now (mounted (used_name command.now) roster.now)
        (moment (S.view source.old) (D.view door.old)) (moment (S.view source.new) (D.view door.new)) result.reply }
    ensures kind { HasKind command.now (mounted (used_name command.now) roster.now) result.reply }
    ensures shelves { ShelvesFit (A.tells && (D.view door.old).frames_tell) A.blobs roster.now shelves.new }
    ensures stays { D.stays door.old door.new }
    ensures hold { (D.view door.new).hold ≡ nothing }
    ensures source { SourceLater (S.view source.old) (S.view source.new) (result.reply ≡ reply.Fault) }
    ensures does { LineDoes (cached A.tells A.blobs config.now) now command.now
        (mounted (used_name command.now) roster.now) result.reply result.report
        (moment (S.view source.old) (D.view door.old)) (moment (S.view source.new) (D.view door.new)) }
{
    roster.lesson();
    let Some(mount) = shelf_number(roster, command) else {
        let mut shelf = Shelf::new(alloc);
        return shelf_line(
            alloc, door, source, roster, &mut shelf, config, command, now,
        );
    };
    let mut shelf = shelves.take(mount);
    let answer = shelf_line(
        alloc, door, source, roster, &mut shelf, config, command, now,
    );
    if matches!(command, Command::Unmount { .. }) {
        return answer;
    }
    shelves.put(mount, shelf);
    answer
}
