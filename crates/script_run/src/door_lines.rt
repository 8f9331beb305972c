// Lines that read a mount's files through a door. Each lends the door and the source to one reader.
ghost use Rattle.std.specs.Prelude.{◌≡◌, ◌<◌, ◌≤◌, ◌&&◌, Some, None, IsTrue, IfOk, length};
ghost use Rattle.region_ranges.specs.Keys.{IsConfig};
ghost use Rattle.directory_input.specs.Causes.{refusal};
ghost use Rattle.blob_parts.specs.Content.{content};
ghost use Rattle.blob_parts.specs.Tables.{file_length};
ghost use Rattle.cache_door.specs.Doors.{nothing};
ghost use Rattle.cache_reader.specs.Going.{moment};
ghost use Rattle.index_mounts.specs.Calls.{mount_view};
ghost use Rattle.shard_replies.specs.Answers.{HasHits, HasFields, HasBytes};
ghost use Rattle.shard_replies.specs.ExpectedReplies.{search_reply, fetch_reply, read_reply, read_steps};
ghost use Rattle.script_run.specs.Lines.{cached, reading, LineReads};
ghost use Rattle.script_run.specs.Shelves.{BelongsTo};

use byte_text::Name;
use cache_door::CacheDoor;
use cache_outside::{Archive, BlobSource};
use cache_reader::{Reader, Report};
use directory_input::BytesError;
use index_mounts::Mounted;
use mount_script::Reply;
use region_ranges::Config;
use shard_replies::{fetch_reply, read_reply, search_reply};
use shard_search::Shelf;
use std::alloc::Global;

/// A search, and the sums of what its reads did. The shelf is one that belongs to this mount, and does so afterwards.
pub(crate) fn search_line<A: Archive, D: CacheDoor<A>, S: BlobSource<A>>(
    alloc: Global,
    door: &mut D,
    source: &mut S,
    mount: &Mounted<A>,
    shelf: &mut Shelf,
    config: &Config,
    now: u64,
    size: u32,
    query: &[u8],
) -> (Result<Reply, BytesError>, Report)
    requires idle { (D.view door.old).hold ≡ nothing }
    requires setting { (D.view door.old).config ≡ config.now }
    requires limits { IsConfig config.now }
    requires below { mount.now.mount < 4096 }
    requires files { length mount.now.manifest.files ≤ length mount.now.parts.files }
    requires shelf { BelongsTo (A.tells && (D.view door.old).frames_tell) A.blobs shelf.old (mount_view mount.now) }
    ensures reply { IsTrue A.tells → IsTrue (D.view door.old).frames_tell → IfOk result.0
        (λ r. r ≡ search_reply (content A.blobs mount.now.parts.number) mount.now.manifest size query.now) }
    ensures form { IfOk result.0 HasHits }
    ensures shelf { BelongsTo (A.tells && (D.view door.old).frames_tell) A.blobs shelf.new (mount_view mount.now) }
    ensures stays { D.stays door.old door.new }
    ensures hold { (D.view door.new).hold ≡ nothing }
    ensures goes { LineReads (reading (cached A.tells A.blobs config.now) (mount_view mount.now) now) None
        (refusal result.0) result.1 (moment (S.view source.old) (D.view door.old))
        (moment (S.view source.new) (D.view door.new)) }
{
    let mut bytes = Reader::new(alloc, door, source, &mount.parts, mount.mount, config, now);
    let reply = search_reply(alloc, &mut bytes, shelf, &mount.manifest, size, query);
    let report = bytes.total();
    (reply, report)
}

/// A fetch, and the sums of what its reads did.
pub(crate) fn fetch_line<A: Archive, D: CacheDoor<A>, S: BlobSource<A>>(
    alloc: Global,
    door: &mut D,
    source: &mut S,
    mount: &Mounted<A>,
    config: &Config,
    now: u64,
    segment: &Name,
    doc: u32,
) -> (Result<Reply, BytesError>, Report)
    requires idle { (D.view door.old).hold ≡ nothing }
    requires setting { (D.view door.old).config ≡ config.now }
    requires limits { IsConfig config.now }
    requires below { mount.now.mount < 4096 }
    requires files { length mount.now.manifest.files ≤ length mount.now.parts.files }
    ensures reply { IsTrue A.tells → IsTrue (D.view door.old).frames_tell → IfOk result.0
        (λ r. r ≡ fetch_reply (content A.blobs mount.now.parts.number) mount.now.manifest segment.now doc) }
    ensures form { IfOk result.0 HasFields }
    ensures stays { D.stays door.old door.new }
    ensures hold { (D.view door.new).hold ≡ nothing }
    ensures goes { LineReads (reading (cached A.tells A.blobs config.now) (mount_view mount.now) now) None
        (refusal result.0) result.1 (moment (S.view source.old) (D.view door.old))
        (moment (S.view source.new) (D.view door.new)) }
{
    let mut bytes = Reader::new(alloc, door, source, &mount.parts, mount.mount, config, now);
    let reply = fetch_reply(alloc, &mut bytes, &mount.manifest, segment, doc);
    let report = bytes.total();
    (reply, report)
}

/// A read, and the sums of what its reads did.
pub(crate) fn read_line<A: Archive, D: CacheDoor<A>, S: BlobSource<A>>(
    alloc: Global,
    door: &mut D,
    source: &mut S,
    mount: &Mounted<A>,
    config: &Config,
    now: u64,
    file: &Name,
    at: u64,
    len: u32,
) -> (Result<Reply, BytesError>, Report)
    requires idle { (D.view door.old).hold ≡ nothing }
    requires setting { (D.view door.old).config ≡ config.now }
    requires limits { IsConfig config.now }
    requires below { mount.now.mount < 4096 }
    requires files { length mount.now.manifest.files ≤ length mount.now.parts.files }
    ensures reply { IsTrue A.tells → IsTrue (D.view door.old).frames_tell → IfOk result.0
        (λ r. r ≡ read_reply (content A.blobs mount.now.parts.number) mount.now.manifest file.now at len) }
    ensures form { IfOk result.0 HasBytes }
    ensures stays { D.stays door.old door.new }
    ensures hold { (D.view door.new).hold ≡ nothing }
    ensures goes { LineReads (reading (cached A.tells A.blobs config.now) (mount_view mount.now) now)
        (Some (read_steps (file_length mount.now.parts) mount.now.manifest file.now at len)) (refusal result.0)
        result.1 (moment (S.view source.old) (D.view door.old)) (moment (S.view source.new) (D.view door.new)) }
{
    let mut bytes = Reader::new(alloc, door, source, &mount.parts, mount.mount, config, now);
    let reply = read_reply(alloc, &mut bytes, &mount.manifest, file, at, len);
    let report = bytes.total();
    (reply, report)
}
