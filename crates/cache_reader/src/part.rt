// One part of a file, read through a door: it lies in one region and in one of the region's ranges.
ghost use Rattle.std.specs.Option.{ForSome};
ghost use Rattle.std.specs.Prelude.{◌≡◌, ◌<◌, ◌≤◌, ◌-◌, ◌/◌, Some, [], ◌∷◌, IsTrue, OnOk, length};
ghost use Rattle.region_ranges.specs.Keys.{tag_of, IsConfig};
ghost use Rattle.region_cell.specs.Cells.{region_bytes};
ghost use Rattle.blob_parts.specs.Content.{content, slice_of};
ghost use Rattle.blob_parts.specs.Tables.{file_length};
ghost use Rattle.cache_door.specs.Doors.{IsWant, HasLength, AsWanted, nothing};
ghost use Rattle.cache_door.specs.Machine.{State};
ghost use Rattle.cache_reader.specs.Reader.{IsCausedAt};
ghost use Rattle.directory_input.specs.Causes.{refusal};
ghost use Rattle.cache_reader.specs.Reports.{no_bytes};
ghost use Rattle.cache_reader.specs.Bounds.{Worked};
ghost use Rattle.cache_reader.specs.Parts.{read_setting};
ghost use Rattle.cache_reader.specs.Going.{moment, is_memory};
ghost use Rattle.cache_reader.specs.Filling.{PartGoes, is_answered, given};
ghost use Rattle.cache_door.specs.Takes.{want_of};
ghost use Rattle.cache_reader.specs.Alone.{part_outcome, in_file, Calmly, ByEntries, LastFits, Looked};

use crate::Report;
use crate::held::{direct, read_entered};
use blob_parts::PartTable;
use cache_door::{CacheDoor, Entered, Glance, Want};
use cache_outside::{Archive, BlobSource};
use directory_input::BytesError;
use region_ranges::{ByteRange, Config, RegionKey, region_len, region_of};
use std::alloc::Global;

/// The part that was begun last, where it was copied: its key and its region.
#[derive(Clone, Copy, Debug, PartialEq, Eq)]
pub struct Last {
    pub(crate) key: RegionKey,
    pub(crate) region: u32,
}

/// What stays the same for all parts of a line's reads.
#[derive(Clone, Copy, Debug, PartialEq, Eq)]
pub struct Setting {
    /// The mount, by its number.
    pub(crate) mount: u32,
    /// What the cache was made with.
    pub(crate) config: Config,
    /// The time, in milliseconds.
    pub(crate) time: u64,
}

/// What an entry wants for a part of a file.
fn want_at<A: Archive>(table: &PartTable<A>, config: &Config, file: u32, part: ByteRange) -> Want
    requires config { IsConfig config.now }
    requires file { file < length table.now.files }
    requires part { (part.start < part.end) × (part.end ≤ file_length table.now file)
        × (part.start / config.now.range ≡ (part.end - 1) / config.now.range) }
    ensures value { result ≡ want_of config.now.region table.now.number file (file_length table.now file) part }
    ensures wanted { IsWant config.now result }
    ensures whole { IsTrue A.tells → HasLength (content A.blobs) config.now result }
{
    let _most = table.files();
    let region = region_of(part.start, config.region);
    let len = region_len(table.length(file), region, config.region);
    let base = region * config.region as u64;
    Want {
        key: RegionKey {
            manifest: table.number(),
            file,
            region: region as u32,
        },
        len,
        sub: ByteRange {
            start: part.start - base,
            end: part.end - base,
        },
    }
}

/// Copies what is wanted from the region of the part that was copied last, where it had the same key.
fn glance_last<A: Archive, D: CacheDoor<A>>(
    door: &mut D,
    last: &Option<Last>,
    want: &Want,
    out: &mut [u8],
) -> bool
    requires free { (D.view door.old).hold ≡ nothing }
    requires reach { ForSome last.now (λ l. l.region < (D.view door.old).config.regions) }
    requires want { IsWant (D.view door.old).config want.now }
    requires whole { IsTrue A.tells → HasLength (content A.blobs) (D.view door.old).config want.now }
    requires len { length out.old ≡ want.now.sub.end - want.now.sub.start }
    ensures stays { D.stays door.old door.new }
    ensures hold { (D.view door.new).hold ≡ nothing }
    ensures bytes { IsTrue result → AsWanted A.tells (content A.blobs) (D.view door.old) want.now out.new }
    ensures unmounted { (D.view door.new).unmounted ≡ (D.view door.old).unmounted }
    ensures work { Worked no_bytes (D.view door.old).work (D.view door.new).work }
    ensures same { (D.view door.new).state ≡ (D.view door.old).state }
    ensures looked { IsTrue result → (s : State) → (D.view door.old).state ≡ Some s → Looked last.now want.now s }
{
    match last {
        Some(last) if last.key == want.key => matches!(
            door.glance(last.region, want, out),
            Glance::Copied
        ),
        _ => false,
    }
}

/// Enters for the part, and reads it through the door or, where the door turns the caller away, past the cache.
fn enter_part<A: Archive, D: CacheDoor<A>, S: BlobSource<A>>(
    alloc: Global,
    door: &mut D,
    source: &mut S,
    table: &PartTable<A>,
    file: u32,
    part: ByteRange,
    want: &Want,
    setting: &Setting,
    last: &mut Option<Last>,
    out: &mut [u8],
    report: &mut Report,
) -> Result<(), BytesError>
    requires free { (D.view door.old).hold ≡ nothing }
    requires own { (D.view door.old).config ≡ setting.now.config }
    requires limits { IsConfig setting.now.config }
    requires below { setting.now.mount < 4096 }
    requires file { file < length table.now.files }
    requires part { (part.start < part.end) × (part.end ≤ file_length table.now file)
        × (part.start / setting.now.config.range ≡ (part.end - 1) / setting.now.config.range) }
    requires len { length out.old ≡ part.end - part.start }
    requires want { want.now
        ≡ want_of setting.now.config.region table.now.number file (file_length table.now file) part }
    requires wanted { IsWant setting.now.config want.now }
    requires whole { IsTrue A.tells → HasLength (content A.blobs) setting.now.config want.now }
    ensures stays { D.stays door.old door.new }
    ensures hold { (D.view door.new).hold ≡ nothing }
    ensures reach { ForSome last.new (λ l. l.region < setting.now.config.regions) }
    ensures cause { IsCausedAt (read_setting A.tells A.blobs table.now setting.now)
        (moment (S.view source.old) (D.view door.old)) (moment (S.view source.new) (D.view door.new)) (refusal result) }
    ensures bytes { IsTrue A.tells → IsTrue (D.view door.old).frames_tell
        → OnOk result (out.new ≡ slice_of (content A.blobs table.now.number file) part.start (length out.old)) }
    ensures part { PartGoes (read_setting A.tells A.blobs table.now setting.now)
        (given (is_answered result) (part.end - part.start)) (is_memory result) report.old report.new
        (moment (S.view source.old) (D.view door.old)) (moment (S.view source.new) (D.view door.new)) }
    ensures fits { LastFits setting.now.mount setting.now.time last.new (D.view door.new).state }
    ensures outcome { Calmly (read_setting A.tells A.blobs table.now setting.now)
        (part_outcome (read_setting A.tells A.blobs table.now setting.now) (D.view door.old).actor file part)
        (is_memory result) report.old report.new (moment (S.view source.old) (D.view door.old))
        (moment (S.view source.new) (D.view door.new)) }
{
    let _length = table.length(file);
    door.lesson();
    *last = None;
    match door.enter(setting.mount, want, setting.time) {
        Ok(Entered::Held { region, gap }) => {
            let base = part.start - want.sub.start;
            match read_entered(
                alloc, door, source, table, file, base, part.start, gap, setting, out, report,
            ) {
                Ok(true) => {
                    *last = Some(Last {
                        key: want.key,
                        region,
                    });
                    Ok(())
                }
                Ok(false) => Ok(()),
                Err(e) => Err(e),
            }
        }
        Ok(Entered::NoRoom) => direct(source, table, file, part.start, out, report),
        Ok(Entered::Gone) => Err(BytesError::Gone {
            mount: setting.mount,
        }),
        Err(_) => Err(BytesError::NoMemory),
    }
}

/// Reads one part of a file: at least one byte, in one range of one region.
pub(crate) fn read_part<A: Archive, D: CacheDoor<A>, S: BlobSource<A>>(
    alloc: Global,
    door: &mut D,
    source: &mut S,
    table: &PartTable<A>,
    file: u32,
    part: ByteRange,
    setting: &Setting,
    last: &mut Option<Last>,
    out: &mut [u8],
    report: &mut Report,
) -> Result<(), BytesError>
    requires free { (D.view door.old).hold ≡ nothing }
    requires own { (D.view door.old).config ≡ setting.now.config }
    requires limits { IsConfig setting.now.config }
    requires below { setting.now.mount < 4096 }
    requires file { file < length table.now.files }
    requires part { (part.start < part.end) × (part.end ≤ file_length table.now file)
        × (part.start / setting.now.config.range ≡ (part.end - 1) / setting.now.config.range) }
    requires len { length out.old ≡ part.end - part.start }
    requires reach { ForSome last.old (λ l. l.region < setting.now.config.regions) }
    requires fits { LastFits setting.now.mount setting.now.time last.old (D.view door.old).state }
    ensures stays { D.stays door.old door.new }
    ensures hold { (D.view door.new).hold ≡ nothing }
    ensures reach { ForSome last.new (λ l. l.region < setting.now.config.regions) }
    ensures cause { IsCausedAt (read_setting A.tells A.blobs table.now setting.now)
        (moment (S.view source.old) (D.view door.old)) (moment (S.view source.new) (D.view door.new)) (refusal result) }
    ensures bytes { IsTrue A.tells → IsTrue (D.view door.old).frames_tell
        → OnOk result (out.new ≡ slice_of (content A.blobs table.now.number file) part.start (length out.old)) }
    ensures part { PartGoes (read_setting A.tells A.blobs table.now setting.now)
        (given (is_answered result) (part.end - part.start)) (is_memory result) report.old report.new
        (moment (S.view source.old) (D.view door.old)) (moment (S.view source.new) (D.view door.new)) }
    ensures fits { LastFits setting.now.mount setting.now.time last.new (D.view door.new).state }
    ensures entries { ByEntries (read_setting A.tells A.blobs table.now setting.now) (D.view door.old).actor
        (in_file file part ∷ []) (is_memory result) report.old report.new
        (moment (S.view source.old) (D.view door.old)) (moment (S.view source.new) (D.view door.new)) }
{
    let _length = table.length(file);
    door.lesson();
    let want = want_at(table, &setting.config, file, part);
    if glance_last(door, last, &want, out) {
        report.copy(out.len());
        return Ok(());
    }
    enter_part(
        alloc, door, source, table, file, part, &want, setting, last, out, report,
    )
}
