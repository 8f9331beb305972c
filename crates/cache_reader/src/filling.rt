// The gap of a hold: fetched in pieces, each stored at once.
ghost use Rattle.std.specs.Prelude.{◌≡◌, ◌<◌, ◌≤◌, ◌+◌, ◌-◌, ◌*◌, true, false, Some, Ok, IsTrue, IsErrOf, IfSome, length};
ghost use Rattle.byte_text.specs.Counts.{Rose};
ghost use Rattle.blob_parts.specs.Content.{content, content_places, slice_of};
ghost use Rattle.blob_parts.specs.Tables.{file_length};
ghost use Rattle.blob_parts.specs.Takes.{Takes, Took};
ghost use Rattle.region_ranges.specs.Keys.{manifest_of};
ghost use Rattle.region_cell.specs.Cells.{file_of, part_of};
ghost use Rattle.cache_door.specs.Doors.{Becomes, storing, range_start, range_end};
ghost use Rattle.cache_door.specs.Machine.{State};
ghost use Rattle.cache_reader.specs.Reports.{fetched_bytes};
ghost use Rattle.cache_reader.specs.Parts.{read_setting};
ghost use Rattle.cache_reader.specs.Going.{moment, Goes};
ghost use Rattle.cache_reader.specs.Filling.{piece_hold, piece_count, lacks_memory, Partly, Whole, SameHold};
ghost use Rattle.cache_reader.specs.Stored.{rest_stored, gap_stored};
ghost use Rattle.cache_reader.specs.Alone.{SamePolicy};

use crate::Report;
use crate::part::Setting;
use blob_parts::{FetchError, PartTable, fetch};
use cache_door::CacheDoor;
use cache_outside::{Archive, BlobSource};
use region_ranges::ByteRange;
use std::alloc::Global;

/// The most bytes that are fetched and stored at once.
const PIECE: u64 = 65_536;

/// Fetches one piece and stores it. False: a frame refused it.
fn store_piece<A: Archive, D: CacheDoor<A>, S: BlobSource<A>>(
    alloc: Global,
    door: &mut D,
    source: &mut S,
    table: &PartTable<A>,
    file: u32,
    at: u64,
    len: u32,
    setting: &Setting,
) -> Result<bool, FetchError>
    requires file { file < length table.now.files }
    requires held { (D.view door.old).hold.held ≡ true }
    requires gap { ((D.view door.old).hold.upto + len ≤ (D.view door.old).hold.gap_end) × (0 < len) × (len ≤ 65536) }
    requires place { (manifest_of (D.view door.old).hold.tag ≡ table.now.number)
        × (file_of (D.view door.old).hold.tag ≡ file)
        × (at ≡ part_of (D.view door.old).hold.tag * (D.view door.old).config.region + (D.view door.old).hold.upto) }
    requires inside { at + len ≤ file_length table.now file }
    ensures stays { D.stays door.old door.new }
    ensures hold { (D.view door.new).hold ≡ piece_hold len result (D.view door.old).hold }
    ensures fault { IsErrOf result FetchError.Fault → Rose (S.view source.old).faults (S.view source.new).faults }
    ensures frame { result ≡ Ok false → Rose (D.view door.old).frame_faults (D.view door.new).frame_faults }
    ensures turned { result ≡ Ok false → Rose (D.view door.old).work.turned_away (D.view door.new).work.turned_away }
    ensures goes { Goes (read_setting A.tells A.blobs table.now setting.now) (fetched_bytes (piece_count len result))
        (moment (S.view source.old) (D.view door.old)) (moment (S.view source.new) (D.view door.new)) }
    ensures reads { IsTrue A.tells → Takes (S.view source.old).reads (S.view source.new).reads
        (slice_of (content_places A.blobs table.now.number file) at len) result }
    ensures kept { SamePolicy (D.view door.old).state (D.view door.new).state }
    ensures stored { result ≡ Ok true → IsTrue A.tells → Becomes (D.view door.old) (D.view door.new)
        (storing (slice_of (content A.blobs table.now.number file) at len)) }
{
    let piece = fetch(alloc, source, table, file, at, len)?;
    Ok(door.store(&piece).is_ok())
}

/// Fetches the gap of the hold in rising pieces, and stores each at once. A piece that is refused, by the source or
/// (false) by a frame, fails the rest of the gap. `base` is the place of the region in the file.
fn fill<A: Archive, D: CacheDoor<A>, S: BlobSource<A>>(
    alloc: Global,
    door: &mut D,
    source: &mut S,
    table: &PartTable<A>,
    file: u32,
    base: u64,
    gap: ByteRange,
    setting: &Setting,
    report: &mut Report,
) -> Result<bool, FetchError>
    requires file { file < length table.now.files }
    requires held { (D.view door.old).hold.held ≡ true }
    requires gap { ((D.view door.old).hold.upto ≡ gap.start) × ((D.view door.old).hold.gap_end ≡ gap.end)
        × (gap.start < gap.end) }
    requires place { (manifest_of (D.view door.old).hold.tag ≡ table.now.number)
        × (file_of (D.view door.old).hold.tag ≡ file)
        × (base ≡ part_of (D.view door.old).hold.tag * (D.view door.old).config.region) }
    requires inside { base + gap.end ≤ file_length table.now file }
    ensures stays { D.stays door.old door.new }
    ensures hold { (D.view door.new).hold.gap_end ≤ (D.view door.new).hold.upto }
    ensures same_hold { SameHold (D.view door.old).hold (D.view door.new).hold }
    ensures fault { IsErrOf result FetchError.Fault → Rose (S.view source.old).faults (S.view source.new).faults }
    ensures frame { result ≡ Ok false → Rose (D.view door.old).frame_faults (D.view door.new).frame_faults }
    ensures turned { result ≡ Ok false → Rose (D.view door.old).work.turned_away (D.view door.new).work.turned_away }
    ensures partly { Partly (read_setting A.tells A.blobs table.now setting.now) (gap.end - gap.start)
        (lacks_memory result) report.old report.new (moment (S.view source.old) (D.view door.old))
        (moment (S.view source.new) (D.view door.new)) }
    ensures whole { result ≡ Ok true → Whole (read_setting A.tells A.blobs table.now setting.now) (gap.end - gap.start)
        report.old report.new (moment (S.view source.old) (D.view door.old))
        (moment (S.view source.new) (D.view door.new)) }
    ensures kept { SamePolicy (D.view door.old).state (D.view door.new).state }
    ensures stored { result ≡ Ok true → IsTrue A.tells → (s : State) → (D.view door.old).state ≡ Some s
        → (D.view door.new).state ≡ Some (rest_stored (read_setting A.tells A.blobs table.now setting.now)
        (D.view door.old).actor file base gap.start gap.end s) }
    ensures took { result ≡ Ok true → IsTrue A.tells → Took (S.view source.old).reads (S.view source.new).reads
        (slice_of (content_places A.blobs table.now.number file) (base + gap.start) (gap.end - gap.start)) }
{
    let _length = table.length(file);
    let mut at = gap.start;
    while at < gap.end {
        door.lesson();
        let len = (gap.end - at).min(PIECE) as u32;
        match store_piece(alloc, door, source, table, file, base + at, len, setting) {
            Ok(true) => {
                at += len as u64;
                report.store(len);
            }
            Ok(false) => {
                door.fail();
                return Ok(false);
            }
            Err(e) => {
                door.fail(); // nobody waits for what will not come
                return Err(e);
            }
        }
    }
    Ok(true)
}

/// Fills the gap of the hold, where there is one. False: a frame refused a piece.
pub(crate) fn fill_gap<A: Archive, D: CacheDoor<A>, S: BlobSource<A>>(
    alloc: Global,
    door: &mut D,
    source: &mut S,
    table: &PartTable<A>,
    file: u32,
    base: u64,
    gap: Option<ByteRange>,
    setting: &Setting,
    report: &mut Report,
) -> Result<bool, FetchError>
    requires file { file < length table.now.files }
    requires held { (D.view door.old).hold.held ≡ true }
    requires gap { ((D.view door.old).hold.upto ≡ range_start gap) × ((D.view door.old).hold.gap_end ≡ range_end gap) }
    requires some { IfSome gap (λ g. (g.start < g.end) × (base + g.end ≤ file_length table.now file)) }
    requires place { (manifest_of (D.view door.old).hold.tag ≡ table.now.number)
        × (file_of (D.view door.old).hold.tag ≡ file)
        × (base ≡ part_of (D.view door.old).hold.tag * (D.view door.old).config.region) }
    ensures stays { D.stays door.old door.new }
    ensures hold { (D.view door.new).hold.gap_end ≤ (D.view door.new).hold.upto }
    ensures same_hold { SameHold (D.view door.old).hold (D.view door.new).hold }
    ensures fault { IsErrOf result FetchError.Fault → Rose (S.view source.old).faults (S.view source.new).faults }
    ensures turned { result ≡ Ok false → Rose (D.view door.old).work.turned_away (D.view door.new).work.turned_away }
    ensures partly { Partly (read_setting A.tells A.blobs table.now setting.now) (range_end gap - range_start gap)
        (lacks_memory result) report.old report.new (moment (S.view source.old) (D.view door.old))
        (moment (S.view source.new) (D.view door.new)) }
    ensures whole { result ≡ Ok true → Whole (read_setting A.tells A.blobs table.now setting.now)
        (range_end gap - range_start gap) report.old report.new (moment (S.view source.old) (D.view door.old))
        (moment (S.view source.new) (D.view door.new)) }
    ensures frame { result ≡ Ok false → Rose (D.view door.old).frame_faults (D.view door.new).frame_faults }
    ensures kept { SamePolicy (D.view door.old).state (D.view door.new).state }
    ensures stored { result ≡ Ok true → IsTrue A.tells → (s : State) → (D.view door.old).state ≡ Some s
        → (D.view door.new).state ≡ Some
        (gap_stored (read_setting A.tells A.blobs table.now setting.now) (D.view door.old).actor file base gap s) }
    ensures took { result ≡ Ok true → IsTrue A.tells → Took (S.view source.old).reads (S.view source.new).reads
        (slice_of (content_places A.blobs table.now.number file) (base + range_start gap)
        (range_end gap - range_start gap)) }
{
    match gap {
        Some(gap) => fill(alloc, door, source, table, file, base, gap, setting, report),
        None => Ok(true),
    }
}
