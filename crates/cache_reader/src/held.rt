// A part whose region is held: filled, copied, and given back; or read past the cache.
ghost use Rattle.std.specs.Prelude.{◌≡◌, ◌≢◌, ◌<◌, ◌≤◌, ◌+◌, ◌-◌, ◌*◌, ℕ, true, false, Some, Ok, Err, IsTrue};
ghost use Rattle.std.specs.Prelude.{OnOk, IsErr, IsErrOf, IfSome, length};
ghost use Rattle.region_cell.specs.Cells.{region_bytes};
ghost use Rattle.byte_text.specs.Counts.{Rose};
ghost use Rattle.blob_parts.specs.Content.{content, content_places, slice_of};
ghost use Rattle.blob_parts.specs.Tables.{file_length};
ghost use Rattle.blob_parts.specs.Takes.{SourceLater, Takes, Took};
ghost use Rattle.region_ranges.specs.Keys.{manifest_of};
ghost use Rattle.region_cell.specs.Cells.{file_of, part_of};
ghost use Rattle.cache_door.specs.Doors.{AsHeld, Becomes, leaving, range_start, range_end, nothing};
ghost use Rattle.cache_door.specs.Machine.{State};
ghost use Rattle.cache_reader.specs.Reports.{no_bytes, direct_bytes, Counted};
ghost use Rattle.cache_reader.specs.Bounds.{Worked};
ghost use Rattle.cache_reader.specs.Parts.{read_setting};
ghost use Rattle.cache_reader.specs.Going.{moment, is_memory};
ghost use Rattle.cache_reader.specs.Filling.{lacks_memory, Partly, Whole, PartGoes, is_answered, given};
ghost use Rattle.cache_reader.specs.Stored.{gap_stored};
ghost use Rattle.cache_reader.specs.Holds.{Unfailed};
ghost use Rattle.cache_reader.specs.Alone.{HeldExactly, SamePolicy, Copies};

use crate::Report;
use crate::filling::fill_gap;
use crate::part::Setting;
use blob_parts::{FetchError, PartTable, read_into};
use cache_door::{CacheDoor, Taken};
use cache_outside::{Archive, BlobSource};
use directory_input::BytesError;
use region_ranges::ByteRange;
use std::alloc::Global;

/// Copies what is held, and gives the hold back. False: the door turned the caller away.
fn copy_held<A: Archive, D: CacheDoor<A>>(door: &mut D, out: &mut [u8]) -> bool
    requires held { (D.view door.old).hold.held ≡ true }
    requires closed { (D.view door.old).hold.gap_end ≤ (D.view door.old).hold.upto }
    requires len { length out.old ≡ (D.view door.old).hold.sub.end - (D.view door.old).hold.sub.start }
    ensures stays { D.stays door.old door.new }
    ensures hold { (D.view door.new).hold ≡ nothing }
    ensures bytes { IsTrue result → AsHeld A.tells (content A.blobs) (D.view door.old) out.new }
    ensures unmounted { (D.view door.new).unmounted ≡ (D.view door.old).unmounted }
    ensures work { Worked no_bytes (D.view door.old).work (D.view door.new).work }
    ensures turned { result ≡ false → Rose (D.view door.old).work.turned_away (D.view door.new).work.turned_away }
    ensures left { Becomes (D.view door.old) (D.view door.new) leaving }
    ensures copies { IfSome (D.view door.old).state
        (Copies (D.view door.old).actor (D.view door.old).frame_faults (D.view door.new).frame_faults result) }
{
    let taken = door.take_bytes(out);
    door.leave();
    match taken {
        Taken::Copied => true,
        Taken::Waiting => false,
        Taken::Failed => false,
        Taken::FrameFault => false,
    }
}

/// Reads the part that is held: fills the gap, copies the bytes and gives the hold back. False: the door turned the
/// caller away.
fn read_held<A: Archive, D: CacheDoor<A>, S: BlobSource<A>>(
    alloc: Global,
    door: &mut D,
    source: &mut S,
    table: &PartTable<A>,
    file: u32,
    base: u64,
    gap: Option<ByteRange>,
    setting: &Setting,
    out: &mut [u8],
    report: &mut Report,
) -> Result<bool, FetchError>
    requires file { file < length table.now.files }
    requires held { (D.view door.old).hold.held ≡ true }
    requires gap { ((D.view door.old).hold.upto ≡ range_start gap) × ((D.view door.old).hold.gap_end ≡ range_end gap) }
    requires some { IfSome gap (λ g. (g.start < g.end) × (base + g.end ≤ file_length table.now file)) }
    requires place { (manifest_of (D.view door.old).hold.tag ≡ table.now.number)
        × (file_of (D.view door.old).hold.tag ≡ file)
        × (base ≡ part_of (D.view door.old).hold.tag * (D.view door.old).config.region) }
    requires len { length out.old ≡ (D.view door.old).hold.sub.end - (D.view door.old).hold.sub.start }
    ensures stays { D.stays door.old door.new }
    ensures hold { (D.view door.new).hold ≡ nothing }
    ensures bytes { result ≡ Ok true → AsHeld A.tells (content A.blobs) (D.view door.old) out.new }
    ensures fault { IsErrOf result FetchError.Fault → Rose (S.view source.old).faults (S.view source.new).faults }
    ensures turned { result ≡ Ok false → Rose (D.view door.old).work.turned_away (D.view door.new).work.turned_away }
    ensures partly { Partly (read_setting A.tells A.blobs table.now setting.now) (range_end gap - range_start gap)
        (lacks_memory result) report.old report.new (moment (S.view source.old) (D.view door.old))
        (moment (S.view source.new) (D.view door.new)) }
    ensures whole { result ≡ Ok true → Whole (read_setting A.tells A.blobs table.now setting.now)
        (range_end gap - range_start gap) report.old report.new (moment (S.view source.old) (D.view door.old))
        (moment (S.view source.new) (D.view door.new)) }
    ensures kept { SamePolicy (D.view door.old).state (D.view door.new).state }
    ensures stored { result ≡ Ok true → IsTrue A.tells → (s : State) → (D.view door.old).state ≡ Some s
        → (D.view door.new).state ≡ Some (leaving (D.view door.old).actor
        (gap_stored (read_setting A.tells A.blobs table.now setting.now) (D.view door.old).actor file base gap s)) }
    ensures took { result ≡ Ok true → IsTrue A.tells → Took (S.view source.old).reads (S.view source.new).reads
        (slice_of (content_places A.blobs table.now.number file) (base + range_start gap)
        (range_end gap - range_start gap)) }
    ensures copies { IsTrue A.tells → (s : State) → (D.view door.old).state ≡ Some s → length s.holds ≡ 1
        → Unfailed (D.view door.old).actor s → (Rose (D.view door.old).frame_faults (D.view door.new).frame_faults → ⊥)
        → result ≢ Ok false }
{
    match fill_gap(alloc, door, source, table, file, base, gap, setting, report) {
        Ok(true) => {
            door.lesson();
            Ok(copy_held(door, out))
        }
        Ok(false) => {
            door.leave();
            Ok(false)
        }
        Err(e) => {
            door.leave(); // a refused read holds nothing
            Err(e)
        }
    }
}

/// Reads bytes of a file from the source, past the cache.
pub(crate) fn direct<A: Archive, S: BlobSource<A>>(
    source: &mut S,
    table: &PartTable<A>,
    file: u32,
    at: u64,
    out: &mut [u8],
    report: &mut Report,
) -> Result<(), BytesError>
    requires file { file < length table.now.files }
    requires inside { at + length out.old ≤ file_length table.now file }
    ensures bytes { IsTrue A.tells
        → OnOk result (out.new ≡ slice_of (content A.blobs table.now.number file) at (length out.old)) }
    ensures source { SourceLater (S.view source.old) (S.view source.new) (IsErrOf result BytesError.Fault) }
    ensures present { (m : ℕ) → result ≢ Err (BytesError.Gone m) }
    ensures report { OnOk result (Counted report.old report.new (direct_bytes (length out.old))) }
    ensures unreported { IsErr result → report.new ≡ report.old }
    ensures reads { IsTrue A.tells → Takes (S.view source.old).reads (S.view source.new).reads
        (slice_of (content_places A.blobs table.now.number file) at (length out.old)) result }
{
    match read_into(source, table, file, at, out) {
        Ok(()) => {
            report.read_past(out.len());
            Ok(())
        }
        Err(FetchError::Fault) => Err(BytesError::Fault),
        Err(FetchError::NoMemory) => Err(BytesError::NoMemory),
    }
}

/// Reads the part that is held, through the door (true) or, where the door turns the caller away, past the cache.
/// `base` is the place of the region in the file.
pub(crate) fn read_entered<A: Archive, D: CacheDoor<A>, S: BlobSource<A>>(
    alloc: Global,
    door: &mut D,
    source: &mut S,
    table: &PartTable<A>,
    file: u32,
    base: u64,
    at: u64,
    gap: Option<ByteRange>,
    setting: &Setting,
    out: &mut [u8],
    report: &mut Report,
) -> Result<bool, BytesError>
    requires file { file < length table.now.files }
    requires held { (D.view door.old).hold.held ≡ true }
    requires gap { ((D.view door.old).hold.upto ≡ range_start gap) × ((D.view door.old).hold.gap_end ≡ range_end gap) }
    requires some { IfSome gap (λ g. (g.start < g.end) × (base + g.end ≤ file_length table.now file)) }
    requires place { (manifest_of (D.view door.old).hold.tag ≡ table.now.number)
        × (file_of (D.view door.old).hold.tag ≡ file)
        × (base ≡ part_of (D.view door.old).hold.tag * (D.view door.old).config.region) }
    requires small { range_end gap - range_start gap ≤ setting.now.config.range }
    requires part { (length out.old ≡ (D.view door.old).hold.sub.end - (D.view door.old).hold.sub.start)
        × ((D.view door.old).hold.sub.start < (D.view door.old).hold.sub.end)
        × ((D.view door.old).hold.sub.end ≤ (D.view door.old).config.region)
        × (length out.old ≤ setting.now.config.range) }
    requires at { at ≡ base + (D.view door.old).hold.sub.start }
    requires inside { base + (D.view door.old).hold.sub.end ≤ file_length table.now file }
    ensures stays { D.stays door.old door.new }
    ensures hold { (D.view door.new).hold ≡ nothing }
    ensures cause { IsErrOf result BytesError.Fault → Rose (S.view source.old).faults (S.view source.new).faults }
    ensures present { (m : ℕ) → result ≢ Err (BytesError.Gone m) }
    ensures bytes { IsTrue A.tells → IsTrue (D.view door.old).frames_tell
        → OnOk result (out.new ≡ slice_of (content A.blobs table.now.number file) at (length out.old)) }
    ensures part { PartGoes (read_setting A.tells A.blobs table.now setting.now)
        (given (is_answered result) (length out.old)) (is_memory result) report.old report.new
        (moment (S.view source.old) (D.view door.old)) (moment (S.view source.new) (D.view door.new)) }
    ensures kept { SamePolicy (D.view door.old).state (D.view door.new).state }
    ensures exact { HeldExactly (read_setting A.tells A.blobs table.now setting.now) (D.view door.old).actor file base
        gap (is_memory result) report.old report.new (moment (S.view source.old) (D.view door.old))
        (moment (S.view source.new) (D.view door.new)) }
{
    match read_held(
        alloc, door, source, table, file, base, gap, setting, out, report,
    ) {
        Ok(true) => {
            report.copy(out.len());
            Ok(true)
        }
        Ok(false) => match direct(source, table, file, at, out, report) {
            Ok(()) => Ok(false),
            Err(e) => Err(e),
        },
        Err(FetchError::Fault) => Err(BytesError::Fault),
        Err(FetchError::NoMemory) => Err(BytesError::NoMemory),
    }
}
