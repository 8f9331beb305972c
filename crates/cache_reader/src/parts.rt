// The parts of a read, one after another.
ghost use Rattle.std.specs.Option.{ForSome};
ghost use Rattle.std.specs.Prelude.{◌≡◌, ◌<◌, ◌≤◌, ◌+◌, ◌-◌, ◌*◌, ◌/◌, min, IsTrue, OnOk, IsOk, length, take, drop};
ghost use Rattle.region_ranges.specs.Keys.{IsConfig};
ghost use Rattle.blob_parts.specs.Content.{content, slice_of};
ghost use Rattle.blob_parts.specs.Tables.{file_length};
ghost use Rattle.cache_door.specs.Doors.{nothing};
ghost use Rattle.cache_reader.specs.Reader.{IsCausedAt};
ghost use Rattle.directory_input.specs.Causes.{refusal};
ghost use Rattle.cache_reader.specs.Reports.{no_bytes};
ghost use Rattle.cache_reader.specs.Parts.{read_setting};
ghost use Rattle.cache_reader.specs.Going.{moment, is_memory};
ghost use Rattle.cache_reader.specs.Filling.{PartGoes};
ghost use Rattle.cache_reader.specs.Alone.{read_outcome, parts_of, Exactly, ByEntries, LastFits};

use crate::Report;
use crate::part::{Last, Setting, read_part};
use blob_parts::PartTable;
use cache_door::CacheDoor;
use cache_outside::{Archive, BlobSource};
use directory_input::BytesError;
use region_ranges::ByteRange;
use std::alloc::Global;

/// The part of the range from `at` up to `end` that begins there: up to the end of the aligned range.
fn part_from(at: u64, end: u64, range: u32) -> ByteRange
    requires some { (at < end) × (0 < range) }
    requires short { end ≤ 1099511623680 }
    ensures start { result.start ≡ at }
    ensures end { result.end ≡ min end (at / range * range + range) }
    ensures one { (result.start < result.end) × (result.end ≤ end) × (result.start / range ≡ (result.end - 1) / range) }
{
    let next = at / range as u64 * range as u64 + range as u64;
    ByteRange {
        start: at,
        end: end.min(next),
    }
}

/// Reads bytes of a file from place `at` on, part by part.
pub(crate) fn read_parts<A: Archive, D: CacheDoor<A>, S: BlobSource<A>>(
    alloc: Global,
    door: &mut D,
    source: &mut S,
    table: &PartTable<A>,
    file: u32,
    at: u64,
    setting: &Setting,
    last: &mut Option<Last>,
    out: &mut [u8],
    report: &mut Report,
) -> Result<(), BytesError>
    requires free { (D.view door.old).hold ≡ nothing }
    requires own { (D.view door.old).config ≡ setting.now.config }
    requires limits { IsConfig setting.now.config }
    requires below { setting.now.mount < 4096 }
    requires file { file < length table.now.files }
    requires inside { at + length out.old ≤ file_length table.now file }
    requires fresh { report.old ≡ no_bytes }
    requires reach { ForSome last.old (λ l. l.region < setting.now.config.regions) }
    requires fits { LastFits setting.now.mount setting.now.time last.old (D.view door.old).state }
    ensures stays { D.stays door.old door.new }
    ensures hold { (D.view door.new).hold ≡ nothing }
    ensures reach { ForSome last.new (λ l. l.region < setting.now.config.regions) }
    ensures cause { IsCausedAt (read_setting A.tells A.blobs table.now setting.now)
        (moment (S.view source.old) (D.view door.old)) (moment (S.view source.new) (D.view door.new)) (refusal result) }
    ensures bytes { IsTrue A.tells → IsTrue (D.view door.old).frames_tell
        → OnOk result (out.new ≡ slice_of (content A.blobs table.now.number file) at (length out.old)) }
    ensures part { PartGoes (read_setting A.tells A.blobs table.now setting.now) (report.new.hit + report.new.direct)
        (is_memory result) report.old report.new (moment (S.view source.old) (D.view door.old))
        (moment (S.view source.new) (D.view door.new)) }
    ensures fits { LastFits setting.now.mount setting.now.time last.new (D.view door.new).state }
    ensures exact { Exactly (read_setting A.tells A.blobs table.now setting.now)
        (read_outcome (read_setting A.tells A.blobs table.now setting.now) (D.view door.old).actor
        (record { file = file; at = at; size = length out.old })) (is_memory result) report.old report.new
        (moment (S.view source.old) (D.view door.old)) (moment (S.view source.new) (D.view door.new)) }
    ensures entries { ByEntries (read_setting A.tells A.blobs table.now setting.now) (D.view door.old).actor
        (parts_of setting.now.config.range (record { file = file; at = at; size = length out.old }))
        (is_memory result) report.old report.new (moment (S.view source.old) (D.view door.old))
        (moment (S.view source.new) (D.view door.new)) }
    ensures reached { report.new.hit + report.new.direct ≤ length out.old }
    ensures all { OnOk result (report.new.hit + report.new.direct ≡ length out.old) }
    ensures filled { IsTrue A.tells → IsTrue (D.view door.old).frames_tell → take (report.new.hit + report.new.direct)
        out.new ≡ slice_of (content A.blobs table.now.number file) at (report.new.hit + report.new.direct) }
    ensures untouched { drop (report.new.hit + report.new.direct + setting.now.config.range) out.new ≡ drop
        (report.new.hit + report.new.direct + setting.now.config.range) out.old }
    ensures empty { length out.old ≡ 0 → IsOk result × (door.new ≡ door.old) × (source.new ≡ source.old) }
{
    let _length = table.length(file);
    door.lesson();
    let end = at + out.len() as u64;
    let mut done = 0;
    while done < out.len() {
        let part = part_from(at + done as u64, end, setting.config.range);
        let upto = done + (part.end - part.start) as usize;
        match read_part(
            alloc,
            door,
            source,
            table,
            file,
            part,
            setting,
            last,
            &mut out[done..upto],
            report,
        ) {
            Ok(()) => done = upto,
            Err(e) => {
                door.lesson();
                return Err(e);
            }
        }
    }
    Ok(())
}
