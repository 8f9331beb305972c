//! What an actor does with one region's cell: a claim for a new hold, and a look without one.

ghost use Rattle.std.specs.Prelude.{◌≡◌, ◌<◌, ◌-◌, ◌/◌, IfSome, length};
ghost use Rattle.blob_parts.specs.Content.{content};
ghost use Rattle.region_ranges.specs.Keys.{IsKey};
ghost use Rattle.region_cell.specs.Cells.{LiesInRange, IsGood, claim_run, claimed, len_of, FrameOnly, Faulted, CellBytes, RangeContent};
ghost use Rattle.cache_door.specs.Machine.{hold_on, no_gap, look_at};
ghost use Rattle.cache_door.specs.declared.answers.Glance.TheVariants as glance;
ghost use Rattle.cache_door.specs.Claims.{gap_opened, IsGap};
ghost use Rattle.cache_door.specs.Doors.{CopyOrFault};

use crate::answers::{Glance, Want};
use crate::hold::Hold;
use cache_outside::{Archive, Frame, FrameFault};
use region_cell::RegionCell;
use region_ranges::{ByteRange, FREE_TAG};
use sparse_tracker::{Gap, OpenGap, claim_places};

// A gap that is not open.
pub fn closed() -> OpenGap
    ensures { result ≡ no_gap }
{
    OpenGap {
        id: 0,
        upto: 0,
        end: 0,
    }
}

// The gap of a new hold: open where the claim opened one.
fn open(gap: Option<Gap>) -> OpenGap
    ensures { result ≡ gap_opened gap }
{
    match gap {
        None => closed(),
        Some(gap) => OpenGap {
            id: gap.id,
            upto: gap.range.start,
            end: gap.range.end,
        },
    }
}

/// Claims what is wanted in the region's cell, which has room for one more claim: the hold, and the gap or none.
pub fn claim<A: Archive, F: Frame>(
    cell: &mut RegionCell<A, F>,
    region: u32,
    want: &Want,
) -> (Hold, Option<ByteRange>)
    requires key { IsKey want.now.key }
    requires lies { LiesInRange want.now.sub cell.old.metadata }
    requires room { 0 < cell.old.spare }
    ensures cell { cell.new ≡ claimed want.now.sub cell.old }
    ensures hold { result.0 ≡ hold_on cell.old.metadata.range region want.now cell.old.metadata.region }
    ensures gap { result.1 ≡ claim_run cell.old.metadata.range want.now.sub cell.old.metadata.region }
    ensures inside { IfSome result.1 (IsGap cell.old.metadata.range want.now.sub (len_of cell.old.metadata.region)) }
    ensures good { IsGood A.tells (content A.blobs) cell.new }
{
    claim_places();
    let Ok(claim) = cell.claim(want.sub) else {
        unreachable!()
    };
    cell.lesson();
    let hold = Hold {
        region,
        tag: want.key.pack(),
        ticket: claim.ticket,
        sub: want.sub,
        gap: open(claim.gap),
    };
    (hold, claim.gap.map(|gap| gap.range))
}

// The tag of the cell's key, or the free tag.
fn tag<A: Archive, F: Frame>(cell: &RegionCell<A, F>) -> u64
    ensures { result ≡ cell.now.metadata.region.tag }
{
    match cell.key() {
        Some(key) => key.pack(),
        None => FREE_TAG,
    }
}

/// Copies the wanted bytes into `out`, if the cell is of the wanted key and has them all.
pub fn look<A: Archive, F: Frame>(
    cell: &mut RegionCell<A, F>,
    want: &Want,
    out: &mut [u8],
) -> Glance
    requires key { IsKey want.now.key }
    requires some { want.now.sub.start < want.now.sub.end }
    requires one { want.now.sub.start / cell.old.metadata.range ≡ (want.now.sub.end - 1) / cell.old.metadata.range }
    requires len { length out.old ≡ want.now.sub.end - want.now.sub.start }
    ensures same { FrameOnly cell.old cell.new }
    ensures answer { CopyOrFault glance.Copied glance.FrameFault (look_at want.now cell.old.metadata.region) result }
    ensures fault { result ≡ glance.FrameFault → Faulted cell.old.metadata.frame cell.new.metadata.frame }
    ensures bytes { result ≡ glance.Copied → CellBytes cell.old want.now.sub.start want.now.sub.end out.new }
    ensures content { result ≡ glance.Copied → RangeContent A.tells (content A.blobs) cell.old want.now.sub out.new }
{
    let tag = tag(cell);
    if tag != want.key.pack() {
        return Glance::Moved(tag);
    }
    if want.sub.end > cell.len() as u64 {
        return Glance::Absent;
    }
    match cell.peek(want.sub, out) {
        None => Glance::Absent,
        Some(Ok(())) => Glance::Copied,
        Some(Err(FrameFault)) => Glance::FrameFault,
    }
}
