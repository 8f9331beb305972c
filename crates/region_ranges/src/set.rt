//! A set of places, kept as a list of sorted ranges.
ghost use Rattle.std.specs.Prelude.{◌≡◌, ◌<◌, ◌≤◌, ◌-◌, ◌&&◌, ◌||◌, ℕ, [], not, true, false, OnOk, OnErr, IsOk, IfSome};
ghost use Rattle.std.specs.Prelude.{IfNone, Some, None, max, min, length, slice_index_or};
ghost use Rattle.region_ranges.specs.Ranges.{RangesView, IsSortedFrom, IsFirstRun, Covers, Misses, first_run, free_below, inside, has};

use crate::edit::{subtract, unite};
use crate::ranges::ByteRange;
use crate::search::starting_by;
use std::alloc::{AllocError, Global};
use std::marker::Model;

/// A set of places, as sorted ranges that are not empty and neither meet nor touch (Elasticsearch SparseFileTracker
/// keeps its ranges so), and the number `spare` of changes for which there is room.
/// A change finds its place by halving and moves what stands behind it once.
#[derive(Drop)]
pub struct RangeSet {
    ranges: Vec<ByteRange>,
    spare: u32,
}

impl Model for RangeSet {
    ghost use Rattle.std.specs.Prelude.{◌≤◌, ◌+◌, ℕ, vec_len, vec_capacity};
    ghost use Rattle.region_ranges.specs.Ranges.{RangesView, IsSortedFrom};

    ghost Value = { RangesView };

    ghost view = { λ s. record { ranges = s.ranges.items; spare = s.spare } };

    ghost invariant = { λ s. IsSortedFrom 0 s.ranges.items × (vec_len s.ranges + s.spare ≤ vec_capacity s.ranges) };
}

impl RangeSet {
    /// The empty set, with room for no change. It takes no memory.
    pub fn new(alloc: Global) -> RangeSet
        ensures { result ≡ record { ranges = []; spare = 0 } }
    {
        RangeSet {
            ranges: Vec::new(alloc),
            spare: 0,
        }
    }

    /// Makes room for so many changes, each of which then answers `Ok`: `spare` is at least `changes`.
    pub fn reserve_for(&mut self, changes: u32) -> Result<(), AllocError>
        ensures ranges { self.new.ranges ≡ self.old.ranges }
        ensures ok { OnOk result (self.new.spare ≡ max self.old.spare changes) }
        ensures err { OnErr result (self.new ≡ self.old) }
        ensures room { changes ≤ self.old.spare → IsOk result }
    {
        if self.spare < changes {
            self.ranges.reserve(changes as usize)?;
            self.spare = changes;
        }
        Ok(())
    }

    /// Takes the places of `r` into the set, and one from `spare`.
    /// It wants memory only where `spare` is 0.
    pub fn add(&mut self, r: ByteRange) -> Result<(), AllocError>
        requires { r.start ≤ r.end }
        ensures places { OnOk result ((i : ℕ) → has self.new.ranges i ≡ (inside r i || has self.old.ranges i)) }
        ensures spare { OnOk result (self.new.spare ≡ self.old.spare - 1) }
        ensures err { OnErr result (self.new ≡ self.old) }
        ensures room { 0 < self.old.spare → IsOk result }
    {
        self.reserve_for(1)?;
        self.spare -= 1;
        if r.start < r.end {
            unite(&mut self.ranges, r);
        }
        Ok(())
    }

    /// Takes the places of `r` out of the set, and one from `spare`.
    /// It wants memory only where `spare` is 0.
    pub fn remove(&mut self, r: ByteRange) -> Result<(), AllocError>
        requires { r.start ≤ r.end }
        ensures places { OnOk result ((i : ℕ) → has self.new.ranges i ≡ (has self.old.ranges i && not (inside r i))) }
        ensures spare { OnOk result (self.new.spare ≡ self.old.spare - 1) }
        ensures err { OnErr result (self.new ≡ self.old) }
        ensures room { 0 < self.old.spare → IsOk result }
    {
        self.reserve_for(1)?;
        self.spare -= 1;
        if r.start < r.end {
            subtract(&mut self.ranges, r);
        }
        Ok(())
    }

    /// Takes every place out. It takes no memory, and `spare` stays.
    pub fn clear(&mut self)
        ensures { self.new ≡ record { ranges = []; spare = self.old.spare } }
    {
        self.ranges.clear();
    }

    /// Makes room for two changes: `spare` is at least 2.
    pub fn reserve(&mut self) -> Result<(), AllocError>
        ensures ranges { self.new.ranges ≡ self.old.ranges }
        ensures ok { OnOk result (self.new.spare ≡ max self.old.spare 2) }
        ensures err { OnErr result (self.new ≡ self.old) }
        ensures room { 2 ≤ self.old.spare → IsOk result }
    {
        self.reserve_for(2)
    }

    /// Whether every place of `r` is in the set, which is so of an empty range.
    pub fn covers(&self, r: ByteRange) -> bool
        ensures yes { result ≡ true → Covers self.now.ranges r }
        ensures no { result ≡ false → Misses self.now.ranges r }
    {
        if r.end <= r.start {
            return true;
        }
        reaches(&self.ranges, r)
    }

    /// The ranges are sorted, and neither meet nor touch.
    pub fn lesson(&self)
        ensures sorted { IsSortedFrom 0 self.now.ranges }
    {
        let _ = &self.ranges;
    }

    /// The greatest run in `within` without a member that contains the first such place at or after `from`.
    /// It may begin before `from`. None comes exactly where there is no such place.
    #[tactic(auto, using(crate::proofs::Runs::is_run))]
    pub fn first_absent_run(&self, within: ByteRange, from: u64) -> Option<ByteRange>
        ensures run { result ≡ first_run (free_below self.now.ranges within.end) within.start from }
        ensures some { IfSome result (IsFirstRun (has self.now.ranges) within from) }
        ensures none { IfNone result
            ((i : ℕ) → from ≤ i → within.start ≤ i → i < within.end → has self.now.ranges i ≡ true) }
    {
        first_free(&self.ranges, within, from)
    }
}

// whether one of the ranges holds all places of `r`
fn reaches(ranges: &[ByteRange], r: ByteRange) -> bool
    requires sorted { IsSortedFrom 0 ranges.now }
    requires some { r.start < r.end }
    ensures yes { result ≡ true → Covers ranges.now r }
    ensures no { result ≡ false → Misses ranges.now r }
{
    let next = starting_by(ranges, r.start);
    r.end <= end_of(ranges, next, 0)
}

// the run from `start` up to `next`, cut off at `end`, where its place `at` is before `end`
fn run(start: u64, at: u64, next: u64, end: u64) -> Option<ByteRange>
    ensures none { end ≤ at → result ≡ None }
    ensures some { at < end → result ≡ Some (record { start = start; end = min next end }) }
{
    if end <= at {
        return None;
    }
    Some(ByteRange {
        start,
        end: next.min(end),
    })
}

// where the first `next` ranges end, or `low` where that is behind it
fn end_of(ranges: &[ByteRange], next: usize, low: u64) -> u64
    requires { next ≤ length ranges.now }
    ensures none { next ≡ 0 → result ≡ low }
    ensures some { (d : ByteRange) → 0 < next → result ≡ max low (slice_index_or ranges.now (next - 1) d).end }
{
    if next == 0 {
        return low;
    }
    low.max(ranges[next - 1].end)
}

// the answer of `first_absent_run`
fn first_free(ranges: &[ByteRange], within: ByteRange, from: u64) -> Option<ByteRange>
    requires { IsSortedFrom 0 ranges.now }
    ensures some { IfSome result (IsFirstRun (has ranges.now) within from) }
    ensures none { IfNone result ((i : ℕ) → from ≤ i → within.start ≤ i → i < within.end → has ranges.now i ≡ true) }
{
    let at = from.max(within.start);
    let next = starting_by(ranges, at);
    let start = end_of(ranges, next, within.start);
    let place = at.max(start);
    if next < ranges.len() {
        return run(start, place, ranges[next].start, within.end);
    }
    run(start, place, within.end, within.end)
}
