// Changes of sorted ranges in place: a search by halving, and one move of what stands behind.
ghost use Rattle.std.specs.Prelude.{◌≡◌, ◌<◌, ◌≤◌, ◌+◌, ◌-◌, ◌&&◌, ◌||◌, ◌++◌, ◌∷◌, ℕ, not, take, drop};
ghost use Rattle.std.specs.Prelude.{length, slice_index_or, vec_len, vec_capacity};
ghost use Rattle.region_ranges.specs.Ranges.{IsSortedFrom, inside, has};

use crate::ranges::ByteRange;
use crate::search::{ending_before, ending_by, starting_before, starting_by};

/// Takes the places of a range in, which may join ranges.
pub(crate) fn unite(ranges: &mut Vec<ByteRange>, r: ByteRange)
    requires room { vec_len ranges.old < vec_capacity ranges.old }
    requires sorted { IsSortedFrom 0 ranges.old.items }
    requires some { r.start < r.end }
    ensures sorted { IsSortedFrom 0 ranges.new.items }
    ensures places { (i : ℕ) → has ranges.new.items i ≡ (inside r i || has ranges.old.items i) }
    ensures len { vec_len ranges.new ≤ vec_len ranges.old + 1 }
    ensures capacity { vec_capacity ranges.new ≡ vec_capacity ranges.old }
{
    let first = ending_before(ranges, r.start);
    let last = starting_by(ranges, r.end);
    if first < last {
        let met = span(ranges, first, last);
        let joined = ByteRange {
            start: r.start.min(met.start),
            end: r.end.max(met.end),
        };
        put_one(ranges, first, last, joined);
        return;
    }
    let Ok(()) = ranges.insert(first, r) else {
        unreachable!()
    };
}

/// Takes the places of a range out, which may cut a range in two.
pub(crate) fn subtract(ranges: &mut Vec<ByteRange>, r: ByteRange)
    requires room { vec_len ranges.old < vec_capacity ranges.old }
    requires sorted { IsSortedFrom 0 ranges.old.items }
    requires some { r.start < r.end }
    ensures sorted { IsSortedFrom 0 ranges.new.items }
    ensures places { (i : ℕ) → has ranges.new.items i ≡ (has ranges.old.items i && not (inside r i)) }
    ensures len { vec_len ranges.new ≤ vec_len ranges.old + 1 }
    ensures capacity { vec_capacity ranges.new ≡ vec_capacity ranges.old }
{
    let first = ending_by(ranges, r.start);
    let last = starting_before(ranges, r.end);
    if last <= first {
        return;
    }
    let met = span(ranges, first, last);
    let left = ByteRange {
        start: met.start,
        end: r.start,
    };
    let right = ByteRange {
        start: r.end,
        end: met.end,
    };
    if left.start < left.end {
        if right.start < right.end {
            put_two(ranges, first, last, left, right);
            return;
        }
        put_one(ranges, first, last, left);
        return;
    }
    if right.start < right.end {
        put_one(ranges, first, last, right);
        return;
    }
    take_out(ranges, first, last);
}

// From the start of the first to the end of the last of those from `first` up to `last`.
fn span(ranges: &[ByteRange], first: usize, last: usize) -> ByteRange
    requires some { first < last }
    requires bound { last ≤ length ranges.now }
    ensures start { (d : ByteRange) → result.start ≡ (slice_index_or ranges.now first d).start }
    ensures end { (d : ByteRange) → result.end ≡ (slice_index_or ranges.now (last - 1) d).end }
{
    ByteRange {
        start: ranges[first].start,
        end: ranges[last - 1].end,
    }
}

// Takes out those from `first` up to `last`.
fn take_out(ranges: &mut Vec<ByteRange>, first: usize, last: usize)
    requires some { first < last }
    requires bound { last ≤ length ranges.old.items }
    ensures items { ranges.new.items ≡ take first ranges.old.items ++ drop last ranges.old.items }
    ensures len { vec_len ranges.new ≤ vec_len ranges.old }
    ensures capacity { vec_capacity ranges.new ≡ vec_capacity ranges.old }
{
    ranges.drain(first..last);
}

// Puts one range in the place of those from `first` up to `last`.
fn put_one(ranges: &mut Vec<ByteRange>, first: usize, last: usize, r: ByteRange)
    requires some { first < last }
    requires bound { last ≤ length ranges.old.items }
    ensures items { ranges.new.items ≡ take first ranges.old.items ++ r ∷ drop last ranges.old.items }
    ensures len { vec_len ranges.new ≤ vec_len ranges.old }
    ensures capacity { vec_capacity ranges.new ≡ vec_capacity ranges.old }
{
    ranges[first] = r;
    ranges.drain(first + 1..last);
}

// Puts two ranges in the place of those from `first` up to `last`.
fn put_two(
    ranges: &mut Vec<ByteRange>,
    first: usize,
    last: usize,
    left: ByteRange,
    right: ByteRange,
)
    requires room { vec_len ranges.old < vec_capacity ranges.old }
    requires some { first < last }
    requires bound { last ≤ length ranges.old.items }
    ensures items { ranges.new.items ≡ take first ranges.old.items ++ left ∷ right ∷ drop last ranges.old.items }
    ensures len { vec_len ranges.new ≤ vec_len ranges.old + 1 }
    ensures capacity { vec_capacity ranges.new ≡ vec_capacity ranges.old }
{
    if first + 1 == last {
        ranges[first] = left;
        let Ok(()) = ranges.insert(last, right) else {
            unreachable!()
        };
        return;
    }
    ranges[last - 1] = right;
    put_one(ranges, first, last - 1, left);
}
