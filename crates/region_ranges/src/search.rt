// Searches by halving in sorted ranges: how many stand before a place.
ghost use Rattle.std.specs.Prelude.{◌≡◌, ◌<◌, ◌≤◌, length, nat_lt, nat_le};
ghost use Rattle.std.specs.List.Sorted.{IsPartitionPoint};
ghost use Rattle.region_ranges.specs.Ranges.{IsSortedFrom};

use crate::ranges::ByteRange;

/// How many ranges end before the place.
pub(crate) fn ending_before(ranges: &[ByteRange], at: u64) -> usize
    requires { IsSortedFrom 0 ranges.now }
    ensures bound { result ≤ length ranges.now }
    ensures point { IsPartitionPoint (λ x. x.end < at) (λ x. at ≤ x.end) ranges.now result }
{
    ranges.partition_point(
        |x: &ByteRange| -> bool
            ensures { result ≡ nat_lt x.now.end at }
        { x.end < at },
    )
}

/// How many ranges end at the place or before it.
pub(crate) fn ending_by(ranges: &[ByteRange], at: u64) -> usize
    requires { IsSortedFrom 0 ranges.now }
    ensures bound { result ≤ length ranges.now }
    ensures point { IsPartitionPoint (λ x. x.end ≤ at) (λ x. at < x.end) ranges.now result }
{
    ranges.partition_point(
        |x: &ByteRange| -> bool
            ensures { result ≡ nat_le x.now.end at }
        { x.end <= at },
    )
}

/// How many ranges start before the place.
pub(crate) fn starting_before(ranges: &[ByteRange], at: u64) -> usize
    requires { IsSortedFrom 0 ranges.now }
    ensures bound { result ≤ length ranges.now }
    ensures point { IsPartitionPoint (λ x. x.start < at) (λ x. at ≤ x.start) ranges.now result }
{
    ranges.partition_point(
        |x: &ByteRange| -> bool
            ensures { result ≡ nat_lt x.now.start at }
        { x.start < at },
    )
}

/// How many ranges start at the place or before it.
pub(crate) fn starting_by(ranges: &[ByteRange], at: u64) -> usize
    requires { IsSortedFrom 0 ranges.now }
    ensures bound { result ≤ length ranges.now }
    ensures point { IsPartitionPoint (λ x. x.start ≤ at) (λ x. at < x.start) ranges.now result }
{
    ranges.partition_point(
        |x: &ByteRange| -> bool
            ensures { result ≡ nat_le x.now.start at }
        { x.start <= at },
    )
}
