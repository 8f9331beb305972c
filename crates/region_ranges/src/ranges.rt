//! Ranges of places, and how a file is cut into regions and a region into ranges.
ghost use Rattle.std.specs.Prelude.{◌≡◌, ◌⊎◌, ◌<◌, ◌≤◌, ◌+◌, ◌-◌, ◌*◌, ◌/◌, ◌%◌, ℕ, min};
ghost use Rattle.region_ranges.specs.Ranges.{aligned};

/// The places from `start` up to `end`, and not `end` itself. `start` is at most `end`.
#[derive(Clone, Copy, Debug, PartialEq, Eq)]
pub struct ByteRange {
    pub start: u64,
    pub end: u64,
}

/// The number of the region, of `size` bytes each, that holds the byte `at` of a file.
pub fn region_of(at: u64, size: u32) -> u64
    requires { 0 < size }
    ensures value { result ≡ at / size }
    ensures inside { (result * size ≤ at) × (at < result * size + size) }
{
    at / size as u64
}

/// How many bytes of a file of `length` bytes are in its region number `region`: `size`, and fewer in the last one.
pub fn region_len(length: u64, region: u64, size: u32) -> u32
    requires { region * size < length }
    ensures { result ≡ min size (length - region * size) }
{
    let left = length - region * size as u64;
    if left < size as u64 {
        left as u32
    } else {
        size
    }
}

/// The range of `range` bytes, or the shorter last one, that holds the byte `at` of `len` bytes.
pub fn aligned(at: u32, range: u32, len: u32) -> ByteRange
    requires place { at < len }
    requires some { 0 < range }
    ensures value { result ≡ aligned at range len }
    ensures start { result.start % range ≡ 0 }
    ensures inside { (result.start ≤ at) × (at < result.end) × (result.end ≤ len) }
    ensures end { (result.end ≡ result.start + range) ⊎ (result.end ≡ len) }
{
    let start = at / range * range;
    let end = if len - start < range {
        len
    } else {
        start + range
    };
    ByteRange {
        start: start as u64,
        end: end as u64,
    }
}
