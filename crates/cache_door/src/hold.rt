//! A hold: what an actor has while it reads or fills a region.

use region_ranges::ByteRange;
use sparse_tracker::OpenGap;

/// An actor's hold on a region.
#[derive(Clone, Copy, Debug, PartialEq, Eq)]
pub struct Hold {
    /// The region's number.
    pub region: u32,
    /// The packed key that was wanted.
    pub tag: u64,
    /// The number of the hold's ticket in the region's cell.
    pub ticket: u32,
    /// The wanted bytes, by their places in the region's part of the file.
    pub sub: ByteRange,
    /// The gap that the hold is to store. It is open where its present end is below its end.
    pub gap: OpenGap,
}
