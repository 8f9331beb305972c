//! What is asked of a door, and its answers.

use region_ranges::{ByteRange, RegionKey};

/// What an entry or a glance wants: some bytes of one region's part of a file.
#[derive(Clone, Copy, Debug, PartialEq, Eq)]
pub struct Want {
    /// The part of a file.
    pub key: RegionKey,
    /// How many bytes that part has: the region size, and fewer at the file's end.
    pub len: u32,
    /// The wanted bytes, by their places in the part. They are at least one, and lie in one aligned range.
    pub sub: ByteRange,
}

/// What an entry gives.
#[derive(Clone, Copy, Debug, PartialEq, Eq)]
pub enum Entered {
    /// The door holds this region, and is to fetch and store the gap, by places in the region's part of the file. Where
    /// there is none, the wanted bytes are present, or others fetch what is not.
    Held { region: u32, gap: Option<ByteRange> },
    /// No region is to be had for the key now.
    NoRoom,
    /// The mount was unmounted.
    Gone,
}

/// What a look at a region gives that is not held.
#[derive(Clone, Copy, Debug, PartialEq, Eq)]
pub enum Glance {
    /// The wanted bytes are copied.
    Copied,
    /// Somebody works in the region, as this word of it shows.
    Busy(u64),
    /// The region has another key, as this shows.
    Moved(u64),
    /// A wanted byte is not present.
    Absent,
    /// The frame failed, and counted it.
    FrameFault,
}
