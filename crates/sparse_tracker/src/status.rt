//! What a tracker answers.

use region_ranges::ByteRange;

/// A gap that a claim opened: whoever claimed it fetches its bytes, in rising order.
#[derive(Clone, Copy, Debug, PartialEq, Eq)]
pub struct Gap {
    /// The least number that no open gap had.
    pub id: u32,
    /// The bytes to fetch.
    pub range: ByteRange,
}

/// The answer of `Tracker::wait_for_range`.
#[derive(Clone, Copy, Debug, PartialEq, Eq)]
pub struct Claim {
    /// The gap that the caller has to fetch, or none where no wanted byte is absent.
    pub gap: Option<Gap>,
    /// The number of the ticket on the wanted bytes.
    pub ticket: u32,
}

/// How far the bytes are that a ticket waits for.
#[derive(Clone, Copy, Debug, PartialEq, Eq)]
pub enum Status {
    /// All are present.
    Ready,
    /// Some are not present, and none is absent.
    Waiting,
    /// Some are absent, since a gap failed that the ticket waited for.
    Failed,
    /// Some are absent, and no gap that the ticket waited for failed.
    Open,
}
