/// The counters of a policy, each of which stops at the greatest u64, and the number of mapped regions.
#[derive(Clone, Copy, Debug, PartialEq, Eq)]
pub struct Tally4 {
    /// how often a region was unmapped for another key
    pub evictions: u64,
    /// how often a frequency rose
    pub promotions: u64,
    /// how often a frequency fell
    pub demotions: u64,
    /// how many regions are mapped now
    pub listed: u32,
}
