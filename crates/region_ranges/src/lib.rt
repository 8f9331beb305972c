//! Keys of regions, and sets of places as sorted ranges.
#![tactic(auto)]

mod edit;
mod keys;
mod ranges;
mod search;
mod set;

pub use keys::{Config, FREE_TAG, RegionKey, tags_tell_keys};
pub use ranges::{ByteRange, aligned, region_len, region_of};
pub use set::RangeSet;
