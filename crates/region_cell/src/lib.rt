//! The cell of one region of the cache: whose bytes it holds, which of them are present, and the frame with the bytes.
#![tactic(auto)]

mod cell;
mod laws;
mod taken;

pub use cell::{RegionCell, cell_crosses};
pub use laws::{filled_stays, len_stays, ranged_stays};
pub use taken::Taken;
