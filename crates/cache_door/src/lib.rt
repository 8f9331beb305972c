//! One actor's way into a cache of regions.
#![tactic(auto)]

mod answers;
mod cache;
mod cells;
mod choice;
mod claims;
mod core_door;
mod door;
mod hold;
mod laws;
mod work;

pub use answers::{Entered, Glance, Want};
pub use cache::Core;
pub use claims::{claim, look};
pub use core_door::{CoreDoor, core_crosses};
pub use door::CacheDoor;
pub use hold::Hold;
pub use laws::{claims_absent, gap_kept, never_waits, new_claims_absent, one_owner, present_kept};
pub use region_cell::Taken;
pub use work::Work;
