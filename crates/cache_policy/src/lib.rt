// Which region of the shared cache is given to which key, and which region is taken back next: the free list, the
// frequency lists and the leaving list.
#![tactic(auto)]

mod index;
mod laws;
mod lower;
mod order;
mod policy;
mod tally;

pub use laws::{candidates_left, free_region_leaves};
pub use policy::Policy;
pub use region_ranges::Config;
pub use tally::Tally4;
