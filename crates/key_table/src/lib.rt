//! A fixed table from keys to regions, open addressed with linear probing: the key index of the cache's policy.
#![tactic(auto)]

mod gap;
mod places;
mod table;

pub use table::KeyTable;
