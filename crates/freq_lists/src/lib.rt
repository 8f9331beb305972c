//! Lists of nodes, where each node is in one list at most: the frequency lists of the cache's policy.
#![tactic(auto)]

mod links;
mod lists;

pub use lists::FreqLists;
