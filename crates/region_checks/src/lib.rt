//! Tests of the crates that the cache's cells and its policy stand on, over their public calls.
#![tactic(auto)]

#[cfg(test)]
mod draws;
#[cfg(test)]
mod frequency_lists;
#[cfg(test)]
mod key_tables;
#[cfg(test)]
mod policies;
#[cfg(test)]
mod ranges;
#[cfg(test)]
mod trackers;
