//! Tests of the roster of a run, over sources in memory.
#![tactic(auto)]

#[cfg(test)]
mod tests;
