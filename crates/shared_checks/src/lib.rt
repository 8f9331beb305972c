//! Tests of blocks and scripts that are run by several workers, over the sample archive in memory.
#![tactic(auto)]

#[cfg(test)]
mod tests;
