//! Tests of scripts that are run by one worker, over the sample archive in memory.
#![tactic(auto)]

#[cfg(test)]
mod tests;
