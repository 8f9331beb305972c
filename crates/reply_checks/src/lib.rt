//! Tests of the replies to commands on a mounted shard, over the sample archive and over small ones that are refused.
#![tactic(auto)]

#[cfg(test)]
mod tests;
