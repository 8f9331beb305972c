//! Tests of searches and fetches over whole archives: the sample archive, and one that Lucene wrote.
#![tactic(auto)]

#[cfg(test)]
mod tests;
