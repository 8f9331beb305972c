//! Tests of sets of documents and of queries, over their public calls.
#![tactic(auto)]

#[cfg(test)]
mod tests;
