//! Tests of archives that are made of a number.
#![tactic(auto)]

#[cfg(test)]
mod tests;
