//! Tests of the crates that read texts: worked texts in memory, their answers, and what their refusals name.
#![tactic(auto)]

#[cfg(test)]
mod line_tests;
#[cfg(test)]
mod posting_tests;
#[cfg(test)]
mod samples;
#[cfg(test)]
mod search_tests;
#[cfg(test)]
mod stored_tests;
