//! Tests of the cache between threads, over its public calls.
#![tactic(auto)]

#[cfg(test)]
mod copiers;
#[cfg(test)]
mod passes;
#[cfg(test)]
mod samples;
#[cfg(test)]
mod workers;
