//! Tests of names, manifests, sources, texts, sinks, clocks and frames, over the public calls of their crates.
#![tactic(auto)]

#[cfg(test)]
mod folders;
#[cfg(test)]
mod frames;
#[cfg(test)]
mod manifests;
#[cfg(test)]
mod sources;
#[cfg(test)]
mod strange_files;
#[cfg(test)]
mod streams;
#[cfg(test)]
mod system;
