//! Tests of cells, doors and readers of a cache, over their public calls.
#![tactic(auto)]

#[cfg(test)]
mod another_length;
#[cfg(test)]
mod cells;
#[cfg(test)]
mod doors;
#[cfg(test)]
mod faulty;
#[cfg(test)]
mod passes;
#[cfg(test)]
mod reads;
#[cfg(test)]
mod samples;
#[cfg(test)]
mod steps;
