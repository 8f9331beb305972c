//! The run of a script by several workers, through one cache that they share.
#![tactic(auto)]

mod block;
mod deal;
mod gate;
mod gather;
mod job;
mod lines;
mod mounting;
mod run;

pub use block::run_block;
pub use gate::{Gate, OpenGate};
pub use run::run_shared;
