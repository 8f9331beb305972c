// Frames for the bytes of a cache's regions, and their makers.
#![tactic(auto)]

mod memory;

pub use memory::{MemFrame, MemFrames};
