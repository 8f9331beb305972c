//! The mounts of a run, each under its name.
#![tactic(auto)]

mod roster;

pub use roster::{Mounted, Roster, RosterError};
