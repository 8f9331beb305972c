//! Reads of a mount's files through a door into the cache.
#![tactic(auto)]

mod filling;
mod held;
mod laws;
mod part;
mod parts;
mod reader;
mod report;

pub use laws::{acts_go_on, files_once, mounts_fit, mounts_once, takes_once};
pub use reader::{Reader, Seen};
pub use report::Report;
