//! The run of a script of mounts, searches, fetches and reads.
#![tactic(auto)]

mod alone;
mod answer;
mod block;
mod core_lines;
mod door_lines;
mod ended;
mod line;
mod mounting;
mod shelves;
mod stats;
mod sums;
mod written;

pub use alone::{has_mark, run_alone, wants_memory};
pub use answer::Answer;
pub use block::forget;
pub use cache_reader::Report;
pub use ended::Ended;
pub use line::run_line;
pub use mount_script::{Command, Reply};
pub use mounting::mount_line;
pub use shelves::Shelves;
pub use sums::Sums;
pub use written::{write_all, write_block};
