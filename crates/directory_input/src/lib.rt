// The bytes of numbered files, whatever gives them, and inputs: windows on one file, with a position.
#![tactic(auto)]

mod files;
mod input;
mod memory;

pub use files::{BytesError, FileBytes};
pub use input::{Input, InputError};
pub use memory::MemBytes;
