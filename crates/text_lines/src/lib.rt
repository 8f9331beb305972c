// The lines of a text file, after Lucene SimpleText: a newline ends a line, and a backslash takes the next byte as
// it is.
#![tactic(auto)]

mod errors;
mod escapes;
mod reader;
mod steps;
mod words;

pub use errors::TextError;
pub use escapes::{escape, escape_is_undone, unescape};
pub use reader::{Line, LineError, LineReader};
pub use words::{is_checksum, number};
