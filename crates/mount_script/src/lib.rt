// The script of a run: its lines and blocks, and the replies to its lines with their texts.
#![tactic(auto)]

mod blocks;
mod command;
mod commands;
mod error;
mod fields;
mod reply;
mod script;
mod shown;
mod text;
mod words;

pub use byte_text::{Name, Text};
pub use command::{Command, Line};
pub use error::ScriptError;
pub use fields::Fields;
pub use reply::Reply;
pub use script::Script;
pub use shown::Shown;
