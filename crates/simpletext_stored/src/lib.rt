// The stored fields and the live documents of a segment, read from texts after Lucene SimpleText.
#![tactic(auto)]

mod document;
mod error;
mod field;
mod form;
mod index;
mod live_form;
mod live_state;
mod live_text;
mod reading;
mod state;
mod words;

pub use error::StoredError;
pub use field::{Kind, StoredField};
pub use index::StoredIndex;
pub use live_text::live;
pub use text_lines::TextError;
