// Sets of documents, as one bit a document, and counts of how many sets hold each document.
#![tactic(auto)]

mod bits;
mod operations;
mod places;
mod tally;
mod words;

pub use bits::{DocBits, bits_cross};
pub use places::Places;
pub use tally::{Tally, tallies_cross};
