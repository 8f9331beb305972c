// A document of a term.
use crate::Positions;

/// A document that has a term, and where it has it.
#[derive(Drop)]
pub struct Posting {
    /// The document's number in its segment, from 0.
    pub doc: u32,
    /// The term's positions in it, empty where none are known.
    pub positions: Positions,
}
