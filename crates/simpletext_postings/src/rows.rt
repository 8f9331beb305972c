// Rows of postings: which documents have which term of which field.
ghost use Rattle.std.specs.Prelude.{◌≡◌, ◌↔◌, IsTrue, true, ◌<◌, ◌++◌, ◌∷◌, [], length, OnOk, OnErr, slice_get, Some};
ghost use Rattle.simpletext_postings.specs.Rows.{are_rows};

use crate::Positions;
use byte_text::Text;
use std::alloc::{AllocError, Global};
use std::marker::Model;

/// One document of a term: the term stands in this field of this document, at these positions.
#[derive(Drop)]
pub struct Row {
    pub field: Text,
    pub term: Text,
    /// The document's number in its segment, from 0.
    pub doc: u32,
    /// Its positions, empty where none are known.
    pub positions: Positions,
}

/// The rows of a postings text, in order, for a number of documents. The rows of a field stand together, its terms
/// rise by bytes, and each term's documents rise and are below the number of documents. Each number is at most
/// 2,147,483,647, positions do not fall, and the line of each field and term, with its escapes, has at most
/// 16,777,216 bytes. Clauses see the number of documents and the list of rows.
#[derive(Drop)]
pub struct Rows {
    docs: u32,
    items: Vec<Row>,
}

impl Model for Rows {
    ghost use Rattle.std.specs.Prelude.{◌≡◌, true};
    ghost use Rattle.simpletext_postings.specs.Rows.{PostingsRows, are_rows};

    ghost Value = { PostingsRows };

    ghost view = { λ r. record { docs = r.docs; rows = r.items.items } };

    ghost invariant = { λ r. are_rows r.docs r.items.items ≡ true };
}

impl Rows {
    /// No rows yet, for a segment of `docs` documents; takes no memory.
    pub fn new(alloc: Global, docs: u32) -> Rows
        ensures docs { result.docs ≡ docs }
        ensures rows { result.rows ≡ [] }
    {
        Rows {
            docs,
            items: Vec::new(alloc),
        }
    }

    /// Puts one row behind the others, which is allowed there.
    pub fn push(&mut self, row: Row) -> Result<(), AllocError>
        requires { are_rows self.old.docs (self.old.rows ++ row ∷ []) ≡ true }
        ensures docs { self.new.docs ≡ self.old.docs }
        ensures ok { OnOk result (self.new.rows ≡ self.old.rows ++ row ∷ []) }
        ensures err { OnErr result (self.new.rows ≡ self.old.rows) }
    {
        self.items.push(row)?;
        Ok(())
    }

    /// How many rows there are.
    pub fn len(&self) -> usize
        ensures { result ≡ length self.now.rows }
    {
        self.items.len()
    }

    /// Whether there is none.
    pub fn is_empty(&self) -> bool
        ensures { IsTrue result ↔ (self.now.rows ≡ []) }
    {
        self.items.is_empty()
    }

    /// Lends the row at place `i`, from 0. What the type keeps is known of the whole list.
    pub fn get(&self, i: usize) -> &Row
        requires { i < length self.now.rows }
        ensures row { slice_get self.now.rows i ≡ Some result.now }
        ensures allowed { are_rows self.now.docs self.now.rows ≡ true }
    {
        &self.items[i]
    }
}
