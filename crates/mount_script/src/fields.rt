// The stored fields that a reply gives.
ghost use Rattle.std.specs.Prelude.{◌≡◌, ◌↔◌, ◌<◌, ◌++◌, ◌∷◌, [], IsTrue, length, OnOk, OnErr, slice_get, Some};

use byte_text::Text;
use std::alloc::{AllocError, Global};
use std::marker::Model;

/// The stored fields of a document, in order: a field's name, the word of its kind, and its value. Clauses see the list
/// of these triples.
#[derive(Drop)]
pub struct Fields {
    items: Vec<(Text, Text, Text)>,
}

impl Model for Fields {
    ghost use Rattle.std.specs.Prelude.{List, ℕ};

    ghost Value = { List (List ℕ × List ℕ × List ℕ) };

    ghost view = { λ s. s.items.items };
}

impl Fields {
    /// No fields; takes no memory.
    pub fn new(alloc: Global) -> Fields
        ensures { result ≡ [] }
    {
        Fields {
            items: Vec::new(alloc),
        }
    }

    /// Puts one field behind the others.
    pub fn push(&mut self, field: (Text, Text, Text)) -> Result<(), AllocError>
        ensures ok { OnOk result (self.new ≡ self.old ++ field ∷ []) }
        ensures err { OnErr result (self.new ≡ self.old) }
    {
        self.items.push(field)?;
        Ok(())
    }

    /// How many fields there are.
    pub fn len(&self) -> usize
        ensures { result ≡ length self.now }
    {
        self.items.len()
    }

    /// Whether there is none.
    pub fn is_empty(&self) -> bool
        ensures { IsTrue result ↔ (self.now ≡ []) }
    {
        self.items.is_empty()
    }

    /// Lends the field at place `i`, from 0.
    pub fn get(&self, i: usize) -> &(Text, Text, Text)
        requires { i < length self.now }
        ensures { slice_get self.now i ≡ Some result.now }
    {
        &self.items[i]
    }

    pub(crate) fn as_slice(&self) -> &[(Text, Text, Text)]
        ensures { result.now ≡ self.now }
    {
        &self.items
    }
}
