// Named blobs of bytes, in order.
ghost use Rattle.std.specs.Prelude.{◌≡◌, ◌↔◌, IsTrue, ◌<◌, ◌++◌, ◌∷◌, [], List, ℕ, length, OnOk, OnErr, slice_get, Some};

use crate::{Name, Text};
use std::alloc::{AllocError, Global};
use std::marker::Model;

/// Named blobs of bytes, in order. Clauses see a list of (name, bytes).
#[derive(Drop)]
pub struct Blobs {
    items: Vec<(Name, Text)>,
}

impl Model for Blobs {
    ghost Value = { List (List ℕ × List ℕ) };

    ghost view = { λ b. b.items.items };
}

impl Blobs {
    /// No blobs; takes no memory.
    pub fn new(alloc: Global) -> Blobs
        ensures { result ≡ [] }
    {
        Blobs {
            items: Vec::new(alloc),
        }
    }

    /// Puts one blob behind the others.
    pub fn push(&mut self, blob: (Name, Text)) -> Result<(), AllocError>
        ensures ok { OnOk result (self.new ≡ self.old ++ blob ∷ []) }
        ensures err { OnErr result (self.new ≡ self.old) }
    {
        self.items.push(blob)?;
        Ok(())
    }

    /// How many blobs there are.
    pub fn len(&self) -> usize
        ensures { result ≡ length self.now }
    {
        self.items.len()
    }

    /// Whether there is none.
    pub fn is_empty(&self) -> bool
        ensures { IsTrue result ↔ (self.now ≡ []) }
    {
        self.items.is_empty()
    }

    /// Lends the blob at place `i`, from 0.
    pub fn get(&self, i: usize) -> &(Name, Text)
        requires { i < length self.now }
        ensures { slice_get self.now i ≡ Some result.now }
    {
        &self.items[i]
    }
}
