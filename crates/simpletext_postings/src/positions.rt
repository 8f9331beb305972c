// The positions of a term in a document.
ghost use Rattle.std.specs.Prelude.{◌≡◌, ◌↔◌, IsTrue, ◌<◌, ◌++◌, ◌∷◌, [], List, ℕ, length, OnOk, OnErr, slice_get, Some};

use std::alloc::{AllocError, Global};
use std::marker::Model;

/// The positions of a term in a document, counted from 0, in order. Clauses see the list of them.
#[derive(Drop)]
pub struct Positions {
    items: Vec<u32>,
}

impl Model for Positions {
    ghost Value = { List ℕ };

    ghost view = { λ p. p.items.items };
}

impl Positions {
    /// No positions; takes no memory.
    pub fn new(alloc: Global) -> Positions
        ensures { result ≡ [] }
    {
        Positions {
            items: Vec::new(alloc),
        }
    }

    /// Puts one position behind the others.
    pub fn push(&mut self, position: u32) -> Result<(), AllocError>
        ensures ok { OnOk result (self.new ≡ self.old ++ position ∷ []) }
        ensures err { OnErr result (self.new ≡ self.old) }
    {
        self.items.push(position)?;
        Ok(())
    }

    /// How many positions there are.
    pub fn len(&self) -> usize
        ensures { result ≡ length self.now }
    {
        self.items.len()
    }

    /// Whether there is none.
    pub fn is_empty(&self) -> bool
        ensures { IsTrue result ↔ (self.now ≡ []) }
    {
        self.items.is_empty()
    }

    /// Lends the position at place `i`, from 0.
    pub fn get(&self, i: usize) -> &u32
        requires { i < length self.now }
        ensures { slice_get self.now i ≡ Some result.now }
    {
        &self.items[i]
    }
}
