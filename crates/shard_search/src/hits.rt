// What a search gives.
ghost use Rattle.std.specs.Prelude.{◌≡◌, ◌↔◌, ◌<◌, ◌++◌, ◌∷◌, [], List, IsTrue, length, OnOk, OnErr, slice_get, Some};

use std::alloc::{AllocError, Global};
use std::marker::Model;

/// A document that a search found.
#[derive(Clone, Copy, Debug, PartialEq, Eq)]
pub struct Hit {
    /// The number of its segment in the manifest, from 0.
    pub segment: u32,
    /// Its number in the segment, from 0.
    pub doc: u32,
}

/// Hits, in order. Clauses see the list of them.
#[derive(Drop)]
pub struct HitList {
    items: Vec<Hit>,
}

impl Model for HitList {
    ghost use Rattle.std.specs.Prelude.{List};
    ghost use Rattle.shard_search.specs.declared.hits.Hit.{Hit};

    ghost Value = { List Hit };

    ghost view = { λ h. h.items.items };
}

impl HitList {
    /// No hits; takes no memory.
    pub fn new(alloc: Global) -> HitList
        ensures { result ≡ [] }
    {
        HitList {
            items: Vec::new(alloc),
        }
    }

    /// Puts one hit behind the others.
    pub fn push(&mut self, hit: Hit) -> Result<(), AllocError>
        ensures ok { OnOk result (self.new ≡ self.old ++ hit ∷ []) }
        ensures err { OnErr result (self.new ≡ self.old) }
    {
        self.items.push(hit)?;
        Ok(())
    }

    /// How many hits there are.
    pub fn len(&self) -> usize
        ensures { result ≡ length self.now }
    {
        self.items.len()
    }

    /// Whether there is none.
    pub fn is_empty(&self) -> bool
        ensures { IsTrue result ↔ (self.now ≡ []) }
    {
        self.items.is_empty()
    }

    /// Lends the hit at place `i`, from 0.
    pub fn get(&self, i: usize) -> &Hit
        requires { i < length self.now }
        ensures { slice_get self.now i ≡ Some result.now }
    {
        &self.items[i]
    }
}

/// What a search gives.
#[derive(Drop)]
pub struct Hits {
    /// How many documents were found.
    pub total: u64,
    /// The first of them, in the order of segments and, in each, of documents.
    pub list: HitList,
}
