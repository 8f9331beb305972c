// A set of documents, one bit each.
ghost use Rattle.std.specs.Prelude.{◌≡◌, ℕ, ◌<◌, ◌&&◌, ◌||◌, List, Bool, true, false, Some, length};
ghost use Rattle.std.specs.Prelude.{replicate, All, IfOk, slice_get, slice_set};
ghost use Rattle.std.specs.List.Sorted.{IsStrictlyIncreasing};
ghost use Rattle.doc_bits.specs.Places.{zip_with, and_not, either_not_both, places_of};

use crate::operations::{And, AndNot, Operation, Or, Other, Xor};
use crate::places::Places;
use crate::words::{clear_words, combine_words, count_words, fill_words};
use std::alloc::{AllocError, Global};
use std::marker::Model;

/// A set of the documents of one segment, as one bit a document. Place `i` holds true where document `i` is in the
/// set. Clauses see a list of truth values, one a document.
#[derive(Drop)]
pub struct DocBits {
    words: Vec<u64>,
    len: u32,
}

impl Model for DocBits {
    ghost use Rattle.std.specs.Prelude.{List, Bool};
    ghost use Rattle.doc_bits.specs.Words.{list_of, IsLaidOut};

    ghost Value = { List Bool };

    ghost view = { λ b. list_of b.len b.words.items };

    ghost invariant = { λ b. IsLaidOut b.len b.words.items };
}

impl DocBits {
    /// The empty set, of `n` documents.
    pub fn zeros(alloc: Global, n: u32) -> Result<DocBits, AllocError>
        ensures { IfOk result (λ bits. bits ≡ replicate n false) }
    {
        let words = vec![in alloc; 0u64; (n as usize + 63) / 64]?;
        Ok(DocBits { words, len: n })
    }

    /// The set of all `n` documents.
    pub fn ones(alloc: Global, n: u32) -> Result<DocBits, AllocError>
        ensures { IfOk result (λ bits. bits ≡ replicate n true) }
    {
        let mut bits = DocBits::zeros(alloc, n)?;
        bits.fill();
        Ok(bits)
    }

    /// How many documents there are, in the set or not.
    pub fn len(&self) -> u32
        ensures { result ≡ length self.now }
    {
        self.len
    }

    /// Puts document `i` into the set.
    pub fn set(&mut self, i: u32)
        requires { i < length self.old }
        ensures { self.new ≡ slice_set self.old i true }
    {
        self.words[(i / 64) as usize] |= 1 << (i % 64);
    }

    /// Whether document `i` is in the set.
    pub fn get(&self, i: u32) -> bool
        requires { i < length self.now }
        ensures { slice_get self.now i ≡ Some result }
    {
        (self.words[(i / 64) as usize] >> (i % 64)) & 1 == 1
    }

    /// Keeps the documents that are in both sets.
    pub fn and(&mut self, other: &DocBits)
        requires { length self.old ≡ length other.now }
        ensures places { self.new ≡ zip_with ◌&&◌ self.old other.now }
        ensures length { length self.new ≡ length self.old }
    {
        self.combine::<And>(other);
    }

    /// Adds the documents of the other set.
    pub fn or(&mut self, other: &DocBits)
        requires { length self.old ≡ length other.now }
        ensures places { self.new ≡ zip_with ◌||◌ self.old other.now }
        ensures length { length self.new ≡ length self.old }
    {
        self.combine::<Or>(other);
    }

    /// Takes the documents of the other set away.
    pub fn and_not(&mut self, other: &DocBits)
        requires { length self.old ≡ length other.now }
        ensures places { self.new ≡ zip_with and_not self.old other.now }
        ensures length { length self.new ≡ length self.old }
    {
        self.combine::<AndNot>(other);
    }

    /// Keeps or takes each document that is in just one of the sets.
    pub(crate) fn xor(&mut self, other: &DocBits)
        requires { length self.old ≡ length other.now }
        ensures places { self.new ≡ zip_with either_not_both self.old other.now }
        ensures length { length self.new ≡ length self.old }
    {
        self.combine::<Xor>(other);
    }

    /// Makes it the other set.
    pub(crate) fn copy_from(&mut self, other: &DocBits)
        requires { length self.old ≡ length other.now }
        ensures { self.new ≡ other.now }
    {
        self.combine::<Other>(other);
    }

    /// Combines the two sets place by place.
    fn combine<O: Operation>(&mut self, other: &DocBits)
        requires { length self.old ≡ length other.now }
        ensures places { self.new ≡ zip_with O.test self.old other.now }
        ensures length { length self.new ≡ length self.old }
    {
        combine_words::<O>(&mut self.words, &other.words);
    }

    /// Makes it the set of all documents.
    pub(crate) fn fill(&mut self)
        ensures { self.new ≡ replicate (length self.old) true }
    {
        fill_words(&mut self.words, self.len);
    }

    /// Makes it the empty set.
    pub(crate) fn clear(&mut self)
        ensures { self.new ≡ replicate (length self.old) false }
    {
        clear_words(&mut self.words);
    }

    /// How many documents are in the set.
    pub fn count(&self) -> u32
        ensures { result ≡ length (places_of self.now) }
    {
        count_words(&self.words) as u32
    }

    /// Goes over the documents that are in the set, rising.
    pub fn iter(&self) -> Places<'_>
        ensures all { result ≡ places_of self.now }
        ensures rising { IsStrictlyIncreasing (places_of self.now) }
        ensures within { All (λ i. i < length self.now) (places_of self.now) }
    {
        Places::new(&self.words)
    }
}

// A missing proof of `Send` or `Sync` shows here, and not first at the threads above.
fn crosses<T: Send + Sync>() {}

/// A set may be handed to another thread, and shared between threads.
pub fn bits_cross() {
    crosses::<DocBits>()
}
