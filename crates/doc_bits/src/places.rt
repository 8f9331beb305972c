// The places of a set that hold true, one after another.
ghost use Rattle.std.specs.Prelude.{◌≡◌, ℕ, ◌*◌, ◌≤◌, ◌^◌, List, length};
ghost use Rattle.std.specs.Iterator.{YieldsFirst, item_count};
ghost use Rattle.doc_bits.specs.Words.{places_of_words};

use crate::words::empty_words;
use std::marker::Model;

/// Goes over the places of a `DocBits` that hold true, rising. Clauses see the list of the places that are left.
#[derive(Drop)]
pub struct Places<'a> {
    /// the place of bit 0 of `left`
    first: u32,
    /// what is left of the word that is being read
    left: u64,
    /// the words behind it
    words: &'a [u64],
}

impl<'a> Model for Places<'a> {
    ghost use Rattle.std.specs.Prelude.{ℕ, ◌+◌, ◌*◌, ◌^◌, ◌≤◌, List, ◌∷◌, length};
    ghost use Rattle.doc_bits.specs.Words.{places_of_words};

    ghost Value = { List ℕ };

    ghost view = { λ p. places_of_words p.first (p.left ∷ p.words.now) };

    ghost invariant = { λ p. p.first + 64 + 64 * length p.words.now ≤ 2 ^ 32 };
}

impl<'a> Places<'a> {
    /// The places of words, from place 0 on.
    pub fn new(words: &'a [u64]) -> Places<'a>
        requires { 64 * length words.now ≤ 2 ^ 32 }
        ensures { result ≡ places_of_words 0 words.now }
    {
        match words.split_first() {
            None => Places {
                first: 0,
                left: 0,
                words,
            },
            Some((word, others)) => Places {
                first: 0,
                left: *word,
                words: others,
            },
        }
    }
}

impl<'a> Iterator for Places<'a> {
    type Item = u32;

    ghost next_gives = { YieldsFirst (λ p. p) };

    ghost remaining = { item_count (λ p. p) };

    fn next(&mut self) -> Option<u32> {
        if self.left == 0 {
            let skipped = empty_words(self.words);
            if skipped == self.words.len() {
                return None;
            }
            self.first += 64 * (skipped as u32 + 1);
            self.left = self.words[skipped];
            self.words = &self.words[skipped + 1..];
        }
        let bit = self.left.trailing_zeros();
        self.left &= !(1 << bit);
        Some(self.first + bit)
    }
}
