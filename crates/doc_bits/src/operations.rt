// What two sets are combined by: place by place, and in words.
ghost use Rattle.std.specs.Prelude.{◌≡◌, ℕ, ◌<◌, ◌^◌, Bool, false, ◌&&◌, ◌||◌, bit_and, bit_or, bit_xor};
ghost use Rattle.std.specs.Int.{w64, bit_not};
ghost use Rattle.std.specs.Simd.Lanes.{zip2};
ghost use Rattle.doc_bits.specs.Places.{and_not, either_not_both, second};
ghost use Rattle.doc_bits.specs.Words.{has_bit};
ghost use Rattle.doc_bits.specs.Bits.{has_bit-and, has_bit-or, has_bit-xor, has_bit-and_not};
ghost use Rattle.std.proofs.Common.{refl};

use std::simd::prelude::*;

/// A test of two truth values, done in words: of one word of each set, and of eight at once.
pub(crate) trait Operation {
    ghost test: { Bool → Bool → Bool };

    ghost of_words: { ℕ → ℕ → ℕ };

    /// What is made of a word and the other set's word of the same place.
    fn word(word: u64, other: u64) -> u64
        ensures { result ≡ of_words word other };

    /// The same of eight words, each by itself.
    fn lanes(words: u64x8, others: u64x8) -> u64x8
        ensures { result ≡ zip2 of_words words others };

    ghost none: { test false false ≡ false };

    ghost bitwise: { (a b i : ℕ) → b < 2 ^ 64 → i < 64 → has_bit (of_words a b) i ≡ test (has_bit a i) (has_bit b i) };
}

/// In both sets.
pub(crate) struct And;

impl Operation for And {
    ghost test = { ◌&&◌ };

    ghost of_words = { bit_and };

    fn word(word: u64, other: u64) -> u64 {
        word & other
    }

    fn lanes(words: u64x8, others: u64x8) -> u64x8 {
        words & others
    }

    ghost none = { refl };

    ghost bitwise = { λ a b i _ _. has_bit-and a b i };
}

/// In one of the sets or in both.
pub(crate) struct Or;

impl Operation for Or {
    ghost test = { ◌||◌ };

    ghost of_words = { bit_or };

    fn word(word: u64, other: u64) -> u64 {
        word | other
    }

    fn lanes(words: u64x8, others: u64x8) -> u64x8 {
        words | others
    }

    ghost none = { refl };

    ghost bitwise = { λ a b i _ _. has_bit-or a b i };
}

/// In the set and not in the other.
pub(crate) struct AndNot;

impl Operation for AndNot {
    ghost test = { and_not };

    ghost of_words = { λ a b. bit_and a (bit_not w64 b) };

    fn word(word: u64, other: u64) -> u64 {
        word & !other
    }

    fn lanes(words: u64x8, others: u64x8) -> u64x8 {
        words & !others
    }

    ghost none = { refl };

    ghost bitwise = { has_bit-and_not };
}

/// In one of the sets and not in both.
pub(crate) struct Xor;

impl Operation for Xor {
    ghost test = { either_not_both };

    ghost of_words = { bit_xor };

    fn word(word: u64, other: u64) -> u64 {
        word ^ other
    }

    fn lanes(words: u64x8, others: u64x8) -> u64x8 {
        words ^ others
    }

    ghost none = { refl };

    ghost bitwise = { λ a b i _ _. has_bit-xor a b i };
}

/// In the other set.
pub(crate) struct Other;

impl Operation for Other {
    ghost test = { second };

    ghost of_words = { λ _ b. b };

    fn word(_word: u64, other: u64) -> u64 {
        other
    }

    fn lanes(_words: u64x8, others: u64x8) -> u64x8 {
        others
    }

    ghost none = { refl };

    ghost bitwise = { λ a b i _ _. refl };
}
