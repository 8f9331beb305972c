// What is done word by word, 64 documents a step. A bit past the last document is never set, so that words can be
// combined and counted whole.
ghost use Rattle.std.specs.Prelude.{◌≡◌, ℕ, ◌+◌, ◌-◌, ◌*◌, ◌/◌, ◌<◌, ◌≤◌, ◌^◌, false, true, length};
ghost use Rattle.std.specs.Prelude.{slice_index, sum_by, count_ones};
ghost use Rattle.std.specs.Simd.Lanes.{sum_l};
ghost use Rattle.doc_bits.specs.Words.{holds_at, word_of, places_of_words};

use crate::operations::Operation;
use std::simd::prelude::*;

/// Combines each word with the other's word of the same place, eight words a step.
pub fn combine_words<O: Operation>(words: &mut [u64], others: &[u64])
    requires { length others.now ≡ length words.old }
    ensures { (i : ℕ) → holds_at words.new i ≡ O.test (holds_at words.old i) (holds_at others.now i) }
{
    let (chunks, rest) = others.as_chunks::<8>();
    combine_chunks::<O>(words, chunks);
    combine_rest::<O>(words, 8 * chunks.len(), rest);
}

/// Combines the first words with whole chunks of the others.
fn combine_chunks<O: Operation>(words: &mut [u64], chunks: &[[u64; 8]])
    requires { 8 * length chunks.now ≤ length words.old }
    ensures first { (k : ℕ) → k < 8 * length chunks.now
        → slice_index words.new k ≡ O.of_words (slice_index words.old k) (word_of chunks.now k) }
    ensures others { (k : ℕ) → 8 * length chunks.now ≤ k → slice_index words.new k ≡ slice_index words.old k }
{
    for (c, chunk) in chunks.iter().enumerate() {
        let lanes = O::lanes(
            u64x8::from_slice(&words[8 * c..]),
            u64x8::from_array(*chunk),
        );
        lanes.copy_to_slice(&mut words[8 * c..]);
    }
}

/// Combines the words from `from` on, which are too few for a chunk.
fn combine_rest<O: Operation>(words: &mut [u64], from: usize, others: &[u64])
    requires { from + length others.now ≤ length words.old }
    ensures rest { (k : ℕ) → from ≤ k → k < from + length others.now
        → slice_index words.new k ≡ O.of_words (slice_index words.old k) (slice_index others.now (k - from)) }
    ensures others { (k : ℕ) → k < from → slice_index words.new k ≡ slice_index words.old k }
{
    for (k, other) in others.iter().enumerate() {
        words[from + k] = O::word(words[from + k], *other);
    }
}

/// How many bits of the words are set, eight words a step.
pub fn count_words(words: &[u64]) -> u64
    requires { length words.now ≤ 2 ^ 32 }
    ensures { result ≡ length (places_of_words 0 words.now) }
{
    let (chunks, rest) = words.as_chunks::<8>();
    count_chunks(chunks) + count_rest(rest)
}

/// How many bits of whole chunks are set.
fn count_chunks(chunks: &[[u64; 8]]) -> u64
    requires { length chunks.now ≤ 2 ^ 32 }
    ensures bits { result ≡ sum_by (sum_by count_ones) chunks.now }
    ensures few { result ≤ 512 * length chunks.now }
{
    let mut counts = u64x8::splat(0);
    for chunk in chunks {
        counts = counts.strict_add(ones_of(u64x8::from_array(*chunk)));
    }
    counts.strict_reduce_sum()
}

/// How many bits are set in each of eight words.
fn ones_of(words: u64x8) -> u64x8
    ensures eight { length result ≡ 8 }
    ensures bits { sum_l result ≡ sum_by count_ones words }
    ensures few { sum_l result ≤ 512 }
{
    words.count_ones()
}

/// How many bits of the last words are set, which are too few for a chunk.
fn count_rest(words: &[u64]) -> u64
    requires { length words.now < 8 }
    ensures bits { result ≡ sum_by count_ones words.now }
    ensures few { result ≤ 64 * length words.now }
{
    let mut count = 0;
    for word in words {
        count += u64::from(word.count_ones());
    }
    count
}

/// How many words come before the first that has a bit set: all of them where none has.
pub fn empty_words(words: &[u64]) -> usize
    ensures within { result ≤ length words.now }
    ensures empty { (k : ℕ) → k < result → slice_index words.now k ≡ 0 }
    ensures stops { result < length words.now → 0 < slice_index words.now result }
{
    for (k, word) in words.iter().enumerate() {
        if *word != 0 {
            return k;
        }
    }
    words.len()
}

/// Sets the bits of the first `n` places, and clears what is past them.
pub fn fill_words(words: &mut [u64], n: u32)
    requires { length words.old ≡ (n + 63) / 64 }
    ensures full { (i : ℕ) → i < n → holds_at words.new i ≡ true }
    ensures clear_past { (i : ℕ) → n ≤ i → holds_at words.new i ≡ false }
{
    for k in 0..words.len() {
        words[k] = u64::MAX;
    }
    if n % 64 != 0 {
        words[(n / 64) as usize] = (1 << (n % 64)) - 1;
    }
}

/// Clears all bits.
pub fn clear_words(words: &mut [u64])
    ensures { (i : ℕ) → holds_at words.new i ≡ false }
{
    for k in 0..words.len() {
        words[k] = 0;
    }
}
