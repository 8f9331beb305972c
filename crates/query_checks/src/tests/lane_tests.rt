// Sets and tallies, which go by eight words at once, beside plain words and numbers, over drawn sets.
ghost use Rattle.std.specs.Prelude.{◌≡◌, ◌+◌, ◌/◌, ◌<◌, ◌≤◌, length, vec_len, IfOk};

use super::plain;
use doc_bits::{DocBits, Tally};
use std::alloc::{AllocError, Global};

// The next number of a run that repeats after 2^64 - 1 numbers (Marsaglia, Xorshift RNGs).
fn next(random: &mut u64) -> u64 {
    *random ^= *random << 13;
    *random ^= *random >> 7;
    *random ^= *random << 17;
    *random
}

// The words of a set of `n` documents, each in it with a chance of one to `chance`.
fn drawn(alloc: Global, n: u32, chance: u64, random: &mut u64) -> Result<Vec<u64>, AllocError>
    requires { 0 < chance }
    ensures { IfOk result (λ words. vec_len words ≡ (n + 63) / 64) }
{
    let mut words = vec![in alloc; 0u64; (n as usize + 63) / 64]?;
    for i in 0..n {
        if next(random) % chance == 0 {
            words[(i / 64) as usize] |= 1 << (i % 64);
        }
    }
    Ok(words)
}

// The set that the words stand for.
fn set_of(alloc: Global, n: u32, words: &[u64]) -> Result<DocBits, AllocError>
    ensures { IfOk result (λ bits. length bits ≡ n) }
{
    let mut bits = DocBits::zeros(alloc, n)?;
    for i in 0..n {
        if plain::holds(words, i as usize) {
            bits.set(i);
        }
    }
    Ok(bits)
}

// Whether the set and the words hold the same places, and as many.
fn are_alike(bits: &DocBits, words: &[u64]) -> bool {
    for i in 0..bits.len() {
        if bits.get(i) != plain::holds(words, i as usize) {
            return false;
        }
    }
    u64::from(bits.count()) == plain::count(words)
}

fn and_alike(alloc: Global, n: u32, words: &[u64], others: &[u64]) -> Result<bool, AllocError>
    requires { length others.now ≡ length words.now }
{
    let mut bits = set_of(alloc, n, words)?;
    let mut plain = Vec::from_slice(alloc, words)?;
    bits.and(&set_of(alloc, n, others)?);
    plain::and(&mut plain, others);
    Ok(are_alike(&bits, &plain))
}

fn or_alike(alloc: Global, n: u32, words: &[u64], others: &[u64]) -> Result<bool, AllocError>
    requires { length others.now ≡ length words.now }
{
    let mut bits = set_of(alloc, n, words)?;
    let mut plain = Vec::from_slice(alloc, words)?;
    bits.or(&set_of(alloc, n, others)?);
    plain::or(&mut plain, others);
    Ok(are_alike(&bits, &plain))
}

fn and_not_alike(alloc: Global, n: u32, words: &[u64], others: &[u64]) -> Result<bool, AllocError>
    requires { length others.now ≡ length words.now }
{
    let mut bits = set_of(alloc, n, words)?;
    let mut plain = Vec::from_slice(alloc, words)?;
    bits.and_not(&set_of(alloc, n, others)?);
    plain::and_not(&mut plain, others);
    Ok(are_alike(&bits, &plain))
}

// Whether `out` holds the places whose count is at least `m`.
fn is_at_least(out: &DocBits, counts: &[u32], m: u64) -> bool {
    for i in 0..out.len() {
        if out.get(i) != plain::is_at_least(counts, i, m) {
            return false;
        }
    }
    true
}

// Whether the tally of `sets` drawn sets of `n` documents has the plain counts, at each number and at 2^32.
fn tally_alike(alloc: Global, n: u32, sets: u32, random: &mut u64) -> Result<bool, AllocError>
    requires { sets ≤ 1000 }
{
    let mut tally = Tally::new(alloc, n)?;
    let mut counts = vec![in alloc; 0u32; n as usize]?;
    for k in 0..sets {
        let words = drawn(alloc, n, 1 + u64::from(k) % 3, random)?;
        tally.add(&set_of(alloc, n, &words)?);
        plain::add(&mut counts, &words);
    }
    let mut out = DocBits::ones(alloc, n)?;
    for m in 0..u64::from(sets) + 2 {
        tally.at_least(m, &mut out);
        if !is_at_least(&out, &counts, m) {
            return Ok(false);
        }
    }
    tally.at_least(4_294_967_296, &mut out);
    Ok(out.count() == 0)
}

#[test]
fn sets_of_each_length_are_as_plain_words(rt: HostRuntime) -> Result<(), AllocError> {
    let mut random = 88_172_645_463_325_252;
    for n in 0..1_101 {
        let words = drawn(rt.alloc(), n, 2, &mut random)?;
        let others = drawn(rt.alloc(), n, 3, &mut random)?;
        assert!(rt; and_alike(rt.alloc(), n, &words, &others)?, "and of {n}");
        assert!(rt; or_alike(rt.alloc(), n, &words, &others)?, "or of {n}");
        assert!(rt;
            and_not_alike(rt.alloc(), n, &words, &others)?,
            "and not of {n}"
        );
    }
    Ok(())
}

#[test]
fn tallies_of_each_length_are_as_plain_counts(rt: HostRuntime) -> Result<(), AllocError> {
    let mut random = 88_172_645_463_325_252;
    for n in 0..1_101 {
        assert!(rt; tally_alike(rt.alloc(), n, 5, &mut random)?, "of {n}");
    }
    Ok(())
}

#[test]
fn a_tally_of_many_sets_is_as_plain_counts(rt: HostRuntime) -> Result<(), AllocError> {
    let mut random = 88_172_645_463_325_252;
    assert!(rt; tally_alike(rt.alloc(), 700, 140, &mut random)?);
    Ok(())
}
