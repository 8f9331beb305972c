// Tests of sets of documents and of tallies.
ghost use Rattle.std.specs.Prelude.{◌≡◌, ◌<◌, length, IfOk};

use doc_bits::{DocBits, Tally};
use std::alloc::{AllocError, Global};

// The set of the documents that are a multiple of `step`.
fn multiples(alloc: Global, n: u32, step: u32) -> Result<DocBits, AllocError>
    requires { 0 < step }
    ensures { IfOk result (λ bits. length bits ≡ n) }
{
    let mut bits = DocBits::zeros(alloc, n)?;
    for i in 0..n {
        if i % step == 0 {
            bits.set(i);
        }
    }
    Ok(bits)
}

// How many of `n` documents are a multiple of 3 and of 2.
fn of_both(alloc: Global, n: u32) -> Result<u32, AllocError> {
    let mut both = multiples(alloc, n, 3)?;
    both.and(&multiples(alloc, n, 2)?);
    Ok(both.count())
}

// How many of `n` documents are a multiple of 3 or of 2.
fn of_either(alloc: Global, n: u32) -> Result<u32, AllocError> {
    let mut either = multiples(alloc, n, 3)?;
    either.or(&multiples(alloc, n, 2)?);
    Ok(either.count())
}

// How many places come before one that is not the next multiple of 3, or at the end.
fn threes_in_order(bits: &DocBits) -> u32 {
    let mut next = 0u32;
    for place in bits.iter() {
        if place != next {
            break;
        }
        next = next.wrapping_add(3);
    }
    next / 3
}

// How many of `n` documents are a multiple of 3, as the set goes over them.
fn of_three(alloc: Global, n: u32) -> Result<u32, AllocError> {
    let three = multiples(alloc, n, 3)?;
    Ok(threes_in_order(&three))
}

// How many of 130 documents at least `m` of two sets hold.
fn at_least(alloc: Global, m: u64) -> Result<u32, AllocError> {
    let mut tally = Tally::new(alloc, 130)?;
    let mut out = DocBits::zeros(alloc, 130)?;
    tally.add(&multiples(alloc, 130, 3)?);
    tally.add(&multiples(alloc, 130, 2)?);
    tally.at_least(m, &mut out);
    Ok(out.count())
}

#[test]
fn all_but_the_last_of_seventy(rt: HostRuntime) -> Result<(), AllocError> {
    let mut all = DocBits::ones(rt.alloc(), 70)?;
    let mut last = DocBits::zeros(rt.alloc(), 70)?;
    last.set(69);
    all.and_not(&last);
    assert_eq!(rt; all.count(), 69);
    assert!(rt; all.get(68) && !all.get(69));
    Ok(())
}

// The lengths are those round one word, round eight and round 32, and one of more.
#[test]
fn multiples_of_both(rt: HostRuntime) -> Result<(), AllocError> {
    for (n, want) in [
        (0, 0),
        (1, 1),
        (63, 11),
        (64, 11),
        (65, 11),
        (511, 86),
        (512, 86),
        (513, 86),
        (2_047, 342),
        (2_048, 342),
        (2_049, 342),
        (4_200, 700),
    ] {
        assert_eq!(rt; of_both(rt.alloc(), n)?, want, "of {n}");
    }
    Ok(())
}

#[test]
fn multiples_of_either(rt: HostRuntime) -> Result<(), AllocError> {
    for (n, want) in [
        (0, 0),
        (1, 1),
        (63, 42),
        (64, 43),
        (65, 44),
        (511, 341),
        (512, 341),
        (513, 342),
        (2_047, 1_365),
        (2_048, 1_365),
        (2_049, 1_366),
        (4_200, 2_800),
    ] {
        assert_eq!(rt; of_either(rt.alloc(), n)?, want, "of {n}");
    }
    Ok(())
}

#[test]
fn multiples_in_order(rt: HostRuntime) -> Result<(), AllocError> {
    for (n, want) in [
        (0, 0),
        (1, 1),
        (63, 21),
        (64, 22),
        (65, 22),
        (511, 171),
        (512, 171),
        (513, 171),
    ] {
        assert_eq!(rt; of_three(rt.alloc(), n)?, want, "of {n}");
    }
    Ok(())
}

// Of 130 documents 22 are multiples of both numbers, and 87 of at least one.
#[test]
fn tally_of_two(rt: HostRuntime) -> Result<(), AllocError> {
    for (m, want) in [(0, 130), (1, 87), (2, 22), (3, 0), (4_294_967_296, 0)] {
        assert_eq!(rt; at_least(rt.alloc(), m)?, want, "at least {m}");
    }
    Ok(())
}
