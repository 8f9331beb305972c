// Counts of how many sets hold each document.
ghost use Rattle.std.specs.Prelude.{◌≡◌, ℕ, ◌+◌, ◌<◌, ◌≤◌, ◌^◌, ◌&&◌, ◌||◌, true, false, if◌then◌else◌};
ghost use Rattle.std.specs.Prelude.{length, map, replicate, nat_le, slice_index_or, All, IfOk};
ghost use Rattle.doc_bits.specs.Places.{zip_with};
ghost use Rattle.doc_bits.specs.Counts.{Counted, counted};
ghost use Rattle.doc_bits.specs.Planes.{number, digits_at};

use crate::DocBits;
use std::alloc::{AllocError, Global};
use std::marker::Model;

/// For each document of one segment, how many of the sets that were added hold it. Clauses see how many sets were
/// added, and a list of counts, one a document.
///
/// The counts lie in 32 bit planes, so that 512 documents are counted or compared a step.
#[derive(Drop)]
pub struct Tally {
    /// the binary digits of the counts, the lowest first: each is the set of the documents whose count has it
    planes: Vec<DocBits>,
    /// what is carried from one plane to the next while a set is added
    carry: DocBits,
    added: u32,
}

impl Model for Tally {
    ghost use Rattle.std.specs.Prelude.{length};
    ghost use Rattle.doc_bits.specs.Counts.{Counted};
    ghost use Rattle.doc_bits.specs.Planes.{counts_of, AreLaidOut};

    ghost Value = { Counted };

    ghost view = { λ t. record { added = t.added; counts = counts_of (length t.carry) t.planes.items } };

    ghost invariant = { λ t. AreLaidOut t.added (length t.carry) t.planes.items };
}

impl Tally {
    /// Counts for `n` documents, with no set added.
    pub fn new(alloc: Global, n: u32) -> Result<Tally, AllocError>
        ensures { IfOk result (λ tally. tally ≡ record { added = 0; counts = replicate n 0 }) }
    {
        let carry = DocBits::zeros(alloc, n)?;
        let planes = empty_planes(alloc, n)?;
        Ok(Tally {
            planes,
            carry,
            added: 0,
        })
    }

    /// Adds a set of as many documents: each document in it is counted once more.
    pub fn add(&mut self, bits: &DocBits)
        requires same_length { length bits.now ≡ length self.old.counts }
        requires room { self.old.added < 4294967295 }
        ensures added { self.new.added ≡ self.old.added + 1 }
        ensures counts { self.new.counts ≡ zip_with counted self.old.counts bits.now }
        ensures length { length self.new.counts ≡ length self.old.counts }
    {
        self.carry.copy_from(bits);
        add_carry(
            &mut self.planes,
            planes_for(self.added + 1),
            &mut self.carry,
        );
        self.added += 1;
    }

    /// Makes `out` the set of the documents that at least `m` of the added sets hold: all documents at an `m` of 0,
    /// and none at an `m` of 4,294,967,296 or more.
    pub fn at_least(&self, m: u64, out: &mut DocBits)
        requires { length out.old ≡ length self.now.counts }
        ensures at_least { out.new ≡ map (λ count. nat_le m count) self.now.counts }
        ensures all { m ≡ 0 → out.new ≡ replicate (length out.old) true }
        ensures none { 2 ^ 32 ≤ m → out.new ≡ replicate (length out.old) false }
    {
        if m > u64::from(self.added) {
            out.clear();
        } else {
            compare(&self.planes, planes_for(self.added), m, out);
        }
    }
}

/// As many planes of `n` documents as a count has digits, with no digit set.
fn empty_planes(alloc: Global, n: u32) -> Result<Vec<DocBits>, AllocError>
    ensures { IfOk result (λ planes. planes.items ≡ replicate 32 (replicate n false)) }
{
    let mut planes = Vec::new(alloc);
    for _plane in 0..32u32 {
        planes.push(DocBits::zeros(alloc, n)?)?;
    }
    Ok(planes)
}

/// How many planes hold the digits of a count that is at most `most`.
fn planes_for(most: u32) -> usize
    ensures few { result ≤ 32 }
    ensures enough { most < 2 ^ result }
{
    (32 - most.leading_zeros()) as usize
}

/// Adds one to the count of each document that the carry holds, through the first `used` planes.
fn add_carry(planes: &mut [DocBits], used: usize, carry: &mut DocBits)
    requires many { length planes.old ≡ 32 }
    requires few { used ≤ 32 }
    requires long { All (λ plane. length plane ≡ length carry.old) planes.old }
    requires room { (i : ℕ) → i < length carry.old → number (digits_at planes.old i) + 1 < 2 ^ used }
    ensures counts { (i : ℕ) → i < length carry.old → number (digits_at planes.new i)
        ≡ counted (number (digits_at planes.old i)) (slice_index_or carry.old i false) }
    ensures long { All (λ plane. length plane ≡ length carry.old) planes.new }
    ensures carry_long { length carry.new ≡ length carry.old }
{
    for p in 0..used {
        planes[p].xor(carry);
        carry.and_not(&planes[p]);
    }
}

/// Makes `out` the set of the documents whose count, which the first `used` planes hold, is at least `m`.
fn compare(planes: &[DocBits], used: usize, m: u64, out: &mut DocBits)
    requires many { length planes.now ≡ 32 }
    requires few { used ≤ 32 }
    requires long { All (λ plane. length plane ≡ length out.old) planes.now }
    requires digits { m < 2 ^ used }
    requires room { (i : ℕ) → i < length out.old → number (digits_at planes.now i) < 2 ^ used }
    ensures at_least { (i : ℕ) → i < length out.old
        → slice_index_or out.new i false ≡ nat_le m (number (digits_at planes.now i)) }
    ensures length { length out.new ≡ length out.old }
{
    out.fill();
    for digit in 0..used {
        compare_plane(&planes[digit], (m >> digit) & 1 == 1, out);
    }
}

/// From the lowest digit on: where `m` has the next digit, a count is still at least `m` if it has the digit too, and
/// where `m` has it not, a count that has it is.
fn compare_plane(plane: &DocBits, digit: bool, out: &mut DocBits)
    requires { length out.old ≡ length plane.now }
    ensures { out.new ≡ zip_with (if digit then ◌&&◌ else ◌||◌) out.old plane.now }
{
    if digit {
        out.and(plane);
    } else {
        out.or(plane);
    }
}

// A missing proof of `Send` or `Sync` shows here, and not first at the threads above.
fn crosses<T: Send + Sync>() {}

/// A tally may be handed to another thread, and shared between threads.
pub fn tallies_cross() {
    crosses::<Tally>()
}
