// The places of the terms in a postings text.
ghost use Rattle.std.specs.Prelude.{◌≡◌, ◌==◌, ◌&&◌, ◌+◌, ◌++◌, ◌<◌, ◌≤◌, true, false, [], IfNone, IfOk};
ghost use Rattle.std.specs.Prelude.{IfSome, OnOk, length, map, nat_lt, get_or, option_map};
ghost use Rattle.std.specs.List.{list_all, list_any};
ghost use Rattle.std.specs.Str.{bytes_eq};
ghost use Rattle.simpletext_postings.specs.Places.{ArePlaces, count_under, is_under, name_of, named, numbered, rise, lies_in};
ghost use Rattle.simpletext_postings.specs.Terms.{entry_of, entry_places};

use byte_text::Text;
use std::alloc::AllocError;
use std::cmp::Ordering;

/// A term: where it lies among the names of all terms, the number of its field, and the places between which the text
/// has its entries, in bytes from the start of the text. It takes 32 bytes.
#[derive(Clone, Copy)]
pub struct Place {
    pub from: u64,
    pub to: u64,
    pub start: usize,
    pub length: u32,
    pub field: u32,
}

const _: () = prove!(size_of::<Place>() == 32);

impl Place {
    /// Its bytes, among the names of all terms.
    pub fn name<'a>(&self, names: &'a [u8]) -> &'a [u8]
        requires { self.now.start + self.now.length ≤ length names.now }
        ensures { result.now ≡ name_of names.now self.now }
    {
        let end = self.start + self.length as usize;
        &names[self.start..end]
    }
}

/// Puts bytes behind the names.
pub fn push_bytes(names: &mut Vec<u8>, bytes: &[u8]) -> Result<(), AllocError>
    ensures { OnOk result (names.new.items ≡ names.old.items ++ bytes.now) }
{
    names.extend_from_slice(bytes)?;
    Ok(())
}

/// A number of 32 bits; want of memory where it is greater. A term has fewer bytes than a line, which has at most
/// 16,777,216, and more fields than a number of 32 bits counts do not fit into memory.
pub fn narrow(number: usize) -> Result<u32, AllocError>
    ensures { IfOk result (λ n. n ≡ number) }
{
    match u32::try_from(number) {
        Ok(number) => Ok(number),
        Err(_) => Err(AllocError),
    }
}

fn is_under(names: &[u8], place: &Place, field: usize, term: &[u8]) -> bool
    requires { place.now.start + place.now.length ≤ length names.now }
    ensures { result ≡ is_under field term.now (numbered names.now place.now) }
{
    let own = place.field as usize;
    own < field || own == field && matches!(place.name(names).cmp(term), Ordering::Less)
}

/// Whether the term at a place stands before a term of a field.
#[tactic(auto, using(crate::proofs::Searching::lies_at, crate::proofs::Searching::under_at))]
fn is_under_at(names: &[u8], places: &[Place], k: usize, field: usize, term: &[u8]) -> bool
    requires lie { list_all (lies_in (length names.now)) places.now ≡ true }
    requires rising { rise (map (numbered names.now) places.now) ≡ true }
    requires inside { k < length places.now }
    ensures { result ≡ nat_lt k (count_under field term.now (map (numbered names.now) places.now)) }
{
    is_under(names, &places[k], field, term)
}

/// How many terms stand before a term of a field; in the time of a search by halves.
#[tactic(auto, using(crate::proofs::Searching::at_most_all))]
fn places_under(names: &[u8], places: &[Place], field: usize, term: &[u8]) -> usize
    requires lie { list_all (lies_in (length names.now)) places.now ≡ true }
    requires rising { rise (map (numbered names.now) places.now) ≡ true }
    ensures { result ≡ count_under field term.now (map (numbered names.now) places.now) }
{
    let mut low = 0;
    let mut high = places.len();
    while low < high {
        let middle = low + (high - low) / 2;
        if is_under_at(names, places, middle, field, term) {
            low = middle + 1;
        } else {
            high = middle;
        }
    }
    low
}

fn is_term(names: &[u8], place: &Place, field: usize, term: &[u8]) -> bool
    requires { place.now.start + place.now.length ≤ length names.now }
    ensures { result ≡ ((place.now.field == field) && bytes_eq (name_of names.now place.now) term.now) }
{
    place.field as usize == field && place.name(names) == term
}

/// The number of a field.
fn number_of(fields: &[Text], name: &[u8]) -> Option<usize>
    ensures some { IfSome result (λ i. (i < length fields.now) × (get_or fields.now i [] ≡ name.now)) }
    ensures none { IfNone result (list_any (bytes_eq name.now) fields.now ≡ false) }
{
    for i in 0..fields.len() {
        if name == fields[i].as_bytes() {
            return Some(i);
        }
    }
    None
}

/// The places between which the entries of a field and a term stand; None where there are none. The places lie in a
/// text of `size` bytes. The fields are gone through, and then the terms are searched by halves: the time is that of
/// the number of fields, and of the logarithm of the number of terms.
pub fn find_place(
    size: u64,
    fields: &[Text],
    names: &[u8],
    places: &[Place],
    field: &[u8],
    term: &[u8],
) -> Option<(u64, u64)>
    requires { ArePlaces size fields.now names.now places.now }
    ensures found { result ≡ option_map entry_places
        (entry_of field.now term.now (map (named fields.now) (map (numbered names.now) places.now))) }
    ensures inside { IfSome result (λ p. (p.0 ≤ p.1) × (p.1 ≤ size)) }
{
    let _ = size;
    let number = match number_of(fields, field) {
        Some(number) => number,
        None => return None,
    };
    let k = places_under(names, places, number, term);
    if k < places.len() && is_term(names, &places[k], number, term) {
        return Some((places[k].from, places[k].to));
    }
    None
}
