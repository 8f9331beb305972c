//! The places of a table, and the walk from a key's first place.

ghost use Rattle.std.specs.Prelude.{◌≡◌, ◌≢◌, ◌<◌, ℕ, Some, length};
ghost use Rattle.key_table.specs.Slots.{steps, after, first_place, entry_at, keys_in};

/// A key and the region that it has in a table.
#[derive(Clone, Copy)]
pub struct Entry {
    /// No other entry of the table has it.
    pub key: u64,
    /// The number of the region.
    pub region: u32,
}

// The place at which the search for a key begins.
pub fn first_place(key: u64, size: usize) -> usize
    requires { 0 < size }
    ensures place { result ≡ first_place key size }
    ensures bound { result < size }
{
    let mixed = key.wrapping_mul(11_400_714_819_323_198_485) / 4_294_967_296;
    mixed as usize % size
}

// The place behind this one; behind the last is the first.
pub fn after(place: usize, size: usize) -> usize
    requires { place < size }
    ensures { result ≡ after size place }
{
    if place + 1 < size { place + 1 } else { 0 }
}

// How many steps it is from one place on to another.
pub fn steps(size: usize, from: usize, to: usize) -> usize
    requires { from < size }
    ensures { result ≡ steps size from to }
{
    if from <= to {
        to - from
    } else {
        to + (size - from)
    }
}

// The place that has the key, or else the first free one from the key's first place on.
pub fn probe(slots: &[Option<Entry>], key: u64) -> usize
    requires { keys_in slots.now < length slots.now }
    ensures bound { result < length slots.now }
    ensures key { (e : Entry) → entry_at slots.now result ≡ Some e → e.key ≡ key }
    ensures before { (m : ℕ) → m < length slots.now
        → steps (length slots.now) (first_place key (length slots.now)) m
        < steps (length slots.now) (first_place key (length slots.now)) result
        → (e : Entry) × (entry_at slots.now m ≡ Some e) × (e.key ≢ key) }
{
    let size = slots.len();
    let mut place = first_place(key, size);
    for _passed in 0..size {
        let Some(entry) = slots[place] else {
            return place
        };
        if entry.key == key {
            return place;
        }
        place = after(place, size);
    }
    unreachable!()
}
