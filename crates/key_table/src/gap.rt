//! A removal: entries behind it move up, so that none has a free place on the way from its first place.

ghost use Rattle.std.specs.Prelude.{◌≡◌, ◌<◌, ℕ, None, Some, IsSome, length, slice_set, if◌then◌else◌};
ghost use Rattle.key_table.specs.Slots.{AreApart, AreReached, entry_at, keys_in, region_in, is_over};

use crate::places::{Entry, after, first_place, steps};

// The entry moves into the gap where its way goes over it; answers where the gap is then.
fn move_up(slots: &mut Vec<Option<Entry>>, gap: usize, at: usize, entry: Entry) -> usize
    requires { (gap < length slots.old.items) × (at < length slots.old.items) }
    ensures gap { result ≡ (if is_over (length slots.old.items) gap at entry then at else gap) }
    ensures slots { slots.new.items ≡ (if is_over (length slots.old.items) gap at entry
        then slice_set (slice_set slots.old.items gap (Some entry)) at None else slots.old.items) }
{
    let size = slots.len();
    if steps(size, gap, at) <= steps(size, first_place(entry.key, size), at) {
        slots[gap] = Some(entry);
        slots[at] = None;
        return at;
    }
    gap
}

// Takes the entry of the place out, and closes the gap that it leaves.
pub fn take_out(slots: &mut Vec<Option<Entry>>, place: usize)
    requires entry { IsSome (entry_at slots.old.items place) }
    requires apart { AreApart slots.old.items }
    requires reached { AreReached slots.old.items }
    requires room { keys_in slots.old.items < length slots.old.items }
    ensures count { length slots.new.items ≡ length slots.old.items }
    ensures apart { AreApart slots.new.items }
    ensures reached { AreReached slots.new.items }
    ensures regions { (key : ℕ) → region_in key slots.new.items ≡ region_in key (slice_set slots.old.items place None) }
    ensures len { keys_in slots.new.items ≡ keys_in (slice_set slots.old.items place None) }
{
    slots[place] = None;
    let size = slots.len();
    let mut gap = place;
    let mut at = place;
    for _passed in 0..size {
        at = after(at, size);
        let Some(entry) = slots[at] else { return };
        gap = move_up(slots, gap, at, entry);
    }
    unreachable!()
}
