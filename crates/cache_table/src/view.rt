//! What a pass knows, of which the rule of the table speaks.
ghost use Rattle.std.specs.Prelude.{ℕ, List, Option};
ghost use Rattle.std.specs.Borrow.{ftrue};
ghost use Rattle.cache_policy.specs.Policy.{PolicyView};
ghost use Rattle.region_cell.specs.Cells.{CellMetadata};
ghost use Rattle.cache_door.specs.declared.hold.Hold.{Hold};
ghost use Rattle.cache_table.specs.Abouts.{About};

use std::marker::Model;

/// What a pass knows. It exists in proofs alone: no value of it is made.
///
/// A place is the place of a word in the table. What is said to be of the last turn of the cache, or since it, is
/// forgotten when the pass takes the next one.
pub struct View {
    /// What the cache was made with.
    pub ghost about: { About },
    /// Its shares, of 64 in all. A view without one is spent.
    pub ghost shares: { ℕ },
    /// The turns that it has, the last one first: the place of the word, and the word's other bits.
    pub ghost turns: { List (ℕ × ℕ) },
    /// Its hold, or none.
    pub ghost hold: { Option Hold },
    /// The mounts that it unmounted.
    pub ghost unmounted: { List ℕ },
    /// The mounts that it has seen gone.
    pub ghost gone: { List ℕ },
    /// The note: how many words it loaded, or found when it lost a take.
    pub ghost looks: { ℕ },
    /// The last word loaded, with its place.
    pub ghost loaded: { ℕ × ℕ },
    /// The last word found when a take was lost, with its place.
    pub ghost found: { ℕ × ℕ },
    /// How many turns of the cache it took.
    pub ghost cache_turns: { ℕ },
    /// The policy as it was when the last of them was taken.
    pub ghost taken: { PolicyView },
    /// The policy as it was when the last of them was given.
    pub ghost given: { PolicyView },
    /// The mounts that it had unmounted when the last of them was taken.
    pub ghost unmounted_then: { List ℕ },
    /// The mount whose word it loaded since the last of them was taken, or 4,096 where it loaded none, and that word.
    pub ghost mount_word: { ℕ × ℕ },
    /// The places of the words that it found with a hold, while it had none itself, since the last of them was taken.
    pub ghost found_held: { List ℕ },
    /// How many turns of regions it took.
    pub ghost region_turns: { ℕ },
    /// The place of the word of the last of them.
    pub ghost last_region: { ℕ },
    /// That region's cell, but for its bytes, as it was when the turn was taken.
    pub ghost cell: { CellMetadata },
    /// The place, the tag and the number of bytes of each cell that it took out since the last turn of the cache was
    /// taken.
    pub ghost noted: { List (ℕ × ℕ × ℕ) },
    /// How many turns of regions it gave in which the frame's count of failures had risen.
    pub ghost faults: { ℕ },
}

impl Model for View {
    ghost also_owns = { λ _. ftrue };
}
