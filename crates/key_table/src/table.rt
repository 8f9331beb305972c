//! A table from keys to regions, by probing, with a fixed number of places.

ghost use Rattle.std.specs.Prelude.{◌≡◌, ◌<◌, ◌≤◌, ◌+◌, ◌*◌, ◌==◌, ℕ, IfOk, IsSome, Some, None, length};
ghost use Rattle.std.specs.Prelude.{if◌then◌else◌};
ghost use Rattle.std.specs.Int.{IsNextPowerOfTwo};
ghost use Rattle.key_table.specs.Slots.{TableView, IsKept, region_of, keys_len};

use crate::gap::take_out;
use crate::places::{Entry, probe};
use std::alloc::{AllocError, Global};
use std::marker::Model;

/// A fixed table from keys to regions, for a number of keys that is given when it is made. Its size is the least power
/// of two that is at least twice that number. A search begins at `(key * 11400714819323198485 modulo 2^64) / 2^32
/// modulo size` and goes on place by place. A removal closes the gap that it leaves, so a search ends at the first free
/// place.
#[derive(Drop)]
pub struct KeyTable {
    slots: Vec<Option<Entry>>,
    most: u32,
}

impl Model for KeyTable {
    ghost use Rattle.key_table.specs.Slots.{TableView, IsKept};

    ghost Value = { TableView };

    ghost view = { λ t. record { slots = t.slots.items; most = t.most } };

    ghost invariant = { λ t. IsKept (record { slots = t.slots.items; most = t.most }) };
}

impl KeyTable {
    /// An empty table for so many keys. It takes all the memory that the table ever needs.
    pub fn new(alloc: Global, most: u32) -> Result<KeyTable, AllocError>
        ensures most { IfOk result (λ t. t.most ≡ most) }
        ensures empty { IfOk result (λ t. (key : ℕ) → region_of key t ≡ None) }
        ensures len { IfOk result (λ t. keys_len t ≡ 0) }
    {
        let size = (2 * most as usize).next_power_of_two();
        Ok(KeyTable {
            slots: vec![in alloc; None; size]?,
            most,
        })
    }

    /// The region of the key, or None exactly where the table does not have the key.
    pub fn find(&self, key: u64) -> Option<u32>
        ensures { result ≡ region_of key self.now }
    {
        let place = probe(&self.slots, key);
        let Some(entry) = self.slots[place] else {
            return None
        };
        Some(entry.region)
    }

    /// Gives a region to a key that the table does not have.
    pub fn insert(&mut self, key: u64, region: u32)
        requires new { region_of key self.old ≡ None }
        requires room { keys_len self.old < self.old.most }
        ensures regions { (k : ℕ) → region_of k self.new ≡ (if k == key then Some region else region_of k self.old) }
        ensures len { keys_len self.new ≡ keys_len self.old + 1 }
        ensures most { self.new.most ≡ self.old.most }
    {
        let place = probe(&self.slots, key);
        self.slots[place] = Some(Entry { key, region });
    }

    /// Takes a key out that the table has.
    pub fn remove(&mut self, key: u64)
        requires { IsSome (region_of key self.old) }
        ensures regions { (k : ℕ) → region_of k self.new ≡ (if k == key then None else region_of k self.old) }
        ensures len { keys_len self.new + 1 ≡ keys_len self.old }
        ensures most { self.new.most ≡ self.old.most }
    {
        let place = probe(&self.slots, key);
        take_out(&mut self.slots, place);
    }

    /// What is true of every table: its size, that keys differ, and that no place is free on the way from a key's first
    /// place to its entry. A call does nothing else than tell it.
    pub fn lesson(&self)
        ensures { IsKept self.now }
    {
        let _ = &self.slots;
    }
}
