//! The shelves of a run's mounts.
ghost use Rattle.std.specs.Prelude.{◌≡◌, ◌<◌, ℕ, [], OnOk, length};
ghost use Rattle.script_run.specs.Shelves.{shelf_at, OneTaken, MayPut};

use shard_search::Shelf;
use std::alloc::{AllocError, Global};
use std::marker::Model;
use std::mem;

/// What a run keeps of its mounts from search to search: a shelf for each, by the numbers of the mounts. Clauses see
/// the list of what the shelves keep; behind the last one nothing is kept.
#[derive(Drop)]
pub struct Shelves {
    alloc: Global,
    shelves: Vec<Shelf>,
}

impl Model for Shelves {
    ghost use Rattle.std.specs.Prelude.{List, Option};
    ghost use Rattle.simpletext_postings.specs.Terms.{TermTable};

    ghost Value = { List (List (Option TermTable)) };

    ghost view = { λ s. s.shelves.items };
}

impl Shelves {
    /// Keeps nothing yet; takes no memory.
    pub fn new(alloc: Global) -> Shelves
        ensures { result ≡ [] }
    {
        Shelves {
            alloc,
            shelves: Vec::new(alloc),
        }
    }

    /// Takes the shelf of the mount with this number out; an empty one is left.
    pub(crate) fn take(&mut self, mount: u32) -> Shelf
        ensures shelf { result ≡ shelf_at self.old mount }
        ensures left { OneTaken mount self.old self.new }
    {
        let place = mount as usize;
        let empty = Shelf::new(self.alloc);
        if place >= self.shelves.len() {
            return empty;
        }
        mem::replace(&mut self.shelves[place], empty)
    }

    /// Puts the shelf of the mount with this number in. Where there is no memory for its place, the shelf is let go.
    pub(crate) fn put(&mut self, mount: u32, shelf: Shelf)
        ensures { MayPut mount shelf self.old self.new }
    {
        let place = mount as usize;
        if reach(&mut self.shelves, self.alloc, place).is_ok() {
            self.shelves[place] = shelf;
        }
    }
}

/// Makes places up to this one, with empty shelves.
fn reach(shelves: &mut Vec<Shelf>, alloc: Global, place: usize) -> Result<(), AllocError>
    requires { place < 4294967296 }
    ensures reached { OnOk result (place < length shelves.new.items) }
    ensures same { (i : ℕ) → shelf_at shelves.new.items i ≡ shelf_at shelves.old.items i }
{
    for _place in shelves.len()..place + 1 {
        let empty = Shelf::new(alloc);
        shelves.push(empty)?;
    }
    Ok(())
}
