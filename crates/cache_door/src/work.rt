//! Counts of what a door has done: callers turned away, bytes stored, decays and clears.

ghost use Rattle.std.specs.Prelude.{◌≡◌};
ghost use Rattle.cache_door.specs.Doors.{Works, no_work, turned_away_once, entered_work, take_work, glance_work};

use crate::answers::{Entered, Glance};
use region_cell::Taken;

/// The counts of a door's work. Each stands still at its last value.
#[derive(Clone, Copy, Debug, PartialEq, Eq)]
pub struct Work {
    /// how often an answer turned the caller away: no room, bytes that are not there, or a fault of a frame
    pub turned_away: u64,
    /// how many bytes were stored
    pub stored: u64,
    /// how many decays there were
    pub decays: u64,
    /// how many clears there were
    pub clears: u64,
}

impl Work {
    /// All counts are 0.
    pub fn new() -> Work
        ensures { result ≡ no_work }
    {
        Work {
            turned_away: 0,
            stored: 0,
            decays: 0,
            clears: 0,
        }
    }

    /// No count rose.
    pub fn rest(&self)
        ensures { Works self.now self.now no_work }
    {
        let _turned_away = self.turned_away;
        let _stored = self.stored;
        let _decays = self.decays;
        let _clears = self.clears;
    }

    /// The caller was turned away.
    pub fn turn_away(&mut self)
        ensures { Works self.old self.new turned_away_once }
    {
        self.turned_away = self.turned_away.saturating_add(1);
        self.rest();
    }

    /// An entry was answered so.
    pub fn enter(&mut self, answer: &Entered)
        ensures { Works self.old self.new (entered_work answer.now) }
    {
        match answer {
            Entered::NoRoom => self.turn_away(),
            _ => self.rest(),
        }
    }

    /// A copy of the held bytes was answered so.
    pub fn take(&mut self, answer: &Taken)
        ensures { Works self.old self.new (take_work answer.now) }
    {
        match answer {
            Taken::Copied => self.rest(),
            _ => self.turn_away(),
        }
    }

    /// A glance was answered so.
    pub fn glance(&mut self, answer: &Glance)
        ensures { Works self.old self.new (glance_work answer.now) }
    {
        match answer {
            Glance::FrameFault => self.turn_away(),
            _ => self.rest(),
        }
    }

    /// So many bytes were stored.
    pub fn store(&mut self, bytes: u64)
        ensures { Works self.old self.new (record no_work { stored = bytes }) }
    {
        self.stored = self.stored.saturating_add(bytes);
        self.rest();
    }

    /// There was a decay.
    pub fn decay(&mut self)
        ensures { Works self.old self.new (record no_work { decays = 1 }) }
    {
        self.decays = self.decays.saturating_add(1);
        self.rest();
    }

    /// Another's counts are added.
    pub fn add(&mut self, other: &Work)
        ensures { Works self.old self.new other.now }
    {
        self.turned_away = self.turned_away.saturating_add(other.turned_away);
        self.stored = self.stored.saturating_add(other.stored);
        self.decays = self.decays.saturating_add(other.decays);
        self.clears = self.clears.saturating_add(other.clears);
        self.rest();
    }

    /// There was a clear.
    pub fn clear(&mut self)
        ensures { Works self.old self.new (record no_work { clears = 1 }) }
    {
        self.clears = self.clears.saturating_add(1);
        self.rest();
    }
}
