//! The shared cache, and the steps on its words.
ghost use Rattle.std.specs.Prelude.{◌≡◌, ◌≢◌, ℕ, ◌+◌, ◌*◌, ◌/◌, ◌%◌, ◌<◌, ◌≤◌, [], ◌∷◌, List};
ghost use Rattle.blob_parts.specs.Content.{content};
ghost use Rattle.atomic_table.specs.Table.{rest};
ghost use Rattle.cache_table.specs.Rule.{last_place, Fits, regions_in, times};
ghost use Rattle.cache_table.specs.Plays.{Changes, Settles, gave, looked, lost, Taken};
ghost use Rattle.cache_table.specs.Calls.{Waited, OnTop, InHand};

use crate::home::Home;
use crate::key::Key;
use crate::rule::{Give, Keeper, Leaves, Look, Take};
use crate::view::View;
use atomic_table::{Seat, Table};
use cache_door::Hold;
use cache_outside::{Archive, Frame};
use region_ranges::Config;
use sparse_tracker::{gap_weights, ticket_weights};
use std::alloc::Global;
use std::marker::Model;
use std::sync::Wait;
use std::{hint, thread};

// How often who waits for a turn looks again before the processor is handed on. A turn is short.
const SPINS: u32 = 64;

pub type Place<A, F> = Seat<Home<A, F>, View>;

/// A cache of regions that threads share: one policy, and a cell for each region. Each step on it is one step on a
/// word of a table, and between any two steps the rule of the table holds.
///
/// Clauses see which cache it is, and what it was made with.
#[derive(Drop)]
pub struct SharedCache<A: Archive, F: Frame> {
    pub(crate) table: Table<Home<A, F>, View, Key<F>, Keeper, Global>,
    pub(crate) config: Config,
}

impl<A: Archive, F: Frame> Model for SharedCache<A, F> {
    ghost use Rattle.std.specs.Prelude.{◌≡◌, ◌+◌, ◌*◌};
    ghost use Rattle.region_ranges.specs.Keys.{IsConfig};
    ghost use Rattle.cache_table.specs.Keys.{about_of};
    ghost use Rattle.cache_table.specs.Views.{CacheView};

    ghost Value = { CacheView };

    ghost view = { λ c. record { id = c.table.shared.table_id; about = about_of F.view c.table.shared.key } };

    ghost invariant = { λ c.
        (c.config ≡ c.table.shared.key.config)
        × IsConfig c.config
        × (c.table.shared.table_id.words ≡ 8 * c.config.regions + 1 + 4096)
        × (c.table.shared.table_id.slots ≡ 8 * c.config.regions + 1) };
}

impl<A: Archive + Drop, F: Frame + Drop> SharedCache<A, F> {
    // One try, with the word that was loaded last, of the same place. The word as it was found.
    pub(crate) fn try_take(&self, seat: &mut Place<A, F>, at: usize, seen: u64) -> u64
        requires id { seat.old.table_id ≡ self.now.id }
        requires place { (at ≤ last_place self.now.about) × (at % 8 ≡ 0) × (seen % 2 ≡ 0) }
        requires may { (0 < seat.old.me.0.shares) × (0 < at → regions_in seat.old.me.0.turns ≡ 0) }
        requires tried { seat.old.me.0.loaded ≡ (at, seen) }
        ensures id { (seat.new.table_id ≡ seat.old.table_id) × (seat.new.id ≡ seat.old.id) }
        ensures took { result ≡ seen → Taken A.tells (content A.blobs) at result seat.old.me seat.new.me }
        ensures lost { result ≢ seen → seat.new.me ≡ (lost at result seat.old.me.0, seat.old.me.1) }
    {
        ticket_weights();
        gap_weights();
        self.table
            .shared
            .compare_exchange::<Take>(seat, at, seen, seen + 1)
    }

    // A turn word is loaded only by who does not have its turn.
    pub(crate) fn look(&self, seat: &mut Place<A, F>, at: usize) -> u64
        requires id { seat.old.table_id ≡ self.now.id }
        requires place { at ≤ last_place self.now.about }
        requires other { times at seat.old.me.0.turns ≡ 0 }
        ensures id { (seat.new.table_id ≡ seat.old.table_id) × (seat.new.id ≡ seat.old.id) }
        ensures looked { seat.new.me ≡ (looked at result seat.old.me.0, seat.old.me.1) }
    {
        self.table.shared.load::<Look>(seat, at)
    }

    // Waits for the turn, first by looking again, then by handing the processor on each time. The word at which it was
    // taken.
    pub(crate) fn take<R: Wait>(&self, rt: &R, seat: &mut Place<A, F>, at: usize) -> u64
        requires id { seat.old.table_id ≡ self.now.id }
        requires place { (at ≤ last_place self.now.about) × (at % 8 ≡ 0) }
        requires may { (0 < seat.old.me.0.shares) × (0 < at → regions_in seat.old.me.0.turns ≡ 0) }
        requires other { times at seat.old.me.0.turns ≡ 0 }
        ensures id { (seat.new.table_id ≡ seat.old.table_id) × (seat.new.id ≡ seat.old.id) }
        ensures even { result % 2 ≡ 0 }
        ensures took { (m : _) × Waited seat.old.me.0 m × Taken A.tells (content A.blobs) at result (m, seat.old.me.1)
            seat.new.me }
    {
        let mut tries = 0;
        for _ in rt.forever() {
            let seen = self.look(seat, at);
            if seen % 2 == 0 && self.try_take(seat, at, seen) == seen {
                return seen;
            }
            if tries < SPINS {
                tries += 1;
                hint::spin_loop();
            } else {
                thread::yield_now();
            }
        }
        unreachable!()
    }

    // The value comes home, and the turn is given. `H` says which hold the pass has afterwards.
    pub(crate) fn give<H: Leaves>(
        &self,
        seat: &mut Place<A, F>,
        at: usize,
        word: u64,
        new: u64,
        home: Home<A, F>,
        _hold: Option<Hold>,
    )
        requires id { seat.old.table_id ≡ self.now.id }
        requires place { (at ≤ last_place self.now.about) × (word % 2 ≡ 0) × (new % 2 ≡ 0) }
        requires may { 0 < seat.old.me.0.shares }
        requires turn { OnTop at word seat.old.me.0 × InHand at seat.old.me }
        requires changes { Changes at (word + 1) new seat.old.me.0.hold H.hold }
        requires home { Fits A.tells (content A.blobs) self.now.about at new home
            × Settles at seat.old.me.0 H.hold home }
        ensures id { (seat.new.table_id ≡ seat.old.table_id) × (seat.new.id ≡ seat.old.id) }
        ensures gave { seat.new.me ≡ (gave H.hold home seat.old.me.0, rest seat.old.me.1) }
    {
        let Home::Away = self.table.shared.exchange(seat, at, home) else {
            unreachable!()
        };
        self.table.shared.store::<Give<H>>(seat, at, new);
    }
}

// A missing proof of `Send` or `Sync` shows here, and not first at the threads above.
fn crosses<T: Send>() {}

fn is_shared<T: Sync>() {}

/// A cache may be handed to another thread, and be lent to several.
pub fn cache_crosses<A: Archive + Send + Sync + Drop, F: Frame + Send + Drop>() {
    crosses::<SharedCache<A, F>>();
    is_shared::<SharedCache<A, F>>();
}
