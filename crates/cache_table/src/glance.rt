//! A look at a region that waits for nobody.
ghost use Rattle.std.specs.Prelude.{◌≡◌, ◌≢◌, ◌⊎◌, ℕ, ◌+◌, ◌-◌, ◌*◌, ◌/◌, ◌%◌, ◌<◌, ◌≤◌, IsTrue, IfOk, IfErr};
ghost use Rattle.std.specs.Prelude.{length};
ghost use Rattle.std.specs.Prelude.{[], ◌∷◌, None};
ghost use Rattle.atomic_table.specs.Table.{rest};
ghost use Rattle.blob_parts.specs.Content.{content, slice_of};
ghost use Rattle.region_ranges.specs.Keys.{tag_of as key_tag};
ghost use Rattle.region_cell.specs.Cells.{region_bytes};
ghost use Rattle.cache_door.specs.declared.answers.Glance.TheVariants as glance;
ghost use Rattle.cache_door.specs.Doors.{IsWant};
ghost use Rattle.cache_table.specs.declared.home.Home.TheVariants.{Away, Cell as the_cell};
ghost use Rattle.cache_table.specs.Rule.{place, last_place, Suits, regions_in};
ghost use Rattle.cache_table.specs.Plays.{Counted, lost, took_cell};
ghost use Rattle.cache_table.specs.Calls.{AtRest, Faults, Stays, Glanced};

use crate::boxed::Boxed;
use crate::cache::{Place, SharedCache};
use crate::home::Home;
use cache_door::{Glance, Want, look};
use cache_outside::{Archive, Frame};
use region_cell::RegionCell;

impl<A: Archive + Drop, F: Frame + Drop> SharedCache<A, F> {
    // One try at a region's turn: the word as it was found, and the cell where the turn was taken.
    fn try_cell(
        &self,
        seat: &mut Place<A, F>,
        at: usize,
        seen: u64,
    ) -> Result<Boxed<RegionCell<A, F>>, u64>
        requires id { seat.old.table_id ≡ self.now.id }
        requires place { (0 < at) × (at ≤ last_place self.now.about) × (at % 8 ≡ 0) × (seen % 2 ≡ 0) }
        requires may { (0 < seat.old.me.0.shares) × (regions_in seat.old.me.0.turns ≡ 0) }
        requires about { seat.old.me.0.about ≡ self.now.about }
        requires tried { seat.old.me.0.loaded ≡ (at, seen) }
        ensures id { (seat.new.table_id ≡ seat.old.table_id) × (seat.new.id ≡ seat.old.id) }
        ensures ok { IfOk result (λ c. (seat.new.me ≡ (took_cell at seen c seat.old.me.0, (at, Away) ∷ seat.old.me.1))
            × Suits A.tells (content A.blobs) self.now.about seen c) }
        ensures err { IfErr result (λ x. (x ≢ seen) × (seat.new.me ≡ (lost at x seat.old.me.0, seat.old.me.1))) }
    {
        let found = self.try_take(seat, at, seen);
        if found != seen {
            return Err(found);
        }
        match self.table.shared.exchange(seat, at, Home::Away) {
            Home::Cell(cell) => Ok(cell),
            _ => unreachable!(),
        }
    }

    pub(crate) fn glance_seat(
        &self,
        seat: &mut Place<A, F>,
        region: u32,
        want: &Want,
        out: &mut [u8],
    ) -> Glance
        requires id { seat.old.table_id ≡ self.now.id }
        requires rests { AtRest self.now.about seat.old.me }
        requires free { seat.old.me.0.hold ≡ None }
        requires region { region < self.now.about.config.regions }
        requires want { IsWant self.now.about.config want.now }
        requires len { length out.old ≡ want.now.sub.end - want.now.sub.start }
        ensures id { (seat.new.table_id ≡ seat.old.table_id) × (seat.new.id ≡ seat.old.id) }
        ensures rests { AtRest self.now.about seat.new.me }
        ensures stays { Stays seat.old.me.0 seat.new.me.0 × (seat.new.me.0.hold ≡ None) }
        ensures cause { Glanced (place region) want.now seat.old.me.0 seat.new.me.0 result }
        ensures faults { Faults self.now.about (result ≡ glance.FrameFault) seat.old.me.0 seat.new.me.0 }
        ensures bytes { IsTrue A.tells → IsTrue self.now.about.tells → result ≡ glance.Copied →
            out.new ≡ slice_of (region_bytes (content A.blobs) self.now.about.config.region (key_tag want.now.key))
            want.now.sub.start (want.now.sub.end - want.now.sub.start) }
    {
        let at = 8 * (region as usize + 1);
        let seen = self.look(seat, at);
        if seen / 256 != want.key.pack() {
            return Glance::Moved(seen);
        }
        if seen % 2 == 1 {
            return Glance::Busy(seen);
        }
        match self.try_cell(seat, at, seen) {
            Err(found) => Glance::Busy(found),
            Ok(mut boxed) => {
                let cell = boxed.get_mut();
                cell.lesson();
                let answer = look(cell, want, out);
                cell.lesson();
                self.give_cell(seat, at, seen, seen, boxed, None);
                answer
            }
        }
    }
}
