//! The calls of a pass that holds a region.
ghost use Rattle.std.specs.Prelude.{◌≡◌, ◌≢◌, ◌↔◌, ℕ, ◌+◌, ◌-◌, ◌*◌, ◌/◌, ◌%◌, ◌<◌, ◌≤◌, IsTrue, OnOk, OnErr};
ghost use Rattle.std.specs.Prelude.{IsErr};
ghost use Rattle.std.specs.Prelude.{IfOk, List, length, [], ◌∷◌, ◌++◌, Option, Some, None};
ghost use Rattle.blob_parts.specs.Content.{content, slice_of};
ghost use Rattle.region_ranges.specs.Keys.{manifest_of};
ghost use Rattle.sparse_tracker.specs.ByteStates.{has_all, lacks};
ghost use Rattle.region_cell.specs.Cells.{region_bytes, file_of, part_of};
ghost use Rattle.region_cell.specs.declared.taken.Taken.TheVariants as taken;
ghost use Rattle.cache_door.specs.Machine.{no_gap};
ghost use Rattle.cache_door.specs.Doors.{FitsGap, hold_view};
ghost use Rattle.cache_table.specs.Rule.{place};
ghost use Rattle.cache_table.specs.Calls.{AtRest, OneTurn, Faults, Stays, IsMarked};

use crate::cache::{Place, SharedCache};
use blob_parts::Piece;
use cache_door::Hold;
use cache_outside::{Archive, Frame, FrameFault};
use region_cell::Taken;
use sparse_tracker::{OpenGap, gap_weights, ticket_weights};
use std::sync::Wait;
use std::thread;

impl<A: Archive + Drop, F: Frame + Drop> SharedCache<A, F> {
    // One turn of the held region.
    fn copy_once<R: Wait>(
        &self,
        rt: &R,
        seat: &mut Place<A, F>,
        hold: &Hold,
        out: &mut [u8],
    ) -> Taken
        requires id { seat.old.table_id ≡ self.now.id }
        requires rests { AtRest self.now.about seat.old.me }
        requires held { seat.old.me.0.hold ≡ Some hold.now }
        requires place { hold.now.region < self.now.about.config.regions }
        requires len { length out.old ≡ hold.now.sub.end - hold.now.sub.start }
        ensures id { (seat.new.table_id ≡ seat.old.table_id) × (seat.new.id ≡ seat.old.id) }
        ensures rests { AtRest self.now.about seat.new.me }
        ensures turn { OneTurn (place hold.now.region) (Some hold.now) seat.old.me.0 seat.new.me.0 }
        ensures tag { seat.new.me.0.cell.region.tag ≡ hold.now.tag }
        ensures failed { (result ≡ taken.Failed) ↔ IsTrue (lacks hold.now.sub seat.new.me.0.cell.region.tracker) }
        ensures marked { result ≡ taken.Failed → IsMarked hold.now.ticket seat.new.me.0.cell.region.tracker }
        ensures faults { Faults self.now.about (result ≡ taken.FrameFault) seat.old.me.0 seat.new.me.0 }
        ensures bytes { IsTrue A.tells → IsTrue self.now.about.tells → result ≡ taken.Copied →
            out.new ≡ slice_of (region_bytes (content A.blobs) self.now.about.config.region hold.now.tag)
            hold.now.sub.start (hold.now.sub.end - hold.now.sub.start) }
    {
        let at = 8 * (hold.region as usize + 1);
        let (word, mut boxed) = self.take_cell(rt, seat, at);
        let cell = boxed.get_mut();
        let taken = cell.copy(hold.ticket, out);
        cell.lesson();
        self.give_cell(seat, at, word, word, boxed, Some(*hold));
        taken
    }

    /// The wanted bytes, once nobody fetches one of them any more.
    pub(crate) fn take_bytes_seat<R: Wait>(
        &self,
        rt: &R,
        seat: &mut Place<A, F>,
        hold: &Hold,
        out: &mut [u8],
    ) -> Taken
        requires id { seat.old.table_id ≡ self.now.id }
        requires rests { AtRest self.now.about seat.old.me }
        requires held { seat.old.me.0.hold ≡ Some hold.now }
        requires place { hold.now.region < self.now.about.config.regions }
        requires len { length out.old ≡ hold.now.sub.end - hold.now.sub.start }
        ensures id { (seat.new.table_id ≡ seat.old.table_id) × (seat.new.id ≡ seat.old.id) }
        ensures rests { AtRest self.now.about seat.new.me }
        ensures stays { Stays seat.old.me.0 seat.new.me.0 × (seat.new.me.0.hold ≡ Some hold.now) }
        ensures waited { result ≢ taken.Waiting }
        ensures turns { (seat.old.me.0.region_turns < seat.new.me.0.region_turns)
            × (seat.new.me.0.last_region ≡ place hold.now.region)
            × (seat.new.me.0.cache_turns ≡ seat.old.me.0.cache_turns) }
        ensures tag { seat.new.me.0.cell.region.tag ≡ hold.now.tag }
        ensures failed { (result ≡ taken.Failed) ↔ IsTrue (lacks hold.now.sub seat.new.me.0.cell.region.tracker) }
        ensures marked { result ≡ taken.Failed → IsMarked hold.now.ticket seat.new.me.0.cell.region.tracker }
        ensures faults { Faults self.now.about (result ≡ taken.FrameFault) seat.old.me.0 seat.new.me.0 }
        ensures bytes { IsTrue A.tells → IsTrue self.now.about.tells → result ≡ taken.Copied →
            out.new ≡ slice_of (region_bytes (content A.blobs) self.now.about.config.region hold.now.tag)
            hold.now.sub.start (hold.now.sub.end - hold.now.sub.start) }
    {
        for _ in rt.forever() {
            let taken = self.copy_once(rt, seat, hold, out);
            if taken != Taken::Waiting {
                return taken;
            }
            thread::yield_now();
        }
        unreachable!()
    }

    pub(crate) fn store_seat<R: Wait>(
        &self,
        rt: &R,
        seat: &mut Place<A, F>,
        hold: &mut Hold,
        piece: &Piece<A>,
    ) -> Result<(), FrameFault>
        requires id { seat.old.table_id ≡ self.now.id }
        requires rests { AtRest self.now.about seat.old.me }
        requires held { seat.old.me.0.hold ≡ Some hold.old }
        requires place { hold.old.region < self.now.about.config.regions }
        requires piece { FitsGap self.now.about.config.region (hold_view (Some hold.old)) piece.now }
        ensures id { (seat.new.table_id ≡ seat.old.table_id) × (seat.new.id ≡ seat.old.id) }
        ensures rests { AtRest self.now.about seat.new.me }
        ensures turn { OneTurn (place hold.old.region) (Some hold.new) seat.old.me.0 seat.new.me.0 }
        ensures tag { seat.new.me.0.cell.region.tag ≡ hold.old.tag }
        ensures ok { OnOk result (hold.new ≡ record hold.old
            { gap = record hold.old.gap { upto = hold.old.gap.upto + length piece.now.bytes } }) }
        ensures err { OnErr result (hold.new ≡ hold.old) }
        ensures faults { Faults self.now.about (IsErr result) seat.old.me.0 seat.new.me.0 }
    {
        ticket_weights();
        gap_weights();
        let at = 8 * (hold.region as usize + 1);
        let (word, mut boxed) = self.take_cell(rt, seat, at);
        let cell = boxed.get_mut();
        cell.lesson();
        match cell.store(hold.gap.id, piece) {
            Ok(()) => {
                cell.lesson();
                *hold = stored(*hold, piece.bytes().len() as u64);
                self.give_cell(seat, at, word, word, boxed, Some(*hold));
                Ok(())
            }
            Err(FrameFault) => {
                cell.lesson();
                self.give_cell(seat, at, word, word, boxed, Some(*hold));
                Err(FrameFault)
            }
        }
    }

    pub(crate) fn fail_seat<R: Wait>(&self, rt: &R, seat: &mut Place<A, F>, hold: &mut Hold)
        requires id { seat.old.table_id ≡ self.now.id }
        requires rests { AtRest self.now.about seat.old.me }
        requires held { seat.old.me.0.hold ≡ Some hold.old }
        requires place { hold.old.region < self.now.about.config.regions }
        requires open { hold.old.gap.upto < hold.old.gap.end }
        ensures id { (seat.new.table_id ≡ seat.old.table_id) × (seat.new.id ≡ seat.old.id) }
        ensures rests { AtRest self.now.about seat.new.me }
        ensures turn { OneTurn (place hold.old.region) (Some hold.new) seat.old.me.0 seat.new.me.0 }
        ensures tag { seat.new.me.0.cell.region.tag ≡ hold.old.tag }
        ensures hold { hold.new ≡ record hold.old { gap = no_gap } }
        ensures faults { Faults self.now.about ⊥ seat.old.me.0 seat.new.me.0 }
    {
        ticket_weights();
        gap_weights();
        let at = 8 * (hold.region as usize + 1);
        let (word, mut boxed) = self.take_cell(rt, seat, at);
        let cell = boxed.get_mut();
        cell.lesson();
        cell.fail(hold.gap.id);
        cell.lesson();
        hold.gap = closed();
        self.give_cell(seat, at, word, word, boxed, Some(*hold));
    }

    pub(crate) fn leave_seat<R: Wait>(&self, rt: &R, seat: &mut Place<A, F>, hold: &Hold)
        requires id { seat.old.table_id ≡ self.now.id }
        requires rests { AtRest self.now.about seat.old.me }
        requires held { seat.old.me.0.hold ≡ Some hold.now }
        requires place { hold.now.region < self.now.about.config.regions }
        requires closed { hold.now.gap.end ≤ hold.now.gap.upto }
        ensures id { (seat.new.table_id ≡ seat.old.table_id) × (seat.new.id ≡ seat.old.id) }
        ensures rests { AtRest self.now.about seat.new.me }
        ensures turn { OneTurn (place hold.now.region) None seat.old.me.0 seat.new.me.0 }
        ensures tag { seat.new.me.0.cell.region.tag ≡ hold.now.tag }
        ensures faults { Faults self.now.about ⊥ seat.old.me.0 seat.new.me.0 }
    {
        ticket_weights();
        gap_weights();
        let at = 8 * (hold.region as usize + 1);
        let (word, mut boxed) = self.take_cell(rt, seat, at);
        let cell = boxed.get_mut();
        cell.lesson();
        cell.leave(hold.ticket);
        cell.lesson();
        self.give_cell(seat, at, word, word - 2, boxed, None);
    }
}

// A gap that is not open.
fn closed() -> OpenGap
    ensures { result ≡ no_gap }
{
    OpenGap {
        id: 0,
        upto: 0,
        end: 0,
    }
}

// The hold after so many bytes of its gap were stored.
fn stored(hold: Hold, count: u64) -> Hold
    requires { hold.gap.upto + count ≤ hold.gap.end }
    ensures { result ≡ record hold { gap = record hold.gap { upto = hold.gap.upto + count } } }
{
    let _end = hold.gap.end;
    Hold {
        gap: OpenGap {
            upto: hold.gap.upto + count,
            ..hold.gap
        },
        ..hold
    }
}
