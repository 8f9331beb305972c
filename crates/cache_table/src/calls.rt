//! The calls of a pass that holds a region, and the look of one that holds none.
ghost use Rattle.std.specs.Prelude.{◌≡◌, ◌≢◌, ◌↔◌, ◌∷◌, ℕ, List, ◌+◌, ◌-◌, ◌<◌, ◌≤◌, ◌^◌, IsTrue, OnOk};
ghost use Rattle.std.specs.Prelude.{OnErr, IsErr};
ghost use Rattle.std.specs.Prelude.{IfOk, IfSome, true, length, [], ◌∷◌, Some, None, Ok};
ghost use Rattle.blob_parts.specs.Content.{content, slice_of};
ghost use Rattle.region_ranges.specs.Keys.{tag_of as key_tag};
ghost use Rattle.sparse_tracker.specs.ByteStates.{lacks};
ghost use Rattle.region_cell.specs.Cells.{region_bytes};
ghost use Rattle.region_cell.specs.declared.taken.Taken.TheVariants as taken;
ghost use Rattle.cache_door.specs.declared.answers.Entered.TheVariants as entered;
ghost use Rattle.cache_door.specs.declared.answers.Glance.TheVariants as glance;
ghost use Rattle.cache_door.specs.Doors.{hold_view, entry_hold, stored_hold, failed_hold, nothing, FitsGap, IsWant};
ghost use Rattle.cache_door.specs.Doors.{HasLength, IsEntry, Works, no_work, entry_work, take_work, glance_work};
ghost use Rattle.cache_door.specs.Doors.{store_work};
ghost use Rattle.cache_table.specs.Rule.{place};
ghost use Rattle.cache_table.specs.Calls.{Stays, StaysBut, Faults, Glanced, IsMarked, TookRegion};
ghost use Rattle.cache_table.specs.Views.{IsOf};

use crate::cache::{Place, SharedCache};
use crate::pass::Pass;
use atomic_table::Badge;
use blob_parts::Piece;
use cache_door::{Entered, Glance, Want};
use cache_outside::{Archive, Frame, FrameFault};
use region_cell::Taken;
use std::alloc::AllocError;
use std::mem;
use std::sync::Wait;

impl<A: Archive + Drop, F: Frame + Drop> SharedCache<A, F> {
    // Copies the wanted bytes of the held region, once nobody fetches one of them any more, and never answers
    // `Waiting`. After any answer but `Copied` `out` may hold anything.
    pub(crate) fn take_bytes<R: Wait>(&self, rt: &R, pass: &mut Pass<A>, out: &mut [u8]) -> Taken
        requires of { IsOf self.now pass.old }
        requires held { (hold_view pass.old.view.hold).held ≡ true }
        requires len { length out.old ≡ (hold_view pass.old.view.hold).sub.end
            - (hold_view pass.old.view.hold).sub.start }
        ensures id { pass.new.id ≡ pass.old.id }
        ensures stays { Stays pass.old.view pass.new.view }
        ensures hold { pass.new.view.hold ≡ pass.old.view.hold }
        ensures work { Works pass.old.work pass.new.work (take_work result) }
        ensures waited { result ≢ taken.Waiting }
        ensures turns { (pass.old.view.region_turns < pass.new.view.region_turns)
            × (pass.new.view.last_region ≡ place (hold_view pass.old.view.hold).region)
            × (pass.new.view.cache_turns ≡ pass.old.view.cache_turns) }
        ensures tag { pass.new.view.cell.region.tag ≡ (hold_view pass.old.view.hold).tag }
        ensures marked { result ≡ taken.Failed → IfSome pass.old.view.hold (λ h.
            IsMarked h.ticket pass.new.view.cell.region.tracker) }
        ensures failed { (result ≡ taken.Failed) ↔ IsTrue (lacks (hold_view pass.old.view.hold).sub
            pass.new.view.cell.region.tracker) }
        ensures faults { Faults self.now.about (result ≡ taken.FrameFault) pass.old.view pass.new.view }
        ensures bytes { IsTrue A.tells → IsTrue self.now.about.tells → result ≡ taken.Copied →
            out.new ≡ slice_of (region_bytes (content A.blobs) self.now.about.config.region
            (hold_view pass.old.view.hold).tag) (hold_view pass.old.view.hold).sub.start
            ((hold_view pass.old.view.hold).sub.end - (hold_view pass.old.view.hold).sub.start) }
    {
        let Some(hold) = pass.hold else {
            unreachable!()
        };
        let badge = mem::replace(&mut pass.badge, Badge::blank());
        let mut seat: Place<A, F> = badge.into_seat();
        let taken = self.take_bytes_seat(rt, &mut seat, &hold, out);
        pass.badge = seat.into_badge();
        pass.work.take(&taken);
        taken
    }

    // Stores a piece of the hold's gap, at its present end, which moves behind it.
    pub(crate) fn store<R: Wait>(
        &self,
        rt: &R,
        pass: &mut Pass<A>,
        piece: &Piece<A>,
    ) -> Result<(), FrameFault>
        requires of { IsOf self.now pass.old }
        requires held { (hold_view pass.old.view.hold).held ≡ true }
        requires piece { FitsGap self.now.about.config.region (hold_view pass.old.view.hold) piece.now }
        ensures id { pass.new.id ≡ pass.old.id }
        ensures stays { Stays pass.old.view pass.new.view }
        ensures hold { hold_view pass.new.view.hold ≡ stored_hold (length piece.now.bytes) result
            (hold_view pass.old.view.hold) }
        ensures work { Works pass.old.work pass.new.work (store_work (length piece.now.bytes) result) }
        ensures turn { TookRegion (place (hold_view pass.old.view.hold).region) pass.old.view pass.new.view }
        ensures tag { pass.new.view.cell.region.tag ≡ (hold_view pass.old.view.hold).tag }
        ensures faults { Faults self.now.about (IsErr result) pass.old.view pass.new.view }
    {
        let Some(mut hold) = pass.hold else {
            unreachable!()
        };
        let badge = mem::replace(&mut pass.badge, Badge::blank());
        let mut seat: Place<A, F> = badge.into_seat();
        let stored = self.store_seat(rt, &mut seat, &mut hold, piece);
        pass.badge = seat.into_badge();
        pass.hold = Some(hold);
        match stored {
            Ok(()) => pass.work.store(piece.bytes().len() as u64),
            Err(FrameFault) => pass.work.turn_away(),
        }
        stored
    }

    // Gives the hold's gap up.
    pub(crate) fn fail<R: Wait>(&self, rt: &R, pass: &mut Pass<A>)
        requires of { IsOf self.now pass.old }
        requires held { (hold_view pass.old.view.hold).held ≡ true }
        requires open { (hold_view pass.old.view.hold).upto < (hold_view pass.old.view.hold).gap_end }
        ensures id { pass.new.id ≡ pass.old.id }
        ensures stays { Stays pass.old.view pass.new.view }
        ensures hold { hold_view pass.new.view.hold ≡ failed_hold (hold_view pass.old.view.hold) }
        ensures work { Works pass.old.work pass.new.work no_work }
        ensures turn { TookRegion (place (hold_view pass.old.view.hold).region) pass.old.view pass.new.view }
        ensures tag { pass.new.view.cell.region.tag ≡ (hold_view pass.old.view.hold).tag }
        ensures faults { Faults self.now.about ⊥ pass.old.view pass.new.view }
    {
        let Some(mut hold) = pass.hold else {
            unreachable!()
        };
        let badge = mem::replace(&mut pass.badge, Badge::blank());
        let mut seat: Place<A, F> = badge.into_seat();
        self.fail_seat(rt, &mut seat, &mut hold);
        pass.badge = seat.into_badge();
        pass.hold = Some(hold);
        pass.work.rest();
    }

    // Gives the hold back.
    pub(crate) fn leave<R: Wait>(&self, rt: &R, pass: &mut Pass<A>)
        requires of { IsOf self.now pass.old }
        requires held { (hold_view pass.old.view.hold).held ≡ true }
        requires closed { (hold_view pass.old.view.hold).gap_end ≤ (hold_view pass.old.view.hold).upto }
        ensures id { pass.new.id ≡ pass.old.id }
        ensures stays { Stays pass.old.view pass.new.view }
        ensures hold { pass.new.view.hold ≡ None }
        ensures work { Works pass.old.work pass.new.work no_work }
        ensures turn { TookRegion (place (hold_view pass.old.view.hold).region) pass.old.view pass.new.view }
        ensures tag { pass.new.view.cell.region.tag ≡ (hold_view pass.old.view.hold).tag }
        ensures faults { Faults self.now.about ⊥ pass.old.view pass.new.view }
    {
        let Some(hold) = pass.hold else {
            unreachable!()
        };
        let badge = mem::replace(&mut pass.badge, Badge::blank());
        let mut seat: Place<A, F> = badge.into_seat();
        self.leave_seat(rt, &mut seat, &hold);
        pass.badge = seat.into_badge();
        pass.hold = None;
        pass.work.rest();
    }

    /// Copies the wanted bytes out of a region that is not held, and waits for nobody: the region's word is loaded
    /// once, and its turn is tried for once. No access is counted.
    ///
    /// `Moved` comes where the word has another key's tag, `Busy` where its turn was taken or the word had changed by
    /// the try, both with the word and without a turn. `Absent` comes where the cell lacked a wanted byte in its turn,
    /// `FrameFault` only where the frame's count of failures rose. After any answer but `Copied` `out` may hold
    /// anything.
    pub fn glance_free(
        &self,
        pass: &mut Pass<A>,
        region: u32,
        want: &Want,
        out: &mut [u8],
    ) -> Glance
        requires of { IsOf self.now pass.old }
        requires free { hold_view pass.old.view.hold ≡ nothing }
        requires region { region < self.now.about.config.regions }
        requires want { IsWant self.now.about.config want.now }
        requires len { length out.old ≡ want.now.sub.end - want.now.sub.start }
        ensures id { pass.new.id ≡ pass.old.id }
        ensures stays { Stays pass.old.view pass.new.view }
        ensures hold { hold_view pass.new.view.hold ≡ nothing }
        ensures work { Works pass.old.work pass.new.work (glance_work result) }
        ensures cause { Glanced (place region) want.now pass.old.view pass.new.view result }
        ensures faults { Faults self.now.about (result ≡ glance.FrameFault) pass.old.view pass.new.view }
        ensures bytes { IsTrue A.tells → IsTrue self.now.about.tells → result ≡ glance.Copied →
            out.new ≡ slice_of (region_bytes (content A.blobs) self.now.about.config.region (key_tag want.now.key))
            want.now.sub.start (want.now.sub.end - want.now.sub.start) }
    {
        let badge = mem::replace(&mut pass.badge, Badge::blank());
        let mut seat: Place<A, F> = badge.into_seat();
        let seen = self.glance_seat(&mut seat, region, want, out);
        pass.badge = seat.into_badge();
        pass.work.glance(&seen);
        seen
    }
}
