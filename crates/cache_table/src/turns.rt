//! The turns: what is out while one is taken, and what a give leaves.
ghost use Rattle.std.specs.Prelude.{◌≡◌, ◌≢◌, ℕ, ◌+◌, ◌-◌, ◌*◌, ◌/◌, ◌%◌, ◌<◌, ◌≤◌, List, length, [], ◌∷◌};
ghost use Rattle.std.specs.Prelude.{◌++◌};
ghost use Rattle.std.specs.Prelude.{Option, Some, None};
ghost use Rattle.blob_parts.specs.Content.{content};
ghost use Rattle.atomic_table.specs.Table.{rest};
ghost use Rattle.region_cell.specs.Cells.{len_of};
ghost use Rattle.cache_table.specs.declared.home.Home.TheVariants.{Away, Cell as the_cell};
ghost use Rattle.cache_table.specs.Rule.{last_place, Governs, Suits, at_of, tag_held, tag_of, holds_of, count_in, regions_in};
ghost use Rattle.cache_table.specs.Plays.{Changes, Moves, popped, Counted, HasHolds, lost, took_cell, faulted};
ghost use Rattle.cache_table.specs.Calls.{OnTop, InHand, Stays, SameCacheTurn};

use crate::boxed::Boxed;
use crate::cache::{Place, SharedCache};
use crate::home::Home;
use cache_door::Hold;
use cache_outside::{Archive, Frame};
use cache_policy::Policy;
use region_cell::RegionCell;
use std::marker::Brand;
use std::sync::Wait;

impl<A: Archive + Drop, F: Frame + Drop> SharedCache<A, F> {
    // The cache's turn, and the policy, which is out until it is given.
    pub(crate) fn take_cache<R: Wait>(&self, rt: &R, seat: &mut Place<A, F>) -> (u64, Boxed<Policy>)
        requires id { seat.old.table_id ≡ self.now.id }
        requires may { (0 < seat.old.me.0.shares) × (seat.old.me.0.turns ≡ []) }
        requires about { seat.old.me.0.about ≡ self.now.about }
        ensures id { (seat.new.table_id ≡ seat.old.table_id) × (seat.new.id ≡ seat.old.id) }
        ensures even { result.0 % 2 ≡ 0 }
        ensures turn { seat.new.me.0.turns ≡ (0, result.0 / 2) ∷ seat.old.me.0.turns }
        ensures out { seat.new.me.1 ≡ (0, Away) ∷ seat.old.me.1 }
        ensures policy { (result.1 ≡ seat.new.me.0.taken) × Governs self.now.about result.1 }
        ensures counted { (seat.new.me.0.cache_turns ≡ seat.old.me.0.cache_turns + 1)
            × (seat.new.me.0.faults ≡ seat.old.me.0.faults) × (seat.new.me.0.found_held ≡ [])
            × (seat.new.me.0.noted ≡ []) }
        ensures mounts { (seat.new.me.0.unmounted_then ≡ seat.old.me.0.unmounted)
            × (seat.new.me.0.mount_word ≡ (4096, 0)) }
        ensures region { (seat.new.me.0.region_turns ≡ seat.old.me.0.region_turns)
            × (seat.new.me.0.last_region ≡ seat.old.me.0.last_region) × (seat.new.me.0.cell ≡ seat.old.me.0.cell) }
        ensures stays { Stays seat.old.me.0 seat.new.me.0 }
        ensures hold { seat.new.me.0.hold ≡ seat.old.me.0.hold }
    {
        let word = self.take(rt, seat, 0);
        match self.table.shared.exchange(seat, 0, Home::Away) {
            Home::Policy(policy) => (word, policy),
            _ => unreachable!(),
        }
    }

    // It leaves the hold as it is.
    pub(crate) fn give_cache(&self, seat: &mut Place<A, F>, word: u64, policy: Boxed<Policy>)
        requires id { seat.old.table_id ≡ self.now.id }
        requires place { word % 2 ≡ 0 }
        requires turn { OnTop 0 word seat.old.me.0 }
        requires out { InHand 0 seat.old.me }
        requires may { 0 < seat.old.me.0.shares }
        requires policy { Governs self.now.about policy }
        ensures id { (seat.new.table_id ≡ seat.old.table_id) × (seat.new.id ≡ seat.old.id) }
        ensures turn { seat.new.me.0.turns ≡ popped seat.old.me.0.turns }
        ensures out { seat.new.me.1 ≡ rest seat.old.me.1 }
        ensures stays { Stays seat.old.me.0 seat.new.me.0 }
        ensures hold { seat.new.me.0.hold ≡ seat.old.me.0.hold }
        ensures note { (seat.new.me.0.faults ≡ seat.old.me.0.faults)
            × (seat.new.me.0.found_held ≡ seat.old.me.0.found_held) × (seat.new.me.0.noted ≡ seat.old.me.0.noted)
            × (seat.new.me.0.looks ≡ seat.old.me.0.looks) × (seat.new.me.0.loaded ≡ seat.old.me.0.loaded) }
        ensures region { (seat.new.me.0.region_turns ≡ seat.old.me.0.region_turns)
            × (seat.new.me.0.last_region ≡ seat.old.me.0.last_region) × (seat.new.me.0.cell ≡ seat.old.me.0.cell) }
        ensures policies { (seat.new.me.0.taken ≡ seat.old.me.0.taken) × (seat.new.me.0.given ≡ policy)
            × (seat.new.me.0.cache_turns ≡ seat.old.me.0.cache_turns) }
        ensures mounts { (seat.new.me.0.unmounted_then ≡ seat.old.me.0.unmounted_then)
            × (seat.new.me.0.mount_word ≡ seat.old.me.0.mount_word) }
    {
        self.give::<Brand>(seat, 0, word, word, Home::Policy(policy), None);
    }

    pub(crate) fn take_cell<R: Wait>(
        &self,
        rt: &R,
        seat: &mut Place<A, F>,
        at: usize,
    ) -> (u64, Boxed<RegionCell<A, F>>)
        requires id { seat.old.table_id ≡ self.now.id }
        requires place { (0 < at) × (at ≤ last_place self.now.about) × (at % 8 ≡ 0) }
        requires may { (0 < seat.old.me.0.shares) × (regions_in seat.old.me.0.turns ≡ 0) }
        requires about { seat.old.me.0.about ≡ self.now.about }
        ensures id { (seat.new.table_id ≡ seat.old.table_id) × (seat.new.id ≡ seat.old.id) }
        ensures even { result.0 % 2 ≡ 0 }
        ensures counted { Counted result.0 result.1.metadata.region.tracker }
        ensures turn { seat.new.me.0.turns ≡ (at, result.0 / 2) ∷ seat.old.me.0.turns }
        ensures out { seat.new.me.1 ≡ (at, Away) ∷ seat.old.me.1 }
        ensures cell { (result.1.metadata ≡ seat.new.me.0.cell)
            × Suits A.tells (content A.blobs) self.now.about result.0 result.1 }
        ensures found { 0 < holds_of result.0 → at_of seat.old.me.0.hold ≡ 0 →
            0 < count_in at seat.new.me.0.found_held }
        ensures more { (x : ℕ) → count_in x seat.old.me.0.found_held ≤ count_in x seat.new.me.0.found_held }
        ensures noted { seat.new.me.0.noted ≡ (at, result.1.metadata.region.tag, len_of result.1.metadata.region) ∷
            seat.old.me.0.noted }
        ensures mine { at_of seat.old.me.0.hold ≡ at → (tag_of result.0 ≡ tag_held seat.old.me.0.hold)
            × HasHolds result.1.metadata.region.tracker seat.old.me.0.hold }
        ensures region { (seat.new.me.0.region_turns ≡ seat.old.me.0.region_turns + 1)
            × (seat.new.me.0.last_region ≡ at) }
        ensures stays { Stays seat.old.me.0 seat.new.me.0 }
        ensures hold { seat.new.me.0.hold ≡ seat.old.me.0.hold }
        ensures faults { seat.new.me.0.faults ≡ seat.old.me.0.faults }
        ensures cache { SameCacheTurn seat.old.me.0 seat.new.me.0 }
    {
        let word = self.take(rt, seat, at);
        match self.table.shared.exchange(seat, at, Home::Away) {
            Home::Cell(cell) => (word, cell),
            _ => unreachable!(),
        }
    }

    // The hold is `hold` afterwards.
    pub(crate) fn give_cell(
        &self,
        seat: &mut Place<A, F>,
        at: usize,
        word: u64,
        new: u64,
        cell: Boxed<RegionCell<A, F>>,
        _hold: Option<Hold>,
    )
        requires id { seat.old.table_id ≡ self.now.id }
        requires place { (0 < at) × (at ≤ last_place self.now.about) × (word % 2 ≡ 0) × (new % 2 ≡ 0) }
        requires may { 0 < seat.old.me.0.shares }
        requires turn { OnTop at word seat.old.me.0 × InHand at seat.old.me }
        requires home { Suits A.tells (content A.blobs) self.now.about new cell }
        requires changes { Changes at (word + 1) new seat.old.me.0.hold _hold }
        requires moves { Moves at seat.old.me.0.hold _hold seat.old.me.0.cell.region.tracker
            cell.metadata.region.tracker }
        ensures id { (seat.new.table_id ≡ seat.old.table_id) × (seat.new.id ≡ seat.old.id) }
        ensures turn { seat.new.me.0.turns ≡ popped seat.old.me.0.turns }
        ensures out { seat.new.me.1 ≡ rest seat.old.me.1 }
        ensures stays { Stays seat.old.me.0 seat.new.me.0 }
        ensures hold { seat.new.me.0.hold ≡ _hold }
        ensures faults { seat.new.me.0.faults ≡ seat.old.me.0.faults + faulted seat.old.me.0.cell.frame.faults
            cell.metadata.frame.faults }
        ensures note { (seat.new.me.0.found_held ≡ seat.old.me.0.found_held)
            × (seat.new.me.0.noted ≡ seat.old.me.0.noted) × (seat.new.me.0.looks ≡ seat.old.me.0.looks)
            × (seat.new.me.0.loaded ≡ seat.old.me.0.loaded) × (seat.new.me.0.found ≡ seat.old.me.0.found) }
        ensures region { (seat.new.me.0.region_turns ≡ seat.old.me.0.region_turns)
            × (seat.new.me.0.last_region ≡ seat.old.me.0.last_region) × (seat.new.me.0.cell ≡ seat.old.me.0.cell) }
        ensures cache { SameCacheTurn seat.old.me.0 seat.new.me.0 }
    {
        self.give::<Brand>(seat, at, word, new, Home::Cell(cell), _hold);
    }
}
