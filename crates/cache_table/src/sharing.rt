//! Splitting and joining passes.
ghost use Rattle.std.specs.Prelude.{◌≡◌, ◌||◌, ℕ, ◌+◌, ◌-◌, ◌<◌, ◌≤◌, [], ◌++◌, true, None};
ghost use Rattle.cache_door.specs.Doors.{no_work, hold_view, nothing, Works};
ghost use Rattle.cache_table.specs.Rule.{count_in};
ghost use Rattle.cache_table.specs.Plays.{both, left, right};
ghost use Rattle.cache_table.specs.Calls.{marks};
ghost use Rattle.cache_table.specs.Views.{IsOf};

use crate::cache::{Place, SharedCache};
use crate::mount_set::MountSet;
use crate::pass::Pass;
use crate::rule::{Cut, Learn, Merge};
use atomic_table::Badge;
use cache_door::Work;
use cache_outside::{Archive, Frame};
use std::marker::PhantomData;
use std::mem;

impl<A: Archive + Drop, F: Frame + Drop> SharedCache<A, F> {
    /// A new pass with one of the shares. It has seen gone what the other one has, has unmounted nothing, and its
    /// counts of work are 0. It takes no memory.
    pub fn split(&self, pass: &mut Pass<A>) -> Pass<A>
        requires of { IsOf self.now pass.old }
        requires shares { 2 ≤ pass.old.view.shares }
        requires free { hold_view pass.old.view.hold ≡ nothing }
        ensures of { IsOf self.now pass.new × IsOf self.now result }
        ensures old { pass.new.view ≡ left pass.old.view }
        ensures new { result.view ≡ right pass.old.view }
        ensures work { (pass.new.work ≡ pass.old.work) × (result.work ≡ no_work) }
    {
        let gone = pass.gone.copy();
        let badge = mem::replace(&mut pass.badge, Badge::blank());
        let mut seat: Place<A, F> = badge.into_seat();
        let other = self.cut(&mut seat);
        pass.badge = seat.into_badge();
        pass.shares -= 1;
        Pass {
            badge: other.into_badge(),
            shares: 1,
            hold: None,
            work: Work::new(),
            unmounted: MountSet::new(),
            gone,
            archive: PhantomData,
        }
    }

    /// The other pass's shares, mounts and counts of work go to the first one. With all 64 shares it has itself
    /// unmounted each mount that it has seen gone. It takes no memory.
    pub fn join(&self, pass: &mut Pass<A>, other: Pass<A>)
        requires of { IsOf self.now pass.old × IsOf self.now other }
        requires free { (hold_view pass.old.view.hold ≡ nothing) × (hold_view other.view.hold ≡ nothing) }
        ensures of { IsOf self.now pass.new }
        ensures shares { pass.new.view.shares ≡ pass.old.view.shares + other.view.shares }
        ensures unmounted { pass.new.view.unmounted ≡ pass.old.view.unmounted ++ other.view.unmounted }
        ensures gone { pass.new.view.gone ≡ pass.old.view.gone ++ other.view.gone }
        ensures hold { hold_view pass.new.view.hold ≡ nothing }
        ensures work { Works pass.old.work pass.new.work other.work }
        ensures whole { pass.new.view.shares ≡ 64 → (m : ℕ) → marks pass.new.view.gone m ≡ true →
            marks pass.new.view.unmounted m ≡ true }
    {
        let Pass {
            badge: others,
            shares,
            hold: _,
            work,
            unmounted,
            gone,
            archive: _,
        } = other;
        let badge = mem::replace(&mut pass.badge, Badge::blank());
        let mut seat: Place<A, F> = badge.into_seat();
        self.merge(&mut seat, others.into_seat());
        self.learn(&mut seat);
        pass.badge = seat.into_badge();
        pass.shares += shares;
        pass.unmounted.unite(&unmounted);
        pass.gone.unite(&gone);
        pass.work.add(&work);
    }

    // One share goes to a new seat.
    fn cut(&self, seat: &mut Place<A, F>) -> Place<A, F>
        requires id { seat.old.table_id ≡ self.now.id }
        requires shares { 2 ≤ seat.old.me.0.shares }
        ensures id { (seat.new.table_id ≡ seat.old.table_id) × (result.table_id ≡ seat.old.table_id) }
        ensures mine { seat.new.me ≡ (left seat.old.me.0, seat.old.me.1) }
        ensures other { result.me ≡ (right seat.old.me.0, []) }
    {
        self.table.shared.split_seat::<Cut>(seat)
    }

    // The other seat is spent afterwards.
    fn merge(&self, seat: &mut Place<A, F>, other: Place<A, F>)
        requires id { (seat.old.table_id ≡ self.now.id) × (other.table_id ≡ self.now.id) }
        requires rests { (seat.old.me.0.turns ≡ []) × (other.me.0.turns ≡ []) × (other.me.1 ≡ []) }
        requires free { other.me.0.hold ≡ None }
        requires share { 0 < seat.old.me.0.shares }
        ensures id { seat.new.table_id ≡ seat.old.table_id }
        ensures both { seat.new.me ≡ (both seat.old.me.0 other.me.0, seat.old.me.1) }
    {
        self.table.shared.join_seat::<Merge>(seat, other);
    }

    // One word is loaded. Who has all shares has itself unmounted what it has seen gone.
    fn learn(&self, seat: &mut Place<A, F>)
        requires id { seat.old.table_id ≡ self.now.id }
        requires rests { seat.old.me.0.turns ≡ [] }
        ensures id { (seat.new.table_id ≡ seat.old.table_id) × (seat.new.me.1 ≡ seat.old.me.1) }
        ensures looked { seat.new.me.0 ≡ record seat.old.me.0
            { looks = seat.new.me.0.looks; loaded = seat.new.me.0.loaded } }
        ensures shares { seat.old.me.0.shares ≤ 64 }
        ensures learned { seat.old.me.0.shares ≡ 64 → (m : ℕ) → 0 < count_in m seat.old.me.0.gone →
            0 < count_in m seat.old.me.0.unmounted }
    {
        self.table.shared.load::<Learn>(seat, 0);
    }
}
