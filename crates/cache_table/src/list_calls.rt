//! The calls on a pass that change the policy's lists or a mount's word.
ghost use Rattle.std.specs.Prelude.{◌≡◌, ℕ, List, ◌+◌, ◌<◌, ◌∷◌};
ghost use Rattle.cache_policy.specs.Ageing.{decay};
ghost use Rattle.cache_policy.specs.Policy.{clear, settle_all};
ghost use Rattle.cache_door.specs.Doors.{Works, no_work};
ghost use Rattle.cache_table.specs.Calls.{Stays, StaysBut};
ghost use Rattle.cache_table.specs.Views.{IsOf};

use crate::cache::{Place, SharedCache};
use crate::pass::Pass;
use atomic_table::Badge;
use cache_outside::{Archive, Frame};
use std::mem;
use std::sync::Wait;

impl<A: Archive + Drop, F: Frame + Drop> SharedCache<A, F> {
    // Ages the regions' frequencies, at a time in milliseconds.
    pub(crate) fn decay<R: Wait>(&self, rt: &R, pass: &mut Pass<A>, now: u64)
        requires of { IsOf self.now pass.old }
        ensures id { pass.new.id ≡ pass.old.id }
        ensures stays { Stays pass.old.view pass.new.view }
        ensures hold { pass.new.view.hold ≡ pass.old.view.hold }
        ensures work { Works pass.old.work pass.new.work (record no_work { decays = 1 }) }
        ensures faults { pass.new.view.faults ≡ pass.old.view.faults }
        ensures turns { pass.new.view.cache_turns ≡ pass.old.view.cache_turns + 1 }
        ensures policy { pass.new.view.given ≡ decay now pass.new.view.taken }
    {
        let badge = mem::replace(&mut pass.badge, Badge::blank());
        let mut seat: Place<A, F> = badge.into_seat();
        self.decay_seat(rt, &mut seat, now);
        pass.badge = seat.into_badge();
        pass.work.decay();
    }

    // Takes each region that is mapped to a key of the manifest out of use.
    pub(crate) fn clear<R: Wait>(&self, rt: &R, pass: &mut Pass<A>, manifest: u32)
        requires of { IsOf self.now pass.old }
        ensures id { pass.new.id ≡ pass.old.id }
        ensures stays { Stays pass.old.view pass.new.view }
        ensures hold { pass.new.view.hold ≡ pass.old.view.hold }
        ensures work { Works pass.old.work pass.new.work (record no_work { clears = 1 }) }
        ensures faults { pass.new.view.faults ≡ pass.old.view.faults }
        ensures turns { pass.new.view.cache_turns ≡ pass.old.view.cache_turns + 1 }
        ensures policy { (rs : List ℕ) × (pass.new.view.given ≡ settle_all rs (clear manifest pass.new.view.taken)) }
    {
        self.clear_lists(rt, pass, manifest);
        pass.work.clear();
    }

    // The clear, which is not counted.
    fn clear_lists<R: Wait>(&self, rt: &R, pass: &mut Pass<A>, manifest: u32)
        requires of { IsOf self.now pass.old }
        ensures id { pass.new.id ≡ pass.old.id }
        ensures stays { Stays pass.old.view pass.new.view }
        ensures hold { pass.new.view.hold ≡ pass.old.view.hold }
        ensures work { pass.new.work ≡ pass.old.work }
        ensures faults { pass.new.view.faults ≡ pass.old.view.faults }
        ensures turns { pass.new.view.cache_turns ≡ pass.old.view.cache_turns + 1 }
        ensures before { pass.new.view.unmounted_then ≡ pass.old.view.unmounted }
        ensures policy { (rs : List ℕ) × (pass.new.view.given ≡ settle_all rs (clear manifest pass.new.view.taken)) }
    {
        let badge = mem::replace(&mut pass.badge, Badge::blank());
        let mut seat: Place<A, F> = badge.into_seat();
        self.clear_seat(rt, &mut seat, manifest);
        pass.badge = seat.into_badge();
    }

    // Marks a new mount as live; one that is live or gone stays so.
    pub(crate) fn live(&self, pass: &mut Pass<A>, mount: u32)
        requires of { IsOf self.now pass.old }
        requires mount { mount < 4096 }
        ensures view { (pass.new.id ≡ pass.old.id) × (pass.new.view ≡ pass.old.view) }
        ensures work { Works pass.old.work pass.new.work no_work }
    {
        let badge = mem::replace(&mut pass.badge, Badge::blank());
        let mut seat: Place<A, F> = badge.into_seat();
        self.make_live(&mut seat, mount);
        pass.badge = seat.into_badge();
        pass.work.rest();
    }

    // The mount's word is set first. So an entry that has the cache's turn after this clear finds the mount gone.
    pub(crate) fn unmount<R: Wait>(&self, rt: &R, pass: &mut Pass<A>, mount: u32, manifest: u32)
        requires of { IsOf self.now pass.old }
        requires mount { mount < 4096 }
        ensures id { pass.new.id ≡ pass.old.id }
        ensures about { (pass.new.view.about ≡ pass.old.view.about) × (pass.new.view.shares ≡ pass.old.view.shares) }
        ensures unmounted { pass.new.view.unmounted ≡ mount ∷ pass.old.view.unmounted }
        ensures gone { pass.new.view.gone ≡ pass.old.view.gone }
        ensures hold { pass.new.view.hold ≡ pass.old.view.hold }
        ensures work { Works pass.old.work pass.new.work no_work }
        ensures faults { pass.new.view.faults ≡ pass.old.view.faults }
        ensures turns { pass.new.view.cache_turns ≡ pass.old.view.cache_turns + 1 }
        ensures before { pass.new.view.unmounted_then ≡ mount ∷ pass.old.view.unmounted }
        ensures policy { (rs : List ℕ) × (pass.new.view.given ≡ settle_all rs (clear manifest pass.new.view.taken)) }
    {
        self.end(pass, mount);
        self.clear_lists(rt, pass, manifest);
        pass.work.rest();
    }

    // Marks the mount as gone.
    fn end(&self, pass: &mut Pass<A>, mount: u32)
        requires of { IsOf self.now pass.old }
        requires mount { mount < 4096 }
        ensures id { pass.new.id ≡ pass.old.id }
        ensures stays { StaysBut pass.old.view pass.new.view }
        ensures marks { (pass.new.view.gone ≡ pass.old.view.gone)
            × (pass.new.view.unmounted ≡ mount ∷ pass.old.view.unmounted) }
        ensures work { pass.new.work ≡ pass.old.work }
    {
        let badge = mem::replace(&mut pass.badge, Badge::blank());
        let mut seat: Place<A, F> = badge.into_seat();
        self.make_gone(&mut seat, mount);
        pass.badge = seat.into_badge();
        pass.unmounted.add(mount);
    }
}
