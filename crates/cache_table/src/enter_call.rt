//! The entry of a pass.
ghost use Rattle.std.specs.Prelude.{◌≡◌, ◌≢◌, ◌↔◌, ◌+◌, ◌<◌, ◌∷◌, IsTrue, IfOk, OnErr, None, Ok};
ghost use Rattle.blob_parts.specs.Content.{content};
ghost use Rattle.cache_door.specs.declared.answers.Entered.TheVariants as entered;
ghost use Rattle.cache_door.specs.Doors.{hold_view, nothing, entry_hold, IsWant, HasLength, IsEntry, Works};
ghost use Rattle.cache_door.specs.Doors.{entry_work};
ghost use Rattle.cache_table.specs.Calls.{Faults};
ghost use Rattle.cache_table.specs.Entries.{EntersBy, OnlyLeft};
ghost use Rattle.cache_table.specs.Views.{IsOf};

use crate::cache::{Place, SharedCache};
use crate::pass::Pass;
use atomic_table::Badge;
use cache_door::{Entered, Want};
use cache_outside::{Archive, Frame};
use std::alloc::AllocError;
use std::mem;
use std::sync::Wait;

impl<A: Archive + Drop, F: Frame + Drop> SharedCache<A, F> {
    pub(crate) fn enter<R: Wait>(
        &self,
        rt: &R,
        pass: &mut Pass<A>,
        mount: u32,
        want: &Want,
        now: u64,
    ) -> Result<Entered, AllocError>
        requires of { IsOf self.now pass.old }
        requires free { hold_view pass.old.view.hold ≡ nothing }
        requires mount { mount < 4096 }
        requires want { IsWant self.now.about.config want.now }
        requires whole { IsTrue A.tells → HasLength (content A.blobs) self.now.about.config want.now }
        ensures id { pass.new.id ≡ pass.old.id }
        ensures about { pass.new.view.about ≡ pass.old.view.about }
        ensures shares { pass.new.view.shares ≡ pass.old.view.shares }
        ensures unmounted { pass.new.view.unmounted ≡ pass.old.view.unmounted }
        ensures hold { hold_view pass.new.view.hold ≡ entry_hold want.now result }
        ensures valid { IfOk result (IsEntry self.now.about.config want.now) }
        ensures work { Works pass.old.work pass.new.work (entry_work result) }
        ensures faults { Faults self.now.about ⊥ pass.old.view pass.new.view }
        ensures turns { pass.new.view.cache_turns ≡ pass.old.view.cache_turns + 1 }
        ensures mount { pass.new.view.mount_word.0 ≡ mount }
        ensures gone { IfOk result (λ e. (e ≡ entered.Gone) ↔ (pass.new.view.mount_word.1 ≡ 2)) }
        ensures seen { result ≡ Ok entered.Gone → pass.new.view.gone ≡ mount ∷ pass.old.view.gone }
        ensures unseen { result ≢ Ok entered.Gone → pass.new.view.gone ≡ pass.old.view.gone }
        ensures entry { IfOk result (λ e. EntersBy self.now.about want.now now e pass.new.view.taken
            pass.new.view.given pass.new.view) }
        ensures memory { OnErr result (OnlyLeft want.now pass.new.view.taken pass.new.view.given pass.new.view) }
    {
        let badge = mem::replace(&mut pass.badge, Badge::blank());
        let mut seat: Place<A, F> = badge.into_seat();
        let answer = self.enter_seat(rt, &mut seat, mount, want, now);
        pass.badge = seat.into_badge();
        pass.work.rest();
        let (entered, hold) = answer?;
        pass.hold = hold;
        if let Entered::Gone = entered {
            pass.gone.add(mount);
        }
        pass.work.enter(&entered);
        Ok(entered)
    }
}
