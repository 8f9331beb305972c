//! The cache's turn alone: what is done to the policy while it is out.
ghost use Rattle.std.specs.Prelude.{◌≡◌, ◌+◌, ◌<◌, ◌≤◌, ℕ, List, [], ◌∷◌};
ghost use Rattle.cache_policy.specs.Policy.{PolicyView, clear, settle_all};
ghost use Rattle.cache_policy.specs.Ageing.{decay};
ghost use Rattle.cache_table.specs.Rule.{Governs};
ghost use Rattle.cache_table.specs.Calls.{AtRest, Faults, Stays, InCache};

use crate::cache::{Place, SharedCache};
use cache_outside::{Archive, Frame};
use cache_policy::Policy;
use std::sync::Wait;

impl<A: Archive + Drop, F: Frame + Drop> SharedCache<A, F> {
    // One turn of the cache. The note tells of the policy taken and of the one given.
    pub(crate) fn decay_seat<R: Wait>(&self, rt: &R, seat: &mut Place<A, F>, now: u64)
        requires id { seat.old.table_id ≡ self.now.id }
        requires rests { AtRest self.now.about seat.old.me }
        ensures id { (seat.new.table_id ≡ seat.old.table_id) × (seat.new.id ≡ seat.old.id) }
        ensures rests { AtRest self.now.about seat.new.me }
        ensures stays { Stays seat.old.me.0 seat.new.me.0 × (seat.new.me.0.hold ≡ seat.old.me.0.hold)
            × (seat.new.me.0.faults ≡ seat.old.me.0.faults) }
        ensures mounts { seat.new.me.0.unmounted_then ≡ seat.old.me.0.unmounted }
        ensures policy { (seat.new.me.0.cache_turns ≡ seat.old.me.0.cache_turns + 1)
            × (seat.new.me.0.given ≡ decay now seat.new.me.0.taken) }
    {
        let (word, mut boxed) = self.take_cache(rt, seat);
        let policy = boxed.get_mut();
        policy.decay(now);
        policy.lesson();
        self.give_cache(seat, word, boxed);
    }

    // One turn of the cache: the manifest's regions leave, and those that nobody holds are settled.
    pub(crate) fn clear_seat<R: Wait>(&self, rt: &R, seat: &mut Place<A, F>, manifest: u32)
        requires id { seat.old.table_id ≡ self.now.id }
        requires rests { AtRest self.now.about seat.old.me }
        ensures id { (seat.new.table_id ≡ seat.old.table_id) × (seat.new.id ≡ seat.old.id) }
        ensures rests { AtRest self.now.about seat.new.me }
        ensures stays { Stays seat.old.me.0 seat.new.me.0 × (seat.new.me.0.hold ≡ seat.old.me.0.hold)
            × (seat.new.me.0.faults ≡ seat.old.me.0.faults) }
        ensures mounts { seat.new.me.0.unmounted_then ≡ seat.old.me.0.unmounted }
        ensures policy { (seat.new.me.0.cache_turns ≡ seat.old.me.0.cache_turns + 1)
            × ((rs : List ℕ) × (seat.new.me.0.given ≡ settle_all rs (clear manifest seat.new.me.0.taken))) }
    {
        let (word, mut boxed) = self.take_cache(rt, seat);
        let policy = boxed.get_mut();
        policy.clear(manifest);
        policy.lesson();
        self.settle_unheld(seat, policy, word);
        self.give_cache(seat, word, boxed);
    }

    fn settle_unheld(&self, seat: &mut Place<A, F>, policy: &mut Policy, _cache: u64)
        requires id { seat.old.table_id ≡ self.now.id }
        requires turn { InCache self.now.about _cache seat.old.me }
        requires policy { Governs self.now.about policy.old }
        ensures id { (seat.new.table_id ≡ seat.old.table_id) × (seat.new.id ≡ seat.old.id) }
        ensures turn { InCache self.now.about _cache seat.new.me }
        ensures looked { seat.new.me.0 ≡ record seat.old.me.0
            { looks = seat.new.me.0.looks; loaded = seat.new.me.0.loaded; found_held = seat.new.me.0.found_held } }
        ensures policy { Governs self.now.about policy.new × ((rs : List ℕ)
            × (policy.new ≡ settle_all rs policy.old)) }
    {
        let mut at = 0;
        while at < policy.leaving_len() {
            let region = policy.leaving_at(at);
            let word = self.look(seat, 8 * (region as usize + 1));
            if word / 2 % 128 == 0 {
                policy.settle(region);
                policy.lesson();
            } else {
                at += 1;
            }
        }
    }
}
