//! One pass's door into the shared cache.
ghost use Rattle.std.specs.Prelude.{◌≡◌, ◌≢◌, ◌∷◌, ◌↔◌, ◌-◌, ◌+◌, ◌<◌, ◌≤◌, ℕ, List, true, IfSome, IfOk};
ghost use Rattle.std.specs.Prelude.{OnOk, OnErr};
ghost use Rattle.std.specs.Prelude.{IsErr, IsTrue, length, Ok};
ghost use Rattle.blob_parts.specs.Content.{content};
ghost use Rattle.sparse_tracker.specs.ByteStates.{lacks};
ghost use Rattle.region_cell.specs.declared.taken.Taken.TheVariants as taken;
ghost use Rattle.cache_policy.specs.Ageing.{decay};
ghost use Rattle.cache_policy.specs.Policy.{clear, settle_all};
ghost use Rattle.cache_door.specs.declared.answers.Entered.TheVariants as entered;
ghost use Rattle.cache_door.specs.declared.answers.Glance.TheVariants as glance;
ghost use Rattle.cache_door.specs.Doors.{hold_view, nothing, entry_hold, stored_hold, failed_hold, with_mount, Works};
ghost use Rattle.cache_door.specs.Doors.{no_work, entry_work, take_work, glance_work, store_work, FitsGap, IsWant};
ghost use Rattle.cache_door.specs.Doors.{HasLength, IsEntry, FrameFails, AsHeld, AsWanted, Answers, Becomes};
ghost use Rattle.cache_door.specs.Doors.{LacksMemory, SameState, entry, entry_answer, storing};
ghost use Rattle.cache_table.specs.Rule.{place};
ghost use Rattle.cache_table.specs.Calls.{Glanced, IsMarked, TookRegion, marks};
ghost use Rattle.cache_table.specs.Doors.{view_at, PassStays};
ghost use Rattle.cache_table.specs.Entries.{EntersBy, OnlyLeft};
ghost use Rattle.cache_table.specs.Views.{IsOf};

use crate::cache::SharedCache;
use crate::pass::Pass;
use blob_parts::Piece;
use cache_door::{CacheDoor, Entered, Glance, Want};
use cache_outside::{Archive, Frame, FrameFault};
use region_cell::Taken;
use std::alloc::AllocError;
use std::sync::Wait;

/// One pass's way into a shared cache. Its state is not told. Of the calls that wait for a turn no clause says that
/// they return.
#[derive(Drop)]
pub struct TableDoor<'a, Rt: Wait, A: Archive + Drop, F: Frame + Drop> {
    rt: &'a Rt,
    cache: &'a SharedCache<A, F>,
    pass: Pass<A>,
    ghost id: { pass.id ≡ cache.now.id },
    ghost about: { pass.view.about ≡ cache.now.about },
    ghost alive: { 0 < pass.view.shares },
}

impl<'a, Rt: Wait, A: Archive + Drop, F: Frame + Drop> TableDoor<'a, Rt, A, F> {
    /// The door of this pass, which is one of the cache's.
    pub fn new(rt: &'a Rt, cache: &'a SharedCache<A, F>, pass: Pass<A>) -> TableDoor<'a, Rt, A, F>
        requires { IsOf cache.now pass }
        ensures pass { result.pass ≡ pass }
        ensures cache { result.cache ≡ cache.entry }
    {
        TableDoor { rt, cache, pass }
    }

    /// The pass, which holds nothing.
    pub fn into_pass(self) -> Pass<A>
        requires { hold_view self.pass.view.hold ≡ nothing }
        ensures pass { result ≡ self.entry.pass }
        ensures of { IsOf self.entry.cache.now result }
    {
        let Self {
            rt: _,
            cache: _,
            pass,
        } = self;
        pass
    }
}

impl<'a, Rt: Wait, A: Archive + Drop, F: Frame + Drop> CacheDoor<A> for TableDoor<'a, Rt, A, F> {
    ghost use Rattle.std.specs.Prelude.{refl};
    ghost use Rattle.std.proofs.Common.{◌∙◌, ap};
    ghost use Rattle.cache_table.specs.Doors.{view_at, PassStays, pass_same, pass_on, pass_later};

    ghost view = { λ d. view_at d.cache.now.about d.pass };

    ghost stays = { λ x y. (y.cache ≡ x.cache) × PassStays x.cache.now.about x.pass y.pass };

    fn enter(&mut self, mount: u32, want: &Want, now: u64) -> Result<Entered, AllocError>
        requires free { hold_view self.old.pass.view.hold ≡ nothing }
        requires mount { mount < 4096 }
        requires want { IsWant self.old.cache.now.about.config want.now }
        requires whole { IsTrue A.tells → HasLength (content A.blobs) self.old.cache.now.about.config want.now }
        ensures stays { (self.new.cache ≡ self.old.cache)
            × PassStays self.old.cache.now.about self.old.pass self.new.pass }
        ensures unmounted { self.new.pass.view.unmounted ≡ self.old.pass.view.unmounted }
        ensures hold { hold_view self.new.pass.view.hold ≡ entry_hold want.now result }
        ensures entry { IfOk result (IsEntry self.old.cache.now.about.config want.now) }
        ensures gone { result ≡ Ok entered.Gone → marks self.new.pass.view.gone mount ≡ true }
        ensures answer { IfOk result (Answers (view_at self.old.cache.now.about self.old.pass)
            (entry_answer mount want.now now)) }
        ensures state { OnOk result (Becomes (view_at self.old.cache.now.about self.old.pass)
            (view_at self.new.cache.now.about self.new.pass) (entry mount want.now now)) }
        ensures memory { OnErr result (LacksMemory (view_at self.old.cache.now.about self.old.pass)
            (view_at self.new.cache.now.about self.new.pass) (entry_answer mount want.now now)) }
        ensures work { Works self.old.pass.work self.new.pass.work (entry_work result) }
        ensures turns { self.new.pass.view.cache_turns ≡ self.old.pass.view.cache_turns + 1 }
        ensures mount { self.new.pass.view.mount_word.0 ≡ mount }
        ensures word { IfOk result (λ e. (e ≡ entered.Gone) ↔ (self.new.pass.view.mount_word.1 ≡ 2)) }
        ensures seen { result ≡ Ok entered.Gone → self.new.pass.view.gone ≡ mount ∷ self.old.pass.view.gone }
        ensures unseen { result ≢ Ok entered.Gone → self.new.pass.view.gone ≡ self.old.pass.view.gone }
        ensures policy { IfOk result (λ e. EntersBy self.old.cache.now.about want.now now e self.new.pass.view.taken
            self.new.pass.view.given self.new.pass.view) }
        ensures left { OnErr result (OnlyLeft want.now self.new.pass.view.taken self.new.pass.view.given
            self.new.pass.view) }
    {
        self.cache.enter(self.rt, &mut self.pass, mount, want, now)
    }

    fn take_bytes(&mut self, out: &mut [u8]) -> Taken
        requires held { (hold_view self.old.pass.view.hold).held ≡ true }
        requires closed { (hold_view self.old.pass.view.hold).gap_end ≤ (hold_view self.old.pass.view.hold).upto }
        requires len { length out.old ≡ (hold_view self.old.pass.view.hold).sub.end
            - (hold_view self.old.pass.view.hold).sub.start }
        ensures stays { (self.new.cache ≡ self.old.cache)
            × PassStays self.old.cache.now.about self.old.pass self.new.pass }
        ensures hold { self.new.pass.view.hold ≡ self.old.pass.view.hold }
        ensures unmounted { self.new.pass.view.unmounted ≡ self.old.pass.view.unmounted }
        ensures work { Works self.old.pass.work self.new.pass.work (take_work result) }
        ensures waited { result ≢ taken.Waiting }
        ensures turns { (self.old.pass.view.region_turns < self.new.pass.view.region_turns)
            × (self.new.pass.view.last_region ≡ place (hold_view self.old.pass.view.hold).region) }
        ensures tag { self.new.pass.view.cell.region.tag ≡ (hold_view self.old.pass.view.hold).tag }
        ensures failed { (result ≡ taken.Failed) ↔ IsTrue (lacks (hold_view self.old.pass.view.hold).sub
            self.new.pass.view.cell.region.tracker) }
        ensures marked { result ≡ taken.Failed → IfSome self.old.pass.view.hold (λ h.
            IsMarked h.ticket self.new.pass.view.cell.region.tracker) }
        ensures fault { result ≡ taken.FrameFault → FrameFails (view_at self.old.cache.now.about self.old.pass)
            (view_at self.new.cache.now.about self.new.pass) }
        ensures bytes { result ≡ taken.Copied → AsHeld A.tells (content A.blobs)
            (view_at self.old.cache.now.about self.old.pass) out.new }
    {
        self.cache.take_bytes(self.rt, &mut self.pass, out)
    }

    fn store(&mut self, piece: &Piece<A>) -> Result<(), FrameFault>
        requires held { (hold_view self.old.pass.view.hold).held ≡ true }
        requires piece { FitsGap self.old.cache.now.about.config.region (hold_view self.old.pass.view.hold) piece.now }
        ensures stays { (self.new.cache ≡ self.old.cache)
            × PassStays self.old.cache.now.about self.old.pass self.new.pass }
        ensures unmounted { self.new.pass.view.unmounted ≡ self.old.pass.view.unmounted }
        ensures hold { hold_view self.new.pass.view.hold ≡ stored_hold (length piece.now.bytes) result
            (hold_view self.old.pass.view.hold) }
        ensures work { Works self.old.pass.work self.new.pass.work (store_work (length piece.now.bytes) result) }
        ensures turn { TookRegion (place (hold_view self.old.pass.view.hold).region) self.old.pass.view
            self.new.pass.view }
        ensures tag { self.new.pass.view.cell.region.tag ≡ (hold_view self.old.pass.view.hold).tag }
        ensures fault { OnErr result (FrameFails (view_at self.old.cache.now.about self.old.pass)
            (view_at self.new.cache.now.about self.new.pass)) }
        ensures state { OnOk result (Becomes (view_at self.old.cache.now.about self.old.pass)
            (view_at self.new.cache.now.about self.new.pass) (storing piece.now.bytes)) }
        ensures same { OnErr result (SameState (view_at self.old.cache.now.about self.old.pass).state
            (view_at self.new.cache.now.about self.new.pass).state) }
    {
        self.cache.store(self.rt, &mut self.pass, piece)
    }

    fn fail(&mut self)
        requires held { (hold_view self.old.pass.view.hold).held ≡ true }
        requires open { (hold_view self.old.pass.view.hold).upto < (hold_view self.old.pass.view.hold).gap_end }
        ensures stays { (self.new.cache ≡ self.old.cache)
            × PassStays self.old.cache.now.about self.old.pass self.new.pass }
        ensures unmounted { self.new.pass.view.unmounted ≡ self.old.pass.view.unmounted }
        ensures hold { hold_view self.new.pass.view.hold ≡ failed_hold (hold_view self.old.pass.view.hold) }
        ensures work { Works self.old.pass.work self.new.pass.work no_work }
        ensures turn { TookRegion (place (hold_view self.old.pass.view.hold).region) self.old.pass.view
            self.new.pass.view }
        ensures tag { self.new.pass.view.cell.region.tag ≡ (hold_view self.old.pass.view.hold).tag }
    {
        self.cache.fail(self.rt, &mut self.pass);
    }

    fn leave(&mut self)
        requires held { (hold_view self.old.pass.view.hold).held ≡ true }
        requires closed { (hold_view self.old.pass.view.hold).gap_end ≤ (hold_view self.old.pass.view.hold).upto }
        ensures stays { (self.new.cache ≡ self.old.cache)
            × PassStays self.old.cache.now.about self.old.pass self.new.pass }
        ensures unmounted { self.new.pass.view.unmounted ≡ self.old.pass.view.unmounted }
        ensures hold { hold_view self.new.pass.view.hold ≡ nothing }
        ensures work { Works self.old.pass.work self.new.pass.work no_work }
        ensures turn { TookRegion (place (hold_view self.old.pass.view.hold).region) self.old.pass.view
            self.new.pass.view }
        ensures tag { self.new.pass.view.cell.region.tag ≡ (hold_view self.old.pass.view.hold).tag }
    {
        self.cache.leave(self.rt, &mut self.pass);
    }

    fn glance(&mut self, region: u32, want: &Want, out: &mut [u8]) -> Glance
        requires free { hold_view self.old.pass.view.hold ≡ nothing }
        requires region { region < self.old.cache.now.about.config.regions }
        requires want { IsWant self.old.cache.now.about.config want.now }
        requires whole { IsTrue A.tells → HasLength (content A.blobs) self.old.cache.now.about.config want.now }
        requires len { length out.old ≡ want.now.sub.end - want.now.sub.start }
        ensures stays { (self.new.cache ≡ self.old.cache)
            × PassStays self.old.cache.now.about self.old.pass self.new.pass }
        ensures unmounted { self.new.pass.view.unmounted ≡ self.old.pass.view.unmounted }
        ensures hold { hold_view self.new.pass.view.hold ≡ nothing }
        ensures work { Works self.old.pass.work self.new.pass.work (glance_work result) }
        ensures cause { Glanced (place region) want.now self.old.pass.view self.new.pass.view result }
        ensures fault { result ≡ glance.FrameFault → FrameFails (view_at self.old.cache.now.about self.old.pass)
            (view_at self.new.cache.now.about self.new.pass) }
        ensures bytes { result ≡ glance.Copied → AsWanted A.tells (content A.blobs)
            (view_at self.old.cache.now.about self.old.pass) want.now out.new }
    {
        self.cache.glance_free(&mut self.pass, region, want, out)
    }

    fn decay(&mut self, now: u64)
        ensures stays { (self.new.cache ≡ self.old.cache)
            × PassStays self.old.cache.now.about self.old.pass self.new.pass }
        ensures hold { self.new.pass.view.hold ≡ self.old.pass.view.hold }
        ensures unmounted { self.new.pass.view.unmounted ≡ self.old.pass.view.unmounted }
        ensures work { Works self.old.pass.work self.new.pass.work (record no_work { decays = 1 }) }
        ensures turns { self.new.pass.view.cache_turns ≡ self.old.pass.view.cache_turns + 1 }
        ensures policy { self.new.pass.view.given ≡ decay now self.new.pass.view.taken }
    {
        self.cache.decay(self.rt, &mut self.pass, now);
    }

    fn clear(&mut self, manifest: u32)
        ensures stays { (self.new.cache ≡ self.old.cache)
            × PassStays self.old.cache.now.about self.old.pass self.new.pass }
        ensures hold { self.new.pass.view.hold ≡ self.old.pass.view.hold }
        ensures unmounted { self.new.pass.view.unmounted ≡ self.old.pass.view.unmounted }
        ensures work { Works self.old.pass.work self.new.pass.work (record no_work { clears = 1 }) }
        ensures turns { self.new.pass.view.cache_turns ≡ self.old.pass.view.cache_turns + 1 }
        ensures policy { (rs : List ℕ) × (self.new.pass.view.given
            ≡ settle_all rs (clear manifest self.new.pass.view.taken)) }
    {
        self.cache.clear(self.rt, &mut self.pass, manifest);
    }

    fn live(&mut self, mount: u32)
        requires { mount < 4096 }
        ensures stays { (self.new.cache ≡ self.old.cache)
            × PassStays self.old.cache.now.about self.old.pass self.new.pass }
        ensures hold { self.new.pass.view.hold ≡ self.old.pass.view.hold }
        ensures unmounted { self.new.pass.view.unmounted ≡ self.old.pass.view.unmounted }
        ensures work { Works self.old.pass.work self.new.pass.work no_work }
    {
        self.cache.live(&mut self.pass, mount);
    }

    fn unmount(&mut self, mount: u32, manifest: u32)
        requires { mount < 4096 }
        ensures stays { (self.new.cache ≡ self.old.cache)
            × PassStays self.old.cache.now.about self.old.pass self.new.pass }
        ensures hold { self.new.pass.view.hold ≡ self.old.pass.view.hold }
        ensures unmounted { (m : ℕ) → marks self.new.pass.view.unmounted m
            ≡ with_mount mount (marks self.old.pass.view.unmounted) m }
        ensures work { Works self.old.pass.work self.new.pass.work no_work }
        ensures turns { self.new.pass.view.cache_turns ≡ self.old.pass.view.cache_turns + 1 }
        ensures before { self.new.pass.view.unmounted_then ≡ mount ∷ self.old.pass.view.unmounted }
        ensures policy { (rs : List ℕ) × (self.new.pass.view.given
            ≡ settle_all rs (clear manifest self.new.pass.view.taken)) }
    {
        self.cache.unmount(self.rt, &mut self.pass, mount, manifest);
    }

    fn lesson(&self) {}

    ghost stays_same = { λ x. (refl, pass_same x.cache.now.about x.pass) };

    ghost stays_on = { λ x y z a b. (
      b.0 ∙ a.0,
      pass_on x.cache.now.about y.cache.now.about x.pass y.pass z.pass
          (ap (λ c. c.now.about) a.0) a.1 b.1,
    ) };

    ghost later = { λ x y a. pass_later x.cache.now.about y.cache.now.about x.pass y.pass (ap (λ c. c.now.about) a.0)
        a.1 };
}
