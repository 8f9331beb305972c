//! A cache of regions, used by one actor at a time.

ghost use Rattle.std.specs.Prelude.{◌≡◌, ◌<◌, ◌≤◌, ◌+◌, ◌-◌, Some, None, ℕ, IfOk, IfSome, IsSome, IsTrue};
ghost use Rattle.std.specs.Prelude.{true, OnOk, OnErr, length};
ghost use Rattle.std.specs.List.{All, list_all};
ghost use Rattle.region_ranges.specs.Keys.{IsConfig, IsKey, tag_of};
ghost use Rattle.freq_lists.specs.Lists.{head};
ghost use Rattle.sparse_tracker.specs.Weights.{total};
ghost use Rattle.cache_policy.specs.Policy.{find, tag_at};
ghost use Rattle.cache_policy.specs.Ageing.{touch};
ghost use Rattle.blob_parts.specs.Content.{content};
ghost use Rattle.region_cell.specs.Cells.{len_of};
ghost use Rattle.region_cell.specs.declared.taken.Taken.TheVariants as taken;
ghost use Rattle.cache_door.specs.declared.answers.Glance.TheVariants as glance;
ghost use Rattle.cache_door.specs.Machine.{enter, fail, leave, look, age, clear, unmount, hold_at, is_gone};
ghost use Rattle.cache_door.specs.Machine.{enter_at, entered, room_by, hold, SamePresent};
ghost use Rattle.cache_door.specs.Doors.{Works, no_work, entry_work, take_work, glance_work, store_work, FitsGap};
ghost use Rattle.cache_door.specs.Doors.{IsWant, HasLength, IsEntry, failed_hold, stored_hold, nothing, CopyOrFault};
ghost use Rattle.cache_door.specs.Doors.{taking, storing, AsHeld, AreHeld, AreStored, FrameFails};
ghost use Rattle.cache_door.specs.Cores.{state_of, held_by, door_of, CopiesWant, view_at, all_tell, all_steady};
ghost use Rattle.cache_door.specs.Cores.{all_faults, first_state, tally_of, with_spare, assigned, Unentered, IsKept};
ghost use Rattle.cache_door.specs.Cores.{Later};

use crate::answers::{Entered, Glance, Want};
use crate::cells::cells_over;
use crate::choice::{choose, make_room, settle};
use crate::claims::{claim, closed, look};
use crate::core_door::CoreDoor;
use crate::hold::Hold;
use crate::work::Work;
use blob_parts::Piece;
use cache_outside::{Archive, Frame, FrameFault};
use cache_policy::{Policy, Tally4};
use region_cell::{RegionCell, Taken};
use region_ranges::{Config, RegionKey};
use sparse_tracker::{OpenGap, gap_weights, ticket_weights};
use std::alloc::{AllocError, Global};
use std::marker::Model;

/// A cache of regions over frames, used by one actor at a time. Clauses see its settings, the policy, the cells by
/// region, the holds by actor, for each mount number whether it was unmounted, and the counts of its work.
#[derive(Drop)]
pub struct Core<A: Archive, F: Frame> {
    config: Config,
    policy: Policy,
    // by region
    cells: Vec<RegionCell<A, F>>,
    // by actor
    holds: Vec<Option<Hold>>,
    // by mount number, whether it was unmounted
    gone: Vec<bool>,
    work: Work,
}

impl<A: Archive, F: Frame> Model for Core<A, F> {
    ghost use Rattle.blob_parts.specs.Content.{content};
    ghost use Rattle.cache_door.specs.Cores.{CoreView, core_view, IsKept};

    ghost Value = { CoreView };

    ghost view = { λ c. core_view c.config c.policy c.cells.items c.holds.items c.gone.items c.work };

    ghost invariant = { λ c.
        IsKept A.tells (content A.blobs)
        (core_view c.config c.policy c.cells.items c.holds.items c.gone.items c.work) };
}

impl<A: Archive + Drop, F: Frame + Drop> Core<A, F> {
    /// A cache of empty regions over these frames, one for each region and of its size, for so many actors, of which
    /// none holds anything. It takes all memory that a core needs, but that for claims.
    pub fn new(
        alloc: Global,
        config: &Config,
        frames: Vec<F>,
        actors: u32,
    ) -> Result<Core<A, F>, AllocError>
        requires config { IsConfig config.now }
        requires count { length frames.items ≡ config.now.regions }
        requires sizes { All (λ f. (F.view f).size ≡ config.now.region) frames.items }
        requires actors { (0 < actors) × (actors < 65) }
        ensures state { IfOk result (λ c. state_of c ≡ first_state config.now F.view frames.items actors) }
        ensures steady { IfOk result (λ c. all_steady c.cells ≡ list_all (λ f. (F.view f).steady) frames.items) }
        ensures faults { IfOk result (λ c. all_faults c.cells ≡ total (λ f. (F.view f).faults) frames.items) }
        ensures work { IfOk result (λ c. c.work ≡ no_work) }
    {
        let policy = Policy::new(alloc, config)?;
        policy.lesson();
        Ok(Core {
            config: *config,
            policy,
            cells: cells_over(alloc, config, frames)?,
            holds: vec![in alloc; None; actors as usize]?,
            gone: vec![in alloc; false; 4096]?,
            work: Work::new(),
        })
    }

    /// The door of this actor, by which the core is lent to it.
    pub fn door(&mut self, actor: u32) -> CoreDoor<'_, A, F>
        requires { actor < length self.old.holds }
        ensures core { result.core.now ≡ self.old }
        ensures same { result.core.ghost_name ≡ self.entry.ghost_name }
        ensures actor { result.actor ≡ actor }
    {
        CoreDoor::new(self, actor)
    }

    /// How many regions are free.
    pub fn free_len(&self) -> u32
        ensures { result ≡ length self.now.policy.free }
    {
        self.policy.free_len()
    }

    /// How many regions are leaving.
    pub fn leaving_len(&self) -> u32
        ensures { result ≡ length self.now.policy.leaving }
    {
        self.policy.leaving_len()
    }

    /// The policy's counters, and how many regions are mapped.
    pub fn tally(&self) -> Tally4
        ensures { result ≡ tally_of self.now.policy }
    {
        self.policy.tally()
    }

    /// What is true of every core.
    pub fn lesson(&self)
        ensures { IsKept A.tells (content A.blobs) self.now }
    {
        let _ = &self.config;
    }

    /// No count rises.
    pub(crate) fn rest(&self)
        ensures { Works self.now.work self.now.work no_work }
    {
        self.work.rest();
    }

    /// What the actor holds, or None: the conditions of the calls of its door can be tested by it.
    pub fn hold_of(&self, actor: u32) -> Option<Hold>
        requires { actor < length self.now.holds }
        ensures { result ≡ hold_at (state_of self.now) actor }
    {
        self.holds[actor as usize]
    }

    // ---- the calls of one actor

    /// `CacheDoor::enter` of this actor.
    pub(crate) fn enter(
        &mut self,
        actor: u32,
        mount: u32,
        want: &Want,
        now: u64,
    ) -> Result<Entered, AllocError>
        requires actor { actor < length self.old.holds }
        requires free { held_by self.old actor ≡ nothing }
        requires mount { mount < 4096 }
        requires want { IsWant self.old.config want.now }
        requires whole { IsTrue A.tells → HasLength (content A.blobs) self.old.config want.now }
        ensures answer { IfOk result (λ e. e ≡ (enter actor mount want.now now (state_of self.old)).0) }
        ensures state { OnOk result (state_of self.new ≡ (enter actor mount want.now now (state_of self.old)).1) }
        ensures memory { OnErr result (Unentered self.old self.new (enter actor mount want.now now)) }
        ensures entry { IfOk result (IsEntry self.old.config want.now) }
        ensures later { Later self.old self.new }
        ensures work { Works self.old.work self.new.work (entry_work result) }
    {
        self.work.rest();
        let entered = self.admit(actor, mount, want, now)?;
        self.work.enter(&entered);
        Ok(entered)
    }

    // The entry, but for the counts.
    fn admit(
        &mut self,
        actor: u32,
        mount: u32,
        want: &Want,
        now: u64,
    ) -> Result<Entered, AllocError>
        requires actor { actor < length self.old.holds }
        requires free { hold_at (state_of self.old) actor ≡ None }
        requires mount { mount < 4096 }
        requires want { IsWant self.old.config want.now }
        requires whole { IsTrue A.tells → HasLength (content A.blobs) self.old.config want.now }
        ensures answer { IfOk result (λ e. e ≡ (enter actor mount want.now now (state_of self.old)).0) }
        ensures state { OnOk result (state_of self.new ≡ (enter actor mount want.now now (state_of self.old)).1) }
        ensures memory { OnErr result (Unentered self.old self.new (enter actor mount want.now now)) }
        ensures entry { IfOk result (IsEntry self.old.config want.now) }
        ensures later { Later self.old self.new }
        ensures work { self.new.work ≡ self.old.work }
    {
        if self.is_gone(mount) {
            return Ok(Entered::Gone);
        }
        match self.region_of(&want.key) {
            Some(region) => self.enter_mapped(actor, region, want, now),
            None => self.enter_other(actor, want, now),
        }
    }

    fn is_gone(&self, mount: u32) -> bool
        requires { mount < 4096 }
        ensures { result ≡ is_gone (state_of self.now) mount }
    {
        self.gone[mount as usize]
    }

    // The region that is mapped to the key.
    fn region_of(&self, key: &RegionKey) -> Option<u32>
        requires { IsKey key.now }
        ensures region { result ≡ find (tag_of key.now) self.now.policy }
        ensures some { IfSome result (λ r. tag_at self.now.policy r ≡ Some (tag_of key.now)) }
    {
        self.policy.find(key)
    }

    // Enters the region that is mapped to the key.
    fn enter_mapped(
        &mut self,
        actor: u32,
        region: u32,
        want: &Want,
        now: u64,
    ) -> Result<Entered, AllocError>
        requires actor { actor < length self.old.holds }
        requires free { hold_at (state_of self.old) actor ≡ None }
        requires want { IsWant self.old.config want.now }
        requires mapped { tag_at self.old.policy region ≡ Some (tag_of want.now.key) }
        ensures answer { IfOk result (λ e. e ≡ (enter_at (Some region) actor want.now now (state_of self.old)).0) }
        ensures state { OnOk result (state_of self.new ≡ entered (Some region) actor want.now now (state_of self.old)) }
        ensures memory { OnErr result (Unentered self.old self.new (enter_at (Some region) actor want.now now)) }
        ensures entry { IfOk result (IsEntry self.old.config want.now) }
        ensures later { Later self.old self.new }
        ensures work { self.new.work ≡ self.old.work }
    {
        self.lesson();
        if self.len_at(region) != want.len {
            return Ok(Entered::NoRoom);
        }
        self.reserve(region)?;
        self.touch(region, now);
        Ok(self.hold(actor, region, want))
    }

    // Enters a region that is given to the key now.
    fn enter_other(&mut self, actor: u32, want: &Want, now: u64) -> Result<Entered, AllocError>
        requires actor { actor < length self.old.holds }
        requires free { hold_at (state_of self.old) actor ≡ None }
        requires want { IsWant self.old.config want.now }
        requires whole { IsTrue A.tells → HasLength (content A.blobs) self.old.config want.now }
        requires new { find (tag_of want.now.key) self.old.policy ≡ None }
        ensures answer { IfOk result (λ e. e ≡ (enter_at None actor want.now now (state_of self.old)).0) }
        ensures state { OnOk result (state_of self.new ≡ (enter_at None actor want.now now (state_of self.old)).1) }
        ensures memory { OnErr result (Unentered self.old self.new (enter_at None actor want.now now)) }
        ensures entry { IfOk result (IsEntry self.old.config want.now) }
        ensures later { Later self.old self.new }
        ensures work { self.new.work ≡ self.old.work }
    {
        let Some(region) = self.choose() else {
            return Ok(Entered::NoRoom);
        };
        self.reserve(region)?;
        self.make_room();
        self.assign(region, want, now);
        Ok(self.hold(actor, region, want))
    }

    // How many bytes the region's cell has.
    fn len_at(&self, region: u32) -> u32
        requires { region < length self.now.cells }
        ensures { result ≡ len_of (view_at self.now.cells region).metadata.region }
    {
        self.cells[region as usize].len()
    }

    // The region that is the front free one after `make_room`.
    fn choose(&self) -> Option<u32>
        ensures region { result ≡ head (room_by self.now.holds self.now.policy).free }
        ensures inside { IfSome result (λ r. r < length self.now.cells) }
    {
        choose(&self.policy, &self.holds)
    }

    // Room for one more claim in the region's cell, so that no claim wants memory later.
    fn reserve(&mut self, region: u32) -> Result<(), AllocError>
        requires { region < length self.old.cells }
        ensures ok { OnOk result (self.new ≡ with_spare region self.old) }
        ensures err { OnErr result (self.new ≡ self.old) }
    {
        let cell = &mut self.cells[region as usize];
        cell.reserve()
    }

    // An access to a mapped region.
    fn touch(&mut self, region: u32, now: u64)
        requires { IsSome (tag_at self.old.policy region) }
        ensures touched { self.new ≡ record self.old { policy = touch region now self.old.policy } }
        ensures tags { (j : ℕ) → tag_at self.new.policy j ≡ tag_at self.old.policy j }
    {
        self.policy.touch(region, now);
        self.policy.lesson();
    }

    // Settles the leaving regions that nobody holds, and evicts one where no region is free then.
    fn make_room(&mut self)
        ensures { self.new ≡ record self.old { policy = room_by self.old.holds self.old.policy } }
    {
        make_room(&mut self.policy, &self.holds);
    }

    // Gives the front free region to the wanted key, with all bytes absent.
    fn assign(&mut self, region: u32, want: &Want, now: u64)
        requires front { head self.old.policy.free ≡ Some region }
        requires want { IsWant self.old.config want.now }
        requires whole { IsTrue A.tells → HasLength (content A.blobs) self.old.config want.now }
        requires new { find (tag_of want.now.key) self.old.policy ≡ None }
        ensures assigned { self.new ≡ assigned region want.now now self.old }
        ensures mapped { tag_at self.new.policy region ≡ Some (tag_of want.now.key) }
    {
        self.policy.map(region, want.key, now);
        self.policy.lesson();
        let cell = &mut self.cells[region as usize];
        cell.assign(want.key, want.len);
        cell.lesson();
    }

    // The actor holds the region of its key, and claims what is wanted there.
    fn hold(&mut self, actor: u32, region: u32, want: &Want) -> Entered
        requires actor { actor < length self.old.holds }
        requires free { hold_at (state_of self.old) actor ≡ None }
        requires want { IsWant self.old.config want.now }
        requires mapped { tag_at self.old.policy region ≡ Some (tag_of want.now.key) }
        requires len { len_of (view_at self.old.cells region).metadata.region ≡ want.now.len }
        requires room { 0 < (view_at self.old.cells region).spare }
        ensures answer { result ≡ (hold actor region want.now (state_of self.old)).0 }
        ensures state { state_of self.new ≡ (hold actor region want.now (state_of self.old)).1 }
        ensures entry { IsEntry self.old.config want.now result }
        ensures later { Later self.old self.new }
        ensures work { self.new.work ≡ self.old.work }
    {
        ticket_weights();
        gap_weights();
        let cell = &mut self.cells[region as usize];
        let (hold, gap) = claim(cell, region, want);
        self.holds[actor as usize] = Some(hold);
        Entered::Held { region, gap }
    }

    /// `CacheDoor::take_bytes` of this actor.
    pub(crate) fn take_bytes(&mut self, actor: u32, out: &mut [u8]) -> Taken
        requires actor { actor < length self.old.holds }
        requires held { (held_by self.old actor).held ≡ true }
        requires len { length out.old ≡ (held_by self.old actor).sub.end - (held_by self.old actor).sub.start }
        ensures state { state_of self.new ≡ state_of self.old }
        ensures answer { CopyOrFault taken.Copied taken.FrameFault (taking actor (state_of self.old)) result }
        ensures copied { result ≡ taken.Copied → AreHeld (door_of self.old actor) out.new }
        ensures bytes { result ≡ taken.Copied → AsHeld A.tells (content A.blobs) (door_of self.old actor) out.new }
        ensures fault { result ≡ taken.FrameFault → FrameFails (door_of self.old actor) (door_of self.new actor) }
        ensures later { Later self.old self.new }
        ensures work { Works self.old.work self.new.work (take_work result) }
    {
        let Some(hold) = self.holds[actor as usize] else {
            unreachable!()
        };
        let cell = &mut self.cells[hold.region as usize];
        cell.lesson();
        let taken = cell.copy(hold.ticket, out);
        self.work.take(&taken);
        taken
    }

    /// `CacheDoor::glance` of this actor.
    pub(crate) fn glance(&mut self, region: u32, want: &Want, out: &mut [u8]) -> Glance
        requires region { region < self.old.config.regions }
        requires want { IsWant self.old.config want.now }
        requires len { length out.old ≡ want.now.sub.end - want.now.sub.start }
        ensures state { state_of self.new ≡ state_of self.old }
        ensures answer { CopyOrFault glance.Copied glance.FrameFault (look region want.now (state_of self.old)) result }
        ensures copied { result ≡ glance.Copied → AreStored (door_of self.old 0) region want.now.sub out.new }
        ensures bytes { result ≡ glance.Copied → CopiesWant A.tells (content A.blobs) self.old want.now out.new }
        ensures fault { result ≡ glance.FrameFault → FrameFails (door_of self.old 0) (door_of self.new 0) }
        ensures later { Later self.old self.new }
        ensures work { Works self.old.work self.new.work (glance_work result) }
    {
        let cell = &mut self.cells[region as usize];
        let seen = look(cell, want, out);
        self.work.glance(&seen);
        seen
    }

    /// `CacheDoor::store` of this actor.
    pub(crate) fn store(&mut self, actor: u32, piece: &Piece<A>) -> Result<(), FrameFault>
        requires actor { actor < length self.old.holds }
        requires held { (held_by self.old actor).held ≡ true }
        requires piece { FitsGap self.old.config.region (held_by self.old actor) piece.now }
        ensures state { OnOk result (state_of self.new ≡ storing piece.now.bytes actor (state_of self.old)) }
        ensures same { OnErr result (SamePresent (state_of self.old) (state_of self.new)) }
        ensures hold { held_by self.new actor ≡ stored_hold (length piece.now.bytes) result (held_by self.old actor) }
        ensures fault { OnErr result (FrameFails (door_of self.old actor) (door_of self.new actor)) }
        ensures later { Later self.old self.new }
        ensures work { Works self.old.work self.new.work (store_work (length piece.now.bytes) result) }
    {
        ticket_weights();
        gap_weights();
        let Some(hold) = self.holds[actor as usize] else {
            unreachable!()
        };
        let count = piece.bytes().len() as u64;
        let cell = &mut self.cells[hold.region as usize];
        cell.lesson();
        match cell.store(hold.gap.id, piece) {
            Ok(()) => {
                cell.lesson();
                self.holds[actor as usize] = Some(stored(hold, count));
                self.work.store(count);
                Ok(())
            }
            Err(FrameFault) => {
                cell.lesson();
                self.work.turn_away();
                Err(FrameFault)
            }
        }
    }

    /// `CacheDoor::fail` of this actor.
    pub(crate) fn fail(&mut self, actor: u32)
        requires actor { actor < length self.old.holds }
        requires held { (held_by self.old actor).held ≡ true }
        requires open { (held_by self.old actor).upto < (held_by self.old actor).gap_end }
        ensures state { state_of self.new ≡ fail actor (hold_at (state_of self.old) actor) (state_of self.old) }
        ensures hold { held_by self.new actor ≡ failed_hold (held_by self.old actor) }
        ensures later { Later self.old self.new }
        ensures work { Works self.old.work self.new.work no_work }
    {
        ticket_weights();
        gap_weights();
        let Some(hold) = self.holds[actor as usize] else {
            unreachable!()
        };
        let cell = &mut self.cells[hold.region as usize];
        cell.fail(hold.gap.id);
        cell.lesson();
        self.holds[actor as usize] = Some(Hold {
            gap: closed(),
            ..hold
        });
        self.work.rest();
    }

    /// `CacheDoor::leave` of this actor.
    pub(crate) fn leave(&mut self, actor: u32)
        requires actor { actor < length self.old.holds }
        requires held { (held_by self.old actor).held ≡ true }
        requires closed { (held_by self.old actor).gap_end ≤ (held_by self.old actor).upto }
        ensures state { state_of self.new ≡ leave actor (hold_at (state_of self.old) actor) (state_of self.old) }
        ensures hold { held_by self.new actor ≡ nothing }
        ensures later { Later self.old self.new }
        ensures work { Works self.old.work self.new.work no_work }
    {
        ticket_weights();
        gap_weights();
        let Some(hold) = self.holds[actor as usize] else {
            unreachable!()
        };
        let cell = &mut self.cells[hold.region as usize];
        cell.leave(hold.ticket);
        cell.lesson();
        self.holds[actor as usize] = None;
        self.work.rest();
    }

    /// Ages the policy.
    pub(crate) fn decay(&mut self, now: u64)
        ensures state { state_of self.new ≡ age now (state_of self.old) }
        ensures later { Later self.old self.new }
        ensures work { Works self.old.work self.new.work (record no_work { decays = 1 }) }
    {
        self.policy.decay(now);
        self.policy.lesson();
        self.work.decay();
    }

    /// Takes the regions of a manifest out of use.
    pub(crate) fn clear(&mut self, manifest: u32)
        ensures state { state_of self.new ≡ clear manifest (state_of self.old) }
        ensures later { Later self.old self.new }
        ensures work { Works self.old.work self.new.work (record no_work { clears = 1 }) }
    {
        self.policy.clear(manifest);
        self.policy.lesson();
        settle(&mut self.policy, &self.holds);
        self.work.clear();
    }

    /// Marks the mount, and takes the regions of its manifest out of use.
    pub(crate) fn unmount(&mut self, mount: u32, manifest: u32)
        requires { mount < 4096 }
        ensures state { state_of self.new ≡ unmount mount manifest (state_of self.old) }
        ensures later { Later self.old self.new }
        ensures work { Works self.old.work self.new.work no_work }
    {
        self.gone[mount as usize] = true;
        self.policy.clear(manifest);
        self.policy.lesson();
        settle(&mut self.policy, &self.holds);
        self.work.rest();
    }
}

// The hold after so many bytes of its gap were stored.
fn stored(hold: Hold, count: u64) -> Hold
    requires { hold.gap.upto + count ≤ hold.gap.end }
    ensures { result ≡ record hold { gap = record hold.gap { upto = hold.gap.upto + count } } }
{
    let _end = hold.gap.end;
    Hold {
        gap: OpenGap {
            upto: hold.gap.upto + count,
            ..hold.gap
        },
        ..hold
    }
}
