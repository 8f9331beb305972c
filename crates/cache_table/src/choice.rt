//! The choice of a region for a key that is not mapped, inside the cache's turn. Each region that is looked at is
//! examined in its own turn, which is given back before another region's turn is taken.
ghost use Rattle.std.specs.Prelude.{◌≡◌, ◌≢◌, ◌==◌, ℕ, ◌+◌, ◌*◌, ◌/◌, ◌%◌, ◌<◌, ◌≤◌, [], ◌∷◌, IsTrue, IsSome};
ghost use Rattle.std.specs.Prelude.{IfSome};
ghost use Rattle.std.specs.Prelude.{IfNone, Some, None, length, take, slice_get, if◌then◌else◌};
ghost use Rattle.blob_parts.specs.Content.{content};
ghost use Rattle.atomic_table.specs.Table.{rest};
ghost use Rattle.freq_lists.specs.Lists.{head, times, times_in};
ghost use Rattle.region_ranges.specs.Keys.{tag_of as key_tag, IsKey};
ghost use Rattle.cache_policy.specs.Policy.{find, tag_at};
ghost use Rattle.cache_policy.specs.Ageing.{candidates};
ghost use Rattle.cache_policy.specs.Kept.{IsGood};
ghost use Rattle.cache_door.specs.Doors.{IsWant};
ghost use Rattle.cache_table.specs.declared.home.Home.TheVariants.{Away};
ghost use Rattle.cache_table.specs.Rule.{place, Governs, Suits, holds_of, count_in};
ghost use Rattle.cache_table.specs.Plays.{Counted};
ghost use Rattle.cache_table.specs.Calls.{InCache, FoundAll, PassedOver};
ghost use Rattle.cache_table.specs.Entries.{Scanned, Stands, IsChoice, IsFull, differs};

use crate::boxed::Boxed;
use crate::cache::{Place, SharedCache};
use cache_door::Want;
use cache_outside::{Archive, Frame};
use cache_policy::{Policy, free_region_leaves};
use region_cell::RegionCell;
use region_ranges::RegionKey;
use std::sync::Wait;

/// Where the region that was chosen stands in the policy.
#[derive(Clone, Copy)]
pub enum Standing {
    Free,
    Leaving,
    Mapped,
}

// A region that nobody holds, in its turn: its number, the word at which the turn was taken, and its cell.
pub(crate) type Vacant<A, F> = (u32, u64, Boxed<RegionCell<A, F>>);

impl<A: Archive + Drop, F: Frame + Drop> SharedCache<A, F> {
    // The region's turn, which is kept where nobody holds the region. Else the region is noted as found held.
    fn examine<R: Wait>(
        &self,
        rt: &R,
        seat: &mut Place<A, F>,
        region: u32,
        _cache: u64,
    ) -> Option<Vacant<A, F>>
        requires id { seat.old.table_id ≡ self.now.id }
        requires place { region < self.now.about.config.regions }
        requires turn { InCache self.now.about _cache seat.old.me }
        requires free { seat.old.me.0.hold ≡ None }
        ensures id { (seat.new.table_id ≡ seat.old.table_id) × (seat.new.id ≡ seat.old.id) }
        ensures scanned { Scanned self.now.about seat.old.me.0 seat.new.me.0 }
        ensures hold { seat.new.me.0.hold ≡ None }
        ensures none { IfNone result (InCache self.now.about _cache seat.new.me
            × (0 < count_in (place region) seat.new.me.0.found_held)) }
        ensures turn { IfSome result (λ t. (seat.new.me.0.turns ≡ (place region, t.1 / 2) ∷ seat.old.me.0.turns)
            × (seat.new.me.1 ≡ (place region, Away) ∷ seat.old.me.1)) }
        ensures region { IfSome result (λ t. t.0 ≡ region) }
        ensures place { IfSome result (λ t. t.0 < self.now.about.config.regions) }
        ensures cell { IfSome result (λ t. (t.1 % 2 ≡ 0) × (holds_of t.1 ≡ 0) × (t.2.metadata ≡ seat.new.me.0.cell)
            × Suits A.tells (content A.blobs) self.now.about t.1 t.2 × Counted t.1 t.2.metadata.region.tracker) }
    {
        let at = 8 * (region as usize + 1);
        let (word, cell) = self.take_cell(rt, seat, at);
        if word / 2 % 128 == 0 {
            return Some((region, word, cell));
        }
        self.give_cell(seat, at, word, word, cell, None);
        None
    }

    // The first free region that nobody holds. Those before it are held: each is mapped and made leaving at once.
    fn choose_free<R: Wait>(
        &self,
        rt: &R,
        seat: &mut Place<A, F>,
        policy: &mut Policy,
        want: &Want,
        now: u64,
        _cache: u64,
    ) -> Option<Vacant<A, F>>
        requires id { seat.old.table_id ≡ self.now.id }
        requires turn { InCache self.now.about _cache seat.old.me }
        requires free { seat.old.me.0.hold ≡ None }
        requires policy { Governs self.now.about policy.old }
        requires want { IsKey want.now.key }
        requires new { find (key_tag want.now.key) policy.old ≡ None }
        ensures id { (seat.new.table_id ≡ seat.old.table_id) × (seat.new.id ≡ seat.old.id) }
        ensures scanned { Scanned self.now.about seat.old.me.0 seat.new.me.0 }
        ensures hold { seat.new.me.0.hold ≡ None }
        ensures policy { Governs self.now.about policy.new }
        ensures passed { (n : ℕ) × PassedOver n policy.old policy.new
            × FoundAll (take n policy.old.free) seat.new.me.0.found_held }
        ensures none { IfNone result (InCache self.now.about _cache seat.new.me × (policy.new.free ≡ [])) }
        ensures turn { IfSome result (λ t. (seat.new.me.0.turns ≡ (place t.0, t.1 / 2) ∷ seat.old.me.0.turns)
            × (seat.new.me.1 ≡ (place t.0, Away) ∷ seat.old.me.1)) }
        ensures place { IfSome result (λ t. t.0 < self.now.about.config.regions) }
        ensures front { IfSome result (λ t. head policy.new.free ≡ Some t.0) }
        ensures cell { IfSome result (λ t. (t.1 % 2 ≡ 0) × (holds_of t.1 ≡ 0) × (t.2.metadata ≡ seat.new.me.0.cell)
            × Suits A.tells (content A.blobs) self.now.about t.1 t.2 × Counted t.1 t.2.metadata.region.tracker) }
    {
        free_region_leaves();
        while let Some(region) = policy.free_front() {
            if let Some(vacant) = self.examine(rt, seat, region, _cache) {
                return Some(vacant);
            }
            policy.map(region, want.key, now);
            policy.leave(region);
            policy.lesson();
        }
        None
    }

    // The first leaving region that nobody holds.
    fn choose_leaving<R: Wait>(
        &self,
        rt: &R,
        seat: &mut Place<A, F>,
        policy: &Policy,
        _cache: u64,
    ) -> Option<Vacant<A, F>>
        requires id { seat.old.table_id ≡ self.now.id }
        requires turn { InCache self.now.about _cache seat.old.me }
        requires free { seat.old.me.0.hold ≡ None }
        requires policy { Governs self.now.about policy.now }
        ensures id { (seat.new.table_id ≡ seat.old.table_id) × (seat.new.id ≡ seat.old.id) }
        ensures scanned { Scanned self.now.about seat.old.me.0 seat.new.me.0 }
        ensures hold { seat.new.me.0.hold ≡ None }
        ensures none { IfNone result (InCache self.now.about _cache seat.new.me
            × FoundAll policy.now.leaving seat.new.me.0.found_held) }
        ensures turn { IfSome result (λ t. (seat.new.me.0.turns ≡ (place t.0, t.1 / 2) ∷ seat.old.me.0.turns)
            × (seat.new.me.1 ≡ (place t.0, Away) ∷ seat.old.me.1)) }
        ensures place { IfSome result (λ t. t.0 < self.now.about.config.regions) }
        ensures leaving { IfSome result (λ t. 0 < times_in t.0 policy.now.leaving) }
        ensures cell { IfSome result (λ t. (t.1 % 2 ≡ 0) × (holds_of t.1 ≡ 0) × (t.2.metadata ≡ seat.new.me.0.cell)
            × Suits A.tells (content A.blobs) self.now.about t.1 t.2 × Counted t.1 t.2.metadata.region.tracker) }
    {
        for at in 0..policy.leaving_len() {
            let region = policy.leaving_at(at);
            if let Some(vacant) = self.examine(rt, seat, region, _cache) {
                return Some(vacant);
            }
        }
        None
    }

    // The first candidate for eviction that nobody holds.
    fn choose_candidate<R: Wait>(
        &self,
        rt: &R,
        seat: &mut Place<A, F>,
        policy: &Policy,
        _cache: u64,
    ) -> Option<Vacant<A, F>>
        requires id { seat.old.table_id ≡ self.now.id }
        requires turn { InCache self.now.about _cache seat.old.me }
        requires free { seat.old.me.0.hold ≡ None }
        requires policy { Governs self.now.about policy.now }
        ensures id { (seat.new.table_id ≡ seat.old.table_id) × (seat.new.id ≡ seat.old.id) }
        ensures scanned { Scanned self.now.about seat.old.me.0 seat.new.me.0 }
        ensures hold { seat.new.me.0.hold ≡ None }
        ensures none { IfNone result (InCache self.now.about _cache seat.new.me
            × ((r : ℕ) → 0 < times r policy.now.lists → 0 < count_in (place r) seat.new.me.0.found_held)) }
        ensures turn { IfSome result (λ t. (seat.new.me.0.turns ≡ (place t.0, t.1 / 2) ∷ seat.old.me.0.turns)
            × (seat.new.me.1 ≡ (place t.0, Away) ∷ seat.old.me.1)) }
        ensures place { IfSome result (λ t. t.0 < self.now.about.config.regions) }
        ensures mapped { IfSome result (λ t. IsSome (tag_at policy.now t.0)) }
        ensures earlier { IfSome result (λ t. (i : ℕ) × (slice_get (candidates policy.now) i ≡ Some t.0)
            × FoundAll (take i (candidates policy.now)) seat.new.me.0.found_held) }
        ensures cell { IfSome result (λ t. (t.1 % 2 ≡ 0) × (holds_of t.1 ≡ 0) × (t.2.metadata ≡ seat.new.me.0.cell)
            × Suits A.tells (content A.blobs) self.now.about t.1 t.2 × Counted t.1 t.2.metadata.region.tracker) }
    {
        policy.lesson();
        let mut next = policy.next_candidate(None);
        while let Some(region) = next {
            if let Some(vacant) = self.examine(rt, seat, region, _cache) {
                return Some(vacant);
            }
            next = policy.next_candidate(Some(region));
        }
        None
    }

    // A region that nobody holds: a free one, else a leaving one, else the first candidate. None: every region was
    // found held.
    pub(crate) fn choose<R: Wait>(
        &self,
        rt: &R,
        seat: &mut Place<A, F>,
        policy: &mut Policy,
        want: &Want,
        now: u64,
        _cache: u64,
    ) -> Option<(Standing, Vacant<A, F>)>
        requires id { seat.old.table_id ≡ self.now.id }
        requires turn { InCache self.now.about _cache seat.old.me }
        requires free { seat.old.me.0.hold ≡ None }
        requires policy { Governs self.now.about policy.old }
        requires want { IsKey want.now.key }
        requires new { find (key_tag want.now.key) policy.old ≡ None }
        ensures id { (seat.new.table_id ≡ seat.old.table_id) × (seat.new.id ≡ seat.old.id) }
        ensures scanned { Scanned self.now.about seat.old.me.0 seat.new.me.0 }
        ensures hold { seat.new.me.0.hold ≡ None }
        ensures policy { Governs self.now.about policy.new }
        ensures passed { (n : ℕ) × PassedOver n policy.old policy.new }
        ensures none { IfNone result (InCache self.now.about _cache seat.new.me
            × IsFull policy.old seat.new.me.0.found_held) }
        ensures turn { IfSome result (λ t. (seat.new.me.0.turns ≡ (place t.1.0, t.1.1 / 2) ∷ seat.old.me.0.turns)
            × (seat.new.me.1 ≡ (place t.1.0, Away) ∷ seat.old.me.1)) }
        ensures place { IfSome result (λ t. t.1.0 < self.now.about.config.regions) }
        ensures stands { IfSome result (λ t. Stands t.0 t.1.0 policy.new) }
        ensures choice { IfSome result (λ t. IsChoice t.1.0 policy.old seat.new.me.0.found_held) }
        ensures cell { IfSome result (λ t. (t.1.1 % 2 ≡ 0) × (holds_of t.1.1 ≡ 0)
            × (t.1.2.metadata ≡ seat.new.me.0.cell) × Suits A.tells (content A.blobs) self.now.about t.1.1 t.1.2
            × Counted t.1.1 t.1.2.metadata.region.tracker) }
    {
        if let Some(vacant) = self.choose_free(rt, seat, policy, want, now, _cache) {
            return Some((Standing::Free, vacant));
        }
        if let Some(vacant) = self.choose_leaving(rt, seat, policy, _cache) {
            return Some((Standing::Leaving, vacant));
        }
        if let Some(vacant) = self.choose_candidate(rt, seat, policy, _cache) {
            return Some((Standing::Mapped, vacant));
        }
        None
    }
}

/// The region that was chosen becomes the front free one, and is mapped to the key.
pub(crate) fn map_chosen(
    policy: &mut Policy,
    standing: Standing,
    region: u32,
    key: RegionKey,
    now: u64,
)
    requires good { IsGood policy.old }
    requires stands { Stands standing region policy.old }
    requires key { IsKey key }
    requires new { find (key_tag key) policy.old ≡ None }
    ensures tags { (s : ℕ) → tag_at policy.new s ≡ (if s == region then Some (key_tag key) else tag_at policy.old s) }
    ensures count { length policy.new.tags ≡ length policy.old.tags }
    ensures good { IsGood policy.new }
{
    match standing {
        Standing::Free => policy.map(region, key, now),
        Standing::Leaving => {
            policy.settle(region);
            policy.map(region, key, now);
        }
        Standing::Mapped => {
            policy.unmap(region);
            policy.map(region, key, now);
        }
    }
    policy.lesson();
}
