//! An entry: of a mapped key, and of another one.
ghost use Rattle.std.specs.Prelude.{◌≡◌, ◌≢◌, ◌↔◌, ◌⊎◌, ℕ, ◌+◌, ◌-◌, ◌*◌, ◌/◌, ◌%◌, ◌<◌, ◌≤◌, [], ◌∷◌};
ghost use Rattle.std.specs.Prelude.{IsTrue};
ghost use Rattle.std.specs.Prelude.{IsSome};
ghost use Rattle.std.specs.Prelude.{IfSome, IfNone, IfOk, IfErr, OnOk, OnErr, Some, None, Ok, true, false, length};
ghost use Rattle.blob_parts.specs.Content.{content};
ghost use Rattle.atomic_table.specs.Table.{rest};
ghost use Rattle.region_ranges.specs.Keys.{tag_of as key_tag, IsKey};
ghost use Rattle.region_cell.specs.Cells.{claim_run, claim, len_of, with_region, region_bytes, IsGood};
ghost use Rattle.cache_policy.specs.Policy.{find, tag_at};
ghost use Rattle.cache_policy.specs.Ageing.{touch};
ghost use Rattle.cache_door.specs.Machine.{hold_on};
ghost use Rattle.cache_door.specs.Claims.{IsGap};
ghost use Rattle.cache_door.specs.Doors.{IsWant, HasLength, IsEntry, hold_view};
ghost use Rattle.cache_door.specs.declared.answers.Entered.TheVariants.{Held, NoRoom, Gone};
ghost use Rattle.cache_table.specs.Rule.{place, Governs, Suits, count_in};
ghost use Rattle.cache_table.specs.Calls.{AtRest, Faults, Stays, InCache, hold_in, IsHeld, entered_hold};
ghost use Rattle.cache_table.specs.Calls.{PassedOver};
ghost use Rattle.cache_table.specs.Entries.{Inside, differs, Unmapped, EntersChosen, IsFull, IsChoice, OnlyLeft};
ghost use Rattle.cache_table.specs.Entries.{EntersBy, FindsNoRoom, blank};
ghost use Rattle.cache_table.specs.Views.{IsNear};

use crate::cache::{Place, SharedCache};
use crate::choice::map_chosen;
use cache_door::{Entered, Hold, Want, claim};
use cache_outside::{Archive, Frame};
use cache_policy::{Policy, candidates_left};
use region_cell::RegionCell;
use region_ranges::ByteRange;
use sparse_tracker::{gap_weights, ticket_weights};
use std::alloc::AllocError;
use std::sync::Wait;

impl<A: Archive + Drop, F: Frame + Drop> SharedCache<A, F> {
    // In the cache's turn, at the region that the policy maps the key to. None: its cell has another key or another
    // length.
    fn enter_mapped<R: Wait>(
        &self,
        rt: &R,
        seat: &mut Place<A, F>,
        region: u32,
        want: &Want,
        _cache: u64,
    ) -> Result<Option<(Entered, Hold)>, AllocError>
        requires id { seat.old.table_id ≡ self.now.id }
        requires place { region < self.now.about.config.regions }
        requires turn { InCache self.now.about _cache seat.old.me }
        requires free { seat.old.me.0.hold ≡ None }
        requires want { IsWant self.now.about.config want.now }
        ensures id { (seat.new.table_id ≡ seat.old.table_id) × (seat.new.id ≡ seat.old.id) }
        ensures within { Inside self.now.about _cache (hold_in result) seat.old.me seat.new.me }
        ensures noted { seat.new.me.0.noted ≡ (
          place region,
          seat.new.me.0.cell.region.tag,
          len_of
              seat.new.me.0.cell.region,
        ) ∷ seat.old.me.0.noted }
        ensures cell { seat.new.me.0.last_region ≡ place region }
        ensures key { IfOk result (λ o. IfSome o (λ t. (seat.new.me.0.cell.region.tag ≡ key_tag want.now.key)
            × (len_of seat.new.me.0.cell.region ≡ want.now.len))) }
        ensures other { IfOk result (λ o. IfNone o ((seat.new.me.0.cell.region.tag ≢ key_tag want.now.key)
            ⊎ (len_of seat.new.me.0.cell.region ≢ want.now.len))) }
        ensures hold { IfOk result (λ o. IfSome o (λ t. t.1 ≡ hold_on self.now.about.config.range region want.now
            seat.new.me.0.cell.region)) }
        ensures answer { IfOk result (λ o. IfSome o (λ t. t.0
            ≡ Held region (claim_run self.now.about.config.range want.now.sub seat.new.me.0.cell.region))) }
        ensures held { IfOk result (λ o. IfSome o (IsHeld self.now.about want.now)) }
    {
        ticket_weights();
        gap_weights();
        let at = 8 * (region as usize + 1);
        let (word, mut boxed) = self.take_cell(rt, seat, at);
        let cell = boxed.get_mut();
        if word / 256 != want.key.pack() || cell.len() != want.len {
            self.give_cell(seat, at, word, word, boxed, None);
            return Ok(None);
        }
        if let Err(e) = cell.reserve() {
            self.give_cell(seat, at, word, word, boxed, None);
            return Err(e);
        }
        let (hold, gap) = claim(cell, region, want);
        self.give_cell(seat, at, word, word + 2, boxed, Some(hold));
        Ok(Some((Entered::Held { region, gap }, hold)))
    }

    // In the cache's turn. None: the policy does not map the key, or no longer, since the region's cell had another key
    // or another length, and the region is leaving now.
    fn enter_known<R: Wait>(
        &self,
        rt: &R,
        seat: &mut Place<A, F>,
        policy: &mut Policy,
        want: &Want,
        now: u64,
        _cache: u64,
    ) -> Result<Option<(Entered, Hold)>, AllocError>
        requires id { seat.old.table_id ≡ self.now.id }
        requires turn { InCache self.now.about _cache seat.old.me }
        requires free { seat.old.me.0.hold ≡ None }
        requires policy { Governs self.now.about policy.old }
        requires want { IsWant self.now.about.config want.now }
        requires noted { seat.old.me.0.noted ≡ [] }
        ensures id { (seat.new.table_id ≡ seat.old.table_id) × (seat.new.id ≡ seat.old.id) }
        ensures within { Inside self.now.about _cache (hold_in result) seat.old.me seat.new.me }
        ensures policy { Governs self.now.about policy.new }
        ensures held { IfOk result (λ o. IfSome o (IsHeld self.now.about want.now)) }
        ensures mapped { IfOk result (λ o. IfSome o (λ t. EntersBy self.now.about want.now now t.0 policy.old
            policy.new seat.new.me.0)) }
        ensures unmapped { IfOk result (λ o. IfNone o (Unmapped want.now seat.new.me.0.noted policy.old policy.new)) }
        ensures new { IfOk result (λ o. IfNone o (find (key_tag want.now.key) policy.new ≡ None)) }
        ensures err { OnErr result (policy.new ≡ policy.old) }
    {
        policy.lesson();
        let Some(region) = policy.find(&want.key) else {
            return Ok(None);
        };
        match self.enter_mapped(rt, seat, region, want, _cache)? {
            Some(held) => {
                policy.touch(region, now);
                policy.lesson();
                Ok(Some(held))
            }
            None => {
                policy.leave(region);
                policy.lesson();
                Ok(None)
            }
        }
    }

    // In the cache's turn, of a key that no region is mapped to. None: every region was found held.
    fn enter_other<R: Wait>(
        &self,
        rt: &R,
        seat: &mut Place<A, F>,
        policy: &mut Policy,
        want: &Want,
        now: u64,
        _cache: u64,
    ) -> Result<Option<(Entered, Hold)>, AllocError>
        requires id { seat.old.table_id ≡ self.now.id }
        requires turn { InCache self.now.about _cache seat.old.me }
        requires free { seat.old.me.0.hold ≡ None }
        requires policy { Governs self.now.about policy.old }
        requires want { IsWant self.now.about.config want.now }
        requires whole { IsTrue A.tells → HasLength (content A.blobs) self.now.about.config want.now }
        requires new { find (key_tag want.now.key) policy.old ≡ None }
        ensures id { (seat.new.table_id ≡ seat.old.table_id) × (seat.new.id ≡ seat.old.id) }
        ensures within { Inside self.now.about _cache (hold_in result) seat.old.me seat.new.me }
        ensures noted { (k : ℕ) → differs k want.now seat.old.me.0.noted ≡ true →
            differs k want.now seat.new.me.0.noted ≡ true }
        ensures policy { Governs self.now.about policy.new }
        ensures held { IfOk result (λ o. IfSome o (IsHeld self.now.about want.now)) }
        ensures chosen { IfOk result (λ o. IfSome o (λ t. EntersChosen self.now.about want.now t.0 policy.old
            policy.new seat.new.me.0)) }
        ensures full { IfOk result (λ o. IfNone o (IsFull policy.old seat.new.me.0.found_held)) }
        ensures passed { IfOk result (λ o. IfNone o ((n : ℕ) × PassedOver n policy.old policy.new)) }
        ensures err { OnErr result ((n : ℕ) × PassedOver n policy.old policy.new) }
    {
        ticket_weights();
        gap_weights();
        let Some((standing, (region, word, mut boxed))) = self.choose(
            rt, seat, policy, want, now, _cache,
        ) else {
            return Ok(None);
        };
        let at = 8 * (region as usize + 1);
        let cell = boxed.get_mut();
        if let Err(e) = cell.reserve() {
            self.give_cell(seat, at, word, word, boxed, None);
            return Err(e);
        }
        let (hold, gap) = claim_anew(cell, region, want);
        self.give_cell(seat, at, word, want.key.pack() * 256 + 2, boxed, Some(hold));
        map_chosen(policy, standing, region, want.key, now);
        Ok(Some((Entered::Held { region, gap }, hold)))
    }

    // In the cache's turn, of a mount that is not gone. None: no room.
    fn enter_key<R: Wait>(
        &self,
        rt: &R,
        seat: &mut Place<A, F>,
        policy: &mut Policy,
        want: &Want,
        now: u64,
        _cache: u64,
    ) -> Result<Option<(Entered, Hold)>, AllocError>
        requires id { seat.old.table_id ≡ self.now.id }
        requires turn { InCache self.now.about _cache seat.old.me }
        requires free { seat.old.me.0.hold ≡ None }
        requires policy { Governs self.now.about policy.old }
        requires want { IsWant self.now.about.config want.now }
        requires whole { IsTrue A.tells → HasLength (content A.blobs) self.now.about.config want.now }
        requires noted { seat.old.me.0.noted ≡ [] }
        ensures id { (seat.new.table_id ≡ seat.old.table_id) × (seat.new.id ≡ seat.old.id) }
        ensures within { Inside self.now.about _cache (hold_in result) seat.old.me seat.new.me }
        ensures policy { Governs self.now.about policy.new }
        ensures held { IfOk result (λ o. IfSome o (IsHeld self.now.about want.now)) }
        ensures entry { IfOk result (λ o. IfSome o (λ t. EntersBy self.now.about want.now now t.0 policy.old
            policy.new seat.new.me.0)) }
        ensures full { IfOk result (λ o. IfNone o (FindsNoRoom self.now.about want.now policy.old policy.new
            seat.new.me.0)) }
        ensures memory { OnErr result (OnlyLeft want.now policy.old policy.new seat.new.me.0) }
    {
        candidates_left();
        policy.lesson();
        if let Some(held) = self.enter_known(rt, seat, policy, want, now, _cache)? {
            return Ok(Some(held));
        }
        self.enter_other(rt, seat, policy, want, now, _cache)
    }

    pub(crate) fn enter_seat<R: Wait>(
        &self,
        rt: &R,
        seat: &mut Place<A, F>,
        mount: u32,
        want: &Want,
        now: u64,
    ) -> Result<(Entered, Option<Hold>), AllocError>
        requires id { seat.old.table_id ≡ self.now.id }
        requires rests { AtRest self.now.about seat.old.me }
        requires free { seat.old.me.0.hold ≡ None }
        requires mount { mount < 4096 }
        requires want { IsWant self.now.about.config want.now }
        requires whole { IsTrue A.tells → HasLength (content A.blobs) self.now.about.config want.now }
        ensures id { (seat.new.table_id ≡ seat.old.table_id) × (seat.new.id ≡ seat.old.id) }
        ensures rests { AtRest self.now.about seat.new.me }
        ensures stays { (seat.new.me.0.shares ≡ seat.old.me.0.shares)
            × (seat.new.me.0.unmounted ≡ seat.old.me.0.unmounted) }
        ensures faults { Faults self.now.about ⊥ seat.old.me.0 seat.new.me.0 }
        ensures turns { seat.new.me.0.cache_turns ≡ seat.old.me.0.cache_turns + 1 }
        ensures valid { IfOk result (λ t. IsEntry self.now.about.config want.now t.0) }
        ensures hold { IfOk result (λ t. (seat.new.me.0.hold ≡ t.1) × (hold_view t.1 ≡ entered_hold want.now t.0)
            × IsNear t.1 self.now.about.config.regions) }
        ensures mount { seat.new.me.0.mount_word.0 ≡ mount }
        ensures gone { IfOk result (λ t. (t.0 ≡ Gone) ↔ (seat.new.me.0.mount_word.1 ≡ 2)) }
        ensures seen { IfOk result (λ t. t.0 ≡ Gone → seat.new.me.0.gone ≡ mount ∷ seat.old.me.0.gone) }
        ensures unseen { IfOk result (λ t. t.0 ≢ Gone → seat.new.me.0.gone ≡ seat.old.me.0.gone) }
        ensures entry { IfOk result (λ t. EntersBy self.now.about want.now now t.0 seat.new.me.0.taken
            seat.new.me.0.given seat.new.me.0) }
        ensures memory { OnErr result (OnlyLeft want.now seat.new.me.0.taken seat.new.me.0.given seat.new.me.0) }
        ensures err { OnErr result ((seat.new.me.0.hold ≡ None) × (seat.new.me.0.gone ≡ seat.old.me.0.gone)) }
    {
        let (word, mut boxed) = self.take_cache(rt, seat);
        if self.is_gone(seat, mount) {
            self.give_cache(seat, word, boxed);
            return Ok((Entered::Gone, None));
        }
        let answer = self.enter_key(rt, seat, boxed.get_mut(), want, now, word);
        self.give_cache(seat, word, boxed);
        match answer {
            Err(e) => Err(e),
            Ok(None) => Ok((Entered::NoRoom, None)),
            Ok(Some((entered, hold))) => Ok((entered, Some(hold))),
        }
    }
}

// The cell gets the key, with all bytes absent, and is claimed.
fn claim_anew<A: Archive + Drop, F: Frame + Drop>(
    cell: &mut RegionCell<A, F>,
    region: u32,
    want: &Want,
) -> (Hold, Option<ByteRange>)
    requires key { IsKey want.now.key }
    requires unclaimed { (cell.old.metadata.region.tracker.tickets ≡ [])
        × (cell.old.metadata.region.tracker.gaps ≡ []) }
    requires len { (0 < want.now.len) × (want.now.len ≤ cell.old.metadata.frame.size) }
    requires whole { IsTrue A.tells → want.now.len ≡ length (region_bytes (content A.blobs)
        cell.old.metadata.frame.size (key_tag want.now.key)) }
    requires sub { (want.now.sub.start < want.now.sub.end) × (want.now.sub.end ≤ want.now.len)
        × (want.now.sub.start / cell.old.metadata.range ≡ (want.now.sub.end - 1) / cell.old.metadata.range) }
    requires room { 0 < cell.old.spare }
    ensures cell { cell.new ≡ record (with_region (claim cell.old.metadata.range want.now.sub (blank want.now))
        cell.old) { spare = cell.old.spare - 1 } }
    ensures hold { result.0 ≡ hold_on cell.old.metadata.range region want.now (blank want.now) }
    ensures gap { result.1 ≡ claim_run cell.old.metadata.range want.now.sub (blank want.now) }
    ensures inside { IfSome result.1 (IsGap cell.old.metadata.range want.now.sub want.now.len) }
    ensures good { IsGood A.tells (content A.blobs) cell.new }
{
    cell.assign(want.key, want.len);
    claim(cell, region, want)
}
