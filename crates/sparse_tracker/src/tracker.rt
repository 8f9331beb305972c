//! A tracker keeps which places are present or pending as one set of ranges, and the open gaps and tickets as short
//! lists. So progress moves one number, a claim is one `add`, and a failure is one `remove`.

ghost use Rattle.std.specs.Prelude.{◌≡◌, ◌<◌, ◌≤◌, ◌+◌, ◌-◌, ℕ, max, OnOk, OnErr, IfOk, IsOk, IfSome, IsSome};
ghost use Rattle.std.specs.Prelude.{option_map, length, true, false, ◌||◌, ◌&&◌, not, ◌++◌, ◌∷◌, [], Some, vec_len};
ghost use Rattle.std.specs.Prelude.{vec_capacity};
ghost use Rattle.region_ranges.specs.Ranges.{inside, has, first_run, free_below};
ghost use Rattle.sparse_tracker.specs.ByteStates.{TrackerView, new_tracker, absent_run, not_behind, wait_for_range};
ghost use Rattle.sparse_tracker.specs.ByteStates.{new_claim, has_all, wait_if_pending, pending_ticket, progress};
ghost use Rattle.sparse_tracker.specs.ByteStates.{complete, fail, leave, status, gap_of, ticket_of, least_unused, ids};
ghost use Rattle.sparse_tracker.specs.Kept.{AllDiffer, IsKept, any_free, in_gap};

use crate::gaps::{OpenGap, gap_of, has_pending, move_gap, take_gap};
use crate::status::{Claim, Gap, Status};
use crate::tickets::{Ticket, drop_ticket, mark_tickets, push_ticket, ticket_of};
use crate::unused::unused_number;
use region_ranges::{ByteRange, RangeSet};
use std::alloc::{AllocError, Global};
use std::marker::Model;

/// A sparse file tracker, seen as a list of states, one a byte, with the open gaps and the tickets.
#[derive(Drop)]
pub struct Tracker {
    first_len: u32,
    len: u32,
    taken: RangeSet,
    gaps: Vec<OpenGap>,
    tickets: Vec<Ticket>,
    spare: u32,
}

impl Model for Tracker {
    ghost use Rattle.std.specs.Prelude.{ℕ, vec_len, vec_capacity};
    ghost use Rattle.sparse_tracker.specs.ByteStates.{TrackerView};
    ghost use Rattle.sparse_tracker.specs.Kept.{byte_states_of, IsStored, HasRoom};

    ghost Value = { TrackerView };

    ghost view = { λ t. record {
      tracker = record {
        byte_states = byte_states_of t.len t.taken.ranges t.gaps.items;
        gaps = t.gaps.items;
        tickets = t.tickets.items;
      };
      first_len = t.first_len;
      spare = t.spare;
    } };

    ghost invariant = { λ t.
        IsStored t.first_len t.len t.taken.ranges t.gaps.items t.tickets.items
        × HasRoom (vec_len t.gaps) (vec_len t.tickets) t.spare t.taken.spare (vec_capacity t.gaps)
        (vec_capacity t.tickets) };
}

impl Tracker {
    /// A tracker of `len` bytes, all absent. It takes no memory.
    pub fn new(alloc: Global, len: u32) -> Tracker
        ensures { result ≡ record { tracker = new_tracker len; first_len = len; spare = 0 } }
    {
        Tracker {
            first_len: len,
            len,
            taken: RangeSet::new(alloc),
            gaps: Vec::new(alloc),
            tickets: Vec::new(alloc),
            spare: 0,
        }
    }

    /// The number of its bytes.
    pub fn len(&self) -> u32
        ensures { result ≡ length self.now.tracker.byte_states }
    {
        self.len
    }

    /// What is true of every tracker.
    pub fn lesson(&self)
        ensures { IsKept self.now }
    {
        let _ = &self.len;
    }

    /// The greatest run of absent bytes in the range that holds the first absent byte of the range at or after `from`.
    pub fn absent_within(&self, range: ByteRange, from: u64) -> Option<ByteRange>
        ensures { result ≡ absent_run self.now.tracker.byte_states range from }
    {
        let within = ByteRange {
            start: range.start,
            end: range.end.min(self.len as u64),
        };
        self.taken.first_absent_run(within, from)
    }

    /// Whether all bytes of the range are present.
    pub fn has_all(&self, sub: ByteRange) -> bool
        requires { (sub.start < sub.end) × (sub.end ≤ length self.now.tracker.byte_states) }
        ensures { result ≡ has_all sub self.now.tracker }
    {
        !has_absent(&self.taken, sub) && !has_pending(&self.gaps, sub)
    }

    /// Room for one more claim: the next `wait_for_range` finds all its memory there. It is refused only for want of
    /// memory, as which a tracker with some 2^32 gaps or tickets counts too.
    pub fn reserve(&mut self) -> Result<(), AllocError>
        ensures ok { OnOk result (self.new ≡ record self.old { spare = max self.old.spare 1 }) }
        ensures err { OnErr result (self.new ≡ self.old) }
        ensures room { 0 < self.old.spare → IsOk result }
    {
        if self.spare == 0 {
            if self.gaps.len() >= 4_294_967_293 || self.tickets.len() >= 4_294_967_295 {
                return Err(AllocError);
            }
            let changes = self.gaps.len() as u32 + 2;
            self.taken.reserve_for(changes)?;
            self.gaps.reserve(1)?;
            self.tickets.reserve(1)?;
            self.spare = 1;
        }
        Ok(())
    }

    /// A ticket on `sub`, and where a byte of it is absent a gap: the greatest run of absent bytes in `range` round the
    /// first one. The gap is the caller's to fetch, and pending from now on. It takes its memory from `spare`, where
    /// that is at least 1, and else may be refused for want of memory, with all as before.
    pub fn wait_for_range(&mut self, range: ByteRange, sub: ByteRange) -> Result<Claim, AllocError>
        requires sub { (sub.start < sub.end) × (range.start ≤ sub.start) × (sub.end ≤ range.end) }
        requires range { range.end ≤ length self.old.tracker.byte_states }
        ensures ok { OnOk result (self.new
            ≡ record self.old { tracker = wait_for_range range sub self.old.tracker; spare = self.old.spare - 1 }) }
        ensures claim { IfOk result (λ c. c ≡ new_claim range sub self.old.tracker) }
        ensures err { OnErr result (self.new ≡ self.old) }
        ensures room { 0 < self.old.spare → IsOk result }
    {
        self.reserve()?;
        self.spare -= 1;
        match claimed(&self.taken, range, sub) {
            None => {
                let ticket = push_ticket(&mut self.tickets, sub);
                Ok(Claim { gap: None, ticket })
            }
            Some(run) => {
                let id = open(&mut self.taken, &mut self.gaps, run);
                let ticket = push_ticket(&mut self.tickets, sub);
                Ok(Claim {
                    gap: Some(Gap { id, range: run }),
                    ticket,
                })
            }
        }
    }

    /// A ticket on `sub`, or none where a byte of it is absent. It opens no gap, and leaves the room for claims as it
    /// is. It is refused only for want of memory, with all as before.
    pub fn wait_if_pending(&mut self, sub: ByteRange) -> Result<Option<u32>, AllocError>
        requires { (sub.start < sub.end) × (sub.end ≤ length self.old.tracker.byte_states) }
        ensures ok { OnOk result (self.new ≡ record self.old { tracker = wait_if_pending sub self.old.tracker }) }
        ensures ticket { IfOk result (λ o. o ≡ pending_ticket sub self.old.tracker) }
        ensures err { OnErr result (self.new ≡ self.old) }
    {
        if has_absent(&self.taken, sub) {
            return Ok(None);
        }
        reserve_ticket(&mut self.tickets, self.spare)?;
        Ok(Some(push_ticket(&mut self.tickets, sub)))
    }

    /// The gap's bytes below `to` are present from now on. A gap whose end is reached is closed.
    pub fn progress(&mut self, gap: u32, to: u32)
        requires open { IsSome (gap_of gap self.old.tracker) }
        requires within { IfSome (gap_of gap self.old.tracker) (λ g. (g.upto ≤ to) × (to ≤ g.end)) }
        ensures { self.new ≡ record self.old { tracker = progress gap to self.old.tracker } }
    {
        move_gap(&mut self.gaps, gap, to as u64);
    }

    /// Progress to the gap's end, which closes it.
    pub fn complete(&mut self, gap: u32)
        requires { IsSome (gap_of gap self.old.tracker) }
        ensures { self.new ≡ record self.old { tracker = complete gap self.old.tracker } }
    {
        let end = gap_of(&self.gaps, gap).end;
        move_gap(&mut self.gaps, gap, end);
    }

    /// The gap's bytes that are still pending are absent again, and the gap is closed. Each ticket that waits for one
    /// of them is marked.
    pub fn fail(&mut self, gap: u32)
        requires { IsSome (gap_of gap self.old.tracker) }
        ensures { self.new ≡ record self.old { tracker = fail gap self.old.tracker } }
    {
        let lost = take_gap(&mut self.gaps, gap);
        close(&mut self.taken, lost);
        mark_tickets(&mut self.tickets, lost);
    }

    /// How far the ticket's bytes are.
    pub fn status(&self, ticket: u32) -> Status
        requires { IsSome (ticket_of ticket self.now.tracker) }
        ensures { option_map (λ k. status k self.now.tracker) (ticket_of ticket self.now.tracker) ≡ Some result }
    {
        let ticket = ticket_of(&self.tickets, ticket);
        let sub = ByteRange {
            start: ticket.start,
            end: ticket.end,
        };
        if has_absent(&self.taken, sub) {
            return if ticket.failed {
                Status::Failed
            } else {
                Status::Open
            };
        }
        if has_pending(&self.gaps, sub) {
            Status::Waiting
        } else {
            Status::Ready
        }
    }

    /// The bytes that the ticket waits for.
    pub fn waits_for(&self, ticket: u32) -> ByteRange
        requires { IsSome (ticket_of ticket self.now.tracker) }
        ensures { option_map (λ k. record { start = k.start; end = k.end }) (ticket_of ticket self.now.tracker)
            ≡ Some result }
    {
        let waiting = ticket_of(&self.tickets, ticket);
        ByteRange {
            start: waiting.start,
            end: waiting.end,
        }
    }

    /// Forgets the ticket.
    pub fn leave(&mut self, ticket: u32)
        requires { IsSome (ticket_of ticket self.old.tracker) }
        ensures { self.new ≡ record self.old { tracker = leave ticket self.old.tracker } }
    {
        drop_ticket(&mut self.tickets, ticket);
    }

    /// Begins again with `len` absent bytes. The room for claims stays.
    pub fn renew(&mut self, len: u32)
        requires gaps { self.old.tracker.gaps ≡ [] }
        requires tickets { self.old.tracker.tickets ≡ [] }
        requires len { len ≤ self.old.first_len }
        ensures { self.new ≡ record self.old { tracker = new_tracker len } }
    {
        self.taken.clear();
        self.len = len;
    }
}

// the run that a claim takes
fn claimed(taken: &RangeSet, range: ByteRange, sub: ByteRange) -> Option<ByteRange>
    ensures run { result ≡ not_behind sub (first_run (free_below taken.now.ranges range.end) range.start sub.start) }
    ensures some { IfSome result (λ r. (range.start ≤ r.start) × (r.start < r.end) × (r.end ≤ range.end)
        × ((i : ℕ) → inside r i ≡ true → has taken.now.ranges i ≡ false)) }
{
    match taken.first_absent_run(range, sub.start) {
        Some(run) if run.start < sub.end => Some(run),
        _ => None,
    }
}

// whether a place of the range is not taken
fn has_absent(taken: &RangeSet, sub: ByteRange) -> bool
    ensures { result ≡ any_free taken.now.ranges sub }
{
    taken.first_absent_run(sub, sub.start).is_some()
}

fn open(taken: &mut RangeSet, gaps: &mut Vec<OpenGap>, run: ByteRange) -> u32
    requires run { run.start < run.end }
    requires spare { 0 < taken.old.spare }
    requires room { (vec_len gaps.old < vec_capacity gaps.old) × (vec_len gaps.old < 4294967295) }
    requires differ { AllDiffer (ids gaps.old.items) }
    ensures id { result ≡ least_unused (ids gaps.old.items) }
    ensures gaps { gaps.new.items ≡ gaps.old.items ++ record { id = result; upto = run.start; end = run.end } ∷ [] }
    ensures places { (i : ℕ) → has taken.new.ranges i ≡ (inside run i || has taken.old.ranges i) }
    ensures spare { taken.new.spare ≡ taken.old.spare - 1 }
    ensures len { vec_len gaps.new ≡ vec_len gaps.old + 1 }
    ensures capacity { vec_capacity gaps.old ≤ vec_capacity gaps.new }
{
    let id = unused_number(gaps);
    let Ok(()) = taken.add(run) else {
        unreachable!()
    };
    let Ok(()) = gaps.push(OpenGap {
        id,
        upto: run.start,
        end: run.end,
    }) else {
        unreachable!()
    };
    id
}

// the places of a gap that failed
fn close(taken: &mut RangeSet, gap: OpenGap)
    requires order { gap.upto ≤ gap.end }
    requires spare { 0 < taken.old.spare }
    ensures places { (i : ℕ) → has taken.new.ranges i ≡ (has taken.old.ranges i && not (in_gap gap i)) }
    ensures spare { taken.new.spare ≡ taken.old.spare - 1 }
{
    let Ok(()) = taken.remove(ByteRange {
        start: gap.upto,
        end: gap.end,
    }) else {
        unreachable!()
    };
}

// room for one more ticket, beside that of the claims kept ahead
fn reserve_ticket(tickets: &mut Vec<Ticket>, spare: u32) -> Result<(), AllocError>
    ensures items { tickets.new.items ≡ tickets.old.items }
    ensures len { vec_len tickets.new ≡ vec_len tickets.old }
    ensures capacity { vec_capacity tickets.old ≤ vec_capacity tickets.new }
    ensures ok { OnOk result ((vec_len tickets.new + 1 + spare ≤ vec_capacity tickets.new)
        × (vec_len tickets.new + 1 + spare ≤ 4294967295)) }
{
    let spare = spare as usize;
    if tickets.len() >= 4_294_967_295 - spare {
        return Err(AllocError);
    }
    tickets.reserve(spare + 1)
}

fn crosses<T: Send + Sync>() {}

/// A tracker may be handed from thread to thread and shared.
pub fn tracker_crosses() {
    crosses::<Tracker>();
}
