//! The tickets of a tracker. There are as many as wait at a time, so they are walked.

ghost use Rattle.std.specs.Prelude.{◌≡◌, ◌<◌, ◌≤◌, ◌+◌, ℕ, length, ◌==◌, ◌++◌, ◌∷◌, [], IsSome, find, not};
ghost use Rattle.std.specs.Prelude.{map, false, vec_len, vec_capacity};
ghost use Rattle.std.specs.List.{list_any, prefix_len};
ghost use Rattle.sparse_tracker.specs.ByteStates.{least_unused, numbers, without_ticket};
ghost use Rattle.sparse_tracker.specs.Kept.{AllDiffer, mark};

use crate::gaps::OpenGap;
use crate::unused::{Numbered, unused_number};
use region_ranges::ByteRange;

/// Somebody waits for the bytes from `start` up to `end`; `failed` says that a gap failed on one of them meanwhile.
#[derive(Clone, Copy, Debug, PartialEq, Eq)]
pub struct Ticket {
    /// No other ticket of the tracker has it.
    pub number: u32,
    /// The place in bytes of the first byte that it waits for.
    pub start: u64,
    /// The place in bytes behind the last one.
    pub end: u64,
    /// Whether a gap failed on one of them since.
    pub failed: bool,
}

impl Numbered for Ticket {
    ghost number = { λ t. t.number };

    fn number(&self) -> u32 {
        self.number
    }
}

/// Puts a ticket on the range behind the others, for which there is room, and answers its number.
pub fn push_ticket(tickets: &mut Vec<Ticket>, sub: ByteRange) -> u32
    requires room { (vec_len tickets.old < vec_capacity tickets.old) × (vec_len tickets.old < 4294967295) }
    requires differ { AllDiffer (numbers tickets.old.items) }
    ensures number { result ≡ least_unused (numbers tickets.old.items) }
    ensures items { tickets.new.items ≡ tickets.old.items
        ++ record { number = result; start = sub.start; end = sub.end; failed = false } ∷ [] }
    ensures len { vec_len tickets.new ≡ vec_len tickets.old + 1 }
    ensures capacity { vec_capacity tickets.old ≤ vec_capacity tickets.new }
{
    let number = unused_number(tickets);
    let Ok(()) = tickets.push(Ticket {
        number,
        start: sub.start,
        end: sub.end,
        failed: false,
    }) else {
        unreachable!()
    };
    number
}

// the place of the ticket of that number
fn find_ticket(tickets: &[Ticket], number: u32) -> usize
    requires { IsSome (find (λ k. k.number == number) tickets.now) }
    ensures bound { result < length tickets.now }
    ensures place { result ≡ prefix_len (λ k. not (k.number == number)) tickets.now }
{
    for at in 0..tickets.len() {
        if tickets[at].number == number {
            return at;
        }
    }
    unreachable!()
}

/// The ticket of that number.
pub fn ticket_of(tickets: &[Ticket], number: u32) -> Ticket
    requires { IsSome (find (λ k. k.number == number) tickets.now) }
    ensures { find (λ k. k.number == number) tickets.now ≡ Some result }
{
    tickets[find_ticket(tickets, number)]
}

/// Takes the ticket of that number out.
pub fn drop_ticket(tickets: &mut Vec<Ticket>, number: u32)
    requires { IsSome (find (λ k. k.number == number) tickets.old.items) }
    ensures items { tickets.new.items ≡ without_ticket number tickets.old.items }
    ensures len { vec_len tickets.new + 1 ≡ vec_len tickets.old }
    ensures capacity { vec_capacity tickets.old ≤ vec_capacity tickets.new }
{
    let at = find_ticket(tickets, number);
    tickets.remove(at);
}

/// Marks each ticket that waits for a byte pending under the gap.
pub fn mark_tickets(tickets: &mut [Ticket], gap: OpenGap)
    ensures { tickets.new ≡ map (mark gap) tickets.old }
{
    for at in 0..tickets.len() {
        let ticket = tickets[at];
        if gap.upto < ticket.end && ticket.start < gap.end {
            tickets[at].failed = true;
        }
    }
}
