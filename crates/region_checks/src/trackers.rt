//! A tracker of ten bytes, claimed for those at 2 and 3, fetched to 3 and to 4, and failed; and one with ten thousand
//! open gaps.

ghost use Rattle.std.specs.Prelude.{◌≡◌, ◌<◌, ℕ, OnOk, IfOk, IfSome, IsSome};
ghost use Rattle.sparse_tracker.specs.ByteStates.{new_tracker, gap_of, ticket_of};
ghost use Rattle.region_checks.specs.TrackerSteps.{claimed, begun, fetched, lost, joined};

use region_ranges::ByteRange;
use sparse_tracker::{Claim, Gap, Status, Tracker};
use std::alloc::AllocError;

fn claim(tracker: &mut Tracker) -> Result<Claim, AllocError>
    requires { tracker.old.tracker ≡ new_tracker 10 }
    ensures { OnOk result (tracker.new.tracker ≡ claimed) }
{
    tracker.reserve()?;
    let all = ByteRange { start: 0, end: 10 };
    let claim = tracker.wait_for_range(all, ByteRange { start: 2, end: 4 })?;
    Ok(claim)
}

fn begin(tracker: &mut Tracker) -> Status
    requires { tracker.old.tracker ≡ claimed }
    ensures { tracker.new.tracker ≡ begun }
{
    tracker.progress(0, 3);
    tracker.status(0)
}

fn fetch(tracker: &mut Tracker) -> Status
    requires { tracker.old.tracker ≡ begun }
    ensures { tracker.new.tracker ≡ fetched }
{
    tracker.progress(0, 4);
    tracker.status(0)
}

fn lose(tracker: &mut Tracker) -> Status
    requires { tracker.old.tracker ≡ fetched }
    ensures { tracker.new.tracker ≡ lost }
{
    tracker.fail(0);
    tracker.status(0)
}

fn join(tracker: &mut Tracker) -> Result<Option<u32>, AllocError>
    requires { tracker.old.tracker ≡ lost }
    ensures { OnOk result (tracker.new.tracker ≡ joined) }
{
    let ticket = tracker.wait_if_pending(ByteRange { start: 0, end: 4 })?;
    Ok(ticket)
}

fn join_over_the_border(tracker: &mut Tracker) -> Result<Option<u32>, AllocError>
    requires { tracker.old.tracker ≡ joined }
{
    tracker.wait_if_pending(ByteRange { start: 3, end: 5 })
}

fn status_of_the_second(tracker: &Tracker) -> Status
    requires { tracker.now.tracker ≡ joined }
{
    tracker.status(1)
}

#[test]
fn a_tracker_of_ten(rt: HostRuntime) -> Result<(), AllocError> {
    let mut tracker = Tracker::new(rt.alloc(), 10);
    let all = ByteRange { start: 0, end: 10 };
    let wanted = Claim {
        gap: Some(Gap { id: 0, range: all }),
        ticket: 0,
    };
    let answer = claim(&mut tracker)?;
    assert_eq!(rt; answer, wanted);
    let early = begin(&mut tracker);
    assert_eq!(rt; early, Status::Waiting);
    let ready = fetch(&mut tracker);
    assert_eq!(rt; ready, Status::Ready);
    let late = lose(&mut tracker);
    assert_eq!(rt; late, Status::Ready);
    let absent = ByteRange { start: 4, end: 10 };
    assert_eq!(rt; tracker.absent_within(all, 0), Some(absent));
    let second = join(&mut tracker)?;
    assert_eq!(rt; second, Some(1));
    let present = status_of_the_second(&tracker);
    assert_eq!(rt; present, Status::Ready);
    let none = join_over_the_border(&mut tracker)?;
    assert_eq!(rt; none, None);
    Ok(())
}

// A claim of one byte, or want of memory where the tracker is too short. What was open before stays open.
fn claim_byte(tracker: &mut Tracker, at: u32) -> Result<Claim, AllocError>
    ensures gap { IfOk result (λ c. IfSome c.gap (λ g. IsSome (gap_of g.id tracker.new.tracker))) }
    ensures ticket { IfOk result (λ c. IsSome (ticket_of c.ticket tracker.new.tracker)) }
    ensures gaps { (g : ℕ) → IsSome (gap_of g tracker.old.tracker) → IsSome (gap_of g tracker.new.tracker) }
    ensures tickets { (n : ℕ) → IsSome (ticket_of n tracker.old.tracker) → IsSome (ticket_of n tracker.new.tracker) }
{
    let start = at as u64;
    let byte = ByteRange {
        start,
        end: start + 1,
    };
    if byte.end > tracker.len() as u64 {
        return Err(AllocError);
    }
    tracker.wait_for_range(byte, byte)
}

// The claim of a byte that gets the gap and the ticket of these numbers.
fn wanted(at: u32, id: u32, ticket: u32) -> Claim {
    let start = at as u64;
    let range = ByteRange {
        start,
        end: start + 1,
    };
    Claim {
        gap: Some(Gap { id, range }),
        ticket,
    }
}

// Claims the first byte of each pair from `low` up to `high`, and answers the first claim that did not get the gap and
// the ticket of its pair's number, or `high`.
fn claim_pairs(tracker: &mut Tracker, low: u32, high: u32) -> Result<u32, AllocError>
    requires { high < 2147483648 }
    ensures gaps { (g : ℕ) → IsSome (gap_of g tracker.old.tracker) → IsSome (gap_of g tracker.new.tracker) }
    ensures tickets { (n : ℕ) → IsSome (ticket_of n tracker.old.tracker) → IsSome (ticket_of n tracker.new.tracker) }
{
    for pair in low..high {
        let claim = claim_byte(tracker, 2 * pair)?;
        if claim != wanted(2 * pair, pair, pair) {
            return Ok(pair);
        }
    }
    Ok(high)
}

// Gives the gap of a claim up, so that its byte can be claimed again.
fn lose_gap(tracker: &mut Tracker, claim: Claim)
    requires { IfSome claim.gap (λ g. IsSome (gap_of g.id tracker.old.tracker)) }
    ensures { (n : ℕ) → IsSome (ticket_of n tracker.old.tracker) → IsSome (ticket_of n tracker.new.tracker) }
{
    if let Some(gap) = claim.gap {
        tracker.fail(gap.id);
    }
}

fn leave_ticket(tracker: &mut Tracker, claim: Claim)
    requires { IsSome (ticket_of claim.ticket tracker.old.tracker) }
    ensures { tracker.new.tracker.gaps ≡ tracker.old.tracker.gaps }
{
    tracker.leave(claim.ticket);
}

// Gives a claim of a byte up and claims the byte again, so many times, as long as each answer is the first one.
fn claim_again(tracker: &mut Tracker, at: u32, first: Claim, times: u32) -> Result<u32, AllocError>
    requires gap { IfSome first.gap (λ g. IsSome (gap_of g.id tracker.old.tracker)) }
    requires ticket { IsSome (ticket_of first.ticket tracker.old.tracker) }
{
    let mut claim = first;
    for time in 0..times {
        leave_ticket(tracker, claim);
        lose_gap(tracker, claim);
        claim = claim_byte(tracker, at)?;
        if claim != first {
            return Ok(time);
        }
    }
    Ok(times)
}

// Each claim takes one byte and leaves the next absent, so that no two gaps touch. Numbers that were given back are
// given out again, the least one first.
#[test]
fn ten_thousand_open_gaps(rt: HostRuntime) -> Result<(), AllocError> {
    let mut tracker = Tracker::new(rt.alloc(), 20_000);
    assert_eq!(rt; claim_pairs(&mut tracker, 0, 42)?, 42);
    let early = claim_byte(&mut tracker, 84)?;
    assert_eq!(rt; early, wanted(84, 42, 42));
    assert_eq!(rt; claim_pairs(&mut tracker, 43, 7_000)?, 7_000);
    let late = claim_byte(&mut tracker, 14_000)?;
    assert_eq!(rt; late, wanted(14_000, 7_000, 7_000));
    assert_eq!(rt; claim_pairs(&mut tracker, 7_001, 10_000)?, 10_000);
    leave_ticket(&mut tracker, late);
    lose_gap(&mut tracker, early);
    let again = claim_byte(&mut tracker, 1)?;
    assert_eq!(rt; again, wanted(1, 42, 7_000));
    assert_eq!(rt; claim_again(&mut tracker, 1, again, 1_000)?, 1_000);
    assert_eq!(rt; claim_byte(&mut tracker, 3)?, wanted(3, 10_000, 10_000));
    Ok(())
}
