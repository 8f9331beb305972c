//! Which region an entry for another key takes: the front free one, after the leaving regions that nobody holds were
//! settled and, where none is free then, the first candidate that nobody holds was evicted.

ghost use Rattle.std.specs.Prelude.{◌≡◌, IfSome, IsSome};
ghost use Rattle.freq_lists.specs.Lists.{head};
ghost use Rattle.cache_policy.specs.Policy.{tag_at};
ghost use Rattle.cache_policy.specs.Ageing.{candidates};
ghost use Rattle.cache_policy.specs.Kept.{IsGood};
ghost use Rattle.cache_door.specs.Machine.{is_on, is_held_by, unheld_by, settled_by, evicted_by, room_by};

use crate::hold::Hold;
use cache_policy::Policy;

fn is_on(hold: &Option<Hold>, region: u32) -> bool
    ensures { result ≡ is_on region hold.now }
{
    match hold {
        Some(hold) => hold.region == region,
        None => false,
    }
}

/// Whether an actor holds the region.
fn is_held(holds: &[Option<Hold>], region: u32) -> bool
    ensures { result ≡ is_held_by holds.now region }
{
    holds.iter().any(|hold| is_on(hold, region))
}

/// The first leaving region that nobody holds.
fn first_leaving(policy: &Policy, holds: &[Option<Hold>]) -> Option<u32>
    ensures { result ≡ head (unheld_by holds.now policy.now.leaving) }
{
    for at in 0..policy.leaving_len() {
        let region = policy.leaving_at(at);
        if !is_held(holds, region) {
            return Some(region);
        }
    }
    None
}

/// The first candidate for eviction that nobody holds.
fn first_candidate(policy: &Policy, holds: &[Option<Hold>]) -> Option<u32>
    ensures first { result ≡ head (unheld_by holds.now (candidates policy.now)) }
    ensures mapped { IfSome result (λ r. IsSome (tag_at policy.now r)) }
{
    policy.lesson();
    let mut at = policy.next_candidate(None);
    while let Some(region) = at {
        if !is_held(holds, region) {
            return Some(region);
        }
        at = policy.next_candidate(Some(region));
    }
    None
}

/// The region that is the front free one after `make_room`, or None where there is none.
pub fn choose(policy: &Policy, holds: &[Option<Hold>]) -> Option<u32>
    ensures { result ≡ head (room_by holds.now policy.now).free }
{
    if let Some(region) = policy.free_front() {
        return Some(region);
    }
    if let Some(region) = first_leaving(policy, holds) {
        return Some(region);
    }
    first_candidate(policy, holds)
}

/// Settles each leaving region that nobody holds, in the order of the list.
pub fn settle(policy: &mut Policy, holds: &[Option<Hold>])
    ensures policy { policy.new ≡ settled_by holds.now policy.old }
    ensures good { IsGood policy.new }
{
    let mut at = 0;
    while at < policy.leaving_len() {
        policy.lesson();
        let region = policy.leaving_at(at);
        if is_held(holds, region) {
            at += 1;
        } else {
            policy.settle(region);
        }
    }
    policy.lesson();
}

/// Evicts the first candidate that nobody holds, where no region is free.
fn evict(policy: &mut Policy, holds: &[Option<Hold>])
    ensures policy { policy.new ≡ evicted_by holds.now policy.old }
    ensures good { IsGood policy.new }
{
    if policy.free_len() == 0 {
        if let Some(region) = first_candidate(policy, holds) {
            policy.lesson();
            policy.unmap(region);
        }
    }
    policy.lesson();
}

/// Settles the leaving regions that nobody holds, and evicts one where no region is free then.
pub fn make_room(policy: &mut Policy, holds: &[Option<Hold>])
    ensures policy { policy.new ≡ room_by holds.now policy.old }
    ensures settled { IsGood (settled_by holds.now policy.old) }
    ensures good { IsGood policy.new }
{
    settle(policy, holds);
    evict(policy, holds);
}
