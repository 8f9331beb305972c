//! A policy of a few regions: the order of candidates, a decay, and when a frequency rises.

ghost use Rattle.std.specs.Prelude.{◌≡◌, ◌<◌};
ghost use Rattle.region_ranges.specs.Keys.{IsConfig, IsKey};

use cache_policy::{Config, Policy, Tally4};
use region_ranges::RegionKey;

// A missing proof of `Send` or `Sync` shows here, and not first at the threads above.
fn crosses<T: Send + Sync>() {}

fn policies_cross() {
    crosses::<Policy>()
}

// Frequencies 0 to 99, and a least interval of a minute.
fn config(regions: u32) -> Config
    requires { (0 < regions) × (regions < 513) }
    ensures { IsConfig result }
{
    Config {
        regions,
        region: 4096,
        range: 4096,
        max_freq: 100,
        min_delta: 60_000,
    }
}

fn key(region: u32) -> RegionKey
    requires { region < 268435455 }
    ensures { IsKey result }
{
    RegionKey {
        manifest: 1,
        file: 0,
        region,
    }
}

// Maps the front free region to a new key.
fn map_next(policy: &mut Policy, key: RegionKey, now: u64)
    requires { IsKey key }
{
    if let Some(region) = policy.free_front() {
        match policy.find(&key) {
            None => policy.map(region, key, now),
            Some(_) => {}
        }
    }
}

// Touches the region of the key, and gives how often a frequency rose.
fn touch_key(policy: &mut Policy, key: RegionKey, now: u64) -> u64
    requires { IsKey key }
{
    if let Some(region) = policy.find(&key) {
        policy.touch(region, now);
    }
    policy.tally().promotions
}

// The first five candidates.
fn order(policy: &Policy) -> [Option<u32>; 5] {
    let first = policy.next_candidate(None);
    let second = policy.next_candidate(first);
    let third = policy.next_candidate(second);
    let fourth = policy.next_candidate(third);
    [first, second, third, fourth, policy.next_candidate(fourth)]
}

#[test]
fn all_regions_are_free_at_first(rt: HostRuntime) {
    let policy = Policy::new(rt.alloc(), &config(4)).expect(&rt, "memory");
    assert_eq!(rt; policy.free_front(), Some(0));
    assert_eq!(rt; policy.free_len(), 4);
    assert_eq!(rt; policy.leaving_len(), 0);
    assert_eq!(rt; policy.next_candidate(None), None);
}

// Regions 1 and 2 rise to list 1. At the decay 120 seconds have passed since the touch of 1 and 80 since that of 2, so
// that 1 falls behind 0 in list 0. Region 3, mapped last, shows where list 0 ends.
#[test]
fn a_decay_lowers_by_one(rt: HostRuntime) {
    let mut policy = Policy::new(rt.alloc(), &config(4)).expect(&rt, "memory");
    for region in 0..3 {
        map_next(&mut policy, key(region), 0);
    }
    assert_eq!(rt; touch_key(&mut policy, key(1), 60_000), 1);
    assert_eq!(rt; touch_key(&mut policy, key(2), 100_000), 2);
    policy.decay(180_000);
    map_next(&mut policy, key(3), 180_000);
    assert_eq!(rt; order(&policy), [Some(0), Some(1), Some(3), Some(2), None]);
    assert_eq!(rt;
        policy.tally(),
        Tally4 {
            evictions: 0,
            promotions: 2,
            demotions: 1,
            listed: 4
        }
    );
}

#[test]
fn a_touch_waits_and_stops_at_the_last_frequency(rt: HostRuntime) {
    let mut policy = Policy::new(rt.alloc(), &config(1)).expect(&rt, "memory");
    map_next(&mut policy, key(0), 0);
    for rises in 0..99 {
        let last = 60_000 * rises;
        assert_eq!(rt; touch_key(&mut policy, key(0), last + 59_999), rises);
        assert_eq!(rt; touch_key(&mut policy, key(0), last + 60_000), rises + 1);
    }
    assert_eq!(rt; touch_key(&mut policy, key(0), 6_000_000), 99);
}

#[test]
fn a_touch_at_an_earlier_time_changes_nothing(rt: HostRuntime) {
    let mut policy = Policy::new(rt.alloc(), &config(1)).expect(&rt, "memory");
    map_next(&mut policy, key(0), 100);
    assert_eq!(rt; touch_key(&mut policy, key(0), 50), 0);
}
