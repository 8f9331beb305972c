//! Sets of ranges against a table of places, and tags of keys.

ghost use Rattle.std.specs.Prelude.{◌≡◌, ◌≤◌};

use region_ranges::{ByteRange, FREE_TAG, RangeSet, RegionKey};

fn range(start: u64, end: u64) -> ByteRange
    ensures { result ≡ record { start = start; end = end } }
{
    ByteRange { start, end }
}

// The answer of `first_absent_run`, by a walk over all places.
fn plain_run(taken: &[bool; 24], within: ByteRange, from: u64) -> Option<ByteRange>
    requires { within.end ≤ 24 }
{
    let mut start = within.start;
    for at in within.start..within.end {
        if taken[at as usize] {
            if start < at && from < at {
                return Some(range(start, at));
            }
            start = at + 1;
        }
    }
    if start < within.end && from < within.end {
        Some(range(start, within.end))
    } else {
        None
    }
}

fn crosses<T: Send + Sync>() {}

#[test]
fn a_range_cut_in_two(rt: HostRuntime) {
    crosses::<RangeSet>();
    let mut set = RangeSet::new(rt.alloc());
    assert_eq!(rt; set.reserve(), Ok(()));
    assert_eq!(rt; set.add(range(0, 10)), Ok(()));
    assert_eq!(rt; set.remove(range(4, 6)), Ok(()));
    assert_eq!(rt; set.first_absent_run(range(0, 20), 5), Some(range(4, 6)));
    assert_eq!(rt; set.first_absent_run(range(0, 20), 6), Some(range(10, 20)));
    assert_eq!(rt; set.reserve_for(3), Ok(()));
    assert_eq!(rt; set.add(range(4, 5)), Ok(()));
    for (start, end, covered) in [
        (0, 4, true),
        (6, 10, true),
        (0, 5, true),
        (4, 7, false),
        (5, 6, false),
        (5, 5, true),
        (9, 11, false),
    ] {
        assert_eq!(rt; set.covers(range(start, end)), covered, "{start}..{end}");
    }
    set.clear();
    assert_eq!(rt; set.first_absent_run(range(0, 20), 5), Some(range(0, 20)));
}

#[test]
fn the_same_as_place_by_place(rt: HostRuntime) {
    let mut set = RangeSet::new(rt.alloc());
    let mut taken = [false; 24];
    let changes = [
        (true, 8, 12),
        (true, 2, 4),
        (true, 4, 7),
        (false, 10, 11),
        (true, 7, 20),
        (false, 5, 9),
        (true, 21, 24),
        (true, 23, 24),
        (false, 3, 22),
    ];
    for (adds, start, end) in changes {
        let changed = range(start, end);
        let answer = if adds {
            set.add(changed)
        } else {
            set.remove(changed)
        };
        assert_eq!(rt; answer, Ok(()));
        for at in 0..24 {
            if start <= at && at < end {
                taken[at as usize] = adds;
            }
        }
        for from in 0..24 {
            for within in [range(0, 24), range(3, 22)] {
                assert_eq!(rt;
                    set.first_absent_run(within, from),
                    plain_run(&taken, within, from),
                    "{start}..{end} from {from}"
                );
            }
        }
    }
}

#[test]
fn one_tag_a_key(rt: HostRuntime) {
    let key = RegionKey {
        manifest: 1,
        file: 2,
        region: 3,
    };
    assert_eq!(rt; key.pack(), 1_100_048_498_691);
    assert_eq!(rt; RegionKey::unpack(1_100_048_498_691), Some(key));
    assert_eq!(rt; RegionKey::unpack(FREE_TAG), None);
}
