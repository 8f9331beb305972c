//! Doors of a core: one region or two, two actors, frames that may fail, over the file of 10,000 counted bytes.

ghost use Rattle.region_ranges.specs.Keys.{IsConfig};

use crate::samples::{ONE, Stand, TWO, sample_source};
use crate::steps::Step;
use cache_door::{Entered, Glance, Taken};
use region_ranges::{ByteRange, Config};
use std::alloc::AllocError;
use std::process::Abort;

fn part(start: u64, end: u64) -> ByteRange {
    ByteRange { start, end }
}

const FIRST: ByteRange = ByteRange { start: 0, end: 4 };

const SECOND: ByteRange = ByteRange {
    start: 4096,
    end: 4100,
};

fn enter(actor: u32, part: ByteRange, answer: Entered) -> Step {
    Step::Enter {
        actor,
        mount: 0,
        part,
        answer,
    }
}

fn store(actor: u32, part: ByteRange, count: u32, answer: bool) -> Step {
    Step::Store {
        actor,
        part,
        count,
        answer,
    }
}

// the answer of an entry that holds this region and is told this gap
fn held(region: u32, start: u64, end: u64) -> Entered {
    Entered::Held {
        region,
        gap: Some(ByteRange { start, end }),
    }
}

// and of one that is told none
fn joined(region: u32) -> Entered {
    Entered::Held { region, gap: None }
}

fn fail(actor: u32) -> Step {
    Step::Fail { actor }
}

fn leave(actor: u32) -> Step {
    Step::Leave { actor }
}

fn take(actor: u32, first: u64, answer: Taken) -> Step {
    Step::Take {
        actor,
        first,
        answer,
    }
}

fn look(part: ByteRange, answer: Glance) -> Step {
    Step::Glance {
        region: 0,
        part,
        answer,
    }
}

fn counts(free: u32, leaving: u32, evictions: u64) -> Step {
    Step::Counts {
        free,
        leaving,
        evictions,
    }
}

// The place of the first step that answers otherwise on a new core, or None.
fn first_other(
    rt: &(impl Abort + AllocGlobal),
    config: &Config,
    failing: bool,
    steps: &[Step],
) -> Result<Option<usize>, AllocError>
    requires { IsConfig config.now }
{
    let alloc = rt.alloc();
    let source = sample_source(alloc, Vec::new(alloc))?;
    let mut stand = Stand::new(rt, alloc, source, config, "mount-y", failing)?;
    stand.first_other(alloc, steps)
}

#[test]
fn one_region_serves_one_key_at_a_time(rt: HostRuntime) -> Result<(), AllocError> {
    let steps = [
        enter(0, FIRST, held(0, 0, 4096)),
        enter(1, SECOND, Entered::NoRoom),
        fail(0),
        leave(0),
        enter(1, SECOND, held(0, 0, 4096)),
        counts(0, 0, 1),
    ];
    assert_eq!(rt; first_other(&rt, &ONE, false, &steps)?, None);
    Ok(())
}

#[test]
fn a_cleared_key_is_mapped_again(rt: HostRuntime) -> Result<(), AllocError> {
    let steps = [
        enter(0, FIRST, held(0, 0, 4096)),
        Step::Clear,
        counts(1, 1, 0),
        enter(1, FIRST, held(1, 0, 4096)),
        fail(0),
        leave(0),
        fail(1),
        leave(1),
        enter(0, SECOND, held(0, 0, 4096)),
        counts(0, 0, 0),
    ];
    assert_eq!(rt; first_other(&rt, &TWO, false, &steps)?, None);
    Ok(())
}

#[test]
fn two_actors_share_a_gap(rt: HostRuntime) -> Result<(), AllocError> {
    let stored = [
        enter(0, FIRST, held(0, 0, 4096)),
        enter(1, FIRST, joined(0)),
        take(1, 0, Taken::Waiting),
        store(0, FIRST, 4096, true),
        take(0, 0, Taken::Copied),
        take(1, 0, Taken::Copied),
    ];
    assert_eq!(rt; first_other(&rt, &ONE, false, &stored)?, None);
    let failed = [
        enter(0, FIRST, held(0, 0, 4096)),
        enter(1, FIRST, joined(0)),
        take(1, 0, Taken::Waiting),
        fail(0),
        take(1, 0, Taken::Failed),
        leave(0),
        leave(1),
        enter(1, FIRST, held(0, 0, 4096)),
    ];
    assert_eq!(rt; first_other(&rt, &ONE, false, &failed)?, None);
    Ok(())
}

// A region of two ranges, so that a gap stays in the range of what is wanted; then the file's short last region.
#[test]
fn a_gap_in_pieces(rt: HostRuntime) -> Result<(), AllocError> {
    let wide = Config {
        region: 8192,
        ..ONE
    };
    let first = part(100, 200);
    let steps = [
        enter(0, first, held(0, 0, 4096)),
        store(0, first, 150, true),
        enter(1, part(120, 130), joined(0)),
        take(1, 120, Taken::Copied),
        leave(1),
        enter(1, part(140, 160), joined(0)),
        take(1, 140, Taken::Waiting),
        fail(0),
        take(1, 140, Taken::Failed),
        take(0, 100, Taken::Failed),
        leave(0),
        leave(1),
        enter(0, first, held(0, 150, 4096)),
    ];
    assert_eq!(rt; first_other(&rt, &wide, false, &steps)?, None);
    let last = part(8192, 8202);
    let steps = [
        enter(0, last, held(0, 0, 1808)),
        store(0, last, 1000, true),
        store(0, last, 808, true),
        take(0, 8192, Taken::Copied),
        leave(0),
        enter(0, part(9992, 10_000), joined(0)),
        take(0, 9992, Taken::Copied),
    ];
    assert_eq!(rt; first_other(&rt, &wide, false, &steps)?, None);
    Ok(())
}

// Frames that fail at their first store and at their first copy.
#[test]
fn looks_and_faults(rt: HostRuntime) -> Result<(), AllocError> {
    let steps = [
        // no key yet, then another one: that of the second manifest's first file and region
        look(FIRST, Glance::Moved(72_057_594_037_927_935)),
        enter(1, FIRST, held(0, 0, 4096)),
        look(FIRST, Glance::Absent),
        look(SECOND, Glance::Moved(2_199_023_255_552)),
        store(1, FIRST, 150, false),
        store(1, FIRST, 150, true),
        look(part(100, 104), Glance::FrameFault),
        look(part(100, 104), Glance::Copied),
        look(part(148, 152), Glance::Absent),
        store(1, FIRST, 3946, true),
        take(1, 0, Taken::Copied),
        leave(1),
    ];
    assert_eq!(rt; first_other(&rt, &ONE, true, &steps)?, None);
    Ok(())
}

// A mount that was unmounted is gone, also where it was made live again, and another is not.
#[test]
fn mounts_that_are_gone(rt: HostRuntime) -> Result<(), AllocError> {
    let steps = [
        Step::Live { mount: 0 },
        enter(0, FIRST, held(0, 0, 4096)),
        store(0, FIRST, 4096, false),
        store(0, FIRST, 4096, true),
        take(0, 0, Taken::FrameFault),
        take(0, 0, Taken::Copied),
        leave(0),
        Step::Decay { now: 120_000 },
        Step::Unmount { mount: 0 },
        Step::Live { mount: 0 },
        enter(0, FIRST, Entered::Gone),
        Step::Enter {
            actor: 0,
            mount: 1,
            part: FIRST,
            answer: held(0, 0, 4096),
        },
    ];
    assert_eq!(rt; first_other(&rt, &ONE, true, &steps)?, None);
    Ok(())
}
