//! A mapped key that is wanted with another length, over an archive that does not tell.
ghost use Rattle.std.specs.Prelude.{◌≤◌, IfOk};
ghost use Rattle.cache_door.specs.Doors.{IsWant};
ghost use Rattle.cache_checks.specs.Checks.{IsCore};

use crate::faulty::Faulty;
use crate::samples::ONE;
use cache_door::{CacheDoor, Core, Entered, Want};
use cache_outside::Untold;
use region_ranges::{ByteRange, RegionKey};
use std::alloc::{AllocError, Global};
use std::process::Abort;
use std::test::Fail;

// The first four bytes of a region of so many bytes.
fn want(len: u32) -> Want
    requires { (4 ≤ len) × (len ≤ 4096) }
    ensures { IsWant ONE result }
{
    Want {
        key: RegionKey {
            manifest: 1,
            file: 0,
            region: 0,
        },
        len,
        sub: ByteRange { start: 0, end: 4 },
    }
}

fn core_of_one(alloc: Global) -> Result<Core<Untold, Faulty>, AllocError>
    ensures { IfOk result (IsCore ONE) }
{
    let mut frames = Vec::new(alloc);
    frames.push(Faulty::new(alloc, 4096, false)?)?;
    Core::new(alloc, &ONE, frames, 2)
}

// Enters where nothing is held, and gives the hold back.
fn visit(
    rt: &impl Abort,
    core: &mut Core<Untold, Faulty>,
    want: &Want,
) -> Result<Entered, AllocError>
    requires core { IsCore ONE core.old }
    requires want { IsWant ONE want.now }
    ensures { IsCore ONE core.new }
{
    assert!(rt; core.hold_of(0).is_none());
    let entered = core.door(0).enter(0, want, 0)?;
    if let Some(hold) = core.hold_of(0) {
        if hold.gap.upto < hold.gap.end {
            core.door(0).fail();
        }
    }
    if let Some(hold) = core.hold_of(0) {
        if hold.gap.end <= hold.gap.upto {
            core.door(0).leave();
        }
    }
    Ok(entered)
}

#[test]
fn a_key_of_another_length(rt: HostRuntime) -> Result<(), Fail> {
    let mut core = core_of_one(rt.alloc())?;
    let held = Entered::Held {
        region: 0,
        gap: Some(ByteRange {
            start: 0,
            end: 4096,
        }),
    };
    assert!(rt; visit(&rt, &mut core, &want(4096))? == held);
    assert!(rt; visit(&rt, &mut core, &want(100))? == Entered::NoRoom);
    assert!(rt; visit(&rt, &mut core, &want(4096))? == held);
    Ok(())
}
