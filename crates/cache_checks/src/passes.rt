//! The reads of a core once more, through a pass of the cache between threads: the same answers.

ghost use Rattle.std.specs.Prelude.{◌≡◌, ◌<◌, length};
ghost use Rattle.region_ranges.specs.Keys.{IsConfig};

use crate::faulty::Faulty;
use crate::reads::{Case, Left, first_other, first_other_sum, front, read_each, report, second};
use crate::samples::{ONE, Stand, frames, sample_source, table_of};
use crate::steps::want_of;
use cache_door::{CacheDoor, Entered};
use cache_outside::{Archive, MemSource};
use cache_reader::Report;
use cache_table::{SharedCache, TableDoor};
use region_ranges::{ByteRange, Config};
use std::process::Abort;
use std::sync::Wait;
use std::test::Fail;

type Cache<A> = SharedCache<A, Faulty>;

/// Makes the reads through the one pass of a new cache, each through a reader of its own. Each frame fails at its
/// first put and its first get where `failing`. `reads` are what the source reads: the blob's number, the place in it
/// and how many bytes.
pub fn read_by_pass<R: Abort + AllocGlobal + Wait, A: Archive + Drop>(
    rt: &R,
    mut source: MemSource<A>,
    config: &Config,
    manifest: &str,
    failing: bool,
    cases: &[Case],
    reads: &[(u32, u64, u64)],
) -> Result<(), Fail>
    requires { IsConfig config.now }
{
    let alloc = rt.alloc();
    let table = table_of(rt, alloc, &mut source, manifest);
    assert!(rt; table.files() > 0);
    let (cache, pass) = Cache::<A>::open(alloc, config, frames(alloc, config, failing)?)?;
    let mut door = TableDoor::new(rt, &cache, pass);
    assert_eq!(rt;
        first_other(rt, &mut door, &mut source, &table, config, cases),
        None
    );
    assert_eq!(rt; source.reads(), reads);
    let pass = door.into_pass();
    assert_eq!(rt; pass.shares(), 64);
    cache.close(pass);
    Ok(())
}

/// Makes the reads through the one pass of a new cache, all through one reader. Behind each its sums are these.
pub fn read_by_one_pass<R: Abort + AllocGlobal + Wait, A: Archive + Drop>(
    rt: &R,
    mut source: MemSource<A>,
    config: &Config,
    manifest: &str,
    cases: &[(Case, Report)],
) -> Result<(), Fail>
    requires { IsConfig config.now }
{
    let alloc = rt.alloc();
    let table = table_of(rt, alloc, &mut source, manifest);
    assert!(rt; table.files() > 0);
    let (cache, pass) = Cache::<A>::open(alloc, config, frames(alloc, config, false)?)?;
    let mut door = TableDoor::new(rt, &cache, pass);
    assert_eq!(rt;
        first_other_sum(rt, &mut door, &mut source, &table, config, cases),
        None
    );
    Ok(())
}

/// A store that fails, then a copy that fails: both reads go past the cache, and the third one hits. First through a
/// core, then through a pass.
#[test]
fn a_reader_over_frames_that_fail(rt: HostRuntime) -> Result<(), Fail> {
    let cases = [
        front(report(0, 0, 4)),
        front(report(0, 4096, 4)),
        front(report(4, 0, 0)),
    ];
    let left = Left {
        reads: &[(8, 0, 93), (2, 0, 4096), (2, 0, 4), (2, 0, 4096), (2, 0, 4)],
        evictions: 0,
        promotions: 0,
        mapped: 1,
        free: 0,
    };
    let alloc = rt.alloc();
    let source = sample_source(alloc, Vec::new(alloc))?;
    let stand = Stand::new(&rt, alloc, source, &ONE, "mount-y", true)?;
    read_each(&rt, stand, 0, &cases, &left)?;
    let source = sample_source(alloc, Vec::new(alloc))?;
    read_by_pass(&rt, source, &ONE, "mount-y", true, &cases, left.reads)
}

// One pass holds the only region, and gives it back behind the reads of another one that are turned away.
fn read_around_a_hold<R: Abort + AllocGlobal + Wait, A: Archive + Drop>(
    rt: &R,
    mut source: MemSource<A>,
    turned_away: &[Case],
    given_back: &[Case],
    reads: &[(u32, u64, u64)],
) -> Result<(), Fail> {
    let alloc = rt.alloc();
    let table = table_of(rt, alloc, &mut source, "mount-y");
    assert!(rt; table.files() > 0);
    let part = ByteRange { start: 0, end: 4 };
    let Some(want) = want_of(&table, &ONE, part) else {
        assert!(rt; false);
        return Ok(());
    };
    let (cache, mut pass) = Cache::<A>::open(alloc, &ONE, frames(alloc, &ONE, false)?)?;
    let mut other = TableDoor::new(rt, &cache, cache.split(&mut pass));
    let mut holder = TableDoor::new(rt, &cache, pass);
    let Entered::Held {
        region: 0,
        gap: Some(gap),
    } = holder.enter(0, &want, 0)?
    else {
        assert!(rt; false);
        return Ok(());
    };
    assert!(rt; gap.start == 0 && gap.end == 4096);
    let seen = first_other(rt, &mut other, &mut source, &table, &ONE, turned_away);
    assert_eq!(rt; seen, None);
    holder.fail();
    holder.leave();
    let seen = first_other(rt, &mut other, &mut source, &table, &ONE, given_back);
    assert_eq!(rt; seen, None);
    assert_eq!(rt; source.reads(), reads);
    let mut pass = holder.into_pass();
    cache.join(&mut pass, other.into_pass());
    assert_eq!(rt; pass.shares(), 64);
    cache.close(pass);
    Ok(())
}

/// A reader that is turned away reads directly, until the region is given back.
#[test]
fn a_pass_without_room(rt: HostRuntime) -> Result<(), Fail> {
    let source = sample_source(rt.alloc(), Vec::new(rt.alloc()))?;
    read_around_a_hold(
        &rt,
        source,
        &[second(report(0, 0, 4))],
        &[second(report(4, 4096, 0))],
        &[(8, 0, 93), (2, 4096, 4), (2, 4096, 4096)],
    )
}
