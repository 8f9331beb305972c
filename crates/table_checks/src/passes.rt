//! One pass over a cache of one region.
ghost use Rattle.std.specs.Prelude.{◌≡◌, ◌<◌, ◌-◌};
ghost use Rattle.region_ranges.specs.Keys.{IsConfig};
ghost use Rattle.cache_door.specs.Doors.{IsWant, nothing};

use crate::samples::{ONE, SHORT, open_one, read, source, table};
use blob_parts::PartTable;
use cache_door::{CacheDoor, Glance, Want};
use cache_outside::{MemSource, Untold};
use cache_reader::Report;
use cache_table::TableDoor;
use directory_input::BytesError;
use region_ranges::{ByteRange, Config, RegionKey};
use std::alloc::Global;
use std::process::Abort;
use std::test::Fail;

// The first four bytes of a region of the file.
fn want(region: u32) -> Want
    requires { region < 2 }
    ensures fits { IsWant ONE result }
    ensures sub { result.sub.end - result.sub.start ≡ 4 }
{
    Want {
        key: RegionKey {
            manifest: 0,
            file: 0,
            region,
        },
        len: 4096,
        sub: ByteRange { start: 0, end: 4 },
    }
}

#[test]
fn a_look_at_a_region_that_nobody_holds(rt: HostRuntime) -> Result<(), Fail> {
    let alloc = rt.alloc();
    let mut source = source(&rt, alloc, &SHORT)?;
    let Some(table) = table(alloc, &mut source) else {
        assert!(rt; false);
        return Ok(());
    };
    let (cache, pass) = open_one(alloc)?;
    let mut door = TableDoor::new(&rt, &cache, pass);
    door.live(0);
    let seen = read(alloc, &mut door, &mut source, &table, &ONE, 0, 4);
    assert!(rt; matches!(seen, Ok(Some(_))));
    let mut pass = door.into_pass();
    let mut out = [0; 4];
    let here = cache.glance_free(&mut pass, 0, &want(0), &mut out);
    assert!(rt; here == Glance::Copied && out == [0, 1, 2, 3]);
    let mut out = [0; 4];
    let there = cache.glance_free(&mut pass, 0, &want(1), &mut out);
    assert!(rt; there == Glance::Moved(0));
    assert_eq!(rt; pass.shares(), 64);
    cache.close(pass);
    Ok(())
}

// Reads of four bytes, one after the other, through a cache of one region: each fetches a whole region, or nothing
// where its region is the one that is there.
fn reads_of_one_region<D: CacheDoor<Untold>>(
    rt: &impl Abort,
    alloc: Global,
    door: &mut D,
    source: &mut MemSource<Untold>,
    table: &PartTable<Untold>,
    config: &Config,
)
    requires free { (D.view door.old).hold ≡ nothing }
    requires setting { (D.view door.old).config ≡ config.now }
    requires limits { IsConfig config.now }
    ensures hold { (D.view door.new).hold ≡ nothing }
    ensures config { (D.view door.new).config ≡ config.now }
{
    for (at, fetched) in [
        (0, 4096),
        (2, 0),
        (4094, 4096),
        (4096, 0),
        (8192, 1808),
        (9000, 0),
        (0, 4096),
    ] {
        let seen = read(alloc, door, source, table, config, at, 4);
        let wanted = Report {
            hit: 4,
            fetched,
            direct: 0,
        };
        assert!(rt; seen == Ok(Some(wanted)));
    }
}

#[test]
fn one_pass_reads_and_unmounts(rt: HostRuntime) -> Result<(), Fail> {
    let alloc = rt.alloc();
    let mut source = source(&rt, alloc, &SHORT)?;
    let Some(table) = table(alloc, &mut source) else {
        assert!(rt; false);
        return Ok(());
    };
    let (cache, pass) = open_one(alloc)?;
    let mut door = TableDoor::new(&rt, &cache, pass);
    reads_of_one_region(&rt, alloc, &mut door, &mut source, &table, &ONE);
    door.unmount(0, 0);
    let seen = read(alloc, &mut door, &mut source, &table, &ONE, 0, 4);
    assert!(rt; seen == Err(BytesError::Gone { mount: 0 }));
    let pass = door.into_pass();
    assert!(rt; pass.has_unmounted(0) && pass.has_seen_gone(0));
    assert!(rt; !pass.has_unmounted(1) && !pass.has_seen_gone(4095) && !pass.has_seen_gone(4096));
    Ok(())
}
