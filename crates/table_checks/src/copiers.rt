//! Four threads copy what four others store, in a cache of two regions.
ghost use Rattle.std.specs.Prelude.{◌≡◌, ◌<◌, ◌≤◌, ◌+◌, ◌-◌, true, All};
ghost use Rattle.cache_door.specs.Doors.{IsWant, nothing};
ghost use Rattle.table_checks.specs.Jobs.{IsIdle, HasIdle};

use crate::samples::{Cache, SHORT, TWO, are_from, open_two, read, source, table};
use crate::workers::{Counts, Job, NONE, WORKERS, deal, draw, gather};
use blob_parts::PartTable;
use cache_door::{CacheDoor, Entered, Taken, Want};
use cache_outside::{MemSource, Untold};
use cache_table::{Pass, TableDoor};
use region_ranges::{ByteRange, Config, RegionKey};
use std::alloc::{AllocError, Global};
use std::process::Abort;
use std::sync::Wait;
use std::sync::atomic::AtomicU64;
use std::sync::atomic::Ordering::SeqCst;
use std::test::Fail;
use std::thread;
use std::thread::Threads;

// The workers with the numbers from 0 on that copy, and how often each does.
const COPIERS: u64 = 4;

const ROUNDS: u64 = 10_000;

// A part of one of the file's first two regions.
fn part(region: u32, start: u64, count: u8) -> Want
    requires { (region < 2) × (0 < count) × (start + count ≤ 4096) }
    ensures fits { IsWant TWO result }
    ensures sub { result.sub.end - result.sub.start ≡ count }
{
    Want {
        key: RegionKey {
            manifest: 0,
            file: 0,
            region,
        },
        len: 4096,
        sub: ByteRange {
            start,
            end: start + u64::from(count),
        },
    }
}

// Copies what is held and gives the hold back: whether these are the file's bytes from a place on. None where they
// did not come, since who stored them gave up.
fn copy_held<D: CacheDoor<Untold>>(door: &mut D, at: u64, count: u8) -> Option<bool>
    requires held { (D.view door.old).hold.held ≡ true }
    requires closed { (D.view door.old).hold.gap_end ≤ (D.view door.old).hold.upto }
    requires len { (D.view door.old).hold.sub.end - (D.view door.old).hold.sub.start ≡ count }
    ensures stays { D.stays door.old door.new }
    ensures hold { (D.view door.new).hold ≡ nothing }
{
    let mut room = [0; 256];
    let out = &mut room[..usize::from(count)];
    let taken = door.take_bytes(out);
    door.leave();
    match taken {
        Taken::Copied => Some(are_from(at, out)),
        Taken::Failed => None,
        Taken::Waiting | Taken::FrameFault => Some(false),
    }
}

// Copies a part that others store, and never stores one itself. None where it did not come: every region was held, or
// nobody was storing it.
fn copy_part<D: CacheDoor<Untold>>(door: &mut D, want: &Want, at: u64, count: u8) -> Option<bool>
    requires free { (D.view door.old).hold ≡ nothing }
    requires setting { (D.view door.old).config ≡ TWO }
    requires want { IsWant TWO want.now }
    requires count { want.now.sub.end - want.now.sub.start ≡ count }
    ensures stays { D.stays door.old door.new }
    ensures hold { (D.view door.new).hold ≡ nothing }
{
    match door.enter(0, want, 0) {
        Ok(
            Entered::Held {
                region: _,
                gap: None,
            },
        ) => copy_held(door, at, count),
        Ok(
            Entered::Held {
                region: _,
                gap: Some(_),
            },
        ) => {
            door.fail();
            door.leave();
            None
        }
        Ok(Entered::NoRoom) => None,
        Ok(Entered::Gone) => Some(false),
        Err(_) => Some(false),
    }
}

// Copies parts until that was done so often, or other bytes came. How often it was done.
fn copies<R: Wait, D: CacheDoor<Untold>>(rt: &R, door: &mut D, config: &Config, number: u64) -> u64
    requires free { (D.view door.old).hold ≡ nothing }
    requires setting { (D.view door.old).config ≡ config.now }
    requires limits { config.now ≡ TWO }
    ensures stays { D.stays door.old door.new }
    ensures hold { (D.view door.new).hold ≡ nothing }
{
    let mut drawn = number;
    let mut good: u64 = 0;
    for _ in rt.forever() {
        if good >= ROUNDS {
            return good;
        }
        drawn = draw(drawn);
        let count = ((drawn >> 40) % 255 + 1) as u8;
        let start = (drawn >> 20) % 3842;
        let region = (drawn >> 60) % 2;
        let want = part(region as u32, start, count);
        match copy_part(door, &want, region * 4096 + start, count) {
            Some(true) => good += 1,
            Some(false) => return good,
            None => thread::yield_now(),
        }
    }
    unreachable!()
}

// Reads parts of the two regions, which stores what is not there, and clears the cache now and then, until so many
// workers have copied. How often a read gave other bytes or was refused.
fn stores<R: Wait, D: CacheDoor<Untold>>(
    rt: &R,
    alloc: Global,
    door: &mut D,
    source: &mut MemSource<Untold>,
    table: &PartTable<Untold>,
    config: &Config,
    number: u64,
    ended: &AtomicU64,
) -> u64
    requires free { (D.view door.old).hold ≡ nothing }
    requires setting { (D.view door.old).config ≡ config.now }
    requires limits { config.now ≡ TWO }
    ensures stays { D.stays door.old door.new }
    ensures hold { (D.view door.new).hold ≡ nothing }
{
    let mut drawn = number;
    let mut other: u64 = 0;
    for _ in rt.forever() {
        if ended.load(SeqCst) >= COPIERS {
            return other;
        }
        drawn = draw(drawn);
        let count = ((drawn >> 40) % 255 + 1) as u8;
        let at = (drawn >> 20) % 7937;
        match read(alloc, door, source, table, config, at, count) {
            Ok(Some(_)) => {}
            _ => other = other.saturating_add(1),
        }
        if drawn >> 61 == 0 {
            door.clear(0);
        }
    }
    unreachable!()
}

fn work<R: Wait>(
    rt: &R,
    alloc: Global,
    cache: &Cache,
    table: &PartTable<Untold>,
    ended: &AtomicU64,
    job: &mut Job,
)
    requires idle { HasIdle cache.now job.old.pass }
    requires setting { cache.now.about.config ≡ TWO }
    ensures idle { HasIdle cache.now job.new.pass }
{
    let Some(pass) = job.pass.take() else {
        return;
    };
    let mut door = TableDoor::new(rt, cache, pass);
    if job.number < COPIERS {
        job.counts.good = copies(rt, &mut door, &TWO, job.number);
        ended.fetch_add(1, SeqCst);
    } else {
        job.counts.other = stores(
            rt,
            alloc,
            &mut door,
            &mut job.source,
            table,
            &TWO,
            job.number,
            ended,
        );
    }
    job.pass = Some(door.into_pass());
}

fn run<R: Threads + Wait + Sync>(
    rt: &R,
    alloc: Global,
    cache: &Cache,
    table: &PartTable<Untold>,
    ended: &AtomicU64,
    jobs: &mut [Job],
)
    requires idle { All (λ j. HasIdle cache.now j.pass) jobs.old }
    requires setting { cache.now.about.config ≡ TWO }
    ensures idle { All (λ j. HasIdle cache.now j.pass) jobs.new }
{
    thread::for_each_mut(
        rt,
        jobs,
        WORKERS,
        &|_, job| { work(rt, alloc, cache, table, ended, job) },
    );
}

// What came of the copies and of the reads of those who store.
fn copy_and_store<R: Abort + Threads + Wait + Sync>(
    rt: &R,
    alloc: Global,
    cache: Cache,
    mut pass: Pass<Untold>,
) -> Result<Counts, AllocError>
    requires setting { cache.about.config ≡ TWO }
    requires idle { IsIdle cache pass }
{
    let mut source = source(rt, alloc, &SHORT)?;
    let Some(table) = table(alloc, &mut source) else {
        return Ok(NONE);
    };
    let ended = AtomicU64::new(0);
    let mut jobs = deal(rt, alloc, &cache, &mut pass, &SHORT)?;
    assert!(rt; pass.shares() == 56);
    run(rt, alloc, &cache, &table, &ended, jobs.as_mut_slice());
    let counts = gather(&cache, &mut pass, jobs);
    assert!(rt; pass.shares() == 64);
    cache.close(pass);
    Ok(counts)
}

#[test]
fn four_copy_what_four_store(rt: HostRuntime) -> Result<(), Fail> {
    let (cache, pass) = open_two(rt.alloc())?;
    let counts = copy_and_store(&rt, rt.alloc(), cache, pass)?;
    assert_eq!(rt; (counts.good, counts.gone, counts.other), (40_000, 0, 0));
    Ok(())
}
