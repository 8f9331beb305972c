//! Eight workers, each with a pass and a source of its own, read drawn ranges of one file.
ghost use Rattle.std.specs.Prelude.{◌≡◌, ◌<◌, IfOk, All};
ghost use Rattle.region_ranges.specs.Keys.{IsConfig};
ghost use Rattle.cache_door.specs.Doors.{nothing};
ghost use Rattle.table_checks.specs.Jobs.{IsIdle, HasIdle};

use crate::samples::{
    Cache, File, LONG, SHORT, THREE, TWO, open_three, open_two, read, source, table,
};
use blob_parts::PartTable;
use cache_door::CacheDoor;
use cache_outside::{MemSource, Untold};
use cache_table::{Pass, TableDoor};
use directory_input::BytesError;
use region_ranges::Config;
use std::alloc::{AllocError, Global};
use std::process::Abort;
use std::sync::Wait;
use std::sync::atomic::AtomicU64;
use std::sync::atomic::Ordering::SeqCst;
use std::test::Fail;
use std::thread;
use std::thread::Threads;

/// What came of reads. Each byte of a good one was compared with the file's.
#[derive(Clone, Copy, Debug, PartialEq, Eq)]
pub struct Counts {
    /// They gave the file's bytes, before the reader was told that the mount is gone.
    pub good: u64,
    /// They were refused since the mount is gone, and its unmount had begun.
    pub gone: u64,
    /// All others: other bytes, and refusals without their cause.
    pub other: u64,
}

/// No reads.
pub const NONE: Counts = Counts {
    good: 0,
    gone: 0,
    other: 0,
};

/// A worker's source and pass, and what came of its reads.
#[derive(Drop)]
pub struct Job {
    pub source: MemSource<Untold>,
    pub pass: Option<Pass<Untold>>,
    pub number: u64,
    pub counts: Counts,
}

/// How many workers there are.
pub const WORKERS: usize = 8;

/// How a worker goes on: of which file and how often it reads, how often it reads between two clears, and how many
/// reads all have made when one of them unmounts.
#[derive(Clone, Copy)]
pub struct Plan {
    file: File,
    places: u64,
    reads: u32,
    clears: u32,
    unmount: u32,
}

const COPIES: Plan = Plan {
    file: SHORT,
    places: 9_745,
    reads: 1_250,
    clears: 16,
    unmount: 1_250,
};

const STRESS: Plan = Plan {
    file: LONG,
    places: 19_745,
    reads: 20_000,
    clears: 64,
    unmount: 19_000,
};

/// The next number that is drawn.
pub fn draw(drawn: u64) -> u64 {
    drawn
        .wrapping_mul(6_364_136_223_846_793_005)
        .wrapping_add(1_442_695_040_888_963_407)
}

// Waits until each worker has come here.
fn meet<R: Wait>(rt: &R, ready: &AtomicU64) {
    ready.fetch_add(1, SeqCst);
    for _ in rt.forever() {
        if ready.load(SeqCst) >= WORKERS as u64 {
            return;
        }
        thread::yield_now();
    }
    unreachable!()
}

// What a worker does between two reads: those with even numbers clear the cache now and then, so that what the others
// copy is stored anew, and number 1 ages it. Once all are ready number 3 unmounts, which it says before in `ready`.
fn upkeep<R: Wait, D: CacheDoor<Untold>>(
    rt: &R,
    door: &mut D,
    plan: &Plan,
    number: u64,
    round: u32,
    ready: &AtomicU64,
)
    requires plan { 0 < plan.now.clears }
    ensures stays { D.stays door.old door.new }
    ensures hold { (D.view door.new).hold ≡ (D.view door.old).hold }
{
    if round == plan.unmount {
        meet(rt, ready);
        if number == 3 {
            ready.fetch_add(1, SeqCst);
            door.unmount(0, 0);
        }
        return;
    }
    if round % plan.clears != 0 {
        return;
    }
    match number {
        0 | 2 | 4 | 6 => door.clear(0),
        1 => door.decay(u64::from(round)),
        _ => {}
    }
}

// The reads of one worker, over any door, of drawn ranges.
fn rounds<R: Wait, D: CacheDoor<Untold>>(
    rt: &R,
    alloc: Global,
    door: &mut D,
    source: &mut MemSource<Untold>,
    table: &PartTable<Untold>,
    config: &Config,
    plan: &Plan,
    number: u64,
    ready: &AtomicU64,
) -> Counts
    requires free { (D.view door.old).hold ≡ nothing }
    requires setting { (D.view door.old).config ≡ config.now }
    requires limits { IsConfig config.now }
    requires plan { (0 < plan.now.clears) × (0 < plan.now.places) }
    ensures stays { D.stays door.old door.new }
    ensures hold { (D.view door.new).hold ≡ nothing }
{
    let mut drawn = number;
    let mut counts = NONE;
    for round in 0..plan.reads {
        drawn = draw(drawn);
        let count = ((drawn >> 40) % 255 + 1) as u8;
        let at = (drawn >> 20) % plan.places;
        let answer = read(alloc, door, source, table, config, at, count);
        let had_begun = ready.load(SeqCst) > WORKERS as u64;
        match answer {
            Ok(Some(_)) if counts.gone == 0 => counts.good = counts.good.saturating_add(1),
            Err(BytesError::Gone { mount: 0 }) if had_begun => counts.gone = counts
                .gone
                .saturating_add(1),
            _ => counts.other = counts.other.saturating_add(1),
        }
        upkeep(rt, door, plan, number, round, ready);
    }
    counts
}

fn work<R: Wait>(
    rt: &R,
    alloc: Global,
    cache: &Cache,
    table: &PartTable<Untold>,
    config: &Config,
    plan: &Plan,
    ready: &AtomicU64,
    job: &mut Job,
)
    requires idle { HasIdle cache.now job.old.pass }
    requires setting { cache.now.about.config ≡ config.now }
    requires limits { IsConfig config.now }
    requires plan { (0 < plan.now.clears) × (0 < plan.now.places) }
    ensures idle { HasIdle cache.now job.new.pass }
{
    let Some(pass) = job.pass.take() else {
        return;
    };
    let mut door = TableDoor::new(rt, cache, pass);
    job.counts = rounds(
        rt,
        alloc,
        &mut door,
        &mut job.source,
        table,
        config,
        plan,
        job.number,
        ready,
    );
    job.pass = Some(door.into_pass());
}

fn run<R: Threads + Wait + Sync>(
    rt: &R,
    alloc: Global,
    cache: &Cache,
    table: &PartTable<Untold>,
    config: &Config,
    plan: &Plan,
    ready: &AtomicU64,
    jobs: &mut [Job],
)
    requires idle { All (λ j. HasIdle cache.now j.pass) jobs.old }
    requires setting { cache.now.about.config ≡ config.now }
    requires limits { IsConfig config.now }
    requires plan { (0 < plan.now.clears) × (0 < plan.now.places) }
    ensures idle { All (λ j. HasIdle cache.now j.pass) jobs.new }
{
    thread::for_each_mut(
        rt,
        jobs,
        WORKERS,
        &|_, job| { work(rt, alloc, cache, table, config, plan, ready, job) },
    );
}

/// A pass and a source for each worker.
pub fn deal(
    rt: &impl Abort,
    alloc: Global,
    cache: &Cache,
    pass: &mut Pass<Untold>,
    file: &File,
) -> Result<Vec<Job>, AllocError>
    requires idle { IsIdle cache.now pass.old }
    ensures idle { IsIdle cache.now pass.new }
    ensures jobs { IfOk result (λ v. All (λ j. HasIdle cache.now j.pass) v.items) }
{
    let mut jobs = Vec::new(alloc);
    for number in 0..WORKERS as u64 {
        let source = source(rt, alloc, file)?;
        assert!(rt; pass.shares() >= 2);
        jobs.push(Job {
            source,
            pass: Some(cache.split(pass)),
            number,
            counts: NONE,
        })?;
    }
    Ok(jobs)
}

/// The workers' passes are joined. What came of all reads.
pub fn gather(cache: &Cache, pass: &mut Pass<Untold>, jobs: Vec<Job>) -> Counts
    requires idle { IsIdle cache.now pass.old }
    requires jobs { All (λ j. HasIdle cache.now j.pass) jobs.items }
    ensures idle { IsIdle cache.now pass.new }
{
    let mut all = NONE;
    for job in jobs {
        let Job {
            source: _,
            pass: own,
            number: _,
            counts,
        } = job;
        all.good = all.good.saturating_add(counts.good);
        all.gone = all.gone.saturating_add(counts.gone);
        all.other = all.other.saturating_add(counts.other);
        if let Some(own) = own {
            cache.join(pass, own);
        }
    }
    all
}

// Eight workers read by the plan. What came of their reads, and whether the joined pass has unmounted the mount and
// seen it gone.
fn eight_workers<R: Abort + Threads + Wait + Sync>(
    rt: &R,
    alloc: Global,
    cache: Cache,
    mut pass: Pass<Untold>,
    config: &Config,
    plan: &Plan,
) -> Result<(Counts, bool, bool), AllocError>
    requires limits { IsConfig config.now }
    requires setting { cache.about.config ≡ config.now }
    requires idle { IsIdle cache pass }
    requires plan { (0 < plan.now.clears) × (0 < plan.now.places) }
{
    let mut source = source(rt, alloc, &plan.file)?;
    let Some(table) = table(alloc, &mut source) else {
        return Ok((NONE, false, false));
    };
    let ready = AtomicU64::new(0);
    let mut jobs = deal(rt, alloc, &cache, &mut pass, &plan.file)?;
    assert!(rt; pass.shares() == 56);
    run(
        rt,
        alloc,
        &cache,
        &table,
        config,
        plan,
        &ready,
        jobs.as_mut_slice(),
    );
    let counts = gather(&cache, &mut pass, jobs);
    let marks = (pass.has_unmounted(0), pass.has_seen_gone(0));
    assert!(rt; pass.shares() == 64);
    cache.close(pass);
    Ok((counts, marks.0, marks.1))
}

#[test]
fn eight_workers_over_two_regions(rt: HostRuntime) -> Result<(), Fail> {
    let (cache, pass) = open_two(rt.alloc())?;
    let (counts, unmounted, gone) = eight_workers(&rt, rt.alloc(), cache, pass, &TWO, &COPIES)?;
    assert_eq!(rt; (counts.good, counts.gone, counts.other), (10_000, 0, 0));
    assert!(rt; !unmounted && !gone);
    Ok(())
}

/// Each worker makes 19,001 reads before the unmount begins, and number 3 is refused the 999 that it makes after it.
#[test]
fn eight_workers_until_the_mount_is_gone(rt: HostRuntime) -> Result<(), Fail> {
    let (cache, pass) = open_three(rt.alloc())?;
    let (counts, unmounted, gone) = eight_workers(&rt, rt.alloc(), cache, pass, &THREE, &STRESS)?;
    assert!(rt; counts.other == 0 && counts.gone >= 999 && counts.good >= 152_008);
    assert!(rt; counts.good.saturating_add(counts.gone) == 160_000);
    assert!(rt; unmounted && gone);
    Ok(())
}
