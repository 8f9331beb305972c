//! A block of lines by several workers.
ghost use Rattle.std.specs.Prelude.{◌≡◌, ℕ, ◌+◌, ◌<◌, ◌≤◌, ◌&&◌, [], length, map, take, drop, slice_index_or, IfOk, IsErr};
ghost use Rattle.std.specs.Prelude.{vec_len, vec_capacity};
ghost use Rattle.std.specs.Vec.Iter.{into_iter_items, into_iter_len};
ghost use Rattle.script_run.specs.Allowed.{AllowedBlock};
ghost use Rattle.script_run.specs.Mounting.{mounts_of};
ghost use Rattle.shared_run.specs.Blocks.{several, NoneUnmounted, BlockDid, WorkersRan};
ghost use Rattle.shared_run.specs.Dealt.{AreRooms};
ghost use Rattle.region_ranges.specs.Keys.{IsConfig};
ghost use Rattle.script_run.specs.Lines.{cached};
ghost use Rattle.script_run.specs.Blocks.{NoMounts};
ghost use Rattle.shared_run.specs.Shares.{share};
ghost use Rattle.shared_run.specs.Workers.{IsIdle, IsReady, JobRan};

use crate::deal::{Room, deal, make_room};
use crate::gate::Gate;
use crate::gather::{gather, in_order, put_back};
use crate::job::{Job, work};
use cache_outside::{Archive, BlobSource, Frame};
use cache_table::{Pass, SharedCache};
use index_mounts::Roster;
use mount_script::{Line, Reply};
use region_ranges::Config;
use std::alloc::{AllocError, Global};
use std::sync::Wait;
use std::thread::Threads;
use std::vec::IntoIter;
use std::{mem, thread};

/// Runs the workers' jobs, each in a thread of its own where one can be made.
fn run_jobs<
    R: Threads + Wait + Sync,
    A: Archive + Drop + Send + Sync,
    F: Frame + Drop + Send,
    S: BlobSource<A> + Send,
    G: Gate + Sync,
>(
    rt: &R,
    alloc: Global,
    cache: &SharedCache<A, F>,
    roster: &Roster<A>,
    config: &Config,
    block: &[Line],
    now: u64,
    gate: &G,
    jobs: &mut [Job<A, S>],
)
    requires count { (0 < length jobs.old) × (length jobs.old ≤ 8) }
    requires ready { (k : ℕ) (d : _) → k < length jobs.old →
        IsReady cache.now (slice_index_or jobs.old k d).pass }
    requires none { (k : ℕ) (d : _) → k < length jobs.old →
        ((slice_index_or jobs.old k d).replies.items ≡ []) × (vec_len (slice_index_or jobs.old k d).replies ≡ 0) }
    requires room { (k : ℕ) (d : _) → k < length jobs.old →
        length (share (length jobs.old) k 0 block.now) ≤ vec_capacity (slice_index_or jobs.old k d).replies }
    requires setting { (cache.now.about.config ≡ config.now) × IsConfig config.now }
    requires lines { NoMounts block.now }
    ensures count { length jobs.new ≡ length jobs.old }
    ensures ran { (k : ℕ) (d : _) → k < length jobs.old →
        JobRan (cached A.tells A.blobs config.now) cache.now roster.now (share (length jobs.old) k 0 block.now)
        (slice_index_or jobs.new k d).replies.items (S.view (slice_index_or jobs.old k d).source)
        (S.view (slice_index_or jobs.new k d).source) (slice_index_or jobs.old k d).pass
        (slice_index_or jobs.new k d).pass }
    ensures lens { (k : ℕ) (d : _) → k < length jobs.old →
        vec_len (slice_index_or jobs.new k d).replies ≡ length (share (length jobs.old) k 0 block.now) }
    ensures ready { (k : ℕ) (d : _) → k < length jobs.old → IsReady cache.now (slice_index_or jobs.new k d).pass }
{
    let workers = jobs.len();
    thread::for_each_mut(
        rt,
        jobs,
        workers,
        &|worker, job| {
            work(
                rt, alloc, cache, roster, config, block, worker, workers, now, gate, job,
            )
        },
    );
}

/// Deals shares and sources to the workers, runs their jobs, and gathers what comes back.
fn run_dealt<
    R: Threads + Wait + Sync,
    A: Archive + Drop + Send + Sync,
    F: Frame + Drop + Send,
    S: BlobSource<A> + Send + Drop,
    G: Gate + Sync,
>(
    rt: &R,
    alloc: Global,
    cache: &SharedCache<A, F>,
    pass: &mut Pass<A>,
    config: &Config,
    block: &[Line],
    roster: &Roster<A>,
    workers: usize,
    gate: &G,
    now: u64,
    room: Room<A, S>,
    given: &mut IntoIter<S>,
    sources: &mut Vec<S>,
) -> Vec<IntoIter<Reply>>
    requires workers { (0 < workers) × (workers ≤ 8) × (workers ≤ into_iter_len given.old) }
    requires pass { IsIdle cache.now pass.old }
    requires shares { workers + 1 ≤ pass.old.view.shares }
    requires setting { (cache.now.about.config ≡ config.now) × IsConfig config.now }
    requires lines { NoMounts block.now }
    requires rooms { (vec_len room.rooms ≡ workers) × AreRooms workers 0 block.now room.rooms.items }
    requires jobs { (room.jobs.items ≡ []) × (vec_len room.jobs ≡ 0) × (workers ≤ vec_capacity room.jobs) }
    requires queues { (room.queues.items ≡ []) × (vec_len room.queues ≡ 0) × (workers ≤ vec_capacity room.queues) }
    requires sources { (sources.old.items ≡ []) × (vec_len sources.old ≡ 0) × (workers ≤ vec_capacity sources.old) }
    ensures ran { WorkersRan (cached A.tells A.blobs config.now) cache.now workers roster.now block.now
        (map into_iter_items result.items) (map S.view (take workers (into_iter_items given.old)))
        (map S.view sources.new.items) pass.old pass.new }
    ensures lens { (i : ℕ) → i < workers → slice_index_or (map into_iter_len result.items) i 0
        ≡ length (share workers i 0 block.now) }
    ensures count { length result.items ≡ workers }
    ensures idle { IsIdle cache.now pass.new }
    ensures others { into_iter_items given.new ≡ drop workers (into_iter_items given.old) }
    ensures left { into_iter_len given.new + workers ≡ into_iter_len given.old }
    ensures room { (vec_len sources.new ≡ workers) × (vec_capacity sources.old ≤ vec_capacity sources.new) }
{
    let Room {
        rooms,
        mut jobs,
        mut queues,
    } = room;
    let mut rooms = rooms.into_iter();
    deal(cache, pass, workers, &mut rooms, given, &mut jobs);
    run_jobs(
        rt, alloc, cache, roster, config, block, now, gate, &mut jobs,
    );
    gather(cache, pass, jobs, sources, &mut queues);
    queues
}

/// Runs a block of lines, none of them a `mount`, by several workers, each in a thread of its own where one can be
/// made, at the time `now` in milliseconds. Line k of the block, from 0, is run by worker k mod `workers` on the source
/// of that number, a worker's lines in order. The gate is told of each answer. All lines see the roster as it is; the
/// caller takes out of it what they unmounted.
///
/// The replies are in the order of the lines. Each is the one that whole files give, or a mark: `Fault` on at most as
/// many lines of a source as its count of failures rose; `Gone` only where the pass afterwards has seen the mount gone,
/// and, where the pass came with all 64 shares and had unmounted no mount of the roster, only where the block has an
/// `unmount` of that name; `NoMemory`, which is free. A `stats` line is `refused stats`.
///
/// Want of memory for the block comes before any line runs, and leaves pass and sources as they were. After every
/// answer the sources are the same ones in the same order, and the pass has as many shares as before and holds nothing.
pub fn run_block<
    R: Threads + Wait + Sync,
    A: Archive + Drop + Send + Sync,
    F: Frame + Drop + Send,
    S: BlobSource<A> + Send + Drop,
    G: Gate + Sync,
>(
    rt: &R,
    alloc: Global,
    cache: &SharedCache<A, F>,
    pass: &mut Pass<A>,
    config: &Config,
    block: &[Line],
    roster: &Roster<A>,
    sources: &mut Vec<S>,
    workers: u32,
    gate: &G,
    now: u64,
) -> Result<Vec<Reply>, AllocError>
    requires workers { (2 ≤ workers) × (workers ≤ 8) × (workers ≤ length sources.old.items) }
    requires pass { IsIdle cache.now pass.old }
    requires shares { workers + 1 ≤ pass.old.view.shares }
    requires setting { (cache.now.about.config ≡ config.now) × IsConfig config.now }
    requires lines { NoMounts block.now }
    ensures did { IfOk result (λ v. BlockDid (cached A.tells A.blobs config.now) cache.now workers roster.now block.now
        v.items (map S.view sources.old.items) (map S.view sources.new.items) pass.old pass.new) }
    ensures allowed { IfOk result (λ v. pass.old.view.shares ≡ 64 → NoneUnmounted roster.now pass.old →
        AllowedBlock (several (A.tells && cache.now.about.tells) A.blobs workers config.now.regions)
        (mounts_of roster.now) block.now v.items) }
    ensures memory { IsErr result → (pass.new ≡ pass.old) × (sources.new.items ≡ sources.old.items) }
    ensures others { drop workers sources.new.items ≡ drop workers sources.old.items }
    ensures identities { map (λ s. (S.view s).identity) sources.new.items
        ≡ map (λ s. (S.view s).identity) sources.old.items }
    ensures pass { IsIdle cache.now pass.new × (pass.new.view.shares ≡ pass.old.view.shares) }
{
    let count = workers as usize;
    let mut replies = Vec::with_capacity(alloc, block.len())?;
    let room = make_room(alloc, block, count)?;
    let empty = Vec::with_capacity(alloc, sources.len())?;
    roster.lesson();
    let mut given = mem::replace(sources, empty).into_iter();
    let mut queues = run_dealt(
        rt, alloc, cache, pass, config, block, roster, count, gate, now, room, &mut given, sources,
    );
    put_back(given, sources);
    in_order(&mut queues, block, &mut replies);
    Ok(replies)
}
