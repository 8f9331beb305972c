//! What the workers run with: room for their replies, and shares of the cache and sources dealt to their jobs.
ghost use Rattle.std.specs.Prelude.{◌≡◌, ◌<◌, ◌≤◌, ◌+◌, ◌-◌, ◌++◌, ◌∷◌, [], length, map, take, drop, IfOk};
ghost use Rattle.std.specs.Prelude.{vec_len, vec_capacity};
ghost use Rattle.std.specs.Vec.Iter.{into_iter_items, into_iter_len};
ghost use Rattle.shared_run.specs.Dealt.{AreRooms, AllDealt, IsDealt, without_shares};
ghost use Rattle.shared_run.specs.Workers.{IsIdle};

use crate::job::Job;
use crate::lines::share_len;
use cache_outside::{Archive, BlobSource, Frame};
use cache_table::{Pass, SharedCache};
use mount_script::{Line, Reply};
use std::alloc::{AllocError, Global};
use std::vec::IntoIter;

/// Room for a reply to each line of each worker.
fn rooms(alloc: Global, block: &[Line], workers: usize) -> Result<Vec<Vec<Reply>>, AllocError>
    requires { 0 < workers }
    ensures { IfOk result (λ v. (vec_len v ≡ workers) × AreRooms workers 0 block.now v.items) }
{
    let mut rooms = Vec::with_capacity(alloc, workers)?;
    for worker in 0..workers {
        let room: Vec<Reply> = Vec::with_capacity(alloc, share_len(block, worker, workers))?;
        rooms.push(room)?;
    }
    Ok(rooms)
}

/// What is taken of memory for the workers of a block before any line runs.
#[derive(Drop)]
pub(crate) struct Room<A: Archive, S> {
    pub(crate) rooms: Vec<Vec<Reply>>,
    pub(crate) jobs: Vec<Job<A, S>>,
    pub(crate) queues: Vec<IntoIter<Reply>>,
}

/// Room for the jobs and replies of the workers.
pub(crate) fn make_room<A: Archive + Drop, S: Drop>(
    alloc: Global,
    block: &[Line],
    workers: usize,
) -> Result<Room<A, S>, AllocError>
    requires { 0 < workers }
    ensures rooms { IfOk result (λ m. (vec_len m.rooms ≡ workers) × AreRooms workers 0 block.now m.rooms.items) }
    ensures jobs { IfOk result (λ m. (m.jobs.items ≡ []) × (vec_len m.jobs ≡ 0) × (workers ≤ vec_capacity m.jobs)) }
    ensures queues { IfOk result (λ m. (m.queues.items ≡ []) × (vec_len m.queues ≡ 0)
        × (workers ≤ vec_capacity m.queues)) }
{
    Ok(Room {
        rooms: rooms(alloc, block, workers)?,
        jobs: Vec::with_capacity(alloc, workers)?,
        queues: Vec::with_capacity(alloc, workers)?,
    })
}

/// A job with a share of the cache.
fn new_job<A: Archive + Drop, F: Frame + Drop, S: BlobSource<A>>(
    cache: &SharedCache<A, F>,
    pass: &mut Pass<A>,
    source: S,
    replies: Vec<Reply>,
) -> Job<A, S>
    requires idle { IsIdle cache.now pass.old }
    requires shares { 2 ≤ pass.old.view.shares }
    ensures source { result.source ≡ source }
    ensures replies { result.replies ≡ replies }
    ensures share { IsDealt cache.now pass.old result.pass }
    ensures idle { IsIdle cache.now pass.new }
    ensures pass { pass.new ≡ without_shares 1 pass.old }
{
    let share = cache.split(pass);
    Job {
        source,
        pass: Some(share),
        replies,
    }
}

/// Deals a share of the cache and the next source to each of the jobs that the rooms are for.
pub(crate) fn deal<A: Archive + Drop, F: Frame + Drop, S: BlobSource<A> + Drop>(
    cache: &SharedCache<A, F>,
    pass: &mut Pass<A>,
    workers: usize,
    rooms: &mut IntoIter<Vec<Reply>>,
    sources: &mut IntoIter<S>,
    jobs: &mut Vec<Job<A, S>>,
)
    requires idle { IsIdle cache.now pass.old }
    requires shares { workers + 1 ≤ pass.old.view.shares }
    requires rooms { workers ≤ into_iter_len rooms.old }
    requires sources { workers ≤ into_iter_len sources.old }
    requires none { (jobs.old.items ≡ []) × (vec_len jobs.old ≡ 0) }
    requires room { workers ≤ vec_capacity jobs.old }
    ensures count { vec_len jobs.new ≡ workers }
    ensures sources { (map (λ j. j.source) jobs.new.items ≡ take workers (into_iter_items sources.old))
        × (into_iter_items sources.new ≡ drop workers (into_iter_items sources.old)) }
    ensures replies { map (λ j. j.replies) jobs.new.items ≡ take workers (into_iter_items rooms.old) }
    ensures shares { AllDealt cache.now pass.old (map (λ j. j.pass) jobs.new.items) }
    ensures idle { IsIdle cache.now pass.new }
    ensures pass { pass.new ≡ without_shares workers pass.old }
{
    for _ in 0..workers {
        let Some(replies) = rooms.next() else {
            unreachable!();
        };
        let Some(source) = sources.next() else {
            unreachable!();
        };
        let job = new_job(cache, pass, source, replies);
        let Ok(()) = jobs.push(job) else {
            unreachable!();
        };
    }
}
