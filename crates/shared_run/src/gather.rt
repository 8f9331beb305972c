//! What comes back from the workers: their shares of the cache, their sources and their replies.
ghost use Rattle.std.specs.Prelude.{◌≡◌, ℕ, ◌<◌, ◌≤◌, ◌+◌, ◌++◌, ◌∷◌, [], All, length, map, slice_index_or};
ghost use Rattle.std.specs.Prelude.{vec_len, vec_capacity};
ghost use Rattle.std.specs.Vec.Iter.{into_iter_items, into_iter_len};
ghost use Rattle.shared_run.specs.Shares.{share};
ghost use Rattle.shared_run.specs.Gathered.{JoinedWith, JoinedAll};
ghost use Rattle.shared_run.specs.Workers.{IsIdle, IsReady};

use crate::job::Job;
use cache_outside::{Archive, BlobSource, Frame};
use cache_table::{Pass, SharedCache};
use mount_script::{Line, Reply};
use std::vec::IntoIter;

/// The job's share goes back to the pass, and its source and its replies behind the others.
fn join_job<A: Archive + Drop, F: Frame + Drop, S: BlobSource<A> + Drop>(
    cache: &SharedCache<A, F>,
    pass: &mut Pass<A>,
    job: Job<A, S>,
    sources: &mut Vec<S>,
    queues: &mut Vec<IntoIter<Reply>>,
)
    requires idle { IsIdle cache.now pass.old }
    requires ready { IsReady cache.now job.pass }
    requires room { vec_len sources.old < vec_capacity sources.old }
    requires queue { vec_len queues.old < vec_capacity queues.old }
    ensures sources { sources.new.items ≡ sources.old.items ++ job.source ∷ [] }
    ensures len { vec_len sources.new ≡ vec_len sources.old + 1 }
    ensures count { vec_capacity sources.old ≤ vec_capacity sources.new }
    ensures replies { map into_iter_items queues.new.items
        ≡ map into_iter_items queues.old.items ++ job.replies.items ∷ [] }
    ensures lens { map into_iter_len queues.new.items
        ≡ map into_iter_len queues.old.items ++ vec_len job.replies ∷ [] }
    ensures queues { (vec_len queues.new ≡ vec_len queues.old + 1) × (vec_capacity queues.old ≤ vec_capacity queues.new) }
    ensures joined { JoinedWith pass.old job.pass pass.new }
    ensures idle { IsIdle cache.now pass.new }
{
    let Job {
        source,
        pass: share,
        replies,
    } = job;
    let Some(share) = share else {
        unreachable!();
    };
    cache.join(pass, share);
    let Ok(()) = sources.push(source) else {
        unreachable!();
    };
    let Ok(()) = queues.push(replies.into_iter()) else {
        unreachable!();
    };
}

/// All shares go back to the pass, and the sources and the replies behind the others, in the order of the workers.
pub(crate) fn gather<A: Archive + Drop, F: Frame + Drop, S: BlobSource<A> + Drop>(
    cache: &SharedCache<A, F>,
    pass: &mut Pass<A>,
    jobs: Vec<Job<A, S>>,
    sources: &mut Vec<S>,
    queues: &mut Vec<IntoIter<Reply>>,
)
    requires idle { IsIdle cache.now pass.old }
    requires ready { All (λ j. IsReady cache.now j.pass) jobs.items }
    requires room { vec_len sources.old + vec_len jobs ≤ vec_capacity sources.old }
    requires queue { vec_len queues.old + vec_len jobs ≤ vec_capacity queues.old }
    ensures sources { sources.new.items ≡ sources.old.items ++ map (λ j. j.source) jobs.items }
    ensures room { (vec_len sources.new ≡ vec_len sources.old + vec_len jobs)
        × (vec_capacity sources.old ≤ vec_capacity sources.new) }
    ensures replies { map into_iter_items queues.new.items
        ≡ map into_iter_items queues.old.items ++ map (λ j. j.replies.items) jobs.items }
    ensures lens { map into_iter_len queues.new.items
        ≡ map into_iter_len queues.old.items ++ map (λ j. vec_len j.replies) jobs.items }
    ensures joined { JoinedAll pass.old (map (λ j. j.pass) jobs.items) pass.new }
    ensures idle { IsIdle cache.now pass.new }
{
    for job in jobs {
        join_job(cache, pass, job, sources, queues);
    }
}

/// Puts sources behind the others.
pub(crate) fn put_back<S: Drop>(others: IntoIter<S>, sources: &mut Vec<S>)
    requires room { vec_len sources.old + into_iter_len others ≤ vec_capacity sources.old }
    ensures { sources.new.items ≡ sources.old.items ++ into_iter_items others }
{
    for source in others {
        let Ok(()) = sources.push(source) else {
            unreachable!();
        };
    }
}

/// Takes the replies of the workers' lines in the order of the lines.
pub(crate) fn in_order(queues: &mut Vec<IntoIter<Reply>>, block: &[Line], replies: &mut Vec<Reply>)
    requires some { 0 < length queues.old.items }
    requires fit { (i : ℕ) → i < length queues.old.items
        → length (slice_index_or (map into_iter_items queues.old.items) i [])
        ≡ length (share (length queues.old.items) i 0 block.now) }
    requires lens { (i : ℕ) → i < length queues.old.items
        → slice_index_or (map into_iter_len queues.old.items) i 0
        ≡ length (share (length queues.old.items) i 0 block.now) }
    requires none { (replies.old.items ≡ []) × (vec_len replies.old ≡ 0) }
    requires room { length block.now ≤ vec_capacity replies.old }
    ensures many { length replies.new.items ≡ length block.now }
    ensures each { (i : ℕ) → i < length queues.old.items → share (length queues.old.items) i 0 replies.new.items
        ≡ slice_index_or (map into_iter_items queues.old.items) i [] }
{
    let workers = queues.len();
    for k in 0..block.len() {
        let Some(reply) = queues[k % workers].next() else {
            unreachable!();
        };
        let Ok(()) = replies.push(reply) else {
            unreachable!();
        };
    }
}
