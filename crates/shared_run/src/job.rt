//! A worker's job: its source, its pass, and room for its replies.
ghost use Rattle.std.specs.Prelude.{◌≡◌, ◌<◌, ◌≤◌, [], length, vec_len, vec_capacity};
ghost use Rattle.region_ranges.specs.Keys.{IsConfig};
ghost use Rattle.script_run.specs.Lines.{cached};
ghost use Rattle.script_run.specs.Blocks.{NoMounts};
ghost use Rattle.shared_run.specs.Shares.{share};
ghost use Rattle.shared_run.specs.Workers.{IsReady, JobRan};

use crate::gate::Gate;
use crate::lines::run_share;
use cache_outside::{Archive, BlobSource, Frame};
use cache_table::{Pass, SharedCache, TableDoor};
use index_mounts::Roster;
use mount_script::{Line, Reply};
use region_ranges::Config;
use std::alloc::Global;
use std::sync::Wait;

/// What a worker runs its lines with.
#[derive(Drop)]
pub(crate) struct Job<A: Archive, S> {
    pub(crate) source: S,
    /// Taken out only while the lines run.
    pub(crate) pass: Option<Pass<A>>,
    /// With room for a reply to each line of the worker.
    pub(crate) replies: Vec<Reply>,
}

/// Runs a worker's lines with its job.
pub(crate) fn work<R: Wait, A: Archive + Drop, F: Frame + Drop, S: BlobSource<A>, G: Gate>(
    rt: &R,
    alloc: Global,
    cache: &SharedCache<A, F>,
    roster: &Roster<A>,
    config: &Config,
    block: &[Line],
    worker: usize,
    workers: usize,
    now: u64,
    gate: &G,
    job: &mut Job<A, S>,
)
    requires ready { IsReady cache.now job.old.pass }
    requires setting { (cache.now.about.config ≡ config.now) × IsConfig config.now }
    requires lines { NoMounts block.now }
    requires workers { (worker < workers) × (workers ≤ 8) }
    requires none { (job.old.replies.items ≡ []) × (vec_len job.old.replies ≡ 0) }
    requires room { length (share workers worker 0 block.now) ≤ vec_capacity job.old.replies }
    ensures ran { JobRan (cached A.tells A.blobs config.now) cache.now roster.now (share workers worker 0 block.now)
        job.new.replies.items (S.view job.old.source) (S.view job.new.source) job.old.pass job.new.pass }
    ensures len { vec_len job.new.replies ≡ length (share workers worker 0 block.now) }
    ensures ready { IsReady cache.now job.new.pass }
{
    let Some(pass) = job.pass.take() else {
        return;
    };
    let mut door = TableDoor::new(rt, cache, pass);
    run_share(
        alloc,
        &mut door,
        &mut job.source,
        roster,
        config,
        block,
        worker,
        workers,
        now,
        gate,
        &mut job.replies,
    );
    job.pass = Some(door.into_pass());
}
