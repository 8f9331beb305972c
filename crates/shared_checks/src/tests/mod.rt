// Scripts run by several workers, in memory.
ghost use Rattle.std.specs.Prelude.{◌≡◌, ℕ, IfOk, length, false};
ghost use Rattle.std.specs.List.{All};
ghost use Rattle.cache_frame.specs.Makers.{frame_of};
ghost use Rattle.cache_table.specs.Calls.{marks};
ghost use Rattle.region_ranges.specs.Keys.{IsConfig};
ghost use Rattle.shared_run.specs.Workers.{IsIdle};

mod block_tests;
mod drawn_tests;
mod failing_tests;
mod gate_tests;
mod overlap_tests;
mod row_tests;
mod taken_tests;
mod waiting;

use cache_frame::MemFrame;
use cache_outside::{BlobSource, MemClock, MemSink, MemSource, SourceCall};
use cache_table::{Pass, SharedCache};
use mount_script::Script;
use region_ranges::Config;
use sample_archive::{SampleArchive, sample_blobs};
use script_run::Ended;
use shared_run::{Gate, OpenGate, run_shared};
use std::alloc::{AllocError, Global};
use std::process::Abort;
use std::sync::Wait;
use std::thread::Threads;

pub type Source = MemSource<SampleArchive>;

pub type Shared = SharedCache<SampleArchive, MemFrame>;

pub type Worker = Pass<SampleArchive>;

pub type Opened = (Shared, Worker);

/// How many regions of 4,096 bytes a cache has.
#[derive(Clone, Copy)]
pub enum Cache {
    Two,
    Four,
}

/// The settings of a cache of two regions, with the program's own frequencies and times.
const TWO: Config = Config {
    regions: 2,
    region: 4096,
    range: 4096,
    max_freq: 100,
    min_delta: 60_000,
};

/// The settings of a cache of four regions.
const FOUR: Config = Config { regions: 4, ..TWO };

pub fn config_of(cache: Cache) -> Config
    ensures { IsConfig result }
{
    match cache {
        Cache::Two => TWO,
        Cache::Four => FOUR,
    }
}

/// A frame for each region of the cache.
pub fn frames(alloc: Global, config: &Config) -> Result<Vec<MemFrame>, AllocError>
    ensures count { IfOk result (λ fs. length fs.items ≡ config.now.regions) }
    ensures sizes { IfOk result (λ fs. All (λ f. (frame_of f).size ≡ config.now.region) fs.items) }
{
    let mut frames = Vec::new(alloc);
    for _made in 0..config.regions {
        frames.push(MemFrame::new(alloc, config.region)?)?;
    }
    Ok(frames)
}

/// An empty cache, and its first pass.
pub fn open(alloc: Global, config: &Config) -> Result<Opened, AllocError>
    requires { IsConfig config.now }
    ensures setting { IfOk result (λ t. t.0.about.config ≡ config.now) }
    ensures pass { IfOk result (λ t. IsIdle t.0 t.1) }
    ensures whole { IfOk result (λ t. t.1.view.shares ≡ 64) }
    ensures unmounted { IfOk result (λ t. (m : ℕ) → marks t.1.view.unmounted m ≡ false) }
{
    let frames = frames(alloc, config)?;
    SharedCache::open(alloc, config, frames)
}

/// A source of the sample archive under this number, whose calls of the listed kinds and numbers fail.
pub fn sample_source(
    alloc: Global,
    number: u64,
    fails: Vec<(SourceCall, u64)>,
) -> Result<Source, AllocError> {
    let blobs = sample_blobs(alloc)?;
    let source = MemSource::<SampleArchive>::new(alloc, blobs, 65_536, fails);
    Ok(source.with_number(number))
}

/// So many sources of the sample archive, numbered from 0.
pub fn sample_sources(alloc: Global, count: u64) -> Result<Vec<Source>, AllocError> {
    let mut sources = Vec::new(alloc);
    for number in 0..count {
        sources.push(sample_source(alloc, number, Vec::new(alloc))?)?;
    }
    Ok(sources)
}

/// The times 0, 1,000,000, 2,000,000 and so on, in milliseconds, for 64 blocks.
pub fn times(alloc: Global) -> Result<Vec<u64>, AllocError> {
    let mut times = Vec::new(alloc);
    for block in 0..64 {
        times.push(block * 1_000_000)?;
    }
    Ok(times)
}

/// Runs a script of this text by several workers, through a new cache, at these times.
pub fn run_at<
    R: Abort + Threads + Wait + Sync,
    S: BlobSource<SampleArchive> + Send + Drop,
    G: Gate + Sync,
>(
    rt: &R,
    alloc: Global,
    text: &[u8],
    cache: Cache,
    sources: &mut Vec<S>,
    workers: u32,
    gate: &G,
    sink: &mut MemSink,
    times: Vec<u64>,
) -> Result<Ended, AllocError> {
    let Ok(script) = Script::read(alloc, text) else {
        panic!(rt; "no script");
    };
    let config = config_of(cache);
    let (cache, mut pass) = open(alloc, &config)?;
    assert!(rt; 2 <= workers && workers <= 8 && workers as usize <= sources.len());
    let mut clock = MemClock::new(times);
    let ended = run_shared(
        rt, alloc, &script, &cache, &mut pass, &config, sources, workers, gate, sink, &mut clock,
    );
    cache.close(pass);
    Ok(ended)
}

/// Runs a script of this text by two workers on two sources, through a new cache of four regions.
pub fn run_by_two<R: Abort + Threads + Wait + Sync>(
    rt: &R,
    alloc: Global,
    text: &[u8],
    sources: &mut Vec<Source>,
    sink: &mut MemSink,
) -> Result<Ended, AllocError> {
    let times = times(alloc)?;
    run_at(
        rt,
        alloc,
        text,
        Cache::Four,
        sources,
        2,
        &OpenGate,
        sink,
        times,
    )
}
