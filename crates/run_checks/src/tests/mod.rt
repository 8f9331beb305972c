// Scripts, run in memory.
ghost use Rattle.std.specs.Prelude.{◌≡◌, IfOk, length};
ghost use Rattle.std.specs.List.{All};
ghost use Rattle.cache_frame.specs.Makers.{frame_of};
ghost use Rattle.region_ranges.specs.Keys.{IsConfig};

mod failing_tests;
mod mount_tests;
mod row_tests;
mod shard_tests;
mod shelf_tests;

use byte_text::{Blobs, Name, Text};
use cache_door::Core;
use cache_frame::MemFrame;
use cache_outside::{Archive, MemClock, MemSink, MemSource, SourceCall, Untold, manifests_in};
use mount_script::Script;
use region_ranges::Config;
use sample_archive::{SampleArchive, sample_blobs};
use script_run::{Ended, run_alone};
use std::alloc::{AllocError, Global};
use std::process::Abort;

/// How many regions a cache has: of 4,096 bytes, or four of 262,144.
#[derive(Clone, Copy)]
pub enum Cache {
    One,
    Two,
    Four,
    FourWide,
}

/// The settings of a cache of one region, with the program's own frequencies and times.
const ONE: Config = Config {
    regions: 1,
    region: 4096,
    range: 4096,
    max_freq: 100,
    min_delta: 60_000,
};

const TWO: Config = Config { regions: 2, ..ONE };

const FOUR: Config = Config { regions: 4, ..ONE };

const FOUR_WIDE: Config = Config {
    region: 262_144,
    range: 262_144,
    ..FOUR
};

fn config_of(cache: Cache) -> Config
    ensures { IsConfig result }
{
    match cache {
        Cache::One => ONE,
        Cache::Two => TWO,
        Cache::Four => FOUR,
        Cache::FourWide => FOUR_WIDE,
    }
}

/// A source of the sample archive, which gives at most `step` bytes a read, at least 1, and whose calls of the listed
/// kinds and numbers fail.
pub fn sample_source(
    alloc: Global,
    step: usize,
    fails: Vec<(SourceCall, u64)>,
) -> Result<MemSource<SampleArchive>, AllocError> {
    let blobs = sample_blobs(alloc)?;
    Ok(MemSource::<SampleArchive>::new(alloc, blobs, step.max(1), fails))
}

/// Puts a blob behind the others.
pub fn add_blob(
    alloc: Global,
    blobs: &mut Blobs,
    name: &str,
    bytes: &[u8],
) -> Result<(), AllocError> {
    if let Some(name) = Name::read(alloc, name.as_bytes())? {
        blobs.push((name, Text::of(alloc, bytes)?))?;
    }
    Ok(())
}

/// A source of these blobs, of which nothing is told, which gives at most `step` bytes a read, at least 1, and whose
/// calls of the listed kinds and numbers fail.
pub fn untold_source(
    alloc: Global,
    blobs: Blobs,
    step: usize,
    fails: Vec<(SourceCall, u64)>,
) -> Result<MemSource<Untold>, AllocError> {
    if manifests_in(&blobs) > 65_536 {
        return Err(AllocError);
    }
    Ok(MemSource::<Untold>::new(alloc, blobs, step.max(1), fails))
}

/// A frame for each region of the cache.
fn frames(alloc: Global, config: &Config) -> Result<Vec<MemFrame>, AllocError>
    ensures count { IfOk result (λ fs. length fs.items ≡ config.now.regions) }
    ensures sizes { IfOk result (λ fs. All (λ f. (frame_of f).size ≡ config.now.region) fs.items) }
{
    let mut frames = Vec::new(alloc);
    for _made in 0..config.regions {
        frames.push(MemFrame::new(alloc, config.region)?)?;
    }
    Ok(frames)
}

/// Times of blocks that are far apart, in milliseconds.
pub const SOME_TIMES: &[u64] = &[0, 1_000_000, 2_000_000, 3_000_000, 4_000_000, 5_000_000];

/// Runs a script of this text through a new cache, its blocks at these times in milliseconds, and those behind them at
/// the last one.
pub fn run_at<A: Archive + Drop>(
    rt: &impl Abort,
    alloc: Global,
    times: &[u64],
    text: &[u8],
    cache: Cache,
    source: &mut MemSource<A>,
    sink: &mut MemSink,
) -> Result<Ended, AllocError> {
    let Ok(script) = Script::read(alloc, text) else {
        panic!(rt; "no script");
    };
    let mut clock = MemClock::new(Vec::from_slice(alloc, times)?);
    let config = config_of(cache);
    let frames = frames(alloc, &config)?;
    let mut core = Core::<A, MemFrame>::new(alloc, &config, frames, 1)?;
    Ok(run_alone(alloc, &script, &mut core, &config, source, sink, &mut clock))
}

/// Runs a script of this text through a new cache, its blocks at `SOME_TIMES`.
pub fn run_text<A: Archive + Drop>(
    rt: &impl Abort,
    alloc: Global,
    text: &[u8],
    cache: Cache,
    source: &mut MemSource<A>,
    sink: &mut MemSink,
) -> Result<Ended, AllocError> {
    run_at(rt, alloc, SOME_TIMES, text, cache, source, sink)
}
