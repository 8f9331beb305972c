//! A source of the sample archive; and a source, a table and a core of two actors together, over any archive.

ghost use Rattle.std.specs.Prelude.{◌≡◌, ◌<◌, IfOk, length};
ghost use Rattle.std.specs.List.{All};
ghost use Rattle.region_ranges.specs.Keys.{IsConfig};
ghost use Rattle.cache_checks.specs.Checks.{faulty_view};

use crate::faulty::Faulty;
use blob_parts::{PartTable, load, resolve};
use cache_door::Core;
use cache_outside::{Archive, MemSource, SourceCall};
use region_ranges::Config;
use sample_archive::{SampleArchive, sample_blobs};
use std::alloc::{AllocError, Global};
use std::process::Abort;

pub const ONE: Config = Config {
    regions: 1,
    region: 4096,
    range: 4096,
    max_freq: 100,
    min_delta: 60_000,
};

pub const TWO: Config = Config { regions: 2, ..ONE };

pub const FOUR: Config = Config { regions: 4, ..ONE };

/// A source of the sample archive that fails at the calls listed. The first read is that of a manifest.
pub fn sample_source(
    alloc: Global,
    fails: Vec<(SourceCall, u64)>,
) -> Result<MemSource<SampleArchive>, AllocError> {
    let blobs = sample_blobs(alloc)?;
    Ok(MemSource::<SampleArchive>::new(alloc, blobs, 65_536, fails))
}

/// The table of a manifest that the source has.
pub fn table_of<A: Archive + Drop>(
    rt: &impl Abort,
    alloc: Global,
    source: &mut MemSource<A>,
    manifest: &str,
) -> PartTable<A> {
    let loaded = load::<A, MemSource<A>>(alloc, source, manifest).ok();
    let (number, manifest) = loaded.expect(rt, "a manifest");
    let resolved = resolve::<A, MemSource<A>>(alloc, source, number, &manifest).ok();
    resolved.expect(rt, "a table")
}

/// A source, the table of a manifest with a file, and a core of two actors.
#[derive(Drop)]
pub struct Stand<A: Archive + Drop> {
    pub source: MemSource<A>,
    pub table: PartTable<A>,
    pub core: Core<A, Faulty>,
    pub config: Config,
    ghost own: { core.config ≡ config },
    ghost actors: { length core.holds ≡ 2 },
    ghost limits: { IsConfig config },
    ghost filed: { 0 < length table.files },
}

// A frame for each region of the cache, each of which fails once at a put and once at a get where it is told to.
pub(crate) fn frames(
    alloc: Global,
    config: &Config,
    failing: bool,
) -> Result<Vec<Faulty>, AllocError>
    ensures count { IfOk result (λ fs. length fs.items ≡ config.now.regions) }
    ensures sizes { IfOk result (λ fs. All (λ f. (faulty_view f.frame f.faults).size ≡ config.now.region) fs.items) }
{
    let mut frames = Vec::new(alloc);
    for _made in 0..config.regions {
        frames.push(Faulty::new(alloc, config.region, failing)?)?;
    }
    Ok(frames)
}

impl<A: Archive + Drop> Stand<A> {
    /// For a manifest with a file. Each frame fails at its first put and its first get where `failing`.
    pub fn new(
        rt: &impl Abort,
        alloc: Global,
        mut source: MemSource<A>,
        config: &Config,
        manifest: &str,
        failing: bool,
    ) -> Result<Stand<A>, AllocError>
        requires { IsConfig config.now }
    {
        let table = table_of(rt, alloc, &mut source, manifest);
        assert!(rt; table.files() > 0);
        let core = Core::new(alloc, config, frames(alloc, config, failing)?, 2)?;
        Ok(Stand {
            source,
            table,
            core,
            config: *config,
        })
    }
}
