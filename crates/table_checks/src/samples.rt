//! A file in memory whose bytes are known by their place, caches of few regions, and reads of the file.
ghost use Rattle.std.specs.Prelude.{◌≡◌, IfOk};
ghost use Rattle.region_ranges.specs.Keys.{IsConfig};
ghost use Rattle.cache_door.specs.Doors.{nothing};
ghost use Rattle.table_checks.specs.Jobs.{IsIdle};

use blob_parts::{PartTable, load, resolve};
use byte_text::{Blobs, Name, Text};
use cache_door::CacheDoor;
use cache_frame::MemFrame;
use cache_outside::{MemSource, Untold, manifests_in};
use cache_reader::{Reader, Report};
use cache_table::{Pass, SharedCache};
use directory_input::{BytesError, FileBytes};
use region_ranges::Config;
use std::alloc::{AllocError, Global};
use std::process::Abort;

pub const ONE: Config = Config {
    regions: 1,
    region: 4096,
    range: 4096,
    max_freq: 100,
    min_delta: 60_000,
};

pub const TWO: Config = Config { regions: 2, ..ONE };

pub const THREE: Config = Config { regions: 3, ..ONE };

pub type Cache = SharedCache<Untold, MemFrame>;

const MANIFEST_SHORT: &[u8] =
    b"{\"version\":1,\"files\":[{\"name\":\"__b\",\"physical_name\":\"big.bin\",\"length\":10000}],\"segments\":[]}";

const MANIFEST_LONG: &[u8] =
    b"{\"version\":1,\"files\":[{\"name\":\"__b\",\"physical_name\":\"big.bin\",\"length\":20000}],\"segments\":[]}";

/// A file and its manifest.
#[derive(Clone, Copy)]
pub struct File {
    length: u32,
    manifest: &'static [u8],
}

/// A file of three regions.
pub const SHORT: File = File {
    length: 10_000,
    manifest: MANIFEST_SHORT,
};

/// A file of five regions.
pub const LONG: File = File {
    length: 20_000,
    manifest: MANIFEST_LONG,
};

fn add(alloc: Global, blobs: &mut Blobs, name: &[u8], bytes: Text) -> Result<(), AllocError> {
    if let Some(name) = Name::read(alloc, name)? {
        blobs.push((name, bytes))?;
    }
    Ok(())
}

/// An archive of one manifest and its one file, byte i being i mod 251.
pub fn source(
    rt: &impl Abort,
    alloc: Global,
    file: &File,
) -> Result<MemSource<Untold>, AllocError> {
    let mut bytes = Text::new(alloc);
    for i in 0..file.length {
        bytes.push((i % 251) as u8)?;
    }
    let mut blobs = Blobs::new(alloc);
    add(alloc, &mut blobs, b"__b", bytes)?;
    add(
        alloc,
        &mut blobs,
        b"mount-y",
        Text::of(alloc, file.manifest)?,
    )?;
    assert!(rt; manifests_in(&blobs) <= 65_536);
    Ok(MemSource::<Untold>::new(alloc, blobs, 65_536, Vec::new(alloc)))
}

/// The table of the manifest.
pub fn table(alloc: Global, source: &mut MemSource<Untold>) -> Option<PartTable<Untold>> {
    let Ok((number, manifest)) = load::<Untold, MemSource<Untold>>(alloc, source, "mount-y") else {
        return None;
    };
    resolve::<Untold, MemSource<Untold>>(alloc, source, number, &manifest).ok()
}

pub type Opened = (Cache, Pass<Untold>);

pub fn open_one(alloc: Global) -> Result<Opened, AllocError>
    ensures config { IfOk result (λ t. t.0.about.config ≡ ONE) }
    ensures pass { IfOk result (λ t. IsIdle t.0 t.1) }
    ensures whole { IfOk result (λ t. t.1.view.shares ≡ 64) }
{
    let mut frames = Vec::new(alloc);
    frames.push(MemFrame::new(alloc, 4096)?)?;
    SharedCache::open(alloc, &ONE, frames)
}

pub fn open_two(alloc: Global) -> Result<Opened, AllocError>
    ensures config { IfOk result (λ t. t.0.about.config ≡ TWO) }
    ensures pass { IfOk result (λ t. IsIdle t.0 t.1) }
{
    let mut frames = Vec::new(alloc);
    frames.push(MemFrame::new(alloc, 4096)?)?;
    frames.push(MemFrame::new(alloc, 4096)?)?;
    SharedCache::open(alloc, &TWO, frames)
}

pub fn open_three(alloc: Global) -> Result<Opened, AllocError>
    ensures config { IfOk result (λ t. t.0.about.config ≡ THREE) }
    ensures pass { IfOk result (λ t. IsIdle t.0 t.1) }
{
    let mut frames = Vec::new(alloc);
    frames.push(MemFrame::new(alloc, 4096)?)?;
    frames.push(MemFrame::new(alloc, 4096)?)?;
    frames.push(MemFrame::new(alloc, 4096)?)?;
    SharedCache::open(alloc, &THREE, frames)
}

/// Reads up to 255 bytes of the file through a reader of its own: the reader's report, or None where they are not the
/// file's.
pub fn read<D: CacheDoor<Untold>>(
    alloc: Global,
    door: &mut D,
    source: &mut MemSource<Untold>,
    table: &PartTable<Untold>,
    config: &Config,
    at: u64,
    count: u8,
) -> Result<Option<Report>, BytesError>
    requires free { (D.view door.old).hold ≡ nothing }
    requires setting { (D.view door.old).config ≡ config.now }
    requires limits { IsConfig config.now }
    ensures stays { D.stays door.old door.new }
    ensures hold { (D.view door.new).hold ≡ nothing }
    ensures config { (D.view door.new).config ≡ config.now }
{
    if table.files() == 0 {
        return Ok(None);
    }
    let mut out = [0; 256];
    let out = &mut out[..usize::from(count)];
    let mut reader = Reader::new(alloc, door, source, table, 0, config, 0);
    let length = reader.len(0);
    if length < 256 || at > length - 256 {
        return Ok(None);
    }
    let report = reader.read(0, at, out)?;
    Ok(if are_from(at, out) {
        Some(report)
    } else {
        None
    })
}

/// Whether these are the file's bytes from a place on.
pub fn are_from(at: u64, bytes: &[u8]) -> bool {
    let mut wanted = at % 251;
    for byte in bytes {
        if u64::from(*byte) != wanted {
            return false;
        }
        wanted = (wanted + 1) % 251;
    }
    true
}
