// A source that waits, and a gate that ends its wait.
ghost use Rattle.std.specs.Prelude.{◌≡◌};
ghost use Rattle.cache_outside.specs.Causes.{HasCause};

use super::Source;
use cache_outside::{BlobSource, OutError};
use sample_archive::SampleArchive;
use shared_run::Gate;
use std::alloc::Global;
use std::sync::Arc;
use std::sync::atomic::{AtomicBool, Ordering};
use std::thread;

/// How many turns a source waits at most.
const TURNS: u64 = 1_000_000_000;

/// A source in memory that answers a read at one place only after a flag was set, and fails where it waited too long.
#[derive(Drop)]
pub struct Waiting {
    pub source: Source,
    /// The place of the reads that wait.
    pub place: Option<u64>,
    pub heard: Arc<AtomicBool, Global>,
    /// How often it has failed.
    pub faults: u64,
}

/// Waits until the flag was set, and says whether it was.
fn was_heard(heard: &AtomicBool) -> bool {
    for turn in 0..TURNS {
        if heard.load(Ordering::SeqCst) {
            return true;
        }
        if turn % 1024 == 1023 {
            thread::yield_now();
        }
    }
    false
}

/// An answer of a call, of which a failure is counted.
fn counted<T>(faults: &mut u64, given: Result<T, OutError>) -> Result<T, OutError>
    ensures given { result ≡ given }
    ensures cause { HasCause faults.old faults.new result }
{
    if matches!(given, Err(OutError::Failed)) {
        *faults = faults.saturating_add(1);
    }
    given
}

impl BlobSource<SampleArchive> for Waiting {
    ghost use Rattle.cache_outside.specs.MemSources.{source_view};

    ghost view = { λ s. record (source_view s.source) { faults = s.faults } };

    fn find(&mut self, name: &str) -> Result<Option<u32>, OutError> {
        let given = self.source.find(name);
        counted(&mut self.faults, given)
    }

    fn manifest(&mut self, name: &str) -> Result<Option<u32>, OutError> {
        let given = self.source.manifest(name);
        counted(&mut self.faults, given)
    }

    fn size(&mut self, blob: u32) -> Result<u64, OutError> {
        let given = self.source.size(blob);
        counted(&mut self.faults, given)
    }

    fn read(&mut self, blob: u32, at: u64, out: &mut [u8]) -> Result<usize, OutError> {
        if self.place == Some(at) && !was_heard(&self.heard) {
            return counted(&mut self.faults, Err(OutError::Failed));
        }
        let given = self.source.read(blob, at, out);
        counted(&mut self.faults, given)
    }
}

/// A gate that sets a flag once a line was answered.
#[derive(Drop)]
pub struct Telling {
    pub heard: Arc<AtomicBool, Global>,
    /// The number of the line.
    pub line: u32,
}

impl Gate for Telling {
    fn answered(&self, _worker: u32, line: u32) {
        if line == self.line {
            self.heard.store(true, Ordering::SeqCst);
        }
    }
}
