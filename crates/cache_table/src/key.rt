//! What a table is made with.
ghost use Rattle.std.specs.Prelude.{◌≡◌};

use region_ranges::Config;
use std::snapshot::Snapshot;

/// What a table is made with: its settings, and the frames as they were then.
#[derive(Drop)]
pub struct Key<F> {
    pub(crate) config: Config,
    pub(crate) frames: Snapshot<Vec<F>>,
}

impl<F> Key<F> {
    pub(crate) fn new(config: &Config, frames: &Vec<F>) -> Key<F>
        ensures config { result.config ≡ config.now }
        ensures frames { result.frames.value ≡ frames.now }
    {
        Key {
            config: *config,
            frames: Snapshot::of(frames),
        }
    }
}
