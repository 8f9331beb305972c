// Bytes of all lines of a run.
ghost use Rattle.std.specs.Prelude.{◌≡◌, ◌<◌, ◌^◌};
ghost use Rattle.script_run.specs.Lines.{no_sums, Summed};

use cache_reader::Report;

/// The bytes that the lines of a run fetched and read directly. Each sum stops at the last value of its type.
#[derive(Clone, Copy, Debug, PartialEq, Eq)]
pub struct Sums {
    /// Bytes that were fetched from the source and stored in regions.
    pub fetched: u64,
    /// Bytes that were read from the source past the cache.
    pub direct: u64,
}

impl Sums {
    /// No bytes.
    pub fn new() -> Sums
        ensures { result ≡ no_sums }
    {
        Sums {
            fetched: 0,
            direct: 0,
        }
    }

    /// Adds what the reads of a line counted.
    pub fn add(&mut self, report: &Report)
        ensures sums { Summed self.old self.new report.now }
        ensures below { (self.new.fetched < 2 ^ 64) × (self.new.direct < 2 ^ 64) }
    {
        self.fetched = self.fetched.saturating_add(report.fetched);
        self.direct = self.direct.saturating_add(report.direct);
    }
}
