// What became of the bytes that were read.
ghost use Rattle.std.specs.Prelude.{◌≡◌};
ghost use Rattle.cache_reader.specs.Reports.{Counted, no_bytes, copied_bytes, fetched_bytes, direct_bytes};

/// How many bytes were read, and by which way.
#[derive(Clone, Copy, Debug, PartialEq, Eq)]
pub struct Report {
    /// Bytes of the answers that were copied from regions.
    pub hit: u64,
    /// Bytes that were fetched from the source and stored in regions.
    pub fetched: u64,
    /// Bytes of the answers that were read from the source past the cache.
    pub direct: u64,
}

impl Report {
    /// No bytes.
    pub(crate) fn new() -> Report
        ensures { result ≡ no_bytes }
    {
        Report {
            hit: 0,
            fetched: 0,
            direct: 0,
        }
    }

    /// Adds the counts of another report. Each stops at the last value of its type.
    pub(crate) fn add(&mut self, other: &Report)
        ensures { Counted self.old self.new other.now }
    {
        self.hit = self.hit.saturating_add(other.hit);
        self.fetched = self.fetched.saturating_add(other.fetched);
        self.direct = self.direct.saturating_add(other.direct);
    }

    /// So many bytes were copied from a region.
    pub(crate) fn copy(&mut self, bytes: usize)
        ensures { Counted self.old self.new (copied_bytes bytes) }
    {
        self.add(&Report {
            hit: bytes as u64,
            fetched: 0,
            direct: 0,
        });
    }

    /// So many bytes were stored.
    pub(crate) fn store(&mut self, bytes: u32)
        ensures { Counted self.old self.new (fetched_bytes bytes) }
    {
        self.add(&Report {
            hit: 0,
            fetched: bytes as u64,
            direct: 0,
        });
    }

    /// So many bytes were read past the cache.
    pub(crate) fn read_past(&mut self, bytes: usize)
        ensures { Counted self.old self.new (direct_bytes bytes) }
    {
        self.add(&Report {
            hit: 0,
            fetched: 0,
            direct: bytes as u64,
        });
    }
}
