//! Keys of regions with their tags, and what a cache is set up by.
ghost use Rattle.std.specs.Prelude.{◌≡◌, ◌≢◌, ◌<◌, ◌≤◌, ◌+◌, ◌*◌, ◌^◌, ℕ, IfSome, IfNone, Some, None};
ghost use Rattle.region_ranges.specs.Keys.{IsKey, tag_of, key_of, manifest_of, free_tag};

/// The tag of no key: 2^56 - 1. A region without a key has it.
pub const FREE_TAG: u64 = 72_057_594_037_927_935;

/// One region-sized part of one file. The numbers count from 0.
#[derive(Clone, Copy, Debug, PartialEq, Eq)]
pub struct RegionKey {
    /// The manifest's number, below 65,536.
    pub manifest: u32,
    /// The file's number in its manifest, below 4,096.
    pub file: u32,
    /// The part's number in its file, below 268,435,455.
    pub region: u32,
}

/// What a cache is set up by (Elasticsearch SharedBlobCacheService has the same settings).
#[derive(Clone, Copy, Debug, PartialEq, Eq)]
pub struct Config {
    /// How many regions the cache has.
    pub regions: u32,
    /// The size of a region, in bytes.
    pub region: u32,
    /// The size of the ranges in which a region is filled, in bytes.
    pub range: u32,
    /// How many frequencies a region can have.
    pub max_freq: u32,
    /// The least time between two promotions of a region, in milliseconds.
    pub min_delta: u64,
}

impl RegionKey {
    /// The key as one number below 2^56: manifest, file and region in 16, 12 and 28 bits.
    pub fn pack(&self) -> u64
        requires { IsKey self.now }
        ensures value { result ≡ tag_of self.now }
        ensures bound { result < free_tag }
        ensures back { key_of result ≡ Some self.now }
    {
        self.manifest as u64 * 1_099_511_627_776
            + self.file as u64 * 268_435_456
            + self.region as u64
    }

    /// The key that packs to `tag`. None comes exactly where no key does, as for `FREE_TAG`.
    pub fn unpack(tag: u64) -> Option<RegionKey>
        ensures value { result ≡ key_of tag }
        ensures some { IfSome result (λ key. IsKey key × (tag_of key ≡ tag)) }
        ensures none { IfNone result ((key : RegionKey) → IsKey key → tag_of key ≢ tag) }
    {
        let manifest = tag / 1_099_511_627_776;
        let region = tag % 268_435_456;
        if manifest < 65_536 && region < 268_435_455 {
            Some(RegionKey {
                manifest: manifest as u32,
                file: (tag / 268_435_456 % 4096) as u32,
                region: region as u32,
            })
        } else {
            None
        }
    }
}

/// What tags tell of keys: each is below the free tag and gives its key back, and no two keys have one tag.
pub fn tags_tell_keys()
    ensures bound { (key : RegionKey) → IsKey key → tag_of key < free_tag }
    ensures back { (key : RegionKey) → IsKey key → key_of (tag_of key) ≡ Some key }
    ensures same { (a b : RegionKey) → IsKey a → IsKey b → tag_of a ≡ tag_of b → a ≡ b }
    ensures manifest { (key : RegionKey) → IsKey key → manifest_of (tag_of key) ≡ key.manifest }
    ensures free { key_of free_tag ≡ None }
{}
