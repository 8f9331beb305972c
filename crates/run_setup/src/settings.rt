// The settings of the command `run`.
ghost use Rattle.std.specs.Prelude.{◌≡◌, option_map, IfSome, true};
ghost use Rattle.std.specs.List.{list_all};
ghost use Rattle.region_ranges.specs.Keys.{IsConfig};
ghost use Rattle.run_setup.specs.Settings.{behind_key, is_setting, values, at_most_one, numbers, settings};
ghost use Rattle.run_setup.specs.Settings.{in_limits, config_of};
ghost use Rattle.run_setup.specs.Words.{texts};

use crate::number::number_of;
use region_ranges::Config;

/// What a run is set up by.
#[derive(Clone, Copy, Debug, PartialEq, Eq)]
pub struct RunSettings {
    /// How many workers run the lines, 1 to 8.
    pub workers: u64,
    /// How many regions the cache has, 1 to 512.
    pub regions: u64,
    /// The size of a region in bytes, a multiple of 4,096 of at most 16,777,216.
    pub region: u64,
    /// The size of the ranges in which a region is filled, in bytes: a multiple of 4,096 that divides the region.
    pub range: u64,
}

/// What stands behind the key in a word that begins with it.
pub(crate) fn behind_key<'w>(key: &[u8], word: &'w [u8]) -> Option<&'w [u8]>
    ensures { option_map (λ s. s.now) result ≡ behind_key key.now word.now }
{
    word.strip_prefix(key)
}

/// Whether the word begins with the key of a setting.
pub(crate) fn is_setting(word: &[u8]) -> bool
    ensures { result ≡ is_setting word.now }
{
    behind_key(b"workers=", word).is_some()
        || behind_key(b"regions=", word).is_some()
        || behind_key(b"region=", word).is_some()
        || behind_key(b"range=", word).is_some()
}

fn are_settings(words: &[String]) -> bool
    ensures { result ≡ list_all is_setting (texts words.now) }
{
    for word in words {
        if !is_setting(word.as_str().as_bytes()) {
            return false;
        }
    }
    true
}

/// The number behind the key in the one word that begins with it, or the default where none does.
fn at_most_one(words: &[String], key: &[u8], default: u64) -> Option<u64>
    ensures { result ≡ at_most_one default (values key.now (texts words.now)) }
{
    let mut given: Option<&[u8]> = None;
    for word in words {
        if let Some(value) = behind_key(key, word.as_str().as_bytes()) {
            if given.is_some() {
                return None;
            }
            given = Some(value);
        }
    }
    match given {
        Some(value) => number_of(value),
        None => Some(default),
    }
}

impl RunSettings {
    /// What a cache with these settings is set up by: 100 frequencies, and 60,000 milliseconds between two promotions
    /// of a region (the defaults of Elasticsearch SharedBlobCacheService).
    pub fn config(&self) -> Config
        requires { in_limits self.now ≡ true }
        ensures config { result ≡ config_of self.now }
        ensures limits { IsConfig result }
    {
        Config {
            regions: self.regions as u32,
            region: self.region as u32,
            range: self.range as u32,
            max_freq: 100,
            min_delta: 60_000,
        }
    }

    /// Whether the numbers keep their limits.
    pub(crate) fn in_limits(&self) -> bool
        ensures { result ≡ in_limits self.now }
    {
        let workers = 0 < self.workers && self.workers <= 8;
        let regions = 0 < self.regions && self.regions <= 512;
        let region = 0 < self.region && self.region <= 16_777_216 && self.region % 4096 == 0;
        workers
            && regions
            && region
            && (0 < self.range && self.range % 4096 == 0 && self.region % self.range == 0)
            && self.regions * self.region <= 1_073_741_824
    }
}

/// The numbers of the words, with their defaults, whatever their limits.
pub(crate) fn numbers(words: &[String]) -> Option<RunSettings>
    ensures { result ≡ numbers (texts words.now) }
{
    let workers = at_most_one(words, b"workers=", 1)?;
    let regions = at_most_one(words, b"regions=", 4)?;
    let region = at_most_one(words, b"region=", 16_777_216)?;
    let range = at_most_one(words, b"range=", region)?;
    Some(RunSettings {
        workers,
        regions,
        region,
        range,
    })
}

/// The settings that the words behind `run` ask for.
pub(crate) fn settings(words: &[String]) -> Option<RunSettings>
    ensures settings { result ≡ settings (texts words.now) }
    ensures limits { IfSome result (λ s. in_limits s ≡ true) }
{
    if !are_settings(words) {
        return None;
    }
    let settings = numbers(words)?;
    if settings.in_limits() {
        Some(settings)
    } else {
        None
    }
}
