// The settings of the command `make`.
ghost use Rattle.std.specs.Prelude.{◌≡◌, IfSome, true};
ghost use Rattle.std.specs.List.{list_all};
ghost use Rattle.run_setup.specs.Settings.{values};
ghost use Rattle.run_setup.specs.MakeSettings.{is_make_setting, exactly_one, make_numbers, can_be_made, make_settings};
ghost use Rattle.run_setup.specs.Words.{texts};

use crate::number::number_of;
use crate::settings::{RunSettings, behind_key, is_setting, numbers};

/// What an archive is made of, and what its searches are run by.
#[derive(Clone, Copy, Debug, PartialEq, Eq)]
pub struct MakeSettings {
    /// The number that all draws begin with.
    pub seed: u64,
    /// How many documents the archive has, 1 to 100,000.
    pub docs: u64,
    /// How many terms are drawn for, 1 to 100,000; documents times terms are at most 4,000,000.
    pub terms: u64,
    /// What the searches are run by.
    pub run: RunSettings,
}

impl MakeSettings {
    /// Whether the numbers keep their limits.
    fn can_be_made(&self) -> bool
        ensures { result ≡ can_be_made self.now }
    {
        self.run.in_limits()
            && (0 < self.docs && self.docs <= 100_000)
            && (0 < self.terms && self.terms <= 100_000)
            && self.docs * self.terms <= 4_000_000
    }
}

/// Whether the word begins with the key of a setting.
fn is_make_setting(word: &[u8]) -> bool
    ensures { result ≡ is_make_setting word.now }
{
    behind_key(b"seed=", word).is_some()
        || behind_key(b"docs=", word).is_some()
        || behind_key(b"terms=", word).is_some()
        || is_setting(word)
}

fn are_make_settings(words: &[String]) -> bool
    ensures { result ≡ list_all is_make_setting (texts words.now) }
{
    for word in words {
        if !is_make_setting(word.as_str().as_bytes()) {
            return false;
        }
    }
    true
}

/// The number behind the key in the one word that begins with it.
fn exactly_one(words: &[String], key: &[u8]) -> Option<u64>
    ensures { result ≡ exactly_one (values key.now (texts words.now)) }
{
    let mut given: Option<&[u8]> = None;
    for word in words {
        if let Some(value) = behind_key(key, word.as_str().as_bytes()) {
            if given.is_some() {
                return None;
            }
            given = Some(value);
        }
    }
    number_of(given?)
}

fn make_numbers(words: &[String]) -> Option<MakeSettings>
    ensures { result ≡ make_numbers (texts words.now) }
{
    let seed = exactly_one(words, b"seed=")?;
    let docs = exactly_one(words, b"docs=")?;
    let terms = exactly_one(words, b"terms=")?;
    let run = numbers(words)?;
    Some(MakeSettings {
        seed,
        docs,
        terms,
        run,
    })
}

/// The settings that the words behind `make` ask for.
pub(crate) fn make_settings(words: &[String]) -> Option<MakeSettings>
    ensures settings { result ≡ make_settings (texts words.now) }
    ensures limits { IfSome result (λ m. can_be_made m ≡ true) }
{
    if !are_make_settings(words) {
        return None;
    }
    let settings = make_numbers(words)?;
    if settings.can_be_made() {
        Some(settings)
    } else {
        None
    }
}
