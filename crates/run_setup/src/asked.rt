// What the words ask for.
ghost use Rattle.std.specs.Prelude.{◌≡◌, option_map, IfSome, true};
ghost use Rattle.run_setup.specs.Settings.{in_limits};
ghost use Rattle.run_setup.specs.MakeSettings.{can_be_made};
ghost use Rattle.run_setup.specs.Words.{texts, term, term_words, run_words, make_words, command, asks};
ghost use Rattle.run_setup.specs.Asked.{view_of, InLimits};

use crate::make_settings::{MakeSettings, make_settings};
use crate::settings::{RunSettings, settings};

/// What words ask for.
#[derive(Clone, Copy)]
pub enum Asked<'w> {
    /// `term`: the documents of a manifest that have a term in a field.
    Term {
        manifest: &'w str,
        field: &'w str,
        term: &'w str,
    },
    /// `run`: the run of a script.
    Run(RunSettings),
    /// `make`: an archive that is made of a number, and searches of it.
    Make(MakeSettings),
}

fn term_of(words: &[String]) -> Option<Asked<'_>>
    ensures { option_map view_of result ≡ option_map term (term_words (texts words.now)) }
{
    match words {
        [command, manifest, field, term] => {
            if command.as_str() == "term" {
                Some(Asked::Term {
                    manifest: manifest.as_str(),
                    field: field.as_str(),
                    term: term.as_str(),
                })
            } else {
                None
            }
        }
        _ => None,
    }
}

fn run_of(words: &[String]) -> Option<RunSettings>
    ensures settings { result ≡ run_words (texts words.now) }
    ensures limits { IfSome result (λ s. in_limits s ≡ true) }
{
    let [command, rest @ ..] = words else {
        return None;
    };
    if command.as_str() != "run" {
        return None;
    }
    settings(rest)
}

fn make_of(words: &[String]) -> Option<MakeSettings>
    ensures settings { result ≡ make_words (texts words.now) }
    ensures limits { IfSome result (λ m. can_be_made m ≡ true) }
{
    let [command, rest @ ..] = words else {
        return None;
    };
    if command.as_str() != "make" {
        return None;
    }
    make_settings(rest)
}

/// What the words ask for; None where they are not in form, whatever the number of sources.
///
/// In form are `term MANIFEST FIELD TERM`; and `run`, then in any order and each at most once `workers=N` (1 to 8, by
/// default 1), `regions=N` (1 to 512, by default 4), `region=B` (a multiple of 4,096 of at most 16,777,216, which is
/// the default) and `range=B` (a multiple of 4,096 that divides the region, by default the region), where the regions
/// have at most 1,073,741,824 bytes; and `make`, then in any order, each exactly once, `seed=N`, `docs=N` and `terms=N`
/// (both 1 to 100,000, of which the product is at most 4,000,000), and the settings of `run`. Numbers are 1 to 20
/// decimal digits that fit 64 bits.
pub fn asked_of(words: &[String]) -> Option<Asked<'_>>
    ensures asked { option_map view_of result ≡ command (texts words.now) }
    ensures limits { InLimits result }
{
    if let Some(settings) = run_of(words) {
        return Some(Asked::Run(settings));
    }
    if let Some(settings) = make_of(words) {
        return Some(Asked::Make(settings));
    }
    term_of(words)
}

/// Whether the words are in form, whatever the number of sources, and ask for 2 or more workers.
pub fn asks_threads(words: &[String]) -> bool
    ensures { result ≡ asks (command (texts words.now)) }
{
    match asked_of(words) {
        Some(Asked::Run(settings)) => settings.workers > 1,
        Some(Asked::Make(settings)) => settings.run.workers > 1,
        _ => false,
    }
}
