//! What the rule of the table says of a shared cache between two steps.
ghost use Rattle.blob_parts.specs.Content.{content};
ghost use Rattle.cache_table.specs.Keys.{about_of};
ghost use Rattle.cache_table.specs.Between.{Keeps};

use crate::cache::SharedCache;
use crate::home::Home;
use crate::key::Key;
use crate::rule::Keeper;
use crate::view::View;
use atomic_table::TableRule;
use cache_outside::{Archive, Frame};

/// What is known of a cache between any two steps, whichever thread takes them, while nobody has the cache's turn.
pub trait BetweenSteps {
    // Each state that the rule of its table allows is such a one.
    ghost kept: { Type 0 };
}

impl<A: Archive, F: Frame> BetweenSteps for SharedCache<A, F> {
    ghost kept = { Keeps A.tells (content A.blobs) (about_of F.view)
        ⟦<Keeper as TableRule<Home<A, F>, View, Key<F>>>⟧.holds };
}

/// A law of the cache. Between any two steps, while nobody has its turn: each region is free, leaving, or mapped
/// to one key in the list of its frequency; no region that is held has been given another key; and in each region whose
/// turn is free, each byte that is marked as present is the archive's, where archive and frames tell.
pub fn kept_between<A: Archive, F: Frame>()
    ensures { ⟦<SharedCache<A, F> as BetweenSteps>⟧.kept }
{}
