//! A pass: what a worker steps with.
ghost use Rattle.std.specs.Prelude.{◌≡◌, ◌<◌, [], ◌∷◌};
ghost use Rattle.cache_table.specs.Calls.{marks};

use crate::mount_set::MountSet;
use crate::view::View;
use atomic_table::Badge;
use cache_door::{Hold, Work};
use cache_outside::Archive;
use std::marker::{Model, PhantomData};

/// What a worker steps with on a shared cache. It holds at most one region, and between calls it has no turn.
///
/// It does not name the frames of the cache. Clauses see of which cache it is, what it knows, and the counts of its
/// work.
#[derive(Drop)]
pub struct Pass<A: Archive> {
    pub(crate) badge: Badge<View>,
    pub(crate) shares: u32,
    pub(crate) hold: Option<Hold>,
    pub(crate) work: Work,
    pub(crate) unmounted: MountSet,
    pub(crate) gone: MountSet,
    pub(crate) archive: PhantomData<A>,
}

impl<A: Archive> Model for Pass<A> {
    ghost use Rattle.cache_table.specs.Calls.{view_of};
    ghost use Rattle.cache_table.specs.Views.{PassView, Kept};

    ghost Value = { PassView };

    ghost view = { λ p. record { id = p.badge.table_id; view = view_of p.badge.views; work = p.work } };

    ghost invariant = { λ p. Kept p.badge.views p.shares p.hold p.unmounted p.gone };
}

impl<A: Archive> Pass<A> {
    /// How many of the cache's 64 shares it has.
    pub fn shares(&self) -> u32
        ensures { result ≡ self.now.view.shares }
    {
        self.shares
    }

    /// Whether the mount was unmounted through it, or through a pass that it was joined with. False from mount 4,096
    /// on.
    pub fn has_unmounted(&self, mount: u32) -> bool
        ensures { result ≡ marks self.now.view.unmounted mount }
    {
        self.unmounted.has(mount)
    }

    /// Whether it has seen the mount gone, or a pass that it was joined with or split off has. False from mount 4,096
    /// on.
    pub fn has_seen_gone(&self, mount: u32) -> bool
        ensures { result ≡ marks self.now.view.gone mount }
    {
        self.gone.has(mount)
    }
}

// A missing proof of `Send` shows here, and not first at the threads above.
fn crosses<T: Send>() {}

/// A pass may be handed to another thread.
pub fn pass_crosses<A: Archive + Send>() {
    crosses::<Pass<A>>();
}
