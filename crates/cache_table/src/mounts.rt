//! The mounts' words: each is new, live or gone.
ghost use Rattle.std.specs.Prelude.{◌↔◌, ◌≡◌, ◌+◌, ◌<◌, ◌≤◌, [], ◌∷◌, IsTrue, false};
ghost use Rattle.cache_table.specs.Rule.{last_place};
ghost use Rattle.cache_table.specs.Calls.{StaysBut};

use crate::cache::{Place, SharedCache};
use crate::rule::{LookMount, SetGone, SetLive};
use cache_outside::{Archive, Frame};

impl<A: Archive + Drop, F: Frame + Drop> SharedCache<A, F> {
    pub(crate) fn is_gone(&self, seat: &mut Place<A, F>, mount: u32) -> bool
        requires id { seat.old.table_id ≡ self.now.id }
        requires place { (mount < 4096) × (0 < seat.old.me.0.shares) × (seat.old.me.0.about ≡ self.now.about) }
        ensures id { (seat.new.table_id ≡ seat.old.table_id) × (seat.new.id ≡ seat.old.id)
            × (seat.new.me.1 ≡ seat.old.me.1) }
        ensures gone { IsTrue result → seat.new.me.0.gone ≡ mount ∷ seat.old.me.0.gone }
        ensures there { result ≡ false → seat.new.me.0.gone ≡ seat.old.me.0.gone }
        ensures word { seat.new.me.0.mount_word ≡ (mount, seat.new.me.0.loaded.1) }
        ensures two { IsTrue result ↔ (seat.new.me.0.loaded.1 ≡ 2) }
        ensures seen { (seat.new.me.0.looks ≡ seat.old.me.0.looks + 1)
            × (IsTrue result → seat.new.me.0.loaded ≡ (last_place self.now.about + 1 + mount, 2)) }
        ensures stays { StaysBut seat.old.me.0 seat.new.me.0 × (seat.new.me.0.unmounted ≡ seat.old.me.0.unmounted) }
    {
        let at = 8 * self.config.regions as usize + 1 + mount as usize;
        self.table.shared.load::<LookMount>(seat, at) == 2
    }

    pub(crate) fn make_live(&self, seat: &mut Place<A, F>, mount: u32)
        requires id { seat.old.table_id ≡ self.now.id }
        requires place { (mount < 4096) × (0 < seat.old.me.0.shares) }
        ensures id { (seat.new.table_id ≡ seat.old.table_id) × (seat.new.id ≡ seat.old.id)
            × (seat.new.me ≡ seat.old.me) }
    {
        let at = 8 * self.config.regions as usize + 1 + mount as usize;
        self.table
            .shared
            .compare_exchange::<SetLive>(seat, at, 0, 1);
    }

    pub(crate) fn make_gone(&self, seat: &mut Place<A, F>, mount: u32)
        requires id { seat.old.table_id ≡ self.now.id }
        requires place { (mount < 4096) × (0 < seat.old.me.0.shares) × (seat.old.me.0.about ≡ self.now.about) }
        ensures id { (seat.new.table_id ≡ seat.old.table_id) × (seat.new.id ≡ seat.old.id)
            × (seat.new.me.1 ≡ seat.old.me.1) }
        ensures gone { seat.new.me.0.unmounted ≡ mount ∷ seat.old.me.0.unmounted }
        ensures stays { StaysBut seat.old.me.0 seat.new.me.0 × (seat.new.me.0.gone ≡ seat.old.me.0.gone) }
    {
        let at = 8 * self.config.regions as usize + 1 + mount as usize;
        self.table.shared.store::<SetGone>(seat, at, 2);
    }
}
