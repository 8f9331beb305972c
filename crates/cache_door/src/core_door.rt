//! One actor's door of a core.

ghost use Rattle.std.specs.Prelude.{◌≡◌, ◌<◌, length};
ghost use Rattle.cache_door.specs.Machine.{is_gone};
ghost use Rattle.cache_door.specs.Doors.{DoorView, Grown};
ghost use Rattle.cache_door.specs.Cores.{state_of, door_of, Later};

use crate::answers::{Entered, Glance, Want};
use crate::cache::Core;
use crate::door::CacheDoor;
use blob_parts::Piece;
use cache_outside::{Archive, Frame, FrameFault};
use region_cell::Taken;
use std::alloc::AllocError;

/// One actor's way into a core. Letting it go keeps the actor's hold.
#[derive(Drop)]
pub struct CoreDoor<'a, A: Archive, F: Frame> {
    core: &'a mut Core<A, F>,
    actor: u32,
    ghost seated: { actor < length core.now.holds },
}

impl<'a, A: Archive + Drop, F: Frame + Drop> CoreDoor<'a, A, F> {
    /// The door of this actor of the core. The core is the same one, which its caller gets back.
    pub(crate) fn new(core: &'a mut Core<A, F>, actor: u32) -> CoreDoor<'a, A, F>
        requires { actor < length core.old.holds }
        ensures core { result.core.now ≡ core.old }
        ensures same { result.core.ghost_name ≡ core.entry.ghost_name }
        ensures actor { result.actor ≡ actor }
    {
        CoreDoor { core, actor }
    }
}

// A missing proof of `Send` shows here, and not first at the threads above.
fn crosses<T: Send>() {}

/// A core may be handed to another thread.
pub fn core_crosses<A: Archive + Send, F: Frame + Send>() {
    crosses::<Core<A, F>>();
}

impl<'a, A: Archive + Drop, F: Frame + Drop> CacheDoor<A> for CoreDoor<'a, A, F> {
    ghost use Rattle.std.specs.Prelude.{refl};
    ghost use Rattle.std.proofs.Common.{◌∙◌};
    ghost use Rattle.cache_door.specs.Stays.{later_same, later_on, door_later};

    ghost view = { λ d. door_of d.core.now d.actor };

    ghost stays = { λ x y. (y.core.ghost_name ≡ x.core.ghost_name) × (y.actor ≡ x.actor) × Later x.core.now y.core.now
        × Grown (is_gone (state_of x.core.now)) (is_gone (state_of y.core.now)) };

    fn enter(&mut self, mount: u32, want: &Want, now: u64) -> Result<Entered, AllocError> {
        self.core.enter(self.actor, mount, want, now)
    }

    fn take_bytes(&mut self, out: &mut [u8]) -> Taken {
        self.core.take_bytes(self.actor, out)
    }

    fn store(&mut self, piece: &Piece<A>) -> Result<(), FrameFault> {
        self.core.store(self.actor, piece)
    }

    fn fail(&mut self) {
        self.core.fail(self.actor);
    }

    fn leave(&mut self) {
        self.core.leave(self.actor);
    }

    fn glance(&mut self, region: u32, want: &Want, out: &mut [u8]) -> Glance {
        self.core.glance(region, want, out)
    }

    fn decay(&mut self, now: u64) {
        self.core.decay(now);
    }

    fn clear(&mut self, manifest: u32) {
        self.core.clear(manifest);
    }

    fn live(&mut self, _mount: u32) {
        self.core.rest();
    }

    fn unmount(&mut self, mount: u32, manifest: u32) {
        self.core.unmount(mount, manifest);
        self.core.lesson();
    }

    fn lesson(&self) {
        self.core.lesson();
    }

    ghost stays_same = { λ x. (refl, refl, later_same x.core.now, λ m h. h) };

    ghost stays_on = { λ x y z a b. (b.0 ∙ a.0, b.1 ∙ a.1, later_on a.2 b.2, λ m h. b.3 m (a.3 m h)) };

    ghost later = { λ x y a. door_later x.core.now y.core.now x.actor y.actor a.1 a.2 a.3 };
}
