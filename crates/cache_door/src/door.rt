//! One actor's way into a cache of regions.

ghost use Rattle.std.specs.Prelude.{◌≡◌, ◌<◌, ◌≤◌, ◌-◌, ℕ, true, IfSome, IfOk, OnOk, OnErr, IsTrue, length, Ok};
ghost use Rattle.blob_parts.specs.Content.{content};
ghost use Rattle.region_cell.specs.declared.taken.Taken.TheVariants as taken;
ghost use Rattle.cache_door.specs.declared.answers.Glance.TheVariants as glance;
ghost use Rattle.cache_door.specs.Machine.{age, clear, unmount};
ghost use Rattle.cache_door.specs.Doors.{DoorView, DoorLater, Agrees, nothing, entry_hold, stored_hold, failed_hold};
ghost use Rattle.cache_door.specs.Doors.{Works, no_work, entry_work, take_work, glance_work, store_work, FitsGap};
ghost use Rattle.cache_door.specs.Doors.{IsWant, HasLength, IsEntry, SameState, with_mount, Becomes, Answers};
ghost use Rattle.cache_door.specs.Doors.{AnswersCopy, entry, entry_answer, taking, looking, storing, failing, leaving};
ghost use Rattle.cache_door.specs.Doors.{AsHeld, AsWanted, AreHeld, AreStored, FrameFails, LacksMemory};

use crate::answers::{Entered, Glance, Want};
use blob_parts::Piece;
use cache_outside::{Archive, FrameFault};
use region_cell::Taken;
use std::alloc::AllocError;

/// One actor's way into a cache of regions over one archive. A door holds at most one region at a time. Only `enter`
/// takes memory.
///
/// Times are in milliseconds. Mount numbers are below 4,096. Where the archive tells, what is wanted has the length
/// of its region by the content.
///
/// A door may keep the state of its cache to itself, as one of several that work side by side does. Clauses then say
/// what is held, which bytes are copied, the counts, the mounts, and where `Gone` and `FrameFault` come from. They
/// say nothing of where `NoRoom`, `Waiting`, `Failed`, `Busy`, `Moved` and `Absent` come from: such a door says so at
/// its own calls.
pub trait CacheDoor<A: Archive> {
    /// What clauses see of the door.
    ghost view: { Self → DoorView };

    /// What every call keeps: the second is the same door as the first, some calls of this trait later.
    ghost stays: { Self → Self → Type 0 };

    /// Enters the region of the wanted key, for a mount, at the time `now`: the region is held then.
    ///
    /// A mapped key counts as accessed now, and another key is mapped to a region that is free or can be had. Where a
    /// wanted byte is absent, the entry claims the greatest run of absent bytes round the first one, in the aligned
    /// range of what is wanted: the gap, which the caller is to fetch and store, or to fail.
    ///
    /// `Gone` comes only where the door has seen that the mount was unmounted. Where the state is told, `NoRoom`
    /// comes where no region is free or to be had for a new key, or the key is mapped with another length, and where
    /// it is not told the trait says nothing of it. Both are decided before memory is asked: want of memory comes
    /// only in place of `Held`, and leaves all as before.
    fn enter(&mut self, mount: u32, want: &Want, now: u64) -> Result<Entered, AllocError>
        requires free { (view self.old).hold ≡ nothing }
        requires mount { mount < 4096 }
        requires want { IsWant (view self.old).config want.now }
        requires whole { IsTrue A.tells → HasLength (content A.blobs) (view self.old).config want.now }
        ensures stays { stays self.old self.new }
        ensures hold { (view self.new).hold ≡ entry_hold want.now result }
        ensures entry { IfOk result (IsEntry (view self.old).config want.now) }
        ensures work { Works (view self.old).work (view self.new).work (entry_work result) }
        ensures gone { result ≡ Ok Entered.Gone → (view self.new).seen_gone mount ≡ true }
        ensures unmounted { (view self.new).unmounted ≡ (view self.old).unmounted }
        ensures answer { IfOk result (Answers (view self.old) (entry_answer mount want.now now)) }
        ensures state { OnOk result (Becomes (view self.old) (view self.new) (entry mount want.now now)) }
        ensures memory { OnErr result (LacksMemory (view self.old) (view self.new) (entry_answer mount want.now now)) };

    /// Copies the wanted bytes of the held region into `out`.
    ///
    /// Where the state is told, `Waiting` comes where a wanted byte is still fetched by another actor and none is
    /// absent, `Failed` where a wanted byte is absent, since a gap over it failed after the hold began, and
    /// `FrameFault` only where all are present; where it is not told the trait says nothing of the first two.
    /// `FrameFault` comes only where the count of frame faults rose in this call. After any answer but `Copied` `out`
    /// may hold anything.
    fn take_bytes(&mut self, out: &mut [u8]) -> Taken
        requires held { (view self.old).hold.held ≡ true }
        requires closed { (view self.old).hold.gap_end ≤ (view self.old).hold.upto }
        requires len { length out.old ≡ (view self.old).hold.sub.end - (view self.old).hold.sub.start }
        ensures stays { stays self.old self.new }
        ensures hold { (view self.new).hold ≡ (view self.old).hold }
        ensures work { Works (view self.old).work (view self.new).work (take_work result) }
        ensures unmounted { (view self.new).unmounted ≡ (view self.old).unmounted }
        ensures fault { result ≡ taken.FrameFault → FrameFails (view self.old) (view self.new) }
        ensures bytes { result ≡ taken.Copied → AsHeld A.tells (content A.blobs) (view self.old) out.new }
        ensures copied { result ≡ taken.Copied → AreHeld (view self.old) out.new }
        ensures answer { AnswersCopy (view self.old) taken.Copied taken.FrameFault taking result }
        ensures state { (view self.new).state ≡ (view self.old).state };

    /// Stores a piece of the gap of the hold, at the gap's present end, which moves behind it. At the gap's end the
    /// gap is closed, and the hold's present end stays there.
    ///
    /// `FrameFault` comes only where the count of frame faults rose in this call. The gap is as before then.
    fn store(&mut self, piece: &Piece<A>) -> Result<(), FrameFault>
        requires held { (view self.old).hold.held ≡ true }
        requires piece { FitsGap (view self.old).config.region (view self.old).hold piece.now }
        ensures stays { stays self.old self.new }
        ensures hold { (view self.new).hold ≡ stored_hold (length piece.now.bytes) result (view self.old).hold }
        ensures work { Works (view self.old).work (view self.new).work (store_work (length piece.now.bytes) result) }
        ensures unmounted { (view self.new).unmounted ≡ (view self.old).unmounted }
        ensures fault { OnErr result (FrameFails (view self.old) (view self.new)) }
        ensures state { OnOk result (Becomes (view self.old) (view self.new) (storing piece.now.bytes)) }
        ensures same { OnErr result (SameState (view self.old).state (view self.new).state) };

    /// Gives the gap of the hold up: its bytes that were not stored are absent again, and the gap is closed. Where
    /// the state is told, who waits for one of them is told `Failed`.
    fn fail(&mut self)
        requires held { (view self.old).hold.held ≡ true }
        requires open { (view self.old).hold.upto < (view self.old).hold.gap_end }
        ensures stays { stays self.old self.new }
        ensures hold { (view self.new).hold ≡ failed_hold (view self.old).hold }
        ensures work { Works (view self.old).work (view self.new).work no_work }
        ensures unmounted { (view self.new).unmounted ≡ (view self.old).unmounted }
        ensures state { Becomes (view self.old) (view self.new) failing };

    /// Gives the hold back.
    fn leave(&mut self)
        requires held { (view self.old).hold.held ≡ true }
        requires closed { (view self.old).hold.gap_end ≤ (view self.old).hold.upto }
        ensures stays { stays self.old self.new }
        ensures hold { (view self.new).hold ≡ nothing }
        ensures work { Works (view self.old).work (view self.new).work no_work }
        ensures unmounted { (view self.new).unmounted ≡ (view self.old).unmounted }
        ensures state { Becomes (view self.old) (view self.new) leaving };

    /// Copies the wanted bytes out of a region that is not held, if it has the wanted key and they are all present.
    /// No access is counted.
    ///
    /// Where the state is told, `Moved` comes where the region has another key, whose tag it gives, `Absent` where
    /// the region lacks a wanted byte, `FrameFault` only where it lacks none, and `Busy` never; where it is not told
    /// the trait says nothing of `Moved`, `Absent` and `Busy`. `FrameFault` comes only where the count of frame
    /// faults rose in this call. After any answer but `Copied` `out` may hold anything.
    fn glance(&mut self, region: u32, want: &Want, out: &mut [u8]) -> Glance
        requires free { (view self.old).hold ≡ nothing }
        requires region { region < (view self.old).config.regions }
        requires want { IsWant (view self.old).config want.now }
        requires whole { IsTrue A.tells → HasLength (content A.blobs) (view self.old).config want.now }
        requires len { length out.old ≡ want.now.sub.end - want.now.sub.start }
        ensures stays { stays self.old self.new }
        ensures hold { (view self.new).hold ≡ nothing }
        ensures work { Works (view self.old).work (view self.new).work (glance_work result) }
        ensures unmounted { (view self.new).unmounted ≡ (view self.old).unmounted }
        ensures fault { result ≡ glance.FrameFault → FrameFails (view self.old) (view self.new) }
        ensures bytes { result ≡ glance.Copied → AsWanted A.tells (content A.blobs) (view self.old) want.now out.new }
        ensures copied { result ≡ glance.Copied → AreStored (view self.old) region want.now.sub out.new }
        ensures answer { AnswersCopy (view self.old) glance.Copied glance.FrameFault (looking region want.now) result }
        ensures state { (view self.new).state ≡ (view self.old).state };

    /// Ages the regions' frequencies, at the time `now`.
    fn decay(&mut self, now: u64)
        ensures stays { stays self.old self.new }
        ensures hold { (view self.new).hold ≡ (view self.old).hold }
        ensures work { Works (view self.old).work (view self.new).work (record no_work { decays = 1 }) }
        ensures unmounted { (view self.new).unmounted ≡ (view self.old).unmounted }
        ensures state { Becomes (view self.old) (view self.new) (λ a. age now) };

    /// Takes each region that is mapped to a key of the manifest out of use. One that is held stays readable for its
    /// holders.
    fn clear(&mut self, manifest: u32)
        ensures stays { stays self.old self.new }
        ensures hold { (view self.new).hold ≡ (view self.old).hold }
        ensures work { Works (view self.old).work (view self.new).work (record no_work { clears = 1 }) }
        ensures unmounted { (view self.new).unmounted ≡ (view self.old).unmounted }
        ensures state { Becomes (view self.old) (view self.new) (λ a. clear manifest) };

    /// Notes that a mount is in use. It changes nothing on one that is noted already, or was unmounted.
    fn live(&mut self, mount: u32)
        requires { mount < 4096 }
        ensures stays { stays self.old self.new }
        ensures hold { (view self.new).hold ≡ (view self.old).hold }
        ensures work { Works (view self.old).work (view self.new).work no_work }
        ensures unmounted { (view self.new).unmounted ≡ (view self.old).unmounted }
        ensures state { (view self.new).state ≡ (view self.old).state };

    /// Marks the mount as unmounted, for all time, and clears its manifest. On one that is marked already it clears
    /// again. The clear is none of the clears that the door counts.
    fn unmount(&mut self, mount: u32, manifest: u32)
        requires { mount < 4096 }
        ensures stays { stays self.old self.new }
        ensures hold { (view self.new).hold ≡ (view self.old).hold }
        ensures work { Works (view self.old).work (view self.new).work no_work }
        ensures unmounted { (m : ℕ) → (view self.new).unmounted m ≡ with_mount mount (view self.old).unmounted m }
        ensures state { Becomes (view self.old) (view self.new) (λ a. unmount mount manifest) };

    /// What is told of the state of a door between two calls. It does nothing.
    fn lesson(&self)
        ensures agrees { IfSome (view self.now).state (Agrees A.tells (content A.blobs) (view self.now)) };

    ghost stays_same: { (x : Self) → stays x x };

    ghost stays_on: { (x y z : Self) → stays x y → stays y z → stays x z };

    /// What every call keeps, in views.
    ghost later: { (x y : Self) → stays x y → DoorLater (view x) (view y) };
}
