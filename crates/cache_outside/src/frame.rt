// What holds the bytes of one region, and what makes it.
ghost use Rattle.std.specs.Prelude.{◌≡◌, ◌≤◌, ◌+◌, IsTrue, IfOk, OnOk, OnErr, length};
ghost use Rattle.cache_outside.specs.Frames.{FrameView, FrameAfter, MakerView, MakerAfter, IsMadeBy};
ghost use Rattle.cache_outside.specs.Frames.{SameOutside, bytes_at, put_at};

use crate::OutError;

/// A frame failed, and counted it.
#[derive(Clone, Copy, Debug, PartialEq, Eq)]
pub struct FrameFault;

/// A place for a fixed number of bytes. No call changes its size, nor whether it tells its bytes or is steady.
///
/// Its count of failures never falls, and stands still at the last value of its type; `FrameFault` comes only where the
/// count rose in that call. That of a steady frame is 0 and never rises.
pub trait Frame {
    /// How many bytes it has, whether it tells them and whether it is steady, how often it has failed, and, where it
    /// tells, the bytes that it holds.
    ghost view: { Self → FrameView };

    /// Puts the piece over the bytes from the place `at` on, and leaves the others. After a refusal the bytes that were
    /// to be put may be anything, and the others stand.
    fn put(&mut self, at: u32, piece: &[u8]) -> Result<(), FrameFault>
        requires { at + length piece.now ≤ (view self.old).size }
        ensures put { IsTrue (view self.old).tells
            → OnOk result ((view self.new).bytes ≡ put_at at piece.now (view self.old).bytes) }
        ensures outside { IsTrue (view self.old).tells
            → OnErr result (SameOutside at (length piece.now) (view self.old).bytes (view self.new).bytes) }
        ensures frame { FrameAfter (view self.old) (view self.new) result };

    /// Fills `out` with the bytes from the place `at` on. What is held stays as it is, whatever the answer. After a
    /// refusal `out` may hold anything.
    fn get(&mut self, at: u32, out: &mut [u8]) -> Result<(), FrameFault>
        requires { at + length out.old ≤ (view self.old).size }
        ensures got { IsTrue (view self.old).tells
            → OnOk result (out.new ≡ bytes_at at (length out.old) (view self.old).bytes) }
        ensures held { (view self.new).bytes ≡ (view self.old).bytes }
        ensures frame { FrameAfter (view self.old) (view self.new) result };

    /// The bytes that a frame tells are as many as its size.
    ghost whole: { (f : Self) → IsTrue (view f).tells → length (view f).bytes ≡ (view f).size };

    /// A steady frame has never failed.
    ghost unfailed: { (f : Self) → IsTrue (view f).steady → (view f).faults ≡ 0 };
}

/// Makes the frames of a cache.
pub trait FrameMaker {
    type F: Frame;

    /// How often it has failed, and whether each frame that it makes tells its bytes and is steady.
    ghost view: { Self → MakerView };

    /// Makes the frame with this index, of `size` bytes. It tells, and is steady, where the maker's frames do.
    ///
    /// `Failed` comes only where the maker's count of failures rose in this call. The count never falls, and stands
    /// still at the last value of its type.
    fn make(&mut self, index: u32, size: u32) -> Result<Self::F, OutError>
        ensures frame { IfOk result (λ f. IsMadeBy (view self.old) size (Self.F.view f)) }
        ensures maker { MakerAfter (view self.old) (view self.new) result };
}
