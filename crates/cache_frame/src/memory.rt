// Frames in memory.
ghost use Rattle.std.specs.Prelude.{◌≡◌, ◌↔◌, ◌≤◌, ◌+◌, IfOk, IsTrue, IsErrOf, length, true, replicate};
ghost use Rattle.cache_outside.specs.Frames.{MakerAfter, IsMadeBy};
ghost use Rattle.cache_outside.specs.declared.fault.OutError.TheVariants.{Failed};
ghost use Rattle.cache_frame.specs.Makers.{is_listed, frame_of, maker_of};

use cache_outside::{Frame, FrameFault, FrameMaker, OutError};
use std::alloc::{AllocError, Global};
use std::marker::Model;

/// A frame whose bytes are in memory. It tells them, and never fails.
#[derive(Drop)]
pub struct MemFrame {
    bytes: Vec<u8>,
}

impl Model for MemFrame {
    ghost use Rattle.std.specs.Prelude.{List, ℕ};

    ghost Value = { List ℕ };

    ghost view = { λ f. f.bytes.items };
}

impl MemFrame {
    /// A frame of `size` bytes, all 0.
    pub fn new(alloc: Global, size: u32) -> Result<MemFrame, AllocError>
        ensures { IfOk result (λ f. f ≡ replicate size 0) }
    {
        Ok(MemFrame {
            bytes: vec![in alloc; 0; size as usize]?,
        })
    }
}

impl Frame for MemFrame {
    ghost use Rattle.std.specs.Prelude.{refl};
    ghost use Rattle.cache_frame.specs.Makers.{frame_of};

    ghost view = { frame_of };

    fn put(&mut self, at: u32, piece: &[u8]) -> Result<(), FrameFault> {
        let start = at as usize;
        self.bytes[start..start + piece.len()].copy_from_slice(piece);
        Ok(())
    }

    fn get(&mut self, at: u32, out: &mut [u8]) -> Result<(), FrameFault> {
        let start = at as usize;
        out.copy_from_slice(&self.bytes[start..start + out.len()]);
        Ok(())
    }

    ghost whole = { λ f told. refl };

    ghost unfailed = { λ f steady. refl };
}

/// Makes frames in memory, but none for the indexes that it is given: there it fails.
#[derive(Drop)]
pub struct MemFrames {
    alloc: Global,
    fails: Vec<u32>,
    faults: u64,
}

impl Model for MemFrames {
    ghost use Rattle.cache_frame.specs.Makers.{MemMakerView};

    ghost Value = { MemMakerView };

    ghost view = { λ m. record { fails = m.fails.items; faults = m.faults } };
}

impl MemFrames {
    /// A maker that fails for these indexes, and has not failed yet.
    pub fn new(alloc: Global, fails: Vec<u32>) -> MemFrames
        ensures { result ≡ record { fails = fails.items; faults = 0 } }
    {
        MemFrames {
            alloc,
            fails,
            faults: 0,
        }
    }
}

impl FrameMaker for MemFrames {
    type F = MemFrame;

    ghost view = { λ m. maker_of m.faults };

    /// `Failed` comes exactly for the indexes that the maker was given.
    fn make(&mut self, index: u32, size: u32) -> Result<MemFrame, OutError>
        ensures frame { IfOk result (λ f. IsMadeBy (maker_of self.old.faults) size (frame_of f)) }
        ensures listed { IsErrOf result Failed ↔ IsTrue (is_listed index self.old.fails) }
        ensures maker { MakerAfter (maker_of self.old.faults) (maker_of self.new.faults) result }
        ensures fails { self.new.fails ≡ self.old.fails }
    {
        if self.fails.contains(&index) {
            self.faults = self.faults.saturating_add(1);
            return Err(OutError::Failed);
        }
        Ok(MemFrame::new(self.alloc, size)?)
    }
}

// A missing proof of `Send` shows here, and not first at the threads above.
fn crosses<T: Send>() {}

/// A frame may be handed to another thread.
pub fn frame_crosses() {
    crosses::<MemFrame>();
}
