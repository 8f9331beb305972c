//! A frame that fails at its first put and at its first get, where it is told to.
ghost use Rattle.std.specs.Prelude.{◌≡◌, IfOk};
ghost use Rattle.cache_checks.specs.Checks.{faulty_view};

use cache_frame::MemFrame;
use cache_outside::{Frame, FrameFault};
use std::alloc::{AllocError, Global};

#[derive(Drop)]
pub struct Faulty {
    frame: MemFrame,
    put_fails: bool,
    get_fails: bool,
    faults: u64,
}

impl Faulty {
    pub fn new(alloc: Global, size: u32, fails: bool) -> Result<Faulty, AllocError>
        ensures { IfOk result (λ f. (faulty_view f.frame f.faults).size ≡ size) }
    {
        Ok(Faulty {
            frame: MemFrame::new(alloc, size)?,
            put_fails: fails,
            get_fails: fails,
            faults: 0,
        })
    }
}

impl Frame for Faulty {
    ghost use Rattle.std.specs.Prelude.{refl};
    ghost use Rattle.cache_checks.specs.Checks.{faulty_view};

    ghost view = { λ f. faulty_view f.frame f.faults };

    fn put(&mut self, at: u32, piece: &[u8]) -> Result<(), FrameFault> {
        if self.put_fails {
            self.put_fails = false;
            self.faults = self.faults.saturating_add(1);
            return Err(FrameFault);
        }
        self.frame.put(at, piece)
    }

    fn get(&mut self, at: u32, out: &mut [u8]) -> Result<(), FrameFault> {
        if self.get_fails {
            self.get_fails = false;
            self.faults = self.faults.saturating_add(1);
            return Err(FrameFault);
        }
        self.frame.get(at, out)
    }

    ghost whole = { λ f told. refl };

    ghost unfailed = { λ f steady. Prim.cc };
}
