//! A set of mounts, by their numbers below 4,096. It takes no memory.
ghost use Rattle.std.specs.Prelude.{◌≡◌, ◌||◌, ◌<◌, ◌==◌, ℕ, false, true, if◌then◌else◌, slice_index_or, replicate};

use std::marker::Model;

#[derive(Drop)]
pub(crate) struct MountSet {
    bits: [bool; 4096],
}

impl Model for MountSet {
    ghost use Rattle.std.specs.Prelude.{List, Bool};

    ghost Value = { List Bool };

    ghost view = { λ s. s.bits };
}

impl MountSet {
    pub(crate) fn new() -> MountSet
        ensures { result ≡ replicate 4096 false }
    {
        MountSet {
            bits: [false; 4096],
        }
    }

    pub(crate) fn copy(&self) -> MountSet
        ensures { result ≡ self.now }
    {
        MountSet { bits: self.bits }
    }

    pub(crate) fn has(&self, mount: u32) -> bool
        ensures { result ≡ slice_index_or self.now mount false }
    {
        mount < 4096 && self.bits[mount as usize]
    }

    pub(crate) fn add(&mut self, mount: u32)
        requires { mount < 4096 }
        ensures { (m : ℕ) → slice_index_or self.new m false ≡ (if m == mount then true else slice_index_or self.old m
            false) }
    {
        self.bits[mount as usize] = true;
    }

    pub(crate) fn unite(&mut self, other: &MountSet)
        ensures { (m : ℕ) → slice_index_or self.new m false ≡ (slice_index_or self.old m false || slice_index_or
            other.now m false) }
    {
        for at in 0..4096usize {
            self.bits[at] = self.bits[at] || other.bits[at];
        }
    }
}
