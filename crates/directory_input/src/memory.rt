// Files in memory, for tests.
ghost use Rattle.std.specs.Prelude.{◌≡◌, ◌<◌, ◌++◌, ◌∷◌, [], ℕ, List, OnOk, OnErr, length, true, false};
ghost use Rattle.directory_input.specs.Memory.{is_listed};

use crate::{BytesError, FileBytes};
use std::alloc::{AllocError, Global};
use std::marker::Model;

/// The bytes of one file.
#[derive(Drop)]
struct MemFile {
    bytes: Vec<u8>,
}

impl Model for MemFile {
    ghost Value = { List ℕ };

    ghost view = { λ f. f.bytes.items };
}

/// Files in memory, some reads of which fail. The reads are counted from 1, over all files.
#[derive(Drop)]
pub struct MemBytes {
    files: Vec<MemFile>,
    failing: Vec<u64>,
    reads: u64,
    faults: u64,
}

impl Model for MemBytes {
    ghost use Rattle.directory_input.specs.Memory.{MemFiles};

    ghost Value = { MemFiles };

    ghost view = { λ m.
        record { files = m.files.items; failing = m.failing.items; reads = m.reads; faults = m.faults } };
}

fn is_failing(failing: &[u64], number: u64) -> bool
    ensures { result ≡ is_listed number failing.now }
{
    failing.contains(&number)
}

impl MemBytes {
    /// No files, and no read is to fail; takes no memory.
    pub fn new(alloc: Global) -> MemBytes
        ensures { result ≡ record { files = []; failing = []; reads = 0; faults = 0 } }
    {
        MemBytes {
            files: Vec::new(alloc),
            failing: Vec::new(alloc),
            reads: 0,
            faults: 0,
        }
    }

    /// Puts a file behind the others.
    pub fn add(&mut self, bytes: Vec<u8>) -> Result<(), AllocError>
        ensures ok { OnOk result (self.new ≡ record self.old { files = self.old.files ++ bytes.items ∷ [] }) }
        ensures err { OnErr result (self.new ≡ self.old) }
    {
        self.files.push(MemFile { bytes })?;
        Ok(())
    }

    /// Lets the read of this number fail.
    pub fn fail_at(&mut self, read: u64) -> Result<(), AllocError>
        ensures ok { OnOk result (self.new ≡ record self.old { failing = self.old.failing ++ read ∷ [] }) }
        ensures err { OnErr result (self.new ≡ self.old) }
    {
        self.failing.push(read)?;
        Ok(())
    }

    /// How many reads there were.
    pub fn reads(&self) -> u64
        ensures { result ≡ self.now.reads }
    {
        self.reads
    }

    /// How many of them failed.
    pub fn faults(&self) -> u64
        ensures { result ≡ self.now.faults }
    {
        self.faults
    }
}

impl FileBytes for MemBytes {
    ghost use Rattle.directory_input.specs.Memory.{GoesBy, files_of};
    ghost use Rattle.directory_input.specs.Going.{no_reads, more_reads, files_later};

    ghost view = { λ m. files_of m };

    ghost goes_by = { λ rs x y. GoesBy rs x y };

    ghost by_none = { λ x. no_reads x };

    ghost by_more = { λ rs ss x y z h k. more_reads rs ss x y z h k };

    ghost later = { λ rs x y h. files_later rs x y h };

    fn len(&self, file: u32) -> u64 {
        self.files[file as usize].bytes.len() as u64
    }

    fn read(&mut self, file: u32, at: u64, out: &mut [u8]) -> Result<(), BytesError> {
        self.reads = self.reads.saturating_add(1);
        if is_failing(&self.failing, self.reads) {
            self.faults = self.faults.saturating_add(1);
            return Err(BytesError::Fault);
        }
        let bytes = &self.files[file as usize].bytes;
        let from = at as usize;
        out.copy_from_slice(&bytes[from..from + out.len()]);
        Ok(())
    }
}
