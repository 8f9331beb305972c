// An input: a window on one file, and a position in it.
ghost use Rattle.std.specs.Prelude.{◌≡◌, ◌<◌, ◌≤◌, ◌+◌, ℕ, List, IsTrue, OnOk, OnErr, IfOk, IfErr, length};
ghost use Rattle.directory_input.specs.Reads.{slice_of};
ghost use Rattle.directory_input.specs.Files.{FilesView};
ghost use Rattle.directory_input.specs.Causes.{HasReadCause};
ghost use Rattle.directory_input.specs.Windows.{Window, FitsFile, part_of, moved_to, window_bytes, reads_of, input_refusal, IsPastEnd};

use crate::{BytesError, FileBytes};
use std::marker::Model;

/// Why an input did not give what was asked.
#[derive(Clone, Copy, Debug, PartialEq, Eq)]
pub enum InputError {
    /// The range asked passes the input's end. `at` is the place asked, counted in bytes from the input's start, and
    /// `len` the input's length in bytes.
    PastEnd { at: u64, len: u64 },
    /// What gives the bytes refused.
    Bytes(BytesError),
}

/// A window on one file, after Lucene's `IndexInput`: where it begins, how many bytes it has, and a position in it. It
/// keeps numbers alone, so each call that reads is given what has the bytes; that may be another object at each call,
/// as long as it has the same file.
#[derive(Drop)]
pub struct Input {
    file: u32,
    start: u64,
    size: u64,
    position: u64,
}

impl Model for Input {
    ghost Value = { Window };

    ghost view = { λ i. record { file = i.file; start = i.start; size = i.size; position = i.position } };

    ghost invariant = { λ i. (i.start + i.size < 18446744073709551616) × (i.position ≤ i.size) };
}

impl Input {
    /// The whole file, at position 0.
    pub fn open<B: FileBytes>(bytes: &B, file: u32) -> Input
        requires { file < (B.view bytes.now).count }
        ensures whole { result
            ≡ record { file = file; start = 0; size = (B.view bytes.now).lengths file; position = 0 } }
        ensures fits { FitsFile (B.view bytes.now) result }
    {
        Input {
            file,
            start: 0,
            size: bytes.len(file),
            position: 0,
        }
    }

    /// Its length, in bytes.
    pub fn len(&self) -> u64
        ensures { result ≡ self.now.size }
    {
        self.size
    }

    /// How many bytes from its start it stands; at most its length.
    pub fn pos(&self) -> u64
        ensures position { result ≡ self.now.position }
        ensures inside { result ≤ self.now.size }
    {
        let _ = self.size;
        self.position
    }

    /// The `len` bytes from the place `at` of this input on, as an input of their own, at its position 0. `PastEnd`
    /// comes exactly where they pass this input's end.
    pub fn slice(&self, at: u64, len: u64) -> Result<Input, InputError>
        ensures part { IfOk result (λ i. (at + len ≤ self.now.size) × (i ≡ part_of self.now at len)) }
        ensures past { IfErr result (λ e. (self.now.size < at + len) × (e ≡ InputError.PastEnd at self.now.size)) }
        ensures fits { (files : FilesView) → FitsFile files self.now → IfOk result (FitsFile files) }
    {
        if at > self.size || len > self.size - at {
            return Err(InputError::PastEnd { at, len: self.size });
        }
        Ok(Input {
            file: self.file,
            start: self.start + at,
            size: len,
            position: 0,
        })
    }

    /// Moves to the place `at`, counted in bytes from the start; its end is a place too. `PastEnd` comes exactly where
    /// `at` is behind the end, and then the position is as before.
    pub fn seek(&mut self, at: u64) -> Result<(), InputError>
        ensures moved { OnOk result ((at ≤ self.old.size) × (self.new ≡ moved_to at self.old)) }
        ensures past { IfErr result (λ e. (self.old.size < at) × (e ≡ InputError.PastEnd at self.old.size)) }
        ensures stays { OnErr result (self.new ≡ self.old) }
    {
        if at > self.size {
            return Err(InputError::PastEnd { at, len: self.size });
        }
        self.position = at;
        Ok(())
    }

    /// Fills `out` with the bytes at the position, and moves behind them. `PastEnd` comes exactly where they pass the
    /// end of this input, and then nothing is read; else `bytes` is asked once, for these bytes alone. After any
    /// refusal the position is as before, and `out` may hold anything.
    pub fn read<B: FileBytes>(&mut self, bytes: &mut B, out: &mut [u8]) -> Result<(), InputError>
        requires { FitsFile (B.view bytes.old) self.old }
        ensures bytes { IsTrue (B.view bytes.old).tells → OnOk result (out.new
            ≡ slice_of self.old.position (length out.old) (window_bytes (B.view bytes.old).bytes self.old)) }
        ensures moved { OnOk result ((self.old.position + length out.old ≤ self.old.size)
            × (self.new ≡ moved_to (self.old.position + length out.old) self.old)) }
        ensures past { IfErr result (IsPastEnd self.old.position (length out.old) self.old.size) }
        ensures stays { OnErr result (self.new ≡ self.old) }
        ensures goes { B.goes_by (reads_of self.old (length out.old) result) bytes.old bytes.new }
        ensures fits { FitsFile (B.view bytes.new) self.new }
        ensures cause { HasReadCause (B.view bytes.old) (B.view bytes.new) (input_refusal result) }
    {
        if out.len() as u64 > self.size - self.position {
            return Err(InputError::PastEnd {
                at: self.position,
                len: self.size,
            });
        }
        match bytes.read(self.file, self.start + self.position, out) {
            Ok(()) => {
                self.position += out.len() as u64;
                Ok(())
            }
            Err(e) => Err(InputError::Bytes(e)),
        }
    }
}
