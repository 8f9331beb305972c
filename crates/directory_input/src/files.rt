// What gives the bytes of numbered files: a cache, an archive's blobs, or a list in memory.
ghost use Rattle.std.specs.Prelude.{◌≡◌, ◌<◌, ◌≤◌, ◌+◌, ◌++◌, List, [], IsTrue, OnOk, length};
ghost use Rattle.directory_input.specs.Reads.{Read, one_read, slice_of};
ghost use Rattle.directory_input.specs.Files.{FilesView, FilesLater};
ghost use Rattle.directory_input.specs.Causes.{HasReadCause, refusal};

/// Why bytes were not given.
#[derive(Clone, Copy, Debug, PartialEq, Eq)]
pub enum BytesError {
    /// What stands below failed; its count of faults rose.
    Fault,
    /// The mount, given by its number, was unmounted while it was read.
    Gone { mount: u32 },
    /// There was no memory.
    NoMemory,
}

/// The bytes of files that have the numbers from 0 on. Nothing that a caller does changes which files there are,
/// their lengths or their bytes.
pub trait FileBytes {
    /// What clauses see of the files: their number, lengths (in bytes) and, where they are told, bytes; the number of
    /// the mount whose files they are; how many faults there were so far, a count that stops at the last value of a
    /// u64; whether that mount was seen gone; and whether a read was refused for want of memory.
    ghost view: { Self → FilesView };

    /// The later state comes from the earlier one of the same object by these reads, in this order. A type defines
    /// it by what its own `read` ensures, read after read: facts that add up over a list of reads, such as what was
    /// taken and stored, how far counts rose, and which marks were raised. Each thing lent to the object (a source,
    /// a table, a door) is named in it as the same one, `now.source.ghost_name ≡ before.source.ghost_name`, so that
    /// a lender learns from it what became of the thing that was lent.
    ghost goes_by: { List Read → Self → Self → Type 0 };

    /// The length of a file, in bytes.
    fn len(&self, file: u32) -> u64
        requires { file < (view self.now).count }
        ensures length { result ≡ (view self.now).lengths file }
        ensures whole { IsTrue (view self.now).tells → length ((view self.now).bytes file) ≡ result };

    /// Fills `out` with the file's bytes from the place `at` on. After a refusal `out` may hold anything. `Fault`
    /// comes only where the count of faults rose, `Gone` only with the number of this mount, which was seen gone, and
    /// `NoMemory` only where the mark for want of memory is raised.
    fn read(&mut self, file: u32, at: u64, out: &mut [u8]) -> Result<(), BytesError>
        requires file { file < (view self.old).count }
        requires inside { at + length out.old ≤ (view self.old).lengths file }
        ensures bytes { IsTrue (view self.old).tells
            → OnOk result (out.new ≡ slice_of at (length out.old) ((view self.old).bytes file)) }
        ensures goes { goes_by (one_read file at (length out.old)) self.old self.new }
        ensures cause { HasReadCause (view self.old) (view self.new) (refusal result) };

    ghost by_none: { (x : Self) → goes_by [] x x };

    ghost by_more: { (rs ss : List Read) (x y z : Self) → goes_by rs x y → goes_by ss y z → goes_by (rs ++ ss) x z };

    /// No read changes the files, and none lowers a count or a mark.
    ghost later: { (rs : List Read) (x y : Self) → goes_by rs x y → FilesLater (view x) (view y) };
}
