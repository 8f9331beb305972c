// The bytes of a table's files, read from the source without a cache.
ghost use Rattle.std.specs.Prelude.{◌≡◌, false};

use crate::{FetchError, PartTable, read_into};
use cache_outside::{Archive, BlobSource};
use directory_input::{BytesError, FileBytes};

impl From<FetchError> for BytesError {
    ghost use Rattle.blob_parts.specs.Errors.{bytes_error};

    ghost from_gives = { λ from e. e ≡ bytes_error from };

    fn from(error: FetchError) -> Self {
        match error {
            FetchError::Fault => BytesError::Fault,
            FetchError::NoMemory => BytesError::NoMemory,
        }
    }
}

/// The files of a table, read from a source with no cache between. It holds both for as long as it lives. A read of
/// it never answers that the mount is gone.
#[derive(Drop)]
pub struct DirectBytes<'a, A: Archive, S: BlobSource<A>> {
    source: &'a mut S,
    table: &'a PartTable<A>,
    /// A read was refused for want of memory.
    out_of_memory: bool,
}

impl<'a, A: Archive, S: BlobSource<A>> DirectBytes<'a, A, S> {
    /// The files of this table, over this source.
    pub fn new(source: &'a mut S, table: &'a PartTable<A>) -> DirectBytes<'a, A, S>
        ensures same_source { result.source.ghost_name ≡ source.entry.ghost_name }
        ensures source { result.source.now ≡ source.old }
        ensures table { result.table ≡ table.entry }
        ensures unmarked { result.out_of_memory ≡ false }
    {
        DirectBytes {
            source,
            table,
            out_of_memory: false,
        }
    }
}

impl<'a, A: Archive, S: BlobSource<A>> FileBytes for DirectBytes<'a, A, S> {
    ghost use Rattle.std.proofs.Common.{refl, ap, ◌∙◌};
    ghost use Rattle.directory_input.specs.Reads.{Read};
    ghost use Rattle.blob_parts.specs.Going.{ReadsOn, files_view};
    ghost use Rattle.blob_parts.specs.Reading.{no_reads, more_of_same, files_later};

    ghost view = { λ d. files_view A.tells A.blobs d.table.now (S.view d.source.now) d.out_of_memory };

    ghost goes_by = { λ rs x y. (y.source.ghost_name ≡ x.source.ghost_name) × (y.table ≡ x.table)
        × ReadsOn A.tells A.blobs x.table.now rs x.out_of_memory y.out_of_memory
        (S.view x.source.now) (S.view y.source.now) };

    ghost by_none = { λ x. (refl, refl, no_reads A.tells A.blobs x.table.now x.out_of_memory (S.view x.source.now)) };

    ghost by_more = { λ rs ss x y z h k. (
      k.0 ∙ h.0,
      k.1 ∙ h.1,
      more_of_same A.tells A.blobs x.table.now y.table.now rs ss x.out_of_memory y.out_of_memory z.out_of_memory
          (S.view x.source.now) (S.view y.source.now) (S.view z.source.now)
          (ap (λ t. t.now) h.1) h.2 k.2,
    ) };

    ghost later = { λ rs x y h. files_later A.tells A.blobs x.table.now y.table.now rs x.out_of_memory y.out_of_memory
        (S.view x.source.now) (S.view y.source.now) (ap (λ t. t.now) h.1) h.2 };

    fn len(&self, file: u32) -> u64 {
        self.table.length(file)
    }

    fn read(&mut self, file: u32, at: u64, out: &mut [u8]) -> Result<(), BytesError> {
        match read_into(self.source, self.table, file, at, out) {
            Ok(()) => Ok(()),
            Err(FetchError::Fault) => Err(BytesError::Fault),
            Err(FetchError::NoMemory) => {
                self.out_of_memory = true;
                Err(BytesError::NoMemory)
            }
        }
    }
}
