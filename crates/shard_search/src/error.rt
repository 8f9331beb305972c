// Why a search or a fetch was refused.
ghost use Rattle.std.specs.Prelude.{◌≡◌};
ghost use Rattle.shard_search.specs.Answers.{refused_in};

use directory_input::BytesError;
use std::alloc::{AllocError, AllocFailed};
use text_lines::TextError;

/// Why a search or a fetch was refused.
#[derive(Clone, Copy, Debug, PartialEq, Eq)]
pub enum SearchError {
    /// The text of this file of the manifest has a line that is not allowed. `at` is where the first such line begins,
    /// in bytes from the start of the file.
    Bad { file: u32, at: u64 },
    /// What gives the bytes refused, or there was no memory.
    Bytes(BytesError),
}

impl From<AllocError> for SearchError {
    ghost use Rattle.shard_search.specs.declared.error.SearchError.TheVariants.{Bytes};
    ghost use Rattle.directory_input.specs.declared.files.BytesError.TheVariants.{NoMemory};

    ghost from_gives = { λ _ e. e ≡ Bytes NoMemory };

    fn from(_: AllocError) -> Self {
        SearchError::Bytes(BytesError::NoMemory)
    }
}

impl<T: Drop> From<AllocFailed<T>> for SearchError {
    ghost use Rattle.shard_search.specs.declared.error.SearchError.TheVariants.{Bytes};
    ghost use Rattle.directory_input.specs.declared.files.BytesError.TheVariants.{NoMemory};

    ghost from_gives = { λ _ e. e ≡ Bytes NoMemory };

    fn from(_: AllocFailed<T>) -> Self {
        SearchError::Bytes(BytesError::NoMemory)
    }
}

/// The refusal of the text of this file.
pub(crate) fn refused_in(file: u32, error: TextError) -> SearchError
    ensures { result ≡ refused_in file error }
{
    match error {
        TextError::Bad { at } => SearchError::Bad { file, at },
        TextError::Bytes(e) => SearchError::Bytes(e),
    }
}
