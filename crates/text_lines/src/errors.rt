// Why a text is not read.
ghost use Rattle.std.specs.Prelude.{◌≡◌};
ghost use Rattle.text_lines.specs.Errors.{text_error};

use crate::reader::LineError;
use directory_input::BytesError;
use std::alloc::AllocError;

/// Why a text of lines is not read.
#[derive(Clone, Copy, Debug, PartialEq, Eq)]
pub enum TextError {
    /// A line breaks the form of the text, or does not end as a line does. `at` is where it begins, in bytes from the
    /// start of the text.
    Bad { at: u64 },
    /// What gives the bytes refused, or there was no memory.
    Bytes(BytesError),
}

impl From<AllocError> for TextError {
    ghost use Rattle.text_lines.specs.declared.errors.TextError.TheVariants.{Bytes};
    ghost use Rattle.directory_input.specs.declared.files.BytesError.TheVariants.{NoMemory};

    ghost from_gives = { λ _ e. e ≡ Bytes NoMemory };

    fn from(_: AllocError) -> Self {
        TextError::Bytes(BytesError::NoMemory)
    }
}

/// A line that does not end, or is too long, breaks the form of its text.
impl From<LineError> for TextError {
    ghost from_gives = { λ line e. e ≡ text_error line };

    fn from(error: LineError) -> Self {
        match error {
            LineError::Unended { at } | LineError::TooLong { at } => TextError::Bad { at },
            LineError::Bytes(e) => TextError::Bytes(e),
        }
    }
}
