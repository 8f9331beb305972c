// Why a text is no script, and why a line is none.
ghost use Rattle.std.specs.Prelude.{◌≡◌};
ghost use Rattle.mount_script.specs.declared.error.ScriptError.TheVariants.{NoMemory};
ghost use Rattle.mount_script.specs.declared.error.Misread.TheVariants as misread;

use std::alloc::{AllocError, AllocFailed};
use thiserror::Error;

/// The first thing for which a text is no script, in the order of `Script::read`.
#[derive(Clone, Copy, Debug, PartialEq, Eq, Error)]
pub enum ScriptError {
    /// It has more than 1,048,576 bytes or 65,535 lines.
    #[error("the script is too long")]
    TooLong,
    /// The line with this number, from 1, is the first that is out of form.
    #[error("a line of the script is out of form")]
    BadLine { line: u32 },
    /// Memory was wanted.
    #[error("no memory")]
    NoMemory,
}

impl From<AllocError> for ScriptError {
    ghost from_gives = { λ _ e. e ≡ NoMemory };

    fn from(_: AllocError) -> Self {
        ScriptError::NoMemory
    }
}

impl<T: Drop> From<AllocFailed<T>> for ScriptError {
    ghost from_gives = { λ _ e. e ≡ NoMemory };

    fn from(_: AllocFailed<T>) -> Self {
        ScriptError::NoMemory
    }
}

/// Why the words of a line were not read.
#[derive(Debug, Drop)]
pub(crate) enum Misread {
    /// They are out of form.
    Form,
    /// Memory was wanted.
    NoMemory,
}

impl From<AllocError> for Misread {
    ghost from_gives = { λ _ e. e ≡ misread.NoMemory };

    fn from(_: AllocError) -> Self {
        Misread::NoMemory
    }
}
