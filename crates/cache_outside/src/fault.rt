// Why a call of the outside was refused, and the count of failures that each adapter keeps.
ghost use Rattle.std.specs.Prelude.{◌≡◌, ◌≤◌};
ghost use Rattle.byte_text.specs.Counts.{Rose};
ghost use Rattle.cache_outside.specs.declared.fault.OutError.TheVariants.{NoMemory};

use std::alloc::{AllocError, AllocFailed};

/// Why a source or a sink refused a call.
#[derive(Clone, Copy, Debug, PartialEq, Eq)]
pub enum OutError {
    /// The thing outside failed, and the object counted it.
    Failed,
    /// Memory was wanting.
    NoMemory,
}

impl From<AllocError> for OutError {
    ghost from_gives = { λ _ e. e ≡ NoMemory };

    fn from(_: AllocError) -> Self {
        OutError::NoMemory
    }
}

impl<T: Drop> From<AllocFailed<T>> for OutError {
    ghost from_gives = { λ _ e. e ≡ NoMemory };

    fn from(_: AllocFailed<T>) -> Self {
        OutError::NoMemory
    }
}

/// Counts one failure more. The count stands still at its last value.
pub(crate) fn fail(faults: &mut u64) -> OutError
    ensures failed { result ≡ OutError.Failed }
    ensures rose { Rose faults.old faults.new }
    ensures later { faults.old ≤ faults.new }
{
    *faults = faults.saturating_add(1);
    OutError::Failed
}
