// Why a text is no query.
ghost use Rattle.std.specs.Prelude.{◌≡◌};
ghost use Rattle.query_lang.specs.declared.error.QueryError.TheVariants.{NoMemory};

use std::alloc::{AllocError, AllocFailed};
use thiserror::Error;

/// The first thing for which a text is no query, in the order of `Query::read`.
#[derive(Clone, Copy, Debug, PartialEq, Eq, Error)]
pub enum QueryError {
    /// The text is no JSON value.
    #[error("the query is no JSON")]
    NotJson,
    /// The value is in none of the forms of a query.
    #[error("the query is in none of the forms")]
    Shape,
    /// Its `bool` queries nest more than 32 deep.
    #[error("the query nests too deep")]
    Depth,
    /// Memory was wanted.
    #[error("no memory")]
    NoMemory,
}

impl From<AllocError> for QueryError {
    ghost from_gives = { λ _ e. e ≡ NoMemory };

    fn from(_: AllocError) -> Self {
        QueryError::NoMemory
    }
}

impl<T: Drop> From<AllocFailed<T>> for QueryError {
    ghost from_gives = { λ _ e. e ≡ NoMemory };

    fn from(_: AllocFailed<T>) -> Self {
        QueryError::NoMemory
    }
}
