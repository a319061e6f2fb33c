//! Why a row cannot be spelled.
ghost use Rattle.std.specs.Prelude.{◌≡◌};

use std::alloc::AllocError;

/// Why rows could not be spelled.
#[derive(Debug, Drop)]
pub enum RowError {
    NoMemory,
    /// A change passes the header segment's end.
    Outside,
    /// Text that names no bytes, or no number.
    Digits,
    /// A word that is none, or that stands where it has no meaning.
    Word,
}

impl From<AllocError> for RowError {
    ghost use Rattle.test_connections.specs.declared.row_error.RowError.{RowError};

    ghost from_gives = { λ e r. r ≡ RowError.NoMemory };

    fn from(_error: AllocError) -> Self {
        RowError::NoMemory
    }
}
