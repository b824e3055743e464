//! Defines the errors of a table of constants.

use std::alloc::{AllocError, AllocFailed};

/// The reason why a pool has no table of constants.
#[derive(Clone, Copy, Debug, Drop, PartialEq, Eq)]
pub enum TableError {
    /// More than 2^32 different constants, whose indices do not fit into 32 bits.
    TooManyConstants,
    /// A refused growth.
    NoMemory,
}

impl From<AllocError> for TableError {
    ghost use Rattle.std.specs.Prelude.{◌≡◌};
    ghost use Rattle.jt_constants.specs.declared.error.TableError.TheVariants.{NoMemory};

    ghost from_gives = { λ _ e. e ≡ NoMemory };

    fn from(_e: AllocError) -> TableError {
        TableError::NoMemory
    }
}

impl<T: Drop> From<AllocFailed<T>> for TableError {
    ghost use Rattle.std.specs.Prelude.{◌≡◌};
    ghost use Rattle.jt_constants.specs.declared.error.TableError.TheVariants.{NoMemory};

    ghost from_gives = { λ _ e. e ≡ NoMemory };

    fn from(_e: AllocFailed<T>) -> TableError {
        TableError::NoMemory
    }
}
