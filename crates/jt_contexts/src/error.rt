//! Defines the errors of reading a context.

use jt_value::NoMemory;
use std::alloc::{AllocError, AllocFailed};
use thiserror::Error;

/// The reason why a text spells no context. It prints as its code and its name.
#[derive(Clone, Copy, Debug, PartialEq, Eq, Error)]
pub enum ContextError {
    /// A text that is not JSON.
    #[error("X1 NotJson")]
    NotJson,
    /// JSON that is not an object.
    #[error("X2 NotObject")]
    NotObject,
    /// A number that is not whole.
    #[error("X3 NotWhole")]
    NotWhole,
    /// A number from 2^63 to 2^64 - 1.
    #[error("X4 OutOfRange")]
    OutOfRange,
    /// A refused growth.
    #[error("X5 NoMemory")]
    NoMemory,
}

impl From<NoMemory> for ContextError {
    ghost use Rattle.std.specs.Prelude.{◌≡◌};
    ghost use Rattle.jt_contexts.specs.declared.error.ContextError.TheVariants as error;

    ghost from_gives = { λ _ e. e ≡ error.NoMemory };

    fn from(_refused: NoMemory) -> ContextError {
        ContextError::NoMemory
    }
}

impl From<AllocError> for ContextError {
    ghost use Rattle.std.specs.Prelude.{◌≡◌};
    ghost use Rattle.jt_contexts.specs.declared.error.ContextError.TheVariants as error;

    ghost from_gives = { λ _ e. e ≡ error.NoMemory };

    fn from(_refused: AllocError) -> ContextError {
        ContextError::NoMemory
    }
}

impl<T: Drop> From<AllocFailed<T>> for ContextError {
    ghost use Rattle.std.specs.Prelude.{◌≡◌};
    ghost use Rattle.jt_contexts.specs.declared.error.ContextError.TheVariants as error;

    ghost from_gives = { λ _ e. e ≡ error.NoMemory };

    fn from(_refused: AllocFailed<T>) -> ContextError {
        ContextError::NoMemory
    }
}
