//! Defines the errors of the expression parser.

use std::alloc::{AllocError, AllocFailed};

/// The reason why tokens are no expression. The caller reports it with the line of the tag.
#[derive(Clone, Copy, Debug, Drop, PartialEq, Eq)]
pub enum ExprError {
    /// Tokens that spell no tree.
    Syntax,
    /// Tokens that spell only trees with too many levels.
    TooDeep,
    /// A refused growth.
    NoMemory,
}

impl From<AllocError> for ExprError {
    ghost use Rattle.std.specs.Prelude.{◌≡◌};
    ghost use Rattle.jt_expr.specs.declared.error.ExprError.TheVariants.{NoMemory};

    ghost from_gives = { λ _ e. e ≡ NoMemory };

    fn from(_e: AllocError) -> ExprError {
        ExprError::NoMemory
    }
}

impl<T: Drop> From<AllocFailed<T>> for ExprError {
    ghost use Rattle.std.specs.Prelude.{◌≡◌};
    ghost use Rattle.jt_expr.specs.declared.error.ExprError.TheVariants.{NoMemory};

    ghost from_gives = { λ _ e. e ≡ NoMemory };

    fn from(_e: AllocFailed<T>) -> ExprError {
        ExprError::NoMemory
    }
}
