//! Defines the errors of the static rules.

ghost use Rattle.std.specs.Prelude.{◌≡◌};
ghost use Rattle.jt_rules.specs.declared.error.ScopeError.TheVariants.{NoMemory};

use jt_value::NoMemory;
use std::alloc::AllocError;
use thiserror::Error;

/// The reason for which a template is not resolved: a broken rule, or lack of memory.
#[derive(Clone, Copy, Debug, Drop, Error, PartialEq, Eq)]
pub enum ScopeError {
    /// A misuse of `loop`: a read by itself, a binding, a wrong call, a missing field, or a field
    /// that is read outside a loop.
    #[error("V1 LoopOutside")]
    LoopOutside,
    /// A macro or a library that is read as a value, or whose name is bound.
    #[error("V2 MacroAsValue")]
    MacroAsValue,
    /// A read by itself or a binding of `self`, `super` or `range`, or a call without a valid
    /// callee.
    #[error("V3 NotCallable")]
    NotCallable,
    /// Arguments that a call, a filter or a test does not take, or a parameter that a macro has
    /// twice.
    #[error("V4 BadArguments")]
    BadArguments,
    /// Too many parameters of a macro, names that a template binds, or names of the chains.
    #[error("V5 TooManySlots")]
    TooManySlots,
    /// A growth that was refused.
    #[error("V6 NoMemory")]
    NoMemory,
}

impl From<AllocError> for ScopeError {
    ghost from_gives = { λ _ e. e ≡ NoMemory };

    fn from(_e: AllocError) -> ScopeError {
        ScopeError::NoMemory
    }
}

impl From<NoMemory> for ScopeError {
    ghost from_gives = { λ _ e. e ≡ NoMemory };

    fn from(_e: NoMemory) -> ScopeError {
        ScopeError::NoMemory
    }
}
