//! Defines the limits of results, and the errors of operations.
ghost use Rattle.std.specs.Prelude.{◌≡◌, true, Result, Ok, Err, OnOk, IfOk, IfErr};
ghost use Rattle.jt_value.specs.Payload.{has_payload};
ghost use Rattle.jt_value.specs.Tree.{Tree};
ghost use Rattle.jt_value.specs.View.{view};
ghost use Rattle.jt_ops.specs.declared.limits.OpError.{OpError};
ghost use Rattle.jt_ops.specs.declared.limits.OpError.TheVariants as error;
ghost use Rattle.jt_op_semantics.specs.Arithmetic.{as_number};
ghost use Rattle.jt_ops.specs.Limited.{limited_by, of_value_error, Answers, OfMeasure};
ghost use Rattle.jt_op_semantics.specs.Operation.{as_truth};

use jt_value::{Fault, NoMemory, Value, ValueError};
use std::alloc::{AllocError, AllocFailed, Global};
use thiserror::Error;

/// The greatest size and nesting that a result may have.
#[derive(Clone, Copy, Debug, PartialEq, Eq)]
pub struct Limits {
    pub size: u32,
    pub nesting: u8,
}

/// The error of an operation. A fault prints as it does alone.
#[derive(Clone, Copy, Debug, PartialEq, Eq, Error)]
pub enum OpError {
    /// The fault that the operation has, whatever the limits.
    #[error("{0}")]
    Fault(Fault),
    /// A result whose size exceeds the limit.
    #[error("too large")]
    TooLarge,
    /// A result whose nesting exceeds the limit, but not its size.
    #[error("too deep")]
    TooDeep,
    /// A growth that was refused.
    #[error("no memory")]
    NoMemory,
}

impl From<Fault> for OpError {
    ghost from_gives = { λ fault e. e ≡ error.Fault fault };

    fn from(fault: Fault) -> OpError {
        OpError::Fault(fault)
    }
}

impl From<NoMemory> for OpError {
    ghost from_gives = { λ _ e. e ≡ error.NoMemory };

    fn from(_e: NoMemory) -> OpError {
        OpError::NoMemory
    }
}

impl From<ValueError> for OpError {
    ghost from_gives = { λ error e. e ≡ of_value_error error };

    fn from(error: ValueError) -> OpError {
        match error {
            ValueError::Fault(fault) => OpError::Fault(fault),
            ValueError::NoMemory => OpError::NoMemory,
        }
    }
}

impl From<AllocError> for OpError {
    ghost from_gives = { λ _ e. e ≡ error.NoMemory };

    fn from(_e: AllocError) -> OpError {
        OpError::NoMemory
    }
}

impl<T: Drop> From<AllocFailed<T>> for OpError {
    ghost from_gives = { λ _ e. e ≡ error.NoMemory };

    fn from(_e: AllocFailed<T>) -> OpError {
        OpError::NoMemory
    }
}

/// Tests the size and nesting of a result, which need not be built yet. Each of the two is the
/// greatest number of its type if the true one exceeds it.
///
/// # Errors
///
/// - `TooLarge` if the size exceeds its limit.
/// - `TooDeep` if only the nesting exceeds its limit.
pub fn allow(size: u64, nesting: u32, limits: Limits) -> Result<(), OpError>
    ensures ok { OfMeasure size nesting (λ t. OnOk result (limited_by limits (Ok t) ≡ Ok t)) }
    ensures refused { OfMeasure size nesting
        (λ t. IfErr result (λ e. limited_by limits (Ok t) ≡ Err e)) }
{
    if size > u64::from(limits.size) {
        return Err(OpError::TooLarge);
    }
    if nesting > u32::from(limits.nesting) {
        return Err(OpError::TooDeep);
    }
    Ok(())
}

/// Returns a value that already exists, under limits.
///
/// # Errors
///
/// `TooLarge` and `TooDeep` as for `allow`.
pub fn within(value: Value, limits: Limits) -> Result<Value, OpError>
    ensures { Answers result (limited_by limits (Ok (view value))) }
{
    allow(value.size(), value.nesting(), limits)?;
    Ok(value)
}

/// Converts the error of a value that was built after its size and nesting were allowed.
pub(crate) fn made(built: Result<Value, NoMemory>) -> Result<Value, OpError>
    ensures { (wanted : Result Tree OpError) → (t : Tree)
        → wanted ≡ Ok t
        → has_payload t ≡ true
        → IfOk built (λ v. view v ≡ t)
        → Answers result wanted }
{
    Ok(built?)
}

/// Returns a copy of a value, under limits.
///
/// # Errors
///
/// - `TooLarge` and `TooDeep` as for `allow`.
/// - `NoMemory` if a growth is refused.
pub fn copy_within(alloc: Global, value: &Value, limits: Limits) -> Result<Value, OpError>
    ensures { Answers result (limited_by limits (Ok (view value.now))) }
{
    allow(value.size(), value.nesting(), limits)?;
    Ok(value.try_clone(alloc)?)
}

/// Returns a computed number as a value, under limits.
pub(crate) fn number_within(computed: Result<i64, Fault>, limits: Limits) -> Result<Value, OpError>
    ensures { Answers result (limited_by limits (as_number computed)) }
{
    within(Value::Int(computed?), limits)
}

/// Returns a computed truth value as a value, under limits.
pub(crate) fn truth_within(computed: Result<bool, Fault>, limits: Limits) -> Result<Value, OpError>
    ensures { Answers result (limited_by limits (as_truth computed)) }
{
    within(Value::Bool(computed?), limits)
}
