//! Applies limits to results that are measured before they are built.
ghost use Rattle.std.specs.Prelude.{◌≡◌, Result, Err, OnOk, IfErr};
ghost use Rattle.jt_value.specs.Tree.{Tree};
ghost use Rattle.jt_value.specs.declared.fault.Fault.{Fault};
ghost use Rattle.jt_ops.specs.declared.limits.Limits.{Limits};
ghost use Rattle.jt_ops.specs.Limited.{limited_by, of_value_error, Answers};
ghost use Rattle.jt_filters.specs.internal.Operands.{Builds, HasPayload, OfMeasured, IsAllowed};

use jt_ops::{Limits, OpError, allow};
use jt_value::{Fault, Value, ValueError};

/// Tests a result with this measure. Returns its fault, or the limit that it exceeds.
pub(crate) fn allow_measured(
    measure: Result<(u64, u32), Fault>,
    limits: Limits,
) -> Result<(), OpError>
    ensures ok { OnOk result (OfMeasured measure (IsAllowed limits)) }
    ensures refused { IfErr result
        (λ e. OfMeasured measure (λ wanted. Answers (Err e) (limited_by limits wanted))) }
{
    match measure {
        Ok(found) => allow(found.0, found.1, limits),
        Err(fault) => Err(OpError::Fault(fault)),
    }
}

/// Returns the error of a result with this measure if memory for it is refused: its fault, the
/// limit that it exceeds, else `NoMemory`.
pub(crate) fn refusal(measure: Result<(u64, u32), Fault>, limits: Limits) -> OpError
    ensures { OfMeasured measure
        (λ wanted. HasPayload wanted → Answers (Err result) (limited_by limits wanted)) }
{
    match allow_measured(measure, limits) {
        Ok(()) => OpError::NoMemory,
        Err(error) => error,
    }
}

/// Returns what was built after its measure was allowed.
pub(crate) fn built(made: Result<Value, ValueError>) -> Result<Value, OpError>
    ensures { (limits : Limits) (wanted : Result Tree Fault)
        → IsAllowed limits wanted
        → Builds wanted made
        → Answers result (limited_by limits wanted) }
{
    match made {
        Ok(value) => Ok(value),
        Err(error) => Err(error_of(error)),
    }
}

/// Converts the error of a call on values.
fn error_of(error: ValueError) -> OpError
    ensures { result ≡ of_value_error error }
{
    match error {
        ValueError::Fault(fault) => OpError::Fault(fault),
        ValueError::NoMemory => OpError::NoMemory,
    }
}
