//! Applies operators of one and two operands.
ghost use Rattle.std.specs.Prelude.{◌≡◌, ◌∷◌, []};
ghost use Rattle.jt_value.specs.View.{view};
ghost use Rattle.jt_ops.specs.Limited.{limited_by, Answers};
ghost use Rattle.jt_op_semantics.specs.Operation.{operation};
ghost use Rattle.jt_ids.specs.OpTable.{op_operands};

use crate::arithmetic::{floor_divide, modulo, negate, plus, raise, subtract};
use crate::comparing::{greater, greater_or_equal, less, less_or_equal};
use crate::item::item;
use crate::joining::{add, add_owned, join, join_escaping, multiply};
use crate::limits::{Limits, OpError, number_within, truth_within, within};
use crate::membership::is_in;
use crate::ranges::{range_from, range_to};
use jt_ids::OpId;
use jt_value::Value;
use std::alloc::Global;

/// Applies an operator of two operands, under limits. Both limits are tested before the result is
/// built.
///
/// # Errors
///
/// - The fault of the operation.
/// - `TooLarge` if the result's size exceeds its limit.
/// - `TooDeep` if only its nesting exceeds its limit.
/// - `NoMemory` if a growth is refused.
pub fn binary(
    alloc: Global,
    op: OpId,
    left: &Value,
    right: &Value,
    limits: Limits,
) -> Result<Value, OpError>
    requires { op_operands op ≡ 2 }
    ensures { Answers result
        (limited_by limits (operation op (view left.now ∷ view right.now ∷ []))) }
{
    match op {
        OpId::Add => add(alloc, left, right, limits),
        OpId::Subtract => number_within(subtract(left, right), limits),
        OpId::Multiply => multiply(alloc, left, right, limits),
        OpId::FloorDivide => number_within(floor_divide(left, right), limits),
        OpId::Remainder => number_within(modulo(left, right), limits),
        OpId::Power => number_within(raise(left, right), limits),
        OpId::Join => join(alloc, left, right, limits),
        OpId::JoinEscaping => join_escaping(alloc, left, right, limits),
        OpId::Equal => within(Value::Bool(left.equals(right)), limits),
        OpId::NotEqual => within(Value::Bool(!left.equals(right)), limits),
        OpId::Less => truth_within(less(left, right), limits),
        OpId::LessOrEqual => truth_within(less_or_equal(left, right), limits),
        OpId::Greater => truth_within(greater(left, right), limits),
        OpId::GreaterOrEqual => truth_within(greater_or_equal(left, right), limits),
        OpId::In => truth_within(is_in(left, right), limits),
        OpId::Item => item(alloc, left, right, limits),
        OpId::RangeFromStart => range_from(alloc, left, right, limits),
        _ => unreachable!(),
    }
}

/// Applies an operator as `binary` to operands that it consumes. The sum of two lists is built in
/// the left one, unless another value shares it.
///
/// # Errors
///
/// The errors of `binary`. The operands are dropped in every case.
pub fn binary_owned(
    alloc: Global,
    op: OpId,
    left: Value,
    right: Value,
    limits: Limits,
) -> Result<Value, OpError>
    requires { op_operands op ≡ 2 }
    ensures { Answers result (limited_by limits (operation op (view left ∷ view right ∷ []))) }
{
    match op {
        OpId::Add => add_owned(alloc, left, right, limits),
        _ => binary_lent(alloc, op, left, right, limits),
    }
}

/// Applies an operator as `binary`, and drops the operands.
fn binary_lent(
    alloc: Global,
    op: OpId,
    left: Value,
    right: Value,
    limits: Limits,
) -> Result<Value, OpError>
    requires { op_operands op ≡ 2 }
    ensures { Answers result (limited_by limits (operation op (view left ∷ view right ∷ []))) }
{
    binary(alloc, op, &left, &right, limits)
}

/// Applies an operator of one operand, under limits.
///
/// # Errors
///
/// The errors of `binary`.
pub fn unary(alloc: Global, op: OpId, operand: &Value, limits: Limits) -> Result<Value, OpError>
    requires { op_operands op ≡ 1 }
    ensures { Answers result (limited_by limits (operation op (view operand.now ∷ []))) }
{
    match op {
        OpId::Negate => number_within(negate(operand), limits),
        OpId::Plus => number_within(plus(operand), limits),
        OpId::Not => within(Value::Bool(!operand.truth()), limits),
        OpId::RangeToStop => range_to(alloc, operand, limits),
        _ => unreachable!(),
    }
}
