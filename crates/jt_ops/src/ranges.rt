//! Builds the lists of numbers of `range`. Their numbers are not stored.
ghost use Rattle.std.specs.Prelude.{◌≤◌, ◌∷◌, [], map, length};
ghost use Rattle.jt_value.specs.ListItems.{numbers_of};
ghost use Rattle.jt_value.specs.Tree as tree;
ghost use Rattle.jt_value.specs.View.{view};
ghost use Rattle.jt_ops.specs.Limited.{limited_by, Answers, AnswersWith};
ghost use Rattle.jt_op_semantics.specs.Ranges.{ranged, numbers_between};

use crate::limits::{Limits, OpError, allow, made};
use crate::operands::{operand_fault, operand_fault_of_one, operand_fault_of_three};
use jt_value::{Fault, NumberRange, Value};
use std::alloc::Global;

/// Returns the list of the numbers from a start by a step, up to but not including a stop.
///
/// `values` holds the stop; the start and the stop; or the start, the stop and the step. The start
/// defaults to 0 and the step to 1.
///
/// # Errors
///
/// - `Undefined` or `BadType` if a value is not a number.
/// - `Range` if the step is 0.
/// - `TooLarge` or `TooDeep` if the list exceeds the limits. It is then not built.
/// - `NoMemory` if a growth is refused.
pub fn range(alloc: Global, values: &[Value], limits: Limits) -> Result<Value, OpError>
    requires some { 1 ≤ length values.now }
    requires few { length values.now ≤ 3 }
    ensures { Answers result (limited_by limits (ranged (map view values.now))) }
{
    match values {
        [stop] => range_to(alloc, stop, limits),
        [start, stop] => range_from(alloc, start, stop, limits),
        [start, stop, step] => range_by(alloc, start, stop, step, limits),
        _ => unreachable!(),
    }
}

/// Returns the list of the numbers from 0 to before `stop`.
pub(crate) fn range_to(alloc: Global, stop: &Value, limits: Limits) -> Result<Value, OpError>
    ensures { Answers result (limited_by limits (ranged (view stop.now ∷ []))) }
{
    match stop {
        Value::Int(stop) => numbers(alloc, 0, *stop, 1, limits),
        _ => Err(operand_fault_of_one(stop).into()),
    }
}

/// Returns the list of the numbers from `start` to before `stop`.
pub(crate) fn range_from(
    alloc: Global,
    start: &Value,
    stop: &Value,
    limits: Limits,
) -> Result<Value, OpError>
    ensures { Answers result (limited_by limits (ranged (view start.now ∷ view stop.now ∷ []))) }
{
    match (start, stop) {
        (Value::Int(start), Value::Int(stop)) => numbers(alloc, *start, *stop, 1, limits),
        _ => Err(operand_fault(start, stop).into()),
    }
}

/// Returns the list of the numbers from `start` by `step` to before `stop`.
fn range_by(
    alloc: Global,
    start: &Value,
    stop: &Value,
    step: &Value,
    limits: Limits,
) -> Result<Value, OpError>
    ensures { Answers result
        (limited_by limits (ranged (view start.now ∷ view stop.now ∷ view step.now ∷ []))) }
{
    match (start, stop, step) {
        (Value::Int(start), Value::Int(stop), Value::Int(step)) => {
            numbers(alloc, *start, *stop, *step, limits)
        }
        _ => Err(operand_fault_of_three(start, stop, step).into()),
    }
}

/// Returns the list of the numbers from `start` by `step` to before `stop`, or `Range` for the step
/// 0.
fn numbers(
    alloc: Global,
    start: i64,
    stop: i64,
    step: i64,
    limits: Limits,
) -> Result<Value, OpError>
    ensures { Answers result (limited_by limits (numbers_between start stop step)) }
{
    match NumberRange::new(start, stop, step) {
        Some(numbers) => list_of(alloc, numbers, limits),
        None => Err(Fault::Range.into()),
    }
}

/// Returns the list of the numbers of a range. Tests its size and nesting first. No number is
/// stored.
fn list_of(alloc: Global, numbers: NumberRange, limits: Limits) -> Result<Value, OpError>
    ensures { AnswersWith limits (tree.list (numbers_of numbers)) result }
{
    let count = numbers.len() as u64;
    allow(count.saturating_add(1), 1, limits)?;
    made(Value::range(alloc, numbers))
}
