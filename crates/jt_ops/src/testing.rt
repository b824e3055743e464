//! Applies tests to values.
ghost use Rattle.std.specs.Prelude.{◌≡◌, ◌+◌, ◌∷◌, [], ℕ, List, map, length};
ghost use Rattle.jt_value.specs.Tree as tree;
ghost use Rattle.jt_value.specs.View.{view};
ghost use Rattle.jt_ids.specs.TestTable.{test_values};
ghost use Rattle.jt_op_semantics.specs.Testing.{tested};
ghost use Rattle.jt_ops.specs.Limited.{as_answer};
ghost use Rattle.jt_op_semantics.specs.Testing as testing;

use crate::arithmetic::remainder;
use crate::comparing::{compare_text, equals_text, greater, greater_or_equal, less, less_or_equal};
use crate::limits::OpError;
use crate::membership::{is_in, text_is_in};
use crate::operands::{operand_fault, operand_fault_of_one, operand_fault_of_text};
use jt_ids::TestId;
use jt_value::{Fault, Value};
use std::cmp::Ordering;

/// Returns whether a test holds. `values` is the tested value, followed by the test's argument if
/// it takes one.
///
/// # Errors
///
/// The fault of the test. A test has no limits and allocates nothing.
pub fn test(test: TestId, values: &[Value]) -> Result<bool, OpError>
    requires { length values.now ≡ test_values test }
    ensures { result ≡ as_answer (tested test (map view values.now)) }
{
    match values {
        [value, arguments @ ..] => Ok(test_of(test, value, arguments)?),
        _ => unreachable!(),
    }
}

/// Returns whether a test holds of a value. `arguments` has the test's argument if it takes one.
///
/// # Errors
///
/// The fault of the test.
pub fn test_of(test: TestId, value: &Value, arguments: &[Value]) -> Result<bool, Fault>
    requires { length arguments.now + 1 ≡ test_values test }
    ensures { result ≡ tested test (view value.now ∷ map view arguments.now) }
{
    match arguments {
        [] => test_one(test, value),
        [argument] => test_two(test, value, argument),
        _ => unreachable!(),
    }
}

/// Returns whether a test holds of a plain text, with the same result as for a value of that text.
/// `arguments` has the test's argument if it takes one.
///
/// # Errors
///
/// The fault of the test.
pub fn test_of_text(test: TestId, text: &str, arguments: &[Value]) -> Result<bool, Fault>
    requires { length arguments.now + 1 ≡ test_values test }
    ensures { result ≡ tested test (tree.text text.now ∷ map view arguments.now) }
{
    match arguments {
        [] => test_one_of_text(test),
        [argument] => test_two_of_text(test, text, argument),
        _ => unreachable!(),
    }
}

/// Applies a test without an argument to a plain text. The result is the same for every text.
fn test_one_of_text(test: TestId) -> Result<bool, Fault>
    requires { test_values test ≡ 1 }
    ensures { (s : List ℕ) → result ≡ tested test (tree.text s ∷ []) }
{
    match test {
        TestId::Defined | TestId::String => Ok(true),
        TestId::Even | TestId::Odd => Err(Fault::BadType),
        _ => Ok(false),
    }
}

/// Applies a test with an argument to a plain text.
fn test_two_of_text(test: TestId, text: &str, argument: &Value) -> Result<bool, Fault>
    requires { test_values test ≡ 2 }
    ensures { result ≡ tested test (tree.text text.now ∷ view argument.now ∷ []) }
{
    match test {
        TestId::Equal => Ok(equals_text(text, argument)),
        TestId::NotEqual => Ok(!equals_text(text, argument)),
        TestId::In => text_is_in(text, argument),
        TestId::GreaterOrEqual => Ok(compare_text(text, argument)? != Ordering::Less),
        TestId::Greater => Ok(compare_text(text, argument)? == Ordering::Greater),
        TestId::LessOrEqual => Ok(compare_text(text, argument)? != Ordering::Greater),
        TestId::Less => Ok(compare_text(text, argument)? == Ordering::Less),
        _ => Err(operand_fault_of_text(argument)),
    }
}

/// Applies a test without an argument to a value.
fn test_one(test: TestId, value: &Value) -> Result<bool, Fault>
    requires { test_values test ≡ 1 }
    ensures { result ≡ tested test (view value.now ∷ []) }
{
    match test {
        TestId::Boolean => Ok(matches!(value, Value::Bool(_))),
        TestId::Defined => Ok(!matches!(value, Value::Undefined)),
        TestId::Escaped => Ok(matches!(value, Value::Markup(_))),
        TestId::Even => is_even(value),
        TestId::Odd => Ok(!is_even(value)?),
        TestId::False => Ok(matches!(value, Value::Bool(false))),
        TestId::True => Ok(matches!(value, Value::Bool(true))),
        TestId::Integer => Ok(matches!(value, Value::Int(_))),
        TestId::Mapping => Ok(matches!(value, Value::Map(_))),
        TestId::None => Ok(matches!(value, Value::None)),
        TestId::String => Ok(matches!(value, Value::Text(_) | Value::Markup(_))),
        TestId::Undefined => Ok(matches!(value, Value::Undefined)),
        _ => unreachable!(),
    }
}

/// Applies a test with an argument to a value.
fn test_two(test: TestId, value: &Value, argument: &Value) -> Result<bool, Fault>
    requires { test_values test ≡ 2 }
    ensures { result ≡ tested test (view value.now ∷ view argument.now ∷ []) }
{
    match test {
        TestId::DivisibleBy => is_divisible(value, argument),
        TestId::Equal => Ok(value.equals(argument)),
        TestId::NotEqual => Ok(!value.equals(argument)),
        TestId::GreaterOrEqual => greater_or_equal(value, argument),
        TestId::Greater => greater(value, argument),
        TestId::LessOrEqual => less_or_equal(value, argument),
        TestId::Less => less(value, argument),
        TestId::In => is_in(value, argument),
        _ => unreachable!(),
    }
}

/// Returns whether a number is divisible by another one.
fn is_divisible(value: &Value, divisor: &Value) -> Result<bool, Fault>
    ensures { result ≡ testing.is_divisible (view value.now) (view divisor.now) }
{
    match (value, divisor) {
        (Value::Int(x), Value::Int(y)) => is_multiple(*x, *y),
        _ => Err(operand_fault(value, divisor)),
    }
}

/// Returns whether a number is even.
fn is_even(value: &Value) -> Result<bool, Fault>
    ensures { result ≡ testing.is_even (view value.now) }
{
    match value {
        Value::Int(x) => is_multiple(*x, 2),
        _ => Err(operand_fault_of_one(value)),
    }
}

/// Returns whether `x` is a multiple of `y`.
fn is_multiple(x: i64, y: i64) -> Result<bool, Fault>
    ensures { result ≡ testing.is_multiple x y }
{
    Ok(remainder(x, y)? == 0)
}
