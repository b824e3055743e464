//! Implements operators on numbers. A result outside 64 signed bits is an overflow.
ghost use Rattle.std.specs.Prelude.{◌≡◌, ◌≤◌, ◌<◌, ◌≢◌, unsigned_abs, ◌-ℤ◌, ◌*ℤ◌, pos, Ok, IfOk};
ghost use Rattle.std.specs.Prelude.{IfErr};
ghost use Rattle.std.specs.Int.{int_pow};
ghost use Rattle.jt_value.specs.Tree.{number};
ghost use Rattle.jt_value.specs.Tree as tree;
ghost use Rattle.jt_value.specs.View.{view};
ghost use Rattle.jt_op_semantics.specs.Arithmetic.{as_number, on_numbers, on_number, in_range};
ghost use Rattle.jt_op_semantics.specs.Arithmetic.{floor, NoNumbers, NoNumber};
ghost use Rattle.jt_op_semantics.specs.Arithmetic as arithmetic;

use crate::operands::{operand_fault, operand_fault_of_one};
use jt_value::{Fault, Value};

/// Returns `x + y`.
///
/// # Errors
///
/// `Overflow` if the sum does not fit 64 signed bits.
#[inline(always)]
#[tactic(auto, using(crate::proofs::Numbers::in_range_is))]
pub fn sum(x: i64, y: i64) -> Result<i64, Fault>
    ensures { result ≡ arithmetic.sum x y }
{
    x.checked_add(y).ok_or(Fault::Overflow)
}

/// Returns `x - y`.
///
/// # Errors
///
/// `Overflow` if the difference does not fit 64 signed bits.
#[inline(always)]
#[tactic(auto, using(crate::proofs::Numbers::in_range_is))]
pub fn difference(x: i64, y: i64) -> Result<i64, Fault>
    ensures { result ≡ arithmetic.difference x y }
{
    x.checked_sub(y).ok_or(Fault::Overflow)
}

/// Returns `x * y`.
///
/// # Errors
///
/// `Overflow` if the product does not fit 64 signed bits.
#[inline(always)]
#[tactic(auto, using(crate::proofs::Numbers::in_range_is))]
pub fn product(x: i64, y: i64) -> Result<i64, Fault>
    ensures { result ≡ arithmetic.product x y }
{
    x.checked_mul(y).ok_or(Fault::Overflow)
}

/// Returns `size` as a number, negated if `sign` is negative.
#[inline(always)]
fn with_sign(sign: i64, size: u64) -> Result<i64, Fault>
    ensures { result ≡ in_range (arithmetic.with_sign sign size) }
{
    let signed = if sign < 0 {
        0i64.checked_sub_unsigned(size)
    } else {
        0i64.checked_add_unsigned(size)
    };
    signed.ok_or(Fault::Overflow)
}

/// Returns `x / y` rounded down. If the signs agree it is the quotient of the absolute values, else
/// that quotient rounded up and negated.
fn quotient(x: i64, y: i64) -> Result<i64, Fault>
    ensures { result ≡ arithmetic.quotient x y }
{
    if y == 0 {
        return Err(Fault::ZeroDivide);
    }
    let size = x.unsigned_abs();
    let divisor = y.unsigned_abs();
    let quotient = if (x < 0) == (y < 0) {
        0i64.checked_add_unsigned(size / divisor)
    } else {
        0i64.checked_sub_unsigned(size.div_ceil(divisor))
    };
    quotient.ok_or(Fault::Overflow)
}

/// Returns the absolute value of the remainder of the division rounded down. The remainder has the
/// divisor's sign, and its absolute value is less than the divisor's.
#[inline(always)]
fn rest_size(x: i64, y: i64) -> u64
    requires { pos 0 ≢ y }
    ensures left { x -ℤ (floor x y *ℤ y) ≡ arithmetic.with_sign y result }
    ensures smaller { result < unsigned_abs y }
{
    let divisor = y.unsigned_abs();
    let rest = x.unsigned_abs() % divisor;
    if (x < 0) == (y < 0) {
        return rest;
    }
    if rest == 0 {
        return 0;
    }
    divisor - rest
}

/// Returns the remainder of the division rounded down: 0, or a number with the divisor's sign.
///
/// # Errors
///
/// `ZeroDivide` if the divisor is 0.
#[inline(always)]
pub fn remainder(x: i64, y: i64) -> Result<i64, Fault>
    ensures { result ≡ arithmetic.remainder x y }
{
    if y == 0 {
        return Err(Fault::ZeroDivide);
    }
    with_sign(y, rest_size(x, y))
}

/// Returns `x` to the power `exponent`. A negative exponent is a `BadType`.
fn power(x: i64, exponent: i64) -> Result<i64, Fault>
    ensures { result ≡ arithmetic.power x exponent }
{
    if exponent < 0 {
        return Err(Fault::BadType);
    }
    match u32::try_from(exponent) {
        Ok(exponent) => x.checked_pow(exponent).ok_or(Fault::Overflow),
        Err(_) => great_power(x, exponent.unsigned_abs()),
    }
}

/// Returns a power with a great exponent: it overflows unless `x` is 0, 1 or -1.
#[tactic(auto, using(crate::proofs::Numbers::great_powers))]
fn great_power(x: i64, exponent: u64) -> Result<i64, Fault>
    requires { 64 ≤ exponent }
    ensures { result ≡ in_range (int_pow x exponent) }
{
    match x {
        0 => Ok(0),
        1 => Ok(1),
        -1 => Ok(if exponent % 2 == 0 { 1 } else { -1 }),
        _ => Err(Fault::Overflow),
    }
}

/// Returns the numbers of two operands.
fn numbers(left: &Value, right: &Value) -> Result<(i64, i64), Fault>
    ensures ok { IfOk result (λ n. (view left.now ≡ number n.0) × (view right.now ≡ number n.1)) }
    ensures err { IfErr result (NoNumbers (view left.now) (view right.now)) }
{
    match (left, right) {
        (Value::Int(x), Value::Int(y)) => Ok((*x, *y)),
        _ => Err(operand_fault(left, right)),
    }
}

/// Returns the number of an operand.
fn number(operand: &Value) -> Result<i64, Fault>
    ensures ok { IfOk result (λ n. view operand.now ≡ tree.number n) }
    ensures err { IfErr result (NoNumber (view operand.now)) }
{
    match operand {
        Value::Int(x) => Ok(*x),
        _ => Err(operand_fault_of_one(operand)),
    }
}

/// Applies operator `-`.
pub(crate) fn subtract(left: &Value, right: &Value) -> Result<i64, Fault>
    ensures { as_number result ≡ on_numbers arithmetic.difference (view left.now) (view right.now) }
{
    let (x, y) = numbers(left, right)?;
    difference(x, y)
}

/// Applies operator `//`.
pub(crate) fn floor_divide(left: &Value, right: &Value) -> Result<i64, Fault>
    ensures { as_number result ≡ on_numbers arithmetic.quotient (view left.now) (view right.now) }
{
    let (x, y) = numbers(left, right)?;
    quotient(x, y)
}

/// Applies operator `%`.
pub(crate) fn modulo(left: &Value, right: &Value) -> Result<i64, Fault>
    ensures { as_number result ≡ on_numbers arithmetic.remainder (view left.now) (view right.now) }
{
    let (x, y) = numbers(left, right)?;
    remainder(x, y)
}

/// Applies operator `**`.
pub(crate) fn raise(left: &Value, right: &Value) -> Result<i64, Fault>
    ensures { as_number result ≡ on_numbers arithmetic.power (view left.now) (view right.now) }
{
    let (x, y) = numbers(left, right)?;
    power(x, y)
}

/// Applies unary operator `-`.
pub(crate) fn negate(operand: &Value) -> Result<i64, Fault>
    ensures { as_number result ≡ on_number arithmetic.negation (view operand.now) }
{
    let x = number(operand)?;
    x.checked_neg().ok_or(Fault::Overflow)
}

/// Applies unary operator `+`.
pub(crate) fn plus(operand: &Value) -> Result<i64, Fault>
    ensures { as_number result ≡ on_number arithmetic.same_number (view operand.now) }
{
    number(operand)
}
