//! Resolves the operators of the language to operations.

ghost use Rattle.jt_semantics.specs.Operators as operators;
ghost use Rattle.jt_semantics.specs.Resolve as resolve;
ghost use Rattle.jt_ir.specs.Slots as slots;
ghost use Rattle.std.specs.Prelude.{IfErr, pos, ◌≡◌, ◌≤◌, ◌^◌};
ghost use Rattle.jt_bind.specs.internal.{number, cycle_of, IfOk, List, literal_view};
ghost use Rattle.jt_bind.specs.internal.{parameter_view, form_view, shortcut_view, IsAdded};
ghost use Rattle.jt_bind.specs.internal.{IsShown, MadeOfOne, turn_in, values, default_value};
ghost use Rattle.jt_bind.specs.internal.{literal, Term, Tree, view};

use crate::Result;
use crate::held::Held;
use crate::pool::{Pool, add_value};
use jt_ast::{BinaryOperator, Literal, Parameter, UnaryOperator};
use jt_ids::{LoopField, OpId};
use jt_ir::{NaryOp, SlotExpr};
use jt_value::{NoMemory, Value};
use std::alloc::Global;

/// The form of a binary operator.
#[derive(Clone, Copy)]
pub(crate) enum OperatorForm {
    /// The operation on both operands.
    Operation(OpId),
    /// The negated operation on both operands.
    Negation(OpId),
    /// One of the operands.
    Shortcut(Shortcut),
}

/// A binary operator that evaluates its right operand only if the left one does not decide.
#[derive(Clone, Copy)]
pub(crate) enum Shortcut {
    /// The left operand if it is false, or else the right one.
    Conjunction,
    /// The left operand if it is true, or else the right one.
    Disjunction,
}

/// Returns the value of a literal.
#[inline(never)]
pub(crate) fn literal_value(alloc: Global, constant: &Literal) -> Result<Value>
    ensures { IfOk result (λ v. view v ≡ literal (literal_view constant.now)) }
{
    match constant {
        Literal::Number(number) => Ok(Value::Int(*number)),
        Literal::Text(text) => Ok(Value::text(alloc, text)?),
        Literal::Truth(truth) => Ok(Value::Bool(*truth)),
        Literal::None => Ok(Value::None),
    }
}

/// Returns the default of a parameter, or undefined if it has none.
pub(crate) fn default_of(alloc: Global, parameter: &Parameter) -> Result<Value>
    ensures { IfOk result (λ v. view v ≡ default_value (parameter_view parameter.now).default) }
{
    match &parameter.default {
        Some(literal) => literal_value(alloc, literal),
        None => Ok(Value::Undefined),
    }
}

/// Returns the operation of a unary operator.
pub(crate) fn unary_operation(operator: UnaryOperator) -> OpId
    ensures { result ≡ operators.unary_operation operator }
{
    match operator {
        UnaryOperator::Negate => OpId::Negate,
        UnaryOperator::Plus => OpId::Plus,
        UnaryOperator::Not => OpId::Not,
    }
}

/// Returns the operation of `range` for `count` arguments.
pub(crate) fn range_of(count: usize) -> OpId
    ensures { result ≡ operators.range_of count }
{
    match count {
        0 | 1 => OpId::RangeToStop,
        2 => OpId::RangeFromStart,
        _ => OpId::RangeByStep,
    }
}

/// Returns the form of a binary operator.
pub(crate) fn form_of(escaping: bool, operator: BinaryOperator) -> OperatorForm
    ensures { form_view result ≡ operators.form escaping operator }
{
    match operator {
        BinaryOperator::Or => OperatorForm::Shortcut(Shortcut::Disjunction),
        BinaryOperator::And => OperatorForm::Shortcut(Shortcut::Conjunction),
        BinaryOperator::Equal => OperatorForm::Operation(OpId::Equal),
        BinaryOperator::NotEqual => OperatorForm::Operation(OpId::NotEqual),
        BinaryOperator::Less => OperatorForm::Operation(OpId::Less),
        BinaryOperator::LessOrEqual => OperatorForm::Operation(OpId::LessOrEqual),
        BinaryOperator::Greater => OperatorForm::Operation(OpId::Greater),
        BinaryOperator::GreaterOrEqual => OperatorForm::Operation(OpId::GreaterOrEqual),
        BinaryOperator::In => OperatorForm::Operation(OpId::In),
        BinaryOperator::NotIn => OperatorForm::Negation(OpId::In),
        BinaryOperator::Add => OperatorForm::Operation(OpId::Add),
        BinaryOperator::Subtract => OperatorForm::Operation(OpId::Subtract),
        BinaryOperator::Concatenate => OperatorForm::Operation(join(escaping)),
        BinaryOperator::Multiply => OperatorForm::Operation(OpId::Multiply),
        BinaryOperator::FloorDivide => OperatorForm::Operation(OpId::FloorDivide),
        BinaryOperator::Remainder => OperatorForm::Operation(OpId::Remainder),
        BinaryOperator::Power => OperatorForm::Operation(OpId::Power),
    }
}

/// Returns the operation that joins texts.
pub(crate) fn join(escaping: bool) -> OpId
    ensures { result ≡ operators.join escaping }
{
    if escaping {
        OpId::JoinEscaping
    } else {
        OpId::Join
    }
}

/// Returns the expression that applies `op` to `operand`.
#[inline(never)]
pub(crate) fn on_one(alloc: Global, op: OpId, operand: SlotExpr) -> Result<SlotExpr>
    ensures { IfOk result (MadeOfOne (λ a. slots.made (slots.operator op)
        (slots.item a slots.none)) operand) }
{
    Ok(SlotExpr::Made(NaryOp::Operator(op), vec![in alloc; (None, operand)]?))
}

/// Returns the expression that applies `op` to `left` and `right`.
#[inline(never)]
pub(crate) fn on_two(alloc: Global, op: OpId, left: SlotExpr, right: SlotExpr) -> Result<SlotExpr>
    ensures { IfOk result (λ e. (a b : Term) (p q r : List Tree)
        → IsShown a left p q → IsShown b right q r → IsShown (resolve.operation_of op a b) e p r) }
{
    Ok(SlotExpr::Made(
        NaryOp::Operator(op),
        vec![in alloc; (None, left), (None, right)]?,
    ))
}

/// Returns the expression, negated if `negated` holds.
#[inline(never)]
pub(crate) fn turned(alloc: Global, negated: bool, inside: SlotExpr) -> Result<SlotExpr>
    ensures { IfOk result (MadeOfOne (resolve.turned_round negated) inside) }
{
    if negated {
        on_one(alloc, OpId::Not, inside)
    } else {
        Ok(inside)
    }
}

/// Returns the expression that applies a shortcut to two operands.
pub(crate) fn apply_shortcut(
    operator: Shortcut,
    left: Held<Box<SlotExpr>>,
    right: Held<Box<SlotExpr>>,
) -> SlotExpr
    ensures { (a b : Term) (p q r : List Tree) → IsShown a left.part.value p q
        → IsShown b right.part.value q r
        → IsShown (resolve.in_form (shortcut_view operator) a b) result p r }
{
    match operator {
        Shortcut::Conjunction => SlotExpr::Conjunction(left.into_part(), right.into_part()),
        Shortcut::Disjunction => SlotExpr::Disjunction(left.into_part(), right.into_part()),
    }
}

/// Returns the conditional expression that chooses between two values.
pub(crate) fn chosen(
    condition: Held<Box<SlotExpr>>,
    value: Held<Box<SlotExpr>>,
    other: Held<Box<SlotExpr>>,
) -> SlotExpr
    ensures { (c a b : Term) (p q r s : List Tree) → IsShown c
        condition.part.value p q → IsShown a value.part.value q r → IsShown b other.part.value r s →
        IsShown (slots.choice c a b) result p s }
{
    SlotExpr::Choice {
        condition: condition.into_part(),
        value: value.into_part(),
        other: other.into_part(),
    }
}

/// Returns the expression for the index of a loop's turn modulo `count`.
#[inline(never)]
fn turn_among(alloc: Global, count: usize, pool: &mut Pool) -> Result<SlotExpr>
    ensures { IfOk result (λ e. IsAdded (turn_in count) e pool.old pool.new) }
{
    let number = number_of(count)?;
    let items = add_value(pool, number)?;
    on_two(
        alloc,
        OpId::Remainder,
        SlotExpr::Field(LoopField::Index0),
        items,
    )
}

/// Returns the expression for the item of `items` at the index of a loop's turn modulo `count`.
#[inline(never)]
pub(crate) fn item_in_turn(
    alloc: Global,
    items: SlotExpr,
    count: usize,
    pool: &mut Pool,
) -> Result<SlotExpr>
    ensures { IfOk result (λ e. (a : Term) (p : List Tree)
        → IsShown a items p (values pool.old)
        → IsShown (cycle_of a count) e p (values pool.new)) }
{
    let turn = turn_among(alloc, count, pool)?;
    on_two(alloc, OpId::Item, items, turn)
}

/// Returns a count as a value.
fn number_of(count: usize) -> Result<Value>
    ensures value { IfOk result (λ v. view v ≡ number (pos count)) }
    ensures large { IfErr result (λ _. 2 ^ 63 ≤ count) }
{
    match i64::try_from(count) {
        Ok(count) => Ok(Value::Int(count)),
        Err(_) => Err(NoMemory),
    }
}
