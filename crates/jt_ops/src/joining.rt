//! Computes sums, products and joins of texts and lists.
ghost use Rattle.std.specs.Prelude.{◌≡◌, ◌-◌, ◌^◌, ◌++◌, min, Ok, Err, IfOk, IfErr, OnOk};
ghost use Rattle.jt_value.specs.Tree as tree;
ghost use Rattle.jt_value.specs.ListItems.{listed, numbers_of};
ghost use Rattle.jt_value.specs.Payload.{joined_items};
ghost use Rattle.jt_value.specs.View.{view, items_view};
ghost use Rattle.jt_op_semantics.specs.Joining.{added, both, multiplied, joined, joined_escaping};
ghost use Rattle.jt_ops.specs.Pieces.{written};
ghost use Rattle.jt_ops.specs.Limited.{limited_by, Answers, AnswersWith};

use crate::arithmetic::{product, sum};
use crate::limits::{Limits, OpError, allow, made, number_within};
use crate::operands::operand_fault;
use crate::text::{Piece, TextKind, concatenated, repeated};
use itoa::Buffer;
use jt_value::{ListItems, NoMemory, NumberRange, Value, ValueList};
use std::alloc::Global;
use std::rc::Rc;

/// Returns the plain text of two pieces, under limits.
fn plain(alloc: Global, left: Piece<'_>, right: Piece<'_>, limits: Limits) -> Result<Value, OpError>
    ensures { AnswersWith limits (tree.text (written left.entry ++ written right.entry)) result }
{
    concatenated(alloc, &left, &right, TextKind::Plain, limits)
}

/// Returns the markup text of two pieces, under limits.
fn markup(
    alloc: Global,
    left: Piece<'_>,
    right: Piece<'_>,
    limits: Limits,
) -> Result<Value, OpError>
    ensures { AnswersWith limits (tree.markup (written left.entry ++ written right.entry)) result }
{
    concatenated(alloc, &left, &right, TextKind::Markup, limits)
}

/// Applies operator `+`.
pub(crate) fn add(
    alloc: Global,
    left: &Value,
    right: &Value,
    limits: Limits,
) -> Result<Value, OpError>
    ensures { Answers result (limited_by limits (added (view left.now) (view right.now))) }
{
    match (left, right) {
        (Value::Int(x), Value::Int(y)) => number_within(sum(*x, *y), limits),
        (Value::Text(s), Value::Text(t)) => plain(alloc, Piece::Raw(s), Piece::Raw(t), limits),
        (Value::Text(s), Value::Markup(t)) => {
            markup(alloc, Piece::Escaped(s), Piece::Raw(t), limits)
        }
        (Value::Markup(s), Value::Text(t)) => {
            markup(alloc, Piece::Raw(s), Piece::Escaped(t), limits)
        }
        (Value::Markup(s), Value::Markup(t)) => markup(alloc, Piece::Raw(s), Piece::Raw(t), limits),
        (Value::List(list), Value::List(more)) => joined_lists(alloc, list, more, limits),
        _ => Err(operand_fault(left, right).into()),
    }
}

/// Applies operator `*`.
pub(crate) fn multiply(
    alloc: Global,
    left: &Value,
    right: &Value,
    limits: Limits,
) -> Result<Value, OpError>
    ensures { Answers result (limited_by limits (multiplied (view left.now) (view right.now))) }
{
    match (left, right) {
        (Value::Int(x), Value::Int(y)) => number_within(product(*x, *y), limits),
        (Value::Text(s), Value::Int(n)) => repeated(alloc, s, *n, TextKind::Plain, limits),
        (Value::Markup(s), Value::Int(n)) => repeated(alloc, s, *n, TextKind::Markup, limits),
        _ => Err(operand_fault(left, right).into()),
    }
}

/// Applies operator `~` without escaping.
pub(crate) fn join(
    alloc: Global,
    left: &Value,
    right: &Value,
    limits: Limits,
) -> Result<Value, OpError>
    ensures { Answers result (limited_by limits (joined (view left.now) (view right.now))) }
{
    let mut left_buffer = Buffer::new();
    let mut right_buffer = Buffer::new();
    let left = left.shown(&mut left_buffer)?;
    let right = right.shown(&mut right_buffer)?;
    plain(alloc, Piece::Raw(left), Piece::Raw(right), limits)
}

/// Applies operator `~` with escaping: if one operand is markup, the printed text of a plain one is
/// escaped.
pub(crate) fn join_escaping(
    alloc: Global,
    left: &Value,
    right: &Value,
    limits: Limits,
) -> Result<Value, OpError>
    ensures { Answers result
        (limited_by limits (joined_escaping (view left.now) (view right.now))) }
{
    match (left, right) {
        (Value::Markup(s), Value::Markup(t)) => markup(alloc, Piece::Raw(s), Piece::Raw(t), limits),
        (Value::Markup(s), _) => {
            let mut buffer = Buffer::new();
            let right = right.shown(&mut buffer)?;
            markup(alloc, Piece::Raw(s), Piece::Escaped(right), limits)
        }
        (_, Value::Markup(t)) => {
            let mut buffer = Buffer::new();
            let left = left.shown(&mut buffer)?;
            markup(alloc, Piece::Escaped(left), Piece::Raw(t), limits)
        }
        _ => join(alloc, left, right, limits),
    }
}

/// Applies operator `+` to operands that it consumes. If both are lists, the left one takes the
/// items of the right one.
pub(crate) fn add_owned(
    alloc: Global,
    left: Value,
    right: Value,
    limits: Limits,
) -> Result<Value, OpError>
    ensures { Answers result (limited_by limits (added (view left) (view right))) }
{
    match (left, right) {
        (Value::List(list), Value::List(more)) => appended(list, &more, limits),
        (left, right) => add_lent(alloc, left, right, limits),
    }
}

/// Applies operator `+` as `add`, and drops the operands.
fn add_lent(alloc: Global, left: Value, right: Value, limits: Limits) -> Result<Value, OpError>
    ensures { Answers result (limited_by limits (added (view left) (view right))) }
{
    add(alloc, &left, &right, limits)
}

/// Appends the items of `more` to a list. Other owners of the list keep it unchanged.
fn appended(mut list: Rc<ValueList>, more: &ValueList, limits: Limits) -> Result<Value, OpError>
    ensures { AnswersWith limits (both list.value more.now) result }
{
    append_within(&mut list, more, limits)?;
    Ok(Value::shared_list(list))
}

/// Appends the items of `more` to a list, under limits.
fn append_within(list: &mut Rc<ValueList>, more: &ValueList, limits: Limits) -> Result<(), OpError>
    ensures ok { OnOk result
        (limited_by limits (Ok (both list.old.value more.now)) ≡ Ok (tree.list list.new.value)) }
    ensures refused { IfErr result
        (λ e. AnswersWith limits (both list.old.value more.now) (Err e)) }
{
    let measure = joined_measure(list, more);
    allow(measure.0, measure.1, limits)?;
    append(list, more)?;
    Ok(())
}

/// Appends the items of `more` to a list.
fn append(list: &mut Rc<ValueList>, more: &ValueList) -> Result<(), NoMemory>
    ensures { OnOk result (list.new.value ≡ joined_items list.old.value more.now) }
{
    Rc::make_mut(list)?.append(more.items())?;
    Ok(())
}

/// Returns the list of the items of two lists, under limits.
fn joined_lists(
    alloc: Global,
    list: &ValueList,
    more: &ValueList,
    limits: Limits,
) -> Result<Value, OpError>
    ensures { AnswersWith limits (both list.now more.now) result }
{
    let (size, nesting) = joined_measure(list, more);
    allow(size, nesting, limits)?;
    made(joined_copies(alloc, list.items(), more.items()))
}

/// Returns the list of copies of the items of two lists.
fn joined_copies(
    alloc: Global,
    items: ListItems<'_>,
    more: ListItems<'_>,
) -> Result<Value, NoMemory>
    ensures { IfOk result (λ v. view v ≡ both (listed items.entry) (listed more.entry)) }
{
    let mut joined = Vec::with_capacity(alloc, items.len().saturating_add(more.len()))?;
    append_items(&mut joined, items)?;
    append_items(&mut joined, more)?;
    Value::list(alloc, joined)
}

/// Appends copies of the items of a list.
fn append_items(into: &mut Vec<Value>, items: ListItems<'_>) -> Result<(), NoMemory>
    ensures { OnOk result (items_view into.new.items
        ≡ joined_items (items_view into.old.items) (listed items.entry)) }
{
    match items {
        ListItems::Values(values) => append_copies(into, values),
        ListItems::Numbers(numbers) => append_numbers(into, numbers),
    }
}

/// Appends the numbers of a range.
fn append_numbers(into: &mut Vec<Value>, numbers: NumberRange) -> Result<(), NoMemory>
    ensures { OnOk result (items_view into.new.items
        ≡ joined_items (items_view into.old.items) (numbers_of numbers)) }
{
    let mut rest = numbers;
    while let Some((number, behind)) = rest.split_first() {
        into.push(Value::Int(number))?;
        rest = behind;
    }
    Ok(())
}

/// Returns the size, at most 2^64 - 1, and the nesting, at most 2^32 - 1, of the list of the items
/// of two lists.
#[tactic(auto, using(crate::proofs::AppendSteps::joined_measures))]
fn joined_measure(list: &ValueList, more: &ValueList) -> (u64, u32)
    ensures size { result.0 ≡ min (tree.size (both list.now more.now)) (2 ^ 64 - 1) }
    ensures nesting { result.1 ≡ min (tree.nesting (both list.now more.now)) (2 ^ 32 - 1) }
{
    (
        list.size().saturating_add(more.size() - 1),
        list.nesting().max(more.nesting()),
    )
}

/// Appends copies of items.
fn append_copies(into: &mut Vec<Value>, items: &[Value]) -> Result<(), NoMemory>
    ensures { OnOk result (items_view into.new.items
        ≡ joined_items (items_view into.old.items) (items_view items.now)) }
{
    for item in items {
        into.push(item.clone()?)?;
    }
    Ok(())
}
