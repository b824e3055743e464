//! Implements filters whose result is a number or an existing value. They allocate nothing.
ghost use Rattle.std.specs.Prelude.{◌≡◌, ◌||◌, ◌&&◌, not, if◌then◌else◌, Ok, pos};
ghost use Rattle.jt_value.specs.Tree as tree;
ghost use Rattle.jt_value.specs.Tree.{truth};
ghost use Rattle.jt_op_semantics.specs.Arithmetic.{on_number, as_number};
ghost use Rattle.jt_op_semantics.specs.Testing.{is_undefined};
ghost use Rattle.jt_filter_semantics.specs.Listing.{on_items, first_item, last_item, length_of};
ghost use Rattle.jt_filter_semantics.specs.Listing as listing;
ghost use Rattle.jt_filter_semantics.specs.Numbers as numbers;
ghost use Rattle.jt_filter_semantics.specs.Numbers.{as_int, sum_behind, total};
ghost use Rattle.jt_filters.specs.internal.Operands.{tree_of, items_in, chosen, last_of};
ghost use Rattle.jt_filter_semantics.specs.Ordering as ordering;
ghost use Rattle.jt_filter_semantics.specs.Ordering.{best_item};

use crate::folding::text_precedes;
use crate::item_list::{ItemList, items_of};
use crate::kinds::{are_in_order, are_numbers, operand_fault_of_items};
use crate::operand::Operand;
use jt_ops::character_count;
use jt_value::{Fault, Value};

/// Applies filter `abs`.
pub(crate) fn abs(operand: Operand<'_>) -> Result<Operand<'_>, Fault>
    ensures { chosen result ≡ on_number numbers.absolute (tree_of operand.entry) }
{
    match operand.as_number() {
        Some(number) => Ok(Operand::Number(absolute(number)?)),
        None => Err(operand.operand_fault()),
    }
}

/// Returns the absolute value of a number.
fn absolute(number: i64) -> Result<i64, Fault>
    ensures { result ≡ numbers.absolute number }
{
    match number.checked_abs() {
        Some(size) => Ok(size),
        None => Err(Fault::Overflow),
    }
}

/// Applies filter `default`: returns `default` if the operand is undefined, or if it counts as
/// false and `boolean` is true.
pub(crate) fn or_default<'a>(
    operand: Operand<'a>,
    default: Operand<'a>,
    boolean: bool,
) -> Operand<'a>
    ensures { let t = tree_of operand.entry in
        tree_of result
        ≡ (if is_undefined t || (boolean && not (truth t)) then tree_of default.entry else t) }
{
    if operand.is_undefined() || (boolean && !operand.truth()) {
        default
    } else {
        operand
    }
}

/// Applies filter `int`.
pub(crate) fn int<'a>(operand: Operand<'a>, default: Operand<'a>) -> Result<Operand<'a>, Fault>
    ensures { chosen result ≡ as_int (tree_of operand.entry) (tree_of default.entry) }
{
    if let Some(text) = operand.as_text() {
        return match number_of_text(text) {
            Some(number) => Ok(Operand::Number(number)),
            None => Ok(default),
        };
    }
    match operand {
        Operand::Undefined => Err(Fault::Undefined),
        Operand::Value(Value::Undefined) => Err(Fault::Undefined),
        Operand::Number(number) => Ok(Operand::Number(number)),
        Operand::Value(Value::Int(number)) => Ok(Operand::Number(*number)),
        Operand::Value(Value::Bool(truth)) => Ok(Operand::Number(if *truth { 1 } else { 0 })),
        _ => Ok(default),
    }
}

/// Returns the number that a text writes, if it fits 64 bits.
#[tactic(auto, using(crate::proofs::Numerals::number_of_text_is))]
fn number_of_text(text: &str) -> Option<i64>
    ensures { result ≡ numbers.number_of_text text.now }
{
    text.parse::<i64>().ok()
}

/// Applies filter `length`.
pub(crate) fn length(operand: Operand<'_>) -> Result<Operand<'_>, Fault>
    ensures { chosen result ≡ length_of (tree_of operand.entry) }
{
    if let Some(text) = operand.as_text() {
        return counted(character_count(text));
    }
    if let Some(items) = operand.as_list() {
        return counted(items.len());
    }
    if let Some(map) = operand.as_map() {
        return counted(map.entries().len());
    }
    if operand.is_undefined() {
        counted(0)
    } else {
        Err(operand.operand_fault())
    }
}

/// Returns a count as a number.
fn counted<'a>(count: usize) -> Result<Operand<'a>, Fault>
    ensures { chosen result ≡ listing.counted count }
{
    match i64::try_from(count) {
        Ok(count) => Ok(Operand::Number(count)),
        Err(_) => Err(Fault::Overflow),
    }
}

/// Applies filter `first`.
#[tactic(auto, using(crate::proofs::EndItems::first_there))]
pub(crate) fn first(operand: Operand<'_>) -> Result<Operand<'_>, Fault>
    ensures { chosen result ≡ on_items first_item (tree_of operand.entry) }
{
    match items_of(operand)?.split_first() {
        Some((first, _)) => Ok(first),
        None => Ok(Operand::Undefined),
    }
}

/// Applies filter `last`.
#[tactic(auto, using(crate::proofs::EndItems::last_there))]
pub(crate) fn last(operand: Operand<'_>) -> Result<Operand<'_>, Fault>
    ensures { chosen result ≡ on_items last_item (tree_of operand.entry) }
{
    Ok(last_of(items_of(operand)?))
}

/// Returns the last item, or undefined if there are no items.
fn last_of(items: ItemList<'_>) -> Operand<'_>
    ensures { tree_of result ≡ last_of tree.undefined (items_in items.entry) }
{
    let mut items = items;
    let mut last = Operand::Undefined;
    while let Some((item, behind)) = items.split_first() {
        last = item;
        items = behind;
    }
    last
}

/// Applies filter `min`, or `max` if `reverse` is true.
pub(crate) fn best_item(operand: Operand<'_>, reverse: bool) -> Result<Operand<'_>, Fault>
    ensures { chosen result ≡ on_items (best_item reverse) (tree_of operand.entry) }
{
    let items = items_of(operand)?;
    if are_in_order(items) {
        Ok(best(items, reverse))
    } else {
        Err(operand_fault_of_items(items))
    }
}

/// Returns the first least item, or the first greatest one if `reverse` is true. Returns undefined
/// if there are no items.
fn best(items: ItemList<'_>, reverse: bool) -> Operand<'_>
    ensures { tree_of result ≡ ordering.best (ordering.comes_first reverse) (items_in items.entry) }
{
    match items.split_first() {
        Some((first, behind)) => best_of(first, behind, reverse),
        None => Operand::Undefined,
    }
}

/// Returns the first least item among `first` and the items of `behind` after it, or the first
/// greatest one if `reverse` is true.
fn best_of<'a>(first: Operand<'a>, behind: ItemList<'a>, reverse: bool) -> Operand<'a>
    ensures { tree_of result
        ≡ ordering.best_of (ordering.comes_first reverse) (tree_of first.entry)
        (items_in behind.entry) }
{
    let mut best = first;
    let mut items = behind;
    while let Some((item, behind)) = items.split_first() {
        if comes_first(item, best, reverse) {
            best = item;
        }
        items = behind;
    }
    best
}

/// Returns whether an item precedes another one, or follows it if `reverse` is true. Numbers
/// compare by value, plain texts by fold.
fn comes_first(item: Operand<'_>, other: Operand<'_>, reverse: bool) -> bool
    ensures { result ≡ ordering.comes_first reverse (tree_of item.entry) (tree_of other.entry) }
{
    if reverse {
        precedes(other, item)
    } else {
        precedes(item, other)
    }
}

/// Returns whether a number or a plain text precedes another one.
fn precedes(item: Operand<'_>, other: Operand<'_>) -> bool
    ensures { result ≡ ordering.precedes (tree_of item.entry) (tree_of other.entry) }
{
    match (
        item.as_number(),
        other.as_number(),
        item.as_plain(),
        other.as_plain(),
    ) {
        (Some(x), Some(y), _, _) => x < y,
        (_, _, Some(s), Some(t)) => text_precedes(s, t),
        _ => false,
    }
}

/// Applies filter `sum`.
pub(crate) fn sum(operand: Operand<'_>) -> Result<Operand<'_>, Fault>
    ensures { chosen result ≡ on_items total (tree_of operand.entry) }
{
    let items = items_of(operand)?;
    if are_numbers(items) {
        Ok(Operand::Number(sum_of(items)?))
    } else {
        Err(operand_fault_of_items(items))
    }
}

/// Returns the sum of numbers, added from the left.
fn sum_of(items: ItemList<'_>) -> Result<i64, Fault>
    ensures { result ≡ sum_behind (Ok (pos 0)) (items_in items.entry) }
{
    let mut items = items;
    let mut total = 0;
    while let Some((item, behind)) = items.split_first() {
        match item.as_number() {
            Some(number) => total = jt_ops::sum(total, number)?,
            None => return Err(Fault::BadType),
        }
        items = behind;
    }
    Ok(total)
}
