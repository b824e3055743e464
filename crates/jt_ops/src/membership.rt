//! Implements operator `in`.
ghost use Rattle.std.specs.Prelude.{◌≡◌};
ghost use Rattle.jt_value.specs.ListItems.{listed, numbers_of};
ghost use Rattle.jt_value.specs.Tree as tree;
ghost use Rattle.jt_value.specs.View.{view, items_view};
ghost use Rattle.jt_op_semantics.specs.Membership as membership;

use crate::comparing::equals_text;
use crate::operands::operand_fault;
use jt_value::{Fault, ListItems, NumberRange, Value};
use memchr::memmem;

/// Returns whether a value is in a container: a text in a text, an item in a list, a key in a map.
pub(crate) fn is_in(value: &Value, container: &Value) -> Result<bool, Fault>
    ensures { result ≡ membership.is_in (view value.now) (view container.now) }
{
    match (value, container) {
        (_, Value::Undefined) => Ok(false),
        (_, Value::None) => Err(Fault::NotIterable),
        (_, Value::Bool(_)) => Err(Fault::NotIterable),
        (_, Value::Int(_)) => Err(Fault::NotIterable),
        (Value::Text(part), Value::Text(whole)) => Ok(occurs_in(part, whole)),
        (Value::Text(part), Value::Markup(whole)) => Ok(occurs_in(part, whole)),
        (Value::Markup(part), Value::Text(whole)) => Ok(occurs_in(part, whole)),
        (Value::Markup(part), Value::Markup(whole)) => Ok(occurs_in(part, whole)),
        (_, Value::List(list)) => Ok(has_item(value, list.items())),
        (Value::Text(key), Value::Map(map)) => Ok(map.contains_key(key)),
        (Value::Markup(key), Value::Map(map)) => Ok(map.contains_key(key)),
        (_, Value::Map(_)) => Ok(false),
        _ => Err(operand_fault(value, container)),
    }
}

/// Returns whether a plain text is in a container.
pub(crate) fn text_is_in(text: &str, container: &Value) -> Result<bool, Fault>
    ensures { result ≡ membership.is_in (tree.text text.now) (view container.now) }
{
    match container {
        Value::Undefined => Ok(false),
        Value::Text(whole) => Ok(occurs_in(text, whole)),
        Value::Markup(whole) => Ok(occurs_in(text, whole)),
        Value::List(list) => Ok(has_text(text, list.items())),
        Value::Map(map) => Ok(map.contains_key(text)),
        _ => Err(Fault::NotIterable),
    }
}

/// Returns whether an item of the list equals a plain text.
#[tactic(auto, using(crate::proofs::MembershipTests::no_number_is_text))]
fn has_text(text: &str, items: ListItems<'_>) -> bool
    ensures { result ≡ membership.has_item (tree.text text.now) (listed items.entry) }
{
    match items {
        ListItems::Values(values) => is_text_among(text, values),
        ListItems::Numbers(_) => false,
    }
}

/// Returns whether one of the values equals a plain text.
fn is_text_among(text: &str, values: &[Value]) -> bool
    ensures { result ≡ membership.has_item (tree.text text.now) (items_view values.now) }
{
    values.iter().any(|value| equals_text(text, value))
}

#[tactic(auto, using(jt_op_semantics::proofs::SubstringSearch::is_found))]
/// Returns whether a text occurs in another one.
fn occurs_in(part: &str, whole: &str) -> bool
    ensures { result ≡ membership.occurs_in part.now whole.now }
{
    memmem::find(whole.as_bytes(), part.as_bytes()).is_some()
}

/// Returns whether an item of the list equals a value.
fn has_item(value: &Value, items: ListItems<'_>) -> bool
    ensures { result ≡ membership.has_item (view value.now) (listed items.entry) }
{
    match items {
        ListItems::Values(values) => is_among(value, values),
        ListItems::Numbers(numbers) => is_number_among(value, numbers),
    }
}

/// Returns whether one of the values equals a value.
fn is_among(value: &Value, values: &[Value]) -> bool
    ensures { result ≡ membership.has_item (view value.now) (items_view values.now) }
{
    values.iter().any(|item| value.equals(item))
}

/// Returns whether a number of the range equals a value.
fn is_number_among(value: &Value, numbers: NumberRange) -> bool
    ensures { result ≡ membership.has_item (view value.now) (numbers_of numbers) }
{
    let mut rest = numbers;
    while let Some((number, behind)) = rest.split_first() {
        if value.equals(&Value::Int(number)) {
            return true;
        }
        rest = behind;
    }
    false
}
