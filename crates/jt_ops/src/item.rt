//! Looks up items of values: of a map by a key, of a list or a text by an index.
ghost use Rattle.std.specs.Prelude.{◌≡◌, length, IfOk, option_map, option_copied, slice_get};
ghost use Rattle.std.specs.Prelude.{encode_utf8};
ghost use Rattle.std.specs.Str.{chars};
ghost use Rattle.jt_value.specs.Entries.{entry_of};
ghost use Rattle.jt_value.specs.ListItems.{listed, numbers_of};
ghost use Rattle.jt_value.specs.Tree as tree;
ghost use Rattle.jt_value.specs.View.{view, items_view};
ghost use Rattle.jt_op_semantics.specs.ItemOf.{item_of, item_at, indexed_item, indexed_character};
ghost use Rattle.jt_op_semantics.specs.ItemOf.{or_undefined};
ghost use Rattle.jt_op_semantics.specs.ItemOf as items;
ghost use Rattle.jt_ops.specs.Limited.{limited_by, Answers, AnswersWith};

use crate::limits::{Limits, OpError, allow, copy_within, made, within};
use jt_value::{Fault, ListItems, NoMemory, NumberRange, Value, ValueMap};
use std::alloc::Global;

/// Returns the item of a value.
pub(crate) fn item(
    alloc: Global,
    value: &Value,
    key: &Value,
    limits: Limits,
) -> Result<Value, OpError>
    ensures { Answers result (limited_by limits (item_of (view value.now) (view key.now))) }
{
    match (value, key) {
        (Value::Undefined, _) => Err(Fault::Undefined.into()),
        (Value::Map(map), Value::Text(name)) => keyed(alloc, map, name, limits),
        (Value::Map(map), Value::Markup(name)) => keyed(alloc, map, name, limits),
        (Value::List(list), Value::Int(index)) => listed_item(alloc, list.items(), *index, limits),
        (Value::Text(text), Value::Int(index)) => character(alloc, text, *index, limits),
        (Value::Markup(text), Value::Int(index)) => character(alloc, text, *index, limits),
        _ => within(Value::Undefined, limits),
    }
}

/// Returns a copy of the found value, or undefined if nothing was found.
fn found(alloc: Global, found: Option<&Value>, limits: Limits) -> Result<Value, OpError>
    ensures { AnswersWith limits (or_undefined (option_map view (option_copied found.entry)))
        result }
{
    match found {
        Some(value) => copy_within(alloc, value, limits),
        None => within(Value::Undefined, limits),
    }
}

/// Returns a copy of the item of a list that an index names, or undefined if it does not exist.
fn listed_item(
    alloc: Global,
    items: ListItems<'_>,
    index: i64,
    limits: Limits,
) -> Result<Value, OpError>
    ensures { AnswersWith limits (or_undefined (indexed_item (listed items.entry) index)) result }
{
    match items {
        ListItems::Values(values) => found(alloc, indexed(values, index), limits),
        ListItems::Numbers(numbers) => found_number(indexed_number(numbers, index), limits),
    }
}

/// Returns the found number, or undefined if none was found.
fn found_number(found: Option<i64>, limits: Limits) -> Result<Value, OpError>
    ensures { AnswersWith limits (or_undefined (option_map tree.number found)) result }
{
    match found {
        Some(number) => within(Value::Int(number), limits),
        None => within(Value::Undefined, limits),
    }
}

/// Returns a copy of the first value of a key, or undefined if the map lacks the key.
fn keyed(alloc: Global, map: &ValueMap, name: &str, limits: Limits) -> Result<Value, OpError>
    ensures { AnswersWith limits (or_undefined (entry_of name.now map.now)) result }
{
    found(alloc, map.get(name), limits)
}

/// Returns the index from 0 that `index` names among `count` items, if any. A negative `index`
/// counts from the end.
fn place(index: i64, count: usize) -> Option<usize>
    ensures { result ≡ items.place index count }
{
    let size = index.unsigned_abs();
    if index < 0 {
        if size <= count as u64 {
            Some(count - size as usize)
        } else {
            None
        }
    } else if size < count as u64 {
        Some(size as usize)
    } else {
        None
    }
}

/// Returns the item that an index names, if any.
#[tactic(auto, using(crate::proofs::Places::items_count_view))]
fn indexed(items: &[Value], index: i64) -> Option<&Value>
    ensures { option_map view (option_copied result) ≡ indexed_item (items_view items.now) index }
{
    match place(index, items.len()) {
        Some(place) => at(items, place),
        None => None,
    }
}

/// Returns the number of a range that an index names, if any.
fn indexed_number(numbers: NumberRange, index: i64) -> Option<i64>
    ensures { option_map tree.number result ≡ indexed_item (numbers_of numbers) index }
{
    match place(index, numbers.len()) {
        Some(place) => numbers.get(place),
        None => None,
    }
}

/// Returns the item at an index from 0, if any.
fn at(items: &[Value], place: usize) -> Option<&Value>
    ensures { option_map view (option_copied result) ≡ item_at (items_view items.now) place }
{
    items.get(place)
}

/// Returns the character that an index names, as a plain text, or undefined if it does not exist.
fn character(alloc: Global, text: &str, index: i64, limits: Limits) -> Result<Value, OpError>
    ensures { AnswersWith limits (or_undefined (indexed_character text.now index)) result }
{
    match nth_character(text, index) {
        Some(c) => single(alloc, c, limits),
        None => within(Value::Undefined, limits),
    }
}

/// Returns a character as a plain text. Tests its size before it builds the text.
fn single(alloc: Global, c: char, limits: Limits) -> Result<Value, OpError>
    ensures { AnswersWith limits (tree.text (encode_utf8 c)) result }
{
    allow(c.len_utf8() as u64 + 1, 0, limits)?;
    made(text_of(alloc, c))
}

/// Returns the character that an index names, if any.
fn nth_character(text: &str, index: i64) -> Option<char>
    ensures { result ≡ items.nth_character text.now index }
{
    match place(index, character_count(text)) {
        Some(place) => character_at(text, place),
        None => None,
    }
}

/// Returns the number of characters of a text.
pub fn character_count(text: &str) -> usize
    ensures { result ≡ length (chars text.now) }
{
    text.chars().count()
}

/// Returns the character at an index from 0, if any.
fn character_at(text: &str, place: usize) -> Option<char>
    ensures { result ≡ slice_get (chars text.now) place }
{
    text.chars().nth(place)
}

/// Returns the plain text of one character.
fn text_of(alloc: Global, c: char) -> Result<Value, NoMemory>
    ensures { IfOk result (λ v. view v ≡ tree.text (encode_utf8 c)) }
{
    let mut text = String::new(alloc);
    text.push(c)?;
    Value::from_text(text)
}
