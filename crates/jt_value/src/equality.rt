//! Compares values for equality.
ghost use Rattle.std.specs.Prelude.{◌≡◌, ◌↔◌, true, false, IfSome, IsTrue};
ghost use Rattle.std.specs.Option.{option_map_or};
ghost use Rattle.jt_value.specs.Tree as tree;
ghost use Rattle.jt_value.specs.Tree.{Entries};
ghost use Rattle.jt_value.specs.Entries.{entry_of, has_key, all_keys, same_keys};
ghost use Rattle.jt_value.specs.Equality.{equal, equal_items, equal_at, truth_number};
ghost use Rattle.jt_value.specs.Equality.{AgreeAtEachKey};
ghost use Rattle.jt_value.specs.ListItems.{numbers_of};
ghost use Rattle.jt_value.specs.View.{view, items_view, entries_view};

use crate::entries::have_same_keys;
use crate::list_items::ListItems;
use crate::number_range::NumberRange;
use crate::payload::{ValueList, ValueMap};
use crate::text::Text;
use crate::value::Value;

impl Value {
    /// Returns whether two values are equal:
    ///
    /// - numbers and truth values compare as numbers;
    /// - texts compare by their characters, plain or markup;
    /// - lists compare item by item;
    /// - maps compare by the first value of each key, in any order;
    /// - none equals none, and undefined equals undefined.
    pub fn equals(&self, other: &Value) -> bool
        ensures value { result ≡ equal (view self.now) (view other.now) }
        ensures maps { (entries others : Entries)
            → view self.now ≡ tree.map entries
            → view other.now ≡ tree.map others
            → IsTrue result ↔ AgreeAtEachKey entries others }
    {
        are_equal(self, other)
    }
}

/// Returns the number that a truth value equals.
fn number_of_truth(truth: bool) -> i64
    ensures { result ≡ truth_number truth }
{
    if truth { 1 } else { 0 }
}

/// Returns whether the value is the number, or the truth value that equals it.
fn is_number(value: &Value, wanted: i64) -> bool
    ensures { result ≡ equal (tree.number wanted) (view value.now) }
{
    match value {
        Value::Int(number) => wanted == *number,
        Value::Bool(truth) => wanted == number_of_truth(*truth),
        _ => false,
    }
}

/// Returns whether the value is the text, plain or markup.
fn is_text(value: &Value, wanted: &str) -> bool
    ensures { result ≡ equal (tree.text wanted.now) (view value.now) }
{
    match value {
        Value::Text(text) => wanted == text.as_str(),
        Value::Markup(text) => wanted == text.as_str(),
        _ => false,
    }
}

#[cycle(equality)]
fn are_equal(left: &Value, right: &Value) -> bool
    ensures { result ≡ equal (view left.now) (view right.now) }
{
    match left {
        Value::Undefined => matches!(right, Value::Undefined),
        Value::None => matches!(right, Value::None),
        Value::Bool(truth) => is_number(right, number_of_truth(*truth)),
        Value::Int(number) => is_number(right, *number),
        Value::Text(text) => is_text(right, text.as_str()),
        Value::Markup(text) => is_text(right, text.as_str()),
        Value::List(list) => match right {
            Value::List(other) => are_lists_equal(list, other),
            _ => false,
        },
        Value::Map(map) => match right {
            Value::Map(other) => are_maps_equal(map, other),
            _ => false,
        },
    }
}

#[cycle(equality)]
fn are_lists_equal(list: &ValueList, other: &ValueList) -> bool
    ensures { result ≡ equal_items list.now other.now }
{
    match (list.items(), other.items()) {
        (ListItems::Values(items), ListItems::Values(others)) => are_items_equal(items, others),
        (ListItems::Values(items), ListItems::Numbers(numbers)) => are_numbers(items, numbers),
        (ListItems::Numbers(numbers), ListItems::Values(others)) => are_numbers(others, numbers),
        (ListItems::Numbers(numbers), ListItems::Numbers(others)) => {
            are_ranges_equal(numbers, others)
        }
    }
}

/// Returns whether the values are the numbers of a range, or truth values that equal them.
fn are_numbers(values: &[Value], numbers: NumberRange) -> bool
    ensures { result ≡ equal_items (numbers_of numbers) (items_view values.now) }
{
    let mut rest = numbers;
    for value in values {
        match rest.split_first() {
            Some((number, behind)) if is_number(value, number) => rest = behind,
            _ => return false,
        }
    }
    rest.is_empty()
}

/// Returns whether two ranges have the same numbers.
fn are_ranges_equal(numbers: NumberRange, others: NumberRange) -> bool
    ensures { result ≡ equal_items (numbers_of numbers) (numbers_of others) }
{
    let mut rest = numbers;
    let mut others = others;
    while let Some((number, behind)) = rest.split_first() {
        match others.split_first() {
            Some((other, others_behind)) if number == other => {
                rest = behind;
                others = others_behind;
            }
            _ => return false,
        }
    }
    others.is_empty()
}

#[cycle(equality)]
fn are_items_equal(items: &[Value], others: &[Value]) -> bool
    ensures { result ≡ equal_items (items_view items.now) (items_view others.now) }
{
    if items.len() != others.len() {
        return false;
    }
    let mut index = 0;
    for item in items {
        if !are_equal(item, &others[index]) {
            return false;
        }
        index += 1;
    }
    true
}

#[cycle(equality)]
fn are_maps_equal(map: &ValueMap, other: &ValueMap) -> bool
    ensures { result ≡ equal (tree.map map.now) (tree.map other.now) }
{
    let entries = map.entries();
    let others = other.entries();
    if have_same_keys(entries, others) {
        return are_values_equal_in_place(map, others);
    }
    if let Some(equal) = are_equal_in_order(map, other) {
        return equal;
    }
    if differ_in_number(map, other) {
        return false;
    }
    has_all_keys(map, others) && are_first_values_equal(map, other)
}

/// Returns whether two maps are equal, in one pass over both in key order. Returns `None` if the
/// key order of a map is unknown.
#[cycle(equality)]
fn are_equal_in_order(map: &ValueMap, other: &ValueMap) -> Option<bool>
    ensures { IfSome result (λ equals. equals ≡ equal (tree.map map.now) (tree.map other.now)) }
{
    let mut entries = map.in_order()?;
    let mut others = other.in_order()?;
    while let Some((key, value)) = entries.next() {
        let Some((other_key, other_value)) = others.next() else {
            return Some(false);
        };
        if key != other_key || !are_equal(value, other_value) {
            return Some(false);
        }
    }
    Some(others.next().is_none())
}

/// Returns whether one map is known to have more different keys than the other map has entries. The
/// comparison of a large map with a short one then visits no entry.
fn differ_in_number(map: &ValueMap, other: &ValueMap) -> bool
    ensures { IsTrue result → equal (tree.map map.now) (tree.map other.now) ≡ false }
{
    has_more_keys(map, other.entries()) || has_more_keys(other, map.entries())
}

/// Returns whether the map is known to have more different keys than `others` are.
fn has_more_keys(map: &ValueMap, others: &[(Text, Value)]) -> bool
    ensures more { IsTrue result
        → equal (tree.map map.now) (tree.map (entries_view others.now)) ≡ false }
    ensures fewer { IsTrue result
        → equal (tree.map (entries_view others.now)) (tree.map map.now) ≡ false }
{
    match map.key_count() {
        Some(count) => count > others.len(),
        None => false,
    }
}

/// Returns whether a map has each key of the entries `others`.
fn has_all_keys(map: &ValueMap, others: &[(Text, Value)]) -> bool
    ensures { result ≡ all_keys (λ k. has_key k map.now) (entries_view others.now) }
{
    for other in others {
        if !map.contains_key(other.0.as_str()) {
            return false;
        }
    }
    true
}

/// Returns whether the first value of each key of `map` equals the key's first value in `others`.
/// The keys at each index are equal, so one pass suffices.
#[cycle(equality)]
fn are_values_equal_in_place(map: &ValueMap, others: &[(Text, Value)]) -> bool
    requires { same_keys map.now (entries_view others.now) ≡ true }
    ensures { result
        ≡ all_keys (λ k. equal_at map.now k (entry_of k (entries_view others.now))) map.now }
{
    let entries = map.entries();
    let mut index = 0;
    for (key, value) in entries {
        if !are_equal(value, &others[index].1) && !map.has_before(key, index) {
            return false;
        }
        index += 1;
    }
    true
}

/// Returns whether the first value of each key of `map` equals that key's first value in `other`.
#[cycle(equality)]
fn are_first_values_equal(map: &ValueMap, other: &ValueMap) -> bool
    ensures { result ≡ all_keys (λ k. equal_at map.now k (entry_of k other.now)) map.now }
{
    let entries = map.entries();
    let mut index = 0;
    for (key, value) in entries {
        let counts = !map.has_before(key, index);
        if counts && !is_first_value(value, key, other) {
            return false;
        }
        index += 1;
    }
    true
}

/// Returns whether the value equals the key's first value in the map.
#[cycle(equality)]
fn is_first_value(value: &Value, key: &str, map: &ValueMap) -> bool
    ensures { result ≡ option_map_or (equal (view value.now)) (entry_of key.now map.now) false }
{
    match map.get(key) {
        Some(first) => are_equal(value, first),
        None => false,
    }
}
