//! Computes codes of items: bytes that distinguish items. Two items have the same code exactly if
//! they are alike.
ghost use Rattle.std.specs.Prelude.{◌≡◌, ◌∷◌, [], IfOk, OnOk};
ghost use Rattle.std.specs.BTreeMap.{insert_entry};
ghost use Rattle.std.specs.Cmp.Lexicographic.{slice_cmp};
ghost use Rattle.std.specs.Ordering.{nat_cmp};
ghost use Rattle.jt_value.specs.ListItems.{numbers_of};
ghost use Rattle.jt_value.specs.Tree as tree;
ghost use Rattle.jt_value.specs.View.{view, items_view, entries_view};
ghost use Rattle.jt_filters.specs.internal.Codes as codes;
ghost use Rattle.jt_filters.specs.internal.Codes.{code, item_code, number_code, text_code, rows};
ghost use Rattle.jt_filters.specs.internal.Codes.{rows_in, Adds};
ghost use Rattle.jt_filters.specs.internal.Operands.{tree_of};
ghost use Rattle.jt_filter_semantics.specs.Ordering.{fold};

use crate::operand::Operand;
use jt_value::{ListItems, NoMemory, NumberRange, Text, Value, ValueList};
use std::alloc::Global;
use std::collections::BTreeMap;

/// The bytes that are reserved for the code of an item that is no text.
const ROOM: usize = 32;

/// Returns the code of an item. A text, plain or markup, has the code of its fold.
#[tactic(auto, using(crate::proofs::SameCodes::folded_text, crate::proofs::SameCodes::no_text))]
pub(crate) fn code_of(alloc: Global, item: Operand<'_>) -> Result<Vec<u8>, NoMemory>
    ensures { IfOk result (λ v. v.items ≡ item_code (tree_of item.entry)) }
{
    let mut bytes = Vec::new(alloc);
    match item.as_text() {
        Some(text) => push_folded(&mut bytes, text)?,
        None => {
            bytes.reserve(ROOM)?;
            push_operand(alloc, &mut bytes, item)?;
        },
    }
    Ok(bytes)
}

/// Returns the code of an item in which letter case counts. Items that are equal have the same one.
pub(crate) fn exact_code_of(alloc: Global, item: Operand<'_>) -> Result<Vec<u8>, NoMemory>
    ensures { IfOk result (λ v. v.items ≡ code (tree_of item.entry)) }
{
    let mut bytes = Vec::new(alloc);
    bytes.reserve(room_for(item))?;
    push_operand(alloc, &mut bytes, item)?;
    Ok(bytes)
}

/// Returns the number of bytes to reserve for the code of an item: all those of a text.
fn room_for(item: Operand<'_>) -> usize {
    match item.as_text() {
        Some(text) => text.len().saturating_add(2),
        None => ROOM,
    }
}

/// Appends the code of a text's fold.
fn push_folded(bytes: &mut Vec<u8>, text: &str) -> Result<(), NoMemory>
    ensures { Adds (text_code (fold text.now)) bytes.old bytes.new result }
{
    bytes.reserve(text.len() + 2)?;
    bytes.push(4)?;
    for byte in text.as_bytes() {
        bytes.push(byte.to_ascii_lowercase())?;
    }
    bytes.push(255)?;
    Ok(())
}

/// Appends the code of an operand.
fn push_operand(alloc: Global, bytes: &mut Vec<u8>, operand: Operand<'_>) -> Result<(), NoMemory>
    ensures { Adds (code (tree_of operand.entry)) bytes.old bytes.new result }
{
    match operand {
        Operand::Undefined => push_byte(bytes, 1),
        Operand::Number(number) => push_number(bytes, number),
        Operand::Text(text) => push_text(bytes, text),
        Operand::Value(value) => push_value(alloc, bytes, value),
    }
}

/// Appends a byte.
fn push_byte(bytes: &mut Vec<u8>, byte: u8) -> Result<(), NoMemory>
    ensures { Adds (byte ∷ []) bytes.old bytes.new result }
{
    bytes.push(byte)?;
    Ok(())
}

/// Appends the code of a number.
#[inline(never)]
fn push_number(bytes: &mut Vec<u8>, number: i64) -> Result<(), NoMemory>
    ensures { Adds (number_code number) bytes.old bytes.new result }
{
    bytes.push(3)?;
    bytes.extend_from_slice(&number.to_le_bytes())?;
    Ok(())
}

/// Appends the code of a text.
#[inline(never)]
fn push_text(bytes: &mut Vec<u8>, text: &str) -> Result<(), NoMemory>
    ensures { Adds (text_code text.now) bytes.old bytes.new result }
{
    bytes.push(4)?;
    bytes.extend_from_slice(text.as_bytes())?;
    bytes.push(255)?;
    Ok(())
}

/// Appends the code of a value.
#[cycle(codes)]
fn push_value(alloc: Global, bytes: &mut Vec<u8>, value: &Value) -> Result<(), NoMemory>
    ensures { Adds (code (view value.now)) bytes.old bytes.new result }
{
    match value {
        Value::Undefined => push_byte(bytes, 1),
        Value::None => push_byte(bytes, 2),
        Value::Bool(truth) => push_number(bytes, if *truth { 1 } else { 0 }),
        Value::Int(number) => push_number(bytes, *number),
        Value::Text(text) => push_text(bytes, text.as_str()),
        Value::Markup(text) => push_text(bytes, text.as_str()),
        Value::List(list) => push_list(alloc, bytes, list),
        Value::Map(map) => push_rows(bytes, rows_of(alloc, map.entries())?),
    }
}

/// Appends the code of a list.
#[cycle(codes)]
fn push_list(alloc: Global, bytes: &mut Vec<u8>, list: &ValueList) -> Result<(), NoMemory>
    ensures { Adds (code (tree.list list.now)) bytes.old bytes.new result }
{
    match list.items() {
        ListItems::Values(values) => push_items(alloc, bytes, values),
        ListItems::Numbers(numbers) => push_numbers(bytes, numbers),
    }
}

/// Appends the code of the numbers of a range, as a list.
#[inline(never)]
fn push_numbers(bytes: &mut Vec<u8>, numbers: NumberRange) -> Result<(), NoMemory>
    ensures { Adds (code (tree.list (numbers_of numbers))) bytes.old bytes.new result }
{
    let mut rest = numbers;
    push_byte(bytes, 5)?;
    while let Some((number, behind)) = rest.split_first() {
        push_number(bytes, number)?;
        rest = behind;
    }
    push_byte(bytes, 0)
}

/// Appends the code of a list of items.
#[cycle(codes)]
fn push_items(alloc: Global, bytes: &mut Vec<u8>, items: &[Value]) -> Result<(), NoMemory>
    ensures { Adds (code (tree.list (items_view items.now))) bytes.old bytes.new result }
{
    push_byte(bytes, 5)?;
    for item in items {
        push_value(alloc, bytes, item)?;
    }
    push_byte(bytes, 0)
}

/// Returns the keys of a map in order, each with the code of its first value.
#[cycle(codes)]
#[inline(never)]
fn rows_of(alloc: Global, entries: &[(Text, Value)]) -> Result<BTreeMap<&str, Vec<u8>>, NoMemory>
    ensures { IfOk result (λ m. rows_in m.entries ≡ rows (entries_view entries.now)) }
{
    let mut rows = BTreeMap::new(alloc);
    let mut left = entries.len();
    while left > 0 {
        left -= 1;
        let entry = &entries[left];
        let mut bytes = Vec::new(alloc);
        push_value(alloc, &mut bytes, &entry.1)?;
        put_row(&mut rows, entry.0.as_str(), bytes)?;
    }
    Ok(rows)
}

/// Sets the row of a key. The insertion is not in the frame of a nested map.
#[inline(never)]
fn put_row<'a>(
    rows: &mut BTreeMap<&'a str, Vec<u8>>,
    key: &'a str,
    row: Vec<u8>,
) -> Result<(), NoMemory>
    ensures { OnOk result (rows_in rows.new.entries
        ≡ insert_entry (slice_cmp nat_cmp) (rows_in rows.old.entries) key.now row.items) }
{
    rows.insert(key, row)?;
    Ok(())
}

/// Appends the code of a map's rows.
#[inline(never)]
fn push_rows(bytes: &mut Vec<u8>, rows: BTreeMap<&str, Vec<u8>>) -> Result<(), NoMemory>
    ensures { Adds (6 ∷ codes.rows_code (rows_in rows.entry.entries)) bytes.old bytes.new result }
{
    let mut rows = rows;
    push_byte(bytes, 6)?;
    while let Some((key, row)) = rows.pop_first() {
        push_text(bytes, key)?;
        bytes.extend_from_slice(row.as_slice())?;
    }
    push_byte(bytes, 0)
}
