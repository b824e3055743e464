//! Computes the items of a value.
ghost use Rattle.std.specs.Prelude.{◌≡◌, IfOk, encode_utf8, string_bytes};
ghost use Rattle.std.specs.Str.{chars};
ghost use Rattle.jt_value.specs.Tree as tree;
ghost use Rattle.jt_value.specs.Iteration.{character_items, key_items, items_of_tree};
ghost use Rattle.jt_value.specs.View.{view, items_view, entries_view};
ghost use Rattle.jt_machine.specs.internal.Iterating.{counted, AreItems};

use jt_ops::character_count;
use jt_value::{Fault, NoMemory, Text, Value, ValueError, ValueList};
use std::alloc::Global;
use std::rc::Rc;

/// Returns the items of a list, the keys of a map or the characters of a text. Undefined has no
/// items, and every other value is a fault.
pub(crate) fn items_of(alloc: Global, value: Value) -> Result<Vec<Value>, ValueError>
    ensures { AreItems (items_of_tree (view value)) result }
{
    match value {
        Value::Undefined => Ok(Vec::new(alloc)),
        Value::List(list) => Ok(list_items(list)?),
        Value::Map(map) => Ok(keys(alloc, map.entries())?),
        Value::Text(text) => Ok(characters(alloc, text.as_str())?),
        Value::Markup(text) => Ok(characters(alloc, text.as_str())?),
        Value::None => Err(ValueError::Fault(Fault::NotIterable)),
        Value::Bool(_) => Err(ValueError::Fault(Fault::NotIterable)),
        Value::Int(_) => Err(ValueError::Fault(Fault::NotIterable)),
    }
}

/// Returns the number of items of a value, or its fault. Nothing is built.
pub(crate) fn count_of(value: &Value) -> Result<usize, Fault>
    ensures { result ≡ counted (items_of_tree (view value.now)) }
{
    match value {
        Value::Undefined => Ok(0),
        Value::List(list) => Ok(list.items().len()),
        Value::Map(map) => Ok(map.entries().len()),
        Value::Text(text) => Ok(character_count(text.as_str())),
        Value::Markup(text) => Ok(character_count(text.as_str())),
        Value::None | Value::Bool(_) | Value::Int(_) => Err(Fault::NotIterable),
    }
}

// Returns the items of a list. They are moved if no other value shares the list, and copied
// otherwise. The numbers of a range are made values.
fn list_items(list: Rc<ValueList>) -> Result<Vec<Value>, NoMemory>
    ensures { IfOk result (λ vs. items_view vs.items ≡ list.value) }
{
    Ok(Rc::unwrap_or_clone(list)?.into_items()?)
}

// Returns the keys of a map as texts. They share the characters of the keys.
fn keys(alloc: Global, entries: &[(Text, Value)]) -> Result<Vec<Value>, NoMemory>
    ensures { IfOk result (λ vs. items_view vs.items ≡ key_items (entries_view entries.now)) }
{
    let mut keys = Vec::new(alloc);
    'entries: for entry in entries {
        keys.push(Value::shared_text(entry.0.clone()?))?;
    }
    Ok(keys)
}

// Returns a character as a text.
fn text_of(alloc: Global, c: char) -> Result<String, NoMemory>
    ensures { IfOk result (λ s. string_bytes s ≡ encode_utf8 c) }
{
    let mut text = String::new(alloc);
    text.push(c)?;
    Ok(text)
}

// Returns the characters of a text as texts.
fn characters(alloc: Global, text: &str) -> Result<Vec<Value>, NoMemory>
    ensures { IfOk result (λ vs. items_view vs.items ≡ character_items (chars text.now)) }
{
    let mut items = Vec::new(alloc);
    'characters: for c in text.chars() {
        items.push(Value::from_text(text_of(alloc, c)?)?)?;
    }
    Ok(items)
}
