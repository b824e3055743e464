//! Makes a map from alternating keys and values.
ghost use Rattle.std.specs.Prelude.{◌≡◌, ◌<◌, ◌∷◌, [], true, length, map, reverse, Ok, IfOk};
ghost use Rattle.std.specs.Prelude.{IfSome, IfNone, OnOk};
ghost use Rattle.std.specs.List.{list_all};
ghost use Rattle.jt_value.specs.Tree.{Entries, no_entries};
ghost use Rattle.jt_value.specs.View.{view, entries_view};
ghost use Rattle.jt_op_semantics.specs.Testing.{is_text};
ghost use Rattle.jt_image.specs.Config.{Config};
ghost use Rattle.jt_image.specs.Step.{mapped, keys_of, key_bytes, put_entry, put_entries};
ghost use Rattle.jt_image.specs.Run.{Ends};
ghost use Rattle.jt_machine.specs.Entries.{entry_view, held, all_held};
ghost use Rattle.jt_machine.specs.internal.Making.{key_fault as key_fault_of};
ghost use Rattle.jt_machine.specs.internal.Making.{keys_fault as keys_fault_of};
ghost use Rattle.jt_machine.specs.internal.Making.{first_fault as first_fault_of, upward};
ghost use Rattle.jt_machine.specs.internal.Making.{HasTextKeys, IsWithin};
ghost use Rattle.jt_machine.specs.InstructionSteps as part;
ghost use Rattle.jt_machine.specs.View.{budget_view, outcome_view};

use crate::entries::StackEntry;
use crate::limits::map_limit;
use crate::outcome::Outcome;
use indexmap::IndexMap;
use jt_budget::Budget;
use jt_value::{Fault, NoMemory, Text, Value};
use std::alloc::Global;

/// Returns the map of alternating keys and values; each key is a text. A repeated key keeps its
/// place and takes the later value.
pub(crate) fn map_of(alloc: Global, values: Vec<Value>) -> Result<Value, NoMemory>
    requires { list_all is_text (keys_of (map view values.items)) ≡ true }
    ensures { IfOk result (λ v. mapped (map view values.items) ≡ Ok (view v)) }
{
    let entries = entries_of(alloc, values)?;
    Value::from_entries(alloc, entries.into_iter().collect(alloc)?)
}

/// Returns how the run ends if alternating keys and values make no map within the limits. Nothing
/// is built.
pub(crate) fn map_refusal(pairs: &[StackEntry], budget: &Budget) -> Option<Outcome>
    ensures ends { IfSome result (λ o. (c : Config)
        → c.left ≡ budget_view budget.now
        → part.answering (mapped (all_held pairs.now)) (λ t. part.push t c part.step_on)
        ≡ Ends (outcome_view o)) }
    ensures fits { IfNone result (IsWithin (budget_view budget.now) (mapped (all_held pairs.now))) }
{
    if let Some(fault) = keys_fault(pairs) {
        return Some(Outcome::Fault(fault, None));
    }
    match map_limit(pairs, budget) {
        Some(spent) => Some(Outcome::Spent(spent)),
        None => None,
    }
}

// Returns the fault of a key that is not a text.
fn key_fault(key: &Value) -> Option<Fault>
    ensures { result ≡ key_fault_of (view key.now) }
{
    match key {
        Value::Text(_) | Value::Markup(_) => None,
        Value::Undefined => Some(Fault::Undefined),
        _ => Some(Fault::BadType),
    }
}

// Returns the fault that takes precedence of two: `Undefined` before `BadType`.
fn first_fault(one: Option<Fault>, other: Option<Fault>) -> Option<Fault>
    ensures { result ≡ first_fault_of one other }
{
    match (one, other) {
        (Some(Fault::BadType), Some(fault)) => Some(fault),
        (None, other) => other,
        (one, _) => one,
    }
}

// Returns the fault of the key that an entry holds.
fn held_fault(key: &StackEntry) -> Option<Fault>
    ensures { result ≡ key_fault_of (held (entry_view key.now)) }
{
    match key {
        StackEntry::Value(key) => key_fault(key),
        _ => Some(Fault::Undefined),
    }
}

// Returns the fault of the keys among alternating keys and values.
fn keys_fault(pairs: &[StackEntry]) -> Option<Fault>
    ensures { result ≡ keys_fault_of (all_held pairs.now) }
{
    match pairs {
        [] => None,
        [key] => held_fault(key),
        [key, _, behind @ ..] => first_fault(held_fault(key), keys_fault(behind)),
    }
}

// Pops the last value.
pub(crate) fn pop_last(values: &mut Vec<Value>) -> Option<Value>
    ensures some { IfSome result (λ v. upward values.old.items ≡ view v ∷ upward values.new.items) }
    ensures none { IfNone result (upward values.old.items ≡ []) }
    ensures fewer { IfSome result (λ _. length values.new.items < length values.old.items) }
{
    values.pop()
}

// Returns the characters of a key.
fn text_of_key(key: Value) -> Text
    requires { is_text (view key) ≡ true }
    ensures { result ≡ key_bytes (view key) }
{
    match key {
        Value::Text(text) | Value::Markup(text) => text,
        _ => unreachable!(),
    }
}

// Pops the last key and its value. Keys and values alternate from the end.
fn pop_pair(values: &mut Vec<Value>) -> Option<(Text, Value)>
    requires { HasTextKeys values.old.items }
    ensures some { IfSome result (λ p. (es : Entries)
        → put_entries es (upward values.old.items)
        ≡ put_entries (put_entry p.0 (view p.1) es) (upward values.new.items)) }
    ensures none { IfNone result ((es : Entries) → put_entries es (upward values.old.items) ≡ es) }
    ensures texts { IfSome result (λ _. HasTextKeys values.new.items) }
    ensures fewer { IfSome result (λ _. length values.new.items < length values.old.items) }
{
    let key = pop_last(values)?;
    let value = pop_last(values)?;
    Some((text_of_key(key), value))
}

// Sets the value of a key. A key that exists keeps its index.
fn put_pair(entries: &mut IndexMap<Text, Value>, key: Text, value: Value) -> Result<(), NoMemory>
    ensures { OnOk result (entries_view entries.new.entries
        ≡ put_entry key (view value) (entries_view entries.old.entries)) }
{
    let _earlier = entries.insert(key, value)?;
    Ok(())
}

// Returns the entries of alternating keys and values. A stack has at most 1,024 entries, so a map
// has at most 512 keys: keys with colliding hashes cost no more than a search through all keys.
fn entries_of(alloc: Global, mut values: Vec<Value>) -> Result<IndexMap<Text, Value>, NoMemory>
    requires { list_all is_text (keys_of (map view values.items)) ≡ true }
    ensures { IfOk result
        (λ es. entries_view es.entries ≡ put_entries no_entries (map view values.items)) }
{
    values.reverse();
    let mut entries = IndexMap::new(alloc);
    'pairs: while let Some((key, value)) = pop_pair(&mut values) {
        put_pair(&mut entries, key, value)?;
    }
    Ok(entries)
}
