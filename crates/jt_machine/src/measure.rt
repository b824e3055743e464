//! Measures entries of the stack before a value is made of them.
ghost use Rattle.std.specs.Prelude.{◌≡◌, ◌-◌, ◌+◌, ◌^◌, ℕ, min, max, length, if◌then◌else◌};
ghost use Rattle.jt_value.specs.Tree.{size, nesting, items_size, items_nesting};
ghost use Rattle.jt_value.specs.View.{view, items_of};
ghost use Rattle.jt_image.specs.Step.{greatest, key_bytes};
ghost use Rattle.jt_machine.specs.Entries.{entry_view, held, all_held};
ghost use Rattle.jt_machine.specs.internal.Making.{is_named as is_named_in, lasting_size};
ghost use Rattle.jt_machine.specs.internal.Making.{lasting_nesting};

use crate::entries::StackEntry;
use jt_value::Value;

// Returns the size of the value that an entry holds.
fn held_size(entry: &StackEntry) -> u64
    ensures { result ≡ min (size (held (entry_view entry.now))) (2 ^ 64 - 1) }
{
    match entry {
        StackEntry::Value(value) => value.size(),
        _ => 1,
    }
}

// Returns the nesting of the value that an entry holds.
fn held_nesting(entry: &StackEntry) -> u32
    ensures { result ≡ min (nesting (held (entry_view entry.now))) (2 ^ 32 - 1) }
{
    match entry {
        StackEntry::Value(value) => value.nesting(),
        _ => 0,
    }
}

/// Returns the sum of the sizes of the values that entries hold, or the greatest `u64` if the sum
/// is greater.
pub(crate) fn sizes(entries: &[StackEntry]) -> u64
    ensures { result ≡ min (items_size (items_of (all_held entries.now))) (2 ^ 64 - 1) }
{
    let mut total = 0u64;
    'entries: for entry in entries {
        total = total.saturating_add(held_size(entry));
    }
    total
}

/// Returns the greatest nesting of the values that entries hold.
pub(crate) fn deepest(entries: &[StackEntry]) -> u32
    ensures { result ≡ min (items_nesting (items_of (all_held entries.now))) (2 ^ 32 - 1) }
{
    let mut most = 0u32;
    'entries: for entry in entries {
        most = most.max(held_nesting(entry));
    }
    most
}

/// Returns the greatest size of the values that entries hold, or the greatest `u64` if it is
/// greater.
pub(crate) fn largest_held(entries: &[StackEntry]) -> u64
    ensures { result ≡ min (greatest size (all_held entries.now)) (2 ^ 64 - 1) }
{
    let mut most = 0u64;
    'entries: for entry in entries {
        most = most.max(held_size(entry));
    }
    most
}

/// Returns the greatest nesting of the values that entries hold, or the greatest `u32` if it is
/// greater.
pub(crate) fn deepest_held(entries: &[StackEntry]) -> u32
    ensures { result ≡ min (greatest nesting (all_held entries.now)) (2 ^ 32 - 1) }
{
    let mut most = 0u32;
    'entries: for entry in entries {
        most = most.max(held_nesting(entry));
    }
    most
}

// Returns the text of a key.
fn text_of(value: &Value) -> &str
    ensures { result.now ≡ key_bytes (view value.now) }
{
    match value.as_text() {
        Some(text) => text,
        None => "",
    }
}

// Returns the text of the key that an entry holds.
fn key_of(entry: &StackEntry) -> &str
    ensures { result.now ≡ key_bytes (held (entry_view entry.now)) }
{
    match entry {
        StackEntry::Value(value) => text_of(value),
        _ => "",
    }
}

// Returns whether a key occurs among entries that are alternately keys and values.
fn is_named(key: &str, pairs: &[StackEntry]) -> bool
    ensures { result ≡ is_named_in key.now (all_held pairs.now) }
{
    match pairs {
        [other, _, behind @ ..] => key == key_of(other) || is_named(key, behind),
        _ => false,
    }
}

// Returns the size and the nesting `rest` with one key and its value added. Adds nothing if `named`
// is true, since the key occurs again.
fn weighed(key: &StackEntry, value: &StackEntry, named: bool, rest: (u64, u32)) -> (u64, u32)
    ensures size { (n : ℕ)
        → rest.0 ≡ min n (2 ^ 64 - 1)
        → result.0 ≡ min (n + (if named then 0
        else 1 + length (key_bytes (held (entry_view key.now)))
        + size (held (entry_view value.now)))) (2 ^ 64 - 1) }
    ensures nesting { (n : ℕ)
        → rest.1 ≡ min n (2 ^ 32 - 1)
        → result.1 ≡ min (max n (if named then 0 else nesting (held (entry_view value.now))))
        (2 ^ 32 - 1) }
{
    if named {
        return rest;
    }
    let weight = held_size(value).saturating_add(1 + key_of(key).len() as u64);
    (
        rest.0.saturating_add(weight),
        rest.1.max(held_nesting(value)),
    )
}

/// Returns the size and the nesting that alternating keys and values have as entries of a map. If a
/// key occurs twice, its last value counts.
pub(crate) fn lasting(pairs: &[StackEntry]) -> (u64, u32)
    ensures size { result.0 ≡ min (lasting_size (all_held pairs.now)) (2 ^ 64 - 1) }
    ensures nesting { result.1 ≡ min (lasting_nesting (all_held pairs.now)) (2 ^ 32 - 1) }
{
    match pairs {
        [key, value, behind @ ..] => {
            weighed(key, value, is_named(key_of(key), behind), lasting(behind))
        }
        _ => (0, 0),
    }
}
