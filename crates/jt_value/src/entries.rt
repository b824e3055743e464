//! Searches and compares the entries of a map. A repeated key has its first value.
ghost use Rattle.std.specs.Prelude.{◌≡◌, true, IfOk, IsTrue};
ghost use Rattle.std.specs.Cmp.Lexicographic.{slice_cmp};
ghost use Rattle.std.specs.Ordering.{nat_cmp, is_lt};
ghost use Rattle.jt_value.specs.Entries.{index_of, same_keys, ascends};
ghost use Rattle.jt_value.specs.Tree.{Tree};
ghost use Rattle.jt_value.specs.View.{entries_view, text_keyed};
ghost use Rattle.jt_value.specs.internal.MoreEntries.{more_entries};

use crate::fault::NoMemory;
use crate::text::Text;
use crate::value::Value;
use std::alloc::Global;

/// Returns the index of a key's first entry, by a linear search.
pub(crate) fn first_index(entries: &[(Text, Value)], key: &str) -> Option<usize>
    ensures { result ≡ index_of key.now (entries_view entries.now) }
{
    let mut index = 0;
    for entry in entries {
        if entry.0.as_str() == key {
            return Some(index);
        }
        index += 1;
    }
    None
}

/// Returns whether both maps have equal keys at each index.
pub(crate) fn have_same_keys(entries: &[(Text, Value)], others: &[(Text, Value)]) -> bool
    ensures { result ≡ same_keys (entries_view entries.now) (entries_view others.now) }
{
    if entries.len() != others.len() {
        return false;
    }
    let mut index = 0;
    for entry in entries {
        if entry.0.as_str() != others[index].0.as_str() {
            return false;
        }
        index += 1;
    }
    true
}

/// Returns whether `key` precedes `other` in byte order.
fn is_before(key: &str, other: &str) -> bool
    ensures { result ≡ is_lt (slice_cmp nat_cmp key.now other.now) }
{
    key < other
}

/// Returns whether each key precedes the next one in byte order, as in a JSON object.
pub(crate) fn ascend(entries: &[(Text, Value)]) -> bool
    ensures { result ≡ ascends (entries_view entries.now) }
{
    for next in 1..entries.len() {
        if !is_before(entries[next - 1].0.as_str(), entries[next].0.as_str()) {
            return false;
        }
    }
    true
}

/// Returns whether a key follows the last entry's key in byte order, or there are no entries.
/// Ascending keys then still ascend with this key at the end.
pub(crate) fn stays_ascending(entries: &[(Text, Value)], key: &str) -> bool
    ensures { IsTrue result → ascends (entries_view entries.now) ≡ true → (value : Tree)
        → ascends (more_entries (entries_view entries.now) key.now value) ≡ true }
{
    match entries.last() {
        Some(last) => is_before(last.0.as_str(), key),
        None => true,
    }
}

/// Returns the entries with their keys as texts.
pub(crate) fn with_text_keys(
    alloc: Global,
    entries: Vec<(String, Value)>,
) -> Result<Vec<(Text, Value)>, NoMemory>
    ensures { IfOk result (λ es. es.items ≡ text_keyed entries.items) }
{
    let mut keyed = Vec::with_capacity(alloc, entries.len())?;
    for (key, value) in entries {
        keyed.push((Text::from_string(key)?, value))?;
    }
    Ok(keyed)
}
