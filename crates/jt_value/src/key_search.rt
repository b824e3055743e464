//! Finds the first entry of a key in a map.
ghost use Rattle.std.specs.Prelude.{◌≡◌, ◌<◌, ℕ, List, None, true, length, IfOk, OnOk, OnErr, IsOk};
ghost use Rattle.std.specs.Prelude.{option_map, option_copied, IfSome};
ghost use Rattle.std.specs.BTreeMap.{get_by_text};
ghost use Rattle.jt_value.specs.Entries.{index_of, entry_of, ascends};
ghost use Rattle.jt_value.specs.KeySearch.{Finds};
ghost use Rattle.jt_value.specs.Tree.{Tree};
ghost use Rattle.jt_value.specs.View.{view, entries_view};
ghost use Rattle.jt_value.specs.internal.InOrder.{HasKeyCount};
ghost use Rattle.jt_value.specs.internal.MoreEntries.{more_entries, IsLinear};

use crate::entries::{ascend, first_index, stays_ascending};
use crate::text::Text;
use crate::value::Value;
use std::alloc::{AllocError, Global};
use std::collections::BTreeMap;

/// The greatest number of entries that are searched linearly. For such a short map no other search
/// is faster, and no index is stored.
const FEW: usize = 8;

/// The way to find a key in a map.
#[derive(Drop)]
pub(crate) enum KeySearch {
    /// A linear search: the entries are few.
    Linear,
    /// A binary search: the keys ascend in byte order.
    Binary,
    /// An index that maps each key to its first entry.
    Indexed(BTreeMap<String, usize>),
}

impl KeySearch {
    /// Returns the search for these entries. Allocates only if they are many and their keys do not
    /// ascend.
    pub(crate) fn new(alloc: Global, entries: &[(Text, Value)]) -> Result<KeySearch, AllocError>
        ensures { IfOk result (λ search. Finds search (entries_view entries.now)) }
    {
        if entries.len() <= FEW {
            return Ok(KeySearch::Linear);
        }
        if ascend(entries) {
            return Ok(KeySearch::Binary);
        }
        Ok(KeySearch::Indexed(first_indices(alloc, entries)?))
    }

    /// Returns the index of a key's first entry, or `None` if the key does not occur.
    pub(crate) fn index_of(&self, entries: &[(Text, Value)], key: &str) -> Option<usize>
        requires { Finds self.now (entries_view entries.now) }
        ensures { result ≡ index_of key.now (entries_view entries.now) }
    {
        match self {
            KeySearch::Linear => first_index(entries, key),
            KeySearch::Binary => ascending_index(entries, key),
            KeySearch::Indexed(indices) => indices.get(key).copied(),
        }
    }

    /// Returns the first value of a key, or `None` if the key does not occur.
    pub(crate) fn get<'a>(&self, entries: &'a [(Text, Value)], key: &str) -> Option<&'a Value>
        requires { Finds self.now (entries_view entries.now) }
        ensures { option_map view (option_copied result)
            ≡ entry_of key.now (entries_view entries.now) }
    {
        match self.index_of(entries, key) {
            Some(index) => Some(&entries[index].1),
            None => None,
        }
    }

    /// Returns the number of different keys, or `None` if a linear search serves the entries.
    pub(crate) fn key_count(&self, entries: &[(Text, Value)]) -> Option<usize>
        requires { Finds self.now (entries_view entries.now) }
        ensures { IfSome result (λ count. HasKeyCount count (entries_view entries.now)) }
    {
        match self {
            KeySearch::Linear => None,
            KeySearch::Binary => Some(entries.len()),
            KeySearch::Indexed(indices) => Some(indices.len()),
        }
    }

    /// Prepares the search for one more entry, at the end of the entries. Its key is new.
    pub(crate) fn add(
        &mut self,
        alloc: Global,
        entries: &[(Text, Value)],
        key: &str,
    ) -> Result<(), AllocError>
        requires finds { Finds self.old (entries_view entries.now) }
        requires new { index_of key.now (entries_view entries.now) ≡ None }
        ensures ok { OnOk result ((value : Tree)
            → Finds self.new (more_entries (entries_view entries.now) key.now value)) }
        ensures err { OnErr result (Finds self.new (entries_view entries.now)) }
        ensures few { IsLinear self.old → length entries.now < 8 → IsOk result × IsLinear self.new }
    {
        match self {
            KeySearch::Linear if entries.len() < FEW => {}
            KeySearch::Binary if stays_ascending(entries, key) => {}
            KeySearch::Indexed(indices) => add_index(indices, alloc, entries, key)?,
            _ => *self = longer_search(alloc, entries, key)?,
        }
        Ok(())
    }
}

/// Returns the search for the entries and one more, whose key is new.
fn longer_search(
    alloc: Global,
    entries: &[(Text, Value)],
    key: &str,
) -> Result<KeySearch, AllocError>
    requires { index_of key.now (entries_view entries.now) ≡ None }
    ensures { IfOk result (λ search. (value : Tree)
        → Finds search (more_entries (entries_view entries.now) key.now value)) }
{
    if ascend(entries) && stays_ascending(entries, key) {
        return Ok(KeySearch::Binary);
    }
    let mut indices = first_indices(alloc, entries)?;
    add_index(&mut indices, alloc, entries, key)?;
    Ok(KeySearch::Indexed(indices))
}

/// Adds the index of one more entry, whose key is new.
fn add_index(
    indices: &mut BTreeMap<String, usize>,
    alloc: Global,
    entries: &[(Text, Value)],
    key: &str,
) -> Result<(), AllocError>
    requires finds { (k : List ℕ)
        → get_by_text indices.old k ≡ index_of k (entries_view entries.now) }
    requires new { index_of key.now (entries_view entries.now) ≡ None }
    ensures ok { OnOk result ((k : List ℕ) (value : Tree)
        → get_by_text indices.new k
        ≡ index_of k (more_entries (entries_view entries.now) key.now value)) }
    ensures err { OnErr result ((k : List ℕ)
        → get_by_text indices.new k ≡ index_of k (entries_view entries.now)) }
{
    let name = String::from_str(alloc, key)?;
    let _earlier = indices.insert(name, entries.len())?;
    Ok(())
}

/// Returns the index of each key's first entry. The entries are visited from the last to the first,
/// so the first entry of a repeated key overwrites the later ones.
fn first_indices(
    alloc: Global,
    entries: &[(Text, Value)],
) -> Result<BTreeMap<String, usize>, AllocError>
    ensures { IfOk result (λ indices. (k : List ℕ)
        → get_by_text indices k ≡ index_of k (entries_view entries.now)) }
{
    let mut indices = BTreeMap::new(alloc);
    let mut left = entries.len();
    while left > 0 {
        left -= 1;
        let name = String::from_str(alloc, entries[left].0.as_str())?;
        let _behind = indices.insert(name, left)?;
    }
    Ok(indices)
}

/// Returns the index of a key in entries whose keys ascend, or `None` if the key does not occur.
fn ascending_index(entries: &[(Text, Value)], key: &str) -> Option<usize>
    requires { ascends (entries_view entries.now) ≡ true }
    ensures { result ≡ index_of key.now (entries_view entries.now) }
{
    entries
        .binary_search_by(|entry| entry.0.as_str().cmp(key))
        .ok()
}
