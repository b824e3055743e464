//! Makes lists of items and of entries, and measures them.
ghost use Rattle.std.specs.Prelude.{◌≡◌, ◌-◌, ◌^◌, min, IfOk, Ok};
ghost use Rattle.jt_value.specs.Tree as tree;
ghost use Rattle.jt_value.specs.Tree.{items_size, items_nesting};
ghost use Rattle.jt_value.specs.View.{view, items_view, entries_view};
ghost use Rattle.jt_filter_semantics.specs.Listing.{pair_items};
ghost use Rattle.jt_filter_semantics.specs.Listing as listing;
ghost use Rattle.jt_filters.specs.declared.sorting.Arrangement.{Arrangement};
ghost use Rattle.jt_filters.specs.internal.Operands.{items_in, measured, Lists};
ghost use Rattle.jt_filters.specs.internal.Ranks.{arranged};

use crate::item_list::ItemList;
use crate::maker::Maker;
use crate::sorting::{Arrangement, arranged};
use jt_value::{NoMemory, Text, Value};
use std::alloc::Global;

/// Returns the size of items, at most 2^64 - 1, and their nesting, at most 2^32 - 1.
fn items_measure(items: ItemList<'_>) -> (u64, u32)
    ensures size { result.0 ≡ min (items_size (items_in items.entry)) (2 ^ 64 - 1) }
    ensures nesting { result.1 ≡ min (items_nesting (items_in items.entry)) (2 ^ 32 - 1) }
{
    let mut items = items;
    let mut size = 0u64;
    let mut nesting = 0u32;
    while let Some((item, behind)) = items.split_first() {
        size = size.saturating_add(item.size());
        nesting = nesting.max(item.nesting());
        items = behind;
    }
    (size, nesting)
}

/// Returns the measure of the list of the items, in any order.
#[tactic(auto, using(crate::proofs::SortOrders::arranged_measures))]
pub(crate) fn list_measure(items: ItemList<'_>) -> (u64, u32)
    ensures listed { Ok result ≡ measured (Ok (tree.list (items_in items.entry))) }
    ensures arranged { (a : Arrangement)
        → Ok result ≡ measured (Ok (tree.list (arranged a (items_in items.entry)))) }
{
    let (size, nesting) = items_measure(items);
    (size.saturating_add(1), nesting.saturating_add(1))
}

/// Returns the list of the items in an order.
pub(crate) fn list(
    maker: Maker<'_>,
    items: ItemList<'_>,
    arrangement: Arrangement,
) -> Result<Value, NoMemory>
    ensures { Lists (arranged arrangement (items_in items.entry)) result }
{
    Value::list(maker.alloc, arranged(values(maker, items)?, arrangement)?)
}

/// Returns the values of the items.
#[tactic(auto, using(crate::proofs::ListAppend::pushed, jt_value::proofs::Lists::joined_none))]
pub(crate) fn values(maker: Maker<'_>, items: ItemList<'_>) -> Result<Vec<Value>, NoMemory>
    ensures { IfOk result (λ v. items_view v.items ≡ items_in items.entry) }
{
    let mut items = items;
    let mut values = Vec::with_capacity(maker.alloc, items.len())?;
    while let Some((item, behind)) = items.split_first() {
        values.push(item.value(maker)?)?;
        items = behind;
    }
    Ok(values)
}

/// Returns the measure of the list of a map's entries, in any order. Each entry is a list of its
/// key and its value.
#[tactic(auto, using(crate::proofs::SortOrders::arranged_measures))]
pub(crate) fn pair_list_measure(entries: &[(Text, Value)]) -> (u64, u32)
    ensures { (a : Arrangement) → Ok result
        ≡ measured (Ok (tree.list (arranged a (pair_items (entries_view entries.now))))) }
{
    let (size, nesting) = pairs_measure(entries);
    (size.saturating_add(1), nesting.saturating_add(1))
}

/// Returns the list of a map's entries in an order.
pub(crate) fn pair_list(
    alloc: Global,
    entries: &[(Text, Value)],
    arrangement: Arrangement,
) -> Result<Value, NoMemory>
    ensures { Lists (arranged arrangement (pair_items (entries_view entries.now))) result }
{
    Value::list(alloc, arranged(pairs(alloc, entries)?, arrangement)?)
}

/// Returns the size, at most 2^64 - 1, and the nesting, at most 2^32 - 1, of a map's entries as
/// lists.
fn pairs_measure(entries: &[(Text, Value)]) -> (u64, u32)
    ensures size { result.0
        ≡ min (items_size (pair_items (entries_view entries.now))) (2 ^ 64 - 1) }
    ensures nesting { result.1
        ≡ min (items_nesting (pair_items (entries_view entries.now))) (2 ^ 32 - 1) }
{
    let mut size = 0u64;
    let mut nesting = 0u32;
    for entry in entries {
        size = size
            .saturating_add(entry.0.len() as u64)
            .saturating_add(entry.1.size())
            .saturating_add(2);
        nesting = nesting.max(entry.1.nesting().saturating_add(1));
    }
    (size, nesting)
}

/// Returns a map's entries, each as a list of its key and its value.
fn pairs(alloc: Global, entries: &[(Text, Value)]) -> Result<Vec<Value>, NoMemory>
    ensures { IfOk result (λ v. items_view v.items ≡ pair_items (entries_view entries.now)) }
{
    let mut pairs = Vec::with_capacity(alloc, entries.len())?;
    for entry in entries {
        pairs.push(pair(alloc, &entry.0, &entry.1)?)?;
    }
    Ok(pairs)
}

/// Returns the list of copies of a key and of its value.
fn pair(alloc: Global, key: &Text, value: &Value) -> Result<Value, NoMemory>
    ensures { IfOk result (λ v. view v ≡ listing.pair key.now (view value.now)) }
{
    let mut pair = Vec::with_capacity(alloc, 2)?;
    pair.push(Value::shared_text(key.clone()?))?;
    pair.push(value.try_clone(alloc)?)?;
    Value::list(alloc, pair)
}
