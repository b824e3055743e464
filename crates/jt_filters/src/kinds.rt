//! Checks the kinds of items that filters accept.
ghost use Rattle.std.specs.Prelude.{◌≡◌};
ghost use Rattle.jt_filter_semantics.specs.Kinds as kinds;
ghost use Rattle.jt_filter_semantics.specs.Kinds.{all_numbers, all_plain, have_order};
ghost use Rattle.jt_filters.specs.internal.Operands.{items_in};

use crate::item_list::ItemList;
use jt_value::Fault;

/// Returns whether all items are numbers.
pub(crate) fn are_numbers(items: ItemList<'_>) -> bool
    ensures { result ≡ all_numbers (items_in items.entry) }
{
    let mut items = items;
    while let Some((item, behind)) = items.split_first() {
        if item.as_number().is_none() {
            return false;
        }
        items = behind;
    }
    true
}

/// Returns whether all items are plain texts.
pub(crate) fn are_plain(items: ItemList<'_>) -> bool
    ensures { result ≡ all_plain (items_in items.entry) }
{
    let mut items = items;
    while let Some((item, behind)) = items.split_first() {
        if !item.is_plain() {
            return false;
        }
        items = behind;
    }
    true
}

/// Returns whether the items can be ordered: all are numbers, or all are plain texts.
pub(crate) fn are_in_order(items: ItemList<'_>) -> bool
    ensures { result ≡ have_order (items_in items.entry) }
{
    are_numbers(items) || are_plain(items)
}

/// Returns whether one of the items is undefined.
fn has_undefined(items: ItemList<'_>) -> bool
    ensures { result ≡ kinds.has_undefined (items_in items.entry) }
{
    let mut items = items;
    while let Some((item, behind)) = items.split_first() {
        if item.is_undefined() {
            return true;
        }
        items = behind;
    }
    false
}

/// Returns the fault of items that a filter does not accept.
pub(crate) fn operand_fault_of_items(items: ItemList<'_>) -> Fault
    ensures { result ≡ kinds.operand_fault_of_items (items_in items.entry) }
{
    if has_undefined(items) {
        Fault::Undefined
    } else {
        Fault::BadType
    }
}
