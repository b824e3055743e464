//! Reads the items of values, in order. Nothing here allocates.
ghost use Rattle.std.specs.Prelude.{◌≡◌, IfSome, IfNone};
ghost use Rattle.std.specs.Str.{chars};
ghost use Rattle.jt_value.specs.Iteration.{items_of_tree, character_items};
ghost use Rattle.jt_value.specs.ListItems.{listed};
ghost use Rattle.jt_value.specs.Tree as tree;
ghost use Rattle.jt_op_semantics.specs.ItemOf.{items_count};
ghost use Rattle.jt_filters.specs.internal.Operands.{tree_of, items_in, has_second, HasItems};

use crate::operand::Operand;
use jt_ops::character_count;
use jt_value::{Fault, ListItems, NumberRange, Text, Value};

/// A list of items: values, the numbers of a range, the characters of a text, the keys of a map, or
/// operands.
#[derive(Clone, Copy)]
pub(crate) enum ItemList<'a> {
    Values(&'a [Value]),
    Numbers(NumberRange),
    Characters(&'a str),
    Keys(&'a [(Text, Value)]),
    Operands(&'a [Operand<'a>]),
}

impl<'a> ItemList<'a> {
    /// Returns the number of items.
    #[tactic(auto, using(crate::proofs::Payloads::item_counts))]
    pub(crate) fn len(self) -> usize
        ensures { result ≡ items_count (items_in self.entry) }
    {
        match self {
            ItemList::Values(values) => values.len(),
            ItemList::Numbers(numbers) => numbers.len(),
            ItemList::Characters(text) => character_count(text),
            ItemList::Keys(entries) => entries.len(),
            ItemList::Operands(operands) => operands.len(),
        }
    }

    /// Returns whether there is a second item.
    pub(crate) fn has_second(self) -> bool
        ensures { result ≡ has_second (items_in self.entry) }
    {
        match self.split_first() {
            Some((_, behind)) => behind.split_first().is_some(),
            None => false,
        }
    }

    /// Returns the first item and the items after it.
    #[inline(always)]
    pub(crate) fn split_first(self) -> Option<(Operand<'a>, ItemList<'a>)>
        ensures some { IfSome result
            (λ p. items_in self.entry ≡ tree.item (tree_of p.0) (items_in p.1)) }
        ensures none { IfNone result (items_in self.entry ≡ tree.no_items) }
    {
        match self {
            ItemList::Values(values) => {
                let (first, rest) = values.split_first()?;
                Some((Operand::Value(first), ItemList::Values(rest)))
            }
            ItemList::Numbers(numbers) => {
                let (first, rest) = numbers.split_first()?;
                Some((Operand::Number(first), ItemList::Numbers(rest)))
            }
            ItemList::Characters(text) => {
                let (first, rest) = split_character(text)?;
                Some((Operand::Text(first), ItemList::Characters(rest)))
            }
            ItemList::Keys(entries) => {
                let (first, rest) = entries.split_first()?;
                Some((Operand::Text(first.0.as_str()), ItemList::Keys(rest)))
            }
            ItemList::Operands(operands) => {
                let (first, rest) = operands.split_first()?;
                Some((*first, ItemList::Operands(rest)))
            }
        }
    }
}

/// Returns the first character of a text, as a text, and the rest.
fn split_character(text: &str) -> Option<(&str, &str)>
    ensures some { IfSome result (λ p. character_items (chars text.now)
        ≡ tree.item (tree.text p.0.now) (character_items (chars p.1.now))) }
    ensures none { IfNone result (character_items (chars text.now) ≡ tree.no_items) }
{
    match text.chars().next() {
        Some(first) => Some(text.split_at(first.len_utf8())),
        None => None,
    }
}

/// Returns the items of a list.
fn listed_items(items: ListItems<'_>) -> ItemList<'_>
    ensures { items_in result ≡ listed items.entry }
{
    match items {
        ListItems::Values(values) => ItemList::Values(values),
        ListItems::Numbers(numbers) => ItemList::Numbers(numbers),
    }
}

/// Returns the items of a value.
pub(crate) fn items_of(operand: Operand<'_>) -> Result<ItemList<'_>, Fault>
    ensures { HasItems (items_of_tree (tree_of operand.entry)) result }
{
    if let Some(items) = operand.as_list() {
        return Ok(listed_items(items));
    }
    if let Some(text) = operand.as_text() {
        return Ok(ItemList::Characters(text));
    }
    if let Some(map) = operand.as_map() {
        return Ok(ItemList::Keys(map.entries()));
    }
    if operand.is_undefined() {
        Ok(ItemList::Values(&[]))
    } else {
        Err(Fault::NotIterable)
    }
}
