//! Defines the plan of a filter's result. It is measured before it is built.
ghost use Rattle.std.specs.Prelude.{◌≡◌};
ghost use Rattle.jt_escape.specs.Joining.{IsAnswer};
ghost use Rattle.jt_filter_semantics.specs.Ordering.{distinct};
ghost use Rattle.jt_ops.specs.Limited.{limited_by, Answers};
ghost use Rattle.jt_filters.specs.internal.Operands.{items_in, measured, Builds};
ghost use Rattle.jt_filters.specs.internal.Plans.{made};

use crate::item_list::ItemList;
use crate::joining::{Separator, join_measure, joined};
use crate::limiting::{allow_measured, built, refusal};
use crate::listing::{list, list_measure, pair_list, pair_list_measure};
use crate::maker::Maker;
use crate::operand::Operand;
use crate::replacing::Replacement;
use crate::sorting::Arrangement;
use crate::texts::{TextChange, changed_text, text_measure};
use crate::unique::{first_items, unique_list, unique_measure, unseen_list_measure};
use jt_ops::{Limits, OpError};
use jt_value::{Fault, Text, Value, ValueError};
use std::alloc::Global;

/// The result of a filter before it is built. Only texts can still be faults: an operand may have
/// no printed text.
#[derive(Clone, Copy)]
pub(crate) enum Plan<'a> {
    /// The input, a part of it, or a number.
    Operand(Operand<'a>),
    /// The changed printed text of an operand.
    Text(Operand<'a>, TextChange),
    /// A text with each occurrence of a part replaced.
    Replaced(Replacement<'a>),
    /// The list of items.
    List(ItemList<'a>, Arrangement),
    /// The list of a map's entries, each as a list of its key and its value.
    Pairs(&'a [(Text, Value)], Arrangement),
    /// The list of the items that are like no earlier one.
    Unique(ItemList<'a>),
    /// The text of items with a separator between them, and whether `join` keeps markup.
    Joined(ItemList<'a>, Operand<'a>, bool),
}

impl<'a> Plan<'a> {
    /// Returns the number of characters that become items of the result.
    pub(crate) fn letter_count(self) -> usize {
        match self {
            Plan::List(ItemList::Characters(text), _) => text.len(),
            Plan::Unique(ItemList::Characters(text)) => text.len(),
            _ => 0,
        }
    }

    /// Returns the size of the result, at most 2^64 - 1, and its nesting, at most 2^32 - 1. No
    /// measure fails for lack of memory: `unique` is only slower without it.
    pub(crate) fn measure(self, alloc: Global) -> Result<(u64, u32), Fault>
        ensures { result ≡ measured (made self.entry) }
    {
        match self {
            Plan::Operand(operand) => Ok((operand.size(), operand.nesting())),
            Plan::Text(operand, change) => text_measure(operand, change),
            Plan::Replaced(replacement) => Ok((replacement.len().saturating_add(1), 0)),
            Plan::List(items, _) => Ok(list_measure(items)),
            Plan::Pairs(entries, _) => Ok(pair_list_measure(entries)),
            Plan::Unique(items) => Ok(unique_measure(alloc, items)),
            Plan::Joined(items, separator, autoescape) => {
                join_measure(items, Separator::new(separator), autoescape)
            },
        }
    }

    /// Builds the result. Fails for lack of memory only if the result has a payload.
    pub(crate) fn build(self, maker: Maker<'_>) -> Result<Value, ValueError>
        ensures { Builds (made self.entry) result }
    {
        match self {
            Plan::Operand(operand) => Ok(operand.value(maker)?),
            _ => self.build_new(maker),
        }
    }

    /// Builds a result that is no operand, so a text or a list.
    fn build_new(self, maker: Maker<'_>) -> Result<Value, ValueError>
        ensures { IsAnswer (made self.entry) result }
    {
        match self {
            Plan::Operand(operand) => Ok(operand.value(maker)?),
            Plan::Text(operand, change) => changed_text(maker.alloc, operand, change),
            Plan::Replaced(replacement) => Ok(replacement.value(maker.alloc)?),
            Plan::List(items, arrangement) => Ok(list(maker, items, arrangement)?),
            Plan::Pairs(entries, arrangement) => Ok(pair_list(maker.alloc, entries, arrangement)?),
            Plan::Unique(items) => Ok(unique_list(maker, items)?),
            Plan::Joined(items, separator, autoescape) => {
                joined(maker, items, separator, autoescape)
            },
        }
    }

    /// Returns the result under limits. It is measured before it is built. `unique` finds its items
    /// once, for both.
    pub(crate) fn within(self, maker: Maker<'_>, limits: Limits) -> Result<Value, OpError>
        ensures { Answers result (limited_by limits (made self.entry)) }
    {
        match self {
            Plan::Unique(items) => unique_within(maker, items, limits),
            _ => self.measured_within(maker, limits),
        }
    }

    /// Returns the result under limits. It is measured before it is built.
    fn measured_within(self, maker: Maker<'_>, limits: Limits) -> Result<Value, OpError>
        ensures { Answers result (limited_by limits (made self.entry)) }
    {
        match allow_measured(self.measure(maker.alloc), limits) {
            Ok(()) => built(self.build(maker)),
            Err(error) => Err(error),
        }
    }
}

/// Returns the list of the items that are like no earlier one, under limits. If memory for them is
/// refused, they are measured without it.
fn unique_within(maker: Maker<'_>, items: ItemList<'_>, limits: Limits) -> Result<Value, OpError>
    ensures { Answers result (limited_by limits (distinct (items_in items.entry))) }
{
    match first_items(maker.alloc, items) {
        Ok(firsts) => {
            let plan = Plan::List(ItemList::Operands(&firsts), Arrangement::Unchanged);
            plan.measured_within(maker, limits)
        },
        Err(_) => Err(refusal(Ok(unseen_list_measure(items)), limits)),
    }
}
