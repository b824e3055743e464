//! Plans the results of the filters that work on their input as a whole. Nothing here allocates.
ghost use Rattle.std.specs.Prelude.{◌≡◌, ◌∷◌, []};
ghost use Rattle.jt_value.specs.View.{view};
ghost use Rattle.jt_filter_semantics.specs.Listing.{on_items, listed, reversed, pairs_of};
ghost use Rattle.jt_filter_semantics.specs.Listing.{joined_by};
ghost use Rattle.jt_filter_semantics.specs.Ordering.{sorted_list, sorted_pairs, distinct};
ghost use Rattle.jt_filter_semantics.specs.Single.{single};
ghost use Rattle.jt_filter_semantics.specs.Texts.{escaped_once, replaced};
ghost use Rattle.jt_filters.specs.internal.Operands.{tree_of, items_in, inputs, chosen};
ghost use Rattle.jt_filters.specs.internal.Plans.{made, planned};

use crate::attributes::attribute;
use crate::item_list::{ItemList, items_of};
use crate::kinds::{are_numbers, are_plain, operand_fault_of_items};
use crate::operand::Operand;
use crate::plans::Plan;
use crate::replacing::replacement_of;
use crate::scalars::{abs, best_item, first, int, last, length, or_default, sum};
use crate::sorting::{Arrangement, Order};
use crate::texts::TextChange;
use jt_ids::FilterId;
use jt_value::{Fault, Value};

/// A call of a filter, without its input.
#[derive(Clone, Copy)]
pub(crate) struct Call<'a> {
    pub(crate) filter: FilterId,
    pub(crate) arguments: &'a [Value],
    pub(crate) autoescape: bool,
}

impl<'a> Call<'a> {
    /// Returns the plan of the filter's result, or its fault. A call with a number of values that
    /// the filter does not take has the fault of the definition; no caller makes such a call.
    pub(crate) fn plan(self, operand: Operand<'a>) -> Result<Plan<'a>, Fault>
        ensures { planned result
            ≡ single self.entry.filter self.entry.autoescape
            (inputs operand.entry self.entry.arguments.now) }
    {
        match self.arguments {
            [] => self.plan_one(operand),
            [argument] => self.plan_two(operand, argument),
            [first, second] => self.plan_three(operand, first, second),
            _ => Err(Fault::BadType),
        }
    }

    /// Returns the plan of the filter's result on its input alone.
    fn plan_one(self, operand: Operand<'a>) -> Result<Plan<'a>, Fault>
        ensures { planned result
            ≡ single self.entry.filter self.entry.autoescape (tree_of operand.entry ∷ []) }
    {
        match self.filter {
            FilterId::Abs => scalar(abs(operand)),
            FilterId::Capitalize => Ok(Plan::Text(operand, TextChange::Capital)),
            FilterId::Default => scalar(Ok(or_default(operand, Operand::Text(""), false))),
            FilterId::DictSort => dictsort(operand),
            FilterId::Escape => Ok(escape(operand)),
            FilterId::First => scalar(first(operand)),
            FilterId::ForceEscape => Ok(Plan::Text(operand, TextChange::Escaped)),
            FilterId::Int => scalar(int(operand, Operand::Number(0))),
            FilterId::Items => items(operand),
            FilterId::Join => join(operand, Operand::Text(""), self.autoescape),
            FilterId::Last => scalar(last(operand)),
            FilterId::Length => scalar(length(operand)),
            FilterId::List => list(operand),
            FilterId::Lower => Ok(Plan::Text(operand, TextChange::Lower)),
            FilterId::Max => scalar(best_item(operand, true)),
            FilterId::Min => scalar(best_item(operand, false)),
            FilterId::Reverse => reverse(operand),
            FilterId::Safe => Ok(Plan::Text(operand, TextChange::Safe)),
            FilterId::Sort => sort(operand, false),
            FilterId::String => Ok(Plan::Text(operand, TextChange::Unchanged)),
            FilterId::Sum => scalar(sum(operand)),
            FilterId::Trim => Ok(Plan::Text(operand, TextChange::Trimmed)),
            FilterId::Unique => unique(operand),
            FilterId::Upper => Ok(Plan::Text(operand, TextChange::Upper)),
            _ => Err(Fault::BadType),
        }
    }

    /// Returns the plan of the filter's result on its input and one argument.
    fn plan_two(self, operand: Operand<'a>, argument: &'a Value) -> Result<Plan<'a>, Fault>
        ensures { planned result
            ≡ single self.entry.filter self.entry.autoescape
            (tree_of operand.entry ∷ view argument.now ∷ []) }
    {
        let given = Operand::Value(argument);
        match self.filter {
            FilterId::Attr => scalar(attribute(operand, argument)),
            FilterId::Default => scalar(Ok(or_default(operand, given, false))),
            FilterId::Int => scalar(int(operand, given)),
            FilterId::Join => join(operand, given, self.autoescape),
            FilterId::Sort => sort(operand, argument.truth()),
            _ => Err(Fault::BadType),
        }
    }

    /// Returns the plan of the filter's result on its input and two arguments.
    fn plan_three(
        self,
        operand: Operand<'a>,
        first: &'a Value,
        second: &'a Value,
    ) -> Result<Plan<'a>, Fault>
        ensures { planned result
            ≡ single self.entry.filter self.entry.autoescape
            (tree_of operand.entry ∷ view first.now ∷ view second.now ∷ []) }
    {
        match self.filter {
            FilterId::Default => {
                scalar(Ok(or_default(operand, Operand::Value(first), second.truth())))
            },
            FilterId::Replace => replace(operand, first, second),
            _ => Err(Fault::BadType),
        }
    }
}

/// Returns the plan of an operand, or its fault.
fn scalar(given: Result<Operand<'_>, Fault>) -> Result<Plan<'_>, Fault>
    ensures { planned result ≡ chosen given.entry }
{
    Ok(Plan::Operand(given?))
}

/// Plans filter `escape`.
#[tactic(auto, using(crate::proofs::TextMeasures::escaped_kinds))]
fn escape(operand: Operand<'_>) -> Plan<'_>
    ensures { made result ≡ escaped_once (tree_of operand.entry) }
{
    if operand.is_markup() {
        Plan::Text(operand, TextChange::Safe)
    } else {
        Plan::Text(operand, TextChange::Escaped)
    }
}

/// Plans filter `join`.
fn join<'a>(
    operand: Operand<'a>,
    separator: Operand<'a>,
    autoescape: bool,
) -> Result<Plan<'a>, Fault>
    ensures { planned result
        ≡ on_items (joined_by autoescape (tree_of separator.entry)) (tree_of operand.entry) }
{
    Ok(Plan::Joined(items_of(operand)?, separator, autoescape))
}

/// Plans filter `list`. The list of a list is the list itself.
#[tactic(auto, using(crate::proofs::Payloads::list_listed))]
fn list(operand: Operand<'_>) -> Result<Plan<'_>, Fault>
    ensures { planned result ≡ on_items listed (tree_of operand.entry) }
{
    match operand.as_list() {
        Some(_) => Ok(Plan::Operand(operand)),
        None => Ok(Plan::List(items_of(operand)?, Arrangement::Unchanged)),
    }
}

/// Plans filter `unique`.
fn unique(operand: Operand<'_>) -> Result<Plan<'_>, Fault>
    ensures { planned result ≡ on_items distinct (tree_of operand.entry) }
{
    Ok(Plan::Unique(items_of(operand)?))
}

/// Plans filter `reverse`.
#[tactic(auto, using(crate::proofs::OperandKinds::reversals))]
fn reverse(operand: Operand<'_>) -> Result<Plan<'_>, Fault>
    ensures { planned result ≡ reversed (tree_of operand.entry) }
{
    if let Some(text) = operand.as_text() {
        return Ok(Plan::Text(Operand::Text(text), TextChange::Backwards));
    }
    match items_of(operand) {
        Ok(items) => Ok(Plan::List(items, Arrangement::Reversed)),
        Err(_) => Err(operand.operand_fault()),
    }
}

/// Plans filter `sort`, in descending order if `reverse` is true.
fn sort(operand: Operand<'_>, reverse: bool) -> Result<Plan<'_>, Fault>
    ensures { planned result ≡ on_items (sorted_list reverse) (tree_of operand.entry) }
{
    sorted(items_of(operand)?, reverse)
}

/// Returns the plan of the sorted list of the items, or their fault.
#[tactic(auto, using(crate::proofs::SortOrders::sorted_kinds))]
fn sorted(items: ItemList<'_>, reverse: bool) -> Result<Plan<'_>, Fault>
    ensures { planned result ≡ sorted_list reverse (items_in items.entry) }
{
    if are_numbers(items) {
        return Ok(Plan::List(items, Arrangement::Sorted(Order::Numbers, reverse)));
    }
    if are_plain(items) {
        return Ok(Plan::List(items, Arrangement::Sorted(Order::Texts, reverse)));
    }
    Err(operand_fault_of_items(items))
}

/// Plans filter `replace`.
fn replace<'a>(operand: Operand<'a>, old: &'a Value, new: &'a Value) -> Result<Plan<'a>, Fault>
    ensures { planned result ≡ replaced (tree_of operand.entry) (view old.now) (view new.now) }
{
    Ok(Plan::Replaced(replacement_of(operand, old, new)?))
}

/// Plans filter `items`.
#[tactic(auto, using(crate::proofs::Payloads::map_is, crate::proofs::OperandKinds::others_no_pairs))]
fn items(operand: Operand<'_>) -> Result<Plan<'_>, Fault>
    ensures { planned result ≡ pairs_of (tree_of operand.entry) }
{
    if let Some(map) = operand.as_map() {
        return Ok(Plan::Pairs(map.entries(), Arrangement::Unchanged));
    }
    if operand.is_undefined() {
        Ok(Plan::Pairs(&[], Arrangement::Unchanged))
    } else {
        Err(operand.operand_fault())
    }
}

/// Plans filter `dictsort`.
#[tactic(auto, using(crate::proofs::OperandKinds::others_not_sorted, crate::proofs::SortOrders::sorted_map))]
fn dictsort(operand: Operand<'_>) -> Result<Plan<'_>, Fault>
    ensures { planned result ≡ sorted_pairs (tree_of operand.entry) }
{
    match operand.as_map() {
        Some(map) => Ok(Plan::Pairs(map.entries(), Arrangement::Sorted(Order::Keys, false))),
        None => Err(operand.operand_fault()),
    }
}
