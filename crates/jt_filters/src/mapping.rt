//! Implements filters that call a filter or a test on each item of their input, or look up its
//! attribute.
ghost use Rattle.std.specs.Prelude.{◌≡◌, ◌∷◌, map, Ok, IfOk, IfErr, IfSome, Some, option_map};
ghost use Rattle.jt_value.specs.Payload.{text_of};
ghost use Rattle.jt_value.specs.Tree as tree;
ghost use Rattle.jt_value.specs.View.{view, items_view};
ghost use Rattle.jt_ops.specs.Limited.{limited_by, Answers};
ghost use Rattle.jt_filter_semantics.specs.Mapping as the;
ghost use Rattle.jt_ids.specs.TestTable.{test_of_name};
ghost use Rattle.jt_filter_semantics.specs.Mapping.{named_by, filter_named, gathered, alone};
ghost use Rattle.jt_filter_semantics.specs.Single.{single};
ghost use Rattle.jt_filter_semantics.specs.Mapping.{as_list};
ghost use Rattle.jt_filters.specs.internal.Operands.{items_in, measured, Builds};
ghost use Rattle.jt_filters.specs.internal.Rows.{gives, Gives, row_measured, Changes};
ghost use Rattle.jt_filters.specs.internal.Rows.{MakesPredicate, RowFault, IsSought};

use crate::inner::{ItemAction, Predicate, Selection};
use crate::item_list::ItemList;
use crate::joining::Separator;
use crate::limiting::{allow_measured, built, refusal};
use crate::maker::{Maker, letters_for};
use crate::members::Members;
use crate::operand::Operand;
use crate::planning::Call;
use crate::seen_numbers::occurrences_in;
use jt_ids::{FilterId, TestId};
use jt_ops::{Limits, OpError, within};
use jt_search::TextIndex;
use jt_value::{Fault, ListItems, Value, ValueError};
use std::alloc::Global;

/// The least number of items, and of members of a list, for which the members are found by their
/// keys. To compare fewer takes less time.
const MANY: usize = 64;

/// The least number of items for which a text is searched by its index. To make the index takes as
/// long as some 1,000 searches for short parts, or some 20 of the slowest searches for long ones.
const MANY_PARTS: usize = 24;

/// The least number of bytes of such a text.
const LONG: usize = 256;

/// Returns the list of what the action makes of the items, under limits.
pub(crate) fn row_list_under<'a>(
    alloc: Global,
    items: ItemList<'a>,
    change: ItemAction<'a>,
    limits: Limits,
) -> Result<Value, OpError>
    requires { Gives change }
    ensures { Answers result (limited_by limits
        (as_list (gathered (gives change.entry) (items_in items.entry)))) }
{
    match change.container() {
        Some(container) => row_list_in(alloc, items, change, container, limits),
        None => limited_row_list(alloc, items, change, limits),
    }
}

/// Returns the list of what the action makes of the items, under limits. The action looks up each
/// item in a container.
fn row_list_in<'a>(
    alloc: Global,
    items: ItemList<'a>,
    change: ItemAction<'a>,
    container: &'a Value,
    limits: Limits,
) -> Result<Value, OpError>
    requires gives { Gives change }
    requires sought { IsSought (view container.now) change }
    ensures { Answers result (limited_by limits
        (as_list (gathered (gives change.entry) (items_in items.entry)))) }
{
    match container.as_list() {
        Some(ListItems::Values(list)) => row_list_among(alloc, items, change, list, limits),
        Some(ListItems::Numbers(numbers)) => match numbers.values(alloc) {
            Ok(list) => row_list_among(alloc, items, change, &list, limits),
            Err(_) => limited_row_list(alloc, items, change, limits),
        },
        None => row_list_within(alloc, items, change, container, limits),
    }
}

/// Returns the list of what the action makes of the items, under limits. The action looks up each
/// item in a container that is no list.
fn row_list_within<'a>(
    alloc: Global,
    items: ItemList<'a>,
    change: ItemAction<'a>,
    container: &'a Value,
    limits: Limits,
) -> Result<Value, OpError>
    requires gives { Gives change }
    requires sought { IsSought (view container.now) change }
    ensures { Answers result (limited_by limits
        (as_list (gathered (gives change.entry) (items_in items.entry)))) }
{
    match index_of(alloc, items, container) {
        Some(index) => {
            let change = change.within(container, &index);
            limited_row_list(alloc, items, change, limits)
        },
        None => limited_row_list(alloc, items, change, limits),
    }
}

/// Returns the index of a text in which each item is looked up. Returns `None` if a search for each
/// item is faster, if memory is refused, or for any other value.
fn index_of<'a>(alloc: Global, items: ItemList<'_>, container: &'a Value) -> Option<TextIndex<'a>>
    ensures { IfSome result (λ i. text_of (view container.now) ≡ Some i) }
{
    let text = container.as_text()?;
    if text.len() < LONG || items.len() < MANY_PARTS {
        return None;
    }
    match TextIndex::new(alloc, text) {
        Ok(index) => Some(index),
        Err(_) => None,
    }
}

/// Returns the list of what the action makes of the items, under limits. The action looks up each
/// item in a list.
fn row_list_among<'a>(
    alloc: Global,
    items: ItemList<'a>,
    change: ItemAction<'a>,
    list: &'a [Value],
    limits: Limits,
) -> Result<Value, OpError>
    requires gives { Gives change }
    requires sought { IsSought (tree.list (items_view list.now)) change }
    ensures { Answers result (limited_by limits
        (as_list (gathered (gives change.entry) (items_in items.entry)))) }
{
    match members_of(alloc, items, change, list) {
        Some(members) => limited_row_list(alloc, items, change.among(&members), limits),
        None => limited_row_list(alloc, items, change, limits),
    }
}

/// Returns the members of a list in which each item is looked up. Returns `None` if a comparison
/// with each member is faster, or if memory is refused.
fn members_of<'a>(
    alloc: Global,
    items: ItemList<'_>,
    change: ItemAction<'_>,
    list: &'a [Value],
) -> Option<Members<'a>>
    ensures { IfSome result (λ m. items_view m.items.now ≡ items_view list.now) }
{
    if list.len() < MANY || items.len() < MANY {
        return None;
    }
    let Ok(sought) = occurrences_in(alloc, items, change.key()) else {
        return None;
    };
    match Members::new(alloc, list, sought, items.len()) {
        Ok(members) => Some(members),
        Err(_) => None,
    }
}

/// Returns the list of what the action makes of the items, under limits.
fn limited_row_list<'a>(
    alloc: Global,
    items: ItemList<'a>,
    change: ItemAction<'a>,
    limits: Limits,
) -> Result<Value, OpError>
    requires { Gives change }
    ensures { Answers result (limited_by limits
        (as_list (gathered (gives change.entry) (items_in items.entry)))) }
{
    if change.may_grow() {
        measured_row_list(alloc, items, change, limits)
    } else {
        built_row_list(alloc, items, change, limits)
    }
}

/// Returns the list of what the action makes of the items, under limits. It is built before it is
/// measured, which takes half the time.
fn built_row_list<'a>(
    alloc: Global,
    items: ItemList<'a>,
    change: ItemAction<'a>,
    limits: Limits,
) -> Result<Value, OpError>
    requires { Gives change }
    ensures { Answers result (limited_by limits
        (as_list (gathered (gives change.entry) (items_in items.entry)))) }
{
    match row_list(alloc, items, change) {
        Ok(list) => within(list, limits),
        Err(ValueError::Fault(fault)) => Err(OpError::Fault(fault)),
        Err(ValueError::NoMemory) => {
            Err(refusal(row_list_measure(alloc, items, change), limits))
        },
    }
}

/// Returns the list of what the action makes of the items, under limits. It is measured before it
/// is built.
fn measured_row_list<'a>(
    alloc: Global,
    items: ItemList<'a>,
    change: ItemAction<'a>,
    limits: Limits,
) -> Result<Value, OpError>
    requires { Gives change }
    ensures { Answers result (limited_by limits
        (as_list (gathered (gives change.entry) (items_in items.entry)))) }
{
    match allow_measured(row_list_measure(alloc, items, change), limits) {
        Ok(()) => built(row_list(alloc, items, change)),
        Err(error) => Err(error),
    }
}

/// Returns the measure of the list of the action's results on the items.
#[tactic(auto, using(crate::proofs::ItemResults::list_measures))]
fn row_list_measure<'a>(
    alloc: Global,
    items: ItemList<'a>,
    change: ItemAction<'a>,
) -> Result<(u64, u32), Fault>
    requires { Gives change }
    ensures { result ≡ measured (as_list (gathered (gives change.entry) (items_in items.entry))) }
{
    let (size, nesting) = row_measure(alloc, items, change)?;
    Ok((size.saturating_add(1), nesting.saturating_add(1)))
}

/// Returns the size, at most 2^64 - 1, and the nesting, at most 2^32 - 1, of the action's results
/// on the items.
fn row_measure<'a>(
    alloc: Global,
    items: ItemList<'a>,
    change: ItemAction<'a>,
) -> Result<(u64, u32), Fault>
    requires { Gives change }
    ensures { result ≡ row_measured (gathered (gives change.entry) (items_in items.entry)) }
{
    let mut items = items;
    let mut index = 0usize;
    let mut size = 0u64;
    let mut nesting = 0u32;
    while let Some((item, behind)) = items.split_first() {
        let (more, deepest) = match change.measure(alloc, item, index) {
            Ok(measure) => measure,
            Err(fault) => return Err(fault),
        };
        size = size.saturating_add(more);
        nesting = nesting.max(deepest);
        index = index.wrapping_add(1);
        items = behind;
    }
    Ok((size, nesting))
}

/// Returns the list of the action's results on the items.
fn row_list<'a>(
    alloc: Global,
    items: ItemList<'a>,
    change: ItemAction<'a>,
) -> Result<Value, ValueError>
    requires { Gives change }
    ensures { Builds (as_list (gathered (gives change.entry) (items_in items.entry))) result }
{
    let values = row_values(alloc, items, change)?;
    Ok(Value::list(alloc, values)?)
}

/// Returns the action's results on the items, in order.
fn row_values<'a>(
    alloc: Global,
    items: ItemList<'a>,
    change: ItemAction<'a>,
) -> Result<Vec<Value>, ValueError>
    requires { Gives change }
    ensures ok { IfOk result
        (λ v. gathered (gives change.entry) (items_in items.entry) ≡ Ok (items_view v.items)) }
    ensures fault { IfErr result (RowFault (gathered (gives change.entry) (items_in items.entry))) }
{
    let letters = letters_for(alloc, letter_count(items, change));
    let maker = Maker::new(alloc, &letters);
    let room = if change.keeps_count() { items.len() } else { 0 };
    let mut values = Vec::with_capacity(alloc, room)?;
    let mut items = items;
    let mut index = 0usize;
    while let Some((item, behind)) = items.split_first() {
        change.push(maker, &mut values, item, index)?;
        index = index.wrapping_add(1);
        items = behind;
    }
    Ok(values)
}

/// Returns the least number of texts of one character that the action makes if all items are texts.
fn letter_count(items: ItemList<'_>, change: ItemAction<'_>) -> usize {
    let makes_letters = match change {
        ItemAction::Keep(_) => matches!(items, ItemList::Characters(_)),
        _ => change.makes_letters(),
    };
    if makes_letters { items.len() } else { 0 }
}

/// Returns the action of a filter with its arguments on each item.
pub(crate) fn change_of(call: Call<'_>) -> Result<ItemAction<'_>, Fault>
    ensures { Changes
        (the.giving call.entry.filter call.entry.autoescape (map view call.entry.arguments.now))
        result }
{
    let arguments = call.arguments;
    match call.filter {
        FilterId::Map => mapping(arguments, call.autoescape),
        FilterId::MapAttribute => attributes(arguments),
        FilterId::Select => keeping(true, None, arguments),
        FilterId::Reject => keeping(false, None, arguments),
        FilterId::SelectAttr => selecting_by(true, arguments),
        FilterId::RejectAttr => selecting_by(false, arguments),
        _ => Err(Fault::BadType),
    }
}

/// Returns the action that keeps items by a test, or by truth if there are no arguments. The test's
/// name is the first of `arguments`.
fn keeping<'a>(
    passes: bool,
    key: Option<&'a str>,
    arguments: &'a [Value],
) -> Result<ItemAction<'a>, Fault>
    ensures { let judged = the.judgement (map view arguments.now) in
        Changes (the.keeping passes (option_map (λ k. k.now) key.entry) judged) result }
{
    let predicate = predicate_of(arguments)?;
    Ok(ItemAction::Keep(Selection {
        passes,
        key,
        predicate,
    }))
}

/// Returns the action that keeps items by a test of an attribute, or by the attribute's truth. The
/// key of the attribute is the first argument.
fn selecting_by(passes: bool, arguments: &[Value]) -> Result<ItemAction<'_>, Fault>
    ensures { Changes (the.selecting_by passes (map view arguments.now)) result }
{
    match arguments {
        [key, arguments @ ..] => match key.as_text() {
            Some(key) => keeping(passes, Some(key), arguments),
            None => Err(Fault::BadArgument),
        },
        [] => Err(Fault::BadType),
    }
}

/// Returns the action that replaces an item by its attribute. The key is the only argument.
fn attributes(arguments: &[Value]) -> Result<ItemAction<'_>, Fault>
    ensures { Changes (the.attributes (map view arguments.now)) result }
{
    match arguments {
        [key] => match key.as_text() {
            Some(key) => Ok(ItemAction::Attribute(key)),
            None => Err(Fault::BadArgument),
        },
        _ => Err(Fault::BadType),
    }
}

/// Returns the action that calls a filter. Its name is the first argument, its own arguments
/// follow.
fn mapping(arguments: &[Value], autoescape: bool) -> Result<ItemAction<'_>, Fault>
    ensures { Changes (the.mapping autoescape (map view arguments.now)) result }
{
    match arguments {
        [name, arguments @ ..] => match inner_filter(name) {
            Some(filter) => called(filter, arguments, autoescape),
            None => Err(Fault::BadArgument),
        },
        [] => Err(Fault::BadType),
    }
}

/// Returns the action that calls `filter`, if it takes this number of arguments.
fn called(filter: FilterId, arguments: &[Value], autoescape: bool) -> Result<ItemAction<'_>, Fault>
    ensures { Changes (the.mapping_by (Some filter) autoescape (map view arguments.now)) result }
{
    if filter.takes(arguments.len() + 1) {
        Ok(inner_action(filter, arguments, autoescape))
    } else {
        Err(Fault::BadArgument)
    }
}

/// Returns the action that calls `filter`. The separator of `join` is counted once for all items.
/// Without autoescaping it needs no count.
fn inner_action(filter: FilterId, arguments: &[Value], autoescape: bool) -> ItemAction<'_>
    ensures same { gives result
        ≡ (λ t. alone (single filter autoescape (t ∷ map view arguments.now))) }
    ensures gives { Gives result }
{
    match (filter, arguments) {
        (FilterId::Join, [separator]) if autoescape => {
            ItemAction::Join(Separator::counted(Operand::Value(separator)))
        },
        _ => ItemAction::Filter(Call {
            filter,
            arguments,
            autoescape,
        }),
    }
}

/// Returns the filter that a value names, if `map` may call it.
fn inner_filter(name: &Value) -> Option<FilterId>
    ensures { result ≡ named_by filter_named (text_of (view name.now)) }
{
    match name.as_text() {
        Some(name) => inner_by_name(name),
        None => None,
    }
}

/// Returns the filter of a name, if `map` may call it.
fn inner_by_name(name: &str) -> Option<FilterId>
    ensures { result ≡ filter_named name.now }
{
    match FilterId::by_name(name) {
        Some(filter) => {
            if filter.may_be_inner() {
                Some(filter)
            } else {
                None
            }
        },
        None => None,
    }
}

/// Returns the test that a value names.
fn named_test(name: &Value) -> Option<TestId>
    ensures { result ≡ named_by test_of_name (text_of (view name.now)) }
{
    match name.as_text() {
        Some(name) => TestId::by_name(name),
        None => None,
    }
}

/// Returns the predicate of a test, or truth if there are no arguments. The test's name is the
/// first of `arguments`.
fn predicate_of(arguments: &[Value]) -> Result<Predicate<'_>, Fault>
    ensures { MakesPredicate (the.judgement (map view arguments.now)) result }
{
    match arguments {
        [] => Ok(Predicate::Truth),
        [name, arguments @ ..] => match named_test(name) {
            Some(test) => tested(test, arguments),
            None => Err(Fault::BadArgument),
        },
    }
}

/// Returns the predicate of a test, if it takes this number of arguments.
fn tested(test: TestId, arguments: &[Value]) -> Result<Predicate<'_>, Fault>
    ensures { MakesPredicate (the.judgement_of (Some test) (map view arguments.now)) result }
{
    if test.takes(arguments.len() + 1) {
        Ok(Predicate::Test(test, arguments))
    } else {
        Err(Fault::BadArgument)
    }
}
