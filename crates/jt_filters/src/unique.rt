//! Implements filter `unique`. Each item of a short list is compared with the earlier ones. Each
//! item of a longer list is looked up among them, numbers by value and other items by their codes.
//! So a list of n items takes time in proportion to n log n.
ghost use Rattle.std.specs.Prelude.{◌≡◌, ◌+◌, ◌-◌, ◌^◌, ◌||◌, min, max, IfOk, OnOk, Ok, None};
ghost use Rattle.jt_value.specs.Tree as tree;
ghost use Rattle.jt_value.specs.Tree.{Items, items_size, items_nesting};
ghost use Rattle.jt_value.specs.Payload.{joined_items};
ghost use Rattle.jt_value.specs.Equality.{equal};
ghost use Rattle.jt_value.specs.View.{view, items_view};
ghost use Rattle.jt_filters.specs.internal.Operands.{tree_of, items_in, operand_items};
ghost use Rattle.jt_filters.specs.internal.Operands.{measured, front, Lists};
ghost use Rattle.jt_filter_semantics.specs.Ordering.{distinct, unseen};
ghost use Rattle.jt_filter_semantics.specs.Ordering as ordering;
ghost use Rattle.jt_filters.specs.internal.Seen.{Knows, KnowsCodes};
ghost use Rattle.jt_filters.specs.internal.Seen.{CodesKnowNext, KnowsNext, Before};
ghost use Rattle.jt_filters.specs.internal.Seen as seen;

use crate::codes::code_of;
use crate::item_list::ItemList;
use crate::listing::{list_measure, values};
use crate::maker::Maker;
use crate::operand::Operand;
use crate::seen_numbers::{SeenNumbers, was_number_seen};
use jt_value::{NoMemory, Value};
use std::alloc::Global;
use std::collections::BTreeMap;

/// The greatest number of items that are compared with each other. To look them up takes more time.
const FEW: usize = 16;

/// Returns the measure of filter `unique`. If there are few items, or if memory is refused, each
/// item is compared to all earlier ones, which allocates nothing.
pub(crate) fn unique_measure(alloc: Global, items: ItemList<'_>) -> (u64, u32)
    ensures { Ok result ≡ measured (distinct (items_in items.entry)) }
{
    if items.len() <= FEW {
        return unseen_list_measure(items);
    }
    match first_items(alloc, items) {
        Ok(firsts) => list_measure(ItemList::Operands(&firsts)),
        Err(_) => unseen_list_measure(items),
    }
}

/// Returns the measure of the list of the items that are like no earlier one. Allocates nothing.
pub(crate) fn unseen_list_measure(items: ItemList<'_>) -> (u64, u32)
    ensures { Ok result ≡ measured (distinct (items_in items.entry)) }
{
    let (size, nesting) = unseen_measure(items);
    (size.saturating_add(1), nesting.saturating_add(1))
}

/// Returns the size, at most 2^64 - 1, and the nesting, at most 2^32 - 1, of the items that are
/// like no earlier one.
fn unseen_measure(all: ItemList<'_>) -> (u64, u32)
    ensures size { result.0
        ≡ min (items_size (unseen tree.no_items (items_in all.entry))) (2 ^ 64 - 1) }
    ensures nesting { result.1
        ≡ min (items_nesting (unseen tree.no_items (items_in all.entry))) (2 ^ 32 - 1) }
{
    let total = all.len();
    let mut left = total;
    let mut items = all;
    let mut size = 0u64;
    let mut nesting = 0u32;
    while let Some((item, behind)) = items.split_first() {
        let (more, deepest) = item_measure(item, all, total - left);
        size = size.saturating_add(more);
        nesting = nesting.max(deepest);
        left -= 1;
        items = behind;
    }
    (size, nesting)
}

/// Returns the size and the nesting of an item, or zeros if it is like one of the first `count`
/// items.
#[tactic(auto, using(crate::proofs::DistinctItems::item_measures))]
fn item_measure(item: Operand<'_>, all: ItemList<'_>, count: usize) -> (u64, u32)
    ensures size { Before count (items_in all.entry) (tree_of item.entry) (λ left behind.
        min (result.0 + items_size behind) (2 ^ 64 - 1) ≡ min (items_size left) (2 ^ 64 - 1)) }
    ensures nesting { Before count (items_in all.entry) (tree_of item.entry) (λ left behind.
        min (max result.1 (items_nesting behind)) (2 ^ 32 - 1)
        ≡ min (items_nesting left) (2 ^ 32 - 1)) }
{
    if has_alike(item, all, count) {
        (0, 0)
    } else {
        (item.size(), item.nesting())
    }
}

/// Applies filter `unique`.
pub(crate) fn unique_list(maker: Maker<'_>, items: ItemList<'_>) -> Result<Value, NoMemory>
    ensures { Lists (unseen tree.no_items (items_in items.entry)) result }
{
    if items.len() <= FEW {
        return Value::list(maker.alloc, unseen_values(maker, items)?);
    }
    let firsts = first_items(maker.alloc, items)?;
    Value::list(maker.alloc, values(maker, ItemList::Operands(&firsts))?)
}

/// Returns the values of the items that are like no earlier one. Allocates nothing else.
fn unseen_values(maker: Maker<'_>, all: ItemList<'_>) -> Result<Vec<Value>, NoMemory>
    ensures { IfOk result (λ v. items_view v.items ≡ unseen tree.no_items (items_in all.entry)) }
{
    let total = all.len();
    let mut left = total;
    let mut items = all;
    let mut values = Vec::with_capacity(maker.alloc, total)?;
    while let Some((item, behind)) = items.split_first() {
        push_unseen(maker, &mut values, item, all, total - left)?;
        left -= 1;
        items = behind;
    }
    Ok(values)
}

/// Appends the value of an item unless the item is like one of the first `count` items.
#[tactic(auto, using(crate::proofs::DistinctItems::unseen_values))]
fn push_unseen(
    maker: Maker<'_>,
    values: &mut Vec<Value>,
    item: Operand<'_>,
    all: ItemList<'_>,
    count: usize,
) -> Result<(), NoMemory>
    ensures { OnOk result (Before count (items_in all.entry) (tree_of item.entry)
        (λ left behind. joined_items (items_view values.new.items) behind
        ≡ joined_items (items_view values.old.items) left)) }
{
    if !has_alike(item, all, count) {
        values.push(item.value(maker)?)?;
    }
    Ok(())
}

/// The keys of the items that were seen. `numbers` has each number that an item equals. `codes`
/// has, for each code of any other item, the last item with the code.
#[derive(Drop)]
struct SeenKeys<'a> {
    numbers: SeenNumbers,
    codes: BTreeMap<Vec<u8>, Operand<'a>>,
}

/// The items that were seen: their keys, and the items that are like no earlier one.
#[derive(Drop)]
struct SeenItems<'a> {
    seen: SeenKeys<'a>,
    firsts: Vec<Operand<'a>>,
}

/// Returns the items that are like no earlier one.
pub(crate) fn first_items(alloc: Global, all: ItemList<'_>) -> Result<Vec<Operand<'_>>, NoMemory>
    ensures { IfOk result (λ v. operand_items v.items ≡ unseen tree.no_items (items_in all.entry)) }
{
    let total = all.len();
    let mut left = total;
    let mut items = all;
    let mut met = SeenItems {
        seen: SeenKeys {
            numbers: SeenNumbers::new(alloc, all)?,
            codes: BTreeMap::new(alloc),
        },
        firsts: Vec::new(alloc),
    };
    while let Some((item, behind)) = items.split_first() {
        push_new(alloc, &mut met, item, all, total - left)?;
        left -= 1;
        items = behind;
    }
    let SeenItems { firsts, .. } = met;
    Ok(firsts)
}

/// Appends an item to the first ones unless it is like one of the first `count` items, whose keys
/// `met` holds.
fn push_new<'a>(
    alloc: Global,
    met: &mut SeenItems<'a>,
    item: Operand<'a>,
    all: ItemList<'a>,
    count: usize,
) -> Result<(), NoMemory>
    requires { Knows met.old.seen (front count (items_in all)) }
    ensures known { OnOk result
        (KnowsNext met.new.seen count (items_in all.entry) (tree_of item.entry)) }
    ensures firsts { OnOk result (Before count (items_in all.entry) (tree_of item.entry)
        (λ left behind. joined_items (operand_items met.new.firsts.items) behind
        ≡ joined_items (operand_items met.old.firsts.items) left)) }
{
    if !was_seen(alloc, &mut met.seen, item, all, count)? {
        met.firsts.push(item)?;
    }
    Ok(())
}

/// Returns whether an item is like one of the first `count` items, whose keys `seen` holds.
/// Afterwards `seen` holds the item's key too.
fn was_seen<'a>(
    alloc: Global,
    seen: &mut SeenKeys<'a>,
    item: Operand<'a>,
    all: ItemList<'a>,
    count: usize,
) -> Result<bool, NoMemory>
    requires { Knows seen.old (front count (items_in all)) }
    ensures like { IfOk result
        (λ b. b ≡ ordering.has_alike (tree_of item.entry) (front count (items_in all.entry))) }
    ensures known { OnOk result
        (KnowsNext seen.new count (items_in all.entry) (tree_of item.entry)) }
{
    match number_like(item) {
        Some(number) => was_number_seen(&mut seen.numbers, number, count),
        None => was_code_seen(alloc, &mut seen.codes, item, all, count),
    }
}

/// Returns the number that an item equals, if any: its own, or 0 or 1 for a truth value.
pub(crate) fn number_like(item: Operand<'_>) -> Option<i64>
    ensures { result ≡ seen.number_like (tree_of item.entry) }
{
    match item {
        Operand::Number(number) => Some(number),
        Operand::Value(Value::Int(number)) => Some(*number),
        Operand::Value(Value::Bool(truth)) => Some(if *truth { 1 } else { 0 }),
        _ => None,
    }
}

/// Returns whether an item that equals no number is like one of the first `count` items, whose
/// codes `codes` holds. Afterwards `codes` holds the item's code too.
fn was_code_seen<'a>(
    alloc: Global,
    codes: &mut BTreeMap<Vec<u8>, Operand<'a>>,
    item: Operand<'a>,
    all: ItemList<'a>,
    count: usize,
) -> Result<bool, NoMemory>
    requires plain { seen.number_like (tree_of item) ≡ None }
    requires known { KnowsCodes codes.old (front count (items_in all)) }
    ensures like { IfOk result
        (λ b. b ≡ ordering.has_alike (tree_of item.entry) (front count (items_in all.entry))) }
    ensures known { OnOk result
        (CodesKnowNext codes.new count (items_in all.entry) (tree_of item.entry)) }
{
    let code = code_of(alloc, item)?;
    match codes.insert(code, item)? {
        Some(other) => Ok(is_like(item, other, all, count)),
        None => Ok(false),
    }
}

/// Returns whether an item is like another one, or like one of the first `count` items. Items with
/// the same code are alike, so a single comparison is made.
fn is_like(item: Operand<'_>, other: Operand<'_>, all: ItemList<'_>, count: usize) -> bool
    ensures { result
        ≡ (ordering.alike (tree_of item.entry) (tree_of other.entry)
        || ordering.has_alike (tree_of item.entry) (front count (items_in all.entry))) }
{
    are_alike(item, other) || has_alike(item, all, count)
}

/// Returns whether an item is like one of the first `count` items.
#[tactic(auto, using(crate::proofs::DistinctItems::fronts))]
fn has_alike(item: Operand<'_>, items: ItemList<'_>, count: usize) -> bool
    ensures { result
        ≡ ordering.has_alike (tree_of item.entry) (front count (items_in items.entry)) }
{
    let mut left = count;
    let mut items = items;
    while let Some((other, behind)) = items.split_first() {
        if left == 0 {
            return false;
        }
        if are_alike(item, other) {
            return true;
        }
        left -= 1;
        items = behind;
    }
    false
}

/// Returns whether two items count once: texts, plain or markup, by fold, others by equality.
#[tactic(auto, using(crate::proofs::DistinctItems::likenesses))]
fn are_alike(left: Operand<'_>, right: Operand<'_>) -> bool
    ensures { result ≡ ordering.alike (tree_of left.entry) (tree_of right.entry) }
{
    match left.as_text() {
        Some(text) => match right.as_text() {
            Some(other) => text.eq_ignore_ascii_case(other),
            None => are_equal(left, right),
        },
        None => are_equal(left, right),
    }
}

/// Returns whether two items are equal.
pub(crate) fn are_equal(left: Operand<'_>, right: Operand<'_>) -> bool
    ensures { result ≡ equal (tree_of left.entry) (tree_of right.entry) }
{
    match left {
        Operand::Undefined => right.is_undefined(),
        Operand::Number(number) => equals(&Value::Int(number), right),
        Operand::Text(text) => equals_text(text, right),
        Operand::Value(value) => equals(value, right),
    }
}

/// Returns whether a value equals an item.
fn equals(value: &Value, other: Operand<'_>) -> bool
    ensures { result ≡ equal (view value.now) (tree_of other.entry) }
{
    match other {
        Operand::Undefined => value.equals(&Value::Undefined),
        Operand::Number(number) => value.equals(&Value::Int(number)),
        Operand::Text(text) => match value.as_text() {
            Some(own) => own == text,
            None => false,
        },
        Operand::Value(other) => value.equals(other),
    }
}

/// Returns whether a plain text equals an item.
fn equals_text(text: &str, other: Operand<'_>) -> bool
    ensures { result ≡ equal (tree.text text.now) (tree_of other.entry) }
{
    match other {
        Operand::Text(other) => text == other,
        Operand::Value(value) => match value.as_text() {
            Some(other) => text == other,
            None => false,
        },
        _ => false,
    }
}
