//! Defines the actions on each item: it is kept, dropped, or replaced by its attribute or by a
//! filter's result.
ghost use Rattle.std.specs.Prelude.{◌≡◌, ◌+◌, [], ◌∷◌, ◌++◌, map, length, Ok, IfSome, IfErr, OnOk};
ghost use Rattle.std.specs.Prelude.{option_map, Some};
ghost use Rattle.jt_value.specs.Payload.{text_of};
ghost use Rattle.jt_value.specs.Tree as tree;
ghost use Rattle.jt_value.specs.View.{view, items_view};
ghost use Rattle.jt_ids.specs.TestTable.{test_values};
ghost use Rattle.jt_op_semantics.specs.Testing as testing;
ghost use Rattle.jt_filter_semantics.specs.Mapping.{attribute_or_item, if_kept, in_front};
ghost use Rattle.jt_filters.specs.internal.Operands.{tree_of, chosen};
ghost use Rattle.jt_filters.specs.internal.Rows.{judges, Judges, kept, gives, Gives, row_measured};
ghost use Rattle.jt_filters.specs.internal.Rows.{RowFault, IsSought, IsJudged};

use crate::attributes::item_of;
use crate::item_list::items_of;
use crate::joining::{Separator, join_measure, joined};
use crate::maker::Maker;
use crate::members::Members;
use crate::operand::Operand;
use crate::planning::Call;
use crate::plans::Plan;
use jt_ids::{FilterId, TestId};
use jt_ops::{test_of, test_of_text};
use jt_search::TextIndex;
use jt_value::{Fault, NoMemory, Value, ValueError};
use std::alloc::Global;

/// The predicate that selects items.
#[derive(Clone, Copy)]
pub(crate) enum Predicate<'a> {
    /// The truth of the value.
    Truth,
    /// A test with its arguments.
    Test(TestId, &'a [Value]),
    /// Test `in` with a list.
    Among(&'a Members<'a>),
    /// Test `in` with a text that has an index.
    Within(&'a Value, &'a TextIndex<'a>),
}

/// The rule by which items are kept.
#[derive(Clone, Copy)]
pub(crate) struct Selection<'a> {
    /// `true` if the items that pass the predicate are kept, `false` if the items that fail it are.
    pub(crate) passes: bool,
    /// The key of the attribute that is tested. Without a key the item itself is tested.
    pub(crate) key: Option<&'a str>,
    pub(crate) predicate: Predicate<'a>,
}

/// The action on each item.
#[derive(Clone, Copy)]
pub(crate) enum ItemAction<'a> {
    /// The item itself, if it is selected.
    Keep(Selection<'a>),
    /// The attribute of the item with this key.
    Attribute(&'a str),
    /// The result of a filter on the item.
    Filter(Call<'a>),
    /// The join of the item's items under autoescaping.
    Join(Separator<'a>),
}

impl Predicate<'_> {
    /// Returns whether an operand passes.
    #[tactic(auto, using(crate::proofs::ListMembers::in_list, crate::proofs::IndexedTexts::in_text))]
    fn passes(self, alloc: Global, operand: Operand<'_>, index: usize) -> Result<bool, Fault>
        requires { Judges self }
        ensures { result ≡ judges self.entry (tree_of operand.entry) }
    {
        match self {
            Predicate::Truth => Ok(operand.truth()),
            Predicate::Test(test, arguments) => test_operand(test, operand, arguments),
            Predicate::Among(members) => Ok(members.has(alloc, operand, index)),
            Predicate::Within(_, index) => is_within(index, operand),
        }
    }
}

/// Returns whether test `in` holds of an operand and the indexed text.
#[tactic(auto, using(crate::proofs::IndexedTexts::part_in_text, crate::proofs::IndexedTexts::no_part))]
fn is_within(index: &TextIndex<'_>, operand: Operand<'_>) -> Result<bool, Fault>
    ensures { result ≡ testing.tested TestId.In
        (tree_of operand.entry ∷ tree.text index.now ∷ []) }
{
    match operand.as_text() {
        Some(part) => Ok(index.has(part)),
        None => Err(operand.operand_fault()),
    }
}

/// Returns whether a test with its arguments holds of an operand.
fn test_operand(test: TestId, operand: Operand<'_>, arguments: &[Value]) -> Result<bool, Fault>
    requires { length arguments.now + 1 ≡ test_values test }
    ensures { result ≡ testing.tested test (tree_of operand.entry ∷ map view arguments.now) }
{
    match operand {
        Operand::Undefined => test_of(test, &Value::Undefined, arguments),
        Operand::Number(number) => test_of(test, &Value::Int(number), arguments),
        Operand::Text(text) => test_of_text(test, text, arguments),
        Operand::Value(value) => test_of(test, value, arguments),
    }
}

impl<'a> Selection<'a> {
    /// Returns whether an item is kept.
    fn keeps(self, alloc: Global, item: Operand<'a>, index: usize) -> Result<bool, Fault>
        requires { Judges self.predicate }
        ensures { result ≡ kept self.entry (tree_of item.entry) }
    {
        let passes = self
            .predicate
            .passes(alloc, self.attribute_or_item(item)?, index)?;
        Ok(passes == self.passes)
    }

    /// Returns the operand that the predicate tests: the item itself, or its attribute.
    fn attribute_or_item(self, item: Operand<'a>) -> Result<Operand<'a>, Fault>
        ensures { chosen result
            ≡ attribute_or_item (option_map (λ k. k.now) self.entry.key) (tree_of item.entry) }
    {
        match self.key {
            Some(key) => item_of(item, key),
            None => Ok(item),
        }
    }
}

impl<'a> ItemAction<'a> {
    /// Returns the container in which the action looks up each item by test `in`, if it does.
    pub(crate) fn container(self) -> Option<&'a Value>
        ensures { IfSome result (λ v. IsSought (view v.now) self.entry) }
    {
        match self {
            ItemAction::Keep(selection) => match selection.predicate {
                Predicate::Test(TestId::In, [container]) => Some(container),
                _ => None,
            },
            _ => None,
        }
    }

    /// Returns the key of the attribute that the action tests, if it tests one.
    pub(crate) fn key(self) -> Option<&'a str> {
        match self {
            ItemAction::Keep(selection) => selection.key,
            _ => None,
        }
    }

    /// Returns the action that looks up each item in the members of its list.
    pub(crate) fn among(self, members: &'a Members<'a>) -> ItemAction<'a>
        requires gives { Gives self }
        requires sought { IsSought (tree.list (items_view members.now.items.now)) self }
        ensures same { gives result ≡ gives self.entry }
        ensures gives { Gives result }
    {
        self.with(Predicate::Among(members))
    }

    /// Returns the action that looks up each item in the index of its text.
    pub(crate) fn within(self, text: &'a Value, index: &'a TextIndex<'a>) -> ItemAction<'a>
        requires gives { Gives self }
        requires sought { IsSought (view text.now) self }
        requires indexed { text_of (view text.now) ≡ Some index.now }
        ensures same { gives result ≡ gives self.entry }
        ensures gives { Gives result }
    {
        self.with(Predicate::Within(text, index))
    }

    /// Returns the action with another predicate that has the same results.
    fn with(self, predicate: Predicate<'a>) -> ItemAction<'a>
        requires gives { Gives self }
        requires judges { Judges predicate }
        requires sought { IsJudged (judges predicate) self }
        ensures same { gives result ≡ gives self.entry }
        ensures gives { Gives result }
    {
        match self {
            ItemAction::Keep(selection) => ItemAction::Keep(Selection {
                predicate,
                ..selection
            }),
            _ => self,
        }
    }

    /// Returns whether the action makes one result of each item.
    pub(crate) fn keeps_count(self) -> bool {
        !matches!(self, ItemAction::Keep(_))
    }

    /// Returns whether a result of the action may be larger than any multiple of its item. A join
    /// repeats its separator, and `replace` its new text.
    pub(crate) fn may_grow(self) -> bool {
        match self {
            ItemAction::Keep(_) | ItemAction::Attribute(_) => false,
            ItemAction::Filter(call) => {
                matches!(call.filter, FilterId::Join | FilterId::Replace)
                    && !call.arguments.is_empty()
            },
            ItemAction::Join(_) => true,
        }
    }

    /// Returns whether the action makes texts of one character if the items are texts.
    pub(crate) fn makes_letters(self) -> bool {
        match self {
            ItemAction::Filter(call) => matches!(
                call.filter,
                FilterId::First
                    | FilterId::Last
                    | FilterId::List
                    | FilterId::Max
                    | FilterId::Min
                    | FilterId::Sort
                    | FilterId::Unique
            ),
            _ => false,
        }
    }

    /// Returns the size and the nesting of the action's result on an item, or zeros if it has none.
    /// `index` is the index of the item.
    #[tactic(auto, using(crate::proofs::ItemResults::alone_measured))]
    pub(crate) fn measure(
        self,
        alloc: Global,
        item: Operand<'a>,
        index: usize,
    ) -> Result<(u64, u32), Fault>
        requires { Gives self }
        ensures { result ≡ row_measured (gives self.entry (tree_of item.entry)) }
    {
        match self {
            ItemAction::Keep(selection) => Ok(measure_if(
                selection.keeps(alloc, item, index)?,
                item,
            )),
            ItemAction::Attribute(key) => Plan::Operand(item_of(item, key)?).measure(alloc),
            ItemAction::Filter(call) => call.plan(item)?.measure(alloc),
            ItemAction::Join(separator) => join_measure(items_of(item)?, separator, true),
        }
    }

    /// Appends the action's result on an item, if it has one. `index` is the index of the item.
    pub(crate) fn push(
        self,
        maker: Maker<'_>,
        values: &mut Vec<Value>,
        item: Operand<'a>,
        index: usize,
    ) -> Result<(), ValueError>
        requires { Gives self }
        ensures ok { OnOk result (in_front (Ok (items_view values.old.items))
            (gives self.entry (tree_of item.entry))
            ≡ Ok (items_view values.new.items)) }
        ensures fault { IfErr result (RowFault (gives self.entry (tree_of item.entry))) }
    {
        match self {
            ItemAction::Keep(selection) => {
                if selection.keeps(maker.alloc, item, index)? {
                    put(values, item.value(maker)?)?;
                }
                Ok(())
            },
            ItemAction::Attribute(key) => Ok(put(values, item_of(item, key)?.value(maker)?)?),
            ItemAction::Filter(call) => Ok(put(values, call.plan(item)?.build(maker)?)?),
            ItemAction::Join(separator) => {
                let text = joined(maker, items_of(item)?, separator.operand, true)?;
                Ok(put(values, text)?)
            },
        }
    }
}

/// Returns the measure of an item that is kept, or zeros.
fn measure_if(keeps: bool, item: Operand<'_>) -> (u64, u32)
    ensures { Ok result ≡ row_measured (if_kept (tree_of item.entry) (Ok keeps)) }
{
    if keeps {
        (item.size(), item.nesting())
    } else {
        (0, 0)
    }
}

/// Appends a value.
fn put(values: &mut Vec<Value>, value: Value) -> Result<(), NoMemory>
    ensures { OnOk result (values.new.items ≡ values.old.items ++ value ∷ []) }
{
    values.push(value)?;
    Ok(())
}
