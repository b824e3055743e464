//! Implements filter `join`: the length of its text, and the text.
ghost use Rattle.std.specs.Prelude.{◌≡◌, ◌&&◌, ◌||◌, ◌++◌, true, Ok, Some, IfSome, option_map};
ghost use Rattle.std.specs.Prelude.{string_bytes};
ghost use Rattle.jt_op_semantics.specs.Testing.{is_markup};
ghost use Rattle.jt_filters.specs.internal.Operands as operands;
ghost use Rattle.jt_escape.specs.Joining.{IsAnswer, piece, joined_text};
ghost use Rattle.jt_escape.specs.Joining as joins;
ghost use Rattle.jt_ops.specs.Pieces.{written};
ghost use Rattle.jt_value.specs.Tree.{printed};
ghost use Rattle.jt_value.specs.View.{view, items_view};
ghost use Rattle.jt_filter_semantics.specs.Listing.{joined_by};
ghost use Rattle.jt_filters.specs.internal.Operands.{tree_of, items_in, measured};
ghost use Rattle.jt_filters.specs.internal.Operands.{text_length, led_length};
ghost use Rattle.jt_filters.specs.internal.JoinedTexts.{led_text, Leaves, MakesText};

use crate::item_list::ItemList;
use crate::maker::Maker;
use crate::operand::Operand;
use itoa::Buffer;
use jt_escape::{join_markup, join_plain};
use jt_ops::Piece;
use jt_value::{Fault, Value, ValueError};
use std::alloc::Global;

/// The separator of a join.
#[derive(Clone, Copy)]
pub(crate) struct Separator<'a> {
    pub(crate) operand: Operand<'a>,
    /// The number of bytes of its escaped text, at most 2^64 - 1, if they were counted.
    escaped: Option<u64>,
    ghost counted: { ∥ IfSome escaped (λ n. Ok n ≡ text_length (piece true (tree_of operand))) ∥₁ },
}

impl<'a> Separator<'a> {
    /// Returns the separator of one join, which counts the bytes if it needs their number.
    pub(crate) fn new(operand: Operand<'a>) -> Separator<'a>
        ensures { result.operand ≡ operand.entry }
    {
        Separator {
            operand,
            escaped: None,
        }
    }

    /// Returns the separator of many joins. Its bytes are counted here, once for all of them.
    pub(crate) fn counted(operand: Operand<'a>) -> Separator<'a>
        ensures { result.operand ≡ operand.entry }
    {
        Separator {
            operand,
            escaped: piece_len(operand, true).ok(),
        }
    }

    /// Returns the number of bytes that the separator adds between two items, at most 2^64 - 1.
    fn len(self, escaping: bool) -> Result<u64, Fault>
        ensures { result ≡ text_length (piece escaping (tree_of self.entry.operand)) }
    {
        match self.escaped {
            Some(len) if escaping => Ok(len),
            _ => piece_len(self.operand, escaping),
        }
    }
}

/// Returns the measure of filter `join`.
#[tactic(auto, using(crate::proofs::JoinLengths::joined_measured))]
pub(crate) fn join_measure(
    items: ItemList<'_>,
    separator: Separator<'_>,
    autoescape: bool,
) -> Result<(u64, u32), Fault>
    ensures { result
        ≡ measured (joined_by autoescape (tree_of separator.entry.operand) (items_in items.entry)) }
{
    let escaping = escapes(items, separator.operand, autoescape);
    text_measure(joined_len(items, separator, escaping))
}

/// Returns the measure of a text of this length.
fn text_measure(len: Result<u64, Fault>) -> Result<(u64, u32), Fault>
    ensures { result ≡ operands.text_measure len }
{
    Ok((len?.saturating_add(1), 0))
}

/// Returns whether a join escapes plain items: only under autoescaping, and if an item or the
/// separator is markup.
fn escapes(items: ItemList<'_>, separator: Operand<'_>, autoescape: bool) -> bool
    ensures { result
        ≡ (autoescape
        && (is_markup (tree_of separator.entry) || joins.has_markup (items_in items.entry))) }
{
    autoescape && (separator.is_markup() || has_markup(items))
}

/// Returns whether one of the items is markup. No number, character or key is.
#[tactic(auto, using(crate::proofs::PlainItems::no_markup))]
fn has_markup(items: ItemList<'_>) -> bool
    ensures { result ≡ joins.has_markup (items_in items.entry) }
{
    match items {
        ItemList::Numbers(_) => false,
        ItemList::Characters(_) => false,
        ItemList::Keys(_) => false,
        _ => has_markup_item(items),
    }
}

/// Returns whether one of the items is markup.
fn has_markup_item(items: ItemList<'_>) -> bool
    ensures { result ≡ joins.has_markup (items_in items.entry) }
{
    let mut items = items;
    while let Some((item, behind)) = items.split_first() {
        if item.is_markup() {
            return true;
        }
        items = behind;
    }
    false
}

/// Returns the length in bytes of the joined text, at most 2^64 - 1. A fault of the separator comes
/// before the faults of the items. Its bytes are counted only if there is a second item.
fn joined_len(items: ItemList<'_>, separator: Separator<'_>, escaping: bool) -> Result<u64, Fault>
    ensures { result ≡ text_length
        (joined_text escaping (items_in items.entry) (tree_of separator.entry.operand)) }
{
    let between = separator.len(escaping && items.has_second())?;
    match items.split_first() {
        Some((first, behind)) => led_len(piece_len(first, escaping)?, between, behind, escaping),
        None => Ok(0),
    }
}

/// Returns the joined length, at most 2^64 - 1: `first` bytes, then each item of `behind` after
/// `between` bytes.
fn led_len(first: u64, between: u64, behind: ItemList<'_>, escaping: bool) -> Result<u64, Fault>
    ensures { result ≡ led_length escaping first between (items_in behind.entry) }
{
    let mut items = behind;
    let mut total = first;
    while let Some((item, behind)) = items.split_first() {
        total = total
            .saturating_add(between)
            .saturating_add(piece_len(item, escaping)?);
        items = behind;
    }
    Ok(total)
}

/// Returns the number of bytes that an operand adds to a join, at most 2^64 - 1.
#[tactic(auto, using(crate::proofs::JoinedTexts::no_piece))]
fn piece_len(operand: Operand<'_>, escaping: bool) -> Result<u64, Fault>
    ensures { result ≡ text_length (piece escaping (tree_of operand.entry)) }
{
    let mut buffer = Buffer::new();
    let text = operand.shown(&mut buffer)?;
    Ok(piece_of(operand, text, escaping).len())
}

/// Returns the piece of an operand with this printed text: it is escaped unless it is markup.
#[tactic(auto, using(crate::proofs::JoinLengths::piece_is))]
fn piece_of<'a>(operand: Operand<'_>, text: &'a str, escaping: bool) -> Piece<'a>
    requires { printed (tree_of operand) ≡ Some text.now }
    ensures { piece escaping (tree_of operand.entry) ≡ Some (written result) }
{
    if escaping && !operand.is_markup() {
        Piece::Escaped(text)
    } else {
        Piece::Raw(text)
    }
}

/// Applies filter `join`.
pub(crate) fn joined(
    maker: Maker<'_>,
    items: ItemList<'_>,
    separator: Operand<'_>,
    autoescape: bool,
) -> Result<Value, ValueError>
    ensures { IsAnswer (joined_by autoescape (tree_of separator.entry) (items_in items.entry))
        result }
{
    match items {
        // For fewer values no separator is made a value, which takes longer than the rest.
        ItemList::Values(values) if values.len() > 1 => joined_values(
            maker.alloc,
            values,
            &separator.value(maker)?,
            autoescape,
        ),
        items => joined_items(maker.alloc, items, separator, autoescape),
    }
}

/// Returns the text of the items with a separator between them. None of them is made a value.
#[tactic(auto, using(crate::proofs::JoinedTexts::joined_kinds))]
fn joined_items(
    alloc: Global,
    items: ItemList<'_>,
    separator: Operand<'_>,
    autoescape: bool,
) -> Result<Value, ValueError>
    ensures { IsAnswer (joined_by autoescape (tree_of separator.entry) (items_in items.entry))
        result }
{
    if escapes(items, separator, autoescape) {
        Ok(Value::from_markup(text_of_items(alloc, items, separator, true)?)?)
    } else {
        Ok(Value::from_text(text_of_items(alloc, items, separator, false)?)?)
    }
}

/// Returns the joined text of the items. A fault of the separator comes before the faults of the
/// items.
fn text_of_items(
    alloc: Global,
    items: ItemList<'_>,
    separator: Operand<'_>,
    escaping: bool,
) -> Result<String, ValueError>
    ensures { MakesText (joined_text escaping (items_in items.entry) (tree_of separator.entry))
        result }
{
    let mut text = String::new(alloc);
    let mut buffer = Buffer::new();
    let between = separator.shown(&mut buffer)?;
    let between = piece_of(separator, between, escaping);
    match items.split_first() {
        Some((first, behind)) => {
            append_piece(first, escaping, &mut text)?;
            append_led(behind, &between, escaping, &mut text)?;
            Ok(text)
        },
        None => Ok(text),
    }
}

/// Appends the pieces of the items, with the separator's piece before each.
#[tactic(auto, using(crate::proofs::JoinedTexts::led_texts))]
fn append_led(
    items: ItemList<'_>,
    between: &Piece<'_>,
    escaping: bool,
    into: &mut String,
) -> Result<(), ValueError>
    ensures { Leaves
        (led_text escaping (string_bytes into.old) (written between.now) (items_in items.entry))
        result (string_bytes into.new) }
{
    let mut items = items;
    while let Some((item, behind)) = items.split_first() {
        between.write(into)?;
        append_piece(item, escaping, into)?;
        items = behind;
    }
    Ok(())
}

/// Appends the piece of an operand: its printed text, escaped unless it is markup.
#[tactic(auto, using(crate::proofs::JoinedTexts::no_piece))]
fn append_piece(operand: Operand<'_>, escaping: bool, into: &mut String) -> Result<(), ValueError>
    ensures { Leaves
        (option_map (λ p. string_bytes into.old ++ p) (piece escaping (tree_of operand.entry)))
        result (string_bytes into.new) }
{
    let mut buffer = Buffer::new();
    let text = operand.shown(&mut buffer)?;
    piece_of(operand, text, escaping).write(into)?;
    Ok(())
}

/// Returns the text of the values with a separator between them.
fn joined_values(
    alloc: Global,
    values: &[Value],
    separator: &Value,
    autoescape: bool,
) -> Result<Value, ValueError>
    ensures { IsAnswer (joined_by autoescape (view separator.now) (items_view values.now)) result }
{
    if autoescape {
        join_markup(alloc, values, separator)
    } else {
        join_plain(alloc, values, separator)
    }
}
