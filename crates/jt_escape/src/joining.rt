//! Joins values by the rule of the filter `join`.
ghost use Rattle.std.specs.Prelude.{◌≡◌, ◌++◌, Bool, IfErr, IfOk, IsOk, IsSome, OnOk};
ghost use Rattle.std.specs.Prelude.{if◌then◌else◌, option_map, string_bytes};
ghost use Rattle.std.specs.List.{join_by};
ghost use Rattle.std.specs.Option.{is_some};
ghost use Rattle.jt_value.specs.Tree.{printed};
ghost use Rattle.jt_value.specs.View.{view, items_view};
ghost use Rattle.jt_escape.specs.Escaping.{escaped};
ghost use Rattle.jt_escape.specs.Joining.{is_markup, has_markup, piece, pieces, joined_text};
ghost use Rattle.jt_escape.specs.Joining.{joined_plain, joined_as_markup, joined_markup, IsAnswer};
ghost use Rattle.jt_escape.specs.internal.Appending.{are_printable, led_pieces, Appends, Makes};

use crate::escaping::append_escaped;
use itoa::Buffer;
use jt_value::{Fault, Value, ValueError};
use std::alloc::{AllocError, Global};

/// Joins the printed texts of `items` with the separator's text between them, as `join` does under
/// autoescaping. If an item or the separator is markup, the result is markup and all else is
/// escaped. Otherwise the result is a plain text.
///
/// # Errors
///
/// - `Unprintable` if an item or the separator has no printed text. The separator needs one even if
///   there is nothing to separate.
/// - `NoMemory` if a growth is refused.
pub fn join_markup(alloc: Global, items: &[Value], separator: &Value) -> Result<Value, ValueError>
    ensures answer { IsAnswer (joined_markup (items_view items.now) (view separator.now)) result }
    // Lack of memory is reported only if the join is a value.
    ensures memory { IfErr result (λ e. e ≡ ValueError.NoMemory
        → IsOk (joined_markup (items_view items.now) (view separator.now))) }
{
    if is_markup(separator) || has_markup(items) {
        return join_as_markup(alloc, items, separator);
    }
    join_plain(alloc, items, separator)
}

/// Joins the printed texts of `items` with the separator's text between them, as `join` does
/// without autoescaping. The result is a plain text.
///
/// # Errors
///
/// - `Unprintable` if an item or the separator has no printed text.
/// - `NoMemory` if a growth is refused.
pub fn join_plain(alloc: Global, items: &[Value], separator: &Value) -> Result<Value, ValueError>
    ensures answer { IsAnswer (joined_plain (items_view items.now) (view separator.now)) result }
    // Lack of memory is reported only if the join is a value.
    ensures memory { IfErr result (λ e. e ≡ ValueError.NoMemory
        → IsOk (joined_plain (items_view items.now) (view separator.now))) }
{
    let text = join_text(alloc, items, separator, false)?;
    Ok(Value::from_text(text)?)
}

fn join_as_markup(alloc: Global, items: &[Value], separator: &Value) -> Result<Value, ValueError>
    ensures answer { IsAnswer (joined_as_markup (items_view items.now) (view separator.now))
        result }
    ensures memory { IfErr result (λ e. e ≡ ValueError.NoMemory
        → IsOk (joined_as_markup (items_view items.now) (view separator.now))) }
{
    let text = join_text(alloc, items, separator, true)?;
    Ok(Value::from_markup(text)?)
}

fn is_markup(value: &Value) -> bool
    ensures { result ≡ is_markup (view value.now) }
{
    matches!(value, Value::Markup(_))
}

fn has_markup(items: &[Value]) -> bool
    ensures { result ≡ has_markup (items_view items.now) }
{
    items.iter().any(|item| is_markup(item))
}

fn is_printable(value: &Value) -> bool
    ensures { result ≡ is_some (printed (view value.now)) }
{
    !matches!(value, Value::List(_) | Value::Map(_))
}

fn are_printable(items: &[Value]) -> bool
    ensures { result ≡ are_printable (items_view items.now) }
{
    items.iter().all(|item| is_printable(item))
}

/// Returns whether the separator and each item have a printed text.
fn have_texts(items: &[Value], separator: &Value) -> bool
    ensures { (escaping : Bool)
        → is_some (joined_text escaping (items_view items.now) (view separator.now)) ≡ result }
{
    is_printable(separator) && are_printable(items)
}

/// Joins the texts of items. Checks for the fault before it builds anything.
fn join_text(
    alloc: Global,
    items: &[Value],
    separator: &Value,
    escaping: bool,
) -> Result<String, ValueError>
    ensures text { Makes (joined_text escaping (items_view items.now) (view separator.now))
        result }
    ensures memory { IfErr result (λ e. e ≡ ValueError.NoMemory
        → IsSome (joined_text escaping (items_view items.now) (view separator.now))) }
{
    if !have_texts(items, separator) {
        return Err(ValueError::Fault(Fault::Unprintable));
    }
    let between = piece_between(alloc, items, separator, escaping)?;
    join_between(alloc, items, &between, escaping)
}

/// Returns the separator's piece, or an empty text if there is nothing to separate.
#[tactic(auto, using(crate::proofs::JoinSteps::separations))]
fn piece_between(
    alloc: Global,
    items: &[Value],
    separator: &Value,
    escaping: bool,
) -> Result<String, ValueError>
    requires { IsSome (joined_text escaping (items_view items.now) (view separator.now)) }
    ensures ok { IfOk result (λ between.
        option_map (join_by (λ text. text) (string_bytes between))
        (pieces escaping (items_view items.now))
        ≡ joined_text escaping (items_view items.now) (view separator.now)) }
    ensures memory { IfErr result (λ e. e ≡ ValueError.NoMemory) }
{
    let mut between = String::new(alloc);
    if items.len() > 1 {
        append_piece(separator, escaping, &mut between)?;
    }
    Ok(between)
}

fn join_between(
    alloc: Global,
    items: &[Value],
    between: &str,
    escaping: bool,
) -> Result<String, ValueError>
    ensures { Makes
        (option_map (join_by (λ text. text) between.now) (pieces escaping (items_view items.now)))
        result }
{
    let mut joined = String::new(alloc);
    let Some((first, rest)) = items.split_first() else {
        return Ok(joined);
    };
    append_piece(first, escaping, &mut joined)?;
    append_led(between, rest, escaping, &mut joined)?;
    Ok(joined)
}

/// Appends the piece of each item with the separator's piece before it.
fn append_led(
    between: &str,
    items: &[Value],
    escaping: bool,
    into: &mut String,
) -> Result<(), ValueError>
    ensures { Appends (led_pieces escaping between.now (items_view items.now))
        (string_bytes into.old) result (string_bytes into.new) }
{
    for item in items {
        into.push_str(between)?;
        append_piece(item, escaping, into)?;
    }
    Ok(())
}

fn append_piece(value: &Value, escaping: bool, into: &mut String) -> Result<(), ValueError>
    ensures { Appends (piece escaping (view value.now)) (string_bytes into.old) result
        (string_bytes into.new) }
{
    if let Value::Markup(text) = value {
        into.push_str(text.as_str())?;
        return Ok(());
    }
    let mut buffer = Buffer::new();
    append_text(value.shown(&mut buffer)?, escaping, into)?;
    Ok(())
}

fn append_text(text: &str, escaping: bool, into: &mut String) -> Result<(), AllocError>
    ensures { OnOk result (string_bytes into.new
        ≡ string_bytes into.old ++ (if escaping then escaped text.now else text.now)) }
{
    if escaping {
        return append_escaped(text, into);
    }
    into.push_str(text)
}
