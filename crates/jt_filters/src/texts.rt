//! Implements filters on printed texts: the measure (size and nesting) of each result, and the
//! result.
ghost use Rattle.std.specs.Prelude.{◌≡◌, ℕ, ◌-◌, ◌^◌, min, List, reverse, length, IfOk, Ok};
ghost use Rattle.std.specs.Prelude.{string_bytes};
ghost use Rattle.std.specs.Str.{chars, str_to_ascii_lowercase as lowercase};
ghost use Rattle.std.specs.Str.{str_to_ascii_uppercase as uppercase};
ghost use Rattle.std.specs.List.{list_any};
ghost use Rattle.std.specs.Option.{is_some};
ghost use Rattle.jt_value.specs.View.{view};
ghost use Rattle.jt_escape.specs.Escaping.{escaped, entity};
ghost use Rattle.jt_escape.specs.Joining.{IsAnswer};
ghost use Rattle.jt_ops.specs.Pieces.{of_kind};
ghost use Rattle.jt_filters.specs.internal.Operands.{tree_of, measured};
ghost use Rattle.jt_filters.specs.internal.TextChanges.{changed, of_change, texted};
ghost use Rattle.jt_filter_semantics.specs.Texts.{of_same_kind};
ghost use Rattle.jt_filter_semantics.specs.Texts as texts;

use crate::operand::Operand;
use itoa::Buffer;
use jt_ops::{Piece, TextKind};
use jt_value::{Fault, NoMemory, Value, ValueError};
use std::alloc::Global;

/// The change that a filter makes to the printed text of its input.
#[derive(Clone, Copy)]
pub(crate) enum TextChange {
    /// The text is copied, for `string`.
    Unchanged,
    Lower,
    Upper,
    /// The first character is put in upper case and the rest in lower case.
    Capital,
    /// The whitespace at both ends is dropped.
    Trimmed,
    /// The text is copied as markup, for `safe`.
    Safe,
    /// The text is escaped, which makes it markup.
    Escaped,
    /// The characters are put in reverse order, as a plain text.
    Backwards,
}

/// Returns the measure of the changed printed text of an operand.
#[tactic(auto, using(crate::proofs::TextMeasures::changed_measured))]
pub(crate) fn text_measure(operand: Operand<'_>, change: TextChange) -> Result<(u64, u32), Fault>
    ensures { result ≡ measured (texted change (tree_of operand.entry)) }
{
    let mut buffer = Buffer::new();
    let text = operand.shown(&mut buffer)?;
    Ok((changed_len(text, change).saturating_add(1), 0))
}

/// Returns the length in bytes of the changed text, at most 2^64 - 1.
#[tactic(auto, using(crate::proofs::TextMeasures::changed_lengths))]
fn changed_len(text: &str, change: TextChange) -> u64
    ensures { result ≡ min (length (changed change text.now)) (2 ^ 64 - 1) }
{
    match change {
        TextChange::Trimmed => trimmed(text).len() as u64,
        TextChange::Escaped => Piece::Escaped(text).len(),
        _ => text.len() as u64,
    }
}

/// Returns the changed printed text of an operand.
pub(crate) fn changed_text(
    alloc: Global,
    operand: Operand<'_>,
    change: TextChange,
) -> Result<Value, ValueError>
    ensures { IsAnswer (texted change (tree_of operand.entry)) result }
{
    let mut buffer = Buffer::new();
    let text = operand.shown(&mut buffer)?;
    Ok(changed(alloc, text, change, kind_of(operand, change))?)
}

/// Returns the kind of the text that a change makes of an operand.
fn kind_of(operand: Operand<'_>, change: TextChange) -> TextKind
    ensures { (s : List ℕ) → of_kind result s ≡ of_change change (tree_of operand.entry) s }
{
    match change {
        TextChange::Safe | TextChange::Escaped => TextKind::Markup,
        TextChange::Backwards => TextKind::Plain,
        TextChange::Unchanged
        | TextChange::Lower
        | TextChange::Upper
        | TextChange::Capital
        | TextChange::Trimmed => own_kind(operand),
    }
}

/// Returns the kind of the text of an operand: markup for markup, else plain.
#[tactic(auto, using(crate::proofs::TextMeasures::markup_kept, crate::proofs::TextMeasures::others_kept))]
fn own_kind(operand: Operand<'_>) -> TextKind
    ensures { (s : List ℕ) → of_kind result s ≡ of_same_kind (tree_of operand.entry) s }
{
    if operand.is_markup() {
        TextKind::Markup
    } else {
        TextKind::Plain
    }
}

/// Returns the value of this kind with the changed text.
#[tactic(auto, using(crate::proofs::EscapedTexts::unescaped))]
fn changed(alloc: Global, text: &str, change: TextChange, kind: TextKind) -> Result<Value, NoMemory>
    ensures { IfOk result (λ v. view v ≡ of_kind kind (changed change text.now)) }
{
    match change {
        TextChange::Unchanged | TextChange::Safe => copied(alloc, text, kind),
        TextChange::Lower => kind.value(lowered(alloc, text)?),
        TextChange::Upper => kind.value(raised(alloc, text)?),
        TextChange::Capital => kind.value(capitalized(alloc, text)?),
        TextChange::Trimmed => copied(alloc, trimmed(text), kind),
        TextChange::Escaped => {
            if has_special(text.as_bytes()) {
                kind.value(escaped(alloc, text)?)
            } else {
                copied(alloc, text, kind)
            }
        },
        TextChange::Backwards => kind.value(turned(alloc, text)?),
    }
}

/// Returns the value of this kind with a copy of the text.
fn copied(alloc: Global, text: &str, kind: TextKind) -> Result<Value, NoMemory>
    ensures { IfOk result (λ v. view v ≡ of_kind kind text.now) }
{
    match kind {
        TextKind::Plain => Value::text(alloc, text),
        TextKind::Markup => Value::markup(alloc, text),
    }
}

/// Returns the text in lower case.
fn lowered(alloc: Global, text: &str) -> Result<String, NoMemory>
    ensures { IfOk result (λ s. string_bytes s ≡ lowercase text.now) }
{
    let mut lowered = String::from_str(alloc, text)?;
    lowered.make_ascii_lowercase();
    Ok(lowered)
}

/// Returns the text in upper case.
fn raised(alloc: Global, text: &str) -> Result<String, NoMemory>
    ensures { IfOk result (λ s. string_bytes s ≡ uppercase text.now) }
{
    let mut raised = String::from_str(alloc, text)?;
    raised.make_ascii_uppercase();
    Ok(raised)
}

/// Returns the escaped text.
fn escaped(alloc: Global, text: &str) -> Result<String, NoMemory>
    ensures { IfOk result (λ s. string_bytes s ≡ escaped text.now) }
{
    let piece = Piece::Escaped(text);
    let mut escaped = String::with_capacity(alloc, piece.len() as usize)?;
    piece.write(&mut escaped)?;
    Ok(escaped)
}

/// Returns whether one of the bytes of a text is escaped.
fn has_special(bytes: &[u8]) -> bool
    ensures { result ≡ list_any (λ b. is_some (entity b)) bytes.now }
{
    for byte in bytes {
        if is_special(*byte) {
            return true;
        }
    }
    false
}

/// Returns whether a byte is escaped.
fn is_special(byte: u8) -> bool
    ensures { result ≡ is_some (entity byte) }
{
    matches!(byte, b'&' | b'<' | b'>' | b'\'' | b'"')
}

/// Returns the text with its first character in upper case and the rest in lower case.
fn capitalized(alloc: Global, text: &str) -> Result<String, NoMemory>
    ensures { IfOk result (λ s. string_bytes s ≡ texts.capitalized text.now) }
{
    let bytes = text.as_bytes();
    if bytes.is_empty() || bytes[0] >= 128 {
        return lowered(alloc, text);
    }
    let mut changed = String::new(alloc);
    changed.push(bytes[0].to_ascii_uppercase() as char)?;
    changed.push_str(&lowered(alloc, &text[1..])?)?;
    Ok(changed)
}

/// Returns the text without whitespace at both ends.
fn trimmed(text: &str) -> &str
    ensures { result.now ≡ texts.trimmed text.now }
{
    trimmed_back(trimmed_front(text))
}

/// Returns whether a byte is whitespace.
fn is_whitespace(byte: u8) -> bool
    ensures { result ≡ texts.is_whitespace byte }
{
    byte == b' ' || (9 <= byte && byte <= 13)
}

/// Returns the text without leading whitespace.
fn trimmed_front(text: &str) -> &str
    ensures { result.now ≡ texts.trimmed_front text.now }
{
    let mut start = 0;
    for byte in text.as_bytes() {
        if !is_whitespace(*byte) {
            return &text[start..];
        }
        start += 1;
    }
    ""
}

/// Returns the text without trailing whitespace.
fn trimmed_back(text: &str) -> &str
    ensures { result.now ≡ reverse (texts.trimmed_front (reverse text.now)) }
{
    let bytes = text.as_bytes();
    let mut end = bytes.len();
    while end > 0 && is_whitespace(bytes[end - 1]) {
        end -= 1;
    }
    &text[..end]
}

/// Returns a text's characters in reverse order.
fn turned(alloc: Global, text: &str) -> Result<String, NoMemory>
    ensures { IfOk result (λ s. string_bytes s ≡ texts.backwards text.now) }
{
    let mut characters = characters(alloc, text)?;
    characters.reverse();
    let mut turned = String::with_capacity(alloc, text.len())?;
    for c in &characters {
        turned.push(*c)?;
    }
    Ok(turned)
}

/// Returns the characters of a text.
fn characters(alloc: Global, text: &str) -> Result<Vec<char>, NoMemory>
    ensures { IfOk result (λ v. v.items ≡ chars text.now) }
{
    Ok(text.chars().collect(alloc)?)
}
