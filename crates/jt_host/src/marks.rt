//! Marks a name in a line of a source.

ghost use Rattle.std.specs.Prelude.{◌≡◌, ◌+◌, ◌≤◌, ◌++◌, ◌∷◌, IfOk, OnOk, drop, flat_map, length};
ghost use Rattle.std.specs.Prelude.{nat_eq, slice_index, string_bytes, take};
ghost use Rattle.std.specs.List.{starts_with};
ghost use Rattle.jt_host.specs.Marks as spec;

use std::alloc::{AllocError, Global};

/// Returns whether a byte belongs to a word.
fn is_word(byte: u8) -> bool
    ensures { result ≡ spec.is_word byte }
{
    byte.is_ascii_alphanumeric() || byte == b'_' || byte >= 128
}

/// Returns whether a byte belongs to a character and is not its first byte.
fn is_inner(byte: u8) -> bool
    ensures { result ≡ spec.is_inner byte }
{
    (128..192).contains(&byte)
}

/// Returns whether a byte of a word is at the index.
fn is_word_at(line: &[u8], at: usize) -> bool
    ensures { result ≡ spec.is_word (slice_index line.now at) }
{
    match line.get(at) {
        Some(byte) => is_word(*byte),
        None => false,
    }
}

/// Returns whether a byte of a word is before the index.
fn is_word_before(line: &[u8], at: usize) -> bool
    ensures { result ≡ spec.is_word (slice_index (0 ∷ line.now) at) }
{
    match at.checked_sub(1) {
        Some(before) => is_word_at(line, before),
        None => false,
    }
}

/// Returns whether the line continues with the name at the index.
fn continues_with(line: &[u8], at: usize, name: &[u8]) -> bool
    requires { at ≤ length line.now }
    ensures { result ≡ starts_with nat_eq (drop at line.now) name.now }
{
    line[at..].starts_with(name)
}

/// Returns whether no byte of a word is before `start` or at `end`.
fn is_apart(line: &[u8], start: usize, end: usize) -> bool
    ensures { result ≡ spec.is_apart line.now start end }
{
    !is_word_before(line, start) && !is_word_at(line, end)
}

/// Returns whether the name stands in the line at the index, as a whole word.
pub(crate) fn stands_at(line: &[u8], name: &[u8], at: usize) -> bool
    requires { at ≤ length line.now }
    ensures { result ≡ spec.stands_at line.now name.now at }
{
    !name.is_empty() && continues_with(line, at, name) && is_apart(line, at, at + name.len())
}

/// Returns the first index at which the name stands in the line.
fn place_in(line: &[u8], name: &[u8]) -> Option<usize>
    ensures { result ≡ spec.place_in line.now name.now }
{
    (0..line.len()).position(|at| stands_at(line, name, at))
}

/// Appends what is under a byte before the name.
fn push_pad(made: &mut String, byte: u8) -> Result<(), AllocError>
    ensures { OnOk result (string_bytes made.new ≡ string_bytes made.old ++ spec.pad byte) }
{
    if byte.is_ascii_control() {
        made.push(char::from(byte))
    } else if is_inner(byte) {
        Ok(())
    } else {
        made.push(' ')
    }
}

/// Appends what is under the text before the name.
pub(crate) fn push_pads(made: &mut String, before: &[u8]) -> Result<(), AllocError>
    ensures { OnOk result (string_bytes made.new
        ≡ string_bytes made.old ++ flat_map spec.pad before.now) }
{
    for byte in before {
        push_pad(made, *byte)?;
    }
    Ok(())
}

/// Appends what is under a byte of the name.
fn push_caret(made: &mut String, byte: u8) -> Result<(), AllocError>
    ensures { OnOk result (string_bytes made.new ≡ string_bytes made.old ++ spec.caret byte) }
{
    if is_inner(byte) {
        Ok(())
    } else {
        made.push('^')
    }
}

/// Appends what is under the name.
pub(crate) fn push_carets(made: &mut String, name: &[u8]) -> Result<(), AllocError>
    ensures { OnOk result (string_bytes made.new
        ≡ string_bytes made.old ++ flat_map spec.caret name.now) }
{
    for byte in name {
        push_caret(made, *byte)?;
    }
    Ok(())
}

/// Returns the first `count` bytes, or all if there are fewer.
fn first_bytes(line: &[u8], count: usize) -> &[u8]
    ensures { result.now ≡ take count line.now }
{
    match line.get(..count) {
        Some(bytes) => bytes,
        None => line,
    }
}

/// Returns the line of marks for a name in a line, or the empty text if the name does not stand
/// there.
pub(crate) fn mark(alloc: Global, line: &str, name: &str) -> Result<String, AllocError>
    ensures { IfOk result (λ made. string_bytes made ≡ spec.mark line.now name.now) }
{
    let mut made = String::new(alloc);
    let (line, name) = (line.as_bytes(), name.as_bytes());
    if let Some(at) = place_in(line, name) {
        made.push_str("  ")?;
        push_pads(&mut made, first_bytes(line, at))?;
        push_carets(&mut made, name)?;
        made.push_str("\n")?;
    }
    Ok(made)
}
