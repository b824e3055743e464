//! Builds texts from pieces. Their sizes are tested before they are built.
ghost use Rattle.std.specs.Prelude.{◌≡◌, ◌-◌, ◌/◌, ◌^◌, ◌++◌, min, length, Ok, IfOk, OnOk};
ghost use Rattle.std.specs.Prelude.{string_bytes};
ghost use Rattle.std.specs.List.{repeat};
ghost use Rattle.jt_value.specs.View.{view};
ghost use Rattle.jt_escape.specs.Escaping.{escaped, escaped_byte};
ghost use Rattle.jt_ops.specs.Pieces.{of_kind, written};
ghost use Rattle.jt_op_semantics.specs.Joining.{times};
ghost use Rattle.jt_ops.specs.Limited.{AnswersWith};

use crate::limits::{Limits, OpError, allow, made};
use jt_escape::escape_into;
use jt_value::{NoMemory, Value};
use std::alloc::Global;

/// The number of copies up to which a text is appended copy by copy.
const FEW: u64 = 16;

/// The length in bytes up to which a repeated text is doubled.
const BLOCK: usize = 4096;

/// The kind of a text: plain or markup.
#[derive(Clone, Copy)]
pub enum TextKind {
    Plain,
    Markup,
}

impl TextKind {
    /// Returns the value of this kind that holds `text`.
    ///
    /// # Errors
    ///
    /// `NoMemory` if a growth is refused.
    pub fn value(self, text: String) -> Result<Value, NoMemory>
        ensures { IfOk result (λ v. view v ≡ of_kind self (string_bytes text)) }
    {
        match self {
            TextKind::Plain => Value::from_text(text),
            TextKind::Markup => Value::from_markup(text),
        }
    }
}

/// A piece of a text that is being built.
#[derive(Clone, Copy)]
pub enum Piece<'a> {
    /// A piece that is written unchanged.
    Raw(&'a str),
    /// A piece whose special characters are escaped.
    Escaped(&'a str),
}

impl<'a> Piece<'a> {
    /// Returns the number of bytes that the piece writes, at most 2^64 - 1.
    pub fn len(&self) -> u64
        ensures { result ≡ min (length (written self.now)) (2 ^ 64 - 1) }
    {
        match self {
            Piece::Raw(text) => text.len() as u64,
            Piece::Escaped(text) => escaped_len(text),
        }
    }

    /// Appends the piece to a text.
    ///
    /// # Errors
    ///
    /// `NoMemory` if a growth is refused. A part of the piece may then have been appended.
    pub fn write(&self, into: &mut String) -> Result<(), NoMemory>
        ensures { OnOk result (string_bytes into.new ≡ string_bytes into.old ++ written self.now) }
    {
        match self {
            Piece::Raw(text) => into.push_str(text)?,
            Piece::Escaped(text) => escape_into(text, into)?,
        }
        Ok(())
    }
}

#[tactic(auto, using(crate::proofs::AppendSteps::escaped_length_more))]
/// Returns the length in bytes of an escaped text, at most 2^64 - 1.
fn escaped_len(text: &str) -> u64
    ensures { result ≡ min (length (escaped text.now)) (2 ^ 64 - 1) }
{
    let mut total = 0u64;
    for byte in text.as_bytes() {
        total = total.saturating_add(escaped_byte_len(*byte));
    }
    total
}

/// Returns the number of bytes of a byte's escaped form.
fn escaped_byte_len(byte: u8) -> u64
    ensures { result ≡ length (escaped_byte byte) }
{
    match byte {
        b'&' | b'\'' | b'"' => 5,
        b'<' | b'>' => 4,
        _ => 1,
    }
}

/// Returns the text of two pieces, under limits.
pub(crate) fn concatenated(
    alloc: Global,
    left: &Piece<'_>,
    right: &Piece<'_>,
    kind: TextKind,
    limits: Limits,
) -> Result<Value, OpError>
    ensures { AnswersWith limits (of_kind kind (written left.now ++ written right.now)) result }
{
    let len = left.len().saturating_add(right.len());
    allow(len.saturating_add(1), 0, limits)?;
    made(text_of_two(alloc, left, right, kind, len as usize))
}

/// Returns the text of two pieces, built in a string with the initial capacity `room`.
fn text_of_two(
    alloc: Global,
    left: &Piece<'_>,
    right: &Piece<'_>,
    kind: TextKind,
    room: usize,
) -> Result<Value, NoMemory>
    ensures { IfOk result (λ v. view v ≡ of_kind kind (written left.now ++ written right.now)) }
{
    let mut text = String::with_capacity(alloc, room)?;
    left.write(&mut text)?;
    right.write(&mut text)?;
    kind.value(text)
}

/// Returns the text repeated `number` times, or the empty text if `number` is not positive.
#[tactic(auto, using(crate::proofs::AppendSteps::repeat_length))]
pub(crate) fn repeated(
    alloc: Global,
    text: &str,
    number: i64,
    kind: TextKind,
    limits: Limits,
) -> Result<Value, OpError>
    ensures { AnswersWith limits (of_kind kind (repeat (times number) text.now)) result }
{
    let count = repetitions(text, number);
    let len = (text.len() as u64).saturating_mul(count);
    allow(len.saturating_add(1), 0, limits)?;
    made(repetition(alloc, text, count, kind, len as usize))
}

/// Returns the number of copies of the text to write: 0 if it is empty or `number` is not positive.
#[tactic(auto, using(crate::proofs::AppendSteps::repeat_empty))]
fn repetitions(text: &str, number: i64) -> u64
    ensures same { repeat result text.now ≡ repeat (times number) text.now }
    ensures empty { length text.now ≡ 0 → result ≡ 0 }
{
    if number <= 0 || text.is_empty() {
        0
    } else {
        number.unsigned_abs()
    }
}

/// Returns the text repeated `count` times, built in a string with the initial capacity `room`.
fn repetition(
    alloc: Global,
    text: &str,
    count: u64,
    kind: TextKind,
    room: usize,
) -> Result<Value, NoMemory>
    ensures { IfOk result (λ v. view v ≡ of_kind kind (repeat count text.now)) }
{
    let mut repeated = String::with_capacity(alloc, room)?;
    append_repeated(alloc, &mut repeated, text, count)?;
    kind.value(repeated)
}

/// Appends a text `count` times. A short text is first doubled to a block of about `BLOCK` bytes,
/// so the time goes into copies of whole blocks.
fn append_repeated(alloc: Global, into: &mut String, text: &str, count: u64) -> Result<(), NoMemory>
    ensures { OnOk result (string_bytes into.new ≡ string_bytes into.old ++ repeat count text.now) }
{
    if count <= FEW {
        return append_copies(into, text, count);
    }
    let mut block = String::from_str(alloc, text)?;
    let mut left = count;
    while left > FEW && block.len() < BLOCK {
        append_odd(into, &block, left)?;
        double(&mut block)?;
        left /= 2;
    }
    append_copies(into, &block, left)
}

/// Appends a text once if `count` is odd. The rest is then `count / 2` copies of the doubled text.
#[tactic(auto, using(crate::proofs::AppendSteps::halved_repetitions))]
fn append_odd(into: &mut String, text: &str, count: u64) -> Result<(), NoMemory>
    ensures { OnOk result (string_bytes into.new ++ repeat (count / 2) (text.now ++ text.now)
        ≡ string_bytes into.old ++ repeat count text.now) }
{
    if count % 2 != 0 {
        into.push_str(text)?;
    }
    Ok(())
}

/// Appends a text to itself.
fn double(text: &mut String) -> Result<(), NoMemory>
    ensures { OnOk result (string_bytes text.new ≡ string_bytes text.old ++ string_bytes text.old) }
{
    let copy = text.clone()?;
    text.push_str(&copy)?;
    Ok(())
}

/// Appends a text `count` times, one copy after another.
#[tactic(auto, using(crate::proofs::AppendSteps::repeat_pushed))]
fn append_copies(into: &mut String, text: &str, count: u64) -> Result<(), NoMemory>
    ensures { OnOk result (string_bytes into.new ≡ string_bytes into.old ++ repeat count text.now) }
{
    for _ in 0..count {
        into.push_str(text)?;
    }
    Ok(())
}
