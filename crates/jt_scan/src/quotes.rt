//! Reads text literals and computes their values.

ghost use Rattle.std.specs.Prelude.{◌≡◌, ◌+◌, ◌++◌, ◌&&◌, ◌==◌, not, length, true, false};
ghost use Rattle.std.specs.Prelude.{MatchOption, IfOk};
ghost use Rattle.std.specs.Str.{chars, encode_utf8_all};
ghost use Rattle.std.specs.String.{string_bytes};
ghost use lib.Utf8.{scalar};
ghost use Rattle.jt_scan.specs.Literals as literal;
ghost use Rattle.jt_scan.specs.Literals.{coded, some_digits};
ghost use Rattle.jt_scan.specs.internal.Scanning as spec;
ghost use Rattle.jt_scan.specs.internal.PartView.{escape_view, piece_text, bytes_of, capped};
ghost use Rattle.jt_scan.specs.internal.PartView.{IsFound};

use crate::numbers::{digit_value, grown, plain_digit};
use crate::text::{before, first};
use std::alloc::{AllocError, Global};

/// The meaning of a character after a backslash.
#[derive(Clone, Copy)]
enum Escape {
    /// A character that is dropped with its backslash.
    Drops,
    Gives(char),
    /// The first of one to three octal digits.
    Octal,
    /// A letter before this number of hexadecimal digits.
    Hexadecimal(usize),
    Refused,
    /// A character that stays with its backslash.
    Stays,
}

/// The value of a character or of an escape.
#[derive(Clone, Copy)]
pub enum EscapeValue {
    Nothing,
    Character(char),
    /// A backslash and a character.
    Pair(char),
}

/// Returns whether a character is a quote.
pub(crate) fn is_quote(c: char) -> bool
    ensures { result ≡ literal.is_quote c }
{
    c == '"' || c == '\''
}

/// Returns whether a character is the wanted one and is not escaped by a backslash.
fn is_bare(c: char, wanted: char, escaped: bool) -> bool
    ensures { result ≡ (c == wanted && not escaped) }
{
    c == wanted && !escaped
}

/// Returns the text before the closing quote and the rest after it. A quote after a backslash does
/// not close.
pub(crate) fn split_quoted(text: &str, quote: char) -> Option<(&str, &str)>
    ensures { IsFound (λ a. chars a.now) (spec.enclosed_at quote false (chars text.now)) result }
{
    let mut rest = text;
    let mut escaped = false;
    'quoted: while let Some((c, more)) = first(rest) {
        if is_bare(c, quote, escaped) {
            return Some((before(text, rest), more));
        }
        escaped = is_bare(c, '\\', escaped);
        rest = more;
    }
    None
}

#[tactic(auto, unfolding(crate::specs::Literals::escape))]
/// Returns the meaning of a character after a backslash.
fn escape_of(c: char) -> Escape
    ensures { escape_view result ≡ literal.escape c }
{
    if digit_value(c) < 8 {
        return Escape::Octal;
    }
    match c {
        '\n' => Escape::Drops,
        '\\' | '\'' | '"' => Escape::Gives(c),
        'a' => Escape::Gives('\u{7}'),
        'b' => Escape::Gives('\u{8}'),
        't' => Escape::Gives('\t'),
        'n' => Escape::Gives('\n'),
        'v' => Escape::Gives('\u{b}'),
        'f' => Escape::Gives('\u{c}'),
        'r' => Escape::Gives('\r'),
        'x' => Escape::Hexadecimal(2),
        'u' => Escape::Hexadecimal(4),
        'U' => Escape::Hexadecimal(8),
        'N' => Escape::Refused,
        _ => Escape::Stays,
    }
}

/// Reads at most `most` digits and appends them to the number `start`. Returns the number of digits
/// that are missing, the number, which saturates at the greatest `u64`, and the rest of the text.
fn some_digits(text: &str, base: u32, most: usize, start: u64) -> (usize, u64, &str)
    ensures missing { length (some_digits base most (chars text.now)).0 + result.0 ≡ most }
    ensures number { result.1
        ≡ capped (literal.number_from base start (some_digits base most (chars text.now)).0) }
    ensures rest { chars result.2.now ≡ (some_digits base most (chars text.now)).1 }
{
    let mut missing = most;
    let mut number = start;
    let mut rest = text;
    'digits: while missing > 0 {
        let Some((digit, more)) = plain_digit(rest, base) else {
            return (missing, number, rest);
        };
        number = grown(number, base, digit);
        rest = more;
        missing -= 1;
    }
    (missing, number, rest)
}

/// Returns the character with this code, if there is one.
fn character(code: u64) -> Option<char>
    ensures { MatchOption result (scalar code ≡ false) (λ c. (c ≡ code) × (scalar code ≡ true)) }
{
    char::from_u32(u32::try_from(code).ok()?)
}

/// Reads an octal escape whose first digit is `c`, and returns the rest of the text.
fn read_octal(c: char, more: &str) -> Option<(EscapeValue, &str)>
    ensures { IsFound piece_text (literal.escape_by literal.octal c (chars more.now)) result }
{
    let (_missing, code, rest) = some_digits(more, 8, 2, u64::from(digit_value(c)));
    Some((EscapeValue::Character(character(code)?), rest))
}

/// Reads the character that `digits` hexadecimal digits encode, and returns the rest of the text.
fn read_hexadecimal(text: &str, digits: usize) -> Option<(EscapeValue, &str)>
    ensures { IsFound piece_text (coded digits (some_digits 16 digits (chars text.now))) result }
{
    let (missing, code, rest) = some_digits(text, 16, digits, 0);
    if missing > 0 {
        return None;
    }
    Some((EscapeValue::Character(character(code)?), rest))
}

/// Reads an escape and returns the rest of the text. The text begins after the backslash.
fn read_escape(text: &str) -> Option<(EscapeValue, &str)>
    ensures { IsFound piece_text (literal.escape_at (chars text.now)) result }
{
    let (c, more) = first(text)?;
    match escape_of(c) {
        Escape::Drops => Some((EscapeValue::Nothing, more)),
        Escape::Gives(given) => Some((EscapeValue::Character(given), more)),
        Escape::Octal => read_octal(c, more),
        Escape::Hexadecimal(digits) => read_hexadecimal(more, digits),
        Escape::Refused => None,
        Escape::Stays => Some((EscapeValue::Pair(c), more)),
    }
}

/// Reads the character or escape that begins with `c`, and returns the rest of the text.
fn read_piece(c: char, more: &str) -> Option<(EscapeValue, &str)>
    ensures { IsFound piece_text (literal.piece_at c (chars more.now)) result }
{
    if c == '\\' {
        read_escape(more)
    } else {
        Some((EscapeValue::Character(c), more))
    }
}

/// Returns whether every escape of a text literal has a meaning.
pub(crate) fn has_meaning(raw: &str) -> bool
    ensures { result ≡ (literal.pieces 0 (chars raw.now)).1 }
{
    let mut rest = raw;
    'pieces: while let Some((c, more)) = first(rest) {
        let Some((_piece, behind)) = read_piece(c, more) else {
            return false;
        };
        rest = behind;
    }
    true
}

/// Appends the value of a character or of an escape.
fn push_piece(held: &mut String, piece: EscapeValue) -> Result<(), AllocError>
    ensures { IfOk result (λ _. string_bytes held.new ≡ string_bytes held.old ++ bytes_of piece) }
{
    match piece {
        EscapeValue::Nothing => Ok(()),
        EscapeValue::Character(c) => held.push(c),
        EscapeValue::Pair(c) => {
            held.push('\\')?;
            held.push(c)
        }
    }
}

/// Returns the value of a text literal, given the characters between its quotes: each escape is
/// replaced by the characters that it encodes. Reading stops at an escape without a meaning, which
/// no token contains.
///
/// # Errors
///
/// `AllocError` if a growth is refused.
pub fn text_value(alloc: Global, raw: &str) -> Result<String, AllocError>
    ensures { IfOk result
        (λ value. string_bytes value ≡ encode_utf8_all (literal.unescaped (chars raw.now))) }
{
    let mut value = String::with_capacity(alloc, raw.len())?;
    let mut rest = raw;
    'pieces: while let Some((c, more)) = first(rest) {
        let Some((piece, behind)) = read_piece(c, more) else {
            return Ok(value);
        };
        push_piece(&mut value, piece)?;
        rest = behind;
    }
    Ok(value)
}
