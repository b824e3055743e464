//! Reads the numbers of a tag.

ghost use Rattle.std.specs.Prelude.{◌≡◌, ◌+◌, ◌*◌};
ghost use Rattle.std.specs.Str.{chars};
ghost use Rattle.jt_scan.specs.internal.PartView.{IsFound, NamesBase, capped};
ghost use Rattle.jt_scan.specs.Literals as literal;
ghost use Rattle.jt_scan.specs.internal.Scanning as spec;

use crate::text::first;

#[tactic(auto, unfolding(crate::specs::Literals::digit_value))]
/// Returns the value of a digit. The letters `a` to `f` of either case have the values 10 to 15,
/// and a character that is no digit has the value 16.
pub(crate) fn digit_value(c: char) -> u32
    ensures { result ≡ literal.digit_value c }
{
    match c {
        '0'..='9' => c as u32 - 48,
        'a'..='f' => c as u32 - 87,
        'A'..='F' => c as u32 - 55,
        _ => 16,
    }
}

/// Reads a digit of the base and returns the rest of the text.
pub(crate) fn plain_digit(text: &str, base: u32) -> Option<(u32, &str)>
    ensures { IsFound (λ a. a) (spec.plain_digit base (chars text.now)) result }
{
    let (c, more) = first(text)?;
    let digit = digit_value(c);
    if digit < base {
        Some((digit, more))
    } else {
        None
    }
}

#[tactic(auto, unfolding(crate::specs::internal::Scanning::next_digit))]
/// Reads a digit of the base, with at most one underscore before it, and returns the rest.
fn next_digit(text: &str, base: u32) -> Option<(u32, &str)>
    ensures { IsFound (λ a. a) (spec.next_digit base (chars text.now)) result }
{
    let (c, more) = first(text)?;
    let digit = digit_value(c);
    if digit < base {
        Some((digit, more))
    } else if c == '_' {
        plain_digit(more, base)
    } else {
        None
    }
}

/// Appends a digit to a number. Saturates at the greatest `u64`.
pub(crate) fn grown(number: u64, base: u32, digit: u32) -> u64
    ensures { result ≡ capped (capped (number * base) + digit) }
{
    number
        .saturating_mul(u64::from(base))
        .saturating_add(u64::from(digit))
}

/// Appends the leading digits of a text to the number `start`, and returns the rest of the text.
/// Saturates at the greatest `u64`.
fn read_digits(text: &str, base: u32, start: u64) -> (u64, &str)
    ensures value { result.0 ≡ capped (spec.digits_at base start (chars text.now)).0 }
    ensures rest { chars result.1.now ≡ (spec.digits_at base start (chars text.now)).1 }
{
    let mut number = start;
    let mut rest = text;
    'digits: while let Some((digit, more)) = next_digit(rest, base) {
        number = grown(number, base, digit);
        rest = more;
    }
    (number, rest)
}

#[tactic(auto, unfolding(crate::specs::Literals::base_of))]
/// Returns the base that a letter after a leading `0` names, or 0 if it names none.
fn base_of(letter: char) -> u32
    ensures { result ≡ literal.base_of letter }
{
    match letter {
        'b' | 'B' => 2,
        'o' | 'O' => 8,
        'x' | 'X' => 16,
        _ => 0,
    }
}

/// Reads the letter of a base if a digit of that base follows. Returns the base and the text after
/// the letter.
fn named_base(text: &str) -> Option<(u32, &str)>
    ensures { NamesBase (chars text.now) result }
{
    let (letter, more) = first(text)?;
    let base = base_of(letter);
    let _digit = next_digit(more, base)?;
    Some((base, more))
}

/// Reads the number whose first digit is `c`, and returns the rest of the text. Saturates at the
/// greatest `u64`.
pub(crate) fn read_number(c: char, more: &str) -> (u64, &str)
    ensures value { result.0 ≡ capped (spec.number_at c (chars more.now)).0 }
    ensures rest { chars result.1.now ≡ (spec.number_at c (chars more.now)).1 }
{
    if c != '0' {
        return read_digits(more, 10, u64::from(digit_value(c)));
    }
    match named_base(more) {
        Some((base, rest)) => read_digits(rest, base, 0),
        None => read_digits(more, 1, 0),
    }
}
