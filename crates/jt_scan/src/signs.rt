//! Reads the signs of a tag.

ghost use Rattle.std.specs.Prelude.{◌≡◌, Some, None};
ghost use Rattle.std.specs.Str.{chars};
ghost use Rattle.jt_scan.specs.internal.PartView.{IsFound};
ghost use Rattle.jt_scan.specs.internal.Scanning as spec;

use crate::segment::Sign;
use crate::text::first;

/// Returns the sign that a single character spells.
fn one_sign(c: char) -> Option<Sign>
    ensures { result ≡ spec.one_sign c }
{
    match c {
        '+' => Some(Sign::Plus),
        '-' => Some(Sign::Minus),
        '*' => Some(Sign::Times),
        '%' => Some(Sign::Percent),
        '~' => Some(Sign::Tilde),
        '<' => Some(Sign::Less),
        '>' => Some(Sign::Greater),
        '=' => Some(Sign::Assign),
        '.' => Some(Sign::Dot),
        ',' => Some(Sign::Comma),
        ':' => Some(Sign::Colon),
        '|' => Some(Sign::Pipe),
        '(' => Some(Sign::LeftParen),
        ')' => Some(Sign::RightParen),
        '[' => Some(Sign::LeftBracket),
        ']' => Some(Sign::RightBracket),
        '{' => Some(Sign::LeftBrace),
        '}' => Some(Sign::RightBrace),
        _ => None,
    }
}

/// Returns the sign that two characters spell.
fn two_sign(c: char, d: char) -> Option<Sign>
    ensures { result ≡ spec.two_sign c d }
{
    if c == '*' && d == '*' {
        return Some(Sign::Power);
    }
    if c == '/' && d == '/' {
        return Some(Sign::FloorDivide);
    }
    if c == '=' && d == '=' {
        return Some(Sign::Equal);
    }
    if c == '!' && d == '=' {
        return Some(Sign::NotEqual);
    }
    if c == '<' && d == '=' {
        return Some(Sign::LessEqual);
    }
    if c == '>' && d == '=' {
        return Some(Sign::GreaterEqual);
    }
    None
}

#[tactic(auto, unfolding(crate::specs::internal::Scanning::sign_at))]
/// Reads the longest sign at the start of a text, and returns the rest.
pub(crate) fn read_sign(text: &str) -> Option<(Sign, &str)>
    ensures { IsFound (λ a. a) (spec.sign_at (chars text.now)) result }
{
    let (c, more) = first(text)?;
    if let Some((d, rest)) = first(more) {
        if let Some(sign) = two_sign(c, d) {
            return Some((sign, rest));
        }
    }
    let sign = one_sign(c)?;
    Some((sign, more))
}
