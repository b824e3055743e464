//! Finds the method of a Python value that a tag calls.

ghost use Rattle.std.specs.Prelude.{◌≡◌, option_map};
ghost use Rattle.jt_hints.specs.CalledMethods as spec;

use crate::left_out::left_out_method;
use jt_scan::{Segment, SegmentKind, Sign, Token};

/// Returns the method that is called at the first token, if the language leaves it out: a dot, its
/// name and `(`.
fn method_here<'a>(tokens: &[Token<'a>]) -> Option<&'a str>
    ensures { option_map (λ x. x.now) result ≡ spec.method_here tokens.now }
{
    match tokens {
        [
            Token::Sign(Sign::Dot),
            Token::Name(name),
            Token::Sign(Sign::LeftParen),
            ..
        ] if left_out_method(name).is_some() => Some(*name),
        _ => None,
    }
}

/// Returns the first method that is called in the tokens of a tag.
fn first_method<'a>(tokens: &[Token<'a>]) -> Option<&'a str>
    ensures { option_map (λ x. x.now) result ≡ spec.first_method tokens.now }
{
    let mut rest = tokens;
    'tokens: while let [_, behind @ ..] = rest {
        if let Some(name) = method_here(rest) {
            return Some(name);
        }
        rest = behind;
    }
    None
}

/// Returns the first method that is called in a segment, if it is a tag at the line.
fn method_at<'a>(line: u32, segment: &Segment<'a>) -> Option<&'a str>
    ensures { option_map (λ x. x.now) result ≡ spec.method_at line segment.now }
{
    match &segment.part {
        SegmentKind::Tag(tag) if tag.line == line => first_method(&tag.tokens),
        _ => None,
    }
}

/// Returns the first method of a Python value that the tags at the line call, by its name.
pub fn called_method<'a>(line: u32, segments: &[Segment<'a>]) -> Option<&'a str>
    ensures { option_map (λ x. x.now) result ≡ spec.called_method line segments.now }
{
    for segment in segments {
        if let Some(name) = method_at(line, segment) {
            return Some(name);
        }
    }
    None
}
