//! Reads the tokens of a tag.

ghost use Rattle.std.specs.Prelude.{◌≡◌, ◌<◌, ◌+◌, ◌-◌, ◌^◌, false, length, map};
ghost use Rattle.std.specs.Str.{chars};
ghost use Rattle.jt_scan.specs.Cut as cut;
ghost use Rattle.jt_scan.specs.internal.Scanning as spec;
ghost use Rattle.jt_scan.specs.internal.Scanning.{quoted, enclosed_at};
ghost use Rattle.jt_scan.specs.View.{token_view};
ghost use Rattle.jt_scan.specs.internal.PartView.{front_view, IsFound, IsParseResult, IsRead};

use crate::error::ScanError;
use crate::marks::read_closer;
use crate::numbers::{digit_value, read_number};
use crate::quotes::{has_meaning, is_quote, split_quoted};
use crate::segment::{Mark, Sign, TagKind, Token};
use crate::signs::read_sign;
use crate::text::{before, behind_name, behind_space, first, starts_name};
use std::alloc::Global;

/// The number of tokens for which there is room in a tag at first.
const USUAL_TOKENS: usize = 8;

/// The next item of a tag after whitespace.
#[derive(Clone, Copy)]
pub enum NextItem<'a> {
    /// The closer with its mark.
    Closer(Mark),
    Token(Token<'a>),
}

/// Reads the number whose first digit is `c`, and returns the rest of the text.
fn number_token(c: char, more: &str, line: u32) -> Result<(Token<'_>, &str), ScanError>
    ensures { IsRead token_view (spec.numbered line (spec.number_at c (chars more.now))) result }
{
    let (number, rest) = read_number(c, more);
    let Ok(number) = i64::try_from(number) else {
        return Err(ScanError::NumberTooLarge { line });
    };
    Ok((Token::Number(number), rest))
}

/// Reads the text literal that the given quote opens, and returns the rest of the text.
fn text_token(quote: char, more: &str, line: u32) -> Result<(Token<'_>, &str), ScanError>
    ensures { IsRead token_view (quoted line (enclosed_at quote false (chars more.now))) result }
{
    let Some((raw, rest)) = split_quoted(more, quote) else {
        return Err(ScanError::UnclosedText { line });
    };
    if !has_meaning(raw) {
        return Err(ScanError::BadEscape { line });
    }
    Ok((Token::Text(raw), rest))
}

/// Reads a token and returns the rest of the text.
fn read_token(text: &str, line: u32) -> Result<(Token<'_>, &str), ScanError>
    ensures { IsRead token_view (spec.token_at line (chars text.now)) result }
{
    let Some((c, more)) = first(text) else {
        return Err(ScanError::UnclosedTag { line });
    };
    if starts_name(c) {
        let rest = behind_name(more);
        return Ok((Token::Name(before(text, rest)), rest));
    }
    if digit_value(c) < 10 {
        return number_token(c, more, line);
    }
    if is_quote(c) {
        return text_token(c, more, line);
    }
    match read_sign(text) {
        Some((sign, rest)) => Ok((Token::Sign(sign), rest)),
        None => Err(ScanError::BadCharacter { line }),
    }
}

/// Reads the closer of a tag if no brace is open. Returns its mark and the rest of the text.
fn counted_closer(text: &str, kind: TagKind, depth: usize) -> Option<(Mark, &str)>
    ensures { IsFound (λ a. a) (spec.counted kind depth (chars text.now)) result }
{
    if depth == 0 {
        read_closer(text, kind)
    } else {
        None
    }
}

/// Reads the next item of a tag in which `depth` braces are open, and returns the rest of the text.
fn read_front(
    text: &str,
    kind: TagKind,
    depth: usize,
    line: u32,
) -> Result<(NextItem<'_>, &str), ScanError>
    ensures { IsRead front_view (spec.front_at kind line depth (chars text.now)) result }
{
    if let Some((mark, rest)) = counted_closer(text, kind, depth) {
        return Ok((NextItem::Closer(mark), rest));
    }
    let (token, rest) = read_token(text, line)?;
    Ok((NextItem::Token(token), rest))
}

/// Returns the number of open braces after a token; `depth` are open before it.
fn braces(depth: usize, token: Token<'_>) -> usize
    requires { depth < 2 ^ 64 - 1 }
    ensures { result ≡ cut.braces depth (token_view token.entry) }
{
    match token {
        Token::Sign(Sign::LeftBrace) => depth + 1,
        Token::Sign(Sign::RightBrace) => depth.saturating_sub(1),
        _ => depth,
    }
}

/// Reads the tokens of a tag up to its closer. Returns them with the closer's mark and the rest of
/// the text.
pub(crate) fn read_tokens<'a>(
    alloc: Global,
    text: &'a str,
    kind: TagKind,
    line: u32,
) -> Result<(Vec<Token<'a>>, Mark, &'a str), ScanError>
    ensures { IsParseResult (λ p. ((map token_view p.0.items, p.1), chars p.2.now))
        (spec.inside kind line (length (chars text.now) + 1) 0 (chars text.now)) result }
{
    let mut tokens = Vec::with_capacity(alloc, USUAL_TOKENS)?;
    let mut rest = text;
    let mut depth = 0;
    'tokens: loop {
        let (found, behind) = read_front(behind_space(rest), kind, depth, line)?;
        let token = match found {
            NextItem::Closer(mark) => return Ok((tokens, mark, behind)),
            NextItem::Token(token) => token,
        };
        tokens.push(token)?;
        depth = braces(depth, token);
        rest = behind;
    }
}
