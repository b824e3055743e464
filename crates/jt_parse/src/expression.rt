//! Reads expressions and first tags, and converts their errors.

ghost use Rattle.std.specs.Prelude.{◌≡◌, ◌∷◌, suc, map, bytes_eq, encode_utf8_all, string_bytes};
ghost use Rattle.std.specs.Str.{chars};
ghost use Rattle.jt_scan.specs.View.{token_view};
ghost use Rattle.jt_ast.specs.Expressions.{levels as tree_levels};
ghost use Rattle.jt_expr.specs.Grammar.{word as word_token, whole, Spells};
ghost use Rattle.jt_ast.specs.ExpressionView.{expr_view};
ghost use Rattle.jt_parse.specs.Tags.{Says, head_levels};
ghost use Rattle.jt_parse.specs.internal.HeadView.{head_view};
ghost use Rattle.jt_parse.specs.internal.Gives.{GivesOnly, refusal_at};

use crate::error::ParseError;
use crate::opening_tags::Head;
use crate::tags::read_head;
use jt_ast::Expr;
use jt_expr::ExprError;
use jt_scan::Token;
use std::alloc::Global;

/// Parses the expression of a tag, of at most `levels` levels. Errors have the line of the tag.
pub(crate) fn expression(
    alloc: Global,
    tokens: &[Token<'_>],
    levels: u8,
    line: u32,
) -> Result<Expr, ParseError>
    ensures { GivesOnly expr_view (λ e. Spells whole e (map token_view tokens.now)) tree_levels
        levels result }
{
    match jt_expr::expression(alloc, tokens, levels) {
        Ok(expr) => Ok(expr),
        Err(refusal) => Err(refused(line, refusal)),
    }
}

/// Parses the first tag of a statement, given its word and the tokens after it.
pub(crate) fn head(
    alloc: Global,
    word: &str,
    tokens: &[Token<'_>],
    levels: u8,
    line: u32,
) -> Result<Head, ParseError>
    ensures { GivesOnly head_view (λ h. Says line h
        (word_token (chars word.now) ∷ map token_view tokens.now)) head_levels (suc levels) result }
{
    match read_head(alloc, word, tokens, levels, line) {
        Ok(head) => Ok(head),
        Err(refusal) => Err(refused(line, refusal)),
    }
}

/// Converts the error of an expression to that of a tag at this line.
pub(crate) fn refused(line: u32, refusal: ExprError) -> ParseError
    ensures { result ≡ refusal_at line refusal }
{
    match refusal {
        ExprError::Syntax => ParseError::Syntax { line },
        ExprError::TooDeep => ParseError::TooDeep { line },
        ExprError::NoMemory => ParseError::NoMemory,
    }
}

/// Returns whether a word equals a name.
pub(crate) fn is_name(word: &str, name: &str) -> bool
    ensures { result ≡ bytes_eq (encode_utf8_all (chars word.now)) name.now }
{
    word == name
}
