//! Finds the forms at the start and the end of a statement's tag.

ghost use Rattle.std.specs.Prelude.{◌≡◌, slice_get};
ghost use Rattle.jt_hints.specs.Forms as spec;

use crate::statement_words::{is_plain_word, unknown_word};
use crate::syntax::SyntaxHint;
use jt_scan::{Sign, Token};

/// Returns the hint for `else if`, given the tokens after `else`.
fn else_hint(tokens: &[Token<'_>]) -> Option<SyntaxHint>
    ensures { result ≡ spec.else_hint tokens.now }
{
    match tokens {
        [Token::Name("if"), ..] => Some(SyntaxHint::ElseIf),
        _ => None,
    }
}

/// Returns the hint for a template that is named by an expression, given the tokens after the word.
fn template_hint(tokens: &[Token<'_>]) -> Option<SyntaxHint>
    ensures { result ≡ spec.template_hint tokens.now }
{
    match tokens {
        [] | [Token::Text(_)] => None,
        [Token::Text(_), Token::Name(word), ..] if *word != "if" => None,
        _ => Some(SyntaxHint::ExpressionAsName),
    }
}

/// Returns the hint for a state other than `true` and `false`, given the tokens after `autoescape`.
fn autoescape_hint(tokens: &[Token<'_>]) -> Option<SyntaxHint>
    ensures { result ≡ spec.autoescape_hint tokens.now }
{
    match tokens {
        [Token::Name("true" | "false")] => None,
        _ => Some(SyntaxHint::AutoescapeValue),
    }
}

/// Returns whether the token at an index is a name.
fn is_name_at(tokens: &[Token<'_>], index: usize, name: &str) -> bool
    ensures { result ≡ spec.is_name_at name.now (slice_get tokens.now index) }
{
    match tokens.get(index) {
        Some(Token::Name(found)) => *found == name,
        _ => false,
    }
}

/// Returns the hint for a word other than `missing` after `ignore`, given the tokens after
/// `include`.
fn ignored_hint(tokens: &[Token<'_>]) -> Option<SyntaxHint>
    ensures { result ≡ spec.ignored_hint tokens.now }
{
    if is_name_at(tokens, 1, "ignore") && !is_name_at(tokens, 2, "missing") {
        return Some(SyntaxHint::IgnoreMissing);
    }
    None
}

/// Returns the hint for an include, given the tokens after `include`.
fn include_hint(tokens: &[Token<'_>]) -> Option<SyntaxHint>
    ensures { result ≡ spec.include_hint tokens.now }
{
    match template_hint(tokens) {
        Some(hint) => Some(hint),
        None => ignored_hint(tokens),
    }
}

/// Returns the hint for an import, given the tokens after `import` or `from`.
fn import_hint(tokens: &[Token<'_>]) -> Option<SyntaxHint>
    ensures { result ≡ spec.import_hint tokens.now }
{
    let count = tokens.len();
    let with = is_name_at(tokens, count.saturating_sub(2), "with");
    if with && is_name_at(tokens, count.saturating_sub(1), "context") {
        return Some(SyntaxHint::WithContext);
    }
    template_hint(tokens)
}

/// Returns the hint for a recursive loop, given the tokens after `for`.
fn loop_hint(tokens: &[Token<'_>]) -> Option<SyntaxHint>
    ensures { result ≡ spec.loop_hint tokens.now }
{
    if is_name_at(tokens, tokens.len().saturating_sub(1), "recursive") {
        return Some(SyntaxHint::RecursiveLoop);
    }
    None
}

/// Returns the hint for a target that is an attribute, given the tokens after `set`.
fn target_hint(tokens: &[Token<'_>]) -> Option<SyntaxHint>
    ensures { result ≡ spec.target_hint tokens.now }
{
    match tokens {
        [Token::Name(_), Token::Sign(Sign::Dot), ..] => Some(SyntaxHint::AttributeTarget),
        _ => None,
    }
}

/// Returns the hint for a statement's tag by its first word and by the tokens after it, as far as
/// these need no expression.
pub(crate) fn head_hint(word: &str, tokens: &[Token<'_>]) -> Option<SyntaxHint>
    ensures { result ≡ spec.head_hint word.now tokens.now }
{
    match word {
        "else" => else_hint(tokens),
        "extends" => template_hint(tokens),
        "include" => include_hint(tokens),
        "autoescape" => autoescape_hint(tokens),
        "import" | "from" => import_hint(tokens),
        "for" => loop_hint(tokens),
        "set" => target_hint(tokens),
        _ if is_plain_word(word) => None,
        _ => Some(unknown_word(word)),
    }
}
