//! Defines what a token is to the grammar of expressions.

ghost use Rattle.std.specs.Prelude.{◌≡◌};
ghost use Rattle.std.specs.Str.{chars};
ghost use Rattle.jt_scan.specs.View.{token_view};
ghost use Rattle.jt_syntax.specs.internal.Kinds as spec;

use jt_expr::literal_of;
use jt_scan::{Sign, Token, is_word};

/// What a token is to the grammar.
#[derive(Clone, Copy, Debug, PartialEq, Eq)]
pub enum Kind {
    Name,
    /// A word that spells a constant, such as `true`.
    Constant,
    Number,
    Text,
    And,
    Or,
    Not,
    If,
    Else,
    In,
    Is,
    Sign(Sign),
}

impl Kind {
    /// Returns whether a token of the kind is a word.
    pub(crate) fn is_word(self) -> bool
        ensures { result ≡ spec.is_word self }
    {
        match self {
            Kind::Number | Kind::Text | Kind::Sign(_) => false,
            Kind::Name | Kind::Constant | Kind::And | Kind::Or | Kind::Not => true,
            Kind::If | Kind::Else | Kind::In | Kind::Is => true,
        }
    }
}

/// Returns the kind of a word.
#[tactic(auto, unfolding(crate::specs::internal::Kinds::word_kind))]
fn word_kind(word: &str) -> Kind
    ensures { result ≡ spec.word_kind (chars word.now) }
{
    if is_word(word, "and") {
        Kind::And
    } else if is_word(word, "or") {
        Kind::Or
    } else if is_word(word, "not") {
        Kind::Not
    } else if is_word(word, "if") {
        Kind::If
    } else if is_word(word, "else") {
        Kind::Else
    } else if is_word(word, "in") {
        Kind::In
    } else if is_word(word, "is") {
        Kind::Is
    } else if literal_of(word).is_some() {
        Kind::Constant
    } else {
        Kind::Name
    }
}

/// Returns the kind of a token.
pub(crate) fn kind_of(token: Token<'_>) -> Kind
    ensures { result ≡ spec.kind_of (token_view token.entry) }
{
    match token {
        Token::Name(word) => word_kind(word),
        Token::Number(_) => Kind::Number,
        Token::Text(_) => Kind::Text,
        Token::Sign(sign) => Kind::Sign(sign),
    }
}
