//! Knows the reserved words of expressions and the first words of statements.

ghost use Rattle.std.specs.Prelude.{◌≡◌, map};
ghost use Rattle.jt_hints.specs.Forms as spec;

use crate::places::TagForm;
use crate::syntax::SyntaxHint;

static PLAIN_WORDS: [&str; 14] = [
    "if",
    "elif",
    "endif",
    "endfor",
    "endset",
    "with",
    "endwith",
    "filter",
    "endfilter",
    "endautoescape",
    "macro",
    "endmacro",
    "block",
    "endblock",
];

/// Returns whether a word is one of the given ones.
fn is_one_of(words: &[&str], word: &str) -> bool
    ensures { result ≡ spec.is_one_of (map (λ x. x.now) words.now) word.now }
{
    for each in words {
        if word == *each {
            return true;
        }
    }
    false
}

/// Returns whether a word is an operator or a part of an inline if, after which an operand begins.
pub(crate) fn is_operator_word(word: &str) -> bool
    ensures { result ≡ spec.is_operator_word word.now }
{
    matches!(word, "and" | "or" | "not" | "if" | "else" | "in" | "is")
}

/// Returns whether a word begins a statement's tag of which nothing more is looked for there.
pub(crate) fn is_plain_word(word: &str) -> bool
    ensures { result ≡ spec.is_plain_word word.now }
{
    is_one_of(&PLAIN_WORDS, word)
}

/// Returns where the expressions of a statement's tag stand, by the tag's first word.
pub(crate) fn form_of(word: &str) -> TagForm
    ensures { result ≡ spec.form_of word.now }
{
    match word {
        "if" | "elif" => TagForm::Expression,
        "for" => TagForm::Loop,
        "set" => TagForm::Set,
        "macro" => TagForm::Macro,
        _ => TagForm::Other,
    }
}

/// Returns the hint for the first word of a tag that begins no statement of the language.
pub(crate) fn unknown_word(word: &str) -> SyntaxHint
    ensures { result ≡ spec.unknown_word word.now }
{
    match word {
        "do" => SyntaxHint::Do,
        "trans" | "pluralize" | "endtrans" => SyntaxHint::Trans,
        "call" | "endcall" => SyntaxHint::CallBlock,
        "break" => SyntaxHint::Break,
        "continue" => SyntaxHint::Continue,
        "debug" => SyntaxHint::Debug,
        "print" => SyntaxHint::Print,
        "elseif" | "elsif" => SyntaxHint::ElseIf,
        _ => SyntaxHint::UnknownStatement,
    }
}
