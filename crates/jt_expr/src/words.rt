//! Defines the words of the language.

ghost use Rattle.std.specs.Prelude.{◌≡◌, option_map};
ghost use Rattle.std.specs.Str.{chars};
ghost use Rattle.jt_expr.specs.Grammar as grammar;
ghost use Rattle.jt_ast.specs.ExpressionView.{literal_view};

use jt_ast::Literal;
use jt_scan::is_word;

/// Returns the literal that a word spells, or `None` if it spells none.
pub fn literal_of(word: &str) -> Option<Literal>
    ensures { option_map literal_view result ≡ grammar.literal_of (chars word.now) }
{
    if is_word(word, "true") || is_word(word, "True") {
        Some(Literal::Truth(true))
    } else if is_word(word, "false") || is_word(word, "False") {
        Some(Literal::Truth(false))
    } else if is_word(word, "none") || is_word(word, "None") {
        Some(Literal::None)
    } else {
        None
    }
}

/// Returns whether a word is reserved, so that it cannot be a name.
pub(crate) fn is_reserved(word: &str) -> bool
    ensures { result ≡ grammar.is_reserved (chars word.now) }
{
    is_word(word, "and")
        || is_word(word, "or")
        || is_word(word, "not")
        || is_word(word, "if")
        || is_word(word, "else")
        || is_word(word, "in")
        || is_word(word, "is")
        || is_word(word, "true")
        || is_word(word, "false")
        || is_word(word, "none")
        || is_word(word, "True")
        || is_word(word, "False")
        || is_word(word, "None")
}

/// Returns whether a word is a constant or a name.
pub(crate) fn is_operand(word: &str) -> bool
    ensures { result ≡ grammar.is_operand (chars word.now) }
{
    literal_of(word).is_some() || !is_reserved(word)
}
