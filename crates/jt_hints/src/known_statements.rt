//! Finds the first word of a tag that begins no statement, and lists the words that do.

ghost use Rattle.std.specs.Prelude.{◌≡◌, map, option_map};
ghost use Rattle.jt_hints.specs.KnownStatements as spec;

use crate::head_forms::head_hint;
use crate::syntax::SyntaxHint;
use jt_scan::{Segment, SegmentKind, TagKind, Token};

static STATEMENT_NAMES: [&str; 24] = [
    "autoescape",
    "block",
    "elif",
    "else",
    "endautoescape",
    "endblock",
    "endfilter",
    "endfor",
    "endif",
    "endmacro",
    "endraw",
    "endset",
    "endwith",
    "extends",
    "filter",
    "for",
    "from",
    "if",
    "import",
    "include",
    "macro",
    "raw",
    "set",
    "with",
];

/// Returns the first words of the tags of statements.
pub fn statement_names() -> &'static [&'static str]
    ensures { map (λ x. x.now) result.now ≡ spec.statement_names }
{
    &STATEMENT_NAMES
}

/// Returns the first word of a tag, if no statement of the language or of Jinja begins with it.
fn unknown_word_in<'a>(kind: TagKind, tokens: &[Token<'a>]) -> Option<&'a str>
    ensures { option_map (λ x. x.now) result ≡ spec.unknown_word_in kind tokens.now }
{
    match (kind, tokens) {
        (TagKind::Block, [Token::Name(word), rest @ ..]) => match head_hint(word, rest) {
            Some(SyntaxHint::UnknownStatement) => Some(*word),
            _ => None,
        },
        _ => None,
    }
}

/// Returns such a word of a segment, if it is a tag at the line.
fn unknown_word_at<'a>(line: u32, segment: &Segment<'a>) -> Option<&'a str>
    ensures { option_map (λ x. x.now) result ≡ spec.unknown_word_of line segment.now.part }
{
    match &segment.part {
        SegmentKind::Tag(tag) if tag.line == line => unknown_word_in(tag.kind, &tag.tokens),
        _ => None,
    }
}

/// Returns the first word of the tags at the line that begins no statement of the language or of
/// Jinja.
pub fn unknown_statement<'a>(line: u32, segments: &[Segment<'a>]) -> Option<&'a str>
    ensures { option_map (λ x. x.now) result ≡ spec.unknown_statement line segments.now }
{
    for segment in segments {
        if let Some(word) = unknown_word_at(line, segment) {
            return Some(word);
        }
    }
    None
}
