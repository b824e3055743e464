//! Reads marks, and the closers that may have them.

ghost use Rattle.std.specs.Prelude.{◌≡◌, Some, None};
ghost use Rattle.std.specs.Str.{chars};
ghost use Rattle.jt_scan.specs.internal.PartView.{IsFound};
ghost use Rattle.jt_scan.specs.Cut as cut;

use crate::segment::{Mark, Marks, TagKind};
use crate::text::{behind_pair, first};

/// Returns the mark that a character spells.
fn mark_of(c: char) -> Mark
    ensures { result ≡ cut.mark_of c }
{
    match c {
        '-' => Mark::Minus,
        '+' => Mark::Plus,
        _ => Mark::Absent,
    }
}

/// Reads the mark at the start of a text, if it has one, and returns the rest.
pub(crate) fn read_mark(text: &str) -> (Mark, &str)
    ensures mark { result.0 ≡ cut.first_mark (chars text.now) }
    ensures rest { chars result.1.now ≡ cut.behind_mark (chars text.now) }
{
    let Some((c, more)) = first(text) else {
        return (Mark::Absent, text);
    };
    match mark_of(c) {
        Mark::Absent => (Mark::Absent, text),
        mark => (mark, more),
    }
}

#[tactic(auto, unfolding(crate::specs::Cut::last_from))]
/// Returns the mark at the end of a text.
fn last_mark(text: &str) -> Mark
    ensures { result ≡ cut.last_mark (chars text.now) }
{
    let mut rest = text;
    let mut mark = Mark::Absent;
    'text: while let Some((c, more)) = first(rest) {
        mark = mark_of(c);
        rest = more;
    }
    mark
}

/// Returns the marks of a comment, given the text between its delimiters.
pub(crate) fn comment_marks(text: &str) -> Marks
    ensures { result ≡ cut.comment_marks (chars text.now) }
{
    let (opening, rest) = read_mark(text);
    Marks {
        opening,
        closing: last_mark(rest),
    }
}

/// Returns the first character of a tag's closer; the second one is `}`.
fn closer(kind: TagKind) -> char
    ensures { result ≡ cut.closer kind }
{
    match kind {
        TagKind::Variable => '}',
        TagKind::Block => '%',
    }
}

/// Returns whether a mark may precede a tag's closer.
fn may_close(kind: TagKind, mark: Mark) -> bool
    ensures { result ≡ cut.may_close kind mark }
{
    !(kind == TagKind::Variable && mark == Mark::Plus)
}

/// Reads a tag's closer. Returns its mark and the rest of the text.
pub(crate) fn read_closer(text: &str, kind: TagKind) -> Option<(Mark, &str)>
    ensures { IsFound (λ a. a) (cut.closer_at kind (chars text.now)) result }
{
    let (mark, behind) = read_mark(text);
    if !may_close(kind, mark) {
        return None;
    }
    let rest = behind_pair(behind, closer(kind), '}')?;
    Some((mark, rest))
}
