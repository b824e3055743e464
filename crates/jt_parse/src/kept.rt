//! Trims the text between tags.

ghost use Rattle.std.specs.Prelude.{◌≡◌, []};
ghost use Rattle.std.specs.Str.{chars};
ghost use Rattle.jt_scan.specs.Cut.{EndsWith};
ghost use Rattle.jt_scan.specs.View.{part_view};
ghost use Rattle.jt_parse.specs.Kept as spec;
ghost use Rattle.jt_parse.specs.internal.SideView.{side_view, ahead_view, test_of};

use jt_scan::{Mark, Options, Segment, SegmentKind, TagKind, behind_space, first};

/// The neighbour of a text, as far as trimming depends on it.
#[derive(Clone, Copy)]
pub enum Neighbour {
    /// The start or the end of the source.
    Nothing,
    /// A neighbour that is text, not a tag or boundary.
    Words,
    /// A block tag, a comment or raw text, with the mark on this side.
    Block(Mark),
    /// A variable tag, with the mark on this side.
    Variable(Mark),
}

/// The characters that are trimmed.
#[derive(Clone, Copy, PartialEq, Eq)]
pub enum TrimmedChars {
    /// All whitespace.
    All,
    /// Spaces and tabs.
    Blank,
}

/// Returns a tag as a neighbour, given its mark on the side of the text.
fn side_of(kind: TagKind, mark: Mark) -> Neighbour
    ensures { side_view result ≡ spec.side_of kind mark }
{
    match kind {
        TagKind::Block => Neighbour::Block(mark),
        TagKind::Variable => Neighbour::Variable(mark),
    }
}

/// Returns this segment as the left neighbour of the text that follows it.
pub(crate) fn side_behind(part: &SegmentKind<'_>) -> Neighbour
    ensures { side_view result ≡ spec.side_behind (part_view part.now) }
{
    match part {
        SegmentKind::Data(_) => Neighbour::Words,
        SegmentKind::Tag(tag) => side_of(tag.kind, tag.marks.closing),
        SegmentKind::Comment(marks, _) => Neighbour::Block(marks.closing),
        SegmentKind::Raw(_, _, ends) => Neighbour::Block(ends.closing),
    }
}

/// Returns this segment as the right neighbour of the text before it.
fn side_before(part: &SegmentKind<'_>) -> Neighbour
    ensures { side_view result ≡ spec.side_before (part_view part.now) }
{
    match part {
        SegmentKind::Data(_) => Neighbour::Words,
        SegmentKind::Tag(tag) => side_of(tag.kind, tag.marks.opening),
        SegmentKind::Comment(marks, _) => Neighbour::Block(marks.opening),
        SegmentKind::Raw(marks, _, _) => Neighbour::Block(marks.opening),
    }
}

/// Returns the first of the segments as the right neighbour of the text before it.
pub(crate) fn side_ahead(segments: &[Segment<'_>]) -> Neighbour
    ensures { side_view result ≡ ahead_view segments.now }
{
    match segments {
        [first, ..] => side_before(&first.part),
        [] => Neighbour::Nothing,
    }
}

/// Returns whether a character is trimmed: a space or a tab, or with `All` also LF, VT, FF or CR.
fn passes(space: TrimmedChars, c: char) -> bool
    ensures { result ≡ test_of space c }
{
    let blank = c == ' ' || c == '\t';
    let other = c == '\n' || c == '\u{b}' || c == '\u{c}' || c == '\r';
    blank || (space == TrimmedChars::All && other)
}

/// Drops an LF at the start of a text.
fn after_lf(text: &str) -> &str
    ensures { chars result.now ≡ spec.after_lf (chars text.now) }
{
    match first(text) {
        Some(('\n', more)) => more,
        _ => text,
    }
}

/// Returns a text trimmed at its left end.
fn after_left(text: &str, options: Options, left: Neighbour) -> &str
    ensures value { chars result.now ≡ spec.after_left options (side_view left) (chars text.now) }
    ensures end { EndsWith (chars text.now) (chars result.now) }
{
    match left {
        Neighbour::Block(Mark::Minus) | Neighbour::Variable(Mark::Minus) => behind_space(text),
        Neighbour::Block(Mark::Absent) => {
            if options.trim_blocks {
                after_lf(text)
            } else {
                text
            }
        }
        _ => text,
    }
}

/// Returns the longest suffix of trimmed characters, and whether a line begins there. `start` is
/// set if a line begins at the start of the text.
fn ending(text: &str, space: TrimmedChars, start: bool) -> (&str, bool)
    ensures value { chars result.0.now ≡ spec.ending (test_of space) (chars text.now) }
    ensures starts { result.1 ≡ spec.ending_starts (test_of space) start (chars text.now) }
    ensures end { EndsWith (chars text.now) (chars result.0.now) }
{
    let mut run = text;
    let mut starts = start;
    let mut rest = text;
    'text: while let Some((c, more)) = first(rest) {
        if !passes(space, c) {
            run = more;
            starts = c == '\n';
        }
        rest = more;
    }
    (run, starts)
}

/// Returns the empty suffix.
fn no_end<'a>() -> &'a str
    ensures { chars result.now ≡ [] }
{
    ""
}

/// Returns whether the left neighbour is the start of the source.
fn is_start(side: Neighbour) -> bool
    ensures { result ≡ spec.is_start (side_view side) }
{
    matches!(side, Neighbour::Nothing)
}

/// Returns the suffix that is trimmed at the right end of a text.
fn removed_right(text: &str, options: Options, start: bool, right: Neighbour) -> &str
    ensures value { chars result.now
        ≡ spec.removed_right options start (side_view right) (chars text.now) }
    ensures end { EndsWith (chars text.now) (chars result.now) }
{
    match right {
        Neighbour::Block(Mark::Minus) | Neighbour::Variable(Mark::Minus) => ending(
            text,
            TrimmedChars::All,
            start,
        ).0,
        Neighbour::Block(Mark::Absent) if options.lstrip_blocks => {
            let (run, starts) = ending(text, TrimmedChars::Blank, start);
            if starts { run } else { no_end() }
        }
        _ => no_end(),
    }
}

/// Returns a text trimmed at both ends.
pub(crate) fn kept(text: &str, options: Options, left: Neighbour, right: Neighbour) -> &str
    ensures { chars result.now
        ≡ spec.kept options (side_view left) (side_view right) (chars text.now) }
{
    let front = after_left(text, options, left);
    let end = removed_right(text, options, is_start(left), right);
    match front.strip_suffix(end) {
        Some(rest) => rest,
        None => no_end(),
    }
}
