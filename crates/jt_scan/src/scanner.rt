//! Splits a source into segments.

ghost use Rattle.std.specs.Prelude.{◌≡◌, ◌≤◌, ◌++◌, ◌∷◌, [], List, length, map, MatchResult, IfOk};
ghost use Rattle.std.specs.Prelude.{IfErr};
ghost use Rattle.std.specs.Str.{chars};
ghost use Rattle.jt_scan.specs.internal.PartView.{IsParseResult, IsRead};
ghost use Rattle.jt_scan.specs.Cut as cut;
ghost use Rattle.jt_scan.specs.Refused.{IsRefusal};
ghost use Rattle.jt_scan.specs.internal.Scanning as spec;
ghost use Rattle.jt_scan.specs.SourceView.{max_source_len};
ghost use Rattle.jt_scan.specs.View.{token_view, part_view, cut_of, HaveOptions};
ghost use Rattle.jt_scan.specs.declared.error.ScanError.TheVariants as error;

use crate::endraw::{read_endraw, split_raw};
use crate::error::ScanError;
use crate::find::{split_comment, split_data};
use crate::marks::{comment_marks, read_mark};
use crate::options::Options;
use crate::segment::{Marks, Segment, SegmentKind, Tag, TagKind, Token};
use crate::source::Source;
use crate::text::{before, behind_pair, is_word, lines};
use crate::tokens::read_tokens;
use std::alloc::{AllocError, Global};

/// The number of bytes of a segment by which the room for segments is estimated.
const SEGMENT_BYTES: usize = 16;

/// Returns whether a tag is a block tag whose only token is the word `raw`.
fn is_raw(kind: TagKind, tokens: &[Token<'_>]) -> bool
    ensures { result ≡ cut.is_raw kind (map token_view tokens.now) }
{
    match (kind, tokens) {
        (TagKind::Block, [Token::Name(word)]) => is_word(word, "raw"),
        _ => false,
    }
}

/// Reads raw text and its `endraw` tag, and returns the rest. The text begins after the `raw` tag.
fn read_raw(text: &str, marks: Marks, line: u32) -> Result<(SegmentKind<'_>, &str), ScanError>
    ensures { IsRead part_view (spec.raw_at line marks (chars text.now)) result }
{
    let (raw, end) = split_raw(text);
    match read_endraw(end) {
        Some((ends, rest)) => Ok((SegmentKind::Raw(marks, raw, ends), rest)),
        None => Err(ScanError::UnclosedRaw { line }),
    }
}

/// Reads a tag and returns the rest. The text begins after the tag's opener.
fn read_tag<'a>(
    alloc: Global,
    text: &'a str,
    kind: TagKind,
    line: u32,
) -> Result<(SegmentKind<'a>, &'a str), ScanError>
    ensures { IsRead part_view (spec.tag_at kind line (chars text.now)) result }
{
    let (opening, inside) = read_mark(text);
    let (tokens, closing, rest) = read_tokens(alloc, inside, kind, line)?;
    let marks = Marks { opening, closing };
    if is_raw(kind, &tokens) {
        return read_raw(rest, marks, line);
    }
    Ok((
        SegmentKind::Tag(Tag {
            kind,
            marks,
            line,
            tokens,
        }),
        rest,
    ))
}

/// Reads a comment and returns the rest. The text begins after the comment's opener.
fn read_comment<'a>(text: &'a str, line: u32) -> Result<(SegmentKind<'a>, &'a str), ScanError>
    ensures { IsRead part_view (spec.comment_at line (chars text.now)) result }
{
    let (comment, end) = split_comment(text);
    match behind_pair(end, '#', '}') {
        Some(rest) => Ok((SegmentKind::Comment(comment_marks(comment), comment), rest)),
        None => Err(ScanError::UnclosedTag { line }),
    }
}

/// Reads the first segment and returns the rest of the text.
fn read_part<'a>(
    alloc: Global,
    text: &'a str,
    line: u32,
) -> Result<(SegmentKind<'a>, &'a str), ScanError>
    ensures { IsRead part_view (spec.segment_at line (chars text.now)) result }
{
    if let Some(inside) = behind_pair(text, '{', '{') {
        return read_tag(alloc, inside, TagKind::Variable, line);
    }
    if let Some(inside) = behind_pair(text, '{', '%') {
        return read_tag(alloc, inside, TagKind::Block, line);
    }
    if let Some(inside) = behind_pair(text, '{', '#') {
        return read_comment(inside, line);
    }
    let (data, rest) = split_data(text);
    Ok((SegmentKind::Data(data), rest))
}

/// Appends a segment with these options.
fn push_segment<'a>(
    segments: &mut Vec<Segment<'a>>,
    options: Options,
    part: SegmentKind<'a>,
) -> Result<(), AllocError>
    requires { HaveOptions options segments.old.items }
    ensures cut { IfOk result (λ u.
        cut_of segments.new.items ≡ cut_of segments.old.items ++ (part_view part.entry ∷ [])) }
    ensures options { IfOk result (λ u. HaveOptions options segments.new.items) }
{
    segments.push(Segment { options, part })?;
    Ok(())
}

/// Splits a text into segments that have these options.
fn read_segments<'a>(
    alloc: Global,
    text: &'a str,
    options: Options,
) -> Result<Vec<Segment<'a>>, ScanError>
    requires { length text.now ≤ max_source_len }
    ensures cut { IsParseResult (λ v. cut_of v.items) (spec.cut_whole (chars text.now)) result }
    ensures options { IfOk result (λ v. HaveOptions options v.items) }
{
    let mut segments = Vec::with_capacity(alloc, text.len() / SEGMENT_BYTES + 1)?;
    let mut rest = text;
    let mut line = 1;
    'segments: while !rest.is_empty() {
        let (found, behind) = read_part(alloc, rest, line)?;
        push_segment(&mut segments, options, found)?;
        line += lines(before(rest, behind)) as u32;
        rest = behind;
    }
    Ok(segments)
}

/// Splits a source into segments. They are slices of the source, in its order, and each has the
/// options of the source.
///
/// # Errors
///
/// Each error but `NoMemory` has the line of its tag.
///
/// - `UnclosedTag` if the source ends inside a tag or a comment.
/// - `UnclosedText` if the source ends inside a text literal.
/// - `BadCharacter` if a character of a tag begins no token.
/// - `BadEscape` if an escape has no meaning.
/// - `NumberTooLarge` if a number is above the greatest.
/// - `UnclosedRaw` if no `endraw` tag follows a `raw` tag.
/// - `NoMemory` if a growth is refused.
pub fn scan(alloc: Global, source: &Source) -> Result<Vec<Segment<'_>>, ScanError>
    ensures cut { IfOk result
        (λ segments. cut.IsCut (cut_of segments.items) (chars source.now.text)) }
    ensures only { (others : List cut.Segment) → cut.IsCut others (chars source.now.text) →
        MatchResult result (λ segments. cut_of segments.items ≡ others) (λ e. e ≡ error.NoMemory) }
    ensures refused { IfErr result (λ e. IsRefusal e (chars source.now.text)) }
    ensures options { IfOk result (λ segments. HaveOptions source.now.options segments.items) }
    ensures weighs { IfOk result
        (λ segments. cut.weight_of (cut_of segments.items) ≤ length (chars source.now.text)) }
{
    read_segments(alloc, source.text(), source.options())
}
