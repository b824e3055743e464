//! Finds the reason of an error of syntax: the form that a tag has and the language does not, the
//! statements that do not nest, or the tag that stands where it may not.

ghost use Rattle.std.specs.Prelude.{◌≡◌, IfOk, IfSome, option_map, string_bytes};
ghost use Rattle.jt_host.specs.SyntaxHints as spec;
ghost use Rattle.jt_host.specs.Templates.{source_of};

use crate::subjects::quoted;
use crate::templates::Templates;
use jt_codegen::{ChainError, CompileError, Explained, ParseError};
use jt_hints::{NestingHint, PositionHint, SyntaxHint, nesting_hint, position_hint, syntax_hint};
use jt_inherit::Library;
use jt_scan::{Options, ScanError, Segment, SegmentKind, Source, scan};
use std::alloc::{AllocError, Global};

/// A reason of an error of syntax.
#[derive(Clone, Copy, Debug, Drop, PartialEq, Eq)]
pub enum SourceHint {
    /// A form that a tag has and the language does not.
    Form(SyntaxHint),
    /// Statements that do not nest.
    Nesting(NestingHint),
    /// A tag that stands where its statement is not allowed.
    Position(PositionHint),
}

impl SourceHint {
    /// Returns what an explanation says of the reason.
    fn sentence(self) -> &'static str
        ensures { result.now ≡ spec.sentence self }
    {
        match self {
            SourceHint::Form(hint) => hint.sentence(),
            SourceHint::Nesting(hint) => hint.sentence(),
            SourceHint::Position(hint) => hint.sentence(),
        }
    }
}

/// Returns what an explanation says of the reason, with the line of the statement that is open.
fn hint_text(alloc: Global, hint: SourceHint) -> Result<String, AllocError>
    ensures { IfOk result (λ text. string_bytes text ≡ spec.hint_text hint) }
{
    let sentence = hint.sentence();
    match hint {
        SourceHint::Nesting(NestingHint::OtherOpen { line, .. }) => {
            format!(in alloc; "{sentence}; it begins at line {line}")
        }
        _ => String::from_str(alloc, sentence),
    }
}

/// Returns what an explanation says of the reason. A word that begins no statement is followed by
/// the word that was probably meant.
pub(crate) fn reason_text(
    alloc: Global,
    hint: SourceHint,
    meant: &Option<String>,
) -> Result<String, AllocError>
    ensures { IfOk result (λ text. string_bytes text
        ≡ spec.reason_text hint (option_map string_bytes meant.now)) }
{
    match (hint, meant) {
        (SourceHint::Form(SyntaxHint::UnknownStatement), Some(name)) => {
            let name = quoted(alloc, name)?;
            let sentence = hint.sentence();
            format!(in alloc; "{sentence}; did you mean{name}?")
        }
        _ => hint_text(alloc, hint),
    }
}

/// Returns the form of a segment that is a tag at the line.
fn hint_in(
    alloc: Global,
    segment: &Segment<'_>,
    line: u32,
) -> Result<Option<SyntaxHint>, AllocError>
    ensures { IfOk result (λ hint. hint ≡ spec.hint_in line segment.now) }
{
    match &segment.part {
        SegmentKind::Tag(tag) => {
            if tag.line == line {
                syntax_hint(alloc, tag.kind, &tag.tokens)
            } else {
                Ok(None)
            }
        }
        _ => Ok(None),
    }
}

/// Returns the first form of a tag at the line.
fn first_hint(
    alloc: Global,
    segments: &[Segment<'_>],
    line: u32,
) -> Result<Option<SyntaxHint>, AllocError>
    ensures { IfOk result (λ hint. hint ≡ spec.first_hint line segments.now) }
{
    for segment in segments {
        if let Some(hint) = hint_in(alloc, segment, line)? {
            return Ok(Some(hint));
        }
    }
    Ok(None)
}

/// Returns the reason that the segments have at the line: the first form of a tag, or else that the
/// statements do not nest, or else that a tag may not stand there.
fn source_hint(
    alloc: Global,
    segments: &[Segment<'_>],
    line: u32,
) -> Result<Option<SourceHint>, AllocError>
    ensures { IfOk result (λ hint. hint ≡ spec.source_hint line segments.now) }
{
    if let Some(hint) = first_hint(alloc, segments, line)? {
        return Ok(Some(SourceHint::Form(hint)));
    }
    if let Some(hint) = nesting_hint(alloc, segments, line)? {
        return Ok(Some(SourceHint::Nesting(hint)));
    }
    match position_hint(alloc, segments, line)? {
        Some(hint) => Ok(Some(SourceHint::Position(hint))),
        None => Ok(None),
    }
}

/// Returns the reason that a source has at the line. Returns `None` if the source is not cut into
/// segments.
fn hint_at(
    alloc: Global,
    text: &str,
    options: Options,
    line: u32,
) -> Result<Option<SourceHint>, AllocError>
    ensures { IfOk result (λ hint. IfSome hint (spec.HasHint options text.now line)) }
{
    let source = match Source::new(alloc, text, options) {
        Ok(source) => source,
        Err(ScanError::NoMemory) => return Err(AllocError),
        Err(_) => return Ok(None),
    };
    match scan(alloc, &source) {
        Ok(segments) => source_hint(alloc, &segments, line),
        Err(ScanError::NoMemory) => Err(AllocError),
        Err(_) => Ok(None),
    }
}

/// Returns the reason of an error of syntax, if the source has one at its line.
fn hint_of(
    alloc: Global,
    templates: &Templates,
    options: Options,
    error: &CompileError,
) -> Result<Option<SourceHint>, AllocError>
    ensures { IfOk result (spec.IsHint (source_of templates.now) options error.now) }
{
    let CompileError::Chain(ChainError::Parse(name, ParseError::Syntax { line })) = error else {
        return Ok(None);
    };
    match templates.source(name) {
        Some(source) => hint_at(alloc, source, options, *line),
        None => Ok(None),
    }
}

/// Returns the reason of the error of syntax for which an entry does not compile, if a source has
/// one at the line of the error.
pub(crate) fn hint_for(
    alloc: Global,
    templates: &Templates,
    options: Options,
    explained: &Explained,
) -> Result<Option<SourceHint>, AllocError>
    ensures { IfOk result (spec.IsHintFor (source_of templates.now) options explained.now) }
{
    match explained {
        Explained::Compiles => Ok(None),
        Explained::Refused(finding) => hint_of(alloc, templates, options, &finding.error),
    }
}
