//! Finds the tag that stands where its statement is not allowed.

ghost use Rattle.std.specs.Prelude.{◌≡◌, IfOk};
ghost use Rattle.std.specs.List.{list_all, list_any};
ghost use Rattle.jt_scan.specs.Cut as cut;
ghost use Rattle.jt_hints.specs.Positions as spec;

use crate::nesting::{Opened, Statement, pass, role_in};
use jt_scan::{Segment, SegmentKind, TagKind, Token};
use std::alloc::{AllocError, Global};

/// A reason why a tag may not stand where it does.
#[derive(Clone, Copy, Debug, Drop, PartialEq, Eq)]
pub enum PositionHint {
    /// `extends` after something other than comments and whitespace.
    LateExtends,
    /// A tag outside the blocks of a template that extends another one, other than `set`, `macro`
    /// and imports.
    OutsideBlocks,
    /// A macro or an import inside another statement.
    NotAtTop,
    /// A block inside a macro.
    BlockInMacro,
}

impl PositionHint {
    /// Returns what an explanation says of the reason.
    pub fn sentence(self) -> &'static str
        ensures { result.now ≡ spec.sentence self }
    {
        match self {
            PositionHint::LateExtends => {
                "extends comes first: only comments and whitespace stand before it"
            }
            PositionHint::OutsideBlocks => {
                "outside its blocks a template that extends another has only set, macro and imports"
            }
            PositionHint::NotAtTop => "macros and imports stand outside all other statements",
            PositionHint::BlockInMacro => "no block stands inside a macro",
        }
    }
}

/// What a segment is, as far as positions depend on it.
#[derive(Clone, Copy, PartialEq, Eq)]
pub enum Part {
    /// A comment or whitespace.
    Blank,
    /// `extends`
    Extends,
    /// `macro`, `import` or `from`
    Definition,
    /// `block`
    Block,
    /// Any other tag that begins a statement, but `set`.
    Statement,
    /// Anything else.
    Other,
}

/// Returns what the block tag with this first word is.
fn part_of(word: &str) -> Part
    ensures { result ≡ spec.part_of word.now }
{
    match word {
        "extends" => Part::Extends,
        "macro" | "import" | "from" => Part::Definition,
        "block" => Part::Block,
        "if" | "for" | "with" | "filter" | "autoescape" | "include" => Part::Statement,
        _ => Part::Other,
    }
}

/// Returns what the tag with these tokens is.
fn part_of_tokens(kind: TagKind, tokens: &[Token<'_>]) -> Part
    ensures { result ≡ spec.part_of_tokens kind tokens.now }
{
    match (kind, tokens) {
        (TagKind::Variable, _) => Part::Statement,
        (TagKind::Block, [Token::Name(word), ..]) => part_of(word),
        (TagKind::Block, _) => Part::Other,
    }
}

/// Returns whether a byte is whitespace.
fn is_space(byte: u8) -> bool
    ensures { result ≡ cut.is_space byte }
{
    matches!(byte, b' ' | b'\t' | b'\n' | 0x0b | 0x0c | b'\r')
}

/// Returns whether a text consists of whitespace.
fn is_blank(text: &str) -> bool
    ensures { result ≡ list_all cut.is_space text.now }
{
    for byte in text.as_bytes() {
        if !is_space(*byte) {
            return false;
        }
    }
    true
}

/// Returns what a segment is.
fn part_in(segment: &Segment<'_>) -> Part
    ensures { result ≡ spec.part_in segment.now }
{
    match &segment.part {
        SegmentKind::Tag(tag) => part_of_tokens(tag.kind, &tag.tokens),
        SegmentKind::Data(text) if is_blank(text) => Part::Blank,
        SegmentKind::Comment(..) => Part::Blank,
        _ => Part::Other,
    }
}

/// Returns whether a macro is open.
fn has_macro(opened: &[Opened]) -> bool
    ensures { result ≡ list_any spec.is_macro opened.now }
{
    for each in opened {
        if each.statement.is(Statement::Macro) {
            return true;
        }
    }
    false
}

/// What was before a segment.
#[derive(Clone, Copy)]
pub struct Passed {
    /// Whether there was something other than comments and whitespace.
    pub started: bool,
    /// Whether the template extends another one.
    pub child: bool,
}

/// Returns the reason why a segment may not stand where it does, if there is one.
fn misplaced(passed: Passed, opened: &[Opened], part: Part) -> Option<PositionHint>
    ensures { result ≡ spec.misplaced passed opened.now part }
{
    match part {
        Part::Extends if passed.started => Some(PositionHint::LateExtends),
        Part::Definition if !opened.is_empty() => Some(PositionHint::NotAtTop),
        Part::Block if has_macro(opened) => Some(PositionHint::BlockInMacro),
        Part::Statement if passed.child && opened.is_empty() => Some(PositionHint::OutsideBlocks),
        _ => None,
    }
}

impl Passed {
    /// Returns what was before the next segment.
    fn and(self, part: Part) -> Passed
        ensures { result ≡ spec.passed_after self part }
    {
        Passed {
            started: self.started || part != Part::Blank,
            child: self.child || part == Part::Extends,
        }
    }
}

/// Returns the reason why a tag may not stand where it does, if the first such tag is at the line.
///
/// # Errors
///
/// `AllocError` if a growth is refused.
pub fn position_hint(
    alloc: Global,
    segments: &[Segment<'_>],
    line: u32,
) -> Result<Option<PositionHint>, AllocError>
    ensures { IfOk result (λ hint. hint ≡ spec.position_hint segments.now line) }
{
    let mut opened = Vec::new(alloc);
    let mut passed = Passed {
        started: false,
        child: false,
    };
    for segment in segments {
        let part = part_in(segment);
        let (role, here) = role_in(segment);
        if let Some(hint) = misplaced(passed, &opened, part) {
            return Ok(if here == line { Some(hint) } else { None });
        }
        passed = passed.and(part);
        pass(&mut opened, role, here)?;
    }
    Ok(None)
}
