//! Finds the word or the character of a tag under which an explanation puts its marks.

ghost use Rattle.std.specs.Prelude.{◌≡◌, ◌≤◌, IfOk, IfSome, length, option_map, string_bytes};
ghost use Rattle.jt_scan.specs.SourceView.{max_source_len};
ghost use Rattle.jt_host.specs.Templates.{source_of};
ghost use Rattle.jt_host.specs.TokenMarks as spec;

use crate::marks::{push_carets, push_pads, stands_at};
use crate::source_lines::{first_line, last_line, line_number};
use crate::subjects::{marked_name, quoted};
use crate::templates::Templates;
use jt_codegen::{ChainError, CompileError, Explained, Finding, TagPlace};
use jt_hints::{Stray, find_stray, is_open, left_out_character};
use jt_inherit::Library;
use jt_scan::{Options, ScanError, Source, TagKind};
use std::alloc::{AllocError, Global};

/// The number of places of a word that are tried.
const WORDS: u32 = 64;

/// A word or a character of a tag, by its place in the source.
#[derive(Debug, Drop, PartialEq, Eq)]
pub struct TokenMark {
    /// The line of the word, counted from 1.
    pub line: u32,
    /// The text of the line before the word.
    pub before: String,
    /// The text of the line from the word on.
    pub rest: String,
    /// The word.
    pub word: String,
}

/// A character at which the scanner stops.
#[derive(Debug, Drop, PartialEq, Eq)]
pub struct StrayMark {
    pub mark: TokenMark,
    /// What to write in place of the character, if it is known.
    pub cure: Option<&'static str>,
}

/// What the marks of an explanation are under.
#[derive(Debug, Drop, PartialEq, Eq)]
pub enum Marked {
    /// A character at which the scanner stops.
    Stray(StrayMark),
    /// The word that a refusal is about.
    Word(TokenMark),
}

/// Returns what to write in place of a character that begins no token, or of a brace that stands
/// alone.
fn cure_of(found: Stray, word: &str) -> Option<&'static str>
    ensures { option_map (λ x. x.now) result ≡ spec.cure_of found word.now }
{
    match found {
        Stray::Character { .. } => left_out_character(word),
        Stray::Brace {
            kind: TagKind::Variable,
            ..
        } => Some("the tag ends with }}"),
        Stray::Brace {
            kind: TagKind::Block,
            ..
        } => Some("the tag ends with %}"),
    }
}

/// Returns the mark of a part of a text. Returns `None` if it begins or ends inside a character.
fn part_mark(
    alloc: Global,
    text: &str,
    at: usize,
    end: usize,
) -> Result<Option<TokenMark>, AllocError>
    requires { length text.now ≤ max_source_len }
    ensures { IfOk result (λ found. IfSome found (spec.IsPart text.now at end)) }
{
    let Some((front, rest)) = text.split_at_checked(at) else {
        return Ok(None);
    };
    let Some((whole, _)) = text.split_at_checked(end) else {
        return Ok(None);
    };
    let Some((_, word)) = whole.split_at_checked(at) else {
        return Ok(None);
    };
    Ok(Some(TokenMark {
        line: line_number(front),
        before: String::from_str(alloc, last_line(front))?,
        word: String::from_str(alloc, word)?,
        rest: String::from_str(alloc, first_line(rest))?,
    }))
}

/// Returns the mark of the character at which the scanner stops in the tag at the line.
fn stray_mark(
    alloc: Global,
    text: &str,
    options: Options,
    line: u32,
) -> Result<Option<StrayMark>, AllocError>
    requires { length text.now ≤ max_source_len }
    ensures { IfOk result (λ found. IfSome found (spec.IsStrayMark options text.now line)) }
{
    let Some(found) = find_stray(alloc, text, options, line)? else {
        return Ok(None);
    };
    match part_mark(alloc, text, found.place(), found.end())? {
        Some(mark) => {
            let cure = cure_of(found, &mark.word);
            Ok(Some(StrayMark { mark, cure }))
        }
        None => Ok(None),
    }
}

/// Returns the first place of a word in the tags that begin at the line, outside of their texts.
fn word_place(
    alloc: Global,
    text: &str,
    options: Options,
    line: u32,
    word: &str,
) -> Result<Option<usize>, AllocError>
    ensures { IfOk result (λ found. IfSome found (λ at.
        spec.IsWordPlace options text.now line word.now at)) }
{
    let (bytes, mut left, mut current) = (text.as_bytes(), WORDS, 1);
    for at in 0..bytes.len() {
        if left > 0 && current >= line && stands_at(bytes, word.as_bytes(), at) {
            left -= 1;
            if is_open(alloc, text, at, options, line)? {
                return Ok(Some(at));
            }
        }
        if bytes[at] == b'\n' {
            current = current.saturating_add(1);
        }
    }
    Ok(None)
}

/// Returns the mark of a word in the tags that begin at the line.
fn word_mark(
    alloc: Global,
    text: &str,
    options: Options,
    line: u32,
    word: &str,
) -> Result<Option<TokenMark>, AllocError>
    requires { length text.now ≤ max_source_len }
    ensures { IfOk result (λ found. IfSome found
        (spec.IsWordMark options text.now line word.now)) }
{
    let Some(at) = word_place(alloc, text, options, line, word)? else {
        return Ok(None);
    };
    match at.checked_add(word.len()) {
        Some(end) => part_mark(alloc, text, at, end),
        None => Ok(None),
    }
}

/// Returns the source of a template. Returns `None` if it has none, or if it is too long.
fn read_source(
    alloc: Global,
    templates: &Templates,
    options: Options,
    template: &str,
) -> Result<Option<Source>, AllocError>
    ensures { IfOk result (λ found. IfSome found
        (spec.IsSourceOf (source_of templates.now) options template.now)) }
{
    let Some(text) = templates.source(template) else {
        return Ok(None);
    };
    match Source::new(alloc, text, options) {
        Ok(source) => Ok(Some(source)),
        Err(ScanError::NoMemory) => Err(AllocError),
        Err(_) => Ok(None),
    }
}

/// Returns the mark of the character at which the scanner stops in a tag that begins at a place.
fn stray_in(
    alloc: Global,
    templates: &Templates,
    options: Options,
    place: &TagPlace,
) -> Result<Option<StrayMark>, AllocError>
    ensures { IfOk result (λ found. IfSome found
        (spec.IsStrayIn (source_of templates.now) options place.now)) }
{
    match read_source(alloc, templates, options, &place.template)? {
        Some(source) => stray_mark(alloc, source.text(), options, place.line),
        None => Ok(None),
    }
}

/// Returns the mark of a word in the tags that begin at a place.
fn word_in(
    alloc: Global,
    templates: &Templates,
    options: Options,
    place: &TagPlace,
    word: &str,
) -> Result<Option<TokenMark>, AllocError>
    ensures { IfOk result (λ found. IfSome found
        (spec.IsWordIn (source_of templates.now) options place.now word.now)) }
{
    match read_source(alloc, templates, options, &place.template)? {
        Some(source) => word_mark(alloc, source.text(), options, place.line, word),
        None => Ok(None),
    }
}

/// Returns what the marks of a finding are under. Returns `None` if it is not found in a tag that
/// begins at the place of the finding.
fn mark_of(
    alloc: Global,
    templates: &Templates,
    options: Options,
    finding: &Finding,
) -> Result<Option<Marked>, AllocError>
    ensures { IfOk result (λ found. IfSome found
        (spec.IsMarkOf (source_of templates.now) options finding.now)) }
{
    let Some(place) = &finding.place else {
        return Ok(None);
    };
    if let CompileError::Chain(
        ChainError::Scan(_, ScanError::BadCharacter { .. }),
    ) = &finding.error
    {
        return match stray_in(alloc, templates, options, place)? {
            Some(found) => Ok(Some(Marked::Stray(found))),
            None => Ok(None),
        };
    }
    let Some(name) = marked_name(alloc, &finding.subject)? else {
        return Ok(None);
    };
    match word_in(alloc, templates, options, place, &name)? {
        Some(found) => Ok(Some(Marked::Word(found))),
        None => Ok(None),
    }
}

/// Returns what the marks of an explanation are under.
pub(crate) fn mark_for(
    alloc: Global,
    templates: &Templates,
    options: Options,
    explained: &Explained,
) -> Result<Option<Marked>, AllocError>
    ensures { IfOk result (λ found. IfSome found
        (spec.IsMarkFor (source_of templates.now) options explained.now)) }
{
    match explained {
        Explained::Compiles => Ok(None),
        Explained::Refused(finding) => mark_of(alloc, templates, options, finding),
    }
}

/// Returns the word or the character under which the marks are.
pub(crate) fn token_of(marked: &Marked) -> &TokenMark
    ensures { result.now ≡ spec.token_of marked.now }
{
    match marked {
        Marked::Stray(found) => &found.mark,
        Marked::Word(mark) => mark,
    }
}

/// Returns the line of marks.
pub(crate) fn marks_under(alloc: Global, mark: &TokenMark) -> Result<String, AllocError>
    ensures { IfOk result (λ made. string_bytes made ≡ spec.marks_under mark.now) }
{
    let mut made = String::from_str(alloc, "  ")?;
    push_pads(&mut made, mark.before.as_bytes())?;
    push_carets(&mut made, mark.word.as_bytes())?;
    made.push_str("\n")?;
    Ok(made)
}

/// Returns what follows the sentence of a character that begins no token: the character, and what
/// to write in place of it. Returns an empty text for any other mark.
pub(crate) fn stray_text(alloc: Global, mark: &Option<Marked>) -> Result<String, AllocError>
    ensures { IfOk result (λ made. string_bytes made ≡ spec.stray_text mark.now) }
{
    let Some(Marked::Stray(found)) = mark else {
        return Ok(String::new(alloc));
    };
    let word = quoted(alloc, &found.mark.word)?;
    match found.cure {
        Some(cure) => format!(in alloc; ":{word}; {cure}"),
        None => format!(in alloc; ":{word}"),
    }
}
