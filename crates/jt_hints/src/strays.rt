//! Finds the character of a tag at which the scanner stops, and the brace that stands alone.

ghost use Rattle.std.specs.Prelude.{◌≡◌, ◌++◌, ◌∷◌, [], true, IfOk, IfSome, codes, take};
ghost use Rattle.std.specs.Str.{chars};
ghost use Rattle.jt_scan.specs.Cut.{closer};
ghost use Rattle.jt_scan.specs.Refused.{IsRefusal};
ghost use Rattle.jt_scan.specs.declared.error.ScanError.TheVariants as error;
ghost use Rattle.jt_hints.specs.Strays as spec;
ghost use Rattle.jt_hints.specs.internal.Cuts.{IsCutSource, IsCutText};

use jt_scan::{Options, ScanError, Source, TagKind, scan};
use std::alloc::{AllocError, Global};

/// The number of halvings after which a place in a source of 1,048,576 bytes is found.
const HALVINGS: u32 = 21;

/// The number of braces that are tried.
const BRACES: u32 = 8;

/// A character of a tag that stands where no token begins, by its place in the text.
#[derive(Clone, Copy, Debug, Drop, PartialEq, Eq)]
pub enum Stray {
    /// A character that begins no token.
    Character {
        /// The byte at which it begins.
        at: usize,
        /// The byte after it.
        end: usize,
    },
    /// A `}` that closes no brace, in place of the closer of a tag of this kind.
    Brace {
        /// The byte at which it stands.
        at: usize,
        /// The byte after it.
        end: usize,
        kind: TagKind,
    },
}

impl Stray {
    /// Returns the byte at which the character begins.
    pub fn place(self) -> usize
        ensures { result ≡ spec.place self }
    {
        match self {
            Stray::Character { at, .. } | Stray::Brace { at, .. } => at,
        }
    }

    /// Returns the byte after the character.
    pub fn end(self) -> usize
        ensures { result ≡ spec.stray_end self }
    {
        match self {
            Stray::Character { end, .. } | Stray::Brace { end, .. } => end,
        }
    }
}

/// Returns whether the scanner cuts a source.
fn is_cut_source(alloc: Global, source: &Source) -> Result<bool, AllocError>
    ensures { IfOk result (λ b. b ≡ true → IsCutSource source.now) }
{
    match scan(alloc, source) {
        Ok(_) => Ok(true),
        Err(ScanError::NoMemory) => Err(AllocError),
        Err(_) => Ok(false),
    }
}

/// Returns whether the scanner cuts a text.
#[tactic(auto, using(crate::proofs::ReadTexts::cut_of_text))]
fn is_cut(alloc: Global, text: &str, options: Options) -> Result<bool, AllocError>
    ensures { IfOk result (λ b. b ≡ true → IsCutText options text.now) }
{
    match Source::new(alloc, text, options) {
        Ok(source) => is_cut_source(alloc, &source),
        Err(ScanError::NoMemory) => Err(AllocError),
        Err(_) => Ok(false),
    }
}

/// Returns whether the scanner cuts a text with this closer after it.
fn is_closed_by(
    alloc: Global,
    front: &str,
    options: Options,
    closer: &str,
) -> Result<bool, AllocError>
    ensures { IfOk result (λ b. b ≡ true → IsCutText options (front.now ++ closer.now)) }
{
    let closed = format!(in alloc; "{front}{closer}")?;
    is_cut(alloc, &closed, options)
}

/// Returns the error of the scanner for a source. Returns `None` if it is cut.
fn source_refusal(alloc: Global, source: &Source) -> Result<Option<ScanError>, AllocError>
    ensures { IfOk result (λ found. IfSome found (λ e. IsRefusal e (chars source.now.text))) }
{
    match scan(alloc, source) {
        Ok(_) => Ok(None),
        Err(ScanError::NoMemory) => Err(AllocError),
        Err(error) => Ok(Some(error)),
    }
}

/// Returns the error of the scanner for a text. Returns `None` if the text is cut or too long.
#[tactic(auto, using(crate::proofs::ReadTexts::refused))]
fn refusal(alloc: Global, text: &str, options: Options) -> Result<Option<ScanError>, AllocError>
    ensures { IfOk result (λ found. IfSome found (spec.Refuses options text.now)) }
{
    match Source::new(alloc, text, options) {
        Ok(source) => source_refusal(alloc, &source),
        Err(ScanError::NoMemory) => Err(AllocError),
        Err(_) => Ok(None),
    }
}

/// Returns the error of the scanner for the text up to a byte. Returns `None` if that text is cut,
/// or if it ends inside a character.
fn front_refusal(
    alloc: Global,
    text: &str,
    end: usize,
    options: Options,
) -> Result<Option<ScanError>, AllocError>
    ensures { IfOk result (λ found. IfSome found (spec.Refuses options (take end text.now))) }
{
    match text.split_at_checked(end) {
        Some((front, _)) => refusal(alloc, front, options),
        None => Ok(None),
    }
}

/// Returns whether the text up to a byte ends inside a comment.
fn is_in_comment(
    alloc: Global,
    text: &str,
    end: usize,
    options: Options,
) -> Result<bool, AllocError>
    ensures { IfOk result (λ b. b ≡ true → IsCutText options (take end text.now ++ codes "#}")) }
{
    match text.split_at_checked(end) {
        Some((front, _)) => is_closed_by(alloc, front, options, "#}"),
        None => Ok(false),
    }
}

/// Returns whether the text up to a byte lacks the end of the tag at the line, and nothing else. It
/// is no comment.
///
/// # Errors
///
/// `AllocError` if a growth is refused.
pub fn is_open(
    alloc: Global,
    text: &str,
    end: usize,
    options: Options,
    line: u32,
) -> Result<bool, AllocError>
    ensures { IfOk result (λ b. b ≡ true
        → spec.Refuses options (take end text.now) (error.UnclosedTag line)) }
{
    match front_refusal(alloc, text, end, options)? {
        Some(ScanError::UnclosedTag { line: found }) if found == line => {
            Ok(!is_in_comment(alloc, text, end, options)?)
        }
        _ => Ok(false),
    }
}

/// Returns whether the text up to a byte has a character in the tag at the line that begins no
/// token.
fn stops(
    alloc: Global,
    text: &str,
    end: usize,
    options: Options,
    line: u32,
) -> Result<bool, AllocError>
    ensures { IfOk result (λ b. b ≡ true
        → spec.Refuses options (take end text.now) (error.BadCharacter line)) }
{
    match front_refusal(alloc, text, end, options)? {
        Some(ScanError::BadCharacter { line: found }) => Ok(found == line),
        _ => Ok(false),
    }
}

/// Returns the character at a byte, if the scanner stops there in the tag at the line.
fn character_at(
    alloc: Global,
    text: &str,
    options: Options,
    line: u32,
    at: usize,
) -> Result<Option<Stray>, AllocError>
    ensures { IfOk result (λ found. IfSome found (spec.IsStray options text.now line)) }
{
    if at >= text.len() || !is_open(alloc, text, at, options, line)? {
        return Ok(None);
    }
    let end = text.ceil_char_boundary(at + 1);
    if !stops(alloc, text, end, options, line)? {
        return Ok(None);
    }
    let behind = text.ceil_char_boundary(end.saturating_add(1));
    if stops(alloc, text, behind, options, line)? {
        Ok(Some(Stray::Character { at, end }))
    } else {
        Ok(None)
    }
}

/// Returns whether a byte begins a sign of two characters and no sign alone.
fn begins_pair(byte: Option<&u8>) -> bool {
    matches!(byte, Some(b'/' | b'!'))
}

/// Returns the byte up to which a text is read, so that no sign of two characters is cut.
fn whole_end(text: &str, end: usize) -> usize {
    match end.checked_sub(1) {
        Some(last) if begins_pair(text.as_bytes().get(last)) => {
            text.ceil_char_boundary(end.saturating_add(1))
        }
        _ => end,
    }
}

/// Returns the byte at which the last character begins whose text before it does not stop the
/// scanner, as halving finds it.
fn stop_near(alloc: Global, text: &str, options: Options, line: u32) -> Result<usize, AllocError> {
    let mut low = 0;
    let mut high = text.len();
    'halvings: for _ in 0..HALVINGS {
        let middle = low + (high - low) / 2;
        let end = whole_end(text, text.floor_char_boundary(middle));
        if stops(alloc, text, end, options, line)? {
            high = middle;
        } else {
            low = middle;
        }
    }
    Ok(text.floor_char_boundary(low))
}

/// Returns the character at which the scanner stops in the tag at the line.
fn stray_character(
    alloc: Global,
    text: &str,
    options: Options,
    line: u32,
) -> Result<Option<Stray>, AllocError>
    ensures { IfOk result (λ found. IfSome found (spec.IsStray options text.now line)) }
{
    let at = stop_near(alloc, text, options, line)?;
    if let Some(found) = character_at(alloc, text, options, line, at)? {
        return Ok(Some(found));
    }
    // Behind a sign of two characters the next one stops the scanner.
    let next = text.ceil_char_boundary(at.saturating_add(1));
    character_at(alloc, text, options, line, next)
}

/// Returns the kind of the tag that its closer closes at the end of the text.
fn kind_closed(alloc: Global, front: &str, options: Options) -> Result<Option<TagKind>, AllocError>
    ensures { IfOk result (λ found. IfSome found (λ kind.
        IsCutText options (front.now ++ (closer kind ∷ 125 ∷ [])))) }
{
    if is_closed_by(alloc, front, options, "}}")? {
        return Ok(Some(TagKind::Variable));
    }
    if is_closed_by(alloc, front, options, "%}")? {
        return Ok(Some(TagKind::Block));
    }
    Ok(None)
}

/// Returns the brace at a byte, if it stands alone in the tag at the line.
fn brace_at(
    alloc: Global,
    text: &str,
    options: Options,
    line: u32,
    at: usize,
) -> Result<Option<Stray>, AllocError>
    ensures { IfOk result (λ found. IfSome found (spec.IsStray options text.now line)) }
{
    if at >= text.len() || text.as_bytes()[at] != b'}' {
        return Ok(None);
    }
    if !is_open(alloc, text, at, options, line)? {
        return Ok(None);
    }
    let Some((front, _)) = text.split_at_checked(at) else {
        return Ok(None);
    };
    match kind_closed(alloc, front, options)? {
        Some(kind) => Ok(Some(Stray::Brace {
            at,
            end: at + 1,
            kind,
        })),
        None => Ok(None),
    }
}

/// Returns the byte at which the last opener of a tag before a byte begins.
fn last_opener(text: &str, end: usize) -> usize {
    let Some((front, _)) = text.split_at_checked(end) else {
        return end;
    };
    let variable = front.rfind("{{").unwrap_or(0);
    variable.max(front.rfind("{%").unwrap_or(0))
}

/// Returns the first brace before a byte that stands alone in the tag at the line.
fn lone_brace(
    alloc: Global,
    text: &str,
    options: Options,
    line: u32,
    end: usize,
) -> Result<Option<Stray>, AllocError>
    ensures { IfOk result (λ found. IfSome found (spec.IsStray options text.now line)) }
{
    let mut left = BRACES;
    for at in last_opener(text, end)..end {
        if left > 0 && text.as_bytes().get(at) == Some(&b'}') {
            left -= 1;
            if let Some(found) = brace_at(alloc, text, options, line, at)? {
                return Ok(Some(found));
            }
        }
    }
    Ok(None)
}

/// Returns the character at which the scanner stops in the tag at the line, or the brace before it
/// that stands alone. The text has LF as its only line end.
///
/// # Errors
///
/// `AllocError` if a growth is refused.
pub fn find_stray(
    alloc: Global,
    text: &str,
    options: Options,
    line: u32,
) -> Result<Option<Stray>, AllocError>
    ensures { IfOk result (λ found. IfSome found (spec.IsStray options text.now line)) }
{
    let Some(found) = stray_character(alloc, text, options, line)? else {
        return Ok(None);
    };
    match lone_brace(alloc, text, options, line, found.place())? {
        Some(brace) => Ok(Some(brace)),
        None => Ok(Some(found)),
    }
}
