//! Defines the source of a template: its text with normalized line ends, and its options.

ghost use Rattle.std.specs.Prelude.{◌≡◌, ◌+◌, ◌<◌, ◌≤◌, length, MatchResult, Err, IfOk, false};
ghost use Rattle.std.specs.String.{string_bytes};
ghost use Rattle.jt_scan.specs.LineEnds.{normalized, lf_ends, without_first_lf, ends_with_lf};
ghost use Rattle.jt_scan.specs.LineEnds.{without_last_lf};
ghost use Rattle.jt_scan.specs.SourceView.{max_source_len, held_of};
ghost use Rattle.jt_scan.specs.declared.error.ScanError.TheVariants as error;

use crate::error::ScanError;
use crate::options::Options;
use memchr::memchr;
use std::alloc::{AllocError, Global};
use std::marker::Model;

/// The greatest length of a source, in bytes before normalization.
const MAX_SOURCE_LEN: usize = 1_048_576;

/// The text of a template with LF as its only line end, and the options that it is read with.
#[derive(Debug, Drop)]
pub struct Source {
    text: String,
    options: Options,
}

impl Model for Source {
    ghost use Rattle.std.specs.Prelude.{◌≤◌};
    ghost use Rattle.std.specs.String.{string_len, string_bytes};
    ghost use Rattle.jt_scan.specs.SourceView.{Held, max_source_len};

    ghost Value = { Held };

    ghost view = { λ s. record { text = string_bytes s.text; options = s.options } };

    ghost invariant = { λ s. string_len s.text ≤ max_source_len };
}

impl Source {
    /// Creates the source of a template. CR LF and CR become LF. One LF at the end is then dropped,
    /// unless `keep_trailing_newline` is set.
    ///
    /// # Errors
    ///
    /// - `SourceTooLong` if the text has more than 1048576 bytes.
    /// - `NoMemory` if a growth is refused.
    pub fn new(alloc: Global, text: &str, options: Options) -> Result<Source, ScanError>
        ensures long { max_source_len < length text.now → result ≡ Err (error.SourceTooLong 1) }
        ensures short { length text.now ≤ max_source_len
            → MatchResult result (λ held. held ≡ held_of options text.now)
            (λ e. e ≡ error.NoMemory) }
    {
        if text.len() > MAX_SOURCE_LEN {
            return Err(ScanError::SourceTooLong { line: 1 });
        }
        let text = normalize(alloc, text, options.keep_trailing_newline)?;
        Ok(Source { text, options })
    }

    /// Returns the normalized text.
    pub fn text(&self) -> &str
        ensures value { result.now ≡ self.now.text }
        ensures short { length result.now ≤ max_source_len }
    {
        self.text.as_str()
    }

    /// Returns the options that the template is read with.
    pub fn options(&self) -> Options
        ensures { result ≡ self.now.options }
    {
        self.options
    }
}

/// Returns the text with normalized line ends, without an LF at its end unless `keep_last` is set.
fn normalize(alloc: Global, text: &str, keep_last: bool) -> Result<String, AllocError>
    ensures { IfOk result (λ held. string_bytes held ≡ normalized keep_last text.now) }
{
    let mut held = with_lf_ends(alloc, text)?;
    if keep_last {
        return Ok(held);
    }
    drop_last_lf(&mut held);
    Ok(held)
}

/// Returns the text with LF in place of each CR LF and each lone CR.
fn with_lf_ends(alloc: Global, text: &str) -> Result<String, AllocError>
    ensures { IfOk result (λ held. string_bytes held ≡ lf_ends false text.now) }
{
    let mut held = String::with_capacity(alloc, text.len())?;
    let mut rest = text;
    'ends: while let Some(at) = memchr(b'\r', rest.as_bytes()) {
        held.push_str(&rest[..at])?;
        held.push('\n')?;
        rest = behind_lf(&rest[at + 1..]);
    }
    held.push_str(rest)?;
    Ok(held)
}

/// Drops an LF at the start of a text.
fn behind_lf(text: &str) -> &str
    ensures { result.now ≡ without_first_lf text.now }
{
    let bytes = text.as_bytes();
    if !bytes.is_empty() && bytes[0] == b'\n' {
        &text[1..]
    } else {
        text
    }
}

/// Returns whether the last byte is LF.
fn ends_with_lf(text: &str) -> bool
    ensures { result ≡ ends_with_lf text.now }
{
    let len = text.len();
    len > 0 && text.as_bytes()[len - 1] == b'\n'
}

/// Drops one LF at the end of a text.
fn drop_last_lf(text: &mut String)
    ensures { string_bytes text.new ≡ without_last_lf (string_bytes text.old) }
{
    if ends_with_lf(text.as_str()) {
        text.truncate(text.len() - 1);
    }
}
