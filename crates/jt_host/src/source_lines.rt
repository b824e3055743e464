//! Finds a line of a source.

ghost use Rattle.std.specs.Prelude.{◌≡◌, ◌≤◌, IfOk, length, string_bytes};
ghost use Rattle.jt_scan.specs.SourceView.{max_source_len};
ghost use Rattle.jt_host.specs.SourceLines as spec;

use jt_scan::{Options, ScanError, Source};
use std::alloc::{AllocError, Global};

/// Returns the line of a text that ends with LF, without its end, counted from 1. Returns an empty
/// text if there is no such line.
fn line_of(text: &str, line: u32) -> &str
    ensures { result.now ≡ spec.line_of line text.now }
{
    let mut rest = text;
    let mut left = line;
    while left > 1 {
        rest = after_line(rest);
        left -= 1;
    }
    if left == 0 { "" } else { first_line(rest) }
}

/// Returns the text after the first line.
fn after_line(text: &str) -> &str
    ensures { result.now ≡ spec.after_line text.now }
{
    match text.split_once('\n') {
        Some((_, after)) => after,
        None => "",
    }
}

/// Returns the first line, without its end.
pub(crate) fn first_line(text: &str) -> &str
    ensures { result.now ≡ spec.first_line text.now }
{
    match text.split_once('\n') {
        Some((line, _)) => line,
        None => text,
    }
}

/// Returns the line of a source, counted as the compiler counts lines, without its end. Returns an
/// empty text if the source has no such line or is too long.
pub(crate) fn source_line(
    alloc: Global,
    text: &str,
    options: Options,
    line: u32,
) -> Result<String, AllocError>
    ensures { IfOk result (λ found. string_bytes found ≡ spec.source_line options text.now line) }
{
    match Source::new(alloc, text, options) {
        Ok(source) => String::from_str(alloc, line_of(source.text(), line)),
        Err(ScanError::NoMemory) => Err(AllocError),
        Err(_) => Ok(String::new(alloc)),
    }
}

/// Returns the number of the line at the end of a text, counted from 1.
pub(crate) fn line_number(text: &str) -> u32
    requires { length text.now ≤ max_source_len }
    ensures { result ≡ spec.line_number text.now }
{
    let mut line = 1;
    for byte in text.as_bytes() {
        if *byte == b'\n' {
            line += 1;
        }
    }
    line
}

/// Returns the last line of a text, as far as the text has it.
pub(crate) fn last_line(text: &str) -> &str
    requires { length text.now ≤ max_source_len }
    ensures { result.now ≡ spec.last_line text.now }
{
    line_of(text, line_number(text))
}
