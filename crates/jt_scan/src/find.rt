//! Finds the ends of data and of comments by their bytes.

ghost use Rattle.std.specs.Prelude.{◌≡◌, ◌≤◌, length, slice_index, codes};
ghost use Rattle.memchr.specs.Find.{FindsNeedle, IsFirst};
ghost use Rattle.jt_scan.specs.Cut as cut;
ghost use Rattle.jt_scan.specs.internal.PartView.{IsSplit};
ghost use Rattle.jt_scan.specs.internal.Scanning as spec;

use memchr::{memchr, memmem};

/// Returns whether the byte at a position can follow `{` in an opener. Returns `false` past the
/// end.
fn is_second(text: &[u8], at: usize) -> bool
    ensures { result ≡ spec.is_second (slice_index text.now at) }
{
    if at < text.len() {
        text[at] == b'{' || text[at] == b'%' || text[at] == b'#'
    } else {
        false
    }
}

/// Returns the position of the first `{` at or after `start`.
fn next_brace(text: &[u8], start: usize) -> Option<usize>
    requires { start ≤ length text.now }
    ensures { IsFirst (λ k. slice_index text.now k ≡ 123) start (length text.now) result }
{
    match memchr(b'{', &text[start..]) {
        Some(step) => Some(start + step),
        None => None,
    }
}

/// Returns the first position of `{{`, `{%` or `{#`.
fn find_opener(text: &[u8]) -> Option<usize>
    ensures { IsFirst (spec.OpensAt text.now) 0 (length text.now) result }
{
    let mut at = 0;
    'braces: while let Some(place) = next_brace(text, at) {
        if is_second(text, place + 1) {
            return Some(place);
        }
        at = place + 1;
    }
    None
}

/// Splits a text before its first opener, or at its end if it has none.
pub(crate) fn split_data(text: &str) -> (&str, &str)
    ensures { IsSplit cut.opens text.now result }
{
    let end = find_opener(text.as_bytes()).unwrap_or(text.len());
    (&text[..end], &text[end..])
}

/// Returns the first position of `#}`.
fn find_end(text: &[u8]) -> Option<usize>
    ensures { FindsNeedle text.now (codes "#}") 0 result }
{
    memmem::find(text, b"#}")
}

/// Splits a text before its first `#}`, or at its end if it has none.
pub(crate) fn split_comment(text: &str) -> (&str, &str)
    ensures { IsSplit cut.ends_comment text.now result }
{
    let end = find_end(text.as_bytes()).unwrap_or(text.len());
    (&text[..end], &text[end..])
}
