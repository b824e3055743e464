//! Appends texts in quotation marks.
ghost use Rattle.std.specs.Prelude.{◌≡◌, ◌<◌, ◌++◌, OnOk, codes, length, string_bytes, take};
ghost use Rattle.std.specs.Fmt.{decimal};
ghost use Rattle.std.specs.Str.{IsCharBoundary};
ghost use Rattle.std.proofs.Common.{arith};
ghost use Rattle.std.proofs.lemmas.Bool.Decides.{nat_tests};
ghost use Rattle.jt_show.specs.Quoted.{boundary, escape, is_special, most_shown, quoted, shown};

use jt_escape::{Escapes, push_shown};
use std::alloc::AllocError;
use std::fmt::Write;

/// The most bytes of a text that are shown.
const MOST_SHOWN: usize = 60;

/// Appends a text in quotation marks. A long text is cut, and its length follows.
#[tactic(auto, unfolding(crate::specs::Quoted::quoted))]
pub(crate) fn put_quoted(text: &str, out: &mut String) -> Result<(), AllocError>
    ensures { OnOk result (string_bytes out.new ≡ string_bytes out.old ++ quoted text.now) }
{
    if text.len() <= MOST_SHOWN {
        return put_whole(text, out);
    }
    put_cut(text, out)
}

/// Appends a whole text in quotation marks.
fn put_whole(text: &str, out: &mut String) -> Result<(), AllocError>
    ensures { OnOk result (string_bytes out.new
        ≡ string_bytes out.old ++ (codes "\"" ++ (shown text.now ++ codes "\""))) }
{
    out.push_str("\"")?;
    push_shown::<QuotedEscapes>(text, out)?;
    out.push_str("\"")
}

/// Appends the beginning of a long text in quotation marks, and the length of the text.
fn put_cut(text: &str, out: &mut String) -> Result<(), AllocError>
    requires { most_shown < length text.now }
    ensures { OnOk result (string_bytes out.new
        ≡ string_bytes out.old ++ (codes "\""
        ++ (shown (take (boundary text.now most_shown) text.now)
        ++ (codes "\"... of " ++ (decimal (length text.now) ++ codes " bytes"))))) }
{
    out.push_str("\"")?;
    push_shown::<QuotedEscapes>(front(text), out)?;
    let len = text.len();
    write!(out, "\"... of {len} bytes")
}

/// Returns the beginning of a long text that is shown.
fn front(text: &str) -> &str
    requires { most_shown < length text.now }
    ensures { result.now ≡ take (boundary text.now most_shown) text.now }
{
    &text[..boundary(text, MOST_SHOWN)]
}

/// Returns the greatest index up to `most` at which a character of a text begins.
fn boundary(text: &str, most: usize) -> usize
    requires { most < length text.now }
    ensures value { result ≡ boundary text.now most }
    ensures boundary { IsCharBoundary text.now result }
{
    text.floor_char_boundary(most)
}

/// The escapes of a text in quotation marks.
struct QuotedEscapes;

impl Escapes for QuotedEscapes {
    ghost is_special = { is_special };

    ghost escape = { escape };

    fn is_special(byte: u8) -> bool {
        byte == b'"' || byte == b'\\' || byte.is_ascii_control()
    }

    fn push_escape(byte: u8, into: &mut String) -> Result<(), AllocError> {
        match byte {
            b'"' => into.push_str("\\\""),
            b'\\' => into.push_str("\\\\"),
            b'\n' => into.push_str("\\n"),
            _ => write!(into, "\\u{{{byte:x}}}"),
        }
    }

    ghost special_are_ascii = { Prim.grind (arith, nat_tests) };
}
