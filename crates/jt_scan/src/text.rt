//! Reads a text character by character.

ghost use Rattle.std.specs.Prelude.{◌≡◌, ◌++◌, ◌∷◌, [], false, MatchOption, bytes_eq};
ghost use Rattle.std.specs.Str.{chars};
ghost use Rattle.jt_scan.specs.Cut as cut;
ghost use Rattle.jt_scan.specs.internal.Scanning as spec;
ghost use Rattle.jt_scan.specs.Words.{letters_of};

use unicode_ident::{is_xid_continue, is_xid_start};

/// Returns the first character and the rest of the text.
pub fn first(text: &str) -> Option<(char, &str)>
    ensures { MatchOption result (chars text.now ≡ []) (λ p. chars text.now ≡ p.0 ∷ chars p.1.now) }
{
    let mut rest = text.chars();
    let c = rest.next()?;
    Some((c, rest.as_str()))
}

/// Returns the rest of a text after the characters `one` and `two`, if the text begins with them.
pub(crate) fn behind_pair(text: &str, one: char, two: char) -> Option<&str>
    ensures { MatchOption result (cut.begins one two (chars text.now) ≡ false)
        (λ rest. chars text.now ≡ one ∷ two ∷ chars rest.now) }
{
    let (c, more) = first(text)?;
    let (d, rest) = first(more)?;
    if c == one && d == two {
        Some(rest)
    } else {
        None
    }
}

/// Returns whether a character is a space, a tab, LF, VT, FF or CR.
fn is_space(c: char) -> bool
    ensures { result ≡ cut.is_space c }
{
    c == ' ' || c == '\t' || c == '\n' || c == '\u{b}' || c == '\u{c}' || c == '\r'
}

/// Returns whether a name may begin with a character.
pub(crate) fn starts_name(c: char) -> bool
    ensures { result ≡ cut.starts_name c }
{
    is_xid_start(c) || c == '_'
}

#[tactic(auto, unfolding(crate::specs::Cut::after_space))]
/// Returns the rest of a text after its leading whitespace.
pub fn behind_space(text: &str) -> &str
    ensures { chars result.now ≡ cut.after_space (chars text.now) }
{
    let mut rest = text;
    'space: while let Some((c, more)) = first(rest) {
        if !is_space(c) {
            return rest;
        }
        rest = more;
    }
    rest
}

#[tactic(auto, unfolding(crate::specs::internal::Scanning::run))]
/// Returns the rest of a text after its leading characters that may continue a name.
pub(crate) fn behind_name(text: &str) -> &str
    ensures { chars result.now ≡ (spec.run (chars text.now)).1 }
{
    let mut rest = text;
    'name: while let Some((c, more)) = first(rest) {
        if !is_xid_continue(c) {
            return rest;
        }
        rest = more;
    }
    rest
}

/// Returns a text without the suffix `end`.
pub(crate) fn before<'a>(text: &'a str, end: &str) -> &'a str
    requires { cut.EndsWith (chars text.now) (chars end.now) }
    ensures { chars text.now ≡ chars result.now ++ chars end.now }
{
    &text[..text.len() - end.len()]
}

/// Returns the number of line ends.
pub(crate) fn lines(text: &str) -> usize
    ensures { result ≡ cut.lines (chars text.now) }
{
    let mut count = 0;
    for b in text.as_bytes() {
        if *b == b'\n' {
            count += 1;
        }
    }
    count
}

/// Returns whether a word equals a known one.
pub fn is_word(word: &str, known: &str) -> bool
    ensures { result ≡ bytes_eq (chars word.now) (letters_of known.now) }
{
    // The lengths differ most often, and are compared without a call.
    word.len() == known.len() && word == known
}
