//! Checks whether texts need escaping, and charges the output of escaped texts.
ghost use Rattle.std.specs.Prelude.{◌≡◌, ◌-◌, ◌<◌, ◌≤◌, ◌∷◌, [], true, IfErr, OnOk, length};
ghost use Rattle.jt_escape.specs.Escaping.{escaped, escaped_byte};

use jt_budget::{Budget, Spent};

// Returns whether a byte is written as it is. One comparison decides for bytes above `>`, such as
// letters.
#[tactic(auto, using(crate::proofs::NumberOperators::kept_above))]
fn is_kept(byte: u8) -> bool
    ensures { result ≡ true → escaped_byte byte ≡ byte ∷ [] }
{
    if byte > b'>' {
        return true;
    }
    !matches!(byte, b'&' | b'<' | b'>' | b'\'' | b'"')
}

/// Returns whether a text is written as it is. It reads the whole text, which costs less per byte
/// than checking whether to stop.
pub(crate) fn is_plain(text: &str) -> bool
    ensures { result ≡ true → escaped text.now ≡ text.now }
{
    let mut plain = true;
    'bytes: for byte in text.as_bytes() {
        plain = stays_plain(plain, *byte);
    }
    plain
}

// Returns whether a text that is `plain` so far stays so with one more byte.
fn stays_plain(plain: bool, byte: u8) -> bool
    ensures { result ≡ true → (plain ≡ true) × (escaped_byte byte ≡ byte ∷ []) }
{
    is_kept(byte) && plain
}

// Returns the number of bytes that are written for one byte.
#[tactic(auto, using(crate::proofs::NumberOperators::kept_above))]
fn escaped_len(byte: u8) -> u64
    ensures len { result ≡ length (escaped_byte byte) }
    ensures few { result ≤ 5 }
{
    if byte > b'>' {
        return 1;
    }
    match byte {
        b'&' | b'\'' | b'"' => 5,
        b'<' | b'>' => 4,
        _ => 1,
    }
}

/// Returns the number of bytes that are written for a short text.
pub(crate) fn escaped_size(text: &str) -> usize
    requires { length text.now < 63 }
    ensures { result ≡ length (escaped text.now) }
{
    let mut size = 0usize;
    'bytes: for byte in text.as_bytes() {
        size += escaped_len(*byte) as usize;
    }
    size
}

/// Takes the length of the escaped text from the output budget. Refuses if fewer bytes are left.
pub(crate) fn emit_escaped(left: &mut Budget, text: &str) -> Result<(), Spent>
    ensures ok { OnOk result ((length (escaped text.now) ≤ left.old.output)
        × (left.new ≡ record left.old { output = left.old.output - length (escaped text.now) })) }
    ensures err { IfErr result (λ e. (e ≡ Spent.Output)
        × (left.old.output < length (escaped text.now)) × (left.new ≡ left.old)) }
{
    let mut rest = *left;
    'bytes: for byte in text.as_bytes() {
        rest.emit(escaped_len(*byte))?;
    }
    *left = rest;
    Ok(())
}
