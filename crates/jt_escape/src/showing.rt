//! Shows texts with escapes for the characters that a reader would not see as they are.
ghost use Rattle.std.specs.Prelude.{◌≡◌, ◌<◌, ◌++◌, ℕ, Bool, true, List, OnOk, string_bytes};
ghost use Rattle.jt_escape.specs.Shown.{shown};

use std::alloc::AllocError;

/// A choice of ASCII characters that need escapes, and their escapes.
pub trait Escapes {
    /// Returns whether a byte needs an escape.
    ghost is_special: { ℕ → Bool };

    /// Returns the escape of a byte.
    ghost escape: { ℕ → List ℕ };

    /// Returns whether a byte needs an escape.
    fn is_special(byte: u8) -> bool
        ensures { result ≡ is_special byte };

    /// Appends the escape of a byte.
    fn push_escape(byte: u8, into: &mut String) -> Result<(), AllocError>
        ensures { OnOk result (string_bytes into.new ≡ string_bytes into.old ++ escape byte) };

    /// Only ASCII characters need escapes.
    ghost special_are_ascii: { (byte : ℕ) → is_special byte ≡ true → byte < 128 };
}

/// Appends a text with its escapes.
pub fn push_shown<E: Escapes>(text: &str, into: &mut String) -> Result<(), AllocError>
    ensures { OnOk result (string_bytes into.new
        ≡ string_bytes into.old ++ shown E.is_special E.escape text.now) }
{
    // All bytes before `plain` are appended. The bytes from `plain` to `at` are shown unchanged.
    let mut plain = 0;
    for (at, byte) in text.as_bytes().iter().enumerate() {
        if E::is_special(*byte) {
            into.push_str(&text[plain..at])?;
            E::push_escape(*byte, into)?;
            plain = at + 1;
        }
    }
    into.push_str(&text[plain..])
}
