//! Shows names and paths that others chose.
ghost use Rattle.std.specs.Prelude.{◌≡◌, ◌<◌, ◌/◌, ◌%◌, ◌++◌, IfOk, string_bytes};
ghost use Rattle.std.proofs.Common.{arith};
ghost use Rattle.std.proofs.lemmas.Bool.Decides.{nat_tests};
ghost use Rattle.std.specs.Char.{is_ascii_control};
ghost use Rattle.jt_turns.specs.Shown.{escape, hex_digit, one_line, shown};

use jt_escape::{Escapes, push_shown};
use std::alloc::{AllocError, Global};

/// Returns the line of a text. Each control character in it is shown as `\x` and two hexadecimal
/// digits, and the line has no other line end.
pub(crate) fn line_of(alloc: Global, text: &str) -> Result<String, AllocError>
    ensures { IfOk result (λ line. string_bytes line ≡ one_line text.now) }
{
    let mut line = shown_text(alloc, text)?;
    line.push_str("\n")?;
    Ok(line)
}

/// Returns a text with each control character shown as `\x` and two hexadecimal digits.
pub fn shown_text(alloc: Global, text: &str) -> Result<String, AllocError>
    ensures { IfOk result (λ made. string_bytes made ≡ shown text.now) }
{
    let mut made = String::new(alloc);
    push_shown::<ControlEscapes>(text, &mut made)?;
    Ok(made)
}

/// The escapes of control characters.
struct ControlEscapes;

impl Escapes for ControlEscapes {
    ghost is_special = { is_ascii_control };

    ghost escape = { escape };

    fn is_special(byte: u8) -> bool {
        byte.is_ascii_control()
    }

    fn push_escape(byte: u8, into: &mut String) -> Result<(), AllocError> {
        let (high, low) = hex_digits(byte);
        into.push_str("\\x")?;
        into.push_str(high)?;
        into.push_str(low)
    }

    ghost special_are_ascii = { Prim.grind (arith, nat_tests) };
}

/// Returns the two hexadecimal digits of a byte.
pub fn hex_digits(byte: u8) -> (&'static str, &'static str)
    ensures high { result.0.now ≡ hex_digit (byte / 16) }
    ensures low { result.1.now ≡ hex_digit (byte % 16) }
{
    (hex_digit_text(byte / 16), hex_digit_text(byte % 16))
}

/// Returns the hexadecimal digit of `number`.
fn hex_digit_text(number: u8) -> &'static str
    requires { number < 16 }
    ensures { result.now ≡ hex_digit number }
{
    match number {
        0 => "0",
        1 => "1",
        2 => "2",
        3 => "3",
        4 => "4",
        5 => "5",
        6 => "6",
        7 => "7",
        8 => "8",
        9 => "9",
        10 => "a",
        11 => "b",
        12 => "c",
        13 => "d",
        14 => "e",
        _ => "f",
    }
}
