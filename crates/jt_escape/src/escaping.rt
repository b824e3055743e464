//! Escapes the five characters that have a meaning in HTML.
ghost use Rattle.std.specs.Prelude.{◌≡◌, ◌+◌, ◌<◌, ◌++◌, length, option_map, OnOk, OnErr};
ghost use Rattle.std.specs.Prelude.{string_bytes, string_len, string_capacity};
ghost use Rattle.jt_escape.specs.Escaping.{escaped, entity};
ghost use Rattle.jt_escape.specs.internal.Appending.{Extends};

use jt_value::NoMemory;
use std::alloc::AllocError;

/// Appends `text` to `into`, with `&`, `<`, `>`, `'` and `"` written as `&amp;`, `&lt;`, `&gt;`,
/// `&#39;` and `&#34;`.
///
/// # Errors
///
/// `NoMemory` if a growth is refused. The string then keeps the bytes that it had.
pub fn escape_into(text: &str, into: &mut String) -> Result<(), NoMemory>
    ensures ok { OnOk result (string_bytes into.new ≡ string_bytes into.old ++ escaped text.now) }
    ensures unchanged { OnErr result (string_bytes into.new ≡ string_bytes into.old) }

    // The call fails only if the string has to grow.
    ensures full { OnErr result
        (string_capacity into.old < string_len into.old + length (escaped text.now)) }
{
    let start = into.len();
    if append_escaped(text, into).is_err() {
        into.truncate(start);
        return Err(NoMemory);
    }
    Ok(())
}

/// Appends the escaped text. If a growth is refused, the bytes that were already appended stay.
pub(crate) fn append_escaped(text: &str, into: &mut String) -> Result<(), AllocError>
    ensures ok { OnOk result (string_bytes into.new ≡ string_bytes into.old ++ escaped text.now) }
    ensures full { OnErr result
        (string_capacity into.old < string_len into.old + length (escaped text.now)) }
    ensures grown { Extends (string_bytes into.old) (string_bytes into.new) }
{
    // All bytes before `written` are appended. The bytes from `written` to `at` need no entity.
    let mut written = 0;
    for (at, byte) in text.as_bytes().iter().enumerate() {
        if let Some(entity) = entity_of(*byte) {
            into.push_str(&text[written..at])?;
            into.push_str(entity)?;
            written = at + 1;
        }
    }
    into.push_str(&text[written..])?;
    Ok(())
}

/// Returns the entity that replaces a byte, or `None` if the byte is printed as it is.
fn entity_of(byte: u8) -> Option<&'static str>
    ensures { option_map (λ text. text.now) result ≡ entity byte }
{
    match byte {
        b'&' => Some("&amp;"),
        b'<' => Some("&lt;"),
        b'>' => Some("&gt;"),
        b'\'' => Some("&#39;"),
        b'"' => Some("&#34;"),
        _ => None,
    }
}
