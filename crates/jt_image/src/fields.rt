//! Reads the fields of an image. Each reader returns a value and the bytes after it.
ghost use Rattle.std.specs.Prelude.{◌≡◌, ◌≤◌, List, length, take, drop, option_map, Ok, Err};
ghost use Rattle.std.specs.Int.{w16, w32, w64, from_le_bytes};
ghost use Rattle.jt_image.specs.Reading.{Gives, number_at, byte_at, text_at, follows, text_after};
ghost use Rattle.jt_image.specs.Reading.{long_text_at, magic_at, version_at, start_at};

use crate::error::ImageError;
use crate::version::Version;

pub(crate) fn u8_at(bytes: &[u8]) -> Result<(u8, &[u8]), ImageError>
    ensures { Gives (λ x. (x.0, x.1.now)) result (byte_at bytes.now) }
{
    match bytes {
        [] => Err(ImageError::Truncated),
        [b, rest @ ..] => Ok((*b, rest)),
    }
}

/// Returns the number in the first two bytes.
pub(crate) fn u16_in(bytes: &[u8]) -> u16
    requires { 2 ≤ length bytes.now }
    ensures { result ≡ from_le_bytes w16 (take 2 bytes.now) }
{
    let (front, _) = bytes.split_at(2);
    u16::from_le_bytes([front[0], front[1]])
}

pub(crate) fn u16_at(bytes: &[u8]) -> Result<(u16, &[u8]), ImageError>
    ensures { Gives (λ x. (x.0, x.1.now)) result (number_at w16 bytes.now) }
{
    if bytes.len() < 2 {
        return Err(ImageError::Truncated);
    }
    let (_, rest) = bytes.split_at(2);
    Ok((u16_in(bytes), rest))
}

/// Returns the number in the first four bytes.
pub(crate) fn u32_in(bytes: &[u8]) -> u32
    requires { 4 ≤ length bytes.now }
    ensures { result ≡ from_le_bytes w32 (take 4 bytes.now) }
{
    let (front, _) = bytes.split_at(4);
    u32::from_le_bytes([front[0], front[1], front[2], front[3]])
}

pub(crate) fn u32_at(bytes: &[u8]) -> Result<(u32, &[u8]), ImageError>
    ensures { Gives (λ x. (x.0, x.1.now)) result (number_at w32 bytes.now) }
{
    if bytes.len() < 4 {
        return Err(ImageError::Truncated);
    }
    let (_, rest) = bytes.split_at(4);
    Ok((u32_in(bytes), rest))
}

/// Returns the number in the first eight bytes.
pub(crate) fn u64_in(bytes: &[u8]) -> u64
    requires { 8 ≤ length bytes.now }
    ensures { result ≡ from_le_bytes w64 (take 8 bytes.now) }
{
    let (front, _) = bytes.split_at(8);
    u64::from_le_bytes([
        front[0], front[1], front[2], front[3], front[4], front[5], front[6], front[7],
    ])
}

pub(crate) fn u64_at(bytes: &[u8]) -> Result<(u64, &[u8]), ImageError>
    ensures { Gives (λ x. (x.0, x.1.now)) result (number_at w64 bytes.now) }
{
    if bytes.len() < 8 {
        return Err(ImageError::Truncated);
    }
    let (_, rest) = bytes.split_at(8);
    Ok((u64_in(bytes), rest))
}

/// Reads the first `len` bytes as a text, which must be UTF-8.
#[tactic(auto, unfolding(crate::specs::Reading::text_at))]
pub(crate) fn text_at(len: usize, bytes: &[u8]) -> Result<(&str, &[u8]), ImageError>
    ensures { Gives (λ x. (x.0.now, x.1.now)) result (text_at len bytes.now) }
{
    if bytes.len() < len {
        return Err(ImageError::Truncated);
    }
    let (front, rest) = bytes.split_at(len);
    match str::from_utf8(front) {
        Ok(text) => Ok((text, rest)),
        Err(_) => Err(ImageError::BadText),
    }
}

/// Returns whether `text` may follow `last`, the last text of its table: it is greater, or it is
/// the first text and not empty.
pub(crate) fn follows(last: Option<&str>, text: &str) -> bool
    ensures { result ≡ follows (option_map (λ t. t.now) last.entry) text.now }
{
    match last {
        None => !text.is_empty(),
        Some(last) => last < text,
    }
}

/// Reads a text after its length; the text must be allowed to follow `last` in its table.
#[tactic(auto, unfolding(crate::specs::Reading::text_after))]
pub(crate) fn text_after<'a>(
    last: Option<&str>,
    bytes: &'a [u8],
) -> Result<(&'a str, &'a [u8]), ImageError>
    ensures { Gives (λ x. (x.0.now, x.1.now)) result
        (text_after (option_map (λ t. t.now) last.entry) bytes.now) }
{
    let (len, rest) = u16_at(bytes)?;
    let (text, rest) = text_at(len as usize, rest)?;
    if !follows(last, text) {
        return Err(ImageError::BadTable);
    }
    Ok((text, rest))
}

/// Reads a text after its length of four bytes.
#[tactic(auto, unfolding(crate::specs::Reading::long_text_at))]
pub(crate) fn long_text_at(bytes: &[u8]) -> Result<(&str, &[u8]), ImageError>
    ensures { Gives (λ x. (x.0.now, x.1.now)) result (long_text_at bytes.now) }
{
    let (len, rest) = u32_at(bytes)?;
    text_at(len as usize, rest)
}

#[tactic(auto, unfolding(crate::specs::Reading::magic_at))]
fn magic_at(bytes: &[u8]) -> Result<&[u8], ImageError>
    ensures { Gives (λ x. x.now) result (magic_at bytes.now) }
{
    if bytes.len() < 4 {
        return Err(ImageError::Truncated);
    }
    let (front, rest) = bytes.split_at(4);
    if front != b"JTBC".as_slice() {
        return Err(ImageError::BadMagic);
    }
    Ok(rest)
}

#[tactic(auto, unfolding(crate::specs::Reading::version_at))]
fn version_at(bytes: &[u8]) -> Result<(Version, &[u8]), ImageError>
    ensures { Gives (λ x. (x.0, x.1.now)) result (version_at bytes.now) }
{
    let (version, rest) = u16_at(bytes)?;
    match version {
        1 => Ok((Version::One, rest)),
        2 => Ok((Version::Two, rest)),
        _ => Err(ImageError::BadVersion),
    }
}

/// Reads the magic number and the version.
#[tactic(auto, unfolding(crate::specs::Reading::start_at))]
pub(crate) fn start_at(bytes: &[u8]) -> Result<(Version, &[u8]), ImageError>
    ensures { Gives (λ x. (x.0, x.1.now)) result (start_at bytes.now) }
{
    let rest = magic_at(bytes)?;
    version_at(rest)
}
