//! Changes bytes as strangers may: each beginning and each change of one byte has a letter.

use crate::positions::Positions;
use crate::stop::Stop;
use std::alloc::Global;

/// An assignment of letters to bytes.
pub(crate) trait Lettered {
    fn letter(&self, alloc: Global, bytes: &[u8]) -> Result<char, Stop>;
}

/// Prints the letters of bytes at some positions, each after a label. The letter of the beginning
/// before the position comes first, then the letters of the byte's other values in ascending order.
pub(crate) fn print_letters<L: Lettered>(
    rt: &HostRuntime,
    label: &str,
    lettered: &L,
    places: Positions,
    bytes: &[u8],
) -> Result<(), Stop> {
    for (place, byte) in bytes.iter().enumerate() {
        if places.has(place) {
            let begun = lettered.letter(rt.alloc(), &bytes[..place])?;
            let changed = changes(rt.alloc(), lettered, bytes, place)?;
            println!(rt; "{label}{place} {byte} {begun} {changed}")?;
        }
    }
    Ok(())
}

/// Returns the letters of the bytes with each other value at a position.
fn changes<L: Lettered>(
    alloc: Global,
    lettered: &L,
    bytes: &[u8],
    place: usize,
) -> Result<String, Stop> {
    let mut changed = Vec::new(alloc);
    changed.extend_from_slice(bytes)?;
    let mut letters = String::new(alloc);
    for value in 0..=u8::MAX {
        if bytes.get(place) != Some(&value) {
            if let Some(byte) = changed.get_mut(place) {
                *byte = value;
            }
            letters.push(lettered.letter(alloc, &changed)?)?;
        }
    }
    Ok(letters)
}
