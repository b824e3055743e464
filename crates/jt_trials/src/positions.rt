//! Parses the subject of a trial of changes: positions in bytes, and the bytes.

use crate::stop::Stop;
use std::alloc::Global;

/// The positions AT, AT + STEP and so on.
#[derive(Clone, Copy)]
pub(crate) struct Positions {
    at: usize,
    step: usize,
}

impl Positions {
    /// Parses the positions from two numbers at the start of a text, and returns them with the
    /// rest.
    pub(crate) fn read(of: &str) -> Result<(Positions, &str), Stop> {
        let (at, of) = of.split_once(' ').ok_or(Stop::Other)?;
        let (step, of) = of.split_once(' ').ok_or(Stop::Other)?;
        let places = Positions {
            at: at.parse::<usize>()?,
            step: step.parse::<usize>()?,
        };
        Ok((places, of))
    }

    /// Returns whether a position is one of these.
    pub(crate) fn has(self, place: usize) -> bool {
        place.checked_rem(self.step) == Some(self.at)
    }
}

/// Parses bytes that are written with two hexadecimal digits each.
pub(crate) fn bytes_of(alloc: Global, digits: &str) -> Result<Vec<u8>, Stop> {
    let mut bytes = Vec::new(alloc);
    let mut before: Option<u32> = None;
    for c in digits.chars() {
        let digit = c.to_digit(16).ok_or(Stop::Other)?;
        before = match before {
            None => Some(digit),
            Some(first) => {
                let byte = first.saturating_mul(16).saturating_add(digit);
                bytes.push(u8::try_from(byte).unwrap_or(0))?;
                None
            }
        };
    }
    Ok(bytes)
}
