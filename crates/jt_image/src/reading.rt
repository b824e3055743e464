//! Reads an image's bytes in one pass from left to right.
ghost use Rattle.std.specs.Prelude.{◌≡◌, ◌==◌, nat_le, List, length, IfOk, Ok, Err, true};
ghost use Rattle.std.specs.Int.{w16};
ghost use Rattle.jt_image.specs.InPlace.{code_in, Spells};
ghost use Rattle.jt_image.specs.Reading.{Gives, ReadsSpelling, code_of};

use crate::error::ImageError;
use crate::fields::{start_at, u16_at};
use crate::limits::MAX_BYTES;
use crate::offsets::Offsets;
use crate::sections::units_at;
use crate::tables::{all_constants_at, all_names_at};
use crate::trailer::trailer_at;
use std::alloc::Global;

#[tactic(auto, unfolding(crate::specs::Reading::code_of))]
fn read_through(alloc: Global, bytes: &[u8]) -> Result<Offsets, ImageError>
    ensures gives { Gives (code_in bytes.now) result (code_of bytes.now) }
    ensures spells { IfOk result (Spells bytes.now) }
{
    if bytes.len() > MAX_BYTES {
        return Err(ImageError::LimitPassed);
    }
    let (version, rest) = start_at(bytes)?;
    let (globals, rest) = u16_at(rest)?;
    let (names, rest) = all_names_at(alloc, globals, bytes, rest)?;
    let (constants, rest) = all_constants_at(alloc, bytes, rest)?;
    let (units, rest) = units_at(alloc, bytes, rest)?;
    let (back, rest) = trailer_at(alloc, version, units.instructions, bytes, rest)?;
    if !rest.is_empty() {
        return Err(ImageError::Trailing);
    }
    Ok(Offsets {
        version,
        globals,
        names,
        constants,
        units: units.items,
        instructions: units.instructions,
        templates: back.templates,
        places: back.places,
    })
}

/// Returns the offsets of the parts of the code that the bytes spell, or the first fault in the
/// bytes.
pub(crate) fn read(alloc: Global, bytes: &[u8]) -> Result<Offsets, ImageError>
    ensures gives { Gives (code_in bytes.now) result (code_of bytes.now) }
    ensures spells { IfOk result (Spells bytes.now) }
    // The spelling of a code is read as that code, unless memory runs out.
    ensures only { ReadsSpelling (code_in bytes.now) bytes.now result }
{
    read_through(alloc, bytes)
}
