//! Computes where the parts of an image begin in its bytes.
ghost use Rattle.std.specs.Prelude.{◌≡◌, ◌+◌, ◌-◌, ◌<◌, ◌≤◌, ◌^◌, ℕ, length, map, min, Some};
ghost use Rattle.std.specs.Prelude.{IsUtf8, IfOk, IfErr};
ghost use Rattle.std.specs.List.{flat_map, AllByRecursion};
ghost use Rattle.jt_image.specs.View.{names_view, constants_view, units_view, texts_view};
ghost use Rattle.jt_image.specs.IsCode.{total_len, max_count, max_instructions, max_bytes};
ghost use Rattle.jt_image.specs.Spelling.{spelling};
ghost use Rattle.jt_image.specs.Parts.{saturated_len, trailer_bytes, IsHeld, IsRefusal, HasPlaces};
ghost use Rattle.jt_image.specs.Parts.{code_seen};
ghost use Rattle.jt_image.specs.internal.Layout.{starts, unit_starts, IsLaidOut, TrailerStarts};
ghost use Rattle.jt_image.specs.internal.Layout.{IsAbove};

use crate::error::ImageError;
use crate::image::Constant;
use crate::limits::{MAX_BYTES, MAX_INSTRUCTIONS};
use crate::offsets::{LOC_BYTES, Offsets, UnitOffset};
use crate::parts::{Parts, Unit};
use crate::spelling::Spell;
use crate::trailer::Trailer;
use crate::version::Version;
use std::alloc::Global;

// The offset of the first name: the magic number, the version, the number of globals, and a count
// come before it.
const NAMES_START: usize = 10;

// The number of bytes of a count.
pub(crate) const COUNT_BYTES: usize = 2;

/// An entry of a table for which an image stores the offset of each entry.
pub(crate) trait Entry: Spell {
    /// Returns the number of bytes of the spelling, or the greatest `usize` if it is greater.
    fn len(&self) -> usize
        ensures len { result ≡ saturated_len (Self.spell (Self.view self.now)) }
        ensures held { Self.IsHeld (Self.view self.now) };
}

impl Entry for (u16, String) {
    fn len(&self) -> usize {
        self.1.as_str().len().saturating_add(4)
    }
}

impl Entry for Constant {
    fn len(&self) -> usize {
        match self {
            Constant::Undefined | Constant::None | Constant::Bool(false) | Constant::Bool(true) => {
                1
            }
            Constant::Int(number) => 1 + number.to_le_bytes().len(),
            Constant::Text(text) | Constant::Markup(text) => text.as_str().len().saturating_add(5),
        }
    }
}

impl Entry for String {
    fn len(&self) -> usize {
        self.as_str().len().saturating_add(2)
    }
}

// Returns the offset of each entry, if the first one begins at `start`, and the end of the last
// one.
fn starts<T: Entry>(
    alloc: Global,
    start: usize,
    entries: &[T],
) -> Result<(Vec<u32>, usize), ImageError>
    requires { start < 2 ^ 31 }
    ensures starts { IfOk result (λ x. x.0.items ≡ starts T.spell start (map T.view entries.now)) }
    ensures end { IfOk result
        (λ x. x.1 ≡ start + length (flat_map T.spell (map T.view entries.now))) }
    ensures within { IfOk result (λ x. x.1 ≤ start + max_bytes) }
    ensures held { IfOk result (λ _. AllByRecursion T.IsHeld (map T.view entries.now)) }
    ensures refused { IfErr result
        (λ e. IsAbove max_bytes e (start + length (flat_map T.spell (map T.view entries.now)))) }
{
    let mut offsets = Vec::with_capacity(alloc, entries.len())?;
    let mut at = start;
    'entries: for entry in entries {
        offsets.push(at as u32)?;
        at = at.saturating_add(entry.len());
        if at > MAX_BYTES {
            return Err(ImageError::LimitPassed);
        }
    }
    Ok((offsets, at))
}

// Returns the offset of each unit, if the instructions of the first one begin at `start`, and the
// number of all instructions.
fn unit_starts(
    alloc: Global,
    start: u32,
    units: &[Unit],
) -> Result<(Vec<UnitOffset>, u32), ImageError>
    requires { start < 2 ^ 31 }
    ensures starts { IfOk result (λ x. x.0.items ≡ unit_starts start 0 (units_view units.now)) }
    ensures total { IfOk result (λ x. x.1 ≡ total_len (units_view units.now)) }
    ensures within { IfOk result (λ x. x.1 ≤ max_instructions) }
    ensures refused { IfErr result
        (λ e. IsAbove max_instructions e (total_len (units_view units.now))) }
{
    let mut offsets = Vec::with_capacity(alloc, units.len())?;
    let mut first = 0;
    'units: for unit in units {
        let len = unit.code.len();
        if len > (MAX_INSTRUCTIONS - first) as usize {
            return Err(ImageError::LimitPassed);
        }
        offsets.push(UnitOffset {
            parameters: unit.parameters,
            kind: unit.kind,
            locals: unit.locals,
            len: len as u32,
            start: start + 8 * first,
            first,
        })?;
        first += len as u32;
    }
    Ok((offsets, first))
}

// Returns the offsets in the trailer, if it begins at `start`, and the end of the trailer.
fn trailer_starts(
    alloc: Global,
    start: usize,
    parts: &Parts,
) -> Result<(Trailer, usize), ImageError>
    requires { start < 2 ^ 30 }
    ensures laid { IfOk result (λ x. TrailerStarts parts.now.version start
        (texts_view parts.now.templates.items) x.0.templates.items x.0.places) }
    ensures end { IfOk result (λ x. x.1
        ≡ min (start + length (trailer_bytes (code_seen parts.now))) (2 ^ 64 - 1)) }
    ensures utf8 { IfOk result (λ _. (n : ℕ) → HasPlaces n (code_seen parts.now)
        → AllByRecursion IsUtf8 (texts_view parts.now.templates.items)) }
    ensures refused { IfErr result
        (λ e. IsAbove max_bytes e (start + length (trailer_bytes (code_seen parts.now)))) }
{
    match parts.version {
        Version::One => {
            let trailer = Trailer {
                templates: Vec::new(alloc),
                places: 0,
            };
            Ok((trailer, start))
        }
        Version::Two => {
            let (templates, at) = starts(alloc, start + COUNT_BYTES, &parts.templates)?;
            let len = parts.places.len().saturating_mul(LOC_BYTES);
            let trailer = Trailer {
                templates,
                places: at as u32,
            };
            Ok((trailer, at.saturating_add(len)))
        }
    }
}

/// Returns the offsets of the parts in their spelling, and its length.
pub(crate) fn laid_out(alloc: Global, parts: &Parts) -> Result<(Offsets, usize), ImageError>
    requires { length parts.now.units.items ≤ max_count }
    ensures laid { IfOk result (λ x. IsLaidOut (code_seen parts.now) x.0) }
    ensures len { IfOk result
        (λ x. (x.1 ≡ length (spelling (code_seen parts.now))) × (x.1 ≤ max_bytes)) }
    ensures few { IfOk result
        (λ _. total_len (units_view parts.now.units.items) ≤ max_instructions) }
    ensures utf8 { IfOk result
        (λ _. AllByRecursion (λ n. IsUtf8 n.text) (names_view parts.now.names.items)) }
    ensures held { IfOk result
        (λ _. AllByRecursion IsHeld (constants_view parts.now.constants.items)) }
    ensures templates { IfOk result (λ _. (n : ℕ) → HasPlaces n (code_seen parts.now)
        → AllByRecursion IsUtf8 (texts_view parts.now.templates.items)) }
    ensures refused { IfErr result (λ e. IsRefusal e (Some (code_seen parts.now))) }
{
    let (names, at) = starts(alloc, NAMES_START, &parts.names)?;
    let (constants, at) = starts(alloc, at + COUNT_BYTES, &parts.constants)?;
    let at = at + COUNT_BYTES + 8 * parts.units.len();
    let (units, instructions) = unit_starts(alloc, at as u32, &parts.units)?;
    let at = at + 8 * instructions as usize;
    let (trailer, len) = trailer_starts(alloc, at, parts)?;
    if len > MAX_BYTES {
        return Err(ImageError::LimitPassed);
    }
    let offsets = Offsets {
        version: parts.version,
        globals: parts.globals,
        names,
        constants,
        units,
        instructions,
        templates: trailer.templates,
        places: trailer.places,
    };
    Ok((offsets, len))
}
