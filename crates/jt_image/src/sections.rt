//! Reads the instructions of units, and stores the offset at which the instructions of each unit
//! begin.
ghost use Rattle.std.specs.Prelude.{◌≡◌, ◌≤◌, length, IfOk};
ghost use Rattle.jt_image.specs.internal.HeaderView.{header_view, headers_view};
ghost use Rattle.jt_image.specs.InPlace.{instructions_in, section_in, sections_in, HasUnit};
ghost use Rattle.jt_image.specs.InPlace.{AreCounted, AreLast, AreRead};
ghost use Rattle.jt_image.specs.IsCode.{total_len, max_instructions};
ghost use Rattle.jt_image.specs.Reading.{Gives, header_total, instructions_at, section_at};
ghost use Rattle.jt_image.specs.Reading.{sections_at, units_at};

use crate::error::ImageError;
use crate::fields::u16_at;
use crate::offsets::UnitOffset;
use crate::units::{Header, headers_at, instruction_at};
use std::alloc::Global;

/// The units, and the number of instructions that they have together.
#[derive(Drop)]
pub(crate) struct Units {
    pub(crate) items: Vec<UnitOffset>,
    pub(crate) instructions: u32,
}

// Returns the bytes after the first `count` instructions.
fn after_instructions(count: u32, bytes: &[u8]) -> Result<&[u8], ImageError>
    ensures { Gives (λ rest. (instructions_in count bytes.now, rest.now)) result
        (instructions_at count bytes.now) }
{
    let mut rest = bytes;
    'code: for _ in 0..count {
        let (_, after) = instruction_at(rest)?;
        rest = after;
    }
    Ok(rest)
}

#[tactic(auto, unfolding(crate::specs::Reading::section_at))]
fn offset_at<'a>(
    header: &Header,
    first: u32,
    bytes: &[u8],
    front: &'a [u8],
) -> Result<(UnitOffset, &'a [u8]), ImageError>
    requires { AreLast bytes.now front.now }
    ensures gives { Gives (λ x. (section_in bytes.now x.0, x.1.now)) result
        (section_at (header_view header.now) front.now) }
    ensures there { IfOk result (λ x. HasUnit bytes.now x.0) }
    ensures counted { IfOk result (λ x. (x.0.first ≡ first) × (x.0.len ≡ header.now.len)) }
    ensures last { IfOk result (λ x. AreLast bytes.now x.1.now) }
{
    let rest = after_instructions(header.len, front)?;
    let place = UnitOffset {
        parameters: header.parameters,
        kind: header.kind,
        locals: header.locals,
        len: header.len,
        start: (bytes.len() - front.len()) as u32,
        first,
    };
    Ok((place, rest))
}

fn offsets_at<'a>(
    alloc: Global,
    headers: &[Header],
    bytes: &[u8],
    front: &'a [u8],
) -> Result<(Vec<UnitOffset>, &'a [u8]), ImageError>
    requires last { AreLast bytes.now front.now }
    requires within { header_total (headers_view headers.now) ≤ max_instructions }
    ensures gives { Gives (λ x. (sections_in bytes.now x.0.items, x.1.now)) result
        (sections_at (headers_view headers.now) front.now) }
    ensures read { IfOk result (λ x. AreRead (HasUnit bytes.now) bytes.now x.0.items x.1.now) }
    ensures counted { IfOk result (λ x. AreCounted 0 x.0.items) }
{
    let mut offsets: Vec<UnitOffset> = Vec::new(alloc);
    let mut rest = front;
    let mut first = 0;
    'offsets: for header in headers {
        let (place, after) = offset_at(header, first, bytes, rest)?;
        offsets.push(place)?;
        first += header.len;
        rest = after;
    }
    Ok((offsets, rest))
}

/// Reads the units and counts their instructions.
#[tactic(auto, unfolding(crate::specs::Reading::units_at))]
pub(crate) fn units_at<'a>(
    alloc: Global,
    bytes: &[u8],
    front: &'a [u8],
) -> Result<(Units, &'a [u8]), ImageError>
    requires { AreLast bytes.now front.now }
    ensures gives { Gives (λ x. (sections_in bytes.now x.0.items.items, x.1.now)) result
        (units_at front.now) }
    ensures total { IfOk result
        (λ x. x.0.instructions ≡ total_len (sections_in bytes.now x.0.items.items)) }
    ensures read { IfOk result
        (λ x. AreRead (HasUnit bytes.now) bytes.now x.0.items.items x.1.now) }
    ensures counted { IfOk result (λ x. AreCounted 0 x.0.items.items) }
{
    let (count, rest) = u16_at(front)?;
    if count == 0 {
        return Err(ImageError::BadTable);
    }
    let (headers, rest) = headers_at(alloc, count, rest)?;
    let (items, rest) = offsets_at(alloc, &headers.items, bytes, rest)?;
    let units = Units {
        items,
        instructions: headers.total,
    };
    Ok((units, rest))
}
