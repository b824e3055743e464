//! Reads the tables of names and constants, and stores the offsets of their entries.
ghost use Rattle.std.specs.Prelude.{◌≡◌, ◌<◌, ◌≤◌, ◌==◌, ◌&&◌, not, nat_lt, List, length};
ghost use Rattle.std.specs.Prelude.{option_map, IfOk, Ok, Some, None, [], true, Err};
ghost use Rattle.std.specs.Int.{w16, w64, cast_signed};
ghost use Rattle.std.specs.List.{AllByRecursion};
ghost use Rattle.jt_image.specs.InPlace.{names_in, HasName, constants_in, HasConstant, AreLast};
ghost use Rattle.jt_image.specs.InPlace.{AreRead};
ghost use Rattle.jt_image.specs.Readers.{constant_ref_view, name_ref_view};
ghost use Rattle.jt_image.specs.Reading.{Gives, IsTable, is_used, last_name, slot_at, name_at};
ghost use Rattle.jt_image.specs.Reading.{all_names_at, constant_of, constant_at, all_constants_at};

use crate::code::ConstantRef;
use crate::error::ImageError;
use crate::fields::{long_text_at, text_after, u8_at, u16_at, u64_at};
use crate::offsets::name_in;
use std::alloc::Global;

/// Reads a slot, which must be below `globals` and have no name yet.
#[tactic(auto, unfolding(crate::specs::Reading::slot_at))]
fn slot_at<'a>(
    globals: u16,
    used: &[bool],
    bytes: &[u8],
    before: &[u32],
    rest: &'a [u8],
) -> Result<(u16, &'a [u8]), ImageError>
    requires { IsTable used.now globals (names_in bytes.now before.now) }
    ensures gives { Gives (λ x. (x.0, x.1.now)) result
        (slot_at globals (names_in bytes.now before.now) rest.now) }
    ensures below { IfOk result (λ x. x.0 < globals) }
{
    let (slot, rest) = u16_at(rest)?;
    if slot >= globals {
        return Err(ImageError::BadTable);
    }
    if used[usize::from(slot)] {
        return Err(ImageError::BadTable);
    }
    Ok((slot, rest))
}

fn last_name<'a>(bytes: &'a [u8], names: &[u32]) -> Option<&'a str>
    requires { AllByRecursion (HasName bytes.now) names.now }
    ensures { option_map (λ t. t.now) result ≡ last_name (names_in bytes.now names.now) }
{
    match names {
        [] => None,
        [.., last] => Some(name_in(bytes, *last).1),
    }
}

#[tactic(auto, unfolding(crate::specs::Reading::name_at))]
fn name_at<'a>(
    globals: u16,
    used: &[bool],
    bytes: &[u8],
    before: &[u32],
    rest: &'a [u8],
) -> Result<((u16, &'a str), &'a [u8]), ImageError>
    requires table { IsTable used.now globals (names_in bytes.now before.now) }
    requires there { AllByRecursion (HasName bytes.now) before.now }
    ensures gives { Gives (λ x. (name_ref_view x.0, x.1.now)) result
        (name_at globals (names_in bytes.now before.now) rest.now) }
    ensures below { IfOk result (λ x. x.0.0 < globals) }
{
    let (slot, rest) = slot_at(globals, used, bytes, before, rest)?;
    let (text, rest) = text_after(last_name(bytes, before), rest)?;
    Ok(((slot, text), rest))
}

/// Reads the names of globals and returns their offsets.
#[tactic(auto, unfolding(crate::specs::Reading::all_names_at))]
pub(crate) fn all_names_at<'a>(
    alloc: Global,
    globals: u16,
    bytes: &[u8],
    front: &'a [u8],
) -> Result<(Vec<u32>, &'a [u8]), ImageError>
    requires { AreLast bytes.now front.now }
    ensures gives { Gives (λ x. (names_in bytes.now x.0.items, x.1.now)) result
        (all_names_at globals front.now) }
    ensures read { IfOk result (λ x. AreRead (HasName bytes.now) bytes.now x.0.items x.1.now) }
{
    let (count, start) = u16_at(front)?;
    let mut names: Vec<u32> = Vec::new(alloc);
    let mut used = vec![in alloc; false; usize::from(globals)]?;
    let mut rest = start;
    'names: for _ in 0..count {
        let (name, after) = name_at(globals, &used, bytes, &names, rest)?;
        used[usize::from(name.0)] = true;
        names.push((bytes.len() - rest.len()) as u32)?;
        rest = after;
    }
    Ok((names, rest))
}

#[tactic(auto, unfolding(crate::specs::Reading::constant_of))]
fn constant_of(tag: u8, bytes: &[u8]) -> Result<(ConstantRef<'_>, &[u8]), ImageError>
    ensures { Gives (λ x. (constant_ref_view x.0, x.1.now)) result (constant_of tag bytes.now) }
{
    match tag {
        0 => Ok((ConstantRef::Undefined, bytes)),
        1 => Ok((ConstantRef::None, bytes)),
        2 => Ok((ConstantRef::Bool(false), bytes)),
        3 => Ok((ConstantRef::Bool(true), bytes)),
        4 => {
            let (number, rest) = u64_at(bytes)?;
            Ok((ConstantRef::Int(number.cast_signed()), rest))
        }
        5 => {
            let (text, rest) = long_text_at(bytes)?;
            Ok((ConstantRef::Text(text), rest))
        }
        6 => {
            let (text, rest) = long_text_at(bytes)?;
            Ok((ConstantRef::Markup(text), rest))
        }
        _ => Err(ImageError::BadTable),
    }
}

#[tactic(auto, unfolding(crate::specs::Reading::constant_at))]
fn constant_at(bytes: &[u8]) -> Result<(ConstantRef<'_>, &[u8]), ImageError>
    ensures { Gives (λ x. (constant_ref_view x.0, x.1.now)) result (constant_at bytes.now) }
{
    let (tag, rest) = u8_at(bytes)?;
    constant_of(tag, rest)
}

/// Reads the constants and returns their offsets.
#[tactic(auto, unfolding(crate::specs::Reading::all_constants_at))]
pub(crate) fn all_constants_at<'a>(
    alloc: Global,
    bytes: &[u8],
    front: &'a [u8],
) -> Result<(Vec<u32>, &'a [u8]), ImageError>
    requires { AreLast bytes.now front.now }
    ensures gives { Gives (λ x. (constants_in bytes.now x.0.items, x.1.now)) result
        (all_constants_at front.now) }
    ensures read { IfOk result
        (λ x. AreRead (HasConstant bytes.now) bytes.now x.0.items x.1.now) }
{
    let (count, start) = u16_at(front)?;
    let mut constants: Vec<u32> = Vec::new(alloc);
    let mut rest = start;
    'constants: for _ in 0..count {
        let (_, after) = constant_at(rest)?;
        constants.push((bytes.len() - rest.len()) as u32)?;
        rest = after;
    }
    Ok((constants, rest))
}
