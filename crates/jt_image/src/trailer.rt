//! Reads the trailer of an image: its templates and its places.
ghost use Rattle.std.specs.Prelude.{◌≡◌, ◌≤◌, ◌==◌, ◌&&◌, nat_le, nat_lt, List, [], length, drop};
ghost use Rattle.std.specs.Prelude.{option_map, IfOk, Ok, Err, true};
ghost use Rattle.std.specs.Int.{w16, w32};
ghost use Rattle.std.specs.List.{AllByRecursion};
ghost use Rattle.jt_image.specs.IsCode.{max_line};
ghost use Rattle.jt_image.specs.InPlace.{templates_in, HasTemplate, locs_in, AreLast, AreRead};
ghost use Rattle.jt_image.specs.declared.version.Version.TheVariants as variant;
ghost use Rattle.jt_image.specs.internal.TrailerView.{trailer_in, IsTrailerIn};
ghost use Rattle.jt_image.specs.View.{loc_view};
ghost use Rattle.jt_image.specs.Reading.{Gives, last_text, all_templates_at, template_number_at};
ghost use Rattle.jt_image.specs.Reading.{is_line, line_at, loc_at, locs_at, trailer_at};

use crate::error::ImageError;
use crate::fields::{text_after, u16_at, u32_at};
use crate::limits::MAX_LINE;
use crate::offsets::template_in;
use crate::parts::SourceLoc;
use crate::version::Version;
use std::alloc::Global;

/// The offsets of the templates, and of the table of encoded places.
#[derive(Drop)]
pub(crate) struct Trailer {
    pub(crate) templates: Vec<u32>,
    pub(crate) places: u32,
}

fn last_template<'a>(bytes: &'a [u8], templates: &[u32]) -> Option<&'a str>
    requires { AllByRecursion (HasTemplate bytes.now) templates.now }
    ensures { option_map (λ t. t.now) result ≡ last_text (templates_in bytes.now templates.now) }
{
    match templates {
        [] => None,
        [.., last] => Some(template_in(bytes, *last)),
    }
}

#[tactic(auto, unfolding(crate::specs::Reading::all_templates_at))]
fn all_templates_at<'a>(
    alloc: Global,
    bytes: &[u8],
    front: &'a [u8],
) -> Result<(Vec<u32>, &'a [u8]), ImageError>
    requires { AreLast bytes.now front.now }
    ensures gives { Gives (λ x. (templates_in bytes.now x.0.items, x.1.now)) result
        (all_templates_at front.now) }
    ensures read { IfOk result
        (λ x. AreRead (HasTemplate bytes.now) bytes.now x.0.items x.1.now) }
{
    let (count, start) = u16_at(front)?;
    let mut templates: Vec<u32> = Vec::new(alloc);
    let mut rest = start;
    'templates: for _ in 0..count {
        let (_, after) = text_after(last_template(bytes, &templates), rest)?;
        templates.push((bytes.len() - rest.len()) as u32)?;
        rest = after;
    }
    Ok((templates, rest))
}

#[tactic(auto, unfolding(crate::specs::Reading::template_number_at))]
fn template_number_at(templates: usize, bytes: &[u8]) -> Result<(u16, &[u8]), ImageError>
    ensures { Gives (λ x. (x.0, x.1.now)) result (template_number_at templates bytes.now) }
{
    let (number, rest) = u16_at(bytes)?;
    if usize::from(number) > templates {
        return Err(ImageError::BadTable);
    }
    Ok((number, rest))
}

pub(crate) fn is_line(template: u16, line: u32) -> bool
    ensures { result ≡ is_line template line }
{
    if template == 0 {
        line == 0
    } else {
        0 < line && line <= MAX_LINE
    }
}

#[tactic(auto, unfolding(crate::specs::Reading::line_at))]
fn line_at(template: u16, bytes: &[u8]) -> Result<(u32, &[u8]), ImageError>
    ensures { Gives (λ x. (x.0, x.1.now)) result (line_at template bytes.now) }
{
    let (line, rest) = u32_at(bytes)?;
    if !is_line(template, line) {
        return Err(ImageError::BadTable);
    }
    Ok((line, rest))
}

#[tactic(auto, unfolding(crate::specs::Reading::loc_at))]
fn loc_at(templates: usize, bytes: &[u8]) -> Result<(SourceLoc, &[u8]), ImageError>
    ensures { Gives (λ x. (loc_view x.0, x.1.now)) result (loc_at templates bytes.now) }
{
    let (template, rest) = template_number_at(templates, bytes)?;
    let (line, rest) = line_at(template, rest)?;
    Ok((SourceLoc { template, line }, rest))
}

// Returns the bytes after the first `count` encoded places.
fn after_locs(templates: usize, count: u32, bytes: &[u8]) -> Result<&[u8], ImageError>
    ensures { Gives (λ rest. (locs_in variant.Two templates count bytes.now, rest.now)) result
        (locs_at templates count bytes.now) }
{
    let mut rest = bytes;
    'locs: for _ in 0..count {
        let (_, after) = loc_at(templates, rest)?;
        rest = after;
    }
    Ok(rest)
}

#[tactic(auto, unfolding(crate::specs::Reading::trailer_at))]
fn places_at<'a>(
    alloc: Global,
    count: u32,
    bytes: &[u8],
    front: &'a [u8],
) -> Result<(Trailer, &'a [u8]), ImageError>
    requires { AreLast bytes.now front.now }
    ensures gives { Gives (λ x. (trailer_in variant.Two count bytes.now x.0, x.1.now)) result
        (trailer_at variant.Two count front.now) }
    ensures there { IfOk result (λ x. IsTrailerIn variant.Two count bytes.now x.0) }
{
    let (templates, rest) = all_templates_at(alloc, bytes, front)?;
    let places = (bytes.len() - rest.len()) as u32;
    let rest = after_locs(templates.len(), count, rest)?;
    Ok((Trailer { templates, places }, rest))
}

/// Reads the trailer that follows `count` instructions.
#[tactic(auto, unfolding(crate::specs::Reading::trailer_at))]
pub(crate) fn trailer_at<'a>(
    alloc: Global,
    version: Version,
    count: u32,
    bytes: &[u8],
    front: &'a [u8],
) -> Result<(Trailer, &'a [u8]), ImageError>
    requires { AreLast bytes.now front.now }
    ensures gives { Gives (λ x. (trailer_in version count bytes.now x.0, x.1.now)) result
        (trailer_at version count front.now) }
    ensures there { IfOk result (λ x. IsTrailerIn version count bytes.now x.0) }
{
    match version {
        Version::One => {
            let back = Trailer {
                templates: Vec::new(alloc),
                places: 0,
            };
            Ok((back, front))
        }
        Version::Two => places_at(alloc, count, bytes, front),
    }
}
