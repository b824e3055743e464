//! Upgrades images of version 1 to version 2.
ghost use Rattle.std.specs.Prelude.{◌≡◌, ◌≤◌, ◌<◌, ◌*◌, ◌+◌, ℕ, length, replicate, slice_index_or};
ghost use Rattle.std.specs.Prelude.{IfOk, IfErr};
ghost use Rattle.jt_value.specs.Pairs.{Pairs};
ghost use Rattle.jt_image.specs.Config.{Budget, Outcome};
ghost use Rattle.jt_image.specs.Run.{Run};
ghost use Rattle.jt_image.specs.IsCode.{total_len, max_instructions, max_bytes, IsCode};
ghost use Rattle.jt_image.specs.Parts.{Adds};
ghost use Rattle.jt_image.specs.Spelling.{spelling};
ghost use Rattle.jt_image.specs.Upgrading.{unplaced, upgraded, IsNotUpgraded};
ghost use Rattle.jt_image.specs.declared.error.ImageError.TheVariants.{NoMemory};
ghost use Rattle.jt_image.specs.declared.version.Version.TheVariants as variant;

use crate::code::Code;
use crate::error::ImageError;
use crate::image::Image;
use crate::layout::COUNT_BYTES;
use crate::limits::MAX_BYTES;
use crate::version::Version;
use jt_value::NoMemory;
use std::alloc::Global;

// The number of bytes of the magic number and the version. In both versions the same bytes follow,
// up to the trailer.
const START_BYTES: usize = 6;

fn put_zeros(out: &mut Vec<u8>, count: usize) -> Result<(), NoMemory>
    ensures { Adds out.old out.new result (replicate count 0) }
{
    'zeros: for _ in 0..count {
        out.push(0)?;
    }
    Ok(())
}

// Returns the number of bytes of the added places: a count of 0 templates, and an empty place for
// each instruction.
fn places_len(image: &Image) -> usize
    ensures len { result ≡ 2 + 6 * total_len image.now.units }
    ensures within { result ≤ 2 + 6 * max_instructions }
{
    2 + 6 * image.offsets.instructions as usize
}

fn put_unplaced(out: &mut Vec<u8>, image: &Image) -> Result<(), NoMemory>
    requires { image.now.version ≡ variant.One }
    ensures { Adds out.old out.new result (spelling (unplaced image.now)) }
{
    out.extend_from_slice(b"JTBC")?;
    out.extend_from_slice(&Version::Two.number().to_le_bytes())?;
    out.extend_from_slice(&image.bytes[START_BYTES..])?;
    put_zeros(out, places_len(image))?;
    Ok(())
}

// Returns the spelling of the upgraded image.
fn spelled(alloc: Global, image: &Image) -> Result<Vec<u8>, ImageError>
    requires { image.now.version ≡ variant.One }
    ensures is { IfOk result (λ v. v.items ≡ spelling (unplaced image.now)) }
    ensures short { IfOk result (λ v. length v.items ≤ max_bytes) }
    ensures named { IfErr result (λ e. IsNotUpgraded e image.now) }
{
    let len = image.bytes.len() + places_len(image);
    if len > MAX_BYTES {
        return Err(ImageError::LimitPassed);
    }
    let mut bytes = Vec::with_capacity(alloc, len)?;
    put_unplaced(&mut bytes, image)?;
    Ok(bytes)
}

// Returns the offset of the places that an upgrade adds after these bytes.
fn places_after(bytes: &[u8]) -> u32
    requires { length bytes.now ≤ max_bytes }
    ensures at { result ≡ length bytes.now + 2 }
    ensures bytes { (i : ℕ) → slice_index_or bytes.now i 0 < 256 }
{
    (bytes.len() + COUNT_BYTES) as u32
}

// Returns the upgraded image. In its bytes all parts are where they were, and the places follow.
fn unplaced(image: Image, bytes: Vec<u8>) -> Image
    requires version { image.version ≡ variant.One }
    requires is { bytes.items ≡ spelling (unplaced image) }
    requires short { length bytes.items ≤ max_bytes }
    ensures { result ≡ unplaced image }
{
    let Image {
        bytes: old,
        mut offsets,
    } = image;
    offsets.version = Version::Two;
    offsets.places = places_after(&old);
    Image { bytes, offsets }
}

/// Upgrades an image to version 2. An image of version 1 gets no places, and an image of version 2
/// is returned unchanged.
///
/// # Errors
///
/// The image is returned with the reason:
///
/// * `LimitPassed` if the upgraded image would be too long.
/// * `NoMemory` if a growth is refused.
pub fn upgrade(alloc: Global, image: Image) -> Result<Image, (Image, ImageError)>
    // The result is the same code in version 2; an image of version 1 gets no places.
    ensures ok { IfOk result (λ i. i ≡ upgraded image) }
    // The image is returned unchanged.
    ensures back { IfErr result (λ e. e.0 ≡ image) }
    // The reason holds of the image.
    ensures named { IfErr result (λ e. IsNotUpgraded e.1 image) }
    // The runs of the result end as before.
    ensures runs { IfOk result
        (λ new. (context : Pairs) (budget : Budget) (outcome : Outcome)
        → Run image context budget outcome
        → Run new context budget outcome) }
{
    match image.version() {
        Version::Two => Ok(image),
        Version::One => match spelled(alloc, &image) {
            Ok(bytes) => Ok(unplaced(image, bytes)),
            Err(error) => Err((image, error)),
        },
    }
}
