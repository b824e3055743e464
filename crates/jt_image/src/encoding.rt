//! Encodes images as bytes.
ghost use Rattle.std.specs.Prelude.{◌≡◌, IfOk, Ok};
ghost use Rattle.jt_image.specs.Reading.{code_of};
ghost use Rattle.jt_image.specs.Spelling.{spelling};

use crate::image::Image;
use jt_value::NoMemory;
use std::alloc::Global;

/// Returns the spelling of the image: the only bytes that decode to it.
///
/// # Errors
///
/// `NoMemory` if a growth is refused.
pub fn encode(alloc: Global, image: &Image) -> Result<Vec<u8>, NoMemory>
    ensures spelled { IfOk result (λ v. v.items ≡ spelling image.now) }
    // The bytes are read as the code of the image.
    ensures read { IfOk result (λ v. code_of v.items ≡ Ok image.now) }
{
    Ok(Vec::from_slice(alloc, &image.bytes)?)
}
