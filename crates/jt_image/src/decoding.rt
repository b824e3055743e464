//! Decodes bytes into images.
ghost use Rattle.std.specs.Prelude.{◌≡◌, IfOk};
ghost use Rattle.jt_image.specs.Spelling.{spelling};
ghost use Rattle.jt_image.specs.IsCode.{IsCode};
ghost use Rattle.jt_image.specs.Reading.{Gives, ReadsSpelling, code_of};

use crate::error::ImageError;
use crate::image::Image;
use crate::reading::read;
use std::alloc::Global;

/// Returns the image that the bytes spell, with a copy of the bytes.
///
/// # Errors
///
/// The first fault in the bytes, I1 to I8.
/// `NoMemory` if a growth is refused.
pub fn decode(alloc: Global, bytes: &[u8]) -> Result<Image, ImageError>
    // The result is the code of the bytes or their first fault, unless memory runs out.
    ensures reads { Gives (λ i. i) result (code_of bytes.now) }
    // A result is a code, and the bytes are its spelling.
    ensures found { IfOk result (λ i. IsCode i × (bytes.now ≡ spelling i)) }
    // The spelling of a code is read as that code, unless memory runs out.
    ensures only { ReadsSpelling (λ i. i) bytes.now result }
{
    let offsets = read(alloc, bytes)?;
    let bytes = Vec::from_slice(alloc, bytes)?;
    Ok(Image { bytes, offsets })
}
