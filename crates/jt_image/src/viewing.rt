//! Views bytes as a code in place.
ghost use Rattle.std.specs.Prelude.{◌≡◌, IfOk};
ghost use Rattle.jt_image.specs.Spelling.{spelling};
ghost use Rattle.jt_image.specs.IsCode.{IsCode};
ghost use Rattle.jt_image.specs.Reading.{Gives, ReadsSpelling, code_of};

use crate::error::ImageError;
use crate::in_place::View;
use crate::reading::read;
use std::alloc::Global;

/// Reads the code that the bytes spell, in place. Stores the offsets of the parts, and builds no
/// instructions.
///
/// # Errors
///
/// The first fault in the bytes, I1 to I8.
/// `NoMemory` if a growth is refused.
pub fn view(alloc: Global, bytes: &[u8]) -> Result<View<'_>, ImageError>
    // The result is the code of the bytes or their first fault, unless memory runs out.
    ensures reads { Gives (λ v. v) result (code_of bytes.now) }
    // A result is a code, and the bytes are its spelling.
    ensures found { IfOk result (λ v. IsCode v × (bytes.now ≡ spelling v)) }
    // The spelling of a code is read as that code, unless memory runs out.
    ensures only { ReadsSpelling (λ v. v) bytes.now result }
{
    let offsets = read(alloc, bytes)?;
    Ok(View { bytes, offsets })
}
