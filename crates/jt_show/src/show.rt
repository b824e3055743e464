//! Lists a code.
ghost use Rattle.std.specs.Prelude.{◌≡◌, IfOk, string_bytes};
ghost use Rattle.jt_show.specs.Listing as lines;
ghost use Rattle.jt_show.specs.Listed.{Lists};

use crate::slots::slot_names;
use crate::tables::{put_constants, put_globals, version_line};
use crate::units::put_units;
use jt_image::{Code, ImageError, view};
use jt_value::NoMemory;
use std::alloc::Global;

/// Returns the listing of the code that `bytes` spell. The code is not verified.
///
/// # Errors
///
/// The first fault in the bytes, I1 to I8.
/// `NoMemory` if a growth is refused.
pub fn listing_of(alloc: Global, bytes: &[u8]) -> Result<String, ImageError>
    ensures { Lists bytes.now result }
{
    let code = view(alloc, bytes)?;
    Ok(listing(alloc, &code)?)
}

/// Returns the listing of a code.
///
/// # Errors
///
/// `NoMemory` if a growth is refused.
pub fn listing<C: Code>(alloc: Global, code: &C) -> Result<String, NoMemory>
    ensures { IfOk result (λ text. string_bytes text ≡ lines.listing (C.code code.now)) }
{
    let mut out = String::new(alloc);
    out.push_str(version_line(code.version()))?;
    put_globals(code, &mut out)?;
    put_constants(code, &mut out)?;
    let slots = slot_names(alloc, code)?;
    put_units(alloc, code, &slots, &mut out)?;
    Ok(out)
}
