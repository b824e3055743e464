//! Builds the image of a program.

ghost use Rattle.std.specs.Prelude.{◌≡◌, IfOk, IfErr};
ghost use Rattle.jt_image.specs.IsCode.{IsCode};
ghost use Rattle.jt_image.specs.Parts.{FitTexts, HasTables};
ghost use Rattle.jt_ir.specs.View.{program_of};
ghost use Rattle.jt_lower.specs.Fits.{ProgramFits};
ghost use Rattle.jt_lower.specs.Lower.{compiled};
ghost use Rattle.jt_codegen.specs.Passed.{RefusesImage};
ghost use Rattle.jt_codegen.specs.Units.{HasFewValues, of_image};

use crate::emission::EmitError;
use crate::finding::Limit;
use crate::tables::parts_of;
use jt_image::{Image, ImageError, assemble};
use jt_ir::Program;
use std::alloc::Global;

/// Returns the image of a program. The names of the program must ascend and not be empty, and its
/// first routine must have no parameters.
///
/// # Errors
///
/// `Limit` if the image would pass a limit.
/// `NoMemory` if a growth is refused.
#[tactic(auto, using(crate::proofs::RefusalsMapped::assembly_refused))]
pub(crate) fn image_of(alloc: Global, program: &Program) -> Result<Image, EmitError>
    requires tables { HasTables (compiled (program_of program.now)) }
    requires fits { ProgramFits (program_of program.now) }
    requires few { HasFewValues (program_of program.now) }
    requires templates { FitTexts (compiled (program_of program.now)).templates }
    ensures is { IfOk result (λ image. image ≡ compiled (program_of program.now)) }
    ensures whole { IfOk result (λ image. IsCode image) }
    ensures refused { IfErr result (λ e. RefusesImage e (program_of program.now)) }
{
    let parts = parts_of(alloc, program)?;
    assemble(alloc, parts).map_err(|(_, refusal)| refused_by(refusal))
}

/// Maps a refusal of `assemble` to an emission error. `NoMemory` stays. Every other refusal is the
/// limit of bytes, the only one that `parts_of` leaves.
fn refused_by(refusal: ImageError) -> EmitError
    ensures { result ≡ of_image refusal }
{
    match refusal {
        ImageError::NoMemory => EmitError::NoMemory,
        _ => EmitError::Limit(Limit::Bytes),
    }
}
