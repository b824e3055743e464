//! States the facts about compiled programs that proofs of callers use.
ghost use Rattle.jt_lower.specs.Compiles.{LowLaws};

use jt_constants::merged_laws;
use jt_image::code_laws;

/// Has no effect. Its contract states the laws of compiled programs.
pub fn low_laws()
    ensures { LowLaws }
{
    code_laws();
    merged_laws();
}
