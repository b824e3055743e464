//! States the facts about compiled code that proofs of callers use.

ghost use Rattle.jt_codegen.specs.Depends.{CompilesAlike};

/// Has no effect. Its contract states that a code depends on the sources alone that its chain
/// requests.
pub fn compile_laws()
    ensures { CompilesAlike }
{}
