//! States the law of programs, which proofs of callers use.

ghost use Rattle.jt_semantics.specs.Laws.{ProgramLaws};

/// States the law of programs in its contract, and does nothing: the meaning of a program is the
/// meaning of its chain.
pub fn program_laws()
    ensures { ProgramLaws }
{}
