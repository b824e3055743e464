//! States the facts about codes that proofs of callers use.
ghost use Rattle.jt_image.specs.Laws.{CodeLaws};

/// Has no effect. Its contract states the laws of codes and of their runs.
pub fn code_laws()
    ensures { CodeLaws }
{}
