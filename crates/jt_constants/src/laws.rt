//! States the laws that callers' proofs use.
ghost use Rattle.jt_constants.specs.Laws.{MergedLaws};

/// States the laws of codes in which equal constants occur once. It does nothing: a caller learns
/// them from its contract.
pub fn merged_laws()
    ensures { MergedLaws }
{}
