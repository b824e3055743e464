//! States the laws that proofs of callers use.

ghost use Rattle.jt_inherit.specs.Laws.{RefusalLaws};

/// States the law of refusals: a rule that the templates read so far break is broken in each
/// reading of the library. Does nothing: a caller learns the law from the contract.
pub fn refusal_laws()
    ensures { RefusalLaws }
{}
