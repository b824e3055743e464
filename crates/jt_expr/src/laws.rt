//! States the laws of expressions, for the proofs of callers.

ghost use Rattle.jt_expr.specs.Promises.{ExpressionLaws};

/// States the laws of expressions and their tokens in its contract. It does nothing.
pub fn expression_laws()
    ensures { ExpressionLaws }
{}
