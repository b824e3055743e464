//! Finds what calls name, and checks the static rules of a call by its callee.

ghost use Rattle.std.specs.Prelude.{◌≡◌, IfOk};
ghost use Rattle.jt_ast.specs.ExpressionView.{expr_view, exprs_view, pairs_view};
ghost use Rattle.jt_chains.specs.Chain as chain;
ghost use Rattle.jt_chains.specs.Chain.{callee, named_alone, named_in};
ghost use Rattle.jt_checks.specs.internal.RuleTests as rules;
ghost use Rattle.jt_checks.specs.internal.ScopeView.{its_sources, its_given, given_in, in_scope};
ghost use Rattle.jt_checks.specs.internal.ScopeView.{Means};

use crate::arguments::{fits, unless};
use crate::scope::Scope;
use jt_ast::{Expr, Parameter};
use jt_chains::Definition;
use jt_rules::ScopeError;
use jt_uses::Enclosing;
use std::alloc::AllocError;

/// What the expression before the arguments of a call names.
#[derive(Clone, Copy)]
pub(crate) enum Callee<'a> {
    /// A macro, by its parameters.
    Macro(&'a [Parameter]),
    /// The name `range`.
    Range,
    /// The name `super`.
    Super,
    /// A block of `self`, by its name.
    Block(&'a str),
    /// The field `cycle` of `loop`.
    Cycle,
    /// Nothing that can be called.
    Nothing,
}

/// Returns what a bare name means.
fn callee_alone<'a>(scope: &Scope<'_, 'a>, name: &'a str) -> Callee<'a>
    ensures { Means result (named_alone (its_sources scope.now) (given_in scope.now name.now)
        name.now) }
{
    match scope.given(name) {
        Some(Definition::Own(found) | Definition::Imported(_, found)) => {
            Callee::Macro(found.parameters)
        }
        Some(Definition::Library(_)) => Callee::Nothing,
        None => match name {
            "range" => Callee::Range,
            "super" => Callee::Super,
            _ => Callee::Nothing,
        },
    }
}

/// Returns what the field of a name means: `self.b`, `loop.cycle`, or a macro of a library.
fn callee_of_field<'a>(scope: &Scope<'_, 'a>, of: &str, field: &'a str) -> Callee<'a>
    ensures { Means result (named_in (its_sources scope.now) (given_in scope.now of.now) of.now
        field.now) }
{
    match (of, field) {
        ("self", _) => Callee::Block(field),
        ("loop", "cycle") => Callee::Cycle,
        ("loop", _) => Callee::Nothing,
        _ => match scope.given(of) {
            Some(Definition::Library(library)) => scope
                .facts
                .chain
                .library_macro(library, field)
                .map_or(Callee::Nothing, |found| Callee::Macro(found.parameters)),
            _ => Callee::Nothing,
        },
    }
}

/// Returns what a callee names.
pub(crate) fn callee_of<'a>(scope: &Scope<'_, 'a>, called: &'a Expr) -> Callee<'a>
    ensures { Means result (callee (its_sources scope.now) (its_given scope.now)
        (expr_view called.now)) }
{
    match called {
        Expr::Name(name) => callee_alone(scope, name),
        Expr::Attribute(value, field) => match &**value {
            Expr::Name(of) => callee_of_field(scope, of, field),
            _ => Callee::Nothing,
        },
        _ => Callee::Nothing,
    }
}

/// Returns the rule that a call breaks by its callee.
#[tactic(auto, using(crate::proofs::counted, crate::proofs::keyless))]
pub(crate) fn call_broken(
    scope: &Scope<'_, '_>,
    around: Enclosing,
    called: Callee<'_>,
    row: &[Expr],
    pairs: &[(String, Expr)],
) -> Result<Option<ScopeError>, AllocError>
    ensures { IfOk result (λ o. (c : chain.Callee) → Means called.entry c → o
        ≡ in_scope rules.call_broken scope.now c around (exprs_view row.now)
        (pairs_view pairs.now)) }
{
    match called {
        Callee::Macro(parameters) => Ok(unless(fits(scope.alloc, parameters, row, pairs)?)),
        Callee::Range => Ok(unless(0 < row.len() && row.len() < 4 && pairs.is_empty())),
        Callee::Super if !around.in_block => Ok(Some(ScopeError::NotCallable)),
        Callee::Block(name) if scope.known().first_bodies.index_of(name).is_none() => {
            Ok(Some(ScopeError::NotCallable))
        }
        Callee::Super | Callee::Block(_) => Ok(unless(row.is_empty() && pairs.is_empty())),
        Callee::Cycle => Ok(unless(0 < row.len() && pairs.is_empty())),
        Callee::Nothing => Ok(Some(ScopeError::NotCallable)),
    }
}
