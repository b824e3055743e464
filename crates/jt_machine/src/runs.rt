//! Runs images and views from the start to the end in one call.
ghost use Rattle.std.specs.Prelude.{IfOk, OnErr};
ghost use Rattle.jt_value.specs.Pairs.{Pairs};
ghost use Rattle.jt_value.specs.ContextView.{pairs_of};
ghost use Rattle.jt_image.specs.IsCode.{IsCode};
ghost use Rattle.jt_image.specs.Typed.{IsTyped};
ghost use Rattle.jt_image.specs.Config as config;
ghost use Rattle.jt_image.specs.Laws.{Agree, RunAlike};
ghost use Rattle.jt_image.specs.Run.{Run, IsSafe};
ghost use Rattle.jt_machine.specs.Growing.{MayWant};
ghost use Rattle.jt_machine.specs.View.{budget_view, outcome_view};

use crate::constants::ConstantCache;
use crate::fast_path::run_fast;
use crate::outcome::Outcome;
use crate::start::{context_limit, start};
use crate::step::step;
use jt_budget::Budget;
use jt_image::{Code, code_laws};
use jt_value::{Context, NoMemory};
use jt_verify::{Verified, VerifiedView};
use std::alloc::Global;

/// Runs an image for a context under a budget.
///
/// # Errors
///
/// `NoMemory` only if a growth was refused.
pub fn run(
    alloc: Global,
    verified: &Verified,
    context: &Context,
    budget: Budget,
) -> Result<Outcome, NoMemory>
    // The result is the outcome of the run.
    ensures outcome { IfOk result
        (λ o. Run verified.now (pairs_of context.now) (budget_view budget) (outcome_view o)) }
    // Only tables at the start, steps that go on and allocate, and faults with a place need memory.
    ensures memory { OnErr result
        (MayWant verified.now (pairs_of context.now) (budget_view budget)) }
    // Every run of the image has one outcome, stays within its fuel and is never wrong.
    ensures safe { (any_context : Pairs) (any_budget : config.Budget)
        → IsSafe verified.now any_context any_budget }
    // A run reads nothing of the context but the values of the code's names.
    ensures alike { (other : Pairs) → Agree verified.now (pairs_of context.now) other
        → RunAlike verified.now (pairs_of context.now) other }
{
    code_laws();
    run_code(alloc, verified.image(), context, budget)
}

/// Runs the code of a view in place, as `run` does an image.
///
/// # Errors
///
/// `NoMemory` only if a growth was refused.
pub fn run_view(
    alloc: Global,
    verified: &VerifiedView<'_>,
    context: &Context,
    budget: Budget,
) -> Result<Outcome, NoMemory>
    // The result is the outcome of the run.
    ensures outcome { IfOk result
        (λ o. Run verified.now (pairs_of context.now) (budget_view budget) (outcome_view o)) }
    // Memory is needed only for tables at the start, at steps that go on and may allocate, and for
    // faults with a place.
    ensures memory { OnErr result
        (MayWant verified.now (pairs_of context.now) (budget_view budget)) }
    // Every run of the code has one outcome, stays within its fuel and is never wrong.
    ensures safe { (any_context : Pairs) (any_budget : config.Budget)
        → IsSafe verified.now any_context any_budget }
    // A run reads nothing of the context but the values of the code's names.
    ensures alike { (other : Pairs) → Agree verified.now (pairs_of context.now) other
        → RunAlike verified.now (pairs_of context.now) other }
{
    code_laws();
    run_code(alloc, verified.code(), context, budget)
}

// Runs a typed code.
fn run_code<C: Code>(
    alloc: Global,
    code: &C,
    context: &Context,
    budget: Budget,
) -> Result<Outcome, NoMemory>
    requires whole { IsCode (C.code code.now) }
    requires typed { IsTyped (C.code code.now) }
    ensures outcome { IfOk result
        (λ o. Run (C.code code.now) (pairs_of context.now) (budget_view budget) (outcome_view o)) }
    ensures memory { OnErr result
        (MayWant (C.code code.now) (pairs_of context.now) (budget_view budget)) }
{
    code_laws();
    if let Some(spent) = context_limit(code, context, &budget) {
        return Ok(Outcome::Spent(spent));
    }
    let mut state = start(alloc, code, context, budget)?;
    let mut made = ConstantCache::new(alloc);
    'steps: loop {
        let stopped = run_fast(code, &made, &mut state, u64::MAX);
        if let Some(outcome) = step(alloc, code, &mut made, &mut state, stopped.prefetched)? {
            return Ok(outcome);
        }
    }
}
