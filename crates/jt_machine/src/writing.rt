//! Runs an image and writes its text into a sink in pieces.
ghost use Rattle.std.specs.Prelude.{◌≡◌, [], true, false, IfOk, IfErr, OnOk, OnErr, string_bytes};
ghost use Rattle.std.specs.Result.{is_err};
ghost use Rattle.jt_value.specs.Pairs.{Pairs};
ghost use Rattle.jt_value.specs.ContextView.{pairs_of};
ghost use Rattle.jt_image.specs.IsCode.{IsCode};
ghost use Rattle.jt_image.specs.Typed.{IsTyped};
ghost use Rattle.jt_image.specs.Config as config;
ghost use Rattle.jt_image.specs.Laws.{Agree, RunAlike};
ghost use Rattle.jt_image.specs.Run.{IsSafe};
ghost use Rattle.jt_machine.specs.Emitting.{HasWritten, HasBegun, outcome_of, emitted_by};
ghost use Rattle.jt_machine.specs.Emitting.{config_prefixed, text_written};
ghost use Rattle.jt_machine.specs.Growing.{MayWant};
ghost use Rattle.jt_machine.specs.Sinks.{HasPut};
ghost use Rattle.jt_machine.specs.View.{budget_view, config_view, outcome_view};

use crate::constants::ConstantCache;
use crate::fast_path::run_fast;
use crate::outcome::{Ended, Outcome};
use crate::sink::{Sink, SinkFailed, put_all};
use crate::start::{context_limit, start};
use crate::state::State;
use crate::step::step;
use jt_budget::Budget;
use jt_image::{Code, code_laws};
use jt_value::{Context, NoMemory};
use jt_verify::Verified;
use std::alloc::Global;
use thiserror::Error;

/// The error of a run that writes into a sink.
#[derive(Clone, Copy, Debug, PartialEq, Eq, Error)]
pub enum RunToError {
    /// A refused growth.
    #[error("no memory")]
    NoMemory,
    /// A failure of the sink.
    #[error("a sink has failed")]
    Write,
}

impl From<NoMemory> for RunToError {
    ghost use Rattle.std.specs.Prelude.{◌≡◌};
    ghost use Rattle.jt_machine.specs.declared.writing.RunToError.TheVariants as error;

    ghost from_gives = { λ _ e. e ≡ error.NoMemory };

    fn from(_refused: NoMemory) -> RunToError {
        RunToError::NoMemory
    }
}

impl From<SinkFailed> for RunToError {
    ghost use Rattle.std.specs.Prelude.{◌≡◌};
    ghost use Rattle.jt_machine.specs.declared.writing.RunToError.TheVariants as error;

    ghost from_gives = { λ _ e. e ≡ error.Write };

    fn from(_refused: SinkFailed) -> RunToError {
        RunToError::Write
    }
}

/// Runs an image for a context under a budget, and writes its text into a sink as it is emitted to
/// the outermost buffer.
///
/// # Errors
///
/// - `NoMemory` only if a growth was refused.
/// - `Write` only if the sink failed.
///
/// The written bytes are then a prefix of the bytes that the run emits to the outermost buffer.
pub fn run_to<W: Sink>(
    alloc: Global,
    verified: &Verified,
    context: &Context,
    budget: Budget,
    sink: &mut W,
) -> Result<Ended, RunToError>
    requires works { W.failed sink.old ≡ false }
    // The run ends as returned. Exactly the bytes that it emitted to the outermost buffer are
    // written: the whole text, if the run ends with a text.
    ensures ended { IfOk result (λ e. HasWritten verified.now (pairs_of context.now)
        (budget_view budget) e (W.taken sink.old) (W.taken sink.new)) }
    // If the result is an error, a prefix of the bytes that the run emits is written.
    ensures begun { OnErr result (HasBegun verified.now (pairs_of context.now) (budget_view budget)
        (W.taken sink.old) (W.taken sink.new)) }
    // The sink has failed exactly if the error is `Write`.
    ensures write { IfErr result (λ e. e ≡ RunToError.Write → W.failed sink.new ≡ true) }
    ensures memory { IfErr result (λ e. e ≡ RunToError.NoMemory → W.failed sink.new ≡ false) }
    ensures still { OnOk result (W.failed sink.new ≡ false) }
    // Memory is needed only for tables at the start, at steps that go on and may allocate, and for
    // faults with a place.
    ensures wanted { IfErr result (λ e. e ≡ RunToError.NoMemory
        → MayWant verified.now (pairs_of context.now) (budget_view budget)) }
    // Every run of the image has one outcome, stays within its fuel and is never wrong.
    ensures safe { (any_context : Pairs) (any_budget : config.Budget)
        → IsSafe verified.now any_context any_budget }
    // A run reads nothing of the context but the values of the code's names.
    ensures alike { (other : Pairs) → Agree verified.now (pairs_of context.now) other
        → RunAlike verified.now (pairs_of context.now) other }
{
    code_laws();
    write_code(alloc, verified.image(), context, budget, sink)
}

// Runs a typed code, and writes its text into a sink.
fn write_code<C: Code, W: Sink>(
    alloc: Global,
    code: &C,
    context: &Context,
    budget: Budget,
    sink: &mut W,
) -> Result<Ended, RunToError>
    requires whole { IsCode (C.code code.now) }
    requires typed { IsTyped (C.code code.now) }
    requires works { W.failed sink.old ≡ false }
    ensures ended { IfOk result (λ e. HasWritten (C.code code.now) (pairs_of context.now)
        (budget_view budget) e (W.taken sink.old) (W.taken sink.new)) }
    ensures begun { OnErr result (HasBegun (C.code code.now) (pairs_of context.now)
        (budget_view budget) (W.taken sink.old) (W.taken sink.new)) }
    ensures write { IfErr result (λ e. e ≡ RunToError.Write → W.failed sink.new ≡ true) }
    ensures memory { IfErr result (λ e. e ≡ RunToError.NoMemory → W.failed sink.new ≡ false) }
    ensures still { OnOk result (W.failed sink.new ≡ false) }
    ensures wanted { IfErr result (λ e. e ≡ RunToError.NoMemory
        → MayWant (C.code code.now) (pairs_of context.now) (budget_view budget)) }
{
    code_laws();
    if let Some(spent) = context_limit(code, context, &budget) {
        return Ok(Ended::Spent(spent));
    }
    let mut state = start(alloc, code, context, budget)?;
    let mut made = ConstantCache::new(alloc);
    'steps: loop {
        let stopped = run_fast(code, &made, &mut state, u64::MAX);
        send(&mut state, sink)?;
        if let Some(outcome) = step(alloc, code, &mut made, &mut state, stopped.prefetched)? {
            return Ok(close(outcome, sink)?);
        }
    }
}

// Writes the contents of the outermost buffer into the sink, and empties the buffer.
fn send<W: Sink>(state: &mut State, sink: &mut W) -> Result<(), SinkFailed>
    requires { W.failed sink.old ≡ false }
    ensures put { HasPut result (emitted_by (config_view state.old))
        (W.taken sink.old) (W.taken sink.new) }
    ensures emptied { OnOk result (config_prefixed (emitted_by (config_view state.old))
        (config_view state.new)
        ≡ config_view state.old) }
    ensures fails { W.failed sink.new ≡ is_err result }
{
    match state.outer.first_mut() {
        Some(outermost) => drain(outermost, sink),
        None => drain(&mut state.buffer, sink),
    }
}

// Writes the contents of a buffer into the sink, and empties the buffer.
fn drain<W: Sink>(buffer: &mut String, sink: &mut W) -> Result<(), SinkFailed>
    requires { W.failed sink.old ≡ false }
    ensures put { HasPut result (string_bytes buffer.old) (W.taken sink.old) (W.taken sink.new) }
    ensures emptied { OnOk result (string_bytes buffer.new ≡ []) }
    ensures fails { W.failed sink.new ≡ is_err result }
{
    put_all(sink, buffer.as_bytes())?;
    buffer.clear();
    Ok(())
}

// Writes the text with which a run ended, and returns how it ended.
fn close<W: Sink>(outcome: Outcome, sink: &mut W) -> Result<Ended, SinkFailed>
    requires { W.failed sink.old ≡ false }
    ensures ended { IfOk result
        (λ e. outcome_of e (text_written (outcome_view outcome)) ≡ outcome_view outcome) }
    ensures put { HasPut result (text_written (outcome_view outcome))
        (W.taken sink.old) (W.taken sink.new) }
    ensures fails { W.failed sink.new ≡ is_err result }
{
    match outcome {
        Outcome::Text(text) => {
            put_all(sink, text.as_bytes())?;
            Ok(Ended::Whole)
        }
        Outcome::Fault(fault, place) => Ok(Ended::Fault(fault, place)),
        Outcome::Spent(spent) => Ok(Ended::Spent(spent)),
    }
}
