//! Executes calls of units and returns from them.
ghost use Rattle.std.specs.Prelude.{◌≡◌, ◌≢◌, ◌+◌, ◌<◌, ◌≤◌, ◌^◌, Option, IfOk, length};
ghost use Rattle.jt_image.specs.Code.{Section};
ghost use Rattle.jt_image.specs.IsCode.{IsCode};
ghost use Rattle.jt_image.specs.Step.{locals_of};
ghost use Rattle.jt_image.specs.Run.{Wrong};
ghost use Rattle.jt_machine.specs.Entries.{values_view};
ghost use Rattle.jt_machine.specs.InstructionSteps as part;
ghost use Rattle.jt_machine.specs.internal.StackView.{caller_view};
ghost use Rattle.jt_machine.specs.View.{config_view, IsNext, given_view, IsReady};

use crate::aggregates::take_values;
use crate::entries::StackEntry;
use crate::limits::exceeded_limit;
use crate::outcome::Outcome;
use crate::stack::Caller;
use crate::state::State;
use jt_image::Code;
use jt_value::{NoMemory, Value};
use std::alloc::Global;
use std::mem;

// Returns the locals of a unit: its arguments first, and undefined for all other locals.
fn locals_with(arguments: Vec<Value>, locals: u16) -> Result<Vec<Value>, NoMemory>
    requires { length arguments.items ≤ locals }
    ensures { IfOk result
        (λ vs. values_view vs.items ≡ locals_of locals (values_view arguments.items)) }
{
    let mut values = arguments;
    let missing = usize::from(locals) - values.len();
    'values: for _ in 0..missing {
        values.push(Value::Undefined)?;
    }
    Ok(values)
}

/// Pops the arguments of a unit and begins it.
pub(crate) fn call<C: Code>(
    alloc: Global,
    code: &C,
    state: &mut State,
    unit: u32,
) -> Result<Option<Outcome>, NoMemory>
    requires whole { IsCode (C.code code.now) }
    requires ready { IsReady (part.call (C.code code.now) unit (config_view state.old)) state.old }
    // Allocates only if the call begins.
    ensures { IsNext result state.new (part.call (C.code code.now) unit (config_view state.old)) }
{
    let Some(header) = code.unit(unit as usize) else {
        unreachable!()
    };
    if let Err(spent) = state.left.enter() {
        return Ok(Some(Outcome::Spent(spent)));
    }
    let arguments = take_values(alloc, &mut state.stack, usize::from(header.parameters))?;
    let locals = locals_with(arguments, header.locals)?;
    let around = mem::replace(&mut state.locals, locals);
    state.stack.enter(state.unit, state.point + 1, around)?;
    state.unit = unit as usize;
    state.point = 0;
    Ok(None)
}

// Continues a caller whose entries the running activation already has.
fn go_on(state: &mut State, caller: Caller)
    requires { state.old.left.depth + 1 < 2 ^ 32 }
    ensures { config_view state.new
        ≡ part.went_back (caller_view caller state.old.stack.running) state.old.stack.callers
        state.old.stack.running (config_view state.old) }
{
    let Caller {
        unit,
        point,
        locals,
        ..
    } = caller;
    state.unit = unit;
    state.point = point;
    state.locals = locals;
    state.left.leave();
}

// Continues a caller with the result of the unit, or returns the outcome if the result exceeds a
// limit.
#[tactic(auto, using(crate::proofs::ReturnCorrect::back_goes_on, crate::proofs::AllocationPoints::lost))]
fn resume(
    state: &mut State,
    caller: Caller,
    given: Option<Value>,
) -> Result<Option<Outcome>, NoMemory>
    requires { state.old.left.depth + 1 < 2 ^ 32 }
    // Allocates only if the result is within the limits.
    ensures { IsNext result state.new
        (part.back_with (caller_view caller state.old.stack.running) state.old.stack.callers
        (given_view given) (config_view state.old)) }
{
    let Some(value) = given else {
        go_on(state, caller);
        return Ok(None);
    };
    if let Some(spent) = exceeded_limit(&value, &state.left) {
        return Ok(Some(Outcome::Spent(spent)));
    }
    go_on(state, caller);
    state.stack.push(StackEntry::Value(value))?;
    Ok(None)
}

/// Returns to the caller with the result of the unit, or ends the run with the text of the buffer.
pub(crate) fn finish(alloc: Global, state: &mut State) -> Result<Option<Outcome>, NoMemory>
    requires depth { state.old.left.depth + length state.old.stack.callers < 2 ^ 32 }
    ensures { (u : Option Section)
        → part.return_from u (config_view state.old) ≢ Wrong
        → IsNext result state.new (part.return_from u (config_view state.old)) }
{
    let given = state.stack.take_given();
    let Some(caller) = state.stack.leave() else {
        let text = mem::replace(&mut state.buffer, String::new(alloc));
        return Ok(Some(Outcome::Text(text)));
    };
    resume(state, caller, given)
}
