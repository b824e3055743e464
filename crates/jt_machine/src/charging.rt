//! Charges the budget for a step, a pushed value, and output.
ghost use Rattle.std.specs.Prelude.{◌≡◌, ◌+◌, ◌/◌, ◌<◌, ◌≤◌, ◌^◌, None, IfOk};
ghost use Rattle.jt_value.specs.Tree.{Tree, size};
ghost use Rattle.jt_value.specs.View.{view};
ghost use Rattle.jt_image.specs.Config.{Config};
ghost use Rattle.jt_image.specs.Run.{Next, limit_of};
ghost use Rattle.jt_machine.specs.InstructionSteps as part;
ghost use Rattle.jt_machine.specs.View.{budget_view, config_view, next_view, IsNext, continues};
ghost use Rattle.jt_machine.specs.View.{AreSized, HasTop, reads};

use crate::entries::StackEntry;
use crate::limits::exceeded_limit;
use crate::outcome::Outcome;
use crate::state::State;
use jt_value::{NoMemory, Value};

/// Goes to the next instruction.
#[inline(always)]
pub(crate) fn step_on(state: &mut State) -> Option<Outcome>
    requires { state.old.point + 1 < 2 ^ 64 }
    ensures { part.step_on (config_view state.old) ≡ next_view result state.new }
{
    state.point += 1;
    None
}

/// Takes `cost` from the fuel, or returns the outcome if the fuel does not suffice.
pub(crate) fn charge_fuel(state: &mut State, cost: u64) -> Option<Outcome>
    ensures rest { (go : Config → Next)
        → part.charge_fuel cost (config_view state.old) go ≡ continues result state.new go }
    ensures same { state.new
        ≡ record state.old { left = record state.old.left { fuel = state.new.left.fuel } } }
{
    match state.left.charge(cost) {
        Ok(()) => None,
        Err(spent) => Some(Outcome::Spent(spent)),
    }
}

// Charges the additional fuel for an instruction that reads a whole value, or returns the outcome
// if the fuel does not suffice.
fn charge_for(state: &mut State, value: &Value) -> Option<Outcome>
    requires { size (view value.now) ≤ state.old.left.size }
    ensures rest { (go : Config → Next)
        → part.charge_fuel (size (view value.now) / 64) (config_view state.old) go
        ≡ continues result state.new go }
    ensures same { state.new
        ≡ record state.old { left = record state.old.left { fuel = state.new.left.fuel } } }
{
    // The prover needs this read, which shows that the limit has 32 bits. So the counted size is
    // exact.
    let _limit = state.left.size;
    charge_fuel(state, value.size() / 64)
}

/// Pops the top value and charges the additional fuel for reading it whole. Returns the outcome if
/// the fuel does not suffice.
#[inline(always)]
pub(crate) fn pop_read(state: &mut State) -> Result<Value, Outcome>
    requires top { HasTop state.old.stack.running }
    requires sized { AreSized state.old }
    ensures read { (go : Tree → Config → Next)
        → part.read (config_view state.old) go ≡ reads result state.new go }
    ensures point { state.new.point ≡ state.old.point }
    ensures sized { IfOk result (λ v. size (view v) ≤ state.new.left.size) }
{
    let value = state.stack.pop();
    match charge_for(state, &value) {
        None => Ok(value),
        Some(outcome) => Err(outcome),
    }
}

/// Pushes a value and goes on, or returns the outcome if the value exceeds a limit.
pub(crate) fn push(state: &mut State, value: Value) -> Result<Option<Outcome>, NoMemory>
    requires { state.old.point + 1 < 2 ^ 64 }
    // Allocates only if the value is within the limits.
    ensures { IsNext result state.new
        (part.push (view value) (config_view state.old) part.step_on) }
{
    if let Some(spent) = exceeded_limit(&value, &state.left) {
        return Ok(Some(Outcome::Spent(spent)));
    }
    push_checked(state, value)
}

/// Pushes a value that is within the limits, and goes on.
pub(crate) fn push_checked(state: &mut State, value: Value) -> Result<Option<Outcome>, NoMemory>
    requires room { state.old.point + 1 < 2 ^ 64 }
    requires fits { limit_of (budget_view state.old.left) (view value) ≡ None }
    ensures { IsNext result state.new
        (part.push (view value) (config_view state.old) part.step_on) }
{
    state.stack.push(StackEntry::Value(value))?;
    Ok(step_on(state))
}

/// Emits a text to the buffer and goes on, or returns the outcome if the text does not fit.
pub(crate) fn put(state: &mut State, text: &str) -> Result<Option<Outcome>, NoMemory>
    requires { state.old.point + 1 < 2 ^ 64 }
    // Allocates only if the text fits.
    ensures { IsNext result state.new (part.put text.now (config_view state.old) part.step_on) }
{
    if let Err(spent) = state.left.emit(text.len() as u64) {
        return Ok(Some(Outcome::Spent(spent)));
    }
    state.buffer.push_str(text)?;
    Ok(step_on(state))
}
