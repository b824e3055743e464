//! Opens and closes captures.
ghost use Rattle.std.specs.Prelude.{◌≡◌, ◌≢◌, ◌∷◌, [], ◌+◌, ◌<◌, ◌^◌, if◌then◌else◌, IfOk, OnOk};
ghost use Rattle.std.specs.Prelude.{string_bytes};
ghost use Rattle.jt_value.specs.Tree as tree;
ghost use Rattle.jt_value.specs.View.{view};
ghost use Rattle.jt_machine.specs.InstructionSteps as part;
ghost use Rattle.jt_machine.specs.View.{config_view, IsNext, outer_view, IsReady};

use crate::charging::{push_checked, step_on};
use crate::entries::StackEntry;
use crate::limits::flat_limit;
use crate::outcome::Outcome;
use crate::state::State;
use jt_value::{NoMemory, Value};
use std::alloc::Global;
use std::mem;

// Pushes a buffer around the open one.
fn push_outer(outer: &mut Vec<String>, buffer: String) -> Result<(), NoMemory>
    ensures { OnOk result
        (outer_view outer.new.items ≡ string_bytes buffer ∷ outer_view outer.old.items) }
{
    outer.push(buffer)?;
    Ok(())
}

/// Opens a capture with an empty buffer.
pub(crate) fn open_capture(alloc: Global, state: &mut State) -> Result<Option<Outcome>, NoMemory>
    requires { state.old.point + 1 < 2 ^ 64 }
    ensures { IsNext result state.new (part.open_capture (config_view state.old)) }
{
    state.stack.push(StackEntry::Capture)?;
    let around = mem::replace(&mut state.buffer, String::new(alloc));
    push_outer(&mut state.outer, around)?;
    Ok(step_on(state))
}

// Pops the buffer around the open one.
fn pop_outer(outer: &mut Vec<String>) -> String
    requires { outer_view outer.old.items ≢ [] }
    ensures { outer_view outer.old.items ≡ string_bytes result ∷ outer_view outer.new.items }
{
    match outer.pop() {
        Some(buffer) => buffer,
        None => unreachable!(),
    }
}

// Returns a captured text as a value.
fn captured(text: String, marked: bool) -> Result<Value, NoMemory>
    ensures { IfOk result (λ v. view v
        ≡ (if marked then tree.markup (string_bytes text) else tree.text (string_bytes text))) }
{
    if marked {
        Value::from_markup(text)
    } else {
        Value::from_text(text)
    }
}

/// Closes the innermost capture and pushes its text, as markup if `marked` is true.
pub(crate) fn close_capture(state: &mut State, marked: bool) -> Result<Option<Outcome>, NoMemory>
    requires { IsReady (part.close_capture marked (config_view state.old)) state.old }
    // Allocates only if the text is within the limits.
    ensures { IsNext result state.new (part.close_capture marked (config_view state.old)) }
{
    state.stack.pop_capture();
    let around = pop_outer(&mut state.outer);
    if let Some(spent) = flat_limit(1 + state.buffer.len() as u64, &state.left) {
        return Ok(Some(Outcome::Spent(spent)));
    }
    let text = mem::replace(&mut state.buffer, around);
    push_checked(state, captured(text, marked)?)
}
