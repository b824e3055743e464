//! Starts a run: checks the context and fills the globals.
ghost use Rattle.std.specs.Prelude.{◌≡◌, ◌+◌, ◌<◌, ◌^◌, IfOk, OnOk, OnErr, length, option_map};
ghost use Rattle.std.specs.Prelude.{slice_set, unwrap_or, replicate};
ghost use Rattle.jt_value.specs.Tree as tree;
ghost use Rattle.jt_value.specs.View.{view};
ghost use Rattle.jt_value.specs.Pairs.{look};
ghost use Rattle.jt_value.specs.ContextView.{pairs_of};
ghost use Rattle.jt_image.specs.Run.{limit_of_named, passed, filled};
ghost use Rattle.jt_image.specs.Run.{entry_locals as entry_locals_of, start as start_of};
ghost use Rattle.jt_machine.specs.Entries.{values_view};
ghost use Rattle.jt_machine.specs.Growing.{HasTables};
ghost use Rattle.jt_machine.specs.View.{budget_view, limit_view, config_view};

use crate::limits::exceeded_limit;
use crate::stack::Stack;
use crate::state::State;
use jt_budget::{Budget, Spent};
use jt_image::Code;
use jt_value::{Context, NoMemory, Value};
use std::alloc::Global;

// Returns the limit that the value of a name exceeds. A name that the context lacks exceeds none.
fn named_limit(name: &str, context: &Context, budget: &Budget) -> Option<Spent>
    ensures { option_map limit_view result
        ≡ limit_of_named (budget_view budget.now) (look name.now (pairs_of context.now)) }
{
    match context.get(name) {
        Some(value) => exceeded_limit(value, budget),
        None => None,
    }
}

/// Returns the first limit that a value of the context exceeds, in the order of the code's names.
pub(crate) fn context_limit<C: Code>(code: &C, context: &Context, budget: &Budget) -> Option<Spent>
    ensures { option_map limit_view result
        ≡ passed (budget_view budget.now) (pairs_of context.now) (C.code code.now).names }
{
    'names: for i in 0..code.names() {
        let Some((_, name)) = code.name(i) else {
            unreachable!()
        };
        if let Some(spent) = named_limit(name, context, budget) {
            return Some(spent);
        }
    }
    None
}

// Returns a copy of the value of a name, or undefined.
fn named_value(alloc: Global, name: &str, context: &Context) -> Result<Value, NoMemory>
    ensures { IfOk result
        (λ v. view v ≡ unwrap_or (look name.now (pairs_of context.now)) tree.undefined) }
{
    match context.get(name) {
        Some(value) => value.try_clone(alloc),
        None => Ok(Value::Undefined),
    }
}

// Fills the slot of a name.
fn fill(
    alloc: Global,
    globals: &mut Vec<Value>,
    slot: u16,
    name: &str,
    context: &Context,
) -> Result<(), NoMemory>
    ensures { OnOk result (values_view globals.new.items
        ≡ slice_set (values_view globals.old.items) slot
        (unwrap_or (look name.now (pairs_of context.now)) tree.undefined)) }
{
    let slot = usize::from(slot);
    let value = named_value(alloc, name, context)?;
    if slot < globals.len() {
        globals[slot] = value;
    }
    Ok(())
}

fn undefined_values(alloc: Global, count: u16) -> Result<Vec<Value>, NoMemory>
    ensures values { IfOk result (λ vs. values_view vs.items ≡ replicate count tree.undefined) }
    ensures memory { OnErr result (0 < count) }
{
    let mut values = Vec::new(alloc);
    'values: for _ in 0..count {
        values.push(Value::Undefined)?;
    }
    Ok(values)
}

// Returns the globals: the context's values by their names, and undefined for all others.
fn globals_of<C: Code>(alloc: Global, code: &C, context: &Context) -> Result<Vec<Value>, NoMemory>
    ensures values { IfOk result (λ gs. values_view gs.items
        ≡ filled (pairs_of context.now) (C.code code.now).names
        (replicate (C.code code.now).globals tree.undefined)) }
    ensures memory { OnErr result
        (0 < length (C.code code.now).names + (C.code code.now).globals) }
{
    let mut globals = undefined_values(alloc, code.globals())?;
    'names: for i in 0..code.names() {
        let Some((slot, name)) = code.name(i) else {
            unreachable!()
        };
        fill(alloc, &mut globals, slot, name, context)?;
    }
    Ok(globals)
}

// Returns the number of locals of unit 0.
fn entry_locals<C: Code>(code: &C) -> u16
    ensures { result ≡ entry_locals_of (C.code code.now).units }
{
    match code.unit(0) {
        Some(header) => header.locals,
        None => 0,
    }
}

/// Returns the state at unit 0, before its first instruction.
pub(crate) fn start<C: Code>(
    alloc: Global,
    code: &C,
    context: &Context,
    budget: Budget,
) -> Result<State, NoMemory>
    ensures state { IfOk result (λ s.
        config_view s ≡ start_of (C.code code.now) (pairs_of context.now) (budget_view budget)) }
    ensures depth { IfOk result (λ s. s.left.depth + length s.stack.callers < 2 ^ 32) }
    // Only the tables are allocated.
    ensures memory { OnErr result (HasTables (C.code code.now)) }
{
    // The prover needs this read, which shows that the depth has 32 bits.
    let _depth = budget.depth;
    let locals = undefined_values(alloc, entry_locals(code))?;
    let globals = globals_of(alloc, code, context)?;
    Ok(State {
        unit: 0,
        point: 0,
        stack: Stack::new(alloc),
        locals,
        globals,
        buffer: String::new(alloc),
        outer: Vec::new(alloc),
        left: budget,
    })
}
