//! Unpacks a value: its items are pushed.
ghost use Rattle.std.specs.Prelude.{◌≡◌, ◌+◌, ◌-◌, ◌<◌, ◌≤◌, ◌^◌, length, min};
ghost use Rattle.std.specs.Prelude.{IfOk, IfSome, IfNone};
ghost use Rattle.std.specs.Prelude.{OnOk};
ghost use Rattle.std.specs.Str.{chars};
ghost use Rattle.jt_value.specs.ListItems.{listed};
ghost use Rattle.jt_value.specs.Tree as tree;
ghost use Rattle.jt_value.specs.Iteration.{character_items, items_of_tree};
ghost use Rattle.jt_value.specs.View.{view};
ghost use Rattle.jt_image.specs.Config.{Config};
ghost use Rattle.jt_image.specs.Loops.{trees_of};
ghost use Rattle.jt_image.specs.Step.{greatest, piled};
ghost use Rattle.jt_image.specs.Run.{Ends};
ghost use Rattle.jt_machine.specs.Activations.{with_running};
ghost use Rattle.jt_machine.specs.Entries.{values_view};
ghost use Rattle.jt_machine.specs.internal.Iterating.{AreFitting};
ghost use Rattle.jt_machine.specs.InstructionSteps as part;
ghost use Rattle.jt_machine.specs.View.{budget_view, config_view, IsNext, outcome_view, AreSized};
ghost use Rattle.jt_machine.specs.View.{IsReady};

use crate::charging::{pop_read, step_on};
use crate::entries::StackEntry;
use crate::items::{count_of, items_of};
use crate::maps::pop_last;
use crate::outcome::Outcome;
use crate::stack::Stack;
use crate::state::State;
use jt_budget::{Budget, Spent};
use jt_value::{Fault, ListItems, NoMemory, Value, ValueError};
use std::alloc::Global;

// Returns the greatest nesting of the values.
fn greatest_nesting(values: &[Value]) -> u32
    ensures { result ≡ min (greatest tree.nesting (values_view values.now)) (2 ^ 32 - 1) }
{
    let mut most = 0u32;
    'values: for value in values {
        most = most.max(value.nesting());
    }
    most
}

// Returns the greatest nesting of the items of a list.
#[tactic(auto, using(crate::proofs::UnpackCorrect::numbers_flat))]
fn greatest_item_nesting(items: ListItems<'_>) -> u32
    ensures { result ≡ min (greatest tree.nesting (trees_of (listed items.entry))) (2 ^ 32 - 1) }
{
    match items {
        ListItems::Values(values) => greatest_nesting(values),
        ListItems::Numbers(_) => 0,
    }
}

// Pushes all values, the last one uppermost.
fn push_all(stack: &mut Stack, values: Vec<Value>) -> Result<(), NoMemory>
    ensures { OnOk result
        (stack.new ≡ with_running (piled (values_view values.items) stack.old.running) stack.old) }
{
    let mut values = values;
    values.reverse();
    'values: while let Some(value) = pop_last(&mut values) {
        stack.push(StackEntry::Value(value))?;
    }
    Ok(())
}

// Returns the greatest nesting of the items of a value. Only a list has items that are nested.
#[tactic(auto, using(crate::proofs::UnpackCorrect::characters_flat, crate::proofs::UnpackCorrect::keys_flat))]
fn deepest_item(value: &Value) -> u32
    ensures { IfOk (items_of_tree (view value.now))
        (λ ts. result ≡ min (greatest tree.nesting (trees_of ts)) (2 ^ 32 - 1)) }
{
    match value {
        Value::List(list) => greatest_item_nesting(list.items()),
        _ => 0,
    }
}

// States that the characters of a text are no larger than the text; it executes nothing.
#[inline(always)]
fn characters_are_small(text: &str)
    ensures { greatest tree.size (trees_of (character_items (chars text.now)))
        ≤ 1 + length text.now }
{}

// States that the items of a value are no larger than the value; it executes nothing.
#[inline(always)]
#[tactic(auto, using(crate::proofs::UnpackCorrect::items_small, crate::proofs::UnpackCorrect::keys_small))]
fn items_are_small(value: &Value)
    ensures { IfOk (items_of_tree (view value.now))
        (λ ts. greatest tree.size (trees_of ts) ≤ tree.size (view value.now)) }
{
    match value {
        Value::Text(text) => characters_are_small(text.as_str()),
        Value::Markup(text) => characters_are_small(text.as_str()),
        _ => {}
    }
}

// Returns how the run ends if a value, which is within the limit of size, does not have `count`
// items within the limits. Nothing is built.
fn refusal(value: &Value, count: u32, budget: &Budget) -> Option<Outcome>
    requires { tree.size (view value.now) ≤ budget.now.size }
    ensures ends { IfSome result (λ o. (c : Config)
        → c.left ≡ budget_view budget.now
        → part.iterating (items_of_tree (view value.now)) (λ ts. part.spread count ts c)
        ≡ Ends (outcome_view o)) }
    ensures fits { IfNone result
        (AreFitting count (items_of_tree (view value.now)) (budget_view budget.now)) }
{
    items_are_small(value);
    match count_of(value) {
        Err(fault) => Some(Outcome::Fault(fault, None)),
        Ok(found) if found != count as usize => Some(Outcome::Fault(Fault::Unpack, None)),
        Ok(_) if deepest_item(value) > u32::from(budget.nesting) => {
            Some(Outcome::Spent(Spent::Nesting))
        }
        Ok(_) => None,
    }
}

// Pushes all values and goes on.
fn push_values(state: &mut State, values: Vec<Value>) -> Result<Option<Outcome>, NoMemory>
    requires { state.old.point + 1 < 2 ^ 64 }
    ensures { IsNext result state.new
        (part.piled_on (values_view values.items) (config_view state.old)) }
{
    push_all(&mut state.stack, values)?;
    Ok(step_on(state))
}

// Pushes the items of a value and goes on if it has `count` items, or returns how the run ends.
fn spread_items(
    alloc: Global,
    state: &mut State,
    count: u32,
    value: Value,
) -> Result<Option<Outcome>, NoMemory>
    requires room { state.old.point + 1 < 2 ^ 64 }
    requires sized { tree.size (view value) ≤ state.old.left.size }
    ensures { IsNext result state.new (part.iterating (items_of_tree (view value))
        (λ ts. part.spread count ts (config_view state.old))) }
{
    if let Some(outcome) = refusal(&value, count, &state.left) {
        return Ok(Some(outcome));
    }
    match items_of(alloc, value) {
        Ok(items) => push_values(state, items),
        Err(ValueError::Fault(fault)) => Ok(Some(Outcome::Fault(fault, None))),
        Err(ValueError::NoMemory) => Err(NoMemory),
    }
}

/// Pops a value and pushes its items, if it has `count` items.
pub(crate) fn unpack(
    alloc: Global,
    state: &mut State,
    count: u32,
) -> Result<Option<Outcome>, NoMemory>
    requires ready { IsReady (part.unpack count (config_view state.old)) state.old }
    requires sized { AreSized state.old }
    // Allocates only if the items are pushed.
    ensures { IsNext result state.new (part.unpack count (config_view state.old)) }
{
    match pop_read(state) {
        Ok(value) => spread_items(alloc, state, count, value),
        Err(outcome) => Ok(Some(outcome)),
    }
}
