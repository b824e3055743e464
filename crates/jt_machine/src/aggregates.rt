//! Executes instructions that make one value from several: operators, filters, tests, lists and
//! maps.
ghost use Rattle.std.specs.Prelude.{◌≡◌, ◌≤◌, ◌+◌, ◌<◌, ◌^◌, ◌∷◌, [], true, length, map, take};
ghost use Rattle.std.specs.Prelude.{List, Result, None, Ok, IfOk, OnOk};
ghost use Rattle.std.specs.List.{list_all};
ghost use Rattle.jt_value.specs.Tree as tree;
ghost use Rattle.jt_value.specs.Tree.{Tree};
ghost use Rattle.jt_value.specs.View.{view, items_of};
ghost use Rattle.jt_value.specs.declared.fault.Fault.{Fault};
ghost use Rattle.jt_ops.specs.Limited.{limited, limited_by, Answers};
ghost use Rattle.jt_op_semantics.specs.Operation.{operation};
ghost use Rattle.jt_ids.specs.OpTable.{op_operands};
ghost use Rattle.jt_op_semantics.specs.Testing.{tested as tested_of};
ghost use Rattle.jt_ops.specs.Limited.{as_answer};
ghost use Rattle.jt_ids.specs.TestTable.{test_values};
ghost use Rattle.jt_image.specs.Ids.{operator_of, filter_of, test_of};
ghost use Rattle.jt_filter_semantics.specs.Filtering.{filtered as filtered_of};
ghost use Rattle.jt_op_semantics.specs.Testing.{is_text};
ghost use Rattle.jt_image.specs.Step.{keys_of, listed, mapped};
ghost use Rattle.jt_image.specs.Run.{limit_of};
ghost use Rattle.jt_machine.specs.Activations.{with_running};
ghost use Rattle.jt_machine.specs.internal.Operations as operations;
ghost use Rattle.jt_machine.specs.InstructionSteps as part;
ghost use Rattle.jt_machine.specs.View.{budget_view, config_view, IsNext, continues};
ghost use Rattle.jt_machine.specs.View.{HasValues, IsReady, IsBounded};

use crate::charging::{charge_fuel, push_checked};
use crate::limits::list_limit;
use crate::maps::{map_of, map_refusal};
use crate::measure::sizes;
use crate::outcome::Outcome;
use crate::stack::Stack;
use crate::state::State;
use jt_budget::{Budget, Spent};
use jt_filters::{
    FilterId, Limits, OpError, OpId, TestId, apply, binary_owned, range, test, unary,
};
use jt_ops::within;
use jt_value::{NoMemory, Value};
use std::alloc::Global;
use std::array::from_fn;

// Pops `count` values and returns them, the deepest first.
pub(crate) fn take_values(
    alloc: Global,
    stack: &mut Stack,
    count: usize,
) -> Result<Vec<Value>, NoMemory>
    requires { HasValues count stack.old.running }
    ensures values { IfOk result
        (λ vs. part.values_at count stack.old.running ≡ map view vs.items) }
    ensures taken { OnOk result
        (stack.new ≡ with_running (part.below count stack.old.running) stack.old) }
{
    let mut values = Vec::new(alloc);
    'values: for _ in 0..count {
        values.push(stack.pop())?;
    }
    values.reverse();
    Ok(values)
}

// Charges the additional fuel for an instruction that reads the top `count` values whole. Returns
// the outcome if the fuel does not suffice. The values stay on the stack.
fn charge_for_values(state: &mut State, count: usize) -> Option<Outcome>
    requires has { HasValues count state.old.stack.running }
    requires bounded { IsBounded state.old }
    ensures rest { (f : List Tree → Result Tree Fault)
        → part.make count f (config_view state.old)
        ≡ continues result state.new (part.made count f) }
    ensures same { state.new ≡ record state.old { left = state.new.left } }
    ensures has { HasValues count state.new.stack.running }
{
    // The prover needs this read, which shows that the limit has 32 bits. So the sum of the sizes
    // is exact.
    let _size = state.left.size;
    let total = sizes(state.stack.top_entries(count));
    charge_fuel(state, total / 64)
}

/// Pushes the result of an operation and goes on, or returns how the run ends.
pub(crate) fn push_answer(
    state: &mut State,
    answer: Result<Value, OpError>,
) -> Result<Option<Outcome>, NoMemory>
    requires room { state.old.point + 1 < 2 ^ 64 }
    requires fits { IfOk answer (λ v. limit_of (budget_view state.old.left) (view v) ≡ None) }
    ensures { (r : Result Tree Fault)
        → Answers answer (limited state.old.left.size state.old.left.nesting r)
        → IsNext result state.new
        (part.answering r (λ t. part.push t (config_view state.old) part.step_on)) }
{
    match answer {
        Ok(value) => push_checked(state, value),
        Err(OpError::Fault(fault)) => Ok(Some(Outcome::Fault(fault, None))),
        Err(OpError::TooLarge) => Ok(Some(Outcome::Spent(Spent::Size))),
        Err(OpError::TooDeep) => Ok(Some(Outcome::Spent(Spent::Nesting))),
        Err(OpError::NoMemory) => Err(NoMemory),
    }
}

// Pops the top value.
#[tactic(auto, using(crate::proofs::PoppedValues::more_is, crate::proofs::PoppedValues::one_taken))]
fn pop_one(stack: &mut Stack) -> Value
    requires { HasValues 1 stack.old.running }
    ensures values { part.values_at 1 stack.old.running ≡ view result ∷ [] }
    ensures taken { stack.new ≡ with_running (part.below 1 stack.old.running) stack.old }
{
    stack.pop()
}

// Pops two values and returns them, the deeper one first.
#[tactic(auto, using(crate::proofs::PoppedValues::more_is, crate::proofs::PoppedValues::one_taken))]
fn pop_two(stack: &mut Stack) -> (Value, Value)
    requires { HasValues 2 stack.old.running }
    ensures values { part.values_at 2 stack.old.running ≡ view result.0 ∷ view result.1 ∷ [] }
    ensures taken { stack.new ≡ with_running (part.below 2 stack.old.running) stack.old }
{
    let last = stack.pop();
    let first = stack.pop();
    (first, last)
}

// Pops three values and returns them, the deepest first.
#[tactic(auto, using(crate::proofs::PoppedValues::more_is, crate::proofs::PoppedValues::one_taken))]
fn pop_three(stack: &mut Stack) -> (Value, Value, Value)
    requires { HasValues 3 stack.old.running }
    ensures values { part.values_at 3 stack.old.running
        ≡ view result.0 ∷ view result.1 ∷ view result.2 ∷ [] }
    ensures taken { stack.new ≡ with_running (part.below 3 stack.old.running) stack.old }
{
    let last = stack.pop();
    let second = stack.pop();
    let first = stack.pop();
    (first, second, last)
}

// Pops the operands of an operator and returns its result.
fn operated(
    alloc: Global,
    operator: OpId,
    stack: &mut Stack,
    limits: Limits,
) -> Result<Value, OpError>
    requires { HasValues (op_operands operator) stack.old.running }
    ensures answers { Answers result (limited_by limits
        (operation operator (part.values_at (op_operands operator) stack.old.running))) }
    ensures taken { stack.new
        ≡ with_running (part.below (op_operands operator) stack.old.running) stack.old }
{
    let count = operator.operands();
    if count == 1 {
        let operand = pop_one(stack);
        return unary(alloc, operator, &operand, limits);
    }
    if count == 2 {
        let (left, right) = pop_two(stack);
        return binary_owned(alloc, operator, left, right, limits);
    }
    let (start, stop, step) = pop_three(stack);
    range(alloc, &[start, stop, step], limits)
}

/// Returns the limits that a budget sets for values.
pub(crate) fn limits_of(budget: &Budget) -> Limits
    ensures { result ≡ record { size = budget.now.size; nesting = budget.now.nesting } }
{
    Limits {
        size: budget.size,
        nesting: budget.nesting,
    }
}

// A call of a filter: the filter, its number of values, and whether it escapes.
#[derive(Clone, Copy)]
struct FilterCall {
    filter: FilterId,
    count: usize,
    escaping: bool,
}

// Pops the values of a filter call and returns its result.
fn filtered(
    alloc: Global,
    call: FilterCall,
    stack: &mut Stack,
    limits: Limits,
) -> Result<Value, OpError>
    requires has { HasValues call.count stack.old.running }
    requires takes { operations.TakesCount call }
    ensures answers { Answers result (limited_by limits
        (filtered_of call.filter call.escaping (part.values_at call.count stack.old.running))) }
    ensures taken { stack.new ≡ with_running (part.below call.count stack.old.running) stack.old }
{
    let FilterCall {
        filter,
        count,
        escaping,
    } = call;
    if count == 1 {
        let value = pop_one(stack);
        return apply(alloc, filter, &[value], escaping, limits);
    }
    if count == 2 {
        let (value, argument) = pop_two(stack);
        return apply(alloc, filter, &[value, argument], escaping, limits);
    }
    if count == 3 {
        let (value, first, second) = pop_three(stack);
        return apply(alloc, filter, &[value, first, second], escaping, limits);
    }
    filtered_many(alloc, call, stack, limits)
}

// Applies a filter to any number of values. They are held in an array of the greatest arity, so
// nothing is allocated for them.
#[inline(never)]
fn filtered_many(
    alloc: Global,
    call: FilterCall,
    stack: &mut Stack,
    limits: Limits,
) -> Result<Value, OpError>
    requires has { HasValues call.count stack.old.running }
    requires takes { operations.TakesCount call }
    ensures answers { Answers result (limited_by limits
        (filtered_of call.filter call.escaping (part.values_at call.count stack.old.running))) }
    ensures taken { stack.new ≡ with_running (part.below call.count stack.old.running) stack.old }
{
    let mut row: [Value; 255] = from_fn(|_| Value::Undefined);
    fill_row(stack, &mut row, call.count);
    apply(
        alloc,
        call.filter,
        &row[..call.count],
        call.escaping,
        limits,
    )
}

// Pops `count` values into the first elements of `row`, the deepest first.
fn fill_row(stack: &mut Stack, row: &mut [Value], count: usize)
    requires has { HasValues count stack.old.running }
    requires room { count ≤ length row.old }
    ensures values { map view (take count row.new) ≡ part.values_at count stack.old.running }
    ensures taken { stack.new ≡ with_running (part.below count stack.old.running) stack.old }
    ensures len { length row.new ≡ length row.old }
{
    'values: for taken in 0..count {
        row[count - 1 - taken] = stack.pop();
    }
}

// Pops the values of a test and returns whether it holds.
fn tested(id: TestId, stack: &mut Stack, count: usize) -> Result<bool, OpError>
    requires has { HasValues count stack.old.running }
    requires many { count ≡ test_values id }
    ensures answer { result ≡ as_answer (tested_of id (part.values_at count stack.old.running)) }
    ensures taken { stack.new ≡ with_running (part.below count stack.old.running) stack.old }
{
    if count == 1 {
        let value = pop_one(stack);
        return test(id, &[value]);
    }
    let (value, argument) = pop_two(stack);
    test(id, &[value, argument])
}

// An operation on the values at the top: an operator, a call of a filter, or a test with its number
// of values.
#[derive(Clone, Copy)]
enum Operation {
    Operator(OpId),
    Filter(FilterCall),
    Test(TestId, usize),
}

// Returns the number of values that an operation takes.
#[inline(always)]
fn count_of(operation: Operation) -> usize
    ensures { result ≡ operations.count_of operation }
{
    match operation {
        Operation::Operator(operator) => operator.operands(),
        Operation::Filter(call) => call.count,
        Operation::Test(_, count) => count,
    }
}

// Pops the values of an operation and returns its result.
#[inline(always)]
fn result_of(
    alloc: Global,
    operation: Operation,
    stack: &mut Stack,
    limits: Limits,
) -> Result<Value, OpError>
    requires has { HasValues (operations.count_of operation) stack.old.running }
    requires callable { operations.IsCallable operation }
    ensures answers { Answers result (limited_by limits
        (operations.result_of operation
        (part.values_at (operations.count_of operation) stack.old.running))) }
    ensures taken { stack.new
        ≡ with_running (part.below (operations.count_of operation) stack.old.running) stack.old }
{
    match operation {
        Operation::Operator(operator) => operated(alloc, operator, stack, limits),
        Operation::Filter(call) => filtered(alloc, call, stack, limits),
        Operation::Test(id, count) => within(Value::Bool(tested(id, stack, count)?), limits),
    }
}

// Replaces the values of an operation by its result.
#[inline(always)]
fn perform(
    alloc: Global,
    state: &mut State,
    operation: Operation,
) -> Result<Option<Outcome>, NoMemory>
    requires ready { IsReady
        (part.make (operations.count_of operation) (operations.result_of operation)
        (config_view state.old)) state.old }
    requires callable { operations.IsCallable operation }
    requires bounded { IsBounded state.old }
    // Allocates only if the result is within the limits.
    ensures { IsNext result state.new
        (part.make (operations.count_of operation) (operations.result_of operation)
        (config_view state.old)) }
{
    if let Some(outcome) = charge_for_values(state, count_of(operation)) {
        return Ok(Some(outcome));
    }
    let limits = limits_of(&state.left);
    let answer = result_of(alloc, operation, &mut state.stack, limits);
    push_answer(state, answer)
}

/// Pops the operands of an operator and pushes its result.
pub(crate) fn operate(alloc: Global, state: &mut State, id: u8) -> Result<Option<Outcome>, NoMemory>
    requires ready { IsReady (part.operate id (config_view state.old)) state.old }
    requires bounded { IsBounded state.old }
    ensures { IsNext result state.new (part.operate id (config_view state.old)) }
{
    let Some(operator) = operator_by(id) else {
        unreachable!()
    };
    perform(alloc, state, Operation::Operator(operator))
}

/// Pops `count` values, the input deepest, and pushes the result of a filter. The filter escapes if
/// `flag` is 1.
pub(crate) fn apply_filter(
    alloc: Global,
    state: &mut State,
    id: u8,
    count: usize,
    flag: u32,
) -> Result<Option<Outcome>, NoMemory>
    requires ready { IsReady (part.apply_filter id count flag (config_view state.old)) state.old }
    requires bounded { IsBounded state.old }
    ensures { IsNext result state.new (part.apply_filter id count flag (config_view state.old)) }
{
    let Some(filter) = filter_by(id) else {
        unreachable!()
    };
    let call = FilterCall {
        filter,
        count,
        escaping: flag == 1,
    };
    perform(alloc, state, Operation::Filter(call))
}

/// Pops `count` values, the tested one deepest, and pushes whether the test holds.
pub(crate) fn apply_test(
    alloc: Global,
    state: &mut State,
    id: u8,
    count: usize,
) -> Result<Option<Outcome>, NoMemory>
    requires ready { IsReady (part.apply_test id count (config_view state.old)) state.old }
    requires bounded { IsBounded state.old }
    ensures { IsNext result state.new (part.apply_test id count (config_view state.old)) }
{
    let Some(test) = test_by(id) else {
        unreachable!()
    };
    perform(alloc, state, Operation::Test(test, count))
}

// Pops `count` values and returns their list.
fn list_of(alloc: Global, stack: &mut Stack, count: usize) -> Result<Value, NoMemory>
    requires { HasValues count stack.old.running }
    ensures list { IfOk result
        (λ v. view v ≡ tree.list (items_of (part.values_at count stack.old.running))) }
    ensures taken { OnOk result
        (stack.new ≡ with_running (part.below count stack.old.running) stack.old) }
{
    let values = take_values(alloc, stack, count)?;
    Ok(Value::list(alloc, values)?)
}

/// Pops `count` values and pushes their list.
pub(crate) fn make_list(
    alloc: Global,
    state: &mut State,
    count: usize,
) -> Result<Option<Outcome>, NoMemory>
    requires ready { IsReady (part.make count listed (config_view state.old)) state.old }
    requires bounded { IsBounded state.old }
    // Allocates only if the list is within the limits.
    ensures { IsNext result state.new (part.make count listed (config_view state.old)) }
{
    if let Some(outcome) = charge_for_values(state, count) {
        return Ok(Some(outcome));
    }
    if let Some(spent) = list_limit(state.stack.top_entries(count), &state.left) {
        return Ok(Some(Outcome::Spent(spent)));
    }
    let list = list_of(alloc, &mut state.stack, count)?;
    push_checked(state, list)
}

// Pops `count` values, alternately a key and its value, and returns their map.
fn map_on_top(alloc: Global, stack: &mut Stack, count: usize) -> Result<Value, NoMemory>
    requires has { HasValues count stack.old.running }
    requires texts { list_all is_text (keys_of (part.values_at count stack.old.running)) ≡ true }
    ensures map { IfOk result (λ v. mapped (part.values_at count stack.old.running) ≡ Ok (view v)) }
    ensures taken { OnOk result
        (stack.new ≡ with_running (part.below count stack.old.running) stack.old) }
{
    let values = take_values(alloc, stack, count)?;
    Ok(map_of(alloc, values)?)
}

/// Pops `count` values, alternately a key and its value, and pushes their map.
pub(crate) fn make_map(
    alloc: Global,
    state: &mut State,
    count: usize,
) -> Result<Option<Outcome>, NoMemory>
    requires ready { IsReady (part.make count mapped (config_view state.old)) state.old }
    requires bounded { IsBounded state.old }
    // Allocates only if the map is within the limits.
    ensures { IsNext result state.new (part.make count mapped (config_view state.old)) }
{
    if let Some(outcome) = charge_for_values(state, count) {
        return Ok(Some(outcome));
    }
    if let Some(outcome) = map_refusal(state.stack.top_entries(count), &state.left) {
        return Ok(Some(outcome));
    }
    let map = map_on_top(alloc, &mut state.stack, count)?;
    push_checked(state, map)
}

/// Returns the operator of an id.
pub(crate) fn operator_by(id: u8) -> Option<OpId>
    ensures { result ≡ operator_of id }
{
    OpId::by_id(id)
}

// Returns the filter of an id.
fn filter_by(id: u8) -> Option<FilterId>
    ensures { result ≡ filter_of id }
{
    FilterId::by_id(id)
}

/// Returns the test of an id.
pub(crate) fn test_by(id: u8) -> Option<TestId>
    ensures { result ≡ test_of id }
{
    TestId::by_id(id)
}
