//! Tests runs that stop and resume.

use crate::rows::{numbers, rows_hold};
use crate::source::verified_of;
use jt_args::DEFAULT;
use jt_budget::Budget;
use jt_image::decode;
use jt_machine::Machine;
use jt_value::{Context, Text, Value};
use jt_verify::verify;
use std::alloc::Global;
use std::test::Fail;

// The image that prints the global `n` if it is true, in five instructions.
const N: [u8; 67] = [
    0x4a, 0x54, 0x42, 0x43, 0x01, 0x00, 0x01, 0x00, 0x01, 0x00, 0x00, 0x00, 0x01, 0x00, 0x6e, 0x00,
    0x00, 0x01, 0x00, 0x00, 0x00, 0x00, 0x00, 0x05, 0x00, 0x00, 0x00, 0x04, 0x00, 0x00, 0x00, 0x00,
    0x00, 0x00, 0x00, 0x0b, 0x00, 0x00, 0x00, 0x04, 0x00, 0x00, 0x00, 0x04, 0x00, 0x00, 0x00, 0x00,
    0x00, 0x00, 0x00, 0x08, 0x00, 0x00, 0x00, 0x00, 0x00, 0x00, 0x00, 0x1c, 0x00, 0x00, 0x00, 0x00,
    0x00, 0x00, 0x00,
];

// Returns the context in which `n` is the text ab.
fn context(alloc: Global) -> Result<Context, Fail> {
    let name = Text::from_str(alloc, "n")?;
    let value = Value::text(alloc, "ab")?;
    let mut context = Context::new(alloc);
    match context.insert(name, value) {
        Ok(()) => Ok(context),
        Err(_) => Err(Fail::from("insert")),
    }
}

// Returns a machine of N under a budget.
fn machine(alloc: Global, budget: Budget) -> Result<Machine, Fail> {
    let context = context(alloc)?;
    let Ok(verified) = verify(alloc, decode(alloc, &N)?) else {
        return Err(Fail::from("verify"));
    };
    Machine::start(alloc, verified, &context, budget).map_err(|_| Fail::from("start"))
}

// Advances a machine twice. Returns both results, whether an outcome is lent then, and the outcome.
fn gone_on(alloc: Global, mut machine: Machine, first: u32, second: u32) -> Result<String, Fail> {
    let (first, second) = (machine.advance(first), machine.advance(second));
    let is_lent = machine.outcome().is_some() && !machine.is_lost();
    let (_, outcome) = machine.finish();
    Ok(format!(in alloc; "{first:?} {second:?} {is_lent} {outcome:?}")?)
}

// Runs the image `N`. A row is the fuel, the limit of size, and the instructions of the two
// advances.
fn advanced(alloc: Global, asked: &str) -> Result<String, Fail> {
    let [fuel, size, first, second] = numbers::<4>(asked)?;
    let budget = Budget {
        fuel: u64::from(fuel),
        depth: 64,
        output: 1_000,
        size,
        nesting: 32,
    };
    gone_on(alloc, machine(alloc, budget)?, first, second)
}

// Checks a run in two slices.
#[test]
fn a_run_is_sliced(rt: HostRuntime) -> Result<(), Fail> {
    rows_hold(
        &rt,
        advanced,
        r#"5 3 1 4 => Ok(Going) Ok(Done) true Some(Text("ab"))
        5 3 4 0 => Ok(Going) Ok(Going) false None
        5 3 0 9 => Ok(Going) Ok(Done) true Some(Text("ab"))
        5 3 9 9 => Ok(Done) Ok(Done) true Some(Text("ab"))
        4 3 4 1 => Ok(Going) Ok(Done) true Some(Spent(Fuel))
        0 3 0 1 => Ok(Going) Ok(Done) true Some(Spent(Fuel))
        5 2 0 0 => Ok(Done) Ok(Done) true Some(Spent(Size))"#,
    )
}

// Runs the source `x`, whose image has two instructions. A row is the fuel, and the instructions of
// the two advances.
fn advanced_of_source(alloc: Global, asked: &str) -> Result<String, Fail> {
    let [fuel, first, second] = numbers::<3>(asked)?;
    let budget = Budget {
        fuel: u64::from(fuel),
        ..DEFAULT
    };
    match Machine::start(
        alloc,
        verified_of(alloc, "x")?,
        &Context::new(alloc),
        budget,
    ) {
        Ok(machine) => gone_on(alloc, machine, first, second),
        Err(_) => Err(Fail::from("start")),
    }
}

#[test]
fn a_run_of_two_instructions_is_sliced(rt: HostRuntime) -> Result<(), Fail> {
    rows_hold(
        &rt,
        advanced_of_source,
        r#"2 1 1 => Ok(Going) Ok(Done) true Some(Text("x"))
        1 1 1 => Ok(Going) Ok(Done) true Some(Spent(Fuel))
        0 0 1 => Ok(Going) Ok(Done) true Some(Spent(Fuel))
        2 1 0 => Ok(Going) Ok(Going) false None
        2 9 1 => Ok(Done) Ok(Done) true Some(Text("x"))"#,
    )
}
