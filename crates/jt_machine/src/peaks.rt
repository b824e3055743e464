//! Finds the greatest size and nesting of the values that a run tests against its budget.
ghost use Rattle.std.specs.Prelude.{◌≡◌, ◌<◌, ◌≤◌, ◌^◌, ◌∷◌, [], IfSome, None};
ghost use Rattle.jt_value.specs.Tree.{size as tree_size, nesting as tree_nesting};
ghost use Rattle.jt_value.specs.View.{view};
ghost use Rattle.jt_value.specs.Pairs.{look};
ghost use Rattle.jt_value.specs.ContextView.{pairs_of};
ghost use Rattle.jt_image.specs.IsCode.{IsCode};
ghost use Rattle.jt_image.specs.Readers.{instruction_at};
ghost use Rattle.jt_image.specs.Run.{limit_of, limit_of_named, passed};
ghost use Rattle.jt_image.specs.Step.{greatest};
ghost use Rattle.jt_machine.specs.ConstantCache.{AreCached};
ghost use Rattle.jt_machine.specs.Entries.{all_held};
ghost use Rattle.jt_machine.specs.InstructionSteps as part;
ghost use Rattle.jt_machine.specs.Metering.{named_values, with_found};
ghost use Rattle.jt_machine.specs.View.{budget_view, HasValues};
ghost use Rattle.jt_machine.specs.internal.Peaks.{HasRunBelow, pushed_there, pushed_of, no_peak};
ghost use Rattle.jt_machine.specs.internal.Peaks.{has_result_at, risen};

use crate::entries::StackEntry;
use crate::fast_path::{Stopped, run_fast};
use crate::measure::{deepest_held, largest_held};
use crate::state::State;
use crate::step::instruction_here;
use jt_budget::Budget;
use jt_image::{Code, Instruction};
use jt_value::{Context, Value};

/// The greatest size and the greatest nesting of some values, or 0 of no value.
#[derive(Clone, Copy)]
pub(crate) struct Peak {
    pub(crate) size: u32,
    pub(crate) nesting: u8,
}

impl Peak {
    // Returns the peak of these values and of the values in `entries`.
    #[tactic(auto, using(crate::proofs::PeaksAddUp::risen_by))]
    fn over(self, entries: &[StackEntry]) -> Peak
        requires size { greatest tree_size (all_held entries.now) < 2 ^ 32 }
        requires nesting { greatest tree_nesting (all_held entries.now) < 2 ^ 8 }
        ensures { result ≡ risen self (all_held entries.now) }
    {
        Peak {
            size: self.size.max(largest_held(entries) as u32),
            nesting: self.nesting.max(deepest_held(entries) as u8),
        }
    }
}

/// Returns the peak of the values of the context that the code names. None of them exceeds a limit
/// of the budget.
pub(crate) fn context_peak<C: Code>(code: &C, context: &Context, budget: &Budget) -> Peak
    requires { passed (budget_view budget.now) (pairs_of context.now) (C.code code.now).names
        ≡ None }
    ensures { result
        ≡ risen no_peak (named_values (pairs_of context.now) (C.code code.now).names) }
{
    let mut peak = Peak {
        size: 0,
        nesting: 0,
    };
    'names: for i in 0..code.names() {
        let Some((_, name)) = code.name(i) else {
            unreachable!()
        };
        peak = named_peak(peak, name, context, budget);
    }
    peak
}

// Returns the peak of these values and of the value of a name, if the context has it. The value
// exceeds no limit of the budget.
#[tactic(auto, using(crate::proofs::PeaksAddUp::risen_none))]
fn named_peak(peak: Peak, name: &str, context: &Context, budget: &Budget) -> Peak
    requires { limit_of_named (budget_view budget.now) (look name.now (pairs_of context.now))
        ≡ None }
    ensures { result ≡ risen peak (with_found (look name.now (pairs_of context.now)) []) }
{
    match context.get(name) {
        Some(value) => peak_with(peak, value, budget),
        None => peak,
    }
}

// Returns the peak of these values and of a value that exceeds no limit of the budget.
#[tactic(auto, using(crate::proofs::PeaksAddUp::limits_kept, crate::proofs::PeaksAddUp::risen_by))]
fn peak_with(peak: Peak, value: &Value, budget: &Budget) -> Peak
    requires { limit_of (budget_view budget.now) (view value.now) ≡ None }
    ensures { result ≡ risen peak (view value.now ∷ []) }
{
    // The prover needs these reads, which show that the limits have 32 and 8 bits.
    let _size = budget.size;
    let _nesting = budget.nesting;
    Peak {
        size: peak.size.max(value.size() as u32),
        nesting: peak.nesting.max(value.nesting() as u8),
    }
}

/// Runs the fast path for at most `most` instructions, as long as no value exceeds the peak. So the
/// values that it pushes need no measuring.
pub(crate) fn run_below<C: Code>(
    code: &C,
    made: &[(u32, Value)],
    state: &mut State,
    peak: Peak,
    most: u64,
) -> Stopped
    requires whole { IsCode (C.code code.now) }
    requires made { AreCached (C.code code.now) made.now }
    requires size { peak.size ≤ state.old.left.size }
    requires nesting { peak.nesting ≤ state.old.left.nesting }
    ensures gone { HasRunBelow (C.code code.now) most result.left peak state.old state.new }
    ensures prefetched { IfSome result.prefetched
        (λ i. instruction_at (C.code code.now) state.new.unit state.new.point ≡ Some i) }
{
    let Budget { size, nesting, .. } = state.left;
    state.left.size = peak.size;
    state.left.nesting = peak.nesting;
    let stopped = run_fast(code, made, state, most);
    state.left.size = size;
    state.left.nesting = nesting;
    stopped
}

/// Returns the number of values that the instruction at the point pushes. `prefetched` is this
/// instruction, if it was read already.
pub(crate) fn pushed_here<C: Code>(
    code: &C,
    state: &State,
    prefetched: Option<Instruction>,
) -> usize
    requires { IfSome prefetched
        (λ i. instruction_at (C.code code.now) state.now.unit state.now.point ≡ Some i) }
    ensures { result ≡ pushed_there (C.code code.now) state.now.unit state.now.point }
{
    match instruction_here(code, state, prefetched) {
        Some(instruction) => pushed_by(instruction, has_result(code, state.unit)),
        None => 0,
    }
}

// Returns whether a unit has a result.
#[tactic(auto, using(crate::proofs::PeaksAddUp::kind_is))]
fn has_result<C: Code>(code: &C, unit: usize) -> bool
    ensures { result ≡ has_result_at (C.code code.now) unit }
{
    match code.unit(unit) {
        Some(header) => header.kind != 0,
        None => false,
    }
}

// Returns the number of values that an instruction pushes. A return pushes one if `gives` is true.
fn pushed_by(instruction: Instruction, gives: bool) -> usize
    ensures { result ≡ pushed_of gives instruction }
{
    match instruction {
        Instruction::Const { .. }
        | Instruction::Load { .. }
        | Instruction::GLoad { .. }
        | Instruction::Dup
        | Instruction::Op { .. }
        | Instruction::Filter { .. }
        | Instruction::Test { .. }
        | Instruction::MakeList { .. }
        | Instruction::MakeMap { .. }
        | Instruction::LoopGet { .. }
        | Instruction::LoopEnd
        | Instruction::CaptureEnd { .. } => 1,
        Instruction::Unpack { values } => values as usize,
        Instruction::Return => usize::from(gives),
        _ => 0,
    }
}

/// Returns the peak of these values and of the `count` values at the top of the stack, of which
/// none exceeds a limit.
pub(crate) fn peak_after(peak: Peak, state: &State, count: usize) -> Peak
    requires has { HasValues count state.now.stack.running }
    requires size { greatest tree_size (part.values_at count state.now.stack.running)
        ≤ state.now.left.size }
    requires nesting { greatest tree_nesting (part.values_at count state.now.stack.running)
        ≤ state.now.left.nesting }
    ensures { result ≡ risen peak (part.values_at count state.now.stack.running) }
{
    // The prover needs these reads, which show that the limits have 32 and 8 bits.
    let _size = state.left.size;
    let _nesting = state.left.nesting;
    peak.over(state.stack.top_entries(count))
}
