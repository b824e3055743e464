//! Runs a shared image in slices, and counts what the run uses of its budget.
ghost use Rattle.std.specs.Prelude.{◌≡◌, ◌<◌, None, IfOk, IfErr, OnOk, OnErr, option_map};
ghost use Rattle.std.specs.Prelude.{option_copied, Some, IfNone, ◌+◌, ◌^◌, ◌≤◌};
ghost use Rattle.std.specs.Arc.{arc_value};
ghost use Rattle.jt_value.specs.Pairs.{Pairs};
ghost use Rattle.jt_value.specs.ContextView.{pairs_of};
ghost use Rattle.jt_image.specs.IsCode.{IsCode};
ghost use Rattle.jt_image.specs.Typed.{IsTyped};
ghost use Rattle.jt_image.specs.Config as config;
ghost use Rattle.jt_image.specs.Run.{IsSafe, after, passed};
ghost use Rattle.jt_machine.specs.Growing.{ComesToGrow, HasTables};
ghost use Rattle.jt_machine.specs.Session.{led, stage_progress, started};
ghost use Rattle.jt_machine.specs.StageView.{stage_view, IsReached, IsUnderway};
ghost use Rattle.jt_machine.specs.View.{budget_view, config_view, next_view, outcome_view};
ghost use Rattle.jt_machine.specs.ConstantCache.{AreCached};
ghost use Rattle.jt_machine.specs.Metering.{MeteringLaws, used_within, nothing_used, together};
ghost use Rattle.jt_machine.specs.Metering.{named_values, start_use};
ghost use Rattle.jt_machine.specs.Metering.{prints_undefined as prints_undefined_at};
ghost use Rattle.jt_machine.specs.MeterRoom.{LeavesRoom};
ghost use Rattle.jt_machine.specs.internal.Meters.{end_cost as end_cost_of, used_up};
ghost use Rattle.jt_machine.specs.internal.Peaks.{peak_of, with_peak};
ghost use Rattle.jt_machine.specs.View.{place_view};

use crate::constants::ConstantCache;
use crate::fault_place::place_at;
use crate::machine::Stage;
use crate::outcome::{Outcome, Place, Progress};
use crate::peaks::{Peak, context_peak, peak_after, pushed_here, run_below};
use crate::start::{context_limit, start};
use crate::state::State;
use crate::step::step;
use jt_budget::Budget;
use jt_image::{Code, Instruction, code_laws};
use jt_value::{Context, NoMemory, Value};
use jt_verify::Verified;
use std::alloc::Global;
use std::marker::Model;
use std::mem;
use std::sync::Arc;

/// The resources that a run has used.
#[derive(Clone, Copy, Debug, PartialEq, Eq)]
pub struct Used {
    /// The sum of the costs of the executed instructions. An instruction that ends the run by a
    /// fault, or since a number of the budget does not suffice, counts nothing.
    pub fuel: u64,
    /// The number of bytes that were written to output buffers, captures included.
    pub output: u64,
    /// The greatest number of calls that were open at one time.
    pub depth: u32,
    /// The greatest size of a value that was tested against its limit, and 0 if none was. These are
    /// the values of the context that the code names and the values that instructions push. The
    /// value that exceeds a limit counts nothing.
    pub size: u32,
    /// The greatest nesting of these values.
    pub nesting: u8,
}

impl Used {
    /// Returns the use of a run that ends before its first instruction.
    fn nothing() -> Used
        ensures { result ≡ nothing_used }
    {
        Used {
            fuel: 0,
            output: 0,
            depth: 0,
            size: 0,
            nesting: 0,
        }
    }

    /// Returns the use of a run before its first instruction, if its context has this peak.
    fn at_start(peak: Peak) -> Used
        ensures { result
            ≡ record nothing_used { size = peak.size; nesting = peak.nesting } }
    {
        Used {
            size: peak.size,
            nesting: peak.nesting,
            ..Used::nothing()
        }
    }

    /// Returns the greatest size and nesting.
    fn peak(&self) -> Peak
        ensures { result ≡ peak_of self.now }
    {
        Peak {
            size: self.size,
            nesting: self.nesting,
        }
    }

    /// Returns the use of two slices together.
    fn and(self, next: Used) -> Used
        requires fuel { self.fuel + next.fuel < 2 ^ 64 }
        requires output { self.output + next.output < 2 ^ 64 }
        ensures { result ≡ together self next }
    {
        Used {
            fuel: self.fuel + next.fuel,
            output: self.output + next.output,
            depth: self.depth.max(next.depth),
            size: self.size.max(next.size),
            nesting: self.nesting.max(next.nesting),
        }
    }
}

/// A run of an image that other runs may share. It stops after a given number of instructions and
/// goes on later, as a [`Machine`](crate::Machine), and counts what it uses of its budget.
#[derive(Drop)]
pub struct MeteredRun {
    alloc: Global,
    image: Arc<Verified>,
    stage: Stage,
    made: ConstantCache,
    used: Used,
}

impl Model for MeteredRun {
    ghost use Rattle.std.specs.Arc.{arc_value};
    ghost use Rattle.jt_machine.specs.Metering.{Metered};
    ghost use Rattle.jt_machine.specs.MeteringCode.{coded_metered};

    ghost Value = { Metered };

    ghost coded = { coded_metered };

    ghost use Rattle.jt_machine.specs.StageView.{stage_view, IsUnderway};
    ghost use Rattle.jt_machine.specs.ConstantCache.{AreCached};
    ghost use Rattle.jt_machine.specs.MeterRoom.{LeavesRoom};

    ghost view = { λ m. record {
      session = record { code = arc_value m.image; stage = stage_view m.stage };
      used = m.used;
    } };

    ghost invariant = { λ m. IsUnderway (arc_value m.image) m.stage
        × AreCached (arc_value m.image) m.made.items × LeavesRoom m.used m.stage };
}

impl MeteredRun {
    ghost use Rattle.jt_machine.specs.Growing.{HasTables, MayLose};
    ghost use Rattle.jt_machine.specs.Metering.{metered_after, metered_start, UsesLeast};
    ghost use Rattle.jt_machine.specs.Metering.{next_instruction, next_place, prints_undefined};
    ghost use Rattle.jt_machine.specs.Session.{is_lost, lost_session, outcome_of, stage_progress};
    ghost use Rattle.jt_machine.specs.Session.{RunsInSlices};
    ghost use Rattle.jt_machine.specs.View.{budget_view, outcome_view, place_view};

    /// Starts the run of an image for a context under a budget, before its first instruction. If a
    /// value of the context exceeds a limit, the run has ended.
    ///
    /// # Errors
    ///
    /// `NoMemory` if a growth was refused.
    pub fn start(
        alloc: Global,
        image: Arc<Verified>,
        context: &Context,
        budget: Budget,
    ) -> Result<MeteredRun, NoMemory>
        ensures started { IfOk result (λ m.
            m ≡ metered_start (arc_value image) (pairs_of context.now) (budget_view budget)) }
        // Only the tables are allocated.
        ensures memory { OnErr result (HasTables (arc_value image)) }
        // Every run of the image has one outcome, stays within its fuel and is never wrong.
        ensures safe { (any_context : Pairs) (any_budget : config.Budget)
            → IsSafe (arc_value image) any_context any_budget }
        // A run in slices reaches the outcome of the run.
        ensures slices { (any_context : Pairs) (any_budget : config.Budget)
            → RunsInSlices (arc_value image) any_context any_budget }
        // What a run that ends with a text has used is the least budget with which it ends so.
        ensures least { (any_context : Pairs) (any_budget : config.Budget)
            → UsesLeast (arc_value image) any_context any_budget }
    {
        code_laws();
        let Begun { stage, used } = begin(alloc, image.image(), context, budget)?;
        Ok(MeteredRun {
            alloc,
            image,
            stage,
            made: ConstantCache::new(alloc),
            used,
        })
    }

    /// Executes `k` instructions, or fewer if the run ends, and returns whether the run goes on.
    ///
    /// # Errors
    ///
    /// `NoMemory` if a growth was refused. The run is then lost: it has no outcome, and each later
    /// call returns `NoMemory`.
    pub fn advance(&mut self, k: u32) -> Result<Progress, NoMemory>
        // The steps are executed, and what they use is counted.
        ensures steps { OnOk result (self.new ≡ metered_after k self.old) }
        ensures progress { IfOk result
            (λ p. stage_progress self.new.session.stage ≡ Some p) }
        ensures lost { OnErr result
            (self.new ≡ record self.old { session = lost_session self.old.session }) }
        // Memory is needed only if one of the steps goes on and may allocate, or ends with a fault
        // that has a place.
        ensures memory { OnErr result (MayLose k self.old.session) }
        // A run that has ended needs no memory.
        ensures unended { IfErr result (λ e. outcome_of self.old.session ≡ None) }
    {
        match mem::replace(&mut self.stage, Stage::Lost) {
            Stage::Going(state) => {
                let image = self.image.image();
                let measured = Measured {
                    state,
                    peak: self.used.peak(),
                };
                let slice = take_slice(self.alloc, image, &mut self.made, measured, k)?;
                self.stage = slice.stage;
                self.used = self.used.and(slice.used);
                Ok(slice.progress)
            }
            Stage::Done(outcome) => {
                self.stage = Stage::Done(outcome);
                Ok(Progress::Done)
            }
            Stage::Lost => Err(NoMemory),
        }
    }

    /// Returns the outcome, once the run has ended.
    pub fn outcome(&self) -> Option<&Outcome>
        ensures { option_map outcome_view (option_copied result) ≡ outcome_of self.now.session }
    {
        match &self.stage {
            Stage::Going(_) => None,
            Stage::Done(outcome) => Some(outcome),
            Stage::Lost => None,
        }
    }

    /// Returns whether the run was lost because a growth was refused.
    pub fn is_lost(&self) -> bool
        ensures { result ≡ is_lost self.now.session.stage }
    {
        match &self.stage {
            Stage::Going(_) => false,
            Stage::Done(_) => false,
            Stage::Lost => true,
        }
    }

    /// Returns what the run has used.
    pub fn used(&self) -> Used
        ensures { result ≡ self.now.used }
    {
        let MeteredRun { used, .. } = self;
        *used
    }

    /// Returns the next instruction, if the run goes on.
    pub fn next_instruction(&self) -> Option<Instruction>
        ensures { result ≡ next_instruction self.now.session.code self.now.session.stage }
    {
        match &self.stage {
            Stage::Going(state) => self.image.image().instruction(state.unit, state.point),
            Stage::Done(_) => None,
            Stage::Lost => None,
        }
    }

    /// Returns whether the next instruction prints the value undefined.
    pub fn prints_undefined(&self) -> bool
        ensures { result ≡ prints_undefined self.now.session.code self.now.session.stage }
    {
        match &self.stage {
            Stage::Going(state) => is_about_to_print_undefined(self.image.image(), state),
            Stage::Done(_) => false,
            Stage::Lost => false,
        }
    }

    /// Returns the place of the next instruction, if the run goes on and the instruction has one.
    ///
    /// # Errors
    ///
    /// `NoMemory` if a growth was refused.
    pub fn next_place(&self) -> Result<Option<Place>, NoMemory>
        ensures { IfOk result (λ place. option_map place_view place
            ≡ next_place self.now.session.code self.now.session.stage) }
    {
        match &self.stage {
            Stage::Going(state) => {
                place_at(self.alloc, self.image.image(), state.unit, state.point)
            }
            Stage::Done(_) => Ok(None),
            Stage::Lost => Ok(None),
        }
    }

    /// Returns the outcome if the run has ended.
    pub fn into_outcome(self) -> Option<Outcome>
        ensures { option_map outcome_view result ≡ outcome_of self.session }
    {
        let MeteredRun { stage, .. } = self;
        match stage {
            Stage::Going(_) => None,
            Stage::Done(ended) => Some(ended),
            Stage::Lost => None,
        }
    }
}

/// The stage of a run before its first instruction, and what it has used.
#[derive(Drop)]
struct Begun {
    stage: Stage,
    used: Used,
}

// Begins a run, and measures the values of its context.
fn begin<C: Code>(
    alloc: Global,
    code: &C,
    context: &Context,
    budget: Budget,
) -> Result<Begun, NoMemory>
    ensures stage { IfOk result (λ b. stage_view b.stage
        ≡ (started (C.code code.now) (pairs_of context.now) (budget_view budget)).stage) }
    ensures used { IfOk result (λ b. b.used
        ≡ start_use (passed (budget_view budget) (pairs_of context.now) (C.code code.now).names)
        (named_values (pairs_of context.now) (C.code code.now).names)) }
    ensures underway { IfOk result (λ b. IsUnderway (C.code code.now) b.stage) }
    ensures room { IfOk result (λ b. LeavesRoom b.used b.stage) }
    ensures memory { OnErr result (HasTables (C.code code.now)) }
{
    // The prover needs these reads, which show that both numbers have 64 bits.
    let (_fuel, _output) = (budget.fuel, budget.output);
    if let Some(spent) = context_limit(code, context, &budget) {
        return Ok(Begun {
            stage: Stage::Done(Outcome::Spent(spent)),
            used: Used::nothing(),
        });
    }
    let used = Used::at_start(context_peak(code, context, &budget));
    let state = start(alloc, code, context, budget)?;
    Ok(Begun {
        stage: Stage::Going(state),
        used,
    })
}

/// The state of a run, and the peak of the values that the run has tested.
#[derive(Drop)]
struct Measured {
    state: State,
    peak: Peak,
}

/// The result of a slice: the stage after it, whether the run goes on, and what the slice used.
#[derive(Drop)]
struct Slice {
    stage: Stage,
    progress: Progress,
    used: Used,
}

// Executes `k` instructions, or fewer if the run ends.
fn take_slice<C: Code>(
    alloc: Global,
    code: &C,
    made: &mut ConstantCache,
    mut run: Measured,
    k: u32,
) -> Result<Slice, NoMemory>
    requires whole { IsCode (C.code code.now) }
    requires typed { IsTyped (C.code code.now) }
    requires made { AreCached (C.code code.now) made.old.items }
    requires reached { IsReached (C.code code.now) run.state }
    requires size { run.peak.size ≤ run.state.left.size }
    requires nesting { run.peak.nesting ≤ run.state.left.nesting }
    ensures steps { IfOk result
        (λ r. stage_view r.stage ≡ led (after (C.code code.now) k (config_view run.state))) }
    ensures used { IfOk result (λ r. r.used
        ≡ with_peak run.peak (used_within (C.code code.now) k (config_view run.state))) }
    ensures memory { OnErr result
        ((h : ComesToGrow (C.code code.now) (config_view run.state)) × (h.steps < k)) }
    ensures underway { IfOk result (λ r. IsUnderway (C.code code.now) r.stage) }
    ensures progress { IfOk result (λ r. stage_progress (stage_view r.stage) ≡ Some r.progress) }
    ensures made { AreCached (C.code code.now) made.new.items }
{
    let counted = count_steps(alloc, code, made, &mut run, k)?;
    let used = counted.used;
    match counted.outcome {
        None => Ok(Slice {
            stage: Stage::Going(run.state),
            progress: Progress::Going,
            used,
        }),
        Some(outcome) => Ok(Slice {
            stage: Stage::Done(outcome),
            progress: Progress::Done,
            used,
        }),
    }
}

/// The outcome of a run, if it ended in a slice, and what the slice used.
#[derive(Drop)]
struct Counted {
    outcome: Option<Outcome>,
    used: Used,
}

// Executes `k` instructions, or fewer if the run ends, and counts what they use.
fn count_steps<C: Code>(
    alloc: Global,
    code: &C,
    made: &mut ConstantCache,
    run: &mut Measured,
    k: u32,
) -> Result<Counted, NoMemory>
    requires whole { IsCode (C.code code.now) }
    requires typed { IsTyped (C.code code.now) }
    requires made { AreCached (C.code code.now) made.old.items }
    requires reached { IsReached (C.code code.now) run.old.state }
    requires size { run.old.peak.size ≤ run.old.state.left.size }
    requires nesting { run.old.peak.nesting ≤ run.old.state.left.nesting }
    ensures steps { IfOk result (λ r.
        after (C.code code.now) k (config_view run.old.state) ≡ next_view r.outcome run.new.state) }
    ensures used { IfOk result (λ r. r.used
        ≡ with_peak run.old.peak (used_within (C.code code.now) k (config_view run.old.state))) }
    ensures memory { OnErr result
        ((h : ComesToGrow (C.code code.now) (config_view run.old.state)) × (h.steps < k)) }
    ensures reached { IfOk result
        (λ r. IfNone r.outcome (IsReached (C.code code.now) run.new.state)) }
    ensures made { AreCached (C.code code.now) made.new.items }
{
    code_laws();
    let first = run.state.left;
    let mut deepest = run.state.open_calls();
    let mut left = u64::from(k);
    'steps: loop {
        let stopped = run_below(code, made, &mut run.state, run.peak, left);
        let mut last = run.state.left;
        if stopped.left == 0 {
            return Ok(Counted {
                outcome: None,
                used: use_between(&first, &last, deepest, run.peak),
            });
        }
        let pushed = pushed_here(code, &run.state, stopped.prefetched);
        if let Some(outcome) = step(alloc, code, made, &mut run.state, stopped.prefetched)? {
            last.fuel -= end_cost(&outcome);
            return Ok(Counted {
                outcome: Some(outcome),
                used: use_between(&first, &last, deepest, run.peak),
            });
        }
        deepest = deepest.max(run.state.open_calls());
        run.peak = peak_after(run.peak, &run.state, pushed);
        left = stopped.left - 1;
    }
}

// Returns what was used from one rest of a budget to a later one, if `deepest` calls were open at
// most and the values that were tested have this peak.
fn use_between(first: &Budget, last: &Budget, deepest: u32, peak: Peak) -> Used
    requires fuel { last.now.fuel ≤ first.now.fuel }
    requires output { last.now.output ≤ first.now.output }
    ensures { result ≡ used_up first.now last.now deepest peak }
{
    Used {
        fuel: first.fuel - last.fuel,
        output: first.output - last.output,
        depth: deepest,
        size: peak.size,
        nesting: peak.nesting,
    }
}

// Returns the cost that counts of an instruction that ends a run: that of a return from unit 0, or
// nothing if the instruction was not completed.
fn end_cost(outcome: &Outcome) -> u64
    ensures { result ≡ end_cost_of (outcome_view outcome.now) }
{
    match outcome {
        Outcome::Text(_) => 1,
        _ => 0,
    }
}

// Returns whether the instruction at the point prints the value undefined.
fn is_about_to_print_undefined<C: Code>(code: &C, state: &State) -> bool
    ensures { result ≡ prints_undefined_at (C.code code.now) (stage_view (Stage.Going state.now)) }
{
    match code.instruction(state.unit, state.point) {
        Some(Instruction::Emit { .. }) => {
            state.stack.has_value() && matches!(state.stack.top(), Value::Undefined)
        }
        _ => false,
    }
}

/// States that the slices of a run add up, and so does what they use. An outcome that is reached is
/// that of the run. It executes nothing.
pub fn metering_laws()
    ensures { MeteringLaws }
{}
