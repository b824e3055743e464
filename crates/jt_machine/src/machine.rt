//! Runs an image in slices: a run stops and goes on later.
ghost use Rattle.std.specs.Prelude.{◌≡◌, ◌<◌, None, IfOk, IfErr, IfNone, OnOk, OnErr, option_map};
ghost use Rattle.std.specs.Prelude.{option_copied, Some};
ghost use Rattle.jt_value.specs.Pairs.{Pairs};
ghost use Rattle.jt_value.specs.ContextView.{pairs_of};
ghost use Rattle.jt_image.specs.IsCode.{IsCode};
ghost use Rattle.jt_image.specs.Typed.{IsTyped};
ghost use Rattle.jt_image.specs.Config as config;
ghost use Rattle.jt_image.specs.Run.{IsSafe, after};
ghost use Rattle.jt_machine.specs.Growing.{ComesToGrow};
ghost use Rattle.jt_machine.specs.Session.{SessionLaws, led, stage_progress};
ghost use Rattle.jt_machine.specs.StageView.{stage_view, IsReached, IsUnderway};
ghost use Rattle.jt_machine.specs.View.{config_view, next_view};
ghost use Rattle.jt_machine.specs.ConstantCache.{AreCached};

use crate::constants::ConstantCache;
use crate::fast_path::run_fast;
use crate::outcome::{Outcome, Progress};
use crate::start::{context_limit, start};
use crate::state::State;
use crate::step::step;
use jt_budget::Budget;
use jt_image::{Code, code_laws};
use jt_value::{Context, NoMemory};
use jt_verify::Verified;
use std::alloc::Global;
use std::marker::Model;
use std::mem;

/// The stage of a run: it goes on, has ended, or was lost for lack of memory.
#[derive(Drop)]
pub(crate) enum Stage {
    Going(State),
    Done(Outcome),
    Lost,
}

/// A run of an image that stops after a given number of instructions and goes on later. It keeps
/// the text constants that it has built from one slice to the next.
#[derive(Drop)]
pub struct Machine {
    alloc: Global,
    verified: Verified,
    stage: Stage,
    made: ConstantCache,
}

impl Model for Machine {
    ghost use Rattle.jt_machine.specs.Session.{Session};
    ghost use Rattle.jt_machine.specs.SessionCode.{coded_session};

    ghost Value = { Session };

    ghost coded = { coded_session };

    ghost use Rattle.jt_machine.specs.StageView.{stage_view, IsUnderway};
    ghost use Rattle.jt_machine.specs.ConstantCache.{AreCached};

    ghost view = { λ m. record { code = m.verified; stage = stage_view m.stage } };

    ghost invariant = { λ m. IsUnderway m.verified m.stage × AreCached m.verified m.made.items };
}

impl Machine {
    ghost use Rattle.jt_image.specs.Laws.{Agree};
    ghost use Rattle.jt_machine.specs.Growing.{HasTables, MayLose};
    ghost use Rattle.jt_machine.specs.Session.{started, advanced, lost_session, is_lost};
    ghost use Rattle.jt_machine.specs.Session.{outcome_of, stage_progress, RunsInSlices};
    ghost use Rattle.jt_machine.specs.View.{budget_view, outcome_view};

    /// Starts the run of an image for a context under a budget, before its first instruction. If a
    /// value of the context exceeds a limit, the run has ended.
    ///
    /// # Errors
    ///
    /// The image and `NoMemory` if a growth was refused.
    pub fn start(
        alloc: Global,
        verified: Verified,
        context: &Context,
        budget: Budget,
    ) -> Result<Machine, (Verified, NoMemory)>
        ensures started { IfOk result
            (λ m. m ≡ started verified (pairs_of context.now) (budget_view budget)) }
        ensures back { IfErr result (λ e. e.0 ≡ verified) }
        // Only the tables are allocated.
        ensures memory { OnErr result (HasTables verified) }
        // Every run of the image has one outcome, stays within its fuel and is never wrong.
        ensures safe { (any_context : Pairs) (any_budget : config.Budget)
            → IsSafe verified any_context any_budget }
        // A run in slices reaches the outcome of the run.
        ensures slices { (any_context : Pairs) (any_budget : config.Budget)
            → RunsInSlices verified any_context any_budget }
        // Every context that gives the same values to the image's names starts the same run.
        ensures alike { (other : Pairs) → Agree verified (pairs_of context.now) other
            → started verified (pairs_of context.now) (budget_view budget)
            ≡ started verified other (budget_view budget) }
    {
        code_laws();
        if let Some(spent) = context_limit(verified.image(), context, &budget) {
            return Ok(Machine {
                alloc,
                verified,
                stage: Stage::Done(Outcome::Spent(spent)),
                made: ConstantCache::new(alloc),
            });
        }
        match start(alloc, verified.image(), context, budget) {
            Ok(state) => Ok(Machine {
                alloc,
                verified,
                stage: Stage::Going(state),
                made: ConstantCache::new(alloc),
            }),
            Err(refused) => Err((verified, refused)),
        }
    }

    /// Executes `k` instructions, or fewer if the run ends, and returns whether the run goes on.
    ///
    /// # Errors
    ///
    /// `NoMemory` if a growth was refused. The run is then lost: it has no outcome, and each later
    /// call returns `NoMemory`.
    pub fn advance(&mut self, k: u32) -> Result<Progress, NoMemory>
        ensures steps { OnOk result (self.new ≡ advanced k self.old) }
        ensures progress { IfOk result (λ p. stage_progress self.new.stage ≡ Some p) }
        ensures lost { OnErr result (self.new ≡ lost_session self.old) }
        // Memory is needed only if one of the steps goes on and may allocate, or ends with a fault
        // that has a place.
        ensures memory { OnErr result (MayLose k self.old) }
        // A run that has ended needs no memory.
        ensures unended { IfErr result (λ e. outcome_of self.old ≡ None) }
    {
        match mem::replace(&mut self.stage, Stage::Lost) {
            Stage::Going(state) => {
                let image = self.verified.image();
                let (stage, progress) = go_on(self.alloc, image, &mut self.made, state, k)?;
                self.stage = stage;
                Ok(progress)
            }
            Stage::Done(outcome) => {
                self.stage = Stage::Done(outcome);
                Ok(Progress::Done)
            }
            Stage::Lost => Err(NoMemory),
        }
    }

    /// Returns the outcome, once the run has ended.
    pub fn outcome(&self) -> Option<&Outcome>
        ensures { option_map outcome_view (option_copied result) ≡ outcome_of self.now }
    {
        match &self.stage {
            Stage::Going(_) => None,
            Stage::Done(outcome) => Some(outcome),
            Stage::Lost => None,
        }
    }

    /// Returns whether the run was lost because a growth was refused.
    pub fn is_lost(&self) -> bool
        ensures { result ≡ is_lost self.now.stage }
    {
        match &self.stage {
            Stage::Going(_) => false,
            Stage::Done(_) => false,
            Stage::Lost => true,
        }
    }

    /// Returns the image, and the outcome if the run has ended.
    pub fn finish(self) -> (Verified, Option<Outcome>)
        ensures image { result.0 ≡ self.code }
        ensures outcome { option_map outcome_view result.1 ≡ outcome_of self }
    {
        let Machine {
            verified,
            stage,
            ..
        } = self;
        match stage {
            Stage::Going(_) => (verified, None),
            Stage::Done(outcome) => (verified, Some(outcome)),
            Stage::Lost => (verified, None),
        }
    }
}

// Returns the stage after `k` instructions, and whether the run goes on.
fn go_on<C: Code>(
    alloc: Global,
    code: &C,
    made: &mut ConstantCache,
    mut state: State,
    k: u32,
) -> Result<(Stage, Progress), NoMemory>
    requires whole { IsCode (C.code code.now) }
    requires typed { IsTyped (C.code code.now) }
    requires made { AreCached (C.code code.now) made.old.items }
    requires reached { IsReached (C.code code.now) state }
    ensures steps { IfOk result
        (λ r. stage_view r.0 ≡ led (after (C.code code.now) k (config_view state))) }
    ensures memory { OnErr result
        ((h : ComesToGrow (C.code code.now) (config_view state)) × (h.steps < k)) }
    ensures underway { IfOk result (λ r. IsUnderway (C.code code.now) r.0) }
    ensures progress { IfOk result (λ r. stage_progress (stage_view r.0) ≡ Some r.1) }
    ensures made { AreCached (C.code code.now) made.new.items }
{
    match take_steps(alloc, code, made, &mut state, k)? {
        None => Ok((Stage::Going(state), Progress::Going)),
        Some(outcome) => Ok((Stage::Done(outcome), Progress::Done)),
    }
}

// Executes `k` instructions, or fewer if the run ends. Returns the outcome if it ends.
fn take_steps<C: Code>(
    alloc: Global,
    code: &C,
    made: &mut ConstantCache,
    state: &mut State,
    k: u32,
) -> Result<Option<Outcome>, NoMemory>
    requires whole { IsCode (C.code code.now) }
    requires typed { IsTyped (C.code code.now) }
    requires made { AreCached (C.code code.now) made.old.items }
    requires reached { IsReached (C.code code.now) state.old }
    ensures steps { IfOk result
        (λ r. after (C.code code.now) k (config_view state.old) ≡ next_view r state.new) }
    ensures memory { OnErr result
        ((h : ComesToGrow (C.code code.now) (config_view state.old)) × (h.steps < k)) }
    ensures reached { IfOk result (λ r. IfNone r (IsReached (C.code code.now) state.new)) }
    ensures made { AreCached (C.code code.now) made.new.items }
{
    code_laws();
    let mut left = u64::from(k);
    'steps: loop {
        let stopped = run_fast(code, made, state, left);
        if stopped.left == 0 {
            return Ok(None);
        }
        if let Some(outcome) = step(alloc, code, made, state, stopped.prefetched)? {
            return Ok(Some(outcome));
        }
        left = stopped.left - 1;
    }
}

/// States that the slices of a run add up; it executes nothing.
pub fn session_laws()
    ensures { SessionLaws }
{}
