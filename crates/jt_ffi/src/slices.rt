//! Starts and advances runs in slices, for calls over handles.
ghost use Rattle.std.specs.Prelude.{◌≡◌, None, Some, option_map};
ghost use Rattle.std.specs.Arc.{arc_value};
ghost use Rattle.jt_ffi.specs.Plain.{used_of};
ghost use Rattle.jt_ffi.specs.Slices.{Advances, AdvancesLocal, ReportsRunOf, ReportsStage};
ghost use Rattle.jt_ffi.specs.Slices.{StartedFor, StartedHeld, StartsKept, used_in};

use crate::answer::{Answer, write_answer, write_outcome, write_result};
use crate::error::FfiError;
use crate::local::Local;
use crate::local_handle::LocalHandle;
use crate::repr::FfiUsed;
use crate::shared::Shared;
use jt_host::{Budget, CallError, MeteredRun, Progress, Verified};
use std::alloc::Global;
use std::sync::Arc;

/// Starts a run of the held image for the held context.
pub(crate) fn start_held(
    alloc: Global,
    image: &Option<Box<Shared>>,
    context: &Option<Box<Local>>,
    budget: Budget,
) -> Result<MeteredRun, FfiError>
    ensures { StartedHeld (option_map (λ b. b.value) image.now)
        (option_map (λ b. b.value) context.now) budget result }
{
    let Some(image) = image else {
        return Err(FfiError::NotHeld);
    };
    let Some(context) = context else {
        return Err(FfiError::NotHeld);
    };
    start_shared(alloc, image, context, budget)
}

/// Starts a run of `image`, if that is an image, for `context`, if that is a context.
fn start_shared(
    alloc: Global,
    image: &Shared,
    context: &Local,
    budget: Budget,
) -> Result<MeteredRun, FfiError>
    ensures { StartedHeld (Some image.now) (Some context.now) budget result }
{
    match image {
        Shared::Image(verified) => start_for(alloc, verified, context, budget),
        Shared::Library(_) => Err(FfiError::NotHeld),
    }
}

/// Starts a run of an image for `context`, if that is a context.
fn start_for(
    alloc: Global,
    image: &Arc<Verified>,
    context: &Local,
    budget: Budget,
) -> Result<MeteredRun, FfiError>
    ensures { StartedFor (arc_value image.now) context.now budget result }
{
    match context {
        Local::Context(pairs) => {
            let image = Arc::try_clone(image)?;
            match MeteredRun::start(alloc, image, pairs, budget) {
                Ok(run) => Ok(run),
                Err(_) => Err(FfiError::Call(CallError::NoMemory)),
            }
        }
        Local::Outcome(_) | Local::Run(_) => Err(FfiError::NotHeld),
    }
}

/// Puts a started run into an empty handle and returns the status.
pub(crate) fn keep_run(
    alloc: Global,
    started: Result<MeteredRun, FfiError>,
    run: &mut LocalHandle,
) -> u32
    requires { run.old.held ≡ None }
    ensures { StartsKept started run.new.held result }
{
    let metered = match started {
        Ok(metered) => metered,
        Err(FfiError::NotHeld) => return 2,
        Err(_) => return 6,
    };
    match Box::new(alloc, Local::Run(metered)) {
        Ok(boxed) => {
            run.put(boxed);
            0
        }
        Err(_) => 6,
    }
}

/// Executes `steps` instructions of `held`, if that is a run, and returns the status.
pub(crate) fn advance_held(held: &mut Local, steps: u32) -> u32
    ensures { AdvancesLocal steps held.old held.new result }
{
    match held {
        Local::Run(run) => advance_run(run, steps),
        Local::Context(_) | Local::Outcome(_) => 2,
    }
}

/// Executes `steps` instructions of a run, and returns the status.
fn advance_run(run: &mut MeteredRun, steps: u32) -> u32
    ensures { Advances steps run.old run.new result }
{
    match run.advance(steps) {
        Ok(Progress::Going) => 7,
        Ok(Progress::Done) => 0,
        Err(_) => 6,
    }
}

/// Writes the outcome of `held` to the buffer, if that is a run that has ended, and returns the
/// answer.
pub(crate) fn report_run(alloc: Global, out: &mut [u8], held: &Local) -> Answer
    ensures { ReportsRunOf held.now out.old out.new result }
{
    match held {
        Local::Run(run) => report_stage(out, run),
        Local::Context(_) | Local::Outcome(_) => {
            write_result(alloc, out, &Err(FfiError::NotHeld))
        }
    }
}

/// Writes the outcome of a run to the buffer, if the run has ended, and returns the answer.
fn report_stage(out: &mut [u8], run: &MeteredRun) -> Answer
    ensures { ReportsStage run.now.session.stage out.old out.new result }
{
    match run.outcome() {
        Some(outcome) => write_outcome(out, outcome),
        None if run.is_lost() => write_answer(out, b"", 6, 0, 0),
        None => write_answer(out, b"", 2, 4, 0),
    }
}

/// Returns what `held` has used, if that is a run.
pub(crate) fn used_of_held(held: &Local) -> FfiUsed
    ensures { result ≡ used_of (used_in held.now) }
{
    match held {
        Local::Run(run) => FfiUsed::of(run.used()),
        Local::Context(_) | Local::Outcome(_) => FfiUsed::nothing(),
    }
}
