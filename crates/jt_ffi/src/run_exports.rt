//! Exports the calls for runs in slices to other languages. `bindings/c/jt.h` declares them.
//!
//! A run is started once, and each call executes a number of its instructions. So the caller can
//! stop a run, or let several take turns. All handles of a call differ.
ghost use Rattle.std.specs.Prelude.{◌≡◌, ℕ, Option, None};
ghost use Rattle.jt_host.specs.declared.Budget.{Budget};
ghost use Rattle.jt_ffi.specs.Plain.{budget_of, used_of};
ghost use Rattle.jt_ffi.specs.Slices.{AdvancesHeld, HasEnded, ReportsRun, ReportsWhole, StartsHeld};
ghost use Rattle.jt_ffi.specs.Slices.{used_held};
ghost use Rattle.jt_ffi.specs.declared.local.Local.{Local};
ghost use Rattle.jt_ffi.specs.declared.shared.Shared.{Shared};

use crate::answer::{Answer, write_result};
use crate::error::FfiError;
use crate::local_handle::LocalHandle;
use crate::repr::{FfiBudget, FfiUsed};
use crate::shared_handle::SharedHandle;
use crate::slices::{advance_held, keep_run, report_run, start_held, used_of_held};
use jt_host::metering_laws;
use std::alloc::Global;

/// Starts the run of an image for a context under a budget. The handle `run` then holds the run
/// before its first instruction, which shares the image. Returns a status: 0 done, 2 if `image` or
/// `context` holds nothing, 6 memory.
#[unsafe(no_mangle)]
pub extern "C" fn jt_run_start(
    alloc: Global,
    image: &mut SharedHandle,
    context: &mut LocalHandle,
    budget: FfiBudget,
    run: &mut LocalHandle,
) -> u32
    ensures image { image.new.held ≡ image.old.held }
    ensures context { context.new.held ≡ context.old.held }
    ensures started { StartsHeld image.old.held context.old.held (budget_of budget) run.new.held
        result }
{
    drop(run.take(alloc));
    let held_image = image.take(alloc);
    let held_context = context.take(alloc);
    let started = start_held(alloc, &held_image, &held_context, budget.budget());
    image.put_back(held_image);
    context.put_back(held_context);
    keep_run(alloc, started, run)
}

/// Executes `steps` instructions of a run, or fewer if it ends. Returns a status: 7 if it goes on,
/// 0 if it has ended, 2 if `run` holds no run, 6 if it is lost for lack of memory.
#[unsafe(no_mangle)]
pub extern "C" fn jt_run_advance(alloc: Global, run: &mut LocalHandle, steps: u32) -> u32
    ensures { AdvancesHeld steps run.old.held run.new.held result }
{
    let Some(mut held) = run.take(alloc) else {
        return 2;
    };
    let status = advance_held(&mut held, steps);
    run.put(held);
    status
}

/// Writes the outcome of a run that has ended to the buffer. The run stays as it is.
#[unsafe(no_mangle)]
pub extern "C" fn jt_run_outcome(alloc: Global, run: &mut LocalHandle, out: &mut [u8]) -> Answer
    ensures same { run.new.held ≡ run.old.held }
    ensures answer { ReportsRun run.old.held out.old out.new result }
    // After any slices, the answer is that of `jt_image_run` for the same image, context and
    // budget.
    ensures whole { (image : Option Shared) (context : Option Local) (b : Budget) (n : ℕ)
        → HasEnded image context b n run.old.held
        → ReportsWhole image context b out.old out.new result }
{
    metering_laws();
    match run.take(alloc) {
        Some(held) => {
            let answer = report_run(alloc, out, &held);
            run.put(held);
            answer
        }
        None => write_result(alloc, out, &Err(FfiError::NotHeld)),
    }
}

/// Returns what a run has used, also before its end. All is 0 if `run` holds no run.
#[unsafe(no_mangle)]
pub extern "C" fn jt_run_used(alloc: Global, run: &mut LocalHandle) -> FfiUsed
    ensures same { run.new.held ≡ run.old.held }
    ensures used { result ≡ used_of (used_held run.old.held) }
{
    match run.take(alloc) {
        Some(held) => {
            let used = used_of_held(&held);
            run.put(held);
            used
        }
        None => FfiUsed::nothing(),
    }
}

/// Frees the run that the handle holds.
#[unsafe(no_mangle)]
pub extern "C" fn jt_run_free(alloc: Global, run: &mut LocalHandle)
    ensures { run.new.held ≡ None }
{
    let freed = run.take(alloc);
    drop(freed);
}
