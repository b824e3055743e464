//! Runs images and templates to the end, and counts what each run uses of its budget.

ghost use Rattle.std.specs.Prelude.{◌≡◌, IfOk, Some};
ghost use Rattle.jt_value.specs.ContextView.{pairs_of};
ghost use Rattle.jt_machine.specs.Session.{outcome_of};
ghost use Rattle.jt_machine.specs.View.{budget_view, outcome_view};
ghost use Rattle.jt_host.specs.CallErrors.{of_outcome};
ghost use Rattle.jt_host.specs.Metered.{EndsUsing, MetersImage, MetersTemplate};
ghost use Rattle.jt_host.specs.Templates.{source_of};

use crate::call_error::{CallError, text_of};
use crate::calls::{EntryTemplate, verified_image, verified_template};
use jt_budget::Budget;
use jt_machine::{MeteredRun, Outcome, Progress, Used, metering_laws};
use jt_value::{Context, NoMemory};
use jt_verify::Verified;
use std::alloc::Global;
use std::sync::Arc;

/// The outcome of a run, and what the run used of its budget.
#[derive(Drop)]
pub struct MeteredOutcome {
    pub outcome: Outcome,
    pub used: Used,
}

impl MeteredOutcome {
    /// Returns the text with which the run ended.
    ///
    /// # Errors
    ///
    /// `Fault` or `Spent` if the run ended so.
    pub fn into_text(self) -> Result<String, CallError>
        ensures { result ≡ of_outcome self.outcome }
    {
        text_of(self.outcome)
    }
}

/// Verifies and runs the image that `bytes` spell for a context, as `run_image` does, and counts
/// what the run uses.
///
/// # Errors
///
/// - `Image` if the bytes are not an image.
/// - `Code` if the verifier refuses the image.
/// - `NoMemory` if a growth is refused.
pub fn meter_image(
    alloc: Global,
    bytes: &[u8],
    context: &Context,
    budget: Budget,
) -> Result<MeteredOutcome, CallError>
    ensures { MetersImage bytes.now (pairs_of context.now) budget result }
{
    let verified = verified_image(alloc, bytes)?;
    Ok(run_to_end(alloc, verified, context, budget)?)
}

/// Renders the entry for a context, as `render_text` does, and counts what the run uses.
///
/// # Errors
///
/// - `Template` if the compiler refuses the templates.
/// - `NoMemory` if a growth is refused.
pub fn meter_template(
    alloc: Global,
    entry: &EntryTemplate<'_>,
    context: &Context,
    budget: Budget,
) -> Result<MeteredOutcome, CallError>
    ensures { MetersTemplate (source_of entry.now.templates.now) entry.now.name.now
        entry.now.options (pairs_of context.now) budget result }
{
    let verified = verified_template(alloc, entry)?;
    Ok(run_to_end(alloc, verified, context, budget)?)
}

/// The number of instructions in a slice.
const SLICE: u32 = u32::MAX;

/// Runs an image until the run ends. Every run ends within 2^64 slices.
fn run_to_end(
    alloc: Global,
    verified: Verified,
    context: &Context,
    budget: Budget,
) -> Result<MeteredOutcome, NoMemory>
    ensures { IfOk result (λ m. EndsUsing verified (pairs_of context.now) (budget_view budget)
        (outcome_view m.outcome) m.used) }
{
    metering_laws();
    let Ok(image) = Arc::new(alloc, verified) else {
        return Err(NoMemory);
    };
    let mut run = MeteredRun::start(alloc, image, context, budget)?;
    for _slice in 0..u64::MAX {
        if run.advance(SLICE)? == Progress::Done {
            return ended(run);
        }
    }
    Err(NoMemory)
}

/// Returns the outcome of a run that has ended, and what the run used.
fn ended(run: MeteredRun) -> Result<MeteredOutcome, NoMemory>
    ensures outcome { IfOk result (λ m. outcome_of run.session ≡ Some (outcome_view m.outcome)) }
    ensures used { IfOk result (λ m. m.used ≡ run.used) }
{
    let used = run.used();
    match run.into_outcome() {
        Some(outcome) => Ok(MeteredOutcome { outcome, used }),
        None => Err(NoMemory),
    }
}
