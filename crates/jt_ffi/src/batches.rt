//! Runs an image for many contexts, and writes the results one after another.
ghost use Rattle.std.specs.Prelude.{◌≡◌, ◌≤◌, None, Some, drop, length, option_map, take};
ghost use Rattle.jt_ffi.specs.Answers.{Reports};
ghost use Rattle.jt_ffi.specs.Batches.{AnswersEach, RunsBytes, RunsNext, bytes_left};
ghost use Rattle.jt_ffi.specs.Handles.{ReportsKept};

use crate::answer::{Answer, write_result};
use crate::error::FfiError;
use crate::held::{keep_outcome, run_shared};
use crate::local::Local;
use crate::local_handle::LocalHandle;
use crate::shared::Shared;
use jt_host::{Budget, context_of};
use std::alloc::Global;

/// An image, contexts one after another with their lengths, and the budget of each run.
#[derive(Clone, Copy)]
pub(crate) struct Batch<'a> {
    pub(crate) image: &'a Option<Box<Shared>>,
    pub(crate) contexts: &'a [u8],
    pub(crate) lengths: &'a [u64],
    pub(crate) budget: Budget,
}

/// Runs the image for each context for which `answers` has room, and writes the results one after
/// another to the buffer. If a result does not fit, it is put into the empty handle, and its answer
/// is the last one. Returns the number of answers.
pub(crate) fn write_each(
    alloc: Global,
    batch: &Batch<'_>,
    outcome: &mut LocalHandle,
    answers: &mut [Answer],
    out: &mut [u8],
) -> usize
    requires { outcome.old.held ≡ None }
    ensures { AnswersEach
        (RunsNext (option_map (λ b. b.value) batch.now.image.now) batch.now.budget)
        batch.now.lengths.now batch.now.contexts.now answers.old answers.new out.old out.new
        outcome.new.held result }
{
    let count = batch.lengths.len().min(answers.len());
    let mut rest = batch.contexts;
    let mut written = 0;
    'contexts: for at in 0..count {
        let length = batch.lengths[at];
        let ended = run_next(alloc, batch.image, rest, length, batch.budget);
        let answer = write_after(alloc, out, written, &ended);
        if answer.length > (out.len() - written) as u64 {
            answers[at] = keep_after(alloc, out, written, ended, outcome);
            return at + 1;
        }
        answers[at] = answer;
        written += answer.length as usize;
        rest = rest_of(rest, length);
    }
    count
}

/// Runs the held image for the context in the first `length` bytes and returns its text.
fn run_next(
    alloc: Global,
    image: &Option<Box<Shared>>,
    bytes: &[u8],
    length: u64,
    budget: Budget,
) -> Result<Vec<u8>, FfiError>
    ensures { RunsNext (option_map (λ b. b.value) image.now) budget length bytes.now result }
{
    match bytes.split_at_checked(length as usize) {
        Some((context, _)) => run_bytes(alloc, image, context, budget),
        None => Err(FfiError::Lengths),
    }
}

/// Runs the held image for a context and returns its text.
fn run_bytes(
    alloc: Global,
    image: &Option<Box<Shared>>,
    context: &[u8],
    budget: Budget,
) -> Result<Vec<u8>, FfiError>
    ensures { RunsBytes (option_map (λ b. b.value) image.now) budget context.now result }
{
    let context = Local::Context(context_of(alloc, context)?);
    match image {
        Some(image) => run_shared(alloc, image, &context, budget),
        None => Err(FfiError::NotHeld),
    }
}

/// Returns the bytes after the first `length` bytes, or all bytes if they are fewer.
fn rest_of(bytes: &[u8], length: u64) -> &[u8]
    ensures { result.now ≡ bytes_left length bytes.now }
{
    match bytes.split_at_checked(length as usize) {
        Some((_, rest)) => rest,
        None => bytes,
    }
}

/// Writes the result of a run to the buffer after `written` bytes and returns the answer.
fn write_after(
    alloc: Global,
    out: &mut [u8],
    written: usize,
    ended: &Result<Vec<u8>, FfiError>,
) -> Answer
    requires { written ≤ length out.old }
    ensures reports { Reports ended.now (drop written out.old) (drop written out.new) result }
    ensures before { take written out.new ≡ take written out.old }
{
    write_result(alloc, &mut out[written..], ended)
}

/// Puts the result of a run into an empty handle, writes it to the buffer after `written` bytes and
/// returns the answer.
fn keep_after(
    alloc: Global,
    out: &mut [u8],
    written: usize,
    ended: Result<Vec<u8>, FfiError>,
    outcome: &mut LocalHandle,
) -> Answer
    requires written { written ≤ length out.old }
    requires empty { outcome.old.held ≡ None }
    ensures reports { ReportsKept ended outcome.new.held (drop written out.old)
        (drop written out.new) result }
    ensures before { take written out.new ≡ take written out.old }
{
    keep_outcome(alloc, ended, outcome, &mut out[written..])
}
