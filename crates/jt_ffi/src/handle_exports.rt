//! Exports the calls over handles to other languages. `bindings/c/jt.h` declares them.
//!
//! A library, an image and a context are read once and used as often as the caller likes. An
//! outcome is kept, so that a text that is longer than the buffer is read with no second run. A
//! handle is memory of the caller that is zero at first. All handles of a call differ.
ghost use Rattle.std.specs.Prelude.{◌≡◌, ◌≢◌, ℕ, List, None};
ghost use Rattle.jt_host.specs.declared.Options.{Options};
ghost use Rattle.jt_ffi.specs.Answers.{Answers, AnswersExplained};
ghost use Rattle.jt_ffi.specs.Batches.{AnswersEach, RunsNext};
ghost use Rattle.jt_ffi.specs.Calls.{Compiles, Explains, IsGiven, Renders, Runs};
ghost use Rattle.jt_ffi.specs.Handles.{AreSame, CompilesHeld, CompilesInto, ExplainsHeld};
ghost use Rattle.jt_ffi.specs.Handles.{HoldsContext, IsShareStatus};
ghost use Rattle.jt_ffi.specs.Handles.{HoldsImage, HoldsLibrary, HoldsTemplate, LoadsContext};
ghost use Rattle.jt_ffi.specs.Handles.{LoadsImage, LoadsLibrary, ReportsOutcome, RunsAndKeeps};
ghost use Rattle.jt_ffi.specs.Handles.{SavesHeld};
ghost use Rattle.jt_ffi.specs.HostTemplates.{sources_in};
ghost use Rattle.jt_ffi.specs.Needs.{NeedsFrom, NeedsHeld};
ghost use Rattle.jt_ffi.specs.Plain.{budget_of, options_of};

use crate::answer::{Answer, write_explanation, write_result};
use crate::batches::{Batch, write_each};
use crate::error::FfiError;
use crate::explaining::explain_held;
use crate::held::{
    compile_held, keep_outcome, load_context, load_image, load_library, report_held, run_held,
    save_held, share_held,
};
use crate::local_handle::LocalHandle;
use crate::needs::list_held;
use crate::repr::{FfiBudget, FfiOptions};
use crate::shared_handle::SharedHandle;
use crate::templates::Lengths;
use std::alloc::Global;

/// Reads the sources of templates into a handle, and writes nothing, or the reason why the handle
/// holds nothing. `texts` and `lengths` are as for `jt_compile`.
#[unsafe(no_mangle)]
pub extern "C" fn jt_library_load(
    alloc: Global,
    texts: &[u8],
    lengths: &[Lengths],
    library: &mut SharedHandle,
    out: &mut [u8],
) -> Answer
    ensures { Answers (LoadsLibrary lengths.now texts.now library.new.held) out.old out.new
        result }
{
    drop(library.take(alloc));
    let outcome = load_library(alloc, texts, lengths, library);
    write_result(alloc, out, &outcome)
}

/// Compiles the template `entry` of a library into a handle of an image, and writes nothing, or the
/// reason why the handle holds nothing.
#[unsafe(no_mangle)]
pub extern "C" fn jt_library_compile(
    alloc: Global,
    library: &mut SharedHandle,
    entry: &[u8],
    options: FfiOptions,
    image: &mut SharedHandle,
    out: &mut [u8],
) -> Answer
    ensures library { library.new.held ≡ library.old.held }
    // The result is that of the held library.
    ensures answer { Answers (CompilesHeld library.old.held entry.now (options_of options)
        image.new.held) out.old out.new result }
    // The image is one that `jt_compile` may return for the templates of the library, and so is the
    // reason of a refusal.
    ensures compile { (lengths : List Lengths) (texts : List ℕ)
        → HoldsLibrary lengths texts library.old.held
        → Answers (CompilesInto lengths texts entry.now (options_of options) image.new.held) out.old
        out.new result }
{
    drop(image.take(alloc));
    let held = library.take(alloc);
    let outcome = compile_held(alloc, &held, entry, options.options(), image);
    library.put_back(held);
    write_result(alloc, out, &outcome)
}

/// Explains to a person why the template `entry` of a library does not compile, as `jt_explain`.
#[unsafe(no_mangle)]
pub extern "C" fn jt_library_explain(
    alloc: Global,
    library: &mut SharedHandle,
    entry: &[u8],
    options: FfiOptions,
    out: &mut [u8],
) -> Answer
    ensures library { library.new.held ≡ library.old.held }
    // The result is that of the held library.
    ensures answer { AnswersExplained (ExplainsHeld library.old.held entry.now
        (options_of options)) out.old out.new result }
    // The answer is one that `jt_explain` may return for the templates of the library.
    ensures explain { (lengths : List Lengths) (texts : List ℕ)
        → HoldsLibrary lengths texts library.old.held
        → AnswersExplained (Explains lengths texts entry.now (options_of options)) out.old out.new
        result }
{
    let taken = library.take(alloc);
    let outcome = explain_held(alloc, &taken, entry, options.options());
    library.put_back(taken);
    write_explanation(alloc, out, &outcome)
}

/// Writes what the template `entry` of a library needs: a line `name ..`, `template ..` or
/// `missing ..` for each name of a context that its image reads or binds, each template that it is
/// compiled from, and each missing one that it includes.
///
/// The entry compiles to the same code as long as these templates stay the same and the missing
/// ones stay missing.
#[unsafe(no_mangle)]
pub extern "C" fn jt_library_needs(
    alloc: Global,
    library: &mut SharedHandle,
    entry: &[u8],
    options: FfiOptions,
    out: &mut [u8],
) -> Answer
    ensures library { library.new.held ≡ library.old.held }
    // The result is that of the held library.
    ensures answer { Answers (NeedsHeld library.old.held entry.now (options_of options)) out.old
        out.new result }
    // The needs are those of the sources that the library was loaded from, and so is the reason of
    // a refusal.
    ensures sources { (lengths : List Lengths) (texts : List ℕ)
        → HoldsLibrary lengths texts library.old.held
        → Answers (NeedsFrom (sources_in lengths texts) entry.now (options_of options)) out.old
        out.new result }
{
    let kept = library.take(alloc);
    let outcome = list_held(alloc, &kept, entry, options.options());
    library.put_back(kept);
    write_result(alloc, out, &outcome)
}

/// Reads and verifies an image into a handle, and writes nothing, or the reason why the handle
/// holds nothing. The held image runs for every context and budget, as `jt_check` states.
#[unsafe(no_mangle)]
pub extern "C" fn jt_image_load(
    alloc: Global,
    bytes: &[u8],
    image: &mut SharedHandle,
    out: &mut [u8],
) -> Answer
    ensures { Answers (LoadsImage bytes.now image.new.held) out.old out.new result }
{
    drop(image.take(alloc));
    let outcome = load_image(alloc, bytes, image);
    write_result(alloc, out, &outcome)
}

/// Writes the bytes of an image to the buffer.
#[unsafe(no_mangle)]
pub extern "C" fn jt_image_save(alloc: Global, image: &mut SharedHandle, out: &mut [u8]) -> Answer
    ensures image { image.new.held ≡ image.old.held }
    ensures answer { Answers (SavesHeld image.old.held) out.old out.new result }
    // The bytes are ones that `jt_compile` may return, if the image was compiled.
    ensures compile { (lengths : List Lengths) (texts entry : List ℕ) (options : Options)
        → IsGiven lengths texts entry
        → HoldsTemplate (sources_in lengths texts) entry options image.old.held
        → Answers (Compiles lengths texts entry options) out.old out.new result }
{
    let held = image.take(alloc);
    let outcome = save_held(alloc, &held);
    image.put_back(held);
    write_result(alloc, out, &outcome)
}

/// Reads a context into a handle, and writes nothing, or the reason why the handle holds nothing.
#[unsafe(no_mangle)]
pub extern "C" fn jt_context_load(
    alloc: Global,
    bytes: &[u8],
    context: &mut LocalHandle,
    out: &mut [u8],
) -> Answer
    ensures { Answers (LoadsContext bytes.now context.new.held) out.old out.new result }
{
    drop(context.take(alloc));
    let outcome = load_context(alloc, bytes, context);
    write_result(alloc, out, &outcome)
}

/// Runs an image for a context under a budget and writes its text to the buffer. The handle
/// `outcome` then holds the outcome, for `jt_outcome_read`.
#[unsafe(no_mangle)]
pub extern "C" fn jt_image_run(
    alloc: Global,
    image: &mut SharedHandle,
    context: &mut LocalHandle,
    budget: FfiBudget,
    outcome: &mut LocalHandle,
    out: &mut [u8],
) -> Answer
    ensures image { image.new.held ≡ image.old.held }
    ensures context { context.new.held ≡ context.old.held }
    // The outcome is that of the image for the context. It is held, and reported. If it is lack of
    // memory, the run may need memory. Otherwise nothing is held, and lack of memory is reported.
    ensures answer { Answers (RunsAndKeeps image.old.held context.old.held (budget_of budget)
        outcome.new.held) out.old out.new result }
    // The answer is one that `jt_run` may return for the bytes of both.
    ensures run { (i c : List ℕ)
        → HoldsImage i image.old.held
        → HoldsContext c context.old.held
        → Answers (Runs i c (budget_of budget)) out.old out.new result }
    // The answer is one that `jt_render` may return, if the image was compiled.
    ensures render { (lengths : List Lengths) (texts entry : List ℕ) (options : Options)
        (c : List ℕ)
        → IsGiven lengths texts entry
        → HoldsTemplate (sources_in lengths texts) entry options image.old.held
        → HoldsContext c context.old.held
        → Answers (Renders lengths texts entry options c (budget_of budget)) out.old out.new
        result }
{
    drop(outcome.take(alloc));
    let held_image = image.take(alloc);
    let held_context = context.take(alloc);
    let ended = run_held(alloc, &held_image, &held_context, budget.budget());
    image.put_back(held_image);
    context.put_back(held_context);
    keep_outcome(alloc, ended, outcome, out)
}

/// Runs an image for many contexts under a budget, each read from its bytes. `contexts` holds the
/// bytes one after another, `lengths` their lengths. Writes the results one after another to the
/// buffer, and their answers to `answers`, as far as there is room. If a result does not fit, it is
/// held by `outcome`, and its answer is the last one. Returns the number of answers.
#[unsafe(no_mangle)]
pub extern "C" fn jt_image_run_each(
    alloc: Global,
    image: &mut SharedHandle,
    contexts: &[u8],
    lengths: &[u64],
    budget: FfiBudget,
    outcome: &mut LocalHandle,
    answers: &mut [Answer],
    out: &mut [u8],
) -> usize
    ensures image { image.new.held ≡ image.old.held }
    // Each result is that of a run for its context alone.
    ensures each { AnswersEach (RunsNext image.old.held (budget_of budget)) lengths.now contexts.now
        answers.old answers.new out.old out.new outcome.new.held result }
{
    drop(outcome.take(alloc));
    let held = image.take(alloc);
    let batch = Batch {
        image: &held,
        contexts,
        lengths,
        budget: budget.budget(),
    };
    let count = write_each(alloc, &batch, outcome, answers, out);
    image.put_back(held);
    count
}

/// Writes an outcome to the buffer. The answer is that of the run with this buffer.
#[unsafe(no_mangle)]
pub extern "C" fn jt_outcome_read(
    alloc: Global,
    outcome: &mut LocalHandle,
    out: &mut [u8],
) -> Answer
    ensures same { outcome.new.held ≡ outcome.old.held }
    ensures answer { ReportsOutcome outcome.old.held out.old out.new result }
{
    match outcome.take(alloc) {
        Some(held) => {
            let answer = report_held(alloc, out, &held);
            outcome.put(held);
            answer
        }
        None => write_result(alloc, out, &Err(FfiError::NotHeld)),
    }
}

/// Makes `to` a second handle of the library that `from` holds, as for another thread. Returns a
/// status: 0 done, 2 if `from` holds nothing, 6 memory.
#[unsafe(no_mangle)]
pub extern "C" fn jt_library_share(
    alloc: Global,
    from: &mut SharedHandle,
    to: &mut SharedHandle,
) -> u32
    ensures same { from.new.held ≡ from.old.held }
    ensures done { result ≡ 0 → AreSame from.old.held to.new.held }
    ensures none { result ≢ 0 → to.new.held ≡ None }
    ensures status { IsShareStatus from.old.held result }
{
    share(alloc, from, to)
}

/// Makes `to` a second handle of the image that `from` holds, as for another thread. Returns a
/// status: 0 done, 2 if `from` holds nothing, 6 memory.
#[unsafe(no_mangle)]
pub extern "C" fn jt_image_share(
    alloc: Global,
    from: &mut SharedHandle,
    to: &mut SharedHandle,
) -> u32
    ensures same { from.new.held ≡ from.old.held }
    ensures done { result ≡ 0 → AreSame from.old.held to.new.held }
    ensures none { result ≢ 0 → to.new.held ≡ None }
    ensures status { IsShareStatus from.old.held result }
{
    share(alloc, from, to)
}

/// Makes `to` a second handle of the value that `from` holds, and returns a status.
fn share(alloc: Global, from: &mut SharedHandle, to: &mut SharedHandle) -> u32
    ensures same { from.new.held ≡ from.old.held }
    ensures done { result ≡ 0 → AreSame from.old.held to.new.held }
    ensures none { result ≢ 0 → to.new.held ≡ None }
    ensures status { IsShareStatus from.old.held result }
{
    drop(to.take(alloc));
    let Some(held) = from.take(alloc) else {
        return 2;
    };
    let other = share_held(alloc, &held);
    from.put(held);
    match other {
        Some(other) => {
            to.put(other);
            0
        }
        None => 6,
    }
}

/// Frees the library that the handle holds, if no other handle holds it.
#[unsafe(no_mangle)]
pub extern "C" fn jt_library_free(alloc: Global, library: &mut SharedHandle)
    ensures { library.new.held ≡ None }
{
    let freed = library.take(alloc);
    drop(freed);
}

/// Frees the image that the handle holds, if no other handle holds it.
#[unsafe(no_mangle)]
pub extern "C" fn jt_image_free(alloc: Global, image: &mut SharedHandle)
    ensures { image.new.held ≡ None }
{
    let freed = image.take(alloc);
    drop(freed);
}

/// Frees the context that the handle holds.
#[unsafe(no_mangle)]
pub extern "C" fn jt_context_free(alloc: Global, context: &mut LocalHandle)
    ensures { context.new.held ≡ None }
{
    let freed = context.take(alloc);
    drop(freed);
}

/// Frees the outcome that the handle holds.
#[unsafe(no_mangle)]
pub extern "C" fn jt_outcome_free(alloc: Global, outcome: &mut LocalHandle)
    ensures { outcome.new.held ≡ None }
{
    let freed = outcome.take(alloc);
    drop(freed);
}
