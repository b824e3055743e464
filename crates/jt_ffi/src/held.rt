//! Computes the result of each call over handles; answer.rt writes it.
ghost use Rattle.std.specs.Prelude.{◌≡◌, IfSome, None, Some, option_map};
ghost use Rattle.jt_value.specs.ContextView.{pairs_of};
ghost use Rattle.jt_host.specs.Templates.{source_of};
ghost use Rattle.jt_ffi.specs.Handles.{CompilesFrom, CompilesHeld, IsSame, LoadsContext};
ghost use Rattle.jt_ffi.specs.Handles.{LoadsImage, LoadsLibrary, ReportsHeld, ReportsKept, RunsFor};
ghost use Rattle.jt_ffi.specs.Handles.{RunsHeld, Saves, SavesHeld};

use crate::answer::{Answer, write_result};
use crate::error::FfiError;
use crate::local::Local;
use crate::local_handle::LocalHandle;
use crate::shared::Shared;
use crate::shared_handle::SharedHandle;
use crate::templates::{Lengths, templates_of};
use jt_host::{
    Budget, CallError, EntryTemplate, Options, Templates, Verified, context_of, encode,
    run_verified, verified_image, verified_template,
};
use std::alloc::Global;
use std::sync::Arc;

/// Reads the templates of `texts` into an empty handle. Returns no bytes.
pub(crate) fn load_library(
    alloc: Global,
    texts: &[u8],
    lengths: &[Lengths],
    library: &mut SharedHandle,
) -> Result<Vec<u8>, FfiError>
    requires { library.old.held ≡ None }
    ensures { LoadsLibrary lengths.now texts.now library.new.held result }
{
    let templates = templates_of(alloc, texts, lengths)?;
    let templates = Arc::new(alloc, templates)?;
    let boxed = Box::new(alloc, Shared::Library(templates))?;
    library.put(boxed);
    Ok(Vec::new(alloc))
}

/// Reads and verifies the image that `bytes` spell into an empty handle. Returns no bytes.
pub(crate) fn load_image(
    alloc: Global,
    bytes: &[u8],
    image: &mut SharedHandle,
) -> Result<Vec<u8>, FfiError>
    requires { image.old.held ≡ None }
    ensures { LoadsImage bytes.now image.new.held result }
{
    let verified = verified_image(alloc, bytes)?;
    let verified = Arc::new(alloc, verified)?;
    let boxed = Box::new(alloc, Shared::Image(verified))?;
    image.put(boxed);
    Ok(Vec::new(alloc))
}

/// Reads the context that `bytes` spell into an empty handle. Returns no bytes.
pub(crate) fn load_context(
    alloc: Global,
    bytes: &[u8],
    context: &mut LocalHandle,
) -> Result<Vec<u8>, FfiError>
    requires { context.old.held ≡ None }
    ensures { LoadsContext bytes.now context.new.held result }
{
    let pairs = context_of(alloc, bytes)?;
    let boxed = Box::new(alloc, Local::Context(pairs))?;
    context.put(boxed);
    Ok(Vec::new(alloc))
}

/// Compiles a template of the held library into an empty handle. Returns no bytes.
pub(crate) fn compile_held(
    alloc: Global,
    library: &Option<Box<Shared>>,
    entry: &[u8],
    options: Options,
    image: &mut SharedHandle,
) -> Result<Vec<u8>, FfiError>
    requires { image.old.held ≡ None }
    ensures { CompilesHeld (option_map (λ b. b.value) library.now) entry.now options
        image.new.held result }
{
    let Some(library) = library else {
        return Err(FfiError::NotHeld);
    };
    compile_shared(alloc, library, entry, options, image)
}

/// Compiles a template of `library` into an empty handle, if that is a library.
fn compile_shared(
    alloc: Global,
    library: &Shared,
    entry: &[u8],
    options: Options,
    image: &mut SharedHandle,
) -> Result<Vec<u8>, FfiError>
    requires { image.old.held ≡ None }
    ensures { CompilesHeld (Some library.now) entry.now options image.new.held result }
{
    match library {
        Shared::Library(templates) => compile_into(alloc, templates, entry, options, image),
        Shared::Image(_) => Err(FfiError::NotHeld),
    }
}

/// Compiles the template `entry` into an empty handle. Returns no bytes.
fn compile_into(
    alloc: Global,
    templates: &Templates,
    entry: &[u8],
    options: Options,
    image: &mut SharedHandle,
) -> Result<Vec<u8>, FfiError>
    requires { image.old.held ≡ None }
    ensures { CompilesFrom (source_of templates.now) entry.now options image.new.held result }
{
    let Ok(name) = std::str::from_utf8(entry) else {
        return Err(FfiError::NotText);
    };
    let entry = EntryTemplate {
        name,
        templates,
        options,
    };
    let verified = verified_template(alloc, &entry)?;
    let verified = Arc::new(alloc, verified)?;
    let boxed = Box::new(alloc, Shared::Image(verified))?;
    image.put(boxed);
    Ok(Vec::new(alloc))
}

/// Returns the bytes of the held image.
pub(crate) fn save_held(alloc: Global, image: &Option<Box<Shared>>) -> Result<Vec<u8>, FfiError>
    ensures { SavesHeld (option_map (λ b. b.value) image.now) result }
{
    let Some(image) = image else {
        return Err(FfiError::NotHeld);
    };
    save_shared(alloc, image)
}

/// Returns the bytes of `image`, if that is an image.
fn save_shared(alloc: Global, image: &Shared) -> Result<Vec<u8>, FfiError>
    ensures { SavesHeld (Some image.now) result }
{
    match image {
        Shared::Image(verified) => save_verified(alloc, verified),
        Shared::Library(_) => Err(FfiError::NotHeld),
    }
}

/// Returns the bytes of an image.
fn save_verified(alloc: Global, verified: &Verified) -> Result<Vec<u8>, FfiError>
    ensures { Saves verified.now result }
{
    match encode(alloc, verified.image()) {
        Ok(bytes) => Ok(bytes),
        Err(_) => Err(FfiError::Call(CallError::NoMemory)),
    }
}

/// Runs the held image for the held context and returns its text.
pub(crate) fn run_held(
    alloc: Global,
    image: &Option<Box<Shared>>,
    context: &Option<Box<Local>>,
    budget: Budget,
) -> Result<Vec<u8>, FfiError>
    ensures { RunsHeld (option_map (λ b. b.value) image.now)
        (option_map (λ b. b.value) context.now) budget result }
{
    let Some(image) = image else {
        return Err(FfiError::NotHeld);
    };
    let Some(context) = context else {
        return Err(FfiError::NotHeld);
    };
    run_shared(alloc, image, context, budget)
}

/// Runs `image`, if that is an image, for `context`, if that is a context.
pub(crate) fn run_shared(
    alloc: Global,
    image: &Shared,
    context: &Local,
    budget: Budget,
) -> Result<Vec<u8>, FfiError>
    ensures { RunsHeld (Some image.now) (Some context.now) budget result }
{
    match image {
        Shared::Image(verified) => run_for(alloc, verified, context, budget),
        Shared::Library(_) => Err(FfiError::NotHeld),
    }
}

/// Runs an image for `context`, if that is a context, and returns its text.
fn run_for(
    alloc: Global,
    verified: &Verified,
    context: &Local,
    budget: Budget,
) -> Result<Vec<u8>, FfiError>
    ensures { RunsFor verified.now context.now budget result }
{
    match context {
        Local::Context(pairs) => Ok(run_verified(alloc, verified, pairs, budget)?.into_bytes()),
        Local::Outcome(_) | Local::Run(_) => Err(FfiError::NotHeld),
    }
}

/// Returns a second value that shares the image or the library, or `None` for lack of memory.
pub(crate) fn share_held(alloc: Global, held: &Shared) -> Option<Box<Shared>>
    ensures { IfSome result (λ b. IsSame held.now b.value) }
{
    let other = match held {
        Shared::Image(verified) => Shared::Image(Arc::try_clone(verified).ok()?),
        Shared::Library(templates) => Shared::Library(Arc::try_clone(templates).ok()?),
    };
    Box::new(alloc, other).ok()
}

/// Puts the result of a run into an empty handle, writes it to the buffer and returns the answer.
pub(crate) fn keep_outcome(
    alloc: Global,
    ended: Result<Vec<u8>, FfiError>,
    outcome: &mut LocalHandle,
    out: &mut [u8],
) -> Answer
    requires { outcome.old.held ≡ None }
    ensures { ReportsKept ended outcome.new.held out.old out.new result }
{
    match Box::new(alloc, Local::Outcome(ended)) {
        Ok(boxed) => {
            let answer = report_held(alloc, out, &boxed);
            outcome.put(boxed);
            answer
        }
        Err(_) => write_result(alloc, out, &Err(FfiError::Call(CallError::NoMemory))),
    }
}

/// Writes `held` to the buffer, if that is an outcome, and returns the answer.
pub(crate) fn report_held(alloc: Global, out: &mut [u8], held: &Local) -> Answer
    ensures { ReportsHeld held.now out.old out.new result }
{
    match held {
        Local::Outcome(outcome) => write_result(alloc, out, outcome),
        Local::Context(_) | Local::Run(_) => write_result(alloc, out, &Err(FfiError::NotHeld)),
    }
}
