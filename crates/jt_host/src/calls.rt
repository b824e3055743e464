//! Compiles, verifies and runs templates and images in one call each, over bytes.
ghost use Rattle.jt_value.specs.ContextView.{pairs_of};
ghost use Rattle.jt_host.specs.Calls.{ChecksTo, ComesTo, CompilesTo, GivesContext, GivesImage};
ghost use Rattle.jt_host.specs.Calls.{GivesNeeds};
ghost use Rattle.jt_host.specs.Calls.{RendersTo, RunsTo, UpgradesTo, VerifiesTo};
ghost use Rattle.jt_host.specs.Templates.{source_of};

use crate::call_error::{CallError, text_of};
use crate::rendering::{render, verify_compiled};
use crate::templates::Templates;
use jt_budget::Budget;
use jt_codegen::{Needs, compile, find_needs};
use jt_contexts::{ContextError, context_from_json};
use jt_image::{Code, decode, encode, upgrade, view};
use jt_machine::{run, run_view};
use jt_scan::Options;
use jt_value::Context;
use jt_verify::{Verified, VerifiedView, verify, verify_view};
use std::alloc::Global;

/// The entry: the name of one of the templates, and the options under which sources are read.
#[derive(Clone, Copy)]
pub struct EntryTemplate<'a> {
    pub name: &'a str,
    pub templates: &'a Templates,
    pub options: Options,
}

/// Reads the context that `bytes` spell, a JSON object in UTF-8.
///
/// # Errors
///
/// - `Context` if the bytes spell no context.
/// - `NoMemory` if a growth is refused.
pub fn context_of(alloc: Global, bytes: &[u8]) -> Result<Context, CallError>
    ensures { GivesContext bytes.now result }
{
    let Ok(text) = std::str::from_utf8(bytes) else {
        return Err(CallError::Context(ContextError::NotJson));
    };
    Ok(context_from_json(alloc, text)?)
}

/// Compiles the entry and returns the bytes of its image.
///
/// # Errors
///
/// - `Template` if the compiler refuses the templates.
/// - `NoMemory` if a growth is refused.
pub fn image_of(alloc: Global, entry: &EntryTemplate<'_>) -> Result<Vec<u8>, CallError>
    ensures { GivesImage (source_of entry.now.templates.now) entry.now.name.now entry.now.options
        result }
{
    let image = compile(alloc, entry.name, entry.templates, entry.options)?;
    Ok(encode(alloc, &image)?)
}

/// Returns what the entry needs: the names of a context that its image reads, and the templates
/// that it is compiled from. The entry compiles to the same code as long as these templates stay
/// the same and the missing ones stay missing.
///
/// # Errors
///
/// - `Template` if the compiler refuses the templates.
/// - `NoMemory` if a growth is refused.
pub fn needs_of(alloc: Global, entry: &EntryTemplate<'_>) -> Result<Needs, CallError>
    ensures { GivesNeeds (source_of entry.now.templates.now) entry.now.name.now entry.now.options
        result }
{
    Ok(find_needs(alloc, entry.name, entry.templates, entry.options)?)
}

/// Compiles the entry, verifies its image, and returns that.
///
/// # Errors
///
/// - `Template` if the compiler refuses the templates.
/// - `NoMemory` if a growth is refused.
pub fn verified_template(alloc: Global, entry: &EntryTemplate<'_>) -> Result<Verified, CallError>
    ensures { CompilesTo (source_of entry.now.templates.now) entry.now.name.now entry.now.options
        result }
{
    let EntryTemplate {
        name,
        templates,
        options,
    } = *entry;
    let image = compile(alloc, name, templates, options)?;
    Ok(verify_compiled(alloc, image)?)
}

/// Returns, in version 2, the bytes of the image that `bytes` spell. The image is not verified.
///
/// # Errors
///
/// - `Image` if the bytes are not an image, or if the image is too long in version 2.
/// - `NoMemory` if a growth is refused.
pub fn upgraded(alloc: Global, bytes: &[u8]) -> Result<Vec<u8>, CallError>
    ensures { UpgradesTo bytes.now result }
{
    let image = decode(alloc, bytes)?;
    match upgrade(alloc, image) {
        Ok(image) => Ok(encode(alloc, &image)?),
        Err((_, error)) => Err(error.into()),
    }
}

/// Reads the code that `bytes` spell in place, and verifies it.
fn verified_of(alloc: Global, bytes: &[u8]) -> Result<VerifiedView<'_>, CallError>
    ensures { VerifiesTo bytes.now result }
{
    let code = view(alloc, bytes)?;
    match verify_view(alloc, code) {
        Ok(verified) => Ok(verified),
        Err((_, refusal)) => Err(refusal.into()),
    }
}

/// Reads the image that `bytes` spell, and verifies it.
///
/// # Errors
///
/// - `Image` if the bytes are not an image.
/// - `Code` if the verifier refuses the image.
/// - `NoMemory` if a growth is refused.
pub fn verified_image(alloc: Global, bytes: &[u8]) -> Result<Verified, CallError>
    ensures { VerifiesTo bytes.now result }
{
    let image = decode(alloc, bytes)?;
    match verify(alloc, image) {
        Ok(verified) => Ok(verified),
        Err((_, refusal)) => Err(refusal.into()),
    }
}

/// Verifies the image that `bytes` spell, and returns its numbers of units and of instructions.
///
/// # Errors
///
/// - `Image` if the bytes are not an image.
/// - `Code` if the verifier refuses the image.
/// - `NoMemory` if a growth is refused.
pub fn counts_of(alloc: Global, bytes: &[u8]) -> Result<(usize, usize), CallError>
    ensures { ChecksTo bytes.now result }
{
    let verified = verified_of(alloc, bytes)?;
    let code = verified.code();
    Ok((code.units(), code.instructions()))
}

/// Verifies and runs the image that `bytes` spell for a context, and returns its text.
///
/// # Errors
///
/// - `Image` if the bytes are not an image.
/// - `Code` if the verifier refuses the image.
/// - `Fault` or `Spent` if the run ends so.
/// - `NoMemory` if a growth is refused.
pub fn run_image(
    alloc: Global,
    bytes: &[u8],
    context: &Context,
    budget: Budget,
) -> Result<String, CallError>
    ensures { ComesTo bytes.now (pairs_of context.now) budget result }
{
    let verified = verified_of(alloc, bytes)?;
    text_of(run_view(alloc, &verified, context, budget)?)
}

/// Runs a verified image for a context, and returns its text.
///
/// # Errors
///
/// - `Fault` or `Spent` if the run ends so.
/// - `NoMemory` if a growth is refused.
pub fn run_verified(
    alloc: Global,
    verified: &Verified,
    context: &Context,
    budget: Budget,
) -> Result<String, CallError>
    ensures { RunsTo verified.now (pairs_of context.now) budget result }
{
    text_of(run(alloc, verified, context, budget)?)
}

/// Renders the entry for a context, and returns its text.
///
/// # Errors
///
/// - `Template` if the compiler refuses the templates.
/// - `Fault` or `Spent` if the run ends so.
/// - `NoMemory` if a growth is refused.
pub fn render_text(
    alloc: Global,
    entry: &EntryTemplate<'_>,
    context: &Context,
    budget: Budget,
) -> Result<String, CallError>
    ensures { RendersTo (source_of entry.now.templates.now) entry.now.name.now entry.now.options
        (pairs_of context.now) budget result }
{
    let EntryTemplate {
        name,
        templates,
        options,
    } = *entry;
    text_of(render(alloc, name, templates, options, context, budget)?)
}
