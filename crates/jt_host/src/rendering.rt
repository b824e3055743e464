//! Renders templates in one call.
ghost use Rattle.std.specs.Prelude.{◌≡◌, IfOk, IfErr};
ghost use Rattle.jt_value.specs.ContextView.{pairs_of};
ghost use Rattle.jt_image.specs.Typed.{IsTyped};
ghost use Rattle.jt_host.specs.CallErrors.{of_refused};
ghost use Rattle.jt_host.specs.Rendering.{IsRendered, IsUnrendered};

use jt_budget::Budget;
use jt_codegen::{CompileError, compile};
use jt_image::Image;
use jt_inherit::Library;
use jt_machine::{Outcome, run};
use jt_scan::Options;
use jt_value::{Context, NoMemory};
use jt_verify::{Refusal, Verified, verify};
use std::alloc::Global;
use thiserror::Error;

/// The reason why a rendering has no outcome.
#[derive(Debug, Drop, Error, PartialEq, Eq)]
pub enum RenderError {
    /// A refusal of the compiler.
    #[error("{0}")]
    Compile(CompileError),
    /// A refused growth.
    #[error("no memory")]
    NoMemory,
}

impl From<CompileError> for RenderError {
    ghost from_gives = { λ refusal e. e ≡ of_refused refusal };

    fn from(refusal: CompileError) -> RenderError {
        match refusal {
            CompileError::NoMemory => RenderError::NoMemory,
            other => RenderError::Compile(other),
        }
    }
}

impl From<NoMemory> for RenderError {
    ghost use Rattle.jt_host.specs.declared.rendering.RenderError.TheVariants as render_error;

    ghost from_gives = { λ _ e. e ≡ render_error.NoMemory };

    fn from(_refused: NoMemory) -> RenderError {
        RenderError::NoMemory
    }
}

/// Compiles, verifies and runs the template of the entry for a context under a budget, and returns
/// the outcome.
///
/// # Errors
///
/// - `Compile` if the compiler refuses the template.
/// - `NoMemory` if a growth is refused.
pub fn render<L: Library>(
    alloc: Global,
    entry: &str,
    library: &L,
    options: Options,
    context: &Context,
    budget: Budget,
) -> Result<Outcome, RenderError>
    // The outcome is that of a run of a code to which the entry compiles.
    ensures rendered { IfOk result
        (IsRendered (L.sources library.now) entry.now options (pairs_of context.now) budget) }
    // The refusal is one that the compiler may return.
    ensures refused { IfErr result (IsUnrendered (L.sources library.now) entry.now options) }
{
    let image = compile(alloc, entry, library, options)?;
    let verified = verify_compiled(alloc, image)?;
    Ok(run(alloc, &verified, context, budget)?)
}

/// Verifies an image that the compiler made. It is typed, so that it is refused only for lack of
/// memory.
pub(crate) fn verify_compiled(alloc: Global, image: Image) -> Result<Verified, NoMemory>
    requires typed { IsTyped image }
    ensures accepted { IfOk result (λ verified. verified ≡ image) }
{
    match verify(alloc, image) {
        Ok(verified) => Ok(verified),
        Err((_image, refusal)) => {
            let lacks_memory = matches!(refusal, Refusal::NoMemory);
            prove!(lacks_memory);
            Err(NoMemory)
        }
    }
}
