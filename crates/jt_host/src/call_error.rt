//! Defines the errors of the calls over bytes.

ghost use Rattle.std.specs.Prelude.{◌≡◌};
ghost use Rattle.jt_host.specs.CallErrors.{of_image, of_code, of_compile, of_context, of_outcome};
ghost use Rattle.jt_host.specs.CallErrors.{of_render};

use crate::rendering::RenderError;
use jt_budget::Spent;
use jt_codegen::CompileError;
use jt_contexts::ContextError;
use jt_image::ImageError;
use jt_machine::{Outcome, Place};
use jt_value::{Fault, NoMemory};
use jt_verify::Refusal;

/// The reason why a call returns neither a text nor an image. reasons.rt prints it.
#[derive(Debug, Drop, PartialEq, Eq)]
pub enum CallError {
    /// Bytes that are not an image.
    Image(ImageError),
    /// An image that the verifier refuses.
    Code(Refusal),
    /// Templates that do not compile.
    Template(CompileError),
    /// Bytes that spell no context.
    Context(ContextError),
    /// A fault of the template, at its place if the image has one.
    Fault(Fault, Option<Place>),
    /// A spent number of the budget.
    Spent(Spent),
    /// A refused growth.
    NoMemory,
}

impl From<NoMemory> for CallError {
    ghost use Rattle.jt_host.specs.declared.call_error.CallError.TheVariants as error;

    ghost from_gives = { λ _ e. e ≡ error.NoMemory };

    fn from(_refused: NoMemory) -> CallError {
        CallError::NoMemory
    }
}

impl From<ImageError> for CallError {
    ghost from_gives = { λ fault e. e ≡ of_image fault };

    fn from(fault: ImageError) -> CallError {
        match fault {
            ImageError::NoMemory => CallError::NoMemory,
            other => CallError::Image(other),
        }
    }
}

impl From<Refusal> for CallError {
    ghost from_gives = { λ refusal e. e ≡ of_code refusal };

    fn from(refusal: Refusal) -> CallError {
        match refusal {
            Refusal::NoMemory => CallError::NoMemory,
            flaw => CallError::Code(flaw),
        }
    }
}

impl From<CompileError> for CallError {
    ghost from_gives = { λ refusal e. e ≡ of_compile refusal };

    fn from(refusal: CompileError) -> CallError {
        match refusal {
            CompileError::NoMemory => CallError::NoMemory,
            other => CallError::Template(other),
        }
    }
}

impl From<RenderError> for CallError {
    ghost from_gives = { λ refusal e. e ≡ of_render refusal };

    fn from(refusal: RenderError) -> CallError {
        match refusal {
            RenderError::Compile(refusal) => refusal.into(),
            RenderError::NoMemory => CallError::NoMemory,
        }
    }
}

impl From<ContextError> for CallError {
    ghost from_gives = { λ flaw e. e ≡ of_context flaw };

    fn from(flaw: ContextError) -> CallError {
        match flaw {
            ContextError::NoMemory => CallError::NoMemory,
            other => CallError::Context(other),
        }
    }
}

/// Returns the text with which a run ended.
///
/// # Errors
///
/// `Fault` or `Spent` if the run ended so.
pub(crate) fn text_of(outcome: Outcome) -> Result<String, CallError>
    ensures { result ≡ of_outcome outcome }
{
    match outcome {
        Outcome::Text(text) => Ok(text),
        Outcome::Fault(fault, place) => Err(CallError::Fault(fault, place)),
        Outcome::Spent(spent) => Err(CallError::Spent(spent)),
    }
}
