//! Defines the errors of a compilation.

use crate::emission::EmitError;
use jt_inherit::{ChainError, ChainFinding};
use jt_rules::ScopeError;
use thiserror::Error;

/// The reason why a compilation is refused.
#[derive(Debug, Drop, Error, PartialEq, Eq)]
pub enum CompileError {
    /// A template that is missing, cannot be scanned or parsed, or breaks a rule of chains.
    #[error("{0}")]
    Chain(ChainError),
    /// A broken rule of names and calls.
    #[error("{0}")]
    Scope(ScopeError),
    /// An image that would pass a limit.
    #[error("G1 CodeTooLong")]
    CodeTooLong,
    /// A refused growth.
    #[error("G2 NoMemory")]
    NoMemory,
    /// A unit that would need more than 1,024 stack entries.
    #[error("G3 StackTooDeep")]
    StackTooDeep,
}

impl From<ChainFinding> for CompileError {
    ghost use Rattle.std.specs.Prelude.{◌≡◌};
    ghost use Rattle.jt_codegen.specs.Refusals.{of_chain};

    ghost from_gives = { λ finding e. e ≡ of_chain finding.error };

    fn from(finding: ChainFinding) -> CompileError {
        match finding.error {
            ChainError::NoMemory => CompileError::NoMemory,
            other => CompileError::Chain(other),
        }
    }
}

impl From<ScopeError> for CompileError {
    ghost use Rattle.std.specs.Prelude.{◌≡◌};
    ghost use Rattle.jt_codegen.specs.Refusals.{of_scope};

    ghost from_gives = { λ refusal e. e ≡ of_scope refusal };

    fn from(refusal: ScopeError) -> CompileError {
        match refusal {
            ScopeError::NoMemory => CompileError::NoMemory,
            other => CompileError::Scope(other),
        }
    }
}

impl From<EmitError> for CompileError {
    ghost use Rattle.std.specs.Prelude.{◌≡◌};
    ghost use Rattle.jt_codegen.specs.Refusals.{of_emit};

    ghost from_gives = { λ refusal e. e ≡ of_emit refusal };

    fn from(refusal: EmitError) -> CompileError {
        match refusal {
            EmitError::NoMemory => CompileError::NoMemory,
            EmitError::Limit(limit) => limit.error(),
        }
    }
}
