//! Defines the errors of the parser.

use std::alloc::AllocError;
use thiserror::Error;

/// The reason why segments are no template. The line is that of the tag with the error. For a
/// statement that is never closed, it is the line of its first tag. `NoMemory` has no line.
#[derive(Clone, Copy, Debug, Drop, Error, PartialEq, Eq)]
pub enum ParseError {
    /// Segments that spell no tree.
    #[error("P1 Syntax")]
    Syntax { line: u32 },
    /// Statements and expressions that are nested more than 100 levels deep.
    #[error("P2 TooDeep")]
    TooDeep { line: u32 },
    /// An unknown filter.
    #[error("P3 UnknownFilter")]
    UnknownFilter { line: u32 },
    /// An unknown test.
    #[error("P4 UnknownTest")]
    UnknownTest { line: u32 },
    /// A refused growth.
    #[error("P5 NoMemory")]
    NoMemory,
}

impl From<AllocError> for ParseError {
    ghost use Rattle.std.specs.Prelude.{◌≡◌};
    ghost use Rattle.jt_parse.specs.declared.error.ParseError.TheVariants.{NoMemory};

    ghost from_gives = { λ _ e. e ≡ NoMemory };

    fn from(_e: AllocError) -> ParseError {
        ParseError::NoMemory
    }
}
