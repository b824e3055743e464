//! Defines the errors of the scanner.

use std::alloc::{AllocError, AllocFailed};
use thiserror::Error;

/// The reason why a source is refused. The line is that of the first `{` of the tag with the error,
/// counted from 1 after CR LF and CR have become LF. It is 1 if there is no tag.
#[derive(Clone, Copy, Debug, Drop, Error, PartialEq, Eq)]
pub enum ScanError {
    /// A source that ends inside a tag or a comment.
    #[error("S1 UnclosedTag")]
    UnclosedTag { line: u32 },
    /// A source that ends inside a text literal of a tag.
    #[error("S2 UnclosedText")]
    UnclosedText { line: u32 },
    /// A character of a tag that begins no token.
    #[error("S3 BadCharacter")]
    BadCharacter { line: u32 },
    /// A text literal that has an escape without meaning.
    #[error("S4 BadEscape")]
    BadEscape { line: u32 },
    /// A number above 9223372036854775807.
    #[error("S5 NumberTooLarge")]
    NumberTooLarge { line: u32 },
    /// A `raw` tag that no `endraw` tag follows.
    #[error("S6 UnclosedRaw")]
    UnclosedRaw { line: u32 },
    /// A text of more than 1048576 bytes. The line is 1.
    #[error("S7 SourceTooLong")]
    SourceTooLong { line: u32 },
    /// A refused growth.
    #[error("S8 NoMemory")]
    NoMemory,
}

impl From<AllocError> for ScanError {
    ghost use Rattle.std.specs.Prelude.{◌≡◌};
    ghost use Rattle.jt_scan.specs.declared.error.ScanError.TheVariants.{NoMemory};

    ghost from_gives = { λ _ e. e ≡ NoMemory };

    fn from(_e: AllocError) -> ScanError {
        ScanError::NoMemory
    }
}

impl<T: Drop> From<AllocFailed<T>> for ScanError {
    ghost use Rattle.std.specs.Prelude.{◌≡◌};
    ghost use Rattle.jt_scan.specs.declared.error.ScanError.TheVariants.{NoMemory};

    ghost from_gives = { λ _ e. e ≡ NoMemory };

    fn from(_e: AllocFailed<T>) -> ScanError {
        ScanError::NoMemory
    }
}
