//! Defines the reasons why bytes or parts are not an image.
ghost use Rattle.std.specs.Prelude.{◌≡◌};
ghost use Rattle.jt_image.specs.declared.error.ImageError.TheVariants.{NoMemory};

use jt_value::NoMemory;
use std::alloc::{AllocError, AllocFailed};
use thiserror::Error;

/// The reason why bytes or parts are not an image. A reader reports the first fault in the bytes.
#[derive(Clone, Copy, Debug, PartialEq, Eq, Error)]
pub enum ImageError {
    /// Bytes that do not begin with `JTBC`.
    #[error("I1 BadMagic")]
    BadMagic,
    /// An unknown version.
    #[error("I2 BadVersion")]
    BadVersion,
    /// Bytes that end early.
    #[error("I3 Truncated")]
    Truncated,
    /// Bytes after the end of the image.
    #[error("I4 Trailing")]
    Trailing,
    /// A text that is not UTF-8.
    #[error("I5 BadText")]
    BadText,
    /// An unknown opcode, or an unused field that is not 0.
    #[error("I6 BadOpcode")]
    BadOpcode,
    /// A table that is not in order.
    #[error("I7 BadTable")]
    BadTable,
    /// More bytes, locals or instructions, or a longer table or name, than is allowed.
    #[error("I8 LimitPassed")]
    LimitPassed,
    /// A refused growth.
    #[error("I9 NoMemory")]
    NoMemory,
}

impl From<AllocError> for ImageError {
    ghost from_gives = { λ _ e. e ≡ NoMemory };

    fn from(_e: AllocError) -> ImageError {
        ImageError::NoMemory
    }
}

impl<T: Drop> From<AllocFailed<T>> for ImageError {
    ghost from_gives = { λ _ e. e ≡ NoMemory };

    fn from(_e: AllocFailed<T>) -> ImageError {
        ImageError::NoMemory
    }
}

impl From<NoMemory> for ImageError {
    ghost from_gives = { λ _ e. e ≡ NoMemory };

    fn from(_e: NoMemory) -> ImageError {
        ImageError::NoMemory
    }
}
