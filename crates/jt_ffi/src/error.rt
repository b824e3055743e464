//! Defines the errors of a call.
ghost use Rattle.std.specs.Prelude.{◌≡◌};

use jt_host::CallError;
use std::alloc::{AllocError, AllocFailed};

/// The reason why a call returns neither a text nor an image.
#[derive(Debug, Drop)]
pub enum FfiError {
    /// Lengths of names and sources that do not sum to the number of bytes.
    Lengths,
    /// A name or a source that is not UTF-8.
    NotText,
    /// A handle that does not hold the kind of value that the call needs.
    NotHeld,
    /// The error of the call of jt_host.
    Call(CallError),
}

impl From<CallError> for FfiError {
    ghost use Rattle.jt_ffi.specs.declared.error.FfiError.TheVariants.{Call};

    ghost from_gives = { λ error e. e ≡ Call error };

    fn from(error: CallError) -> FfiError {
        FfiError::Call(error)
    }
}

impl From<AllocError> for FfiError {
    ghost use Rattle.jt_host.specs.declared.CallError.TheVariants as call_error;
    ghost use Rattle.jt_ffi.specs.declared.error.FfiError.TheVariants.{Call};

    ghost from_gives = { λ _ e. e ≡ Call call_error.NoMemory };

    fn from(_error: AllocError) -> FfiError {
        FfiError::Call(CallError::NoMemory)
    }
}

impl<T: Drop> From<AllocFailed<T>> for FfiError {
    ghost use Rattle.jt_host.specs.declared.CallError.TheVariants as call_error;
    ghost use Rattle.jt_ffi.specs.declared.error.FfiError.TheVariants.{Call};

    ghost from_gives = { λ _ e. e ≡ Call call_error.NoMemory };

    fn from(_error: AllocFailed<T>) -> FfiError {
        CallError::NoMemory.into()
    }
}
