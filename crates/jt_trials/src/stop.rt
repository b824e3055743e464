//! Defines the reasons to stop early.

use jt_value::NoMemory;
use std::alloc::{AllocError, AllocFailed};
use std::io;
use std::num::ParseIntError;

/// The reason why the trials stop early: a growth outside of the calls was refused, or any other
/// error.
#[derive(Debug, Drop)]
pub(crate) enum Stop {
    NoMemory,
    Other,
}

impl From<io::Error> for Stop {
    fn from(error: io::Error) -> Stop {
        if error.kind() == io::ErrorKind::OutOfMemory {
            Stop::NoMemory
        } else {
            Stop::Other
        }
    }
}

impl From<AllocError> for Stop {
    fn from(_error: AllocError) -> Stop {
        Stop::NoMemory
    }
}

impl<T: Drop> From<AllocFailed<T>> for Stop {
    fn from(_error: AllocFailed<T>) -> Stop {
        Stop::NoMemory
    }
}

impl From<NoMemory> for Stop {
    fn from(_refused: NoMemory) -> Stop {
        Stop::NoMemory
    }
}

impl From<ParseIntError> for Stop {
    fn from(_error: ParseIntError) -> Stop {
        Stop::Other
    }
}
