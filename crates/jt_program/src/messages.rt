//! Defines the statuses and the failures of the program.

ghost use Rattle.std.specs.Prelude.{◌≡◌};
ghost use Rattle.jt_program.specs.Ending.{call_status, code_of, status_of, of_line, of_file};
ghost use Rattle.jt_program.specs.Ending.{of_host};

use crate::files::FileError;
use jt_args::JobError;
use jt_host::{CallError, HostError};
use jt_image::ImageError;
use std::alloc::AllocError;

/// The status with which the program ends.
#[derive(Clone, Copy, Debug, PartialEq, Eq)]
pub enum Status {
    Done,
    Fault,
    Usage,
    Refused,
    Spent,
    File,
    Memory,
}

impl Status {
    /// Returns the number of the status.
    pub fn code(self) -> u8
        ensures { result ≡ code_of self }
    {
        match self {
            Status::Done => 0,
            Status::Fault => 1,
            Status::Usage => 2,
            Status::Refused => 3,
            Status::Spent => 4,
            Status::File => 5,
            Status::Memory => 6,
        }
    }
}

/// The reason why the program did not perform its line. `report` prints it.
#[derive(Debug, Drop)]
pub enum Failure {
    /// A line that the program does not take, with the text to print.
    Usage(String),
    /// Words of the line that are not texts.
    Words,
    /// A refused template, image or context, a run without a text, or lack of memory.
    Call(CallError),
    /// A host that opens no further session.
    Host(HostError),
    /// The path of a file that could not be read or written.
    File(String),
    /// A text that could not be printed.
    Output,
}

impl Failure {
    /// Returns the status with which the program ends.
    pub fn status(&self) -> Status
        ensures { result ≡ status_of self.now }
    {
        match self {
            Failure::Usage(_) => Status::Usage,
            Failure::Words => Status::Usage,
            Failure::Call(error) => status_of_call(error),
            Failure::Host(_) => Status::Refused,
            Failure::File(_) => Status::File,
            Failure::Output => Status::File,
        }
    }
}

/// Returns the status with which the program ends at an error of a call.
fn status_of_call(error: &CallError) -> Status
    ensures { result ≡ call_status error.now }
{
    match error {
        CallError::Image(_) => Status::Refused,
        CallError::Code(_) => Status::Refused,
        CallError::Template(_) => Status::Refused,
        CallError::Context(_) => Status::Refused,
        CallError::Fault(_, _) => Status::Fault,
        CallError::Spent(_) => Status::Spent,
        CallError::NoMemory => Status::Memory,
    }
}

impl From<AllocError> for Failure {
    ghost use Rattle.jt_program.specs.Ending.{no_memory};

    ghost from_gives = { λ _ f. f ≡ no_memory };

    fn from(_error: AllocError) -> Failure {
        Failure::Call(CallError::NoMemory)
    }
}

impl From<CallError> for Failure {
    ghost use Rattle.jt_program.specs.declared.messages.Failure.TheVariants.{Call};

    ghost from_gives = { λ error f. f ≡ Call error };

    fn from(error: CallError) -> Failure {
        Failure::Call(error)
    }
}

impl From<ImageError> for Failure {
    ghost use Rattle.jt_host.specs.CallErrors.{of_image};
    ghost use Rattle.jt_program.specs.declared.messages.Failure.TheVariants.{Call};

    ghost from_gives = { λ fault f. f ≡ Call (of_image fault) };

    fn from(fault: ImageError) -> Failure {
        Failure::Call(fault.into())
    }
}

impl From<JobError> for Failure {
    ghost from_gives = { λ e f. f ≡ of_line e };

    fn from(error: JobError) -> Failure {
        match error {
            JobError::Usage(text) => Failure::Usage(text),
            JobError::NoMemory => Failure::Call(CallError::NoMemory),
        }
    }
}

impl From<HostError> for Failure {
    ghost from_gives = { λ error f. f ≡ of_host error };

    fn from(error: HostError) -> Failure {
        match error {
            HostError::NoMemory => Failure::Call(CallError::NoMemory),
            refusal => Failure::Host(refusal),
        }
    }
}

/// Converts an error of the file at `path`.
pub(crate) fn no_file(error: FileError, path: String) -> Failure
    ensures { result ≡ of_file error path }
{
    match error {
        FileError::Failed => Failure::File(path),
        FileError::NoMemory => Failure::Call(CallError::NoMemory),
    }
}
