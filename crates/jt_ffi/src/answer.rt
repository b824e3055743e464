//! Writes the answer of a call.
ghost use Rattle.std.specs.Prelude.{◌≡◌};
ghost use Rattle.jt_ffi.specs.Answers.{IsAnswer, IsExplanationAnswer, Reports, ReportsError};
ghost use Rattle.jt_ffi.specs.Answers.{ReportsExplanation, ReportsFailure, fault_number};
ghost use Rattle.jt_ffi.specs.Answers.{line_at, put as put_in, spent_number};
ghost use Rattle.jt_ffi.specs.Slices.{ReportsEnd};
ghost use Rattle.jt_machine.specs.View.{outcome_view};

use crate::error::FfiError;
use jt_host::{CallError, Explanation, Fault, Outcome, Spent, TagPlace};
use std::alloc::Global;

/// The end of a call, and the length of its result, whether or not the buffer holds it.
#[repr(C)]
#[derive(Clone, Copy)]
pub struct Answer {
    /// The exit status of the program: 0 done, 1 fault, 2 misuse, 3 refused, 4 spent, 6 memory.
    pub status: u32,
    /// The details of the status, or 0:
    /// - of a fault its number, 2 for F2;
    /// - of a spent budget 1 fuel, 2 depth, 3 output, 4 size, 5 nesting;
    /// - of misuse 1 lengths, 2 not text, 3 not held, 4 not ended;
    /// - of an explanation the number of the refusal, 3 for P3.
    pub code: u32,
    /// The line of the tag of a fault or of an explained refusal, counted from 1; 0 if the place is
    /// not known, and in every other case.
    pub line: u32,
    /// The letter of an explained refusal, `P` for P3; 0 in every other case.
    pub letter: u32,
    /// The length in bytes of the result: the text, the image or the explanation, the template of a
    /// fault, or the reason of a refusal.
    pub length: u64,
}

/// Writes the result of a call to the buffer and returns the answer.
pub(crate) fn write_result(
    alloc: Global,
    out: &mut [u8],
    outcome: &Result<Vec<u8>, FfiError>,
) -> Answer
    ensures { Reports outcome.now out.old out.new result }
{
    match outcome {
        Ok(bytes) => write_answer(out, bytes.as_slice(), 0, 0, 0),
        Err(error) => write_failure(alloc, out, error),
    }
}

/// Writes an explanation to the buffer and returns the answer.
pub(crate) fn write_explanation(
    alloc: Global,
    out: &mut [u8],
    outcome: &Result<Explanation, FfiError>,
) -> Answer
    ensures { ReportsExplanation outcome.now out.old out.new result }
{
    match outcome {
        Ok(explanation) => write_explained(out, explanation),
        Err(error) => write_failure(alloc, out, error),
    }
}

/// Writes the text of an explanation to the buffer. Returns the answer with the code of the
/// refusal and the line.
fn write_explained(out: &mut [u8], explanation: &Explanation) -> Answer
    ensures { IsExplanationAnswer explanation.now out.old out.new result }
{
    let text = explanation.text.as_bytes();
    let Some(refusal) = &explanation.refusal else {
        return write_answer(out, text, 0, 0, 0);
    };
    let number = u32::from(refusal.code.number);
    let answer = write_answer(out, text, 0, number, line_of(&refusal.place));
    Answer {
        letter: u32::from(refusal.code.letter),
        ..answer
    }
}

/// Returns the line of a place, or 0 if the place is not known.
fn line_of(place: &Option<TagPlace>) -> u32
    ensures { result ≡ line_at place.now }
{
    match place {
        Some(place) => place.line,
        None => 0,
    }
}

/// Writes the outcome of a run to the buffer and returns the answer.
pub(crate) fn write_outcome(out: &mut [u8], outcome: &Outcome) -> Answer
    ensures { ReportsEnd (outcome_view outcome.now) out.old out.new result }
{
    match outcome {
        Outcome::Text(text) => write_answer(out, text.as_bytes(), 0, 0, 0),
        Outcome::Fault(fault, Some(place)) => {
            let (name, line) = (place.template.as_bytes(), place.line);
            write_answer(out, name, 1, number_of_fault(*fault), line)
        }
        Outcome::Fault(fault, None) => write_answer(out, b"", 1, number_of_fault(*fault), 0),
        Outcome::Spent(spent) => write_answer(out, b"", 4, number_of_spent(*spent), 0),
    }
}

/// Writes the reason why a call has no result to the buffer and returns the answer.
fn write_failure(alloc: Global, out: &mut [u8], error: &FfiError) -> Answer
    ensures { ReportsFailure error.now out.old out.new result }
{
    match error {
        FfiError::Lengths => write_answer(out, b"", 2, 1, 0),
        FfiError::NotText => write_answer(out, b"", 2, 2, 0),
        FfiError::NotHeld => write_answer(out, b"", 2, 3, 0),
        FfiError::Call(error) => write_error(alloc, out, error),
    }
}

/// Writes an error to the buffer and returns the answer. A refusal has its reason with its code, as
/// `P1 Syntax in page line 2`.
fn write_error(alloc: Global, out: &mut [u8], error: &CallError) -> Answer
    ensures { ReportsError error.now out.old out.new result }
{
    match error {
        CallError::Fault(fault, Some(place)) => {
            let name = place.template.as_bytes();
            write_answer(out, name, 1, number_of_fault(*fault), place.line)
        }
        CallError::Fault(fault, None) => write_answer(out, b"", 1, number_of_fault(*fault), 0),
        CallError::Spent(spent) => write_answer(out, b"", 4, number_of_spent(*spent), 0),
        CallError::NoMemory => write_answer(out, b"", 6, 0, 0),
        refusal => match format!(in alloc; "{refusal}") {
            Ok(reason) => write_answer(out, reason.as_bytes(), 3, 0, 0),
            Err(_) => write_answer(out, b"", 6, 0, 0),
        },
    }
}

/// Writes `bytes` to the start of the buffer, if they fit, and returns the answer.
pub(crate) fn write_answer(
    out: &mut [u8],
    bytes: &[u8],
    status: u32,
    code: u32,
    line: u32,
) -> Answer
    ensures { IsAnswer bytes.now status code line out.old out.new result }
{
    put(out, bytes);
    Answer {
        status,
        code,
        line,
        letter: 0,
        length: bytes.len() as u64,
    }
}

/// Writes `bytes` to the start of the buffer, if they fit.
fn put(out: &mut [u8], bytes: &[u8])
    ensures { out.new ≡ put_in bytes.now out.old }
{
    if bytes.len() <= out.len() {
        out[..bytes.len()].copy_from_slice(bytes);
    }
}

/// Returns the number in a fault's code.
fn number_of_fault(fault: Fault) -> u32
    ensures { result ≡ fault_number fault }
{
    match fault {
        Fault::BadType => 1,
        Fault::Undefined => 2,
        Fault::Overflow => 3,
        Fault::ZeroDivide => 4,
        Fault::Unprintable => 5,
        Fault::NotIterable => 6,
        Fault::Unpack => 7,
        Fault::Range => 8,
        Fault::BadArgument => 9,
    }
}

/// Returns the number that an answer has for a number of the budget.
fn number_of_spent(spent: Spent) -> u32
    ensures { result ≡ spent_number spent }
{
    match spent {
        Spent::Fuel => 1,
        Spent::Depth => 2,
        Spent::Output => 3,
        Spent::Size => 4,
        Spent::Nesting => 5,
    }
}
