//! Runs the program `jt`: `main` passes its words, files and outputs to `perform` of jt_program.
//! The writers of pipes.rt end a line quietly whose output nobody reads any more.
#![tactic(auto)]

mod pipes;

use crate::pipes::{Piped, Reasons};
use jt_host::CallError;
use jt_machine::IoSink;
use jt_program::{Failure, SystemFiles, perform, report};
use std::cell::Cell;
use std::io;
use std::process::ExitCode;

fn main(rt: HostRuntime) -> ExitCode {
    let status = match arguments(&rt) {
        Ok(words) => perform_on(&rt, words.as_slice()),
        Err(error) => report(&mut IoSink::new(rt.stderr()), &unread(&error)),
    };
    ExitCode::from(status)
}

/// Returns the words of the line without the program's name.
fn arguments(rt: &HostRuntime) -> io::Result<Vec<String>> {
    let words = std::env::args(rt)?.skip(1).collect(rt.alloc())?;
    Ok(words)
}

/// Returns why the words could not be read: memory ran out, or a word is not UTF-8.
fn unread(error: &io::Error) -> Failure {
    if error.kind() == io::ErrorKind::OutOfMemory {
        Failure::Call(CallError::NoMemory)
    } else {
        Failure::Words
    }
}

/// Performs the line `words` on the machine's own files and outputs, and returns the status.
fn perform_on(rt: &HostRuntime, words: &[String]) -> u8 {
    let alloc = rt.alloc();
    let mut texts = Vec::new(alloc);
    for word in words {
        if texts.push(word.as_str()).is_err() {
            return report(
                &mut IoSink::new(rt.stderr()),
                &Failure::Call(CallError::NoMemory),
            );
        }
    }
    let mut files = SystemFiles::new(rt);
    let is_closed = Cell::new(false);
    perform(
        alloc,
        texts.as_slice(),
        &mut files,
        &mut IoSink::new(Piped::new(rt.stdout(), &is_closed)),
        &mut IoSink::new(Reasons::new(rt.stderr(), &is_closed)),
    )
}
