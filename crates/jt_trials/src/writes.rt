//! Tests writers that take their input in pieces.

use crate::memory_library::{context_of, templates_of};
use crate::stop::Stop;
use jt_args::DEFAULT;
use jt_codegen::compile;
use jt_host::context_from_json;
use jt_machine::{IoSink, RunToError, Sink, run_to};
use jt_scan::Options;
use jt_value::Context;
use jt_verify::{Verified, verify};
use std::alloc::Global;
use std::io;

/// The greatest number of bytes that a writer without memory takes.
const ROOM: usize = 256;

/// The last call at which a writer is made to fail, and the lengths of its pieces.
const CALLS: u32 = 1_000;

const PIECES: [usize; 3] = [1, 2, 1_000];

/// A writer into a buffer of its own, which takes one byte per call and allocates nothing.
#[derive(Drop)]
pub(crate) struct Taken {
    room: [u8; ROOM],
    len: usize,
}

impl Taken {
    /// Returns a writer that has taken nothing.
    pub(crate) fn new() -> Taken {
        Taken {
            room: [0; ROOM],
            len: 0,
        }
    }

    /// Returns the text that the writer took.
    pub(crate) fn text(&self) -> &str {
        match self.room.get(..self.len) {
            Some(bytes) => std::str::from_utf8(bytes).unwrap_or("?"),
            None => "?",
        }
    }
}

impl io::Write for Taken {
    fn write(&mut self, buf: &[u8]) -> io::Result<usize> {
        let Some(byte) = buf.first() else {
            return Ok(0);
        };
        let Some(place) = self.room.get_mut(self.len) else {
            return Ok(0);
        };
        *place = *byte;
        self.len += 1;
        Ok(1)
    }

    fn flush(&mut self) -> io::Result<()> {
        Ok(())
    }
}

/// A writer that takes pieces of some length and fails at one of its calls. After the failure it
/// would take more.
#[derive(Drop)]
struct Flaky {
    taken: Vec<u8>,
    piece: usize,
    calls: u32,
    fails_at: u32,
}

impl Flaky {
    fn new(alloc: Global, piece: usize, fails_at: u32) -> Flaky {
        Flaky {
            taken: Vec::new(alloc),
            piece,
            calls: 0,
            fails_at,
        }
    }
}

impl io::Write for Flaky {
    fn write(&mut self, buf: &[u8]) -> io::Result<usize> {
        self.calls = self.calls.saturating_add(1);
        let count = buf.len().min(self.piece);
        if self.calls == self.fails_at || self.taken.extend_from_slice(&buf[..count]).is_err() {
            return Err(io::Error::from(io::ErrorKind::BrokenPipe));
        }
        Ok(count)
    }

    fn flush(&mut self) -> io::Result<()> {
        Ok(())
    }
}

/// Runs a row into writers that fail at their first call, at their second one and so on, until the
/// run ends before the failure.
pub(crate) fn write_answers(rt: &HostRuntime, row: &str) -> Result<(), Stop> {
    let alloc = rt.alloc();
    let memory_library = templates_of(alloc, row)?;
    let Ok(context) = context_from_json(alloc, context_of(row)) else {
        return Err(Stop::Other);
    };
    let Ok(image) = compile(alloc, "t", &memory_library, Options::new()) else {
        return Err(Stop::Other);
    };
    let Ok(verified) = verify(alloc, image) else {
        return Err(Stop::Other);
    };
    for piece in PIECES.iter() {
        for before in 0..CALLS {
            let writer = Flaky::new(alloc, *piece, before + 1);
            if is_whole(rt, &verified, &context, writer)? {
                break;
            }
        }
    }
    Ok(())
}

/// Prints the bytes that a writer took of a run, and the result of the run. Returns whether the
/// writer did not fail.
fn is_whole(
    rt: &HostRuntime,
    verified: &Verified,
    context: &Context,
    writer: Flaky,
) -> Result<bool, Stop> {
    let (piece, fails_at) = (writer.piece, writer.fails_at);
    let mut sink = IoSink::new(writer);
    let answer = run_to(rt.alloc(), verified, context, DEFAULT, &mut sink);
    let has_failed = sink.has_failed();
    let writer = sink.into_inner();
    let taken = std::str::from_utf8(&writer.taken).unwrap_or("?");
    let calls = writer.calls;
    println!(rt; "{piece} {fails_at} {calls} {has_failed} {answer:?} {taken:?}")?;
    Ok(!matches!(answer, Err(RunToError::Write)))
}
