//! Tests the calls of the libraries: with growths refused, over writers that fail, and on bytes and
//! sources that strangers change. Each line of standard input names a trial and its subject:
//!
//!     calls ROW                  the calls on a row; if a growth is refused, one of them fails for
//!                                lack of memory and is repeated with what it returned, and the
//!                                other calls return as ever. The row's image is kept for `turns`
//!     values                     calls on values, on texts and on the parts of an image
//!     turns                      the events of a host with a session of each image so far
//!     writes ROW                 runs into writers that fail once, at each of their calls
//!     image AT STEP JSON¦HEX     each beginning and each change of an image at the positions AT,
//!                                AT + STEP and so on
//!     sources AT STEP ROW        each beginning and each change of the sources of a row at
//!                                such positions
//!     plain JSON¦HEX             an image beside a reference machine
//!
//! A row is templates, a context and options with `¦` between, as in tests/run.py. Status 6 reports
//! that a growth outside of the calls was refused.
#![tactic(auto)]

mod calls;
mod changes;
mod images;
mod memory_library;
mod plain;
mod positions;
mod runs;
mod sources;
mod stop;
mod turns;
mod values;
mod writes;

use calls::row_answers;
use images::image_answers;
use jt_value::Context;
use jt_verify::Verified;
use plain::reference_answers;
use sources::source_answers;
use std::io;
use std::process::ExitCode;
use stop::Stop;
use turns::turn_answers;
use values::value_answers;
use writes::write_answers;

fn main(rt: HostRuntime) -> ExitCode {
    match answers(&rt) {
        Ok(()) => ExitCode::SUCCESS,
        Err(Stop::NoMemory) => ExitCode::from(6),
        Err(Stop::Other) => ExitCode::FAILURE,
    }
}

/// Runs the trial of each line of standard input.
fn answers(rt: &HostRuntime) -> Result<(), Stop> {
    let lines = io::read_to_string(rt.alloc(), rt.stdin())?;
    let mut starts = Vec::new(rt.alloc());
    for line in lines.lines() {
        starts = answered(rt, line, starts)?;
    }
    Ok(())
}

/// Runs the trial of a line. Returns `starts` with the row's image and context, if any, at the end.
fn answered(
    rt: &HostRuntime,
    line: &str,
    mut starts: Vec<(Verified, Context)>,
) -> Result<Vec<(Verified, Context)>, Stop> {
    let (trial, of) = line.split_once(' ').unwrap_or((line, ""));
    match trial {
        "calls" => {
            if let Some(start) = row_answers(rt, of)? {
                starts.push(start)?;
            }
            return Ok(starts);
        }
        "turns" => {
            turn_answers(rt, starts)?;
            return Ok(Vec::new(rt.alloc()));
        }
        "values" => value_answers(rt)?,
        "writes" => write_answers(rt, of)?,
        "image" => image_answers(rt, of)?,
        "sources" => source_answers(rt, of)?,
        "plain" => reference_answers(rt, of)?,
        _ => return Err(Stop::Other),
    }
    Ok(starts)
}
