//! Makes the calls that run an image.

use crate::calls::again;
use crate::stop::Stop;
use crate::writes::Taken;
use jt_args::DEFAULT;
use jt_image::{Code, ImageError, View, view};
use jt_machine::{IoSink, Machine, Progress, RunToError, run, run_to, run_view};
use jt_value::{Context, NoMemory};
use jt_verify::{Refusal, Verified, VerifiedView, verify_view};

/// The number of instructions of an advance, and the greatest number of advances of a run.
const SLICE: u32 = 7;

const ADVANCES: u32 = 1_000;

fn viewed<'a>(rt: &HostRuntime, bytes: &'a [u8]) -> Result<View<'a>, Stop> {
    let answer = view(rt.alloc(), bytes);
    print!(rt; "view: ")?;
    let answer = match answer {
        Err(ImageError::NoMemory) => {
            again(rt)?;
            view(rt.alloc(), bytes)
        }
        answer => answer,
    };
    match answer {
        Ok(view) => {
            println!(rt; "{} instructions", view.instructions())?;
            Ok(view)
        }
        Err(refusal) => {
            println!(rt; "{refusal}")?;
            Err(Stop::Other)
        }
    }
}

fn verified_view<'a>(rt: &HostRuntime, view: View<'a>) -> Result<VerifiedView<'a>, Stop> {
    let answer = verify_view(rt.alloc(), view);
    print!(rt; "verify_view: ")?;
    // The returned view is verified again.
    let answer = match answer {
        Err((view, Refusal::NoMemory)) => {
            again(rt)?;
            verify_view(rt.alloc(), view)
        }
        answer => answer,
    };
    match answer {
        Ok(verified) => {
            println!(rt; "{} instructions", verified.code().instructions())?;
            Ok(verified)
        }
        Err((_, refusal)) => {
            println!(rt; "{refusal}")?;
            Err(Stop::Other)
        }
    }
}

/// Reads, verifies and runs an image in place.
pub(crate) fn in_place(rt: &HostRuntime, bytes: &[u8], context: &Context) -> Result<(), Stop> {
    let verified = verified_view(rt, viewed(rt, bytes)?)?;
    let answer = run_view(rt.alloc(), &verified, context, DEFAULT);
    print!(rt; "run_view: ")?;
    let answer = match answer {
        Err(_) => {
            again(rt)?;
            run_view(rt.alloc(), &verified, context, DEFAULT)
        }
        answer => answer,
    };
    println!(rt; "{answer:?}")?;
    Ok(())
}

/// Runs an image to its end.
pub(crate) fn whole(rt: &HostRuntime, verified: &Verified, context: &Context) -> Result<(), Stop> {
    let answer = run(rt.alloc(), verified, context, DEFAULT);
    print!(rt; "run: ")?;
    let answer = match answer {
        Err(_) => {
            again(rt)?;
            run(rt.alloc(), verified, context, DEFAULT)
        }
        answer => answer,
    };
    println!(rt; "{answer:?}")?;
    Ok(())
}

/// Runs an image into a writer that takes one byte per call. If a growth is refused, a beginning of
/// the text was written.
pub(crate) fn in_pieces(
    rt: &HostRuntime,
    verified: &Verified,
    context: &Context,
) -> Result<(), Stop> {
    let mut sink = IoSink::new(Taken::new());
    let answer = run_to(rt.alloc(), verified, context, DEFAULT, &mut sink);
    print!(rt; "run_to: ")?;
    if let Err(RunToError::NoMemory) = answer {
        let written = sink.into_inner();
        print!(rt; "NoMemory behind [{}], then ", written.text())?;
        sink = IoSink::new(Taken::new());
        let answer = run_to(rt.alloc(), verified, context, DEFAULT, &mut sink);
        print!(rt; "{answer:?}")?;
    } else {
        print!(rt; "{answer:?}")?;
    }
    let written = sink.into_inner();
    println!(rt; " [{}]", written.text())?;
    Ok(())
}

/// Runs an image in slices. A lost run stays lost, and the image that it returns is run anew.
pub(crate) fn in_slices(
    rt: &HostRuntime,
    verified: Verified,
    context: &Context,
) -> Result<Verified, Stop> {
    let mut machine = started(rt, verified, context)?;
    let mut answer = advanced(&mut machine);
    print!(rt; "advance: ")?;
    if answer.is_err() {
        machine = restarted(rt, machine, context)?;
        answer = advanced(&mut machine);
    }
    let (verified, outcome) = machine.finish();
    println!(rt; "{answer:?} {outcome:?}")?;
    Ok(verified)
}

fn started(rt: &HostRuntime, verified: Verified, context: &Context) -> Result<Machine, Stop> {
    let answer = Machine::start(rt.alloc(), verified, context, DEFAULT);
    print!(rt; "start: ")?;
    // The returned image is started again.
    let answer = match answer {
        Err((verified, NoMemory)) => {
            again(rt)?;
            Machine::start(rt.alloc(), verified, context, DEFAULT)
        }
        answer => answer,
    };
    match answer {
        Ok(machine) => {
            println!(rt; "{:?}", machine.outcome())?;
            Ok(machine)
        }
        Err(_) => Err(Stop::Other),
    }
}

/// Advances a run to its end.
fn advanced(machine: &mut Machine) -> Result<Progress, NoMemory> {
    for _ in 0..ADVANCES {
        if machine.advance(SLICE)? == Progress::Done {
            return Ok(Progress::Done);
        }
    }
    Ok(Progress::Going)
}

/// Prints the results of a lost run, and starts its image anew.
fn restarted(rt: &HostRuntime, mut machine: Machine, context: &Context) -> Result<Machine, Stop> {
    let (none, more) = (machine.advance(0), machine.advance(SLICE));
    let is_lost = machine.is_lost() && machine.outcome().is_none();
    let (verified, outcome) = machine.finish();
    print!(rt; "NoMemory, lost {is_lost}, {none:?}, {more:?}, {outcome:?}, then ")?;
    Machine::start(rt.alloc(), verified, context, DEFAULT).map_err(|_| Stop::NoMemory)
}
