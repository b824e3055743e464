//! Makes the events of a host with a session of each row.

use crate::stop::Stop;
use jt_args::DEFAULT;
use jt_budget::Budget;
use jt_host::{Host, HostError};
use jt_value::Context;
use jt_verify::Verified;

/// The number of turns of a session, and the number of instructions of a turn.
const TURNS: u64 = 12;

const SLICE: u32 = 7;

/// Opens a session of each start, runs the turns of each in order, reads each outcome, and closes
/// all sessions. A returned image is opened again.
pub(crate) fn turn_answers(rt: &HostRuntime, starts: Vec<(Verified, Context)>) -> Result<(), Stop> {
    let mut host = Host::new(rt.alloc());
    let mut last = 0u64;
    for (verified, context) in starts {
        last = opened(rt, &mut host, verified, &context)?;
    }
    for _ in 0..TURNS {
        for before in 0..last {
            let id = before + 1;
            let answer = host.turn(id, SLICE);
            println!(rt; "turn {id}: {answer:?}")?;
        }
    }
    for before in 0..last {
        let id = before + 1;
        println!(rt; "outcome {id}: {:?}", host.outcome(id))?;
    }
    for before in 0..last {
        let id = before + 1;
        let answer = host.close(id);
        println!(rt; "close {id}: {answer:?}")?;
    }
    Ok(())
}

fn opened(
    rt: &HostRuntime,
    host: &mut Host,
    verified: Verified,
    context: &Context,
) -> Result<u64, Stop> {
    let budget: Budget = DEFAULT;
    let answer = host.open(verified, context, budget);
    print!(rt; "open: ")?;
    let answer = match answer {
        Err((verified, HostError::NoMemory)) => {
            print!(rt; "NoMemory, then ")?;
            host.open(verified, context, budget)
        }
        answer => answer,
    };
    match answer {
        Ok(id) => {
            println!(rt; "{id}")?;
            Ok(id)
        }
        Err((_, refusal)) => {
            println!(rt; "{refusal}")?;
            Err(Stop::Other)
        }
    }
}
