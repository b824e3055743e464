//! Lets all sessions of a host take turns until each has ended.
ghost use Rattle.std.specs.Prelude.{◌≡◌, ◌≤◌, ◌<◌, true, false, IfOk, IfErr, OnOk};
ghost use Rattle.jt_sessions.specs.Turns.{TurnRefused};
ghost use Rattle.jt_turns.specs.SessionStates.{HadTurn, HaveMoved, IsNumbered, fuel_left};
ghost use Rattle.jt_turns.specs.SessionStates.{have_ended, progress_of};

use jt_machine::{Progress, session_laws};
use jt_sessions::{Host, HostError};

/// Lets the sessions 1 to `count` take turns until all have ended.
pub(crate) fn run_all(host: &mut Host, count: u64, slice: u32) -> Result<(), HostError>
    requires slice { 1 ≤ slice }
    requires numbered { IsNumbered count host.old.sessions }
    ensures moved { OnOk result (HaveMoved host.old.sessions host.new.sessions) }
    ensures ended { OnOk result (have_ended host.new.sessions ≡ true) }
    ensures err { IfErr result (λ e. e ≡ HostError.NoMemory) }
{
    session_laws();
    let mut going = true;
    'rounds: while going {
        going = run_each(host, count, slice)?;
    }
    Ok(())
}

/// Lets each of the sessions 1 to `count` take a turn, and returns whether one is still going.
fn run_each(host: &mut Host, count: u64, slice: u32) -> Result<bool, HostError>
    requires slice { 1 ≤ slice }
    requires numbered { IsNumbered count host.old.sessions }
    ensures moved { OnOk result (HaveMoved host.old.sessions host.new.sessions) }
    ensures left { OnOk result (fuel_left host.new.sessions ≤ fuel_left host.old.sessions) }
    ensures going { IfOk result
        (λ going. going ≡ true → fuel_left host.new.sessions < fuel_left host.old.sessions) }
    ensures ended { IfOk result (λ going. going ≡ false → have_ended host.new.sessions ≡ true) }
    ensures err { IfErr result (λ e. e ≡ HostError.NoMemory) }
{
    session_laws();
    let mut going = false;
    'ids: for before in 0..count {
        let goes_on = turn(host, before + 1, slice)?;
        going = goes_on || going;
    }
    Ok(going)
}

/// Lets a session take a turn, and returns whether it is still going.
fn turn(host: &mut Host, id: u64, slice: u32) -> Result<bool, HostError>
    ensures turned { IfOk result
        (λ goes_on. HadTurn host.old host.new id slice (progress_of goes_on)) }
    ensures refused { IfErr result (TurnRefused id slice host.old host.new) }
{
    match host.turn(id, slice) {
        Ok(Progress::Going) => Ok(true),
        Ok(Progress::Done) => Ok(false),
        Err(error) => Err(error),
    }
}
