//! Formats the lines of sessions that have ended.
ghost use Rattle.std.specs.Prelude.{◌≡◌, ◌<◌, ◌≤◌, true, IfOk, string_bytes};
ghost use Rattle.jt_machine.specs.View.{limit_view, outcome_view};
ghost use Rattle.jt_turns.specs.Lines.{limit_name, session_line, session_lines};
ghost use Rattle.jt_turns.specs.SessionStates.{IsNumbered, OutcomeAt, have_ended, outcomes};

use crate::shown::line_of;
use jt_budget::Spent;
use jt_machine::Outcome;
use jt_sessions::Host;
use std::alloc::{AllocError, Global};

/// Returns the lines of the sessions 1 to `count`, all of which have ended.
pub(crate) fn lines(alloc: Global, host: &Host, count: u64) -> Result<String, AllocError>
    requires numbered { IsNumbered count host.now.sessions }
    requires ended { have_ended host.now.sessions ≡ true }
    ensures { IfOk result
        (λ text. string_bytes text ≡ session_lines 1 (outcomes host.now.sessions)) }
{
    let mut text = String::new(alloc);
    'ids: for before in 0..count {
        let id = before + 1;
        let outcome = outcome_at(host, count, id);
        text.push_str(&line(alloc, id, outcome)?)?;
    }
    Ok(text)
}

/// Returns the outcome of one of the sessions 1 to `count`, all of which have ended.
fn outcome_at(host: &Host, count: u64, id: u64) -> &Outcome
    requires first { 1 ≤ id }
    requires last { id ≤ count }
    requires numbered { IsNumbered count host.now.sessions }
    requires ended { have_ended host.now.sessions ≡ true }
    ensures { OutcomeAt id host.now.sessions (outcome_view result.now) }
{
    match host.outcome(id) {
        Ok(Some(outcome)) => outcome,
        Ok(None) => unreachable!(),
        Err(_) => unreachable!(),
    }
}

/// Returns the line of a session.
fn line(alloc: Global, id: u64, outcome: &Outcome) -> Result<String, AllocError>
    ensures { IfOk result (λ line. string_bytes line ≡ session_line id (outcome_view outcome.now)) }
{
    match outcome {
        Outcome::Text(text) => {
            let size = text.len();
            format!(in alloc; "{id} text {size}:{text}\n")
        }
        Outcome::Fault(fault, None) => {
            let told = format!(in alloc; "{id} fault {fault}")?;
            line_of(alloc, &told)
        }
        Outcome::Fault(fault, Some(place)) => {
            let template = place.template.as_str();
            let line = place.line;
            let told = format!(in alloc; "{id} fault {fault} in {template} line {line}")?;
            line_of(alloc, &told)
        }
        Outcome::Spent(spent) => {
            let limit = limit_text(*spent);
            format!(in alloc; "{id} spent {limit}\n")
        }
    }
}

/// Returns the name of a limit.
pub fn limit_text(spent: Spent) -> &'static str
    ensures { result.now ≡ limit_name (limit_view spent) }
{
    match spent {
        Spent::Fuel => "Fuel",
        Spent::Depth => "Depth",
        Spent::Output => "Output",
        Spent::Size => "Size",
        Spent::Nesting => "Nesting",
    }
}
