//! Runs sessions in turns.
ghost use Rattle.std.specs.Prelude.{◌≡◌, IfSome, IfNone, None};
ghost use Rattle.jt_sessions.specs.Turns.{find};
ghost use Rattle.jt_sessions.specs.internal.Positions.{IsAt};

use crate::error::HostError;
use jt_budget::Budget;
use jt_machine::{Machine, Outcome, Progress};
use jt_value::Context;
use jt_verify::Verified;
use std::alloc::Global;
use std::marker::Model;

// The number of sessions that may be open at one time.
const MAX_SESSIONS: usize = 64;

/// Runs of verified images that take turns, each under its own budget. Ids are 1, 2, 3 and so on.
/// No id is assigned twice.
#[derive(Drop)]
pub struct Host {
    alloc: Global,
    last: u64,
    sessions: Vec<(u64, Machine)>,
}

impl Model for Host {
    ghost use Rattle.jt_sessions.specs.Turns.{World};
    ghost use Rattle.jt_sessions.specs.WorldCode.{coded_world};

    ghost Value = { World };

    ghost coded = { coded_world };

    ghost view = { λ h. record { last = h.last; sessions = h.sessions.items } };
}

impl Host {
    ghost use Rattle.std.specs.Prelude.{◌≡◌, false, IfOk, IfErr, OnOk, OnErr, Some, option_map};
    ghost use Rattle.std.specs.Prelude.{option_copied};
    ghost use Rattle.jt_value.specs.ContextView.{pairs_of};
    ghost use Rattle.jt_machine.specs.View.{budget_view, outcome_view};
    ghost use Rattle.jt_machine.specs.Session.{outcome_of, is_lost};
    ghost use Rattle.jt_sessions.specs.Turns.{empty, opens, turns, closes, after, reply, opened};
    ghost use Rattle.jt_sessions.specs.Turns.{turned, closed, refused, SessionsRunAlone};
    ghost use Rattle.jt_sessions.specs.Turns.{OpenRefused, TurnRefused, OutcomeRefused};

    /// Returns a host with no sessions.
    pub fn new(alloc: Global) -> Host
        ensures empty { result ≡ empty }
        // Whatever sessions are opened, take turns and are closed, in whatever order, each runs as
        // it would alone.
        ensures alone { SessionsRunAlone }
    {
        Host {
            alloc,
            last: 0,
            sessions: Vec::new(alloc),
        }
    }

    /// Opens a session of an image for a context under a budget, and returns its id.
    ///
    /// # Errors
    ///
    /// Each error returns the image, and leaves the host unchanged.
    ///
    /// - `Full` if 64 sessions are open, and only then.
    /// - `NoId` if every id was assigned, and fewer than 64 sessions are open.
    /// - `NoMemory` if a growth is refused.
    pub fn open(
        &mut self,
        verified: Verified,
        context: &Context,
        budget: Budget,
    ) -> Result<u64, (Verified, HostError)>
        ensures opens { OnOk result (self.new
            ≡ after (opens verified (pairs_of context.now) (budget_view budget)) self.old) }
        ensures reply { IfOk result (λ id. reply
            (opens verified (pairs_of context.now) (budget_view budget)) self.old
            ≡ opened id) }
        ensures refused { IfErr result (λ e. OpenRefused self.old e.1) }
        ensures back { IfErr result (λ e. e.0 ≡ verified) }
        ensures unchanged { OnErr result (self.new ≡ self.old) }
    {
        if self.sessions.len() >= MAX_SESSIONS {
            return Err((verified, HostError::Full));
        }
        if self.last == u64::MAX {
            return Err((verified, HostError::NoId));
        }
        let machine = match Machine::start(self.alloc, verified, context, budget) {
            Ok(machine) => machine,
            Err((verified, _)) => return Err((verified, HostError::NoMemory)),
        };
        let id = self.last + 1;
        match self.sessions.push((id, machine)) {
            Ok(()) => {
                self.last = id;
                Ok(id)
            }
            Err(refused) => Err((image_of(refused.value), HostError::NoMemory)),
        }
    }

    /// Executes `k` instructions of a session, or fewer if its run ends, and returns whether it is
    /// still going.
    ///
    /// # Errors
    ///
    /// - `NoSession` if no session has the id. Nothing changes then.
    /// - `NoMemory` if a growth is refused, which only these instructions may request. This session
    ///   alone is then lost, and returns `NoMemory` until it is closed.
    pub fn turn(&mut self, id: u64, k: u32) -> Result<Progress, HostError>
        ensures turns { OnOk result (self.new ≡ after (turns id k) self.old) }
        ensures reply { IfOk result (λ p. reply (turns id k) self.old ≡ turned p) }
        ensures refused { IfErr result (TurnRefused id k self.old self.new) }
    {
        let Some(place) = place_of(&self.sessions, id) else {
            return Err(HostError::NoSession);
        };
        let machine = &mut self.sessions[place].1;
        let progress = match machine.advance(k) {
            Ok(progress) => progress,
            Err(_) => return Err(HostError::NoMemory),
        };
        Ok(progress)
    }

    /// Returns the outcome of a session, or `None` if its run has not ended.
    ///
    /// # Errors
    ///
    /// - `NoSession` if no session has the id.
    /// - `NoMemory` if the session is lost.
    pub fn outcome(&self, id: u64) -> Result<Option<&Outcome>, HostError>
        ensures outcome { IfOk result (λ o. Some (option_map outcome_view (option_copied o))
            ≡ option_map outcome_of (find id self.now.sessions)) }
        ensures going { OnOk result
            (option_map (λ s. is_lost s.stage) (find id self.now.sessions) ≡ Some false) }
        ensures refused { IfErr result (OutcomeRefused (find id self.now.sessions)) }
    {
        let Some(place) = place_of(&self.sessions, id) else {
            return Err(HostError::NoSession);
        };
        let machine = &self.sessions[place].1;
        if machine.is_lost() {
            return Err(HostError::NoMemory);
        }
        Ok(machine.outcome())
    }

    /// Closes a session and returns its outcome, or `None` if it was still going or lost.
    ///
    /// # Errors
    ///
    /// `NoSession` if no session has the id. Nothing changes then.
    pub fn close(&mut self, id: u64) -> Result<Option<Outcome>, HostError>
        ensures closes { self.new ≡ after (closes id) self.old }
        ensures reply { IfOk result
            (λ o. reply (closes id) self.old ≡ closed (option_map outcome_view o)) }
        ensures refused { IfErr result
            (λ e. (e ≡ HostError.NoSession) × (reply (closes id) self.old ≡ refused e)) }
    {
        let Some(place) = place_of(&self.sessions, id) else {
            return Err(HostError::NoSession);
        };
        let (_, machine) = self.sessions.remove(place);
        let (_, outcome) = machine.finish();
        Ok(outcome)
    }
}

// Returns the position of the session with this id.
fn place_of(sessions: &[(u64, Machine)], id: u64) -> Option<usize>
    ensures some { IfSome result (λ p. IsAt id p sessions.now) }
    ensures none { IfNone result (find id sessions.now ≡ None) }
{
    'places: for i in 0..sessions.len() {
        if sessions[i].0 == id {
            return Some(i);
        }
    }
    None
}

// Returns the image of a session that was not opened.
fn image_of(session: (u64, Machine)) -> Verified
    ensures { result ≡ session.1.code }
{
    let (_, machine) = session;
    let (verified, _) = machine.finish();
    verified
}
