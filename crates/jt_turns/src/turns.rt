//! Runs images in turns.
ghost use Rattle.std.specs.Prelude.{◌≡◌};
ghost use Rattle.jt_turns.specs.Numbering.{ids_from, ids_of};

use crate::lines::lines;
use crate::rounds::run_all;
use jt_budget::Budget;
use jt_machine::session_laws;
use jt_sessions::{Host, HostError};
use jt_value::Context;
use jt_verify::Verified;
use std::alloc::Global;

/// An image, and the context for which it runs.
#[derive(Drop)]
pub struct Start {
    pub code: Verified,
    pub context: Context,
}

/// Sessions of images that take turns. Their ids are 1, 2, 3 and so on, and none is closed.
#[derive(Drop)]
pub struct Sessions {
    host: Host,
    count: u64,
    ghost numbered: { ids_of host.sessions ≡ ids_from 1 count },
    ghost last: { host.last ≡ count },
}

impl Sessions {
    ghost use Rattle.std.specs.Prelude.{◌++◌, ◌∷◌, [], List, IfErr, OnOk, OnErr};
    ghost use Rattle.jt_machine.specs.View.{budget_view};
    ghost use Rattle.jt_turns.specs.Openings.{Opening, under};
    ghost use Rattle.jt_turns.specs.Outcomes.{IsNotOpened, TakesTurns};
    ghost use Rattle.jt_turns.specs.SessionStates.{Stands};
    ghost use Rattle.jt_turns.specs.Worlds.{world_of};

    /// Returns sessions of no image.
    pub fn new(alloc: Global) -> Sessions
        ensures { Stands [] (world_of result) }
    {
        Sessions {
            host: Host::new(alloc),
            count: 0,
        }
    }

    /// Opens the session of an image for its context under a budget of its own.
    ///
    /// # Errors
    ///
    /// Each error leaves the sessions unchanged.
    ///
    /// - `Full` if 64 sessions are open.
    /// - `NoMemory` if a growth is refused.
    pub fn open(&mut self, start: Start, budget: Budget) -> Result<(), HostError>
        ensures opened { OnOk result ((openings : List Opening)
            → Stands openings (world_of self.old)
            → Stands (openings ++ under (budget_view budget) start ∷ []) (world_of self.new)) }
        ensures refused { IfErr result (λ e. (openings : List Opening)
            → Stands openings (world_of self.old)
            → IsNotOpened openings e) }
        ensures unchanged { OnErr result (world_of self.new ≡ world_of self.old) }
    {
        let Start { code, context } = start;
        match self.host.open(code, &context, budget) {
            Ok(id) => {
                self.count = id;
                Ok(())
            }
            Err((_, error)) => Err(error),
        }
    }

    /// Runs the sessions in turns of `slice` instructions, or of one if `slice` is 0. Returns the
    /// line of each in order: `1 text 5:Hello`, with the number of the text's bytes, `2 fault F2
    /// Undefined` or `3 spent Fuel`.
    ///
    /// # Errors
    ///
    /// `NoMemory` if a growth is refused.
    pub fn run(self, alloc: Global, slice: u32) -> Result<String, HostError>
        ensures { (openings : List Opening)
            → Stands openings (world_of self)
            → TakesTurns openings result }
    {
        session_laws();
        let Sessions { mut host, count } = self;
        run_all(&mut host, count, slice.max(1))?;
        lines(alloc, &host, count).map_err(|_| HostError::NoMemory)
    }
}
