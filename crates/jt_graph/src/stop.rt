//! Defines the reason why a search stops, and follows a ring back to its first node.

ghost use Rattle.std.specs.Prelude.{◌≡◌, ◌⊎◌, ℕ, true};
ghost use Rattle.jt_graph.specs.Graph.{Graph, among, next_of};
ghost use Rattle.jt_graph.specs.internal.Walks.{IsStop, is_open, visit_of};

use crate::walk::Walk;
use std::alloc::AllocFailed;

/// The reason why a search stops. The walk's `ring` has the nodes.
#[derive(Clone, Copy)]
pub(crate) enum Stop {
    /// A path back to the open node `first`. `others` has the nodes before it, the first one last.
    Back,
    /// A ring of nodes.
    Ring,
    /// A refused growth.
    NoMemory,
}

impl Walk {
    /// Stops at an open node.
    #[inline(never)]
    pub(crate) fn back(&mut self, number: usize) -> Stop
        ensures { (g : Graph) (w : Walk) → is_open (visit_of w.visits.items number) ≡ true
            → IsStop g w self.new.ring number result }
    {
        self.ring.first = number;
        self.ring.others.clear();
        Stop::Back
    }

    /// Returns the stop of the search from a node that leads to the first node of the path. If the
    /// path leads back to this node, it is a ring.
    #[inline(never)]
    pub(crate) fn leave(&mut self, stop: Stop, number: usize) -> Stop
        ensures { (g : Graph) (v w : Walk) (i : ℕ)
            → ((j : ℕ) → is_open (visit_of w.visits.items j) ≡ true
            → (number ≡ j) ⊎ (is_open (visit_of v.visits.items j) ≡ true))
            → among i (next_of g number) ≡ true
            → IsStop g w self.old.ring i stop → IsStop g v self.new.ring number result }
    {
        match stop {
            Stop::Back => {
                if self.ring.first == number {
                    self.ring.others.reverse();
                    return Stop::Ring;
                }
                match self.ring.others.push(number) {
                    Ok(()) => Stop::Back,
                    Err(_) => Stop::NoMemory,
                }
            }
            other => other,
        }
    }
}

impl From<AllocFailed<usize>> for Stop {
    ghost use Rattle.std.specs.Prelude.{◌≡◌};
    ghost use Rattle.jt_graph.specs.declared.stop.Stop.TheVariants.{NoMemory};

    ghost from_gives = { λ _ e. e ≡ NoMemory };

    fn from(_e: AllocFailed<usize>) -> Stop {
        Stop::NoMemory
    }
}
