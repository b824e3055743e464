//! Implements a depth-first search over a graph.

ghost use Rattle.std.specs.Prelude.{◌≡◌, ◌<◌, ℕ, true, false, length, OnOk, IfOk, IfErr};
ghost use Rattle.jt_graph.specs.Graph.{IsClosed};
ghost use Rattle.jt_graph.specs.View.{graph_of};
ghost use Rattle.jt_graph.specs.internal.Walks.{IsWalk, IsStop, GoesOn, is_done, is_open, visit_of};

use crate::error::Ring;
use crate::stop::Stop;
use std::alloc::{AllocError, Global};

/// The state of a node in the search.
#[derive(Clone, Copy, PartialEq, Eq)]
pub(crate) enum VisitState {
    /// A node that was not visited yet.
    New,
    /// A node whose successors are being visited.
    Open,
    /// A finished node; all nodes that it reaches are finished.
    Done,
}

/// The state of a search: the state of each node, and the finished nodes. The node that finished
/// last comes first in the order.
#[derive(Drop)]
pub(crate) struct Walk {
    pub(crate) visits: Vec<VisitState>,
    pub(crate) done: Vec<usize>,
    /// If the search stops, what it found ([`Stop`]). It is no part of the results of `visit`, so
    /// that a level of the recursion takes little of the stack.
    pub(crate) ring: Ring,
}

/// Returns a search over the nodes of `next` that has not begun.
pub(crate) fn begin(alloc: Global, next: &[Vec<usize>]) -> Result<Walk, AllocError>
    ensures walk { IfOk result (IsWalk (graph_of next.now)) }
    ensures closed { IfOk result (λ w. (j : ℕ) → is_open (visit_of w.visits.items j) ≡ false) }
{
    Ok(Walk {
        visits: vec![in alloc; VisitState::New; next.len()]?,
        done: Vec::with_capacity(alloc, next.len())?,
        ring: Ring {
            first: 0,
            others: Vec::new(alloc),
        },
    })
}

/// Adds a node and all nodes that it reaches to the finished ones. The recursion is as deep as the
/// longest path from the node.
pub(crate) fn visit(next: &[Vec<usize>], walk: &mut Walk, number: usize) -> Result<(), Stop>
    requires within { number < length next.now }
    requires closed { IsClosed (graph_of next.now) }
    requires walked { IsWalk (graph_of next.now) walk.old }
    ensures walk { OnOk result (IsWalk (graph_of next.now) walk.new) }
    ensures goes { OnOk result (GoesOn walk.old walk.new) }
    ensures done { OnOk result (is_done (visit_of walk.new.visits.items number) ≡ true) }
    ensures stop { IfErr result
        (IsStop (graph_of next.now) walk.old walk.new.ring number) }
{
    match walk.visits[number] {
        VisitState::Done => return Ok(()),
        VisitState::Open => return Err(walk.back(number)),
        VisitState::New => {}
    }
    walk.visits[number] = VisitState::Open;
    for other in &next[number] {
        match visit(next, walk, *other) {
            Ok(()) => {}
            Err(stop) => return Err(walk.leave(stop, number)),
        }
    }
    walk.done.push(number)?;
    walk.visits[number] = VisitState::Done;
    Ok(())
}
