//! Orders the nodes of a graph.

ghost use Rattle.std.specs.Prelude.{◌≡◌, [], IfOk};
ghost use Rattle.jt_graph.specs.Graph.{HasCycle, IsClosed, IsOrder, IsRing};
ghost use Rattle.jt_graph.specs.View.{graph_of};

use crate::closed::is_closed;
use crate::error::{OrderError, Ring};
use crate::stop::Stop;
use crate::walk::{begin, visit};
use std::alloc::Global;

/// Returns the nodes of a graph, each before its successors; `next[i]` lists the successors of node
/// `i`. Returns an empty list if a successor is no node of the graph. Takes linear time in the
/// nodes and edges, and recurses as deep as the longest path.
///
/// # Errors
///
/// - `Cycle` if a node reaches itself, with a ring of nodes.
/// - `NoMemory` if a growth is refused.
pub fn order(alloc: Global, next: &[Vec<usize>]) -> Result<Vec<usize>, OrderError>
    ensures ordered { IsClosed (graph_of next.now)
        → IfOk result (λ nodes. IsOrder (graph_of next.now) nodes.items) }
    ensures elsewhere { ¬ IsClosed (graph_of next.now) → IfOk result (λ nodes. nodes.items ≡ []) }
    ensures cycle { (ring : Ring) → result ≡ Err (OrderError.Cycle ring)
        → HasCycle (graph_of next.now) }
    ensures ring { (ring : Ring) → result ≡ Err (OrderError.Cycle ring)
        → IsRing (graph_of next.now) ring.first ring.others.items }
{
    if !is_closed(next) {
        return Ok(Vec::new(alloc));
    }
    let mut walk = begin(alloc, next)?;
    for number in 0..next.len() {
        match visit(next, &mut walk, number) {
            Ok(()) => {}
            Err(Stop::Ring) => return Err(OrderError::Cycle(walk.ring)),
            Err(Stop::NoMemory) => return Err(OrderError::NoMemory),
            Err(Stop::Back) => unreachable!(),
        }
    }
    let mut order = walk.done;
    order.reverse();
    Ok(order)
}
