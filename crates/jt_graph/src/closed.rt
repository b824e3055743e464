//! Checks that every successor in a graph is a node of the graph.

ghost use Rattle.std.specs.Prelude.{◌<◌, ◌↔◌, IsTrue};
ghost use Rattle.std.specs.List.{AllByRecursion};
ghost use Rattle.jt_graph.specs.Graph.{IsClosed};
ghost use Rattle.jt_graph.specs.View.{graph_of};

/// Returns whether each of the numbers is less than `count`.
fn are_below(numbers: &[usize], count: usize) -> bool
    ensures { IsTrue result ↔ AllByRecursion (λ i. i < count) numbers.now }
{
    for number in numbers {
        if *number >= count {
            return false;
        }
    }
    true
}

/// Returns whether every successor is a node of the graph.
pub(crate) fn is_closed(next: &[Vec<usize>]) -> bool
    ensures { IsTrue result ↔ IsClosed (graph_of next.now) }
{
    for others in next {
        if !are_below(others, next.len()) {
            return false;
        }
    }
    true
}
