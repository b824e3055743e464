//! Orders chains and libraries, and names a ring if they have no order.

ghost use Rattle.std.specs.Prelude.{◌≡◌, ◌<◌, ◌⊎◌, map, length, string_bytes, IfOk, IfErr};
ghost use Rattle.std.specs.List.{AllByRecursion};
ghost use Rattle.jt_graph.specs.Graph.{IsOrder, IsRing};
ghost use Rattle.jt_graph.specs.View.{graph_of};
ghost use Rattle.jt_inherit.specs.Findings.{IsNoMemory};
ghost use Rattle.jt_inherit.specs.internal.Found.{AllFollowed, found_namespaces, found_paths};
ghost use Rattle.jt_inherit.specs.internal.Found.{found_templates};
ghost use Rattle.jt_inherit.specs.internal.Placing.{HasRing, IsOfRing, last_number, name_at};

use crate::discovery::{Discovery, leading_tag, name_of};
use crate::error::ChainError;
use crate::finding::{ChainFinding, ChainSubject};
use jt_graph::{OrderError, Ring, order};
use std::alloc::{AllocError, Global};

/// Returns the names of the chains and libraries of numbers.
fn names_of(alloc: Global, found: &Discovery, numbers: &[usize]) -> Result<Vec<String>, AllocError>
    requires { AllByRecursion (λ i. i < length (found_namespaces found.now)) numbers.now }
    ensures { IfOk result (λ names. map string_bytes names.items
        ≡ map (name_at (found_namespaces found.now)) numbers.now) }
{
    let mut names = Vec::with_capacity(alloc, numbers.len())?;
    for number in numbers {
        names.push(name_of(alloc, found, *number)?)?;
    }
    Ok(names)
}

/// Returns the last number of a ring.
fn last_of(ring: &Ring) -> usize
    ensures { result ≡ last_number ring.now.first ring.now.others.items }
{
    match ring.others.last() {
        Some(last) => *last,
        None => ring.first,
    }
}

/// Returns the finding of a ring, with the tag that closes it.
fn ring_finding(alloc: Global, found: &Discovery, ring: &Ring) -> Result<ChainFinding, AllocError>
    requires all { AllFollowed found.now }
    requires ring { IsRing (graph_of found.now.next.items) ring.now.first ring.now.others.items }
    ensures { IfOk result (IsOfRing (found_templates found.now) (found_namespaces found.now)
        (found_paths found.now) ring.now.first ring.now.others.items) }
{
    let last = last_of(ring);
    let place = leading_tag(alloc, found, last, ring.first)?;
    let name = name_of(alloc, found, ring.first)?;
    let rest = names_of(alloc, found, &ring.others)?;
    Ok(ChainFinding {
        error: ChainError::IncludeCycle,
        place,
        subject: Some(ChainSubject::Ring { name, rest }),
    })
}

/// Returns the numbers of the chains and libraries that were found, each before those that it leads
/// to.
///
/// # Errors
///
/// - The finding of a ring, if there is no order.
/// - That of `NoMemory` if a growth is refused.
pub(crate) fn order_of(alloc: Global, found: &Discovery) -> Result<Vec<usize>, ChainFinding>
    requires { AllFollowed found.now }
    ensures ordered { IfOk result (λ nodes. IsOrder (graph_of found.now.next.items) nodes.items) }
    ensures refused { IfErr result (λ f. IsNoMemory f ⊎ HasRing (found_templates found.now)
        (found_namespaces found.now) (found_paths found.now) (graph_of found.now.next.items) f) }
{
    match order(alloc, &found.next) {
        Ok(nodes) => Ok(nodes),
        Err(OrderError::Cycle(ring)) => Err(ring_finding(alloc, found, &ring)?),
        Err(OrderError::NoMemory) => Err(ChainFinding::without_place(ChainError::NoMemory)),
    }
}
