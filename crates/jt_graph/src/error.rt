//! Defines the error of `order`.

use std::alloc::AllocError;

/// A ring of nodes: each one leads to the next one, and the last one to the first.
#[derive(Debug, Drop, PartialEq, Eq)]
pub struct Ring {
    pub first: usize,
    /// The nodes after the first, in order.
    pub others: Vec<usize>,
}

/// The reason why a graph has no order. It has no text, since only the caller knows what the nodes
/// are.
#[derive(Debug, Drop, PartialEq, Eq)]
pub enum OrderError {
    /// A ring of nodes.
    Cycle(Ring),
    /// A refused growth.
    NoMemory,
}

impl From<AllocError> for OrderError {
    ghost use Rattle.std.specs.Prelude.{◌≡◌};
    ghost use Rattle.jt_graph.specs.declared.error.OrderError.TheVariants.{NoMemory};

    ghost from_gives = { λ _ e. e ≡ NoMemory };

    fn from(_e: AllocError) -> OrderError {
        OrderError::NoMemory
    }
}
