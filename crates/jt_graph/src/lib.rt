//! Orders the nodes of a graph so that each precedes its successors.
//!
//! `order` (in `ordering`) runs a depth-first search (in `walk`). The search stops at a ring (in
//! `stop`). Read first: specs/Graph.antt.
#![tactic(auto)]

mod closed;
mod error;
mod ordering;
mod stop;
mod walk;

pub use error::{OrderError, Ring};
pub use ordering::order;
