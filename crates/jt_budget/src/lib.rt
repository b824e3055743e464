//! Defines budgets: the resources that a run may use, and the name of the one that was spent.
//!
//! The five numbers of a budget are in `budget`, and their names in `spent`. Read first: budget.rt.
#![tactic(auto)]

mod budget;
mod spent;

pub use budget::Budget;
pub use spent::Spent;
