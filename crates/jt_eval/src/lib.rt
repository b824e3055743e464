//! Defines the evaluation of terms before names become slots:
//! - results, and faults with their places;
//! - loops and their fields;
//! - literals and printed values;
//! - filters and tests by name.
//!
//! The meaning by names and the meaning of resolved templates both use them. Read specs/Eval.antt
//! first.
#![tactic(auto)]

mod named;

pub use jt_ast::filter_of;
pub use named::{filter_parameters, test_of};
