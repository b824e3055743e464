//! Implements filters on values, under limits of size and nesting. Re-exports the operations of
//! jt_ops and the ids.
//!
//! `apply` (`filters`) plans the result of a filter (`planning`, which has one line per filter),
//! and measures a plan before it builds it (`plans`). Filters that work on each item are in
//! `mapping`. Both use a module per kind of filter: `texts`, `scalars`, `listing`, `sorting`,
//! `unique`, `replacing`, `joining`. `maker` makes the items of lists, and `seen_numbers` finds
//! repeated numbers. jt_filter_semantics defines the results. Read planning.rt first.
#![tactic(auto)]

mod answers;
mod attributes;
mod codes;
mod digit_sort;
mod filters;
mod folding;
mod inner;
mod item_list;
mod joining;
mod kinds;
mod limiting;
mod listing;
mod maker;
mod mapping;
mod members;
mod operand;
mod planning;
mod plans;
mod replacing;
mod scalars;
mod seen_numbers;
mod sorting;
mod texts;
mod unique;

pub use filters::apply;
pub use jt_ids::{FilterId, OpId, TestId};
pub use jt_ops::{Limits, OpError, binary, binary_owned, range, test, unary};
