//! Defines the operators, tests, filters and loop fields of the language, with their ids in an
//! image, their names and their numbers of values.
//!
//! One enum each (op_id, test_id, filter_id, loop_field). Read first: specs/FilterTable.antt, with
//! one row per filter. specs/OpTable.antt, specs/TestTable.antt and specs/LoopTable.antt are tables
//! of this form too.
#![tactic(auto)]

mod filter_id;
mod loop_field;
mod op_id;
mod test_id;

pub use filter_id::{ArgumentRole, FilterId};
pub use loop_field::LoopField;
pub use op_id::OpId;
pub use test_id::TestId;
