//! Merges constants: equal constants occur once in a code.
//!
//! - table: the constants of a pool, each once.
//! - moving: instructions that name the new indices of constants.
//! - laws: the facts about codes with merged constants.
//! - error: why a pool has no table.
//!
//! Read first: specs/Merged.antt.
#![tactic(auto)]

mod error;
mod laws;
mod moving;
mod table;

pub use error::TableError;
pub use laws::merged_laws;
pub use moving::move_constants;
pub use table::{ConstantTable, constant_table};
