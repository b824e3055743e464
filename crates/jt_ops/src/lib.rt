//! Implements operators, tests and `range` on values, under limits of size and nesting.
//!
//! The modules:
//!
//! - `operators`: the entry points by operator; `operands`: faults of unsuitable operands;
//! - `arithmetic` and `ranges`: numbers;
//! - `joining` and `text`: sums, products and joins of texts and lists;
//! - `comparing` and `membership`: order and `in`;
//! - `item` and `testing`: items of values, and tests;
//! - `limits`: the limits of results, and the errors.
//!
//! jt_op_semantics defines the results. Read specs/Limited.antt first: the limits that apply to all
//! operations.
#![tactic(auto)]

mod arithmetic;
mod comparing;
mod item;
mod joining;
mod limits;
mod membership;
mod operands;
mod operators;
mod ranges;
mod testing;
mod text;

pub use arithmetic::{difference, product, remainder, sum};
pub use item::character_count;
pub use jt_ids::{OpId, TestId};
pub use limits::{Limits, OpError, allow, copy_within, within};
pub use operators::{binary, binary_owned, unary};
pub use ranges::range;
pub use testing::{test, test_of, test_of_text};
pub use text::{Piece, TextKind};
