//! Parses the tokens of a tag into an expression.
//!
//! `tag` has the entry point `expression`. `cursor` reads tokens, `grammar` and `rows` build trees,
//! and `moves` takes the tokens of one form. `reader` keeps the forms that wait for a tree, `part`
//! counts levels, and `named` finds unknown filters and tests. Read first: specs/Grammar.antt, with
//! one rule for each form, and reader.rt beside it.
#![tactic(auto)]

mod builders;
mod cursor;
mod error;
mod grammar;
mod laws;
mod moves;
mod named;
mod part;
mod pending;
mod reader;
mod rows;
mod tag;
mod words;

pub use builders::copy_of;
pub use cursor::Cursor;
pub use error::ExprError;
pub use grammar::{arguments, read};
pub use laws::expression_laws;
pub use named::{
    Named, any_unknown, any_unknown_argument, any_unknown_pair, has_unknown, is_filter_unknown,
};
pub use part::{LeveledExpr, LeveledList};
pub use rows::NestedForm;
pub use tag::expression;
pub use words::literal_of;
