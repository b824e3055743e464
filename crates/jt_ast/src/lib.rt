//! Defines the syntax trees of templates and expressions, as written: no name is resolved yet.
//!
//! `expression` defines expressions, `statement` defines statements, and `written` finds the texts
//! and filters that parts of an expression denote. Read first: specs/Statements.antt and
//! specs/Expressions.antt.
#![tactic(auto)]

mod expression;
mod statement;
mod written;

pub use expression::{BinaryOperator, Expr, Literal, Polarity, UnaryOperator};
pub use statement::{Branch, FilterCall, IncludeContext, Missing, Parameter, Stmt, Template};
pub use written::{filter_of, literal_text};
