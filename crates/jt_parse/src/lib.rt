//! Parses the segments of a template into a syntax tree.
//!
//! `parser` reads the segments and keeps a stack of open statements (`open_stmts`). `tags` reads
//! first tags into `opening_tags`, and `expression` calls jt_expr. `kept` trims text, `positions`
//! checks where statements are allowed, and `names` finds unknown filters and tests. `expressions`
//! passes on the calls and types of jt_expr. Read first: specs/Grammar.antt, with one rule for each
//! form, and specs/Kept.antt, which defines what marks trim.
#![tactic(auto)]

mod error;
mod expression;
mod kept;
mod names;
mod open_stmts;
mod opening_tags;
mod parser;
mod positions;
mod tags;

pub use error::ParseError;
pub use jt_ast::{
    BinaryOperator, Branch, Expr, FilterCall, IncludeContext, Literal, Missing, Parameter,
    Polarity, Stmt, Template, UnaryOperator,
};
pub use parser::{parse, parse_unchecked};

/// The calls and types of jt_expr: the parser of the tokens of one expression.
pub mod expressions {
    pub use jt_expr::{
        Cursor, ExprError, LeveledExpr, LeveledList, Named, NestedForm, any_unknown,
        any_unknown_argument, any_unknown_pair, arguments, copy_of, expression, expression_laws,
        has_unknown, is_filter_unknown, literal_of, read,
    };
}
