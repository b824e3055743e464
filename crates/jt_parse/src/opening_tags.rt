//! Defines the contents of the first tags of statements.

use jt_ast::{Expr, FilterCall, Parameter, Stmt};

/// The first tag of a loop: `for a, b in e if c`.
#[derive(Drop)]
pub struct LoopHead {
    pub targets: Vec<String>,
    pub over: Expr,
    pub condition: Option<Expr>,
}

/// The first tag of another statement that has a body.
#[derive(Drop)]
pub enum BlockStart {
    /// `set a`
    Text(String),
    /// `with a = e`
    Values(Vec<(String, Expr)>),
    /// `filter f`
    Filters(Vec<FilterCall>),
    /// `autoescape true`
    Escaping(bool),
    /// `macro f(a)`
    Macro(String, Vec<Parameter>),
    /// `block b scoped required`
    Block {
        name: String,
        scoped: bool,
        required: bool,
    },
}

/// The content of the first tag of a statement.
#[derive(Drop)]
pub enum Head {
    /// A whole statement, which has no body.
    Statement(Stmt),
    /// `if c`
    If(Expr),
    Loop(LoopHead),
    BlockStart(BlockStart),
}
