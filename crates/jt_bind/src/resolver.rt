//! Defines the resolver.

use crate::senv::StaticEnv;
use crate::tables::Tables;
use jt_ast::Expr;
use std::alloc::Global;

/// A resolver in a static environment. It resolves names to slots, by the layouts of the chains,
/// and literals and data to pool indices.
#[derive(Clone, Copy)]
pub(crate) struct Resolver<'t, 'f, 's, 'a> {
    pub alloc: Global,
    pub tables: &'t Tables<'f, 'a>,
    pub senv: StaticEnv<'s, 'a>,
}

/// The head of a loop: the line of its tag, the names of its targets, its items and its condition.
#[derive(Clone, Copy)]
pub(crate) struct ForTag<'e> {
    pub line: u32,
    pub names: &'e [String],
    pub over: &'e Expr,
    pub condition: &'e Option<Expr>,
}

/// The arguments of a call: the positional ones, and the keywords with their values.
#[derive(Clone, Copy)]
pub(crate) struct Arguments<'e> {
    pub row: &'e [Expr],
    pub pairs: &'e [(String, Expr)],
}
