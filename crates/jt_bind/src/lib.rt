//! Resolves names to slots, so that a chain becomes a program.
//!
//! `resolved` (in `resolving`) lays out the chains and libraries (`tables`) and resolves them in
//! order (`namespaces`, `routines`). A `Resolver` (`resolver`, `senv`) resolves statements
//! (`statements`) and the expressions in them (`expressions`), and in strict templates the values
//! that must be defined (`required`). Its environment keeps names in scopes (`name_scope`), and
//! values go into a pool (`pool`, `shared`). jt_checks decides whether chains keep the rules. Read
//! first: resolving.rt; specs/Resolve.antt of jt_semantics defines the result.
#![tactic(auto)]

mod argument_filling;
mod blocks;
mod callee;
mod emission;
mod expressions;
mod filter_calls;
mod held;
mod inclusion;
mod local_counts;
mod lookup;
mod name_scope;
mod namespaces;
mod operator_forms;
mod pool;
mod program_names;
mod required;
mod resolver;
mod resolving;
mod routines;
mod rows;
mod scope_entry;
mod senv;
mod shared;
mod statements;
mod tables;
mod targets;

pub use jt_value::NoMemory;
pub use resolving::resolved;

/// The result of a resolution, which fails only if a growth is refused or a number overflows.
pub(crate) type Result<T> = std::result::Result<T, NoMemory>;
