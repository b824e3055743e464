//! Compiles a chain that keeps the rules to a program, and states that the program has the meaning
//! of the chain.
//!
//! `resolve` (in `resolving`) collects the facts of the chain with jt_names. `resolve_facts` takes
//! facts that were collected: it lends them to jt_checks, which checks the rules, and to jt_bind,
//! which resolves the chain. Read first: specs/Means.antt.
#![tactic(auto)]

mod resolving;

pub use jt_checks::{Finding, Subject};
pub use jt_ir::Program as Resolved;
pub use jt_rules::ScopeError;
pub use resolving::{resolve, resolve_facts};
