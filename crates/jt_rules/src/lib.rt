//! Defines the static rules of names and calls.
//!
//! Read first: specs/Rules.antt, with one predicate for each of the rules V1 to V5, over the uses
//! of a chain, which jt_uses lists. jt_checks checks the rules.
#![tactic(auto)]

mod error;

pub use error::ScopeError;
