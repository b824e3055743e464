//! Lists what a template does at each of its places, by one walk of its tree.
//!
//! `site` defines a use and its place. `expressions` and `statements` list the uses in expressions
//! and statements. Read first: specs/Uses.antt.
#![tactic(auto)]

mod expressions;
mod site;
mod statements;

pub use site::{Enclosing, Place, Use, UseSite};
pub use statements::uses_of;
