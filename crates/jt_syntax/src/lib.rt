//! Finds the first token of a tag at which no expression goes on.
//!
//! - `kinds`: what a token is to the grammar;
//! - `frames`: the open brackets, and the place in the innermost one;
//! - `moves`: the place behind a token, if the token may stand there;
//! - `prefix`: the places of a list of tokens, and the token at which it gets stuck;
//! - `wanted`: what may stand behind tokens.
//!
//! It builds no trees. Read first: specs/Prefixes.antt, then moves.rt.
#![tactic(auto)]

mod frames;
mod kinds;
mod moves;
mod prefix;
mod wanted;

pub use prefix::stuck_at;
pub use wanted::{Wanted, wanted_behind};
