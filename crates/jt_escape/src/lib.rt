//! Escapes texts so that HTML reads them as text, and joins values so that markup is kept.
//!
//! The five characters are in escaping, and the rule of `join` in joining. Texts with escapes that
//! a crate above chooses are in showing. Read first: specs/Escaping.antt.
#![tactic(auto)]

mod escaping;
mod joining;
mod showing;

pub use escaping::escape_into;
pub use joining::{join_markup, join_plain};
pub use showing::{Escapes, push_shown};
