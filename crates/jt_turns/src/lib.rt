//! Runs verified images in turns, and reports each in a line that does not depend on the turns.
//!
//! The sessions are opened (turns), have turns until each has ended (rounds), and are reported in
//! lines (lines). Read first: specs/Outcomes.antt and specs/Lines.antt.
#![tactic(auto)]

mod lines;
mod rounds;
mod shown;
mod turns;

pub use lines::limit_text;
pub use shown::{hex_digits, shown_text};
pub use turns::{Sessions, Start};
