//! Finds what is suspicious in a chain that compiles: prints that have no value in a context, and
//! blocks that no layout prints.
//!
//! - The prints and the outermost blocks of a template: `tags`.
//! - The paths that are printed, and the names of them that have a value: `paths`.
//! - The names that templates bind, and the blocks of the templates above one: `names`.
//! - The notes: `noting`.
//!
//! Nothing here decides whether a template compiles. Read first: specs/Notes.antt.
#![tactic(auto)]

mod names;
mod noting;
mod paths;
mod tags;

pub use names::names_above;
pub use noting::{Note, NoteKind, notes_on};
