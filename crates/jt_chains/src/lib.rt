//! Represents chains and libraries of templates as data.
//!
//! - A chain with all that it reaches: `chain`.
//! - Its templates: `layers`, and `files` with the table that finds the macros of a library.
//! - The macros of templates and the bodies of their blocks: `parts`.
//! - Includes and imports: `include_tags`.
//! - The definitions of its names: `definitions`.
//!
//! Read first: specs/Chain.antt; specs/Rules.antt has the rules C1 to C12.
#![tactic(auto)]

mod chain;
mod definitions;
mod files;
mod include_tags;
mod layers;
mod parts;

pub use chain::{Chain, Namespace};
pub use definitions::{DefinedName, Definition, file_named, holds_macros, is_private};
pub use files::TemplateFile;
pub use include_tags::{NeededTemplate, includes_at};
pub use layers::Layer;
pub use parts::{Block, Macro, blocks_of_file, macro_names, macros_of_file};
