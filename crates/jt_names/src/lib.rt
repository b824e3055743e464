//! Collects what is known of a chain, once: the facts of its templates, chains and libraries.
//!
//! - The facts, and how they are collected: `facts`, `templates` and `chains`.
//! - The names that uses read or bind, also in scopes, and the templates that they include: `own`.
//! - The names that a body sets: `sets`.
//! - Names in lists, in ascending order, and in maps: `lists`, `ordered` and `index`.
//!
//! Read first: specs/FactsOfChains.antt.
#![tactic(auto)]

mod chains;
mod facts;
mod index;
mod lists;
mod ordered;
mod own;
mod sets;
mod templates;

pub use chains::facts_of;
pub use facts::{ChainFacts, NamespaceFacts};
pub use index::{NameIndex, set_entry};
pub use lists::{keyword_names, names_of, parameter_names};
pub use ordered::{add_names, in_order, list_of};
pub use own::is_loop_name;
pub use sets::set_names;
pub use templates::{TemplateFacts, is_missing};
