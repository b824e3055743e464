//! Reads chains of templates: all that an entry extends, includes and imports.
//!
//! `chain` (in `chaining`) reads each template once (`reading`, `store`) and follows its path to
//! the root (`extends_path`). It finds the chains and libraries that are reached (`discovery`,
//! `including`) and orders them (`linking`, `rings`). Then it checks the rules on blocks, macros
//! and imports over the facts of the chain (`rules`, `importing`, `supers`). `sets` has the names
//! that were found, in order. The trait `Library` (in `library`) supplies the sources.
//! `refusal_laws` (in `laws`) states that a refusal is permanent. Read first: specs/Chains.antt,
//! which defines the chain of an entry.
#![tactic(auto)]

mod breaking;
mod chaining;
mod discovery;
mod error;
mod extends_path;
mod finding;
mod importing;
mod including;
mod laws;
mod library;
mod linking;
mod names;
mod placing;
mod reading;
mod rings;
mod rules;
mod sets;
mod store;
mod supers;
mod tags;

pub use chaining::chain;
pub use error::ChainError;
pub use finding::{ChainFinding, ChainSubject, TagPlace};
pub use jt_chains::{Block, Chain, Layer, Macro, Namespace, TemplateFile};
pub use laws::refusal_laws;
pub use library::Library;
pub use linking::link;
pub use rules::check_chains;
