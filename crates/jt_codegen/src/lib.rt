//! Compiles templates to images.
//!
//! `compile` (`compiling`) goes from an entry to an image: the chain is linked, its facts are
//! gathered once and checked (`linking`), and its program is emitted. Statements and routines are
//! emitted in `emission`, `targets` and `entries`, tables and places are built in `tables`,
//! `places` and `image`, limits are checked in `limits`, and refusals are in `error`. `explain`
//! (`explaining`) finds the place of a broken rule and the names in it, or the limit that an image
//! would pass (`finding`, `unknown`). `find_needs` (`needs`) finds what an image depends on. Read
//! first: compiling.rt, and specs/Compiled.antt, which states the guarantee.
#![tactic(auto)]

mod compiling;
mod emission;
mod entries;
mod error;
mod explaining;
mod finding;
mod image;
mod laws;
mod limits;
mod linking;
mod needs;
mod places;
mod tables;
mod targets;
mod unknown;

pub use compiling::compile;
pub use error::CompileError;
pub use explaining::explain;
pub use finding::{Explained, Finding, Limit, Subject};
pub use jt_inherit::{ChainError, ChainSubject, Library, TagPlace};
pub use jt_lower::{
    Emitter, call_of, data_of, emit_expression, emit_filtered, emit_row, fits_expression,
    fits_filtered, fits_row, flag, low_laws, store_of, unpack_of,
};
pub use jt_parse::ParseError;
pub use jt_scan::{Options, ScanError};
pub use jt_scopes::ScopeError;
pub use laws::compile_laws;
pub use needs::{Needs, find_needs};
