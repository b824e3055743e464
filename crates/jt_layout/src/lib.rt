//! Lays out the names, macros and bodies of chains and libraries: names in global slots, macros and
//! bodies as units.
//!
//! `lay_out` (in `layout`) makes a `NamespaceLayout` of each chain and library; a `NamespaceTables`
//! holds all of them. Read first: specs/NamespaceLayout.antt, which defines the meaning of the
//! tables.
#![tactic(auto)]

mod collected;
mod count;
mod indices;
mod layout;
mod namespace_layout;
mod namespace_tables;

pub use count::checked_sum;
pub use jt_value::NoMemory;
pub use layout::lay_out;
pub use namespace_layout::NamespaceLayout;
pub use namespace_tables::NamespaceTables;
