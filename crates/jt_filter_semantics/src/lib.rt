//! Defines the result of each filter: a value or a fault.
//!
//! The definitions:
//! - `Single`: filters that call no other filter; `Mapping`: filters that call filters or tests;
//! - `Filtering`: each filter on its values; `FilterIds`: filters by their ids;
//! - `Texts`, `Numbers`, `Listing`, `Ordering`, `Kinds`: parts of these definitions.
//!
//! Read specs/Single.antt first: it has one case per filter.
#![tactic(auto)]
