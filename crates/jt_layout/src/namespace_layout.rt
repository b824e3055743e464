//! Defines the layout of one chain or library.

use jt_names::{NameIndex, NamespaceFacts};

/// The layout of one chain or library: the global slots of its names, and the units of its macros
/// and bodies. A library has no globals, and no unit of its own.
#[derive(Drop)]
pub struct NamespaceLayout<'f, 'a> {
    pub is_library: bool,
    /// What is known of the chain or library.
    pub known: &'f NamespaceFacts<'a>,
    /// The names of the chain and of the chains that it includes, in the order of their slots.
    pub names: Vec<&'a str>,
    /// The slot of each name.
    pub slots: NameIndex<'a>,
    pub first_slot: usize,
    /// The unit of the chain.
    pub unit: usize,
    /// The unit of the first macro.
    pub macro_unit: usize,
    /// The unit of the first body of a block.
    pub body_unit: usize,
    /// The index of the first macro of each name.
    pub called: NameIndex<'a>,
    /// The pool index of each macro's first default.
    pub defaults: Vec<usize>,
    /// For each body, the index of the next body of its block that is not required.
    pub next_bodies: Vec<Option<usize>>,
    /// The blocks that have the names of the scopes as parameters.
    pub scoped: NameIndex<'a>,
}
