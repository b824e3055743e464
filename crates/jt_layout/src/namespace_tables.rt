//! Defines the layouts of all chains and libraries.

use crate::namespace_layout::NamespaceLayout;
use jt_chains::Chain;
use jt_names::NameIndex;

/// The layouts of all chains and libraries, and the selected one, which is resolved.
#[derive(Drop)]
pub struct NamespaceTables<'f, 'a> {
    pub chain: &'a Chain,
    pub namespaces: Vec<NamespaceLayout<'f, 'a>>,
    /// The indices of chains by name.
    pub indices: NameIndex<'a>,
    /// The indices of libraries by name.
    pub libraries: NameIndex<'a>,
    /// The number of units.
    pub units: usize,
    /// The index of the chain or library that is resolved.
    pub namespace: usize,
}
