//! Holds the layouts of the chains and libraries.

ghost use Rattle.jt_layout.specs.NamespaceLayout.{IsNamespaceAt};
ghost use Rattle.std.specs.Prelude.{◌<◌, ◌≡◌};
ghost use Rattle.jt_bind.specs.internal.{is_none, IfOk, length, AreTables, IsTable, cenv_in};
ghost use Rattle.jt_bind.specs.internal.{namespace_in, order_in, a_chain, a_library, namespace_at};
ghost use Rattle.jt_bind.specs.internal.{keys};

use crate::Result;
use jt_chains::Chain;
use jt_layout::{NamespaceLayout, NamespaceTables, lay_out};
use jt_names::{ChainFacts, is_missing};
use std::alloc::Global;
use std::marker::Model;

/// The layouts of the chains and libraries, and the index of the selected one, which is resolved.
#[derive(Drop)]
pub(crate) struct Tables<'f, 'a> {
    scope: NamespaceTables<'f, 'a>,
}

impl<'f, 'a> Model for Tables<'f, 'a> {
    ghost use Rattle.std.specs.Coded.{codes};
    ghost use Rattle.jt_chains.specs.contracts.chain.Chain as chain;
    ghost use Rattle.jt_layout.specs.NamespaceLayout.{IsLaidOut};
    ghost use Rattle.jt_bind.specs.internal.Selected.{Chains};

    ghost Value = { Chains };

    ghost coded = { Prim.hlevel (codes, chain.the_row.coded) };

    ghost view = { λ t. record { chain = t.scope.chain; namespace = t.scope.namespace } };

    ghost invariant = { λ t. IsLaidOut t.scope };
}

impl<'f, 'a> Tables<'f, 'a> {
    /// Lays out the chains and libraries, and selects the entry's chain.
    pub(crate) fn new(alloc: Global, facts: &'f ChainFacts<'a>) -> Result<Self>
        ensures chain { IfOk result (λ t. t.chain.now ≡ facts.now.chain.now) }
        ensures first { IfOk result (λ t. t.namespace ≡ 0) }
    {
        let scope = lay_out(alloc, facts)?;
        Ok(Tables { scope })
    }

    /// Returns the chain that is laid out.
    pub(crate) fn chain(&self) -> &'a Chain
        ensures { result.now ≡ self.now.chain.now }
    {
        self.scope.chain
    }

    /// States a law: the selected index is in range.
    pub(crate) fn stands(&self)
        ensures { self.now.namespace < length (order_in self.now) }
    {
        let _ = &self.scope.namespace;
    }

    /// Returns the index of the selected chain or library.
    pub(crate) fn namespace(&self) -> usize
        ensures is { result ≡ self.now.namespace }
        ensures inside { result < length (order_in self.now) }
    {
        self.scope.namespace
    }

    /// Returns the layouts of all chains and libraries.
    pub(crate) fn namespaces(&self) -> &[NamespaceLayout<'f, 'a>]
        ensures all { length result.now ≡ length (order_in self.now) }
        ensures each { AreTables self.now result.now }
    {
        &self.scope.namespaces
    }

    /// Returns the layout of the chain or library at index `namespace`.
    pub(crate) fn at(&self, namespace: usize) -> &NamespaceLayout<'f, 'a>
        requires { namespace < length (order_in self.now) }
        ensures { IsTable self.now (namespace_at (order_in self.now) namespace) result.now }
    {
        &self.scope.namespaces[namespace]
    }

    /// Returns the layout of the selected chain or library.
    pub(crate) fn here(&self) -> &NamespaceLayout<'f, 'a>
        ensures { IsTable self.now (namespace_in self.now) result.now }
    {
        &self.scope.namespaces[self.scope.namespace]
    }

    /// Returns the index of the chain `name`.
    pub(crate) fn chain_index(&self, name: &str) -> Option<usize>
        ensures { IsNamespaceAt (order_in self.now) (a_chain name.now) result }
    {
        self.scope.indices.index_of(name)
    }

    /// Returns the index of the library `name`.
    pub(crate) fn library_index(&self, name: &str) -> Option<usize>
        ensures { IsNamespaceAt (order_in self.now) (a_library name.now) result }
    {
        self.scope.libraries.index_of(name)
    }

    /// Returns whether no template `name` was read.
    pub(crate) fn is_missing(&self, name: &str) -> bool
        ensures { result ≡ is_none ((cenv_in self.now).sources name.now) }
    {
        is_missing(self.scope.chain, name)
    }

    /// Returns the number of units.
    pub(crate) fn units(&self) -> usize
        ensures { result ≡ length (keys (cenv_in self.now) (order_in self.now)) }
    {
        self.scope.units
    }

    /// Selects the chain or library at index `namespace`.
    pub(crate) fn select(&mut self, namespace: usize)
        requires { namespace < length (order_in self.old) }
        ensures same { self.new.chain.now ≡ self.old.chain.now }
        ensures there { self.new.namespace ≡ namespace }
    {
        self.scope.namespace = namespace;
    }
}
