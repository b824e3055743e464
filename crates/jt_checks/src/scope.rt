//! Looks up by name the macros and libraries of a chain.

ghost use Rattle.std.specs.Prelude.{◌≡◌, ◌<◌, length, option_map};

use jt_chains::Definition;
use jt_names::{ChainFacts, NamespaceFacts};
use std::alloc::Global;

/// A chain or library, with what is known of all chains.
#[derive(Clone, Copy)]
pub(crate) struct Scope<'f, 'a> {
    pub(crate) alloc: Global,
    pub(crate) facts: &'f ChainFacts<'a>,
    pub(crate) namespace: usize,
    ghost stands: { namespace < length facts.now.chain.now.namespaces.items },
}

impl<'f, 'a> Scope<'f, 'a> {
    ghost use Rattle.jt_checks.specs.internal.ScopeView.{given_as, given_in, its_chain};
    ghost use Rattle.jt_names.specs.FactsOfChains.{IsKnown};

    /// Returns what is known of the chain or library.
    #[tactic(auto, using(jt_names::proofs::FactsByIndex::known_at))]
    pub(crate) fn known(&self) -> &'f NamespaceFacts<'a>
        ensures { IsKnown (its_chain self.now) self.now.namespace result.now }
    {
        &self.facts.namespaces[self.namespace]
    }

    /// Returns the definition of the name, if it stands for a macro or a library.
    pub(crate) fn given(&self, name: &str) -> Option<Definition<'a>>
        ensures { option_map (given_as self.now) result ≡ given_in self.now name.now }
    {
        self.known().given.get(name).copied()
    }
}
