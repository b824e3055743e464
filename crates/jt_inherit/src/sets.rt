//! Defines a set of namespaces that keeps the order of insertion. The names come from untrusted
//! templates, so the set uses ordered maps. No choice of names makes an ordered map slow, as it
//! could a hash table.

ghost use Rattle.std.specs.Prelude.{◌≡◌, ◌^◌, ◌<◌, ◌++◌, ◌∷◌, [], false, true, length, slice_get};
ghost use Rattle.std.specs.Prelude.{Some, OnOk};
ghost use Rattle.jt_chains.specs.Chain.{listed};
ghost use Rattle.jt_inherit.specs.internal.Numbers.{AreNumbers, AreNumbers-prop, is_kind};
ghost use Rattle.jt_inherit.specs.internal.Numbers.{FindsIn, key_view, keys_view};

use std::alloc::{AllocError, Global};
use std::collections::BTreeMap;

/// A chain, by the name of its entry, or a library, by its own name.
#[derive(Drop)]
pub(crate) struct NamespaceKey {
    pub(crate) name: String,
    pub(crate) is_library: bool,
}

/// A set of chains and libraries, numbered in the order of insertion.
#[derive(Drop)]
pub(crate) struct Namespaces {
    /// The chains and libraries; the index of each is its number.
    items: Vec<NamespaceKey>,
    /// The number of each chain, by its name.
    chains: BTreeMap<String, usize>,
    /// The number of each library, by its name.
    libraries: BTreeMap<String, usize>,
    ghost chains_numbered: { AreNumbers (is_kind false) items.items
        chains } by { AreNumbers-prop (is_kind false) items.items chains },
    ghost libraries_numbered: { AreNumbers (is_kind true) items.items
        libraries } by { AreNumbers-prop (is_kind true) items.items libraries },
}

impl Namespaces {
    ghost use Rattle.jt_inherit.specs.internal.Found.{chains_of};
    ghost use Rattle.jt_inherit.specs.internal.Views.{namespaces_view};

    /// Returns an empty set.
    pub(crate) fn new(alloc: Global) -> Namespaces
        ensures { result.items.items ≡ [] }
    {
        Namespaces {
            items: Vec::new(alloc),
            chains: BTreeMap::new(alloc),
            libraries: BTreeMap::new(alloc),
        }
    }

    /// Returns the number of chains and libraries.
    pub(crate) fn len(&self) -> usize
        ensures len { result ≡ length self.now.items.items }
        ensures small { result < 2 ^ 63 }
    {
        self.items.len()
    }

    /// Returns the chain or library of a number.
    pub(crate) fn get(&self, number: usize) -> &NamespaceKey
        requires { number < length self.now.items.items }
        ensures { slice_get (namespaces_view self.now) number ≡ Some (key_view result.now) }
    {
        &self.items[number]
    }

    /// Returns the numbers of the libraries, or those of the chains, by their names.
    fn numbers(&self, is_library: bool) -> &BTreeMap<String, usize>
        ensures { AreNumbers (is_kind is_library) self.now.items.items result.now }
    {
        if is_library {
            return &self.libraries;
        }
        &self.chains
    }

    /// Returns the number of a chain or library.
    pub(crate) fn find(&self, namespace: &NamespaceKey) -> Option<usize>
        ensures { FindsIn listed (keys_view self.now.items.items) (key_view namespace.now) result }
    {
        self.numbers(namespace.is_library)
            .get(namespace.name.as_str())
            .copied()
    }

    /// Appends a chain or library that the set does not have.
    pub(crate) fn put(&mut self, alloc: Global, namespace: NamespaceKey) -> Result<(), AllocError>
        requires { listed (key_view namespace) (namespaces_view self.old) ≡ false }
        ensures { OnOk result
            (namespaces_view self.new ≡ namespaces_view self.old ++ key_view namespace ∷ []) }
    {
        let number = self.items.len();
        let name = String::from_str(alloc, &namespace.name)?;
        self.items.reserve(1)?;
        if namespace.is_library {
            self.libraries.insert(name, number)?;
            self.items.push(namespace)?;
            return Ok(());
        }
        self.chains.insert(name, number)?;
        self.items.push(namespace)?;
        Ok(())
    }

    /// Returns the number of chains.
    pub(crate) fn count_chains(&self) -> usize
        ensures { result ≡ length (chains_of (namespaces_view self.now)) }
    {
        let mut count = 0;
        for namespace in &self.items {
            if !namespace.is_library {
                count += 1;
            }
        }
        count
    }
}
