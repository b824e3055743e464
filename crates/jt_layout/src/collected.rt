//! Collects the names of chains, from the last chain to the first.

ghost use Rattle.std.specs.Prelude.{◌≡◌, ◌<◌, ◌+◌, false, length, drop, IfOk, string_bytes};
ghost use Rattle.jt_ast.specs.Texts.{texts};
ghost use Rattle.jt_ast.specs.Expressions.{Text};
ghost use Rattle.jt_chains.specs.Chain.{a_chain, same_namespace};
ghost use Rattle.jt_chains.specs.TemplateFiles.{namespace_view};
ghost use Rattle.jt_semantics.specs.Layout.{in_globals};
ghost use Rattle.jt_chains.specs.View.{namespace_in};
ghost use Rattle.jt_layout.specs.internal.Layouts.{AreNames, all_names, its_cenv, its_order};
ghost use Rattle.jt_layout.specs.internal.Layouts.{names_at};
ghost use Rattle.jt_names.specs.Names.{Puts};

use jt_chains::Namespace;
use jt_names::{ChainFacts, add_names, list_of, set_entry};
use jt_value::NoMemory;
use std::alloc::{AllocError, Global};
use std::collections::{BTreeMap, BTreeSet};

/// The names of each chain, by the name of the chain. Libraries have no globals.
pub(crate) type CollectedNames<'a> = BTreeMap<&'a str, Vec<&'a str>>;

/// Removes and returns the names of a chain. Returns an empty list for a library, or if no names
/// are stored.
pub(crate) fn take_names<'a>(
    alloc: Global,
    collected: &mut CollectedNames<'a>,
    namespace: &Namespace,
) -> Vec<&'a str>
    ensures taken { texts result.items ≡ in_globals (namespace_view namespace.now)
        (names_at collected.old (string_bytes namespace.now.name)) }
    ensures others { (x : Text)
        → same_namespace (namespace_view namespace.now) (a_chain x) ≡ false
        → names_at collected.new x ≡ names_at collected.old x }
{
    if namespace.is_library {
        return Vec::new(alloc);
    }
    match collected.remove(namespace.name.as_str()) {
        Some(names) => names,
        None => Vec::new(alloc),
    }
}

/// Adds the names of a chain to a set, if they are stored. No names are stored for a missing chain.
fn add_stored<'a>(
    names: &mut BTreeSet<&'a str>,
    stored: &CollectedNames<'a>,
    chain: &str,
) -> Result<(), AllocError>
    ensures { IfOk result (λ u. Puts names.old names.new (names_at stored.now chain.now)) }
{
    match stored.get(chain) {
        Some(others) => add_names(names, others),
        None => Ok(()),
    }
}

/// Returns the names of a chain and of the chains that it includes. `behind` holds the names of the
/// chains after it.
fn names_of_chain<'a>(
    alloc: Global,
    facts: &ChainFacts<'a>,
    namespace: usize,
    behind: &CollectedNames<'a>,
) -> Result<Vec<&'a str>, AllocError>
    requires stands { namespace < length facts.now.chain.now.namespaces.items }
    requires behind { AreNames facts.now.chain.now
        (drop (namespace + 1) (its_order facts.now.chain.now)) behind.now }
    ensures { IfOk result (λ ns. texts ns.items ≡ all_names (its_cenv facts.now.chain.now)
        (drop (namespace + 1) (its_order facts.now.chain.now))
        (namespace_in facts.now.chain.now namespace)) }
{
    let known = &facts.namespaces[namespace];
    let mut names = BTreeSet::new(alloc);
    add_names(&mut names, &known.names)?;
    for chain in &known.includes {
        add_stored(&mut names, behind, chain)?;
    }
    list_of(alloc, names)
}

/// Returns the names of all chains. Each chain comes before the chains that it includes, so the
/// loop runs from the last chain to the first.
pub(crate) fn gather<'a>(
    alloc: Global,
    facts: &ChainFacts<'a>,
) -> Result<CollectedNames<'a>, NoMemory>
    ensures { IfOk result (λ g. AreNames facts.now.chain.now (its_order facts.now.chain.now) g) }
{
    let mut collected = BTreeMap::new(alloc);
    for namespace in (0..facts.chain.namespaces.len()).rev() {
        let itself = &facts.chain.namespaces[namespace];
        if itself.is_library {
            continue;
        }
        let names = names_of_chain(alloc, facts, namespace, &collected)?;
        set_entry(&mut collected, itself.name.as_str(), names)?;
    }
    Ok(collected)
}
