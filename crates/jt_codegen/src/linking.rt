//! Links an entry, and gathers the facts of its chain, over which the rules of chains are checked.

ghost use Rattle.std.specs.Prelude.{IfOk, IfErr};
ghost use Rattle.jt_chains.specs.View.{chain_view};
ghost use Rattle.jt_codegen.specs.internal.Asked.{Asked, IsChainOf, IsFaultOf, IsLinkedOf};
ghost use Rattle.jt_codegen.specs.internal.Asked.{asked_of};

use jt_chains::Chain;
use jt_inherit::{ChainFinding, Library, check_chains, link};
use jt_names::{ChainFacts, facts_of};
use jt_scan::Options;
use std::alloc::Global;

/// Returns the chain of an entry, in which the rules on blocks, macros and imports may be broken.
///
/// # Errors
///
/// The finding of a broken rule, or that of `NoMemory`.
pub(crate) fn linked_chain<L: Library>(
    alloc: Global,
    entry: &str,
    library: &L,
    options: Options,
) -> Result<Chain, ChainFinding>
    ensures linked { IfOk result (λ chain. IsLinkedOf
        (asked_of (L.sources library.now) entry.now options) (chain_view chain)) }
    ensures refused { IfErr result
        (IsFaultOf (asked_of (L.sources library.now) entry.now options)) }
{
    link(alloc, entry, library, options)
}

/// Returns the facts of a linked chain that keeps the rules on blocks, macros and imports.
///
/// # Errors
///
/// The finding of a broken rule, or that of `NoMemory`.
pub(crate) fn checked_facts(alloc: Global, chain: &Chain) -> Result<ChainFacts<'_>, ChainFinding>
    ensures kept { (asked : Asked) → IsLinkedOf asked (chain_view chain.now) → IfOk result
        (λ facts. IsChainOf asked (chain_view facts.chain.now)) }
    ensures refused { (asked : Asked) → IsLinkedOf asked (chain_view chain.now)
        → IfErr result (IsFaultOf asked) }
{
    let facts = facts_of(alloc, chain)?;
    check_chains(alloc, &facts)?;
    Ok(facts)
}
