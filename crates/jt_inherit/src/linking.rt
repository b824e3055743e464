//! Links the chain of an entry: reads the templates that it reaches, and orders the chains and
//! libraries.

ghost use Rattle.std.specs.Prelude.{◌≡◌, ◌+◌, ◌*◌, ◌<◌, ◌≤◌, length, map, IfOk, IfErr};
ghost use Rattle.std.specs.List.{AllByRecursion};
ghost use Rattle.jt_ast.specs.Sizes.{body_bytes};
ghost use Rattle.jt_inherit.specs.Chains.{IsChain};
ghost use Rattle.jt_inherit.specs.Linked.{IsLinked};
ghost use Rattle.jt_inherit.specs.internal.Found.{AllFollowed, listed_at, listed_view};
ghost use Rattle.jt_inherit.specs.Findings.{IsFinding};
ghost use Rattle.jt_chains.specs.Weights.{chains_weight};
ghost use Rattle.jt_inherit.specs.Small.{chains_len, source_len};
ghost use Rattle.jt_chains.specs.View.{Seen, chain_view, sources_of};

use crate::discovery::{Discovery, discover};
use crate::error::ChainError;
use crate::finding::ChainFinding;
use crate::library::Library;
use crate::rings::order_of;
use jt_chains::{Chain, Namespace};
use jt_scan::Options;
use std::alloc::{AllocError, Global};

/// Returns the chain of the entry, read from the library, before the rules on blocks, macros and
/// imports are checked: `check_chains` checks them.
///
/// # Errors
///
/// - The finding of a rule of chains that is broken: of any rule but those of `check_chains`.
/// - That of `Scan` or `Parse`, with a template's name, if the source of that template spells no
///   tree.
/// - That of `NoMemory` if a growth is refused.
pub fn link<L: Library>(
    alloc: Global,
    entry: &str,
    library: &L,
    options: Options,
) -> Result<Chain, ChainFinding>
    // Every source is read, and no rule on templates, paths and libraries is broken.
    ensures linked { IfOk result
        (λ found. IsLinked (L.sources library.now) entry.now options (chain_view found)) }
    // If the entry has a chain, the only possible error is lack of memory.
    ensures only { (other : Seen)
        → IsChain (L.sources library.now) entry.now options other
        → IfErr result (λ f. f.error ≡ ChainError.NoMemory) }
    // The reported rule is broken, at the place and in the subject.
    ensures refused { IfErr result (IsFinding (L.sources library.now) entry.now options) }
    // The trees weigh at most as much as their sources have bytes. A template counts once for each
    // chain, and a library once for each chain that imports it.
    ensures weighs { IfOk result (λ found. chains_weight (sources_of (chain_view found))
        (chain_view found).order
        ≤ chains_len (L.sources library.now) (sources_of (chain_view found))
        (chain_view found).order) }
    // The names and texts of a tree are no longer than its source.
    ensures short { IfOk result (λ found. AllByRecursion
        (λ template. body_bytes template.body ≤ source_len (L.sources library.now template.name))
        (chain_view found).templates) }
    // The weight of the trees bounds the number of chains and libraries: each of them but the
    // entry's chain has its own tag.
    ensures few { IfOk result (λ found. 7 * length (chain_view found).order
        ≤ chains_weight (sources_of (chain_view found)) (chain_view found).order + 7) }
{
    let found = discover(alloc, entry, library, options)?;
    let order = order_of(alloc, &found)?;
    let namespaces = namespaces_in(alloc, &found, order)?;
    Ok(Chain {
        templates: found.store.files,
        namespaces,
        autoescape: options.autoescape,
        strict: options.strict,
        indices: found.store.indices,
    })
}

/// Returns the chains and libraries of the numbers `order`, in order.
fn namespaces_in(
    alloc: Global,
    found: &Discovery,
    order: Vec<usize>,
) -> Result<Vec<Namespace>, AllocError>
    requires all { AllFollowed found.now }
    requires within { AllByRecursion (λ i. i < length found.now.extends_paths.items) order.items }
    ensures { IfOk result (λ namespaces.
        map listed_view namespaces.items ≡ map (listed_at found.now) order.items) }
{
    let mut namespaces = Vec::with_capacity(alloc, order.len())?;
    for number in &order {
        namespaces.push(namespace_of(alloc, found, *number)?)?;
    }
    Ok(namespaces)
}

/// Returns the chain or library of a number.
fn namespace_of(alloc: Global, found: &Discovery, number: usize) -> Result<Namespace, AllocError>
    requires all { AllFollowed found.now }
    requires within { number < length found.now.extends_paths.items }
    ensures { IfOk result (λ h. listed_view h ≡ listed_at found.now number) }
{
    let namespace = found.namespaces.get(number);
    Ok(Namespace {
        name: String::from_str(alloc, &namespace.name)?,
        is_library: namespace.is_library,
        templates: Vec::from_slice(alloc, &found.extends_paths[number])?,
    })
}
