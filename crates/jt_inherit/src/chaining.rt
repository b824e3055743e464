//! Builds the chain of an entry.

ghost use Rattle.std.specs.Prelude.{◌≡◌, ◌+◌, ◌*◌, ◌≤◌, length, IfOk, IfErr, MatchResult};
ghost use Rattle.std.specs.List.{AllByRecursion};
ghost use Rattle.jt_ast.specs.Sizes.{body_bytes};
ghost use Rattle.jt_ast.specs.Expressions.{Text};
ghost use Rattle.jt_inherit.specs.Chains.{IsChain};
ghost use Rattle.jt_inherit.specs.Refusals.{Breaks};
ghost use Rattle.jt_chains.specs.Weights.{chains_weight};
ghost use Rattle.jt_inherit.specs.Small.{chains_len, source_len};
ghost use Rattle.jt_chains.specs.View.{Seen, chain_view, sources_of};

use crate::error::ChainError;
use crate::library::Library;
use crate::linking::link;
use crate::rules::check_chains;
use jt_chains::Chain;
use jt_names::facts_of;
use jt_scan::Options;
use std::alloc::Global;

/// Returns the chain of the entry, for hosts and tests that want this layer alone: `compile` calls
/// `link`, `facts_of` and `check_chains`. It has the templates up to the root, read from the
/// library, and the chains and libraries that their includes and imports reach.
///
/// # Errors
///
/// - The rule of chains that is broken.
/// - `Scan` or `Parse`, with a template's name, if the source of that template spells no tree.
/// - `NoMemory` if a growth is refused.
pub fn chain<L: Library>(
    alloc: Global,
    entry: &str,
    library: &L,
    options: Options,
) -> Result<Chain, ChainError>
    // Every source is read, and no rule of chains is broken.
    ensures chained { IfOk result
        (λ found. IsChain (L.sources library.now) entry.now options (chain_view found)) }
    // The entry has no other chain, up to the order of templates and chains. If it has one, the
    // only possible error is lack of memory.
    ensures only { (other : Seen)
        → IsChain (L.sources library.now) entry.now options other
        → MatchResult result
        (λ found. (name : Text)
        → sources_of (chain_view found) name ≡ sources_of other name)
        (λ e. e ≡ ChainError.NoMemory) }
    // The reported rule is broken.
    ensures refused { IfErr result (λ e. Breaks e (L.sources library.now) entry.now options) }
    // The trees weigh at most as much as their sources have bytes. A template counts once for each
    // chain, and a library once for each chain that imports it.
    ensures weighs { IfOk result (λ found. chains_weight (sources_of (chain_view found))
        (chain_view found).order
        ≤ chains_len (L.sources library.now) (sources_of (chain_view found))
        (chain_view found).order) }
    // The names and texts of a tree are no longer than its source.
    ensures short { IfOk result (λ found. AllByRecursion
        (λ template. body_bytes template.body ≤ source_len (L.sources library.now template.name))
        (chain_view found).templates) }
    // The weight of the trees bounds the number of chains and libraries: each of them but the
    // entry's chain has its own tag.
    ensures few { IfOk result (λ found. 7 * length (chain_view found).order
        ≤ chains_weight (sources_of (chain_view found)) (chain_view found).order + 7) }
{
    let chain = match link(alloc, entry, library, options) {
        Ok(chain) => chain,
        Err(finding) => return Err(finding.error),
    };
    if let Err(finding) = check_chains(alloc, &facts_of(alloc, &chain)?) {
        return Err(finding.error);
    }
    Ok(chain)
}
