//! Resolves a chain: its names to slots, and its literals and data to indices of a pool.

ghost use Rattle.std.specs.Prelude.{◌≡◌, IfOk};
ghost use Rattle.jt_chains.specs.Indices.{namespace_at};
ghost use Rattle.jt_chains.specs.View.{chain_view};
ghost use Rattle.jt_rules.specs.CompileEnv.{cenv_of};
ghost use Rattle.jt_semantics.specs.Programs.{program};
ghost use Rattle.jt_ir.specs.View.{program_of};

use crate::namespaces::resolve_namespaces;
use crate::program_names::{count_globals, entry_names, template_names};
use crate::shared::shared_values;
use crate::tables::Tables;
use jt_ir::Program;
use jt_names::ChainFacts;
use jt_value::NoMemory;
use std::alloc::Global;

/// Resolves a chain from its facts, even if it breaks the rules.
///
/// # Errors
///
/// `NoMemory` if a growth is refused or a number overflows.
#[tactic(auto, using(crate::proofs::program_is))]
pub fn resolved(alloc: Global, facts: &ChainFacts<'_>) -> Result<Program, NoMemory>
    ensures { IfOk result (λ made. program_of made
        ≡ program (cenv_of (chain_view facts.now.chain.now)) (chain_view facts.now.chain.now).order
        (namespace_at (chain_view facts.now.chain.now).order 0)) }
{
    let tables = Tables::new(alloc, facts)?;
    let templates = template_names(alloc, &facts.chain.templates)?;
    let names = entry_names(alloc, &tables)?;
    let globals = count_globals(&tables)?;
    let mut pool = shared_values(alloc, &tables)?;
    let routines = resolve_namespaces(alloc, tables, &mut pool)?;
    Ok(Program {
        templates,
        names,
        globals,
        pool,
        routines,
    })
}
