//! Checks the rules of a chain and resolves it.

ghost use Rattle.std.specs.Prelude.{◌≡◌, IfOk, OnOk, IfErr};
ghost use Rattle.jt_chains.specs.Indices.{namespace_at};
ghost use Rattle.jt_chains.specs.View.{chain_view};
ghost use Rattle.jt_rules.specs.Rules.{KeepsRules, Breaks};
ghost use Rattle.jt_rules.specs.CompileEnv.{cenv_of};
ghost use Rattle.jt_semantics.specs.Programs.{program};
ghost use Rattle.jt_ir.specs.View.{program_of};
ghost use Rattle.jt_scopes.specs.Means.{Means};

use jt_bind::resolved;
use jt_chains::Chain;
use jt_checks::check_rules;
use jt_ir::Program;
use jt_names::{ChainFacts, facts_of};
use jt_rules::ScopeError;
use jt_semantics::program_laws;
use std::alloc::Global;

/// Returns the program of a chain that keeps the rules, for hosts and tests that want this layer
/// alone: `compile` calls `facts_of` and `resolve_facts`.
///
/// # Errors
///
/// - The rule that the chain breaks.
/// - `NoMemory` if a growth is refused or a number overflows.
pub fn resolve(alloc: Global, chain: &Chain) -> Result<Program, ScopeError>
    ensures resolved { IfOk result (λ made. program_of made
        ≡ program (cenv_of (chain_view chain.now)) (chain_view chain.now).order
        (namespace_at (chain_view chain.now).order 0)) }
    // The program's meaning over slots is the chain's meaning by names.
    ensures means { IfOk result
        (λ made. Means (chain_view chain.now) (program_of made)) }
    ensures kept { OnOk result
        (KeepsRules (cenv_of (chain_view chain.now)) (chain_view chain.now).order) }
    ensures refused { IfErr result
        (λ e. Breaks e (cenv_of (chain_view chain.now)) (chain_view chain.now).order) }
{
    let facts = facts_of(alloc, chain)?;
    resolve_facts(alloc, &facts)
}

/// Returns the program of a chain that keeps the rules, from the facts of the chain.
///
/// # Errors
///
/// - The rule that the chain breaks.
/// - `NoMemory` if a growth is refused or a number overflows.
pub fn resolve_facts(alloc: Global, facts: &ChainFacts<'_>) -> Result<Program, ScopeError>
    ensures resolved { IfOk result (λ made. program_of made
        ≡ program (cenv_of (chain_view facts.now.chain.now)) (chain_view facts.now.chain.now).order
        (namespace_at (chain_view facts.now.chain.now).order 0)) }
    // The program's meaning over slots is the chain's meaning by names.
    ensures means { IfOk result
        (λ made. Means (chain_view facts.now.chain.now) (program_of made)) }
    ensures kept { OnOk result (KeepsRules (cenv_of (chain_view facts.now.chain.now))
        (chain_view facts.now.chain.now).order) }
    ensures refused { IfErr result (λ e. Breaks e (cenv_of (chain_view facts.now.chain.now))
        (chain_view facts.now.chain.now).order) }
{
    program_laws();
    check_rules(alloc, facts)?;
    Ok(resolved(alloc, facts)?)
}
