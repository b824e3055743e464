//! Checks that chains keep the static rules of names and calls, and finds the first broken rule.

ghost use Rattle.std.specs.Prelude.{◌≡◌, ◌<◌, nat_le, length, IfOk, OnOk, IfErr};
ghost use Rattle.std.specs.Prelude.{IfSome, IfNone, option_map};
ghost use Rattle.jt_ast.specs.Texts.{ascending, texts};
ghost use Rattle.jt_chains.specs.Chain.{templates, libraries};
ghost use Rattle.jt_chains.specs.View.{chain_view};
ghost use Rattle.jt_rules.specs.Rules.{KeepsRules, Breaks, libraries_counted};
ghost use Rattle.jt_rules.specs.Rules.{max_names, names_counted};
ghost use Rattle.jt_checks.specs.Findings.{Holds};
ghost use Rattle.jt_checks.specs.FindingView.{finding_view};
ghost use Rattle.jt_checks.specs.internal.ScopeView.{capped, cenv_in, in_scope};
ghost use Rattle.jt_checks.specs.internal.ScopeView.{its_chain, names_of};
ghost use Rattle.jt_checks.specs.internal.RuleTests as rules;
ghost use Rattle.jt_rules.specs.CompileEnv.{cenv_of};

use crate::finding::{Finding, Subject};
use crate::scope::Scope;
use crate::uses::{binding_line, uses_broken};
use jt_names::{ChainFacts, in_order};
use jt_rules::ScopeError;
use std::alloc::{AllocError, Global};

/// The greatest number of names that a template binds, each counted as often as it is written.
const MAX_BINDINGS: usize = 4_096;

/// The greatest number of names that the chains read or bind, each counted once for each chain.
const MAX_NAMES: usize = 65_535;

/// Checks that the chains keep the rules of names and calls.
///
/// # Errors
///
/// - A rule that the chains break.
/// - `NoMemory` if a growth is refused.
pub fn check_rules(alloc: Global, facts: &ChainFacts<'_>) -> Result<(), ScopeError>
    ensures kept { OnOk result
        (KeepsRules (cenv_of (chain_view facts.now.chain.now))
        (chain_view facts.now.chain.now).order) }
    ensures refused { IfErr result
        (λ e. Breaks e (cenv_of (chain_view facts.now.chain.now))
        (chain_view facts.now.chain.now).order) }
{
    match find_broken(alloc, facts)? {
        Some(finding) => Err(finding.rule),
        None => Ok(()),
    }
}

/// Returns a rule that the chains break and where, if they break one: the first broken rule in the
/// order of the chains, their templates and the source.
pub fn find_broken<'a>(
    alloc: Global,
    facts: &ChainFacts<'a>,
) -> Result<Option<Finding<'a>>, AllocError>
    ensures kept { IfOk result (λ o. IfNone o
        (KeepsRules (cenv_of (chain_view facts.now.chain.now))
        (chain_view facts.now.chain.now).order)) }
    ensures found { IfOk result (λ o. IfSome o
        (λ f. Breaks f.rule (cenv_of (chain_view facts.now.chain.now))
        (chain_view facts.now.chain.now).order)) }
    // The finding is true of the templates.
    ensures holds { IfOk result (λ o. IfSome o (λ f. Holds (finding_view f)
        (cenv_of (chain_view facts.now.chain.now)) (chain_view facts.now.chain.now).order)) }
{
    if let Some(finding) = chains_broken(alloc, facts)? {
        return Ok(Some(finding));
    }
    if has_few_names(alloc, facts)? {
        return Ok(None);
    }
    Ok(Some(Finding {
        rule: ScopeError::TooManySlots,
        template: facts.chain.namespaces[0].name.as_str(),
        line: 1,
        subject: Subject::Names,
    }))
}

/// Returns the first finding in the templates of the chains.
#[tactic(auto, using(crate::proofs::chains_left))]
fn chains_broken<'a>(
    alloc: Global,
    facts: &ChainFacts<'a>,
) -> Result<Option<Finding<'a>>, AllocError>
    ensures { IfOk result (λ o. option_map finding_view o ≡ rules.chains_broken
        (cenv_in facts.now.chain.now) (chain_view facts.now.chain.now).order) }
{
    for namespace in 0..facts.chain.namespaces.len() {
        let scope = Scope {
            alloc,
            facts,
            namespace,
        };
        if let Some(finding) = templates_broken(&scope)? {
            return Ok(Some(finding));
        }
    }
    Ok(None)
}

/// Returns the first finding in the templates of a chain.
fn templates_broken<'a>(scope: &Scope<'_, 'a>) -> Result<Option<Finding<'a>>, AllocError>
    ensures { IfOk result
        (λ o. option_map finding_view o ≡ in_scope rules.chain_broken scope.now) }
{
    let itself = &scope.facts.chain.namespaces[scope.namespace];
    for template in &itself.templates {
        if let Some(finding) = template_broken(scope, *template)? {
            return Ok(Some(finding));
        }
    }
    Ok(None)
}

/// Returns the first finding in the template at `index`.
#[tactic(auto, using(jt_chains::proofs::TemplatesByIndex::map_at))]
fn template_broken<'a>(
    scope: &Scope<'_, 'a>,
    index: usize,
) -> Result<Option<Finding<'a>>, AllocError>
    requires { index < length (its_chain scope.now).templates.items }
    ensures { IfOk result (λ o. option_map finding_view o ≡ in_scope rules.template_broken
        scope.now (rules.template_at (chain_view (its_chain scope.now)).templates index)) }
{
    let name = scope.facts.chain.templates[index].name.as_str();
    let uses = scope.facts.uses_at(index);
    if let Some(finding) = uses_broken(scope, name, uses)? {
        return Ok(Some(finding));
    }
    let Some(line) = binding_line(uses, MAX_BINDINGS) else {
        return Ok(None);
    };
    Ok(Some(Finding {
        rule: ScopeError::TooManySlots,
        template: name,
        line,
        subject: Subject::Bindings,
    }))
}

/// Returns whether the chains read or bind at most `MAX_NAMES` names, each counted once for each
/// chain.
#[tactic(auto, using(crate::proofs::names_left))]
fn has_few_names(alloc: Global, facts: &ChainFacts<'_>) -> Result<bool, AllocError>
    ensures { IfOk result (λ b. b ≡ nat_le (names_counted (cenv_in facts.now.chain.now)
        (chain_view facts.now.chain.now).order) max_names) }
{
    let mut left = MAX_NAMES;
    for namespace in 0..facts.chain.namespaces.len() {
        let count = count_names(&Scope {
            alloc,
            facts,
            namespace,
        })?;
        if left < count {
            return Ok(false);
        }
        left -= count;
    }
    Ok(true)
}

/// Returns the number of different names that a chain and the libraries that it imports read or
/// bind, at most the greatest `usize`. A library has none of its own: its names count in the chains
/// that import it.
fn count_names(scope: &Scope<'_, '_>) -> Result<usize, AllocError>
    ensures { IfOk result (λ n. n ≡ capped (in_scope names_of scope.now)) }
{
    let chain = scope.facts.chain;
    if chain.namespaces[scope.namespace].is_library {
        return Ok(0);
    }
    let imported = chain.libraries(scope.alloc, scope.namespace)?;
    let libraries = in_order(scope.alloc, &imported)?;
    let mut count = scope.known().names.len();
    for library in &libraries {
        count = count.saturating_add(scope.facts.count_in_library(library));
    }
    Ok(count)
}
