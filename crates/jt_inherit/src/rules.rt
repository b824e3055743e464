//! Checks the rules on the blocks, macros and imports of chains and libraries.

ghost use Rattle.std.specs.Prelude.{◌≡◌, ◌<◌, ◌≤◌, List, true, false, length, map};
ghost use Rattle.std.specs.Prelude.{IfOk, IfErr, MatchOption, MatchResult, OnOk};
ghost use Rattle.jt_scan.specs.declared.options.Options.{Options};
ghost use Rattle.jt_ast.specs.Texts.{repeated as texts_repeat, texts};
ghost use Rattle.jt_ast.specs.Expressions.{Text};
ghost use Rattle.jt_inherit.specs.Chains.{SourceTexts, IsChain};
ghost use Rattle.jt_inherit.specs.Findings.{IsFinding};
ghost use Rattle.jt_inherit.specs.Linked.{IsLinked};
ghost use Rattle.jt_chains.specs.Along.{AreIndices, templates_at};
ghost use Rattle.jt_chains.specs.Chain.{Namespace, Template, all_bodies, templates};
ghost use Rattle.jt_chains.specs.Named.{names_view};
ghost use Rattle.jt_chains.specs.Rules as rules;
ghost use Rattle.jt_inherit.specs.internal.RuleTests.{IsNameOf, lacks_body, lacks_next, named};
ghost use Rattle.jt_inherit.specs.internal.RuleTests.{times};
ghost use Rattle.jt_inherit.specs.internal.RuleTests as spec;
ghost use Rattle.jt_chains.specs.Parts.{blocks_view};
ghost use Rattle.jt_chains.specs.View.{Seen, chain_view, its_sources, its_templates, namespace_in};
ghost use Rattle.jt_chains.specs.View.{sources_of};
ghost use Rattle.jt_inherit.specs.internal.Breaking.{BreaksAt, IsDouble, KeepsAt};

use crate::breaking::{block_twice, missing_finding, name_twice, no_super, not_given};
use crate::error::ChainError;
use crate::finding::ChainFinding;
use crate::importing::missing_at;
use crate::supers::calls_super;
use jt_chains::{Block, Chain, DefinedName};
use jt_names::{ChainFacts, NameIndex};
use std::alloc::{AllocError, Global};

/// Returns the first name that occurs before, if any.
fn repeated<'a>(alloc: Global, names: &[&'a str]) -> Result<Option<&'a str>, AllocError>
    ensures { IfOk result (IsNameOf (texts_repeat (texts names.now))
        (λ x. 2 ≤ times x (texts names.now))) }
{
    let firsts = NameIndex::of(alloc, names, 0)?;
    for index in 0..names.len() {
        if firsts.index_of(names[index]) != Some(index) {
            return Ok(Some(names[index]));
        }
    }
    Ok(None)
}

/// Returns the name that is defined twice, if any.
fn repeated_definition<'a>(
    alloc: Global,
    defined: &[DefinedName<'a>],
) -> Result<Option<&'a str>, AllocError>
    ensures { IfOk result (λ found. (ts : List Template) (h : Namespace)
        → IsNameOf (texts_repeat (map (λ g. g.0) (names_view ts h defined.now)))
        (λ x. 2 ≤ times x (map (λ g. g.0) (names_view ts h defined.now))) found) }
{
    let names: Vec<&'a str> = defined.iter().map(|one| one.name).collect(alloc)?;
    repeated(alloc, &names)
}

/// Returns the name that two bodies of blocks have, if any.
fn repeated_block<'a>(alloc: Global, blocks: &[Block<'a>]) -> Result<Option<&'a str>, AllocError>
    ensures { IfOk result (λ found. (ts : List Template)
        → IsNameOf (texts_repeat (map (λ b. b.name) (blocks_view ts blocks.now)))
        (λ x. 2 ≤ times x (map (λ b. b.name) (blocks_view ts blocks.now))) found) }
{
    let names: Vec<&'a str> = blocks.iter().map(|block| block.name).collect(alloc)?;
    repeated(alloc, &names)
}

/// Returns the name of the first block of a chain or library whose nearest body is a required one,
/// if any.
fn lacking_body<'a>(facts: &ChainFacts<'a>, namespace: usize) -> Option<&'a str>
    requires stands { namespace < length facts.now.chain.now.namespaces.items }
    ensures { IsNameOf (lacks_body (all_bodies (its_sources facts.now.chain.now)
        facts.now.chain.now.autoescape (namespace_in facts.now.chain.now namespace)))
        (λ x. rules.is_required (named x (all_bodies (its_sources facts.now.chain.now)
        facts.now.chain.now.autoescape (namespace_in facts.now.chain.now namespace))) ≡ true)
        result }
{
    let known = &facts.namespaces[namespace];
    for index in 0..known.blocks.len() {
        let block = &known.blocks[index];
        if block.required && known.first_bodies.index_of(block.name) == Some(index) {
            return Some(block.name);
        }
    }
    None
}

/// Returns the name of a block with a body that calls `super()`, if each body after it is required.
/// Visits the bodies from the last to the first.
fn lacking_next<'a>(alloc: Global, blocks: &[Block<'a>]) -> Result<Option<&'a str>, AllocError>
    ensures { IfOk result (λ found. (ts : List Template)
        → IsNameOf (lacks_next (blocks_view ts blocks.now))
        (λ x. rules.lacks_super (named x (blocks_view ts blocks.now)) ≡ true) found) }
{
    let mut given = NameIndex::new(alloc);
    let mut left = blocks.len();
    while left > 0 {
        left -= 1;
        let block = &blocks[left];
        if given.index_of(block.name).is_none() && calls_super(block.body) {
            return Ok(Some(block.name));
        }
        if !block.required {
            given.put(block.name, left)?;
        }
    }
    Ok(None)
}

/// Returns the finding of a template at `indices` with two blocks of one name, if any.
fn double_block(
    alloc: Global,
    facts: &ChainFacts<'_>,
    indices: &[usize],
) -> Result<Option<ChainFinding>, AllocError>
    requires indices { AreIndices (its_templates facts.now.chain.now) indices.now }
    ensures { IfOk result (λ found. MatchOption found
        (spec.any_double facts.now.chain.now.autoescape
        (templates_at (its_templates facts.now.chain.now) indices.now) ≡ false)
        (IsDouble (its_sources facts.now.chain.now) facts.now.chain.now.autoescape
        (templates_at (its_templates facts.now.chain.now) indices.now))) }
{
    let chain = facts.chain;
    for index in indices {
        if let Some(name) = repeated_block(alloc, facts.blocks_at(*index))? {
            let template = &chain.templates[*index].name;
            let uses = facts.uses_at(*index);
            return Ok(Some(block_twice(alloc, template, uses, name)?));
        }
    }
    Ok(None)
}

/// Returns the indices of the templates of a chain or library.
fn indices_of(chain: &Chain, namespace: usize) -> &[usize]
    requires { namespace < length chain.now.namespaces.items }
    ensures indices { AreIndices (its_templates chain.now) result.now }
    ensures own { templates_at (its_templates chain.now) result.now
        ≡ templates (its_sources chain.now) (namespace_in chain.now namespace) }
{
    &chain.namespaces[namespace].templates
}

/// Refuses a chain or library whose blocks, macros or imports break a rule, with the tag that
/// breaks it.
#[tactic(auto, using(crate::proofs::ChainsChecked::memory_broken, crate::proofs::ChainsChecked::rule_broken, jt_names::proofs::FactsByIndex::known_at))]
fn check_rules(alloc: Global, facts: &ChainFacts<'_>, namespace: usize) -> Result<(), ChainFinding>
    requires stands { namespace < length facts.now.chain.now.namespaces.items }
    ensures kept { OnOk result (KeepsAt facts.now.chain.now namespace) }
    ensures broken { IfErr result (BreaksAt facts.now.chain.now namespace) }
{
    let chain = facts.chain;
    let indices = indices_of(chain, namespace);
    if let Some(finding) = double_block(alloc, facts, indices)? {
        return Err(finding);
    }
    if let Some(missing) = missing_at(chain, indices) {
        return Err(missing_finding(alloc, facts, indices, missing)?);
    }
    let known = &facts.namespaces[namespace];
    if let Some(name) = repeated_definition(alloc, &known.defined)? {
        return Err(name_twice(alloc, facts, indices, name)?);
    }
    if let Some(name) = lacking_body(facts, namespace) {
        return Err(not_given(alloc, facts, indices, name)?);
    }
    if let Some(name) = lacking_next(alloc, &known.blocks)? {
        return Err(no_super(alloc, facts, indices, name)?);
    }
    Ok(())
}

/// Refuses a chain with blocks, macros or imports that break a rule, its own or those of a chain or
/// library that it reaches. `facts` are the facts of the chain.
///
/// # Errors
///
/// - The finding of the rule that is broken.
/// - That of `NoMemory` if a growth is refused.
pub fn check_chains(alloc: Global, facts: &ChainFacts<'_>) -> Result<(), ChainFinding>
    // No rule of chains is broken.
    ensures kept { (given : SourceTexts) (entry : Text) (options : Options)
        → IsLinked given entry options (chain_view facts.now.chain.now)
        → OnOk result (IsChain given entry options (chain_view facts.now.chain.now)) }
    // The reported rule is broken, at the place and in the subject.
    ensures refused { (given : SourceTexts) (entry : Text) (options : Options)
        → IsLinked given entry options (chain_view facts.now.chain.now)
        → IfErr result (IsFinding given entry options) }
    // The entry has no other chain, up to the order of templates and chains. If it has one, the
    // only possible error is lack of memory.
    ensures only { (given : SourceTexts) (entry : Text) (options : Options)
        → IsLinked given entry options (chain_view facts.now.chain.now)
        → (other : Seen)
        → IsChain given entry options other
        → MatchResult result
        (λ _. (name : Text)
        → sources_of (chain_view facts.now.chain.now) name ≡ sources_of other name)
        (λ f. f.error ≡ ChainError.NoMemory) }
{
    for namespace in 0..facts.chain.namespaces.len() {
        check_rules(alloc, facts, namespace)?;
    }
    Ok(())
}
