//! Collects the facts of chains and libraries.

ghost use Rattle.std.specs.Prelude.{◌≡◌, ◌<◌, length, IfOk};
ghost use Rattle.jt_names.specs.FactsOfTemplates.{AreKnown};
ghost use Rattle.jt_names.specs.FactsOfChains.{IsKnown, EachKnown};

use crate::facts::{ChainFacts, NamespaceFacts};
use crate::index::{definitions_of, first_bodies};
use crate::ordered::{add_names, list_of};
use crate::own::{NamesOf, add_used};
use crate::templates::{TemplateFacts, facts_of_templates};
use jt_chains::Chain;
use std::alloc::{AllocError, Global};
use std::collections::BTreeSet;

/// Returns what is known of a chain and of all that it reaches.
pub fn facts_of(alloc: Global, chain: &Chain) -> Result<ChainFacts<'_>, AllocError>
    ensures chain { IfOk result (λ facts. facts.chain.now ≡ chain.now) }
{
    let templates = facts_of_templates(alloc, chain)?;
    let namespaces = facts_of_namespaces(alloc, chain, &templates)?;
    Ok(ChainFacts {
        chain,
        templates,
        namespaces,
    })
}

/// Returns what is known of each chain and library.
fn facts_of_namespaces<'a>(
    alloc: Global,
    chain: &'a Chain,
    templates: &[TemplateFacts<'a>],
) -> Result<Vec<NamespaceFacts<'a>>, AllocError>
    requires { AreKnown chain.now templates.now }
    ensures all { IfOk result (λ fs. length fs.items ≡ length chain.now.namespaces.items) }
    ensures each { IfOk result (λ fs. EachKnown chain.now fs.items) }
{
    let mut found = Vec::with_capacity(alloc, chain.namespaces.len())?;
    for namespace in 0..chain.namespaces.len() {
        found.push(facts_of_namespace(alloc, chain, templates, namespace)?)?;
    }
    Ok(found)
}

/// Returns what is known of a chain or a library.
fn facts_of_namespace<'a>(
    alloc: Global,
    chain: &'a Chain,
    templates: &[TemplateFacts<'a>],
    namespace: usize,
) -> Result<NamespaceFacts<'a>, AllocError>
    requires stands { namespace < length chain.now.namespaces.items }
    requires known { AreKnown chain.now templates.now }
    ensures { IfOk result (λ f. IsKnown chain.now namespace f) }
{
    let mut names = BTreeSet::new(alloc);
    let mut scope_names = BTreeSet::new(alloc);
    let mut macros = Vec::new(alloc);
    let mut blocks = Vec::new(alloc);
    let mut includes = Vec::new(alloc);
    for index in &chain.namespaces[namespace].templates {
        let known = &templates[*index];
        add_names(&mut names, &known.names)?;
        add_used(&mut scope_names, NamesOf::Scopes, &known.uses)?;
        macros.extend_from_slice(&known.macros)?;
        blocks.extend_from_slice(&known.blocks)?;
        includes.extend_from_slice(&known.includes)?;
    }
    let defined = chain.definitions(alloc, namespace, &macros)?;
    let given = definitions_of(alloc, &defined)?;
    let first_bodies = first_bodies(alloc, &blocks)?;
    Ok(NamespaceFacts {
        names: list_of(alloc, names)?,
        scope_names: list_of(alloc, scope_names)?,
        macros,
        defined,
        given,
        blocks,
        first_bodies,
        includes,
    })
}
