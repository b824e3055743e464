//! Collects what is known of each template.

ghost use Rattle.std.specs.Prelude.{◌≡◌, ◌<◌, length, IfOk};
ghost use Rattle.std.specs.Option.{is_none};
ghost use Rattle.jt_chains.specs.View.{its_sources};
ghost use Rattle.jt_names.specs.FactsOfTemplates.{AreKnown, IsKnownTemplate};

use crate::ordered::list_of;
use crate::own::{NamesOf, add_used, names_included};
use jt_chains::{Block, Chain, Macro, blocks_of_file, file_named, macros_of_file};
use jt_uses::{UseSite, uses_of};
use std::alloc::{AllocError, Global};
use std::collections::BTreeSet;

/// What is known of a template.
#[derive(Drop)]
pub struct TemplateFacts<'a> {
    /// What it does at each of its places, in the order of the source.
    pub uses: Vec<UseSite<'a>>,
    /// The different names that it reads or binds, in ascending order.
    pub names: Vec<&'a str>,
    /// Its macros, in order.
    pub macros: Vec<Macro<'a>>,
    /// The bodies of its blocks, nested ones included, in the order of the source.
    pub blocks: Vec<Block<'a>>,
    /// The names of the templates that it includes, once for each tag, in the order of the source.
    pub includes: Vec<&'a str>,
}

/// Returns what is known of the template at `index`.
fn facts_of_template(
    alloc: Global,
    chain: &Chain,
    index: usize,
) -> Result<TemplateFacts<'_>, AllocError>
    requires { index < length chain.now.templates.items }
    ensures { IfOk result (λ f. IsKnownTemplate chain.now index f) }
{
    let uses = uses_of(alloc, chain.templates[index].template.body())?;
    let mut names = BTreeSet::new(alloc);
    add_used(&mut names, NamesOf::Template, &uses)?;
    let names = list_of(alloc, names)?;
    let includes = names_included(alloc, &uses)?;
    let macros = macros_of_file(alloc, &chain.templates, index)?;
    let blocks = blocks_of_file(alloc, &chain.templates, index, chain.autoescape)?;
    Ok(TemplateFacts {
        uses,
        names,
        macros,
        blocks,
        includes,
    })
}

/// Returns what is known of each template.
pub(crate) fn facts_of_templates(
    alloc: Global,
    chain: &Chain,
) -> Result<Vec<TemplateFacts<'_>>, AllocError>
    ensures { IfOk result (λ fs. AreKnown chain.now fs.items) }
{
    let mut found = Vec::with_capacity(alloc, chain.templates.len())?;
    for index in 0..chain.templates.len() {
        found.push(facts_of_template(alloc, chain, index)?)?;
    }
    Ok(found)
}

/// Returns whether no template `name` was read.
#[tactic(auto, using(jt_chains::proofs::TemplatesByIndex::missing))]
pub fn is_missing(chain: &Chain, name: &str) -> bool
    ensures { result ≡ is_none (its_sources chain.now name.now) }
{
    chain.templates.as_slice().len() <= file_named(chain, name)
}
