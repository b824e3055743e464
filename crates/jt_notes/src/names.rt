//! Collects the names that templates bind, and the names of the blocks of the templates above one.

ghost use Rattle.std.specs.Prelude.{◌≡◌, ◌++◌, IfOk, List, map, option_map};
ghost use Rattle.jt_ast.specs.StatementView.{body_view};
ghost use Rattle.jt_ast.specs.Texts.{among, texts};
ghost use Rattle.jt_chains.specs.Along.{body_at};
ghost use Rattle.jt_chains.specs.Chain.{blocks_in};
ghost use Rattle.jt_chains.specs.Parts.{name_at};
ghost use Rattle.jt_chains.specs.TemplateFiles.{file_view};
ghost use Rattle.jt_chains.specs.View.{chain_view, its_templates};
ghost use Rattle.jt_uses.specs.UseView.{use_view};
ghost use Rattle.jt_names.specs.Names.{AreIndices};
ghost use Rattle.jt_notes.specs.Notes as spec;
ghost use Rattle.jt_notes.specs.internal.Facts.{AreAbove};

use jt_ast::Stmt;
use jt_chains::{Chain, TemplateFile, blocks_of_file, file_named};
use jt_names::NameIndex;
use jt_uses::{Use, uses_of};
use std::alloc::{AllocError, Global};

/// The names that are no variables: those of the language's functions, and `loop`.
static WORDS: [&str; 4] = ["loop", "range", "self", "super"];

/// Returns the names that are no variables.
fn words() -> &'static [&'static str]
    ensures { texts result.now ≡ spec.words }
{
    &WORDS
}

/// Returns the name that a use binds.
fn name_bound<'a>(made: Use<'a>) -> Option<&'a str>
    ensures { option_map (λ x. x.now) result ≡ spec.name_bound (use_view made.entry) }
{
    match made {
        Use::Binds(name)
        | Use::DeclaresMacro { name, .. }
        | Use::BindsLibrary { name, .. }
        | Use::BindsMacro { name, .. } => Some(name),
        _ => None,
    }
}

/// Adds the names that a template binds.
fn add_bound<'a>(
    alloc: Global,
    body: &'a [Stmt],
    found: &mut Vec<&'a str>,
) -> Result<(), AllocError>
    ensures { IfOk result (λ _. texts found.new.items
        ≡ texts found.old.items ++ spec.bound_in (body_view body.now)) }
{
    let uses = uses_of(alloc, body)?;
    for site in &uses {
        if let Some(name) = name_bound(site.made) {
            found.push(name)?;
        }
    }
    Ok(())
}

/// Returns the names that the templates of a chain bind, and those that are no variables.
fn bound_list<'a>(alloc: Global, chain: &'a Chain) -> Result<Vec<&'a str>, AllocError>
    ensures { IfOk result (λ names. texts names.items ≡ spec.bound_names (chain_view chain.now)) }
{
    let mut found = Vec::new(alloc);
    found.extend_from_slice(words())?;
    for file in &chain.templates {
        add_bound(alloc, file.template.body(), &mut found)?;
    }
    Ok(found)
}

/// Returns an index of the names that the templates of a chain bind, and of those that are no
/// variables.
pub(crate) fn bound_names<'a>(alloc: Global, chain: &'a Chain) -> Result<NameIndex<'a>, AllocError>
    ensures { IfOk result
        (λ names. AreIndices 0 (spec.bound_names (chain_view chain.now)) names.indices) }
{
    let found = bound_list(alloc, chain)?;
    NameIndex::of(alloc, &found, 0)
}

/// Returns whether an index has a name.
pub(crate) fn has_name(names: &NameIndex<'_>, name: &str) -> bool
    ensures { (xs : List spec.Text) → AreIndices 0 xs names.now.indices
        → result ≡ among name.now xs }
{
    names.index_of(name).is_some()
}

/// Returns the name of the template that the statements extend.
fn parent_of(body: &[Stmt]) -> Option<&str>
    ensures { option_map (λ x. x.now) result ≡ spec.extends_of (body_view body.now) }
{
    for statement in body {
        if let Stmt::Extends(_, name) = statement {
            return Some(name.as_str());
        }
    }
    None
}

/// Adds the names of the blocks of the template at `index`. An index out of range adds none.
fn add_blocks<'a>(
    alloc: Global,
    chain: &'a Chain,
    index: usize,
    found: &mut Vec<&'a str>,
) -> Result<(), AllocError>
    ensures { IfOk result (λ _. texts found.new.items ≡ texts found.old.items
        ++ map (λ b. b.name) (blocks_in (name_at (its_templates chain.now) index)
        (body_at (its_templates chain.now) index) chain.now.autoescape)) }
{
    let blocks = blocks_of_file(alloc, &chain.templates, index, chain.autoescape)?;
    for block in &blocks {
        found.push(block.name)?;
    }
    Ok(())
}

/// Returns the name of the template that the template at `index` extends.
fn parent_at(chain: &Chain, index: usize) -> Option<&str>
    ensures { option_map (λ x. x.now) result
        ≡ spec.extends_of (body_at (its_templates chain.now) index) }
{
    match chain.templates.get(index) {
        Some(file) => parent_of(file.template.body()),
        None => None,
    }
}

/// Returns the names of the blocks of the templates from a parent to the root.
pub(crate) fn blocks_up<'a>(
    alloc: Global,
    chain: &'a Chain,
    parent: &'a str,
) -> Result<Vec<&'a str>, AllocError>
    ensures { IfOk result (λ names. texts names.items
        ≡ spec.blocks_up (chain_view chain.now) parent.now) }
{
    let mut found = Vec::new(alloc);
    let mut next = Some(parent);
    let mut left = 64u8;
    while left > 0 {
        let Some(name) = next else {
            return Ok(found);
        };
        left -= 1;
        let index = file_named(chain, name);
        add_blocks(alloc, chain, index, &mut found)?;
        next = parent_at(chain, index);
    }
    Ok(found)
}

/// Returns the names of the blocks of the templates above the one of this name. A template that
/// extends none has none above it.
///
/// # Errors
///
/// `AllocError` if a growth is refused.
#[tactic(auto, using(crate::proofs::BlocksUp::parent))]
pub fn names_above<'a>(
    alloc: Global,
    chain: &'a Chain,
    template: &str,
) -> Result<Vec<&'a str>, AllocError>
    ensures { IfOk result (λ names. texts names.items
        ≡ spec.names_above (chain_view chain.now) template.now) }
{
    match parent_at(chain, file_named(chain, template)) {
        Some(parent) => blocks_up(alloc, chain, parent),
        None => Ok(Vec::new(alloc)),
    }
}

/// Returns an index of the names of the blocks above a template, if it extends another one.
pub(crate) fn blocks_above<'a>(
    alloc: Global,
    chain: &'a Chain,
    file: &'a TemplateFile,
) -> Result<Option<NameIndex<'a>>, AllocError>
    ensures { IfOk result (λ names. AreAbove names
        (spec.blocks_above (chain_view chain.now) (file_view file.now))) }
{
    let Some(parent) = parent_of(file.template.body()) else {
        return Ok(None);
    };
    let found = blocks_up(alloc, chain, parent)?;
    Ok(Some(NameIndex::of(alloc, &found, 0)?))
}
