//! Finds what an entry needs: the names of a context that its image reads, and the templates whose
//! sources decide the image.

ghost use Rattle.std.specs.Prelude.{◌≡◌, ◌++◌, filter, map, string_bytes, IfOk, IfErr};
ghost use Rattle.std.specs.Option.{is_none};
ghost use Rattle.jt_ast.specs.Texts.{ascending, texts};
ghost use Rattle.jt_chains.specs.TemplateFiles.{files_view};
ghost use Rattle.jt_chains.specs.View.{chain_view, its_sources, its_templates};
ghost use Rattle.jt_codegen.specs.Needs.{AreNeeds, missing_in, texts_in};
ghost use Rattle.jt_codegen.specs.Refusals.{Breaks, NamesLimit};
ghost use Rattle.jt_inherit.specs.Small.{IsSmall};

use crate::compiling::compile_program;
use crate::error::CompileError;
use crate::linking::{checked_facts, linked_chain};
use jt_chains::{Chain, TemplateFile};
use jt_inherit::Library;
use jt_names::{ChainFacts, in_order, is_missing};
use jt_scan::Options;
use jt_scopes::resolve_facts;
use jt_semantics::program_laws;
use std::alloc::{AllocError, Global};

/// What the image of an entry depends on. Each list is in ascending order.
#[derive(Debug, Drop)]
pub struct Needs {
    /// The names of a context that the image reads, those that its templates bind too.
    pub names: Vec<String>,
    /// The names of the templates that were read: the entry, and all that it extends, includes and
    /// imports.
    pub templates: Vec<String>,
    /// The names of the templates that includes request and that do not exist. The image differs
    /// once one of them does.
    pub missing: Vec<String>,
}

/// The templates that a chain requests.
#[derive(Drop)]
struct RequestedTemplates {
    found: Vec<String>,
    missing: Vec<String>,
}

/// Returns what the image of an entry depends on. The entry is compiled for this, with all
/// templates that it reaches.
///
/// # Errors
///
/// * `Chain` if the entry has no chain in the library.
/// * `Scope` if the chain breaks a rule of names or calls.
/// * `CodeTooLong` if the image would pass a limit.
/// * `StackTooDeep` if a unit would need more than 1,024 stack entries.
/// * `NoMemory` if a growth is refused.
pub fn find_needs<L: Library>(
    alloc: Global,
    entry: &str,
    library: &L,
    options: Options,
) -> Result<Needs, CompileError>
    // The names are those of an image of the entry, and the templates those that it was made from.
    ensures needed { IfOk result (AreNeeds (L.sources library.now) entry.now options) }
    // The refusal holds of the library and the entry.
    ensures refused { IfErr result (λ e. Breaks (L.sources library.now) entry.now options e) }
    // A refusal names no limit if the chain is small.
    ensures small { IfErr result
        (λ e. NamesLimit e → ¬ (IsSmall (L.sources library.now) entry.now options)) }
{
    program_laws();
    let chain = linked_chain(alloc, entry, library, options)?;
    let facts = checked_facts(alloc, &chain)?;
    let program = resolve_facts(alloc, &facts)?;
    let image = compile_program(alloc, &program)?;
    drop(image);
    match requested(alloc, &facts) {
        Ok(templates) => Ok(Needs {
            names: program.names,
            templates: templates.found,
            missing: templates.missing,
        }),
        Err(_) => Err(CompileError::NoMemory),
    }
}

/// Returns the templates that a chain requests, in ascending order.
fn requested(alloc: Global, facts: &ChainFacts<'_>) -> Result<RequestedTemplates, AllocError>
    ensures found { IfOk result (λ r. texts_in r.found
        ≡ ascending (map (λ t. t.name) (its_templates facts.now.chain.now))) }
    ensures missing { IfOk result (λ r. texts_in r.missing
        ≡ ascending (missing_in (chain_view facts.now.chain.now))) }
{
    let found = template_names(alloc, &facts.chain.templates)?;
    let missing = missing_names(alloc, facts)?;
    Ok(RequestedTemplates {
        found: owned_in_order(alloc, &found)?,
        missing: owned_in_order(alloc, &missing)?,
    })
}

/// Returns copies of the different names in `names`, in ascending order.
fn owned_in_order(alloc: Global, names: &[&str]) -> Result<Vec<String>, AllocError>
    ensures { IfOk result (λ v. texts_in v ≡ ascending (texts names.now)) }
{
    let names = in_order(alloc, names)?;
    owned(alloc, &names)
}

/// Returns copies of names.
fn owned(alloc: Global, names: &[&str]) -> Result<Vec<String>, AllocError>
    ensures { IfOk result (λ v. texts_in v ≡ texts names.now) }
{
    let mut copies = Vec::with_capacity(alloc, names.len())?;
    for name in names {
        copies.push(String::from_str(alloc, *name)?)?;
    }
    Ok(copies)
}

/// Returns the names of templates.
fn template_names(alloc: Global, files: &[TemplateFile]) -> Result<Vec<&str>, AllocError>
    ensures { IfOk result
        (λ names. texts names.items ≡ map (λ t. t.name) (files_view files.now)) }
{
    let mut names = Vec::with_capacity(alloc, files.len())?;
    for file in files {
        names.push(file.name.as_str())?;
    }
    Ok(names)
}

/// Returns the names of the included templates that do not exist, once for each tag.
fn missing_names<'a>(alloc: Global, facts: &ChainFacts<'a>) -> Result<Vec<&'a str>, AllocError>
    ensures { IfOk result
        (λ names. texts names.items ≡ missing_in (chain_view facts.now.chain.now)) }
{
    let mut found = Vec::new(alloc);
    for namespace in 0..facts.chain.namespaces.len() {
        let known = &facts.namespaces[namespace];
        add_missing(&mut found, facts.chain, &known.includes)?;
    }
    Ok(found)
}

/// Adds those of the names that no template has.
fn add_missing<'a>(
    found: &mut Vec<&'a str>,
    chain: &Chain,
    names: &[&'a str],
) -> Result<(), AllocError>
    ensures { IfOk result (λ _. texts found.new.items ≡ texts found.old.items
        ++ filter (λ name. is_none (its_sources chain.now name)) (texts names.now)) }
{
    for name in names {
        if is_missing(chain, *name) {
            found.push(*name)?;
        }
    }
    Ok(())
}
