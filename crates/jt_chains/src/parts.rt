//! Collects the macros of templates and the bodies of their blocks.

ghost use Rattle.std.specs.Prelude.{◌≡◌, ◌++◌, List, map, IfOk};
ghost use Rattle.jt_ast.specs.StatementView.{stmt_view, body_view};
ghost use Rattle.jt_ast.specs.Texts.{texts};
ghost use Rattle.jt_chains.specs.Chain.{Template, macros_in, blocks_of, blocks_in};
ghost use Rattle.jt_chains.specs.TemplateFiles.{files_view};
ghost use Rattle.jt_chains.specs.Parts.{macros_view, blocks_view, name_at};
ghost use Rattle.jt_chains.specs.Along.{body_at};

use crate::files::TemplateFile;
use jt_ast::{Branch, Parameter, Stmt};
use std::alloc::{AllocError, Global};

/// A macro of a template that was read. `template` is the index of that template.
#[derive(Clone, Copy)]
pub struct Macro<'a> {
    pub name: &'a str,
    pub template: usize,
    pub parameters: &'a [Parameter],
    pub body: &'a [Stmt],
}

/// A body of a block. `template` is the index of its template, and `escaping` the autoescape state
/// at its tag.
#[derive(Clone, Copy)]
pub struct Block<'a> {
    pub template: usize,
    pub name: &'a str,
    pub scoped: bool,
    pub required: bool,
    pub escaping: bool,
    pub body: &'a [Stmt],
}

/// The context of statements: the index of their template and the autoescape state.
#[derive(Clone, Copy)]
struct BodySite {
    template: usize,
    escaping: bool,
}

/// Adds the bodies of the blocks in statements, nested ones included, in the order of the source.
#[cycle(blocks)]
fn add_blocks<'a>(
    site: BodySite,
    body: &'a [Stmt],
    found: &mut Vec<Block<'a>>,
) -> Result<(), AllocError>
    ensures { IfOk result (λ _. (ts : List Template)
        → blocks_view ts found.new.items ≡ blocks_view ts found.old.items
        ++ blocks_in (name_at ts site.template) (body_view body.now) site.escaping) }
{
    for statement in body {
        add_statement(site, statement, found)?;
    }
    Ok(())
}

/// Adds the bodies of the blocks in a statement, nested ones included, in the order of the source.
#[cycle(blocks)]
#[tactic(auto, using(jt_ast::proofs::StatementViews::view_For, jt_ast::proofs::StatementViews::view_Autoescape))]
fn add_statement<'a>(
    site: BodySite,
    statement: &'a Stmt,
    found: &mut Vec<Block<'a>>,
) -> Result<(), AllocError>
    ensures { IfOk result (λ _. (ts : List Template)
        → blocks_view ts found.new.items ≡ blocks_view ts found.old.items
        ++ blocks_of (name_at ts site.template) (stmt_view statement.now) site.escaping) }
{
    match statement {
        Stmt::Data(_)
        | Stmt::Print(_, _)
        | Stmt::Set { .. }
        | Stmt::Include { .. }
        | Stmt::Import { .. }
        | Stmt::From { .. }
        | Stmt::Extends(_, _) => {}
        Stmt::Block {
            name,
            scoped,
            required,
            body,
            ..
        } => {
            found.push(Block {
                template: site.template,
                name,
                scoped: *scoped,
                required: *required,
                escaping: site.escaping,
                body,
            })?;
            add_blocks(site, body, found)?;
        }
        Stmt::Autoescape { escaping, body, .. } => {
            let inside = BodySite {
                escaping: *escaping,
                ..site
            };
            add_blocks(inside, body, found)?;
        }
        Stmt::If(branches, other) => {
            for Branch { body, .. } in branches {
                add_blocks(site, body, found)?;
            }
            add_blocks(site, other, found)?;
        }
        Stmt::For { body, other, .. } => {
            add_blocks(site, body, found)?;
            add_blocks(site, other, found)?;
        }
        Stmt::SetBlock { body, .. }
        | Stmt::With { body, .. }
        | Stmt::FilterBlock { body, .. }
        | Stmt::Macro { body, .. } => add_blocks(site, body, found)?,
    }
    Ok(())
}

/// Returns the statements of the template at `index`, or none if the index is out of range.
pub(crate) fn body_of_file(files: &[TemplateFile], index: usize) -> &[Stmt]
    ensures { body_view result.now ≡ body_at (files_view files.now) index }
{
    match files.get(index) {
        Some(file) => file.template.body(),
        None => &[],
    }
}

/// Returns the macros of the template at `index`, or none if the index is out of range.
pub fn macros_of_file<'a>(
    alloc: Global,
    files: &'a [TemplateFile],
    index: usize,
) -> Result<Vec<Macro<'a>>, AllocError>
    ensures { IfOk result (λ found. macros_view (files_view files.now) found.items
        ≡ macros_in (name_at (files_view files.now) index) (body_at (files_view files.now) index)) }
{
    let mut found = Vec::new(alloc);
    for statement in body_of_file(files, index) {
        if let Stmt::Macro {
            name,
            parameters,
            body,
            ..
        } = statement
        {
            found.push(Macro {
                name: name.as_str(),
                template: index,
                parameters: parameters.as_slice(),
                body: body.as_slice(),
            })?;
        }
    }
    Ok(found)
}

/// Returns the names of macros, in their order.
pub fn macro_names<'a>(alloc: Global, macros: &[Macro<'a>]) -> Result<Vec<&'a str>, AllocError>
    ensures { IfOk result (λ names. texts names.items ≡ map (λ m. m.name.now) macros.now) }
{
    macros.iter().map(|one| one.name).collect(alloc)
}

/// Returns the bodies of the blocks of the template at `index`, or none if the index is out of
/// range.
pub fn blocks_of_file<'a>(
    alloc: Global,
    files: &'a [TemplateFile],
    index: usize,
    escaping: bool,
) -> Result<Vec<Block<'a>>, AllocError>
    ensures { IfOk result (λ bodies. blocks_view (files_view files.now) bodies.items
        ≡ blocks_in (name_at (files_view files.now) index) (body_at (files_view files.now) index)
        escaping) }
{
    let mut found = Vec::new(alloc);
    let site = BodySite {
        template: index,
        escaping,
    };
    add_blocks(site, body_of_file(files, index), &mut found)?;
    Ok(found)
}
