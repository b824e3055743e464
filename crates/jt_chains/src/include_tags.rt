//! Collects the includes of templates.

ghost use Rattle.std.specs.Prelude.{◌≡◌, IfOk};
ghost use Rattle.jt_ast.specs.StatementView.{stmt_view, body_view};
ghost use Rattle.jt_chains.specs.Includes.{includes_by, includes_in};
ghost use Rattle.jt_chains.specs.Needs.{AddsNeeds, include_need, includes_along, needs_view};
ghost use Rattle.jt_chains.specs.TemplateFiles.{files_view};

use crate::files::TemplateFile;
use crate::parts::body_of_file;
use jt_ast::{Branch, Stmt};
use std::alloc::{AllocError, Global};

/// An include or an import: the name of the template, whether the template may be missing, and
/// whether it is a library.
#[derive(Clone, Copy)]
pub struct NeededTemplate<'a> {
    pub name: &'a str,
    pub ignoring: bool,
    pub is_library: bool,
}

/// Adds the includes in statements, in the order of the source.
#[cycle(includes)]
fn add_includes<'a>(found: &mut Vec<NeededTemplate<'a>>, body: &'a [Stmt]) -> Result<(), AllocError>
    ensures { IfOk result (λ _. AddsNeeds found.old.items found.new.items
        (includes_in include_need (body_view body.now))) }
{
    for statement in body {
        add_statement(found, statement)?;
    }
    Ok(())
}

/// Adds the includes in a statement, in the order of the source.
#[cycle(includes)]
#[tactic(auto, using(jt_ast::proofs::StatementViews::view_For))]
fn add_statement<'a>(
    found: &mut Vec<NeededTemplate<'a>>,
    statement: &'a Stmt,
) -> Result<(), AllocError>
    ensures { IfOk result (λ _. AddsNeeds found.old.items found.new.items
        (includes_by include_need (stmt_view statement.now))) }
{
    match statement {
        Stmt::Data(_)
        | Stmt::Print(_, _)
        | Stmt::Set { .. }
        | Stmt::Import { .. }
        | Stmt::From { .. }
        | Stmt::Extends(_, _) => {}
        Stmt::Include { name, missing, .. } => found.push(NeededTemplate {
            name: name.as_str(),
            ignoring: missing.is_ignored(),
            is_library: false,
        })?,
        Stmt::If(branches, other) => {
            for Branch { body, .. } in branches {
                add_includes(found, body)?;
            }
            add_includes(found, other)?;
        }
        Stmt::For { body, other, .. } => {
            add_includes(found, body)?;
            add_includes(found, other)?;
        }
        Stmt::SetBlock { body, .. }
        | Stmt::With { body, .. }
        | Stmt::FilterBlock { body, .. }
        | Stmt::Autoescape { body, .. }
        | Stmt::Macro { body, .. }
        | Stmt::Block { body, .. } => add_includes(found, body)?,
    }
    Ok(())
}

/// Returns the includes of the templates at `indices`. An index out of range adds none.
#[tactic(auto, using(crate::proofs::TemplatesByIndex::along_turn))]
pub fn includes_at<'a>(
    alloc: Global,
    files: &'a [TemplateFile],
    indices: &[usize],
) -> Result<Vec<NeededTemplate<'a>>, AllocError>
    ensures { IfOk result
        (λ needs. needs_view needs.items ≡ includes_along (files_view files.now) indices.now) }
{
    let mut found = Vec::new(alloc);
    for index in indices {
        add_includes(&mut found, body_of_file(files, *index))?;
    }
    Ok(found)
}
