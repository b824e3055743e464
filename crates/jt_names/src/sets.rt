//! Collects the names that a body sets in its own scope.

ghost use Rattle.std.specs.Prelude.{◌≡◌, IfOk};
ghost use Rattle.jt_chains.specs.Uses.{set_by, set_in};
ghost use Rattle.jt_ast.specs.StatementView.{stmt_view, body_view};
ghost use Rattle.jt_ast.specs.Texts.{texts};
ghost use Rattle.jt_names.specs.Names.{Adds};

use crate::lists::add_names_of;
use jt_ast::{Branch, Stmt};
use std::alloc::{AllocError, Global};

/// Adds the names that statements set in their scope.
#[cycle(sets)]
fn add_sets<'a>(found: &mut Vec<&'a str>, body: &'a [Stmt]) -> Result<(), AllocError>
    ensures { IfOk result (λ _. Adds found.old found.new (set_in (body_view body.now))) }
{
    for statement in body {
        add_set(found, statement)?;
    }
    Ok(())
}

/// Adds the names that a statement sets in its scope.
#[cycle(sets)]
fn add_set<'a>(found: &mut Vec<&'a str>, statement: &'a Stmt) -> Result<(), AllocError>
    ensures { IfOk result (λ _. Adds found.old found.new (set_by (stmt_view statement.now))) }
{
    match statement {
        Stmt::Set { targets, .. } => add_names_of(found, targets)?,
        Stmt::SetBlock { name, .. } => found.push(name.as_str())?,
        Stmt::If(branches, other) => {
            for Branch { body, .. } in branches {
                add_sets(found, body)?;
            }
            add_sets(found, other)?;
        }
        Stmt::For { other, .. } => add_sets(found, other)?,
        Stmt::Data(_)
        | Stmt::Print(_, _)
        | Stmt::With { .. }
        | Stmt::FilterBlock { .. }
        | Stmt::Autoescape { .. }
        | Stmt::Macro { .. }
        | Stmt::Include { .. }
        | Stmt::Import { .. }
        | Stmt::From { .. }
        | Stmt::Extends(_, _)
        | Stmt::Block { .. } => {}
    }
    Ok(())
}

/// Returns the names that a body sets in its own scope, once for each occurrence, in the order of
/// the source.
pub fn set_names(alloc: Global, body: &[Stmt]) -> Result<Vec<&str>, AllocError>
    ensures { IfOk result (λ names. texts names.items ≡ set_in (body_view body.now)) }
{
    let mut found = Vec::new(alloc);
    add_sets(&mut found, body)?;
    Ok(found)
}
