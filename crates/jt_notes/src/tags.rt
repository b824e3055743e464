//! Lists the tags of a template that notes are about: its prints, and its outermost blocks.

ghost use Rattle.std.specs.Prelude.{◌≡◌, ◌++◌, IfOk};
ghost use Rattle.jt_ast.specs.StatementView.{stmt_view, body_view};
ghost use Rattle.jt_notes.specs.Notes as spec;
ghost use Rattle.jt_notes.specs.Views.{tags_view};

use jt_ast::{Branch, Expr, Stmt};
use std::alloc::{AllocError, Global};

/// A tag that notes are about.
#[derive(Clone, Copy)]
pub enum Tag<'a> {
    /// A print: its line and its expression.
    Print(u32, &'a Expr),
    /// A block that is in no other block: its line and its name.
    Block(u32, &'a str),
}

/// The position of a statement: outside of all blocks, or inside a block.
#[derive(Clone, Copy)]
pub enum Level {
    Outside,
    Inside,
}

/// Adds a block, if it is in no other block.
fn add_block<'a>(
    level: Level,
    line: u32,
    name: &'a str,
    found: &mut Vec<Tag<'a>>,
) -> Result<(), AllocError>
    ensures { IfOk result (λ _. tags_view found.new.items
        ≡ tags_view found.old.items ++ spec.block_tag level line name.now) }
{
    match level {
        Level::Outside => {
            found.push(Tag::Block(line, name))?;
        }
        Level::Inside => {}
    }
    Ok(())
}

/// Adds the tags of statements, in the order of the source.
#[cycle(tags)]
fn add_tags<'a>(level: Level, body: &'a [Stmt], found: &mut Vec<Tag<'a>>) -> Result<(), AllocError>
    ensures { IfOk result (λ _. tags_view found.new.items
        ≡ tags_view found.old.items ++ spec.tags_in level (body_view body.now)) }
{
    for statement in body {
        add_statement(level, statement, found)?;
    }
    Ok(())
}

/// Adds the tags of a statement, in the order of the source.
#[cycle(tags)]
#[tactic(auto, using(jt_ast::proofs::StatementViews::view_For, jt_ast::proofs::StatementViews::view_Autoescape))]
fn add_statement<'a>(
    level: Level,
    statement: &'a Stmt,
    found: &mut Vec<Tag<'a>>,
) -> Result<(), AllocError>
    ensures { IfOk result (λ _. tags_view found.new.items
        ≡ tags_view found.old.items ++ spec.tags_of level (stmt_view statement.now)) }
{
    match statement {
        Stmt::Data(_)
        | Stmt::Set { .. }
        | Stmt::Include { .. }
        | Stmt::Import { .. }
        | Stmt::From { .. }
        | Stmt::Extends(_, _) => {}
        Stmt::Print(line, printed) => found.push(Tag::Print(*line, printed))?,
        Stmt::Block {
            line,
            name,
            body,
            ..
        } => {
            add_block(level, *line, name.as_str(), found)?;
            add_tags(Level::Inside, body, found)?;
        }
        Stmt::If(branches, other) => {
            for Branch { body, .. } in branches {
                add_tags(level, body, found)?;
            }
            add_tags(level, other, found)?;
        }
        Stmt::For { body, other, .. } => {
            add_tags(level, body, found)?;
            add_tags(level, other, found)?;
        }
        Stmt::SetBlock { body, .. }
        | Stmt::With { body, .. }
        | Stmt::FilterBlock { body, .. }
        | Stmt::Autoescape { body, .. }
        | Stmt::Macro { body, .. } => add_tags(level, body, found)?,
    }
    Ok(())
}

/// Returns the prints and the outermost blocks of a template, in the order of the source.
pub(crate) fn tags_in(alloc: Global, body: &[Stmt]) -> Result<Vec<Tag<'_>>, AllocError>
    ensures { IfOk result (λ tags. tags_view tags.items
        ≡ spec.tags_in Level.Outside (body_view body.now)) }
{
    let mut found = Vec::new(alloc);
    add_tags(Level::Outside, body, &mut found)?;
    Ok(found)
}
