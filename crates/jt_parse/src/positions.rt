//! Checks the positions of statements.

ghost use Rattle.std.specs.Prelude.{◌≡◌, ◌&&◌, not, true, false};
ghost use Rattle.std.specs.Result.{is_ok};
ghost use Rattle.jt_scan.specs.Cut as cut;
ghost use Rattle.jt_parse.specs.Positions as spec;
ghost use Rattle.jt_parse.specs.internal.Gives.{GivesPositions};
ghost use Rattle.jt_ast.specs.StatementView.{stmt_view, body_view, branches_view};
ghost use Rattle.jt_parse.specs.internal.PositionView.{position_view};

use crate::error::ParseError;
use jt_ast::{Branch, Stmt};

/// The position of a statement, as far as it restricts which statements are allowed.
#[derive(Clone, Copy, PartialEq, Eq)]
pub enum Position {
    /// The top level of a template that extends another one.
    ChildTop,
    /// The top level of a template that extends none.
    RootTop,
    /// The inside of a macro.
    InMacro,
    /// Any other position.
    Inside,
}

/// Returns the position of the statements inside a statement at this position.
fn within(position: Position) -> Position
    ensures { position_view result ≡ spec.within (position_view position) }
{
    match position {
        Position::InMacro => Position::InMacro,
        _ => Position::Inside,
    }
}

/// Returns whether the position is at the top level of a child template, outside its blocks.
fn is_child(position: Position) -> bool
    ensures { result ≡ spec.is_child (position_view position) }
{
    position == Position::ChildTop
}

/// Returns whether a macro or an import is allowed at this position.
fn is_top(position: Position) -> bool
    ensures { result ≡ spec.is_top (position_view position) }
{
    matches!(position, Position::ChildTop | Position::RootTop)
}

/// Returns whether the position is inside a macro.
fn is_macro(position: Position) -> bool
    ensures { result ≡ spec.is_macro (position_view position) }
{
    position == Position::InMacro
}

/// Returns whether a byte is whitespace.
fn is_space(b: u8) -> bool
    ensures { result ≡ cut.is_space b }
{
    b == b' ' || b == b'\t' || b == b'\n' || b == 0x0b || b == 0x0c || b == b'\r'
}

/// Returns whether a text consists of whitespace.
fn is_blank_text(text: &str) -> bool
    ensures { result ≡ spec.is_blank_text text.now }
{
    for b in text.as_bytes() {
        if !is_space(*b) {
            return false;
        }
    }
    true
}

/// Returns whether a statement is text that consists of whitespace.
fn is_blank(statement: &Stmt) -> bool
    ensures { result ≡ spec.is_blank_stmt (stmt_view statement.now) }
{
    match statement {
        Stmt::Data(text) => is_blank_text(text),
        _ => false,
    }
}

/// Returns whether statements consist of whitespace.
fn is_blank_body(body: &[Stmt]) -> bool
    ensures { result ≡ spec.is_blank_body (body_view body.now) }
{
    for statement in body {
        if !is_blank(statement) {
            return false;
        }
    }
    true
}

/// Refuses the tag of a line unless it is allowed.
fn allow(allowed: bool, line: u32) -> Result<(), u32>
    ensures { is_ok result ≡ allowed }
{
    if allowed { Ok(()) } else { Err(line) }
}

/// Returns the line of the first branch, or 1 if there is no branch.
fn first_line(branches: &[Branch<Stmt>]) -> u32 {
    branches.first().map_or(1, |branch| branch.line)
}

/// Checks the positions of statements. The error is the line of the first one that is not allowed.
#[cycle(positions)]
fn body_placed(body: &[Stmt], position: Position) -> Result<(), u32>
    ensures { is_ok result ≡ spec.body_placed (position_view position) (body_view body.now) }
{
    for statement in body {
        statement_placed(statement, position)?;
    }
    Ok(())
}

/// Checks the positions of the statements in the branches of an `if` and in its `else` part.
#[cycle(positions)]
fn choice_placed(branches: &[Branch<Stmt>], other: &[Stmt], position: Position) -> Result<(), u32>
    ensures { is_ok result
        ≡ (spec.branches_placed (position_view position) (branches_view branches.now)
        && spec.body_placed (position_view position) (body_view other.now)) }
{
    for Branch { body, .. } in branches {
        body_placed(body, position)?;
    }
    body_placed(other, position)
}

/// Refuses the tag of a line unless it is allowed, and checks the statements in its body, which is
/// at this position.
#[cycle(positions)]
fn enclosed_placed(allowed: bool, line: u32, body: &[Stmt], position: Position) -> Result<(), u32>
    ensures { is_ok result
        ≡ (allowed && spec.body_placed (position_view position) (body_view body.now)) }
{
    allow(allowed, line)?;
    body_placed(body, position)
}

/// Checks the positions of a statement and of the statements nested in it.
#[cycle(positions)]
fn statement_placed(statement: &Stmt, position: Position) -> Result<(), u32>
    ensures { is_ok result ≡ spec.stmt_placed (position_view position) (stmt_view statement.now) }
{
    match statement {
        Stmt::Data(_) | Stmt::Set { .. } => Ok(()),
        Stmt::Print(line, _) | Stmt::Include { line, .. } => allow(!is_child(position), *line),
        Stmt::Import { line, .. } | Stmt::From { line, .. } => allow(is_top(position), *line),
        Stmt::Extends(line, _) => Err(*line),
        Stmt::If(branches, other) => {
            allow(!is_child(position), first_line(branches))?;
            choice_placed(branches, other, within(position))
        }
        Stmt::For {
            line,
            body,
            other,
            ..
        } => {
            enclosed_placed(!is_child(position), *line, body, within(position))?;
            body_placed(other, within(position))
        }
        Stmt::SetBlock { body, .. } => body_placed(body, within(position)),
        Stmt::With { line, body, .. }
        | Stmt::FilterBlock { line, body, .. }
        | Stmt::Autoescape { line, body, .. } => {
            enclosed_placed(!is_child(position), *line, body, within(position))
        }
        Stmt::Macro { line, body, .. } => {
            enclosed_placed(is_top(position), *line, body, Position::InMacro)
        }
        Stmt::Block {
            line,
            required,
            body,
            ..
        } => {
            allow(!is_macro(position), *line)?;
            let allowed = !*required || is_blank_body(body);
            enclosed_placed(allowed, *line, body, within(position))
        }
    }
}

/// Checks the positions of the statements of a template.
fn template_placed(body: &[Stmt]) -> Result<(), u32>
    ensures { is_ok result ≡ spec.is_placed (body_view body.now) }
{
    let mut position = None;
    for statement in body {
        match (position, statement) {
            (None, Stmt::Extends(_, _)) => position = Some(Position::ChildTop),
            (None, Stmt::Data(text)) => {
                if !is_blank_text(text) {
                    position = Some(Position::RootTop);
                }
            }
            (None, _) => {
                position = Some(Position::RootTop);
                statement_placed(statement, Position::RootTop)?;
            }
            (Some(top), _) => statement_placed(statement, top)?,
        }
    }
    Ok(())
}

/// Refuses a template with a statement at a position where it is not allowed.
pub(crate) fn check_positions(body: &[Stmt]) -> Result<(), ParseError>
    ensures { GivesPositions (spec.is_placed (body_view body.now)) result }
{
    match template_placed(body) {
        Ok(()) => Ok(()),
        Err(line) => Err(ParseError::Syntax { line }),
    }
}
