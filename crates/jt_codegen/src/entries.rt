//! Checks the number of stack entries that the code of resolved statements needs.

ghost use Rattle.std.specs.Prelude.{◌≡◌, ◌&&◌, ◌≤◌, ◌↔◌, nat_le, ℕ, List, Option, option_map, map};
ghost use Rattle.std.specs.Prelude.{IsTrue};
ghost use Rattle.std.specs.List.{AllByRecursion};
ghost use Rattle.jt_ast.specs.Expressions.{Text};
ghost use Rattle.jt_ir.specs.Size.{targets_height, condition_height, body_height};
ghost use Rattle.jt_ir.specs.Slots as slots;
ghost use Rattle.jt_ir.specs.Slots.{SBody};
ghost use Rattle.jt_ir.specs.View.{targets_view, expr_view, stmt_view, body_view, choice_view};
ghost use Rattle.jt_ir.specs.View.{routine_view};

use jt_ir::{Routine, SlotBranch, SlotExpr, SlotStmt, Targets};
use jt_lower::{fits_expression, fits_filtered, fits_row};

/// Returns whether code that stores into the targets needs at most `room` stack entries.
fn fits_targets(targets: &Targets, room: usize) -> bool
    ensures { result ≡ nat_le (targets_height (targets_view targets.now)) room }
{
    match targets {
        Targets::One(_) => room >= 1,
        Targets::Several(slots) => room >= 1 && slots.len() <= room,
    }
}

/// Returns whether a condition needs at most `room` stack entries.
fn fits_condition(condition: &Option<SlotExpr>, room: usize) -> bool
    ensures { result ≡ nat_le (condition_height (option_map expr_view condition.now)) room }
{
    match condition {
        None => true,
        Some(expr) => fits_expression(expr, room),
    }
}

/// Returns whether a statement needs at most `room` stack entries.
#[cycle(entries)]
fn fits_statement(statement: &SlotStmt, room: usize) -> bool
    ensures { (templates : List Text) (behind : SBody ℕ)
        → nat_le (body_height (stmt_view templates statement.now behind)) room
        ≡ result && nat_le (body_height behind) room }
{
    match statement {
        SlotStmt::PutPooled(_) => true,
        SlotStmt::Print {
            value: filtered,
            ..
        } => fits_filtered(filtered, room),
        SlotStmt::Assign {
            targets,
            value: expr,
            ..
        } => fits_expression(expr, room) && fits_targets(targets, room),
        SlotStmt::If(branches, other) => fits_branches(branches, other, room),
        SlotStmt::For {
            targets,
            over: iterated,
            condition,
            body,
            other,
            ..
        } => {
            if room == 0 {
                return false;
            }
            let head = fits_expression(iterated, room) & fits_targets(targets, room - 1);
            let turn = fits_condition(condition, room - 1) & fits_body(body, room - 1);
            head & turn & fits_body(other, room)
        }
        SlotStmt::Capture { body, .. } => room >= 1 && fits_body(body, room - 1),
        SlotStmt::Run(_, row) => fits_row(row, room),
    }
}

/// Returns whether the branches of an `if` and its `else` part need at most `room` stack entries.
#[cycle(entries)]
fn fits_branches(branches: &[SlotBranch<SlotStmt>], other: &[SlotStmt], room: usize) -> bool
    ensures { (templates : List Text) (behind : SBody ℕ)
        → nat_le (body_height (choice_view templates branches.now (body_view templates other.now)
        behind)) room ≡ result && nat_le (body_height behind) room }
{
    for SlotBranch {
        condition,
        body,
        ..
    } in branches {
        if !fits_expression(condition, room) {
            return false;
        }
        if !fits_body(body, room) {
            return false;
        }
    }
    fits_body(other, room)
}

/// Returns whether statements need at most `room` stack entries.
#[cycle(entries)]
fn fits_body(body: &[SlotStmt], room: usize) -> bool
    ensures { (templates : List Text) (behind : SBody ℕ)
        → nat_le (body_height (body_view templates body.now behind)) room
        ≡ result && nat_le (body_height behind) room }
{
    for statement in body {
        if !fits_statement(statement, room) {
            return false;
        }
    }
    true
}

/// Returns whether each routine needs at most `room` stack entries.
pub(crate) fn fits_entries(routines: &[Routine], room: usize) -> bool
    ensures { (templates : List Text)
        → IsTrue result
        ↔ AllByRecursion (λ (r : slots.Routine ℕ). body_height r.body ≤ room)
        (map (routine_view templates) routines.now) }
{
    for routine in routines {
        if !fits_body(&routine.body, room) {
            return false;
        }
    }
    true
}
