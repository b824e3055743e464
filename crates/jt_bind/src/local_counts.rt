//! Counts the locals that resolved statements use: one more than the last one that is stored or
//! loaded. A function that takes `last`, the last local before, returns the last one after a part.

ghost use Rattle.jt_ir.specs.Locals as locals;
ghost use Rattle.jt_ir.specs.View.{body_view};
ghost use Rattle.std.specs.Prelude.{◌≡◌};
ghost use Rattle.jt_bind.specs.internal.{none, end, IfOk, List, map, max, option_map, Text};
ghost use Rattle.jt_bind.specs.internal.{expr_view, filtered_view, row_view, slot_view};
ghost use Rattle.jt_bind.specs.internal.{targets_view, stmt_view, branches_locals, target_locals};
ghost use Rattle.jt_bind.specs.internal.{up_to, Reaches};

use crate::Result;
use jt_ir::{Filtered, Slot, SlotBranch, SlotExpr, SlotStmt, Targets};
use jt_layout::checked_sum;

/// Returns the later of two locals, if there are any.
fn later(left: Option<usize>, right: Option<usize>) -> Option<usize>
    ensures { up_to result ≡ max (up_to left) (up_to right) }
{
    match (left, right) {
        (Some(left), Some(right)) => Some(left.max(right)),
        (Some(left), None) => Some(left),
        (None, right) => right,
    }
}

/// Counts the locals up to one, if there is one.
fn count_of(last: Option<usize>) -> Result<usize>
    ensures { IfOk result (λ n. n ≡ up_to last) }
{
    match last {
        Some(local) => checked_sum(local, 1),
        None => Ok(0),
    }
}

/// Returns the local of a slot, if there is a slot that is a local.
fn local_of(slot: Option<Slot>) -> Option<usize>
    ensures { up_to result ≡ target_locals (option_map slot_view slot) }
{
    match slot {
        Some(Slot::Local(local)) => Some(local),
        Some(Slot::Global(_)) => None,
        None => None,
    }
}

/// Returns the last local after slots.
#[tactic(auto, using(crate::proofs::slots_step))]
fn last_of_slots(slots: &[Option<Slot>], last: Option<usize>) -> Option<usize>
    ensures { up_to result ≡ max (up_to last)
        (locals.slots_locals (map (option_map slot_view) slots.now)) }
{
    let mut latest = last;
    for slot in slots {
        latest = later(latest, local_of(*slot));
    }
    latest
}

/// Returns the last local after targets.
fn last_of_targets(targets: &Targets, last: Option<usize>) -> Option<usize>
    ensures { up_to result ≡ max (up_to last)
        (locals.targets_locals (targets_view targets.now)) }
{
    match targets {
        Targets::One(slot) => later(last, local_of(Some(*slot))),
        Targets::Several(slots) => last_of_slots(slots, last),
    }
}

/// Returns the last local after an expression.
#[cycle(expressions)]
fn last_of_expr(expr: &SlotExpr, last: Option<usize>) -> Option<usize>
    ensures { up_to result ≡ max (up_to last)
        (locals.expr_locals (expr_view expr.now)) }
{
    match expr {
        SlotExpr::Pooled(_) => last,
        SlotExpr::Variable(slot) => later(last, local_of(Some(*slot))),
        SlotExpr::Field(_) => last,
        SlotExpr::Absent => last,
        SlotExpr::Made(_, row) => last_of_row(row, last),
        SlotExpr::Conjunction(left, right) => last_of_expr(right, last_of_expr(left, last)),
        SlotExpr::Disjunction(left, right) => last_of_expr(right, last_of_expr(left, last)),
        SlotExpr::Choice {
            condition,
            value,
            other,
        } => last_of_expr(other, last_of_expr(value, last_of_expr(condition, last))),
        SlotExpr::Invoke { row, .. } => last_of_row(row, last),
    }
}

/// Returns the last local after a list of expressions.
#[cycle(expressions)]
fn last_of_row(row: &[(Option<usize>, SlotExpr)], last: Option<usize>) -> Option<usize>
    ensures { up_to result ≡ max (up_to last)
        (locals.row_locals (row_view row.now none)) }
{
    let mut latest = last;
    for (kept, expr) in row {
        latest = later(last_of_expr(expr, latest), *kept);
    }
    latest
}

/// Returns the last local after a value and the filters after it.
fn last_of_filtered(filtered: &Filtered, last: Option<usize>) -> Option<usize>
    ensures { up_to result ≡ max (up_to last)
        (locals.expr_locals (filtered_view filtered.now)) }
{
    let mut latest = last_of_expr(&filtered.value, last);
    for filter in &filtered.filters {
        latest = last_of_row(&filter.row, latest);
    }
    latest
}

/// Returns the last local after a condition, if there is one.
fn last_of_condition(condition: &Option<SlotExpr>, last: Option<usize>) -> Option<usize>
    ensures { up_to result ≡ max (up_to last)
        (locals.condition_locals (option_map expr_view condition.now)) }
{
    match condition {
        Some(condition) => last_of_expr(condition, last),
        None => last,
    }
}

/// Returns the last local after the branches of an `if`.
#[cycle(statements)]
fn last_of_branches(branches: &[SlotBranch<SlotStmt>], last: Option<usize>) -> Option<usize>
    ensures { (templates : List Text) → up_to result ≡ max (up_to last)
        (branches_locals templates branches.now) }
{
    let mut latest = last;
    for branch in branches {
        let asked = last_of_expr(&branch.condition, latest);
        latest = last_of_body(&branch.body, asked);
    }
    latest
}

/// Returns the last local after a statement.
#[cycle(statements)]
fn last_of_stmt(statement: &SlotStmt, last: Option<usize>) -> Option<usize>
    ensures { (templates : List Text)
        → Reaches (stmt_view templates statement.now) last result }
{
    match statement {
        SlotStmt::PutPooled(_) => last,
        SlotStmt::Print { value, .. } => last_of_filtered(value, last),
        SlotStmt::Assign { targets, value, .. } => {
            last_of_expr(value, last_of_targets(targets, last))
        }
        SlotStmt::If(branches, other) => {
            let first = last_of_branches(branches, last);
            last_of_body(other, first)
        }
        SlotStmt::For {
            targets,
            over,
            condition,
            body,
            other,
            ..
        } => {
            let given = last_of_expr(over, last_of_targets(targets, last));
            let asked = last_of_condition(condition, given);
            let turn = last_of_body(body, asked);
            last_of_body(other, turn)
        }
        SlotStmt::Capture { slot, body, .. } => {
            let kept = later(last, local_of(Some(*slot)));
            last_of_body(body, kept)
        }
        SlotStmt::Run(_, row) => last_of_row(row, last),
    }
}

/// Returns the last local after statements.
#[cycle(statements)]
fn last_of_body(body: &[SlotStmt], last: Option<usize>) -> Option<usize>
    ensures { (templates : List Text)
        → Reaches (body_view templates body.now) last result }
{
    let mut latest = last;
    for statement in body {
        latest = last_of_stmt(statement, latest);
    }
    latest
}

/// Counts the locals of statements.
pub(crate) fn body_locals(body: &[SlotStmt]) -> Result<usize>
    ensures { IfOk result (λ n. (templates : List Text)
        → n ≡ locals.body_locals (body_view templates body.now end)) }
{
    count_of(last_of_body(body, None))
}
