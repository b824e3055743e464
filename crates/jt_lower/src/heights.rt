//! Checks the number of stack entries that the code of expressions needs above the existing ones.

ghost use Rattle.std.specs.Prelude.{◌≡◌, ◌||◌, not, nat_le};
ghost use Rattle.jt_ir.specs.Size.{nary_op_height, expr_height, row_height};
ghost use Rattle.jt_ir.specs.Slots.{none};
ghost use Rattle.jt_ir.specs.View.{nary_op_view, expr_view, row_view, filtered_view};

use jt_ir::{Filtered, NaryOp, SlotExpr};

/// Returns whether an expression needs at most `room` stack entries.
#[cycle(heights)]
pub fn fits_expression(expr: &SlotExpr, room: usize) -> bool
    ensures { result ≡ nat_le (expr_height (expr_view expr.now)) room }
{
    match expr {
        SlotExpr::Pooled(_) | SlotExpr::Variable(_) | SlotExpr::Field(_) | SlotExpr::Absent => room
            >= 1,
        SlotExpr::Made(made, row) => room >= height_of(*made) && fits_row(row, room),
        SlotExpr::Conjunction(left, right) | SlotExpr::Disjunction(left, right) => {
            room >= 2 && fits_expression(left, room) && fits_expression(right, room)
        }
        SlotExpr::Choice {
            condition,
            value: taken,
            other,
        } => {
            fits_expression(condition, room)
                && fits_expression(taken, room)
                && fits_expression(other, room)
        }
        SlotExpr::Invoke { row, .. } => room >= 1 && fits_row(row, room - 1),
    }
}

/// Returns the number of stack entries that an operation needs for its result, or for the copy that
/// it tests.
fn height_of(made: NaryOp) -> usize
    ensures { result ≡ nary_op_height (nary_op_view made) }
{
    match made {
        NaryOp::Required => 2,
        _ => 1,
    }
}

/// Returns whether a sequence of expressions needs at most `room` stack entries. Each expression
/// lies above the values before it.
#[cycle(heights)]
pub fn fits_row(row: &[(Option<usize>, SlotExpr)], room: usize) -> bool
    ensures { result ≡ nat_le (row_height (row_view row.now none)) room }
{
    let mut left = room;
    for (kept, expr) in row {
        if !fits_expression(expr, left) {
            return false;
        }
        if kept.is_none() {
            left -= 1;
        }
    }
    true
}

/// Returns whether the check of a value needs at most `room` stack entries, if `required` is set.
/// The check copies the value.
fn fits_required(required: bool, room: usize) -> bool
    ensures { result ≡ not required || nat_le 2 room }
{
    !required || room >= 2
}

/// Returns whether a value and the filters after it need at most `room` stack entries. The
/// arguments of a filter lie above its value.
pub fn fits_filtered(filtered: &Filtered, room: usize) -> bool
    ensures { result ≡ nat_le (expr_height (filtered_view filtered.now)) room }
{
    if !fits_expression(&filtered.value, room) {
        return false;
    }
    for filter in &filtered.filters {
        if !fits_required(filter.required, room) || !fits_row(&filter.row, room - 1) {
            return false;
        }
    }
    fits_required(filtered.required, room)
}
