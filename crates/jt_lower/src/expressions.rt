//! Emits the code of resolved expressions.

ghost use Rattle.std.specs.Prelude.{◌≡◌, ℕ, List, OnOk};
ghost use Rattle.jt_ast.specs.Expressions.{Text};
ghost use Rattle.jt_ir.specs.Slots as slots;
ghost use Rattle.jt_ir.specs.Size.{row_count};
ghost use Rattle.jt_ir.specs.Slots.{none, required_if};
ghost use Rattle.jt_ir.specs.View.{nary_op_view, expr_view, row_view, filtered_view};
ghost use Rattle.jt_lower.specs.Asm.{choose};
ghost use Rattle.jt_lower.specs.Lower.{made_asm, required_asm, expr_asm, row_asm};
ghost use Rattle.jt_lower.specs.Emission.{tag_view, side_asm, instead_asm, Puts, PutsFor};
ghost use Rattle.jt_lower.specs.Emission.{PutsAt};

use crate::emitter::Emitter;
use crate::instructions::{call_of, constant_of, flag, load_of, loop_get_of, made_of, store_of};
use jt_ids::TestId;
use jt_image::Instruction;
use jt_ir::{Filtered, NaryOp, Place, Slot, SlotExpr};
use std::alloc::AllocError;

/// Emits an expression of a tag; `above` entries lie above the innermost loop.
///
/// # Errors
///
/// `AllocError` if a growth is refused.
#[cycle(expressions)]
pub fn emit_expression(
    code: &mut Emitter,
    tag: Option<Place>,
    expr: &SlotExpr,
    above: usize,
) -> Result<(), AllocError>
    ensures { PutsAt above code.old (λ templates. expr_asm (tag_view templates tag)
        (expr_view expr.now)) result code.new }
{
    match expr {
        SlotExpr::Pooled(place) => code.put(tag, constant_of(*place)),
        SlotExpr::Variable(slot) => code.put(tag, load_of(*slot)),
        SlotExpr::Field(loop_field) => code.put(tag, loop_get_of(*loop_field, above)),
        SlotExpr::Absent => Ok(()),
        SlotExpr::Made(made, row) => {
            emit_row(code, tag, row, above)?;
            emit_made(code, tag, *made, count_values(row))?;
            Ok(())
        }
        SlotExpr::Conjunction(left, right) => {
            emit_expression(code, tag, left, above)?;
            emit_instead(code, tag, right, true, above)
        }
        SlotExpr::Disjunction(left, right) => {
            emit_expression(code, tag, left, above)?;
            emit_instead(code, tag, right, false, above)
        }
        SlotExpr::Choice {
            condition,
            value: taken,
            other,
        } => {
            emit_expression(code, tag, condition, above)?;
            emit_choice(code, tag, taken, other, above)
        }
        SlotExpr::Invoke {
            routine,
            escaping,
            row,
        } => {
            let printed = flag(*escaping);
            code.put(tag, Some(Instruction::CaptureBegin))?;
            emit_row(code, tag, row, above.saturating_add(1))?;
            code.put(tag, call_of(*routine))?;
            code.put(tag, Some(Instruction::CaptureEnd { flag: printed }))?;
            Ok(())
        }
    }
}

/// Emits an operation on the `count` values on top.
fn emit_made(
    code: &mut Emitter,
    tag: Option<Place>,
    made: NaryOp,
    count: usize,
) -> Result<(), AllocError>
    ensures { PutsFor code.old (λ templates. made_asm (tag_view templates tag)
        (nary_op_view made) count) result code.new }
{
    match made {
        NaryOp::Required => emit_required(code, tag),
        _ => code.put(tag, made_of(made, count)),
    }
}

/// Emits the check of the top value, which stays there: a copy, its test, and an operator that
/// fails and is executed only if the value is undefined.
fn emit_required(code: &mut Emitter, tag: Option<Place>) -> Result<(), AllocError>
    ensures { PutsFor code.old (λ templates. required_asm (tag_view templates tag))
        result code.new }
{
    let undefined = Instruction::Test {
        test: TestId::Undefined.id(),
        values: 1,
    };
    code.put(tag, Some(Instruction::Dup))?;
    code.put(tag, Some(undefined))?;
    let choice = code.begin_choice()?;
    code.put(tag, made_of(NaryOp::Required, 1))?;
    code.end_when(choice);
    Ok(())
}

/// Emits the check of the value of an expression, if `required` is set.
fn emit_if_required(
    code: &mut Emitter,
    tag: Option<Place>,
    required: bool,
) -> Result<(), AllocError>
    ensures { OnOk result ((templates : List Text) (before : Emitter) (e : slots.SlotExpr ℕ) (h : ℕ)
        → Puts templates before (expr_asm (tag_view templates tag) e h) code.old
        → Puts templates before (expr_asm (tag_view templates tag) (required_if required e) h)
        code.new) }
{
    if required {
        emit_required(code, tag)?;
    }
    Ok(())
}

/// Emits a test of the top value, and an expression that replaces this value if its truth is `so`.
#[cycle(expressions)]
fn emit_instead(
    code: &mut Emitter,
    tag: Option<Place>,
    expr: &SlotExpr,
    so: bool,
    above: usize,
) -> Result<(), AllocError>
    ensures { PutsAt above code.old (λ templates. instead_asm (tag_view templates tag)
        (expr_view expr.now) so) result code.new }
{
    code.put(tag, Some(Instruction::Dup))?;
    let choice = code.begin_choice()?;
    emit_side(code, tag, expr, so, above)?;
    let last = code.end_branch(choice)?;
    emit_side(code, tag, expr, !so, above)?;
    code.close(last);
    Ok(())
}

/// Emits an expression that replaces the top value, if `wanted` is set.
#[cycle(expressions)]
fn emit_side(
    code: &mut Emitter,
    tag: Option<Place>,
    expr: &SlotExpr,
    wanted: bool,
    above: usize,
) -> Result<(), AllocError>
    ensures { PutsAt above code.old (λ templates. side_asm (tag_view templates tag)
        (expr_view expr.now) wanted) result code.new }
{
    if wanted {
        code.put(tag, Some(Instruction::Drop))?;
        emit_expression(code, tag, expr, above)?;
    }
    Ok(())
}

/// Emits a test of the top value, and the two expressions between which it chooses.
#[cycle(expressions)]
fn emit_choice(
    code: &mut Emitter,
    tag: Option<Place>,
    taken: &SlotExpr,
    other: &SlotExpr,
    above: usize,
) -> Result<(), AllocError>
    ensures { PutsAt above code.old (λ templates h. choose
        (expr_asm (tag_view templates tag) (expr_view taken.now) h)
        (expr_asm (tag_view templates tag) (expr_view other.now) h)) result code.new }
{
    let choice = code.begin_choice()?;
    emit_expression(code, tag, taken, above)?;
    let last = code.end_branch(choice)?;
    emit_expression(code, tag, other, above)?;
    code.close(last);
    Ok(())
}

/// Returns the number of values of a sequence. An expression that is stored in a local is not
/// counted.
fn count_values(row: &[(Option<usize>, SlotExpr)]) -> usize
    ensures { result ≡ row_count (row_view row.now none) }
{
    let mut count = 0;
    for (kept, _) in row {
        if kept.is_none() {
            count += 1;
        }
    }
    count
}

/// Emits a sequence of expressions from left to right; `above` entries lie above the innermost
/// loop.
///
/// # Errors
///
/// `AllocError` if a growth is refused.
#[cycle(expressions)]
pub fn emit_row(
    code: &mut Emitter,
    tag: Option<Place>,
    row: &[(Option<usize>, SlotExpr)],
    above: usize,
) -> Result<(), AllocError>
    ensures { PutsAt above code.old (λ templates. row_asm (tag_view templates tag)
        (row_view row.now none)) result code.new }
{
    let mut top = above;
    for (kept, expr) in row {
        emit_expression(code, tag, expr, top)?;
        match kept {
            Some(local) => code.put(tag, store_of(Slot::Local(*local)))?,
            None => top = top.saturating_add(1),
        }
    }
    Ok(())
}

/// Emits a value of a tag and the filters after it; `above` entries lie above the innermost loop.
///
/// # Errors
///
/// `AllocError` if a growth is refused.
pub fn emit_filtered(
    code: &mut Emitter,
    tag: Option<Place>,
    filtered: &Filtered,
    above: usize,
) -> Result<(), AllocError>
    ensures { PutsAt above code.old (λ templates. expr_asm (tag_view templates tag)
        (filtered_view filtered.now)) result code.new }
{
    emit_expression(code, tag, &filtered.value, above)?;
    for filter in &filtered.filters {
        emit_if_required(code, tag, filter.required)?;
        emit_row(code, tag, &filter.row, above.saturating_add(1))?;
        let made = NaryOp::Filter {
            filter: filter.filter,
            escaping: filter.escaping,
        };
        code.put(tag, made_of(made, count_values(&filter.row) + 1))?;
    }
    emit_if_required(code, tag, filtered.required)?;
    Ok(())
}
