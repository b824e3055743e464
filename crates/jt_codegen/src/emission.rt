//! Emits the code of resolved statements and routines.

ghost use Rattle.std.specs.Prelude.{◌≡◌, ◌≤◌, List, Some, length, option_map, IfOk, IfErr};
ghost use Rattle.jt_image.specs.IsCode.{max_locals};
ghost use Rattle.jt_image.specs.Parts.{section_of_unit};
ghost use Rattle.jt_ast.specs.Expressions.{Text};
ghost use Rattle.jt_image.specs.declared.instruction.Instruction.TheVariants as op;
ghost use Rattle.jt_ir.specs.Slots as slots;
ghost use Rattle.jt_ir.specs.View.{slot_view, targets_view, place_view, expr_view, stmt_view};
ghost use Rattle.jt_ir.specs.View.{filtered_view, body_view, choice_view, routine_view};
ghost use Rattle.jt_lower.specs.Asm.{one, both, when, each};
ghost use Rattle.jt_lower.specs.Lower.{turn_asm, kept_asm, stmt_asm, body_asm, unit_of};
ghost use Rattle.jt_lower.specs.Lower.{routine_places};
ghost use Rattle.jt_lower.specs.Emission.{tag_view, places_view, PutsFor, PutsAt};
ghost use Rattle.jt_codegen.specs.internal.Statements.{EmitsAt, Closes};
ghost use Rattle.jt_codegen.specs.Units.{RefusesUnit, max_parameters};

use crate::finding::Limit;
use crate::targets::{emit_item, emit_targets};
use jt_constants::TableError;
use jt_image::{Instruction, Unit};
use jt_ir::{Filtered, Place, Routine, Slot, SlotBranch, SlotExpr, SlotStmt, Targets};
use jt_lower::{
    Emitter, call_of, data_of, emit_expression, emit_filtered, emit_row, flag, store_of,
};
use std::alloc::{AllocError, AllocFailed, Global};

/// The reason why no code is emitted.
#[derive(Clone, Copy, Debug, Drop, PartialEq, Eq)]
pub(crate) enum EmitError {
    /// A limit that the image would pass.
    Limit(Limit),
    /// A refused growth.
    NoMemory,
}

impl From<AllocError> for EmitError {
    ghost use Rattle.std.specs.Prelude.{◌≡◌};
    ghost use Rattle.jt_codegen.specs.declared.emission.EmitError.TheVariants.{NoMemory};

    ghost from_gives = { λ _ e. e ≡ NoMemory };

    fn from(_e: AllocError) -> EmitError {
        EmitError::NoMemory
    }
}

impl<T: Drop> From<AllocFailed<T>> for EmitError {
    ghost use Rattle.std.specs.Prelude.{◌≡◌};
    ghost use Rattle.jt_codegen.specs.declared.emission.EmitError.TheVariants.{NoMemory};

    ghost from_gives = { λ _ e. e ≡ NoMemory };

    fn from(_e: AllocFailed<T>) -> EmitError {
        EmitError::NoMemory
    }
}

impl From<TableError> for EmitError {
    ghost use Rattle.std.specs.Prelude.{◌≡◌};
    ghost use Rattle.jt_codegen.specs.Units.{of_table};

    ghost from_gives = { λ refusal e. e ≡ of_table refusal };

    fn from(refusal: TableError) -> EmitError {
        match refusal {
            TableError::TooManyConstants => EmitError::Limit(Limit::Constants),
            TableError::NoMemory => EmitError::NoMemory,
        }
    }
}

/// A unit, and for each of its instructions the place of its tag, if it has one.
#[derive(Drop)]
pub(crate) struct Emitted {
    pub(crate) unit: Unit,
    pub(crate) places: Vec<Option<Place>>,
}

/// Emits the unit of a routine: its statements, then the return. The unit has at most `left`
/// instructions.
///
/// # Errors
///
/// `Limit` if the unit has more instructions.
/// `NoMemory` if a growth is refused.
pub(crate) fn emit_unit(alloc: Global, routine: &Routine, left: usize) -> Result<Emitted, EmitError>
    requires parameters { routine.now.parameters ≤ max_parameters }
    requires locals { routine.now.locals ≤ max_locals }
    ensures emitted { IfOk result (λ e. (templates : List Text)
        → section_of_unit e.unit ≡ Some (unit_of (routine_view templates routine.now))) }
    ensures placed { IfOk result (λ e. (templates : List Text)
        → places_view templates e.places.items
        ≡ routine_places (routine_view templates routine.now)) }
    ensures within { IfOk result (λ e. length e.unit.code.items ≤ left) }
    ensures refused { IfErr result (λ e. (templates : List Text)
        → RefusesUnit e left (unit_of (routine_view templates routine.now))) }
{
    let mut code = Emitter::new(alloc, left)?;
    emit_statements(&mut code, &routine.body, 0)?;
    code.put(None, Some(Instruction::Return))?;
    if code.overflowed {
        return Err(EmitError::Limit(Limit::Instructions));
    }
    let unit = Unit {
        parameters: routine.parameters as u8,
        kind: 0,
        locals: routine.locals as u16,
        code: code.code,
    };
    Ok(Emitted {
        unit,
        places: code.places,
    })
}

/// Emits the pass that keeps only the items for which the condition holds, if a condition exists.
fn emit_condition(
    code: &mut Emitter,
    tag: Option<Place>,
    targets: &Targets,
    condition: &Option<SlotExpr>,
) -> Result<(), AllocError>
    ensures { PutsFor code.old (λ templates. kept_asm (tag_view templates tag)
        (targets_view targets.now) (option_map expr_view condition.now)) result code.new }
{
    match condition {
        None => Ok(()),
        Some(tested) => {
            let top = code.begin_turns()?;
            emit_item(code, tag, targets)?;
            emit_expression(code, tag, tested, 0)?;
            code.put(tag, Some(Instruction::LoopKeep { above: 0 }))?;
            code.end_turns(top)?;
            code.put(tag, Some(Instruction::LoopRewind))?;
            Ok(())
        }
    }
}

/// Emits the output of an expression.
fn emit_printed(
    code: &mut Emitter,
    tag: Place,
    escaping: bool,
    filtered: &Filtered,
    above: usize,
) -> Result<(), AllocError>
    ensures { PutsAt above code.old (λ templates h. stmt_asm (slots.print
        (place_view templates tag) escaping (filtered_view filtered.now)) h) result code.new }
{
    let printed = flag(escaping);
    emit_filtered(code, Some(tag), filtered, above)?;
    code.put(Some(tag), Some(Instruction::Emit { flag: printed }))?;
    Ok(())
}

/// Emits an assignment.
fn emit_assigned(
    code: &mut Emitter,
    tag: Place,
    targets: &Targets,
    expr: &SlotExpr,
    above: usize,
) -> Result<(), AllocError>
    ensures { PutsAt above code.old (λ templates h. stmt_asm (slots.assign
        (place_view templates tag) (targets_view targets.now) (expr_view expr.now)) h)
        result code.new }
{
    emit_expression(code, Some(tag), expr, above)?;
    emit_targets(code, Some(tag), targets)?;
    Ok(())
}

/// Patches the jumps at `ends` to go to the end of the code.
fn close_all(code: &mut Emitter, ends: &[usize])
    ensures { Closes code.old ends.now code.new }
{
    for at in (0..ends.len()).rev() {
        code.close(ends[at]);
    }
}

/// Emits a statement; `above` entries lie above the innermost loop.
#[cycle(statements)]
fn emit_statement(code: &mut Emitter, statement: &SlotStmt, above: usize) -> Result<(), AllocError>
    ensures { EmitsAt above code.old (λ texts. stmt_view texts statement.now) result code.new }
{
    match statement {
        SlotStmt::PutPooled(place) => code.put(None, data_of(*place)),
        SlotStmt::Print {
            place: tag,
            escaping,
            value: filtered,
        } => emit_printed(code, *tag, *escaping, filtered, above),
        SlotStmt::Assign {
            place: tag,
            targets,
            value: expr,
        } => emit_assigned(code, *tag, targets, expr, above),
        SlotStmt::If(branches, other) => emit_branches(code, branches, other, above),
        SlotStmt::For {
            place: tag,
            targets,
            over: iterated,
            condition,
            body,
            other,
        } => {
            emit_expression(code, Some(*tag), iterated, above)?;
            code.put(Some(*tag), Some(Instruction::LoopStart))?;
            emit_condition(code, Some(*tag), targets, condition)?;
            emit_turns(code, Some(*tag), targets, body)?;
            emit_otherwise(code, Some(*tag), other, above)?;
            Ok(())
        }
        SlotStmt::Capture {
            escaping,
            slot,
            body,
        } => emit_capture(code, *escaping, *slot, body, above),
        SlotStmt::Run(routine, row) => {
            emit_row(code, None, row, above)?;
            code.put(None, call_of(*routine))?;
            Ok(())
        }
    }
}

/// Emits the branches of an `if` and its `else` part.
#[cycle(statements)]
fn emit_branches(
    code: &mut Emitter,
    branches: &[SlotBranch<SlotStmt>],
    other: &[SlotStmt],
    above: usize,
) -> Result<(), AllocError>
    ensures { EmitsAt above code.old (λ texts. choice_view texts branches.now
        (body_view texts other.now)) result code.new }
{
    let mut ends = Vec::new(*code.places.allocator());
    for SlotBranch {
        place: tag,
        condition,
        body,
    } in branches {
        emit_expression(code, Some(*tag), condition, above)?;
        let choice = code.begin_choice()?;
        emit_statements(code, body, above)?;
        let last = code.end_branch(choice)?;
        ends.push(last)?;
    }
    emit_statements(code, other, above)?;
    close_all(code, &ends);
    Ok(())
}

/// Emits the turns of the loop on top.
#[cycle(statements)]
fn emit_turns(
    code: &mut Emitter,
    tag: Option<Place>,
    targets: &Targets,
    body: &[SlotStmt],
) -> Result<(), AllocError>
    ensures { PutsFor code.old (λ templates. each (turn_asm (tag_view templates tag)
        (targets_view targets.now) (body_asm (body_view templates body.now slots.end) 0)))
        result code.new }
{
    let top = code.begin_turns()?;
    emit_item(code, tag, targets)?;
    emit_statements(code, body, 0)?;
    code.end_turns(top)?;
    Ok(())
}

/// Emits the end of a loop and its `else` part.
#[cycle(statements)]
fn emit_otherwise(
    code: &mut Emitter,
    tag: Option<Place>,
    other: &[SlotStmt],
    above: usize,
) -> Result<(), AllocError>
    ensures { PutsAt above code.old (λ templates h. both (one (tag_view templates tag) op.LoopEnd)
        (when (body_asm (body_view templates other.now slots.end) h))) result code.new }
{
    code.put(tag, Some(Instruction::LoopEnd))?;
    let choice = code.begin_choice()?;
    emit_statements(code, other, above)?;
    code.end_when(choice);
    Ok(())
}

/// Emits a capture, which stores the text of its body in the slot.
#[cycle(statements)]
fn emit_capture(
    code: &mut Emitter,
    escaping: bool,
    slot: Slot,
    body: &[SlotStmt],
    above: usize,
) -> Result<(), AllocError>
    ensures { PutsAt above code.old (λ templates h. stmt_asm (slots.capture escaping
        (slot_view slot) (body_view templates body.now slots.end)) h) result code.new }
{
    let captured = flag(escaping);
    code.put(None, Some(Instruction::CaptureBegin))?;
    emit_statements(code, body, above.saturating_add(1))?;
    code.put(None, Some(Instruction::CaptureEnd { flag: captured }))?;
    code.put(None, store_of(slot))?;
    Ok(())
}

/// Emits statements; `above` entries lie above the innermost loop.
#[cycle(statements)]
fn emit_statements(code: &mut Emitter, body: &[SlotStmt], above: usize) -> Result<(), AllocError>
    ensures { EmitsAt above code.old (λ texts. body_view texts body.now) result code.new }
{
    for statement in body {
        emit_statement(code, statement, above)?;
    }
    Ok(())
}
