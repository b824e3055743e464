//! Verifies a code: follows each path through a unit, and keeps the shape of each reached point.
ghost use Rattle.std.specs.Prelude.{◌≡◌, ◌<◌, ◌≤◌, ◌++◌, [], length, IfOk, IfErr, OnOk};
ghost use Rattle.jt_image.specs.IsCode.{IsCode};
ghost use Rattle.jt_image.specs.Typed.{IsTyped, max_entries};
ghost use Rattle.jt_verify.specs.Arena.{shape_in, IsIn, IsKept};
ghost use Rattle.jt_verify.specs.Working.{IsUnit, WorksOn, IsTypedAt, WorksFrom};
ghost use Rattle.jt_verify.specs.Working.{StepsOn, IsBehind, path_in, unit_of};
ghost use Rattle.jt_verify.specs.Working.{handles_sent, left_of, left_from, Refuses};
ghost use Rattle.jt_verify.specs.Working.{HaltsWith, FindsSame, AreInside, found_in};
ghost use Rattle.jt_verify.specs.Findings.{FoundHolds};
ghost use Rattle.jt_verify.specs.Refusing.{RefusalHolds};
ghost use Rattle.jt_verify.specs.Search.{refuses, unit_found};

use crate::arena::Arena;
use crate::effect::{EffectError, InstrContext, Successors};
use crate::halt::{Halt, Refused};
use crate::nodes::ShapeId;
use crate::refusal::Refusal;
use crate::shape_comparison::is_known_at;
use crate::shapes::UnitShapes;
use jt_image::{Code, Flaw, UnitHeader};
use jt_value::NoMemory;
use std::alloc::{AllocError, Global};

/// A shape that waits at a point to be followed.
#[derive(Clone, Copy)]
pub(crate) struct WorkItem {
    pub(crate) point: usize,
    pub(crate) shape: ShapeId,
}

/// The state of a unit's verification: its shapes, the shape of each point that has one, and the
/// worklist of the paths to follow.
#[derive(Drop)]
pub(crate) struct Dataflow {
    pub(crate) arena: Arena,
    pub(crate) shapes: Vec<Option<ShapeId>>,
    pub(crate) worklist: Vec<WorkItem>,
}

/// The state after an instruction: a shape, and the points that it reaches.
#[derive(Clone, Copy)]
pub(crate) struct OutState {
    pub(crate) shape: ShapeId,
    pub(crate) leads: Successors,
}

// Returns the shape after the instruction at a point, and the points that it reaches.
fn step<C: Code>(
    arena: &mut Arena,
    code: &C,
    unit: usize,
    header: &UnitHeader,
    path: WorkItem,
) -> Result<OutState, Halt>
    requires unit { IsUnit (C.code code.now) unit header.now }
    requires point { path.point < header.now.instructions }
    requires shape { IsIn arena.old path.shape }
    requires small { length (shape_in arena.old path.shape) ≤ max_entries }
    ensures steps { StepsOn arena.new (C.code code.now) unit (path_in arena.old path) result }
    ensures behind { IfOk result (IsBehind arena.new header.now.instructions) }
    ensures kept { IsKept arena.old arena.new }
{
    let point = path.point;
    let Some(instruction) = code.instruction(unit, point) else {
        unreachable!()
    };
    let at = InstrContext {
        arena,
        header,
        point,
        shape: path.shape,
    };
    let found = match at.effect(code, instruction) {
        Ok(found) => found,
        Err(EffectError::Flaw(flaw)) => return Err(refused(point, flaw)),
        Err(EffectError::TooTall(point)) => return Err(refused(point, Flaw::TooDeep)),
    };
    let leads = found.leads;
    let shape = match found.mark {
        None => found.shape,
        Some(mark) => arena.push(found.shape, mark)?,
    };
    Ok(OutState { shape, leads })
}

// Returns the refusal for a flaw of an instruction.
fn refused(point: usize, flaw: Flaw) -> Halt
    ensures { result ≡ Halt.Refused (record { point = point; flaw = flaw; other = None }) }
{
    Halt::Refused(Refused {
        point,
        flaw,
        other: None,
    })
}

// Pushes a shape to the worklist for each successor. The next point comes last, so it is followed
// first.
fn push_successors(
    worklist: &mut Vec<WorkItem>,
    leads: Successors,
    shape: ShapeId,
) -> Result<(), AllocError>
    ensures { OnOk result (worklist.new.items ≡ worklist.old.items ++ handles_sent leads shape) }
{
    if let Some(point) = leads.target {
        worklist.push(WorkItem { point, shape })?;
    }
    if let Some(point) = leads.next {
        worklist.push(WorkItem { point, shape })?;
    }
    Ok(())
}

// Follows a path over one instruction, if its point is new.
fn follow<C: Code>(
    work: &mut Dataflow,
    code: &C,
    unit: usize,
    header: &UnitHeader,
    path: WorkItem,
) -> Result<(), Halt>
    requires unit { IsUnit (C.code code.now) unit header.now }
    requires works { WorksFrom (C.code code.now) unit work.old path }
    ensures ok { OnOk result (WorksOn (C.code code.now) unit work.new work.new.worklist.items) }
    ensures less { OnOk result
        (left_of work.new work.new.worklist.items < left_from work.old path) }
    ensures err { IfErr result (HaltsWith (C.code code.now) unit work.new) }
    ensures same { FindsSame (C.code code.now) unit work.old path work.new result }
{
    let is_known = is_known_at(&work.arena, &work.shapes, path)?;
    if is_known {
        return Ok(());
    }
    work.shapes[path.point] = Some(path.shape);
    let after = step(&mut work.arena, code, unit, header, path)?;
    push_successors(&mut work.worklist, after.leads, after.shape)?;
    Ok(())
}

// Returns what is found in a unit when the search ends.
fn found(work: Dataflow, refused: Option<Refused>) -> UnitShapes
    requires { AreInside work.arena work.shapes.items refused }
    ensures { result ≡ found_in work.arena work.shapes.items refused }
{
    let Dataflow { arena, shapes, .. } = work;
    UnitShapes {
        arena,
        shapes,
        refused,
    }
}

// Returns what is found in a unit without instructions.
fn found_in_empty(alloc: Global) -> Result<UnitShapes, NoMemory>
    ensures { IfOk result (λ f. f ≡ refuses [] 0 Flaw.FallsOff None) }
{
    Ok(UnitShapes {
        arena: Arena::new(alloc)?,
        shapes: Vec::new(alloc),
        refused: Some(Refused {
            point: 0,
            flaw: Flaw::FallsOff,
            other: None,
        }),
    })
}

/// Follows all paths of a unit, up to the first that is refused.
pub(crate) fn explore<C: Code>(
    alloc: Global,
    code: &C,
    unit: usize,
    header: &UnitHeader,
) -> Result<UnitShapes, NoMemory>
    requires unit { IsUnit (C.code code.now) unit header.now }
    ensures found { IfOk result
        (λ f. f ≡ unit_found (C.code code.now) (unit_of (C.code code.now) unit)) }
    ensures holds { IfOk result
        (FoundHolds (C.code code.now) (unit_of (C.code code.now) unit)) }
{
    if header.instructions == 0 {
        return found_in_empty(alloc);
    }
    let mut work = Dataflow {
        arena: Arena::new(alloc)?,
        shapes: vec![in alloc; None; header.instructions]?,
        worklist: Vec::new(alloc),
    };
    work.worklist.push(WorkItem {
        point: 0,
        shape: ShapeId { values: 0, node: 0 },
    })?;
    'worklist: while let Some(path) = work.worklist.pop() {
        match follow(&mut work, code, unit, header, path) {
            Ok(()) => {}
            Err(Halt::Refused(refused)) => return Ok(found(work, Some(refused))),
            Err(Halt::NoMemory) => return Err(NoMemory),
        }
    }
    Ok(found(work, None))
}

// Follows all paths of a unit.
fn verify_unit<C: Code>(
    alloc: Global,
    code: &C,
    unit: usize,
    header: &UnitHeader,
) -> Result<(), Refusal>
    requires unit { IsUnit (C.code code.now) unit header.now }
    ensures ok { OnOk result (IsTypedAt (C.code code.now) unit) }
    ensures err { IfErr result (Refuses (C.code code.now) unit) }
{
    let found = explore(alloc, code, unit, header)?;
    match found.refusal() {
        None => Ok(()),
        Some((point, flaw)) => Err(Refusal::Flaw { flaw, unit, point }),
    }
}

/// Accepts a code exactly if it is in order. Verifies every unit from the first on, called or not.
pub(crate) fn verify_code<C: Code>(alloc: Global, code: &C) -> Result<(), Refusal>
    // An accepted code is typed.
    ensures ok { OnOk result (IsTyped (C.code code.now)) }
    // A refusal holds of the code.
    ensures err { IfErr result (λ r. RefusalHolds (C.code code.now) r) }
    // A typed code is refused only for lack of memory.
    ensures exact { IfErr result (λ r. IsTyped (C.code code.now) → r ≡ Refusal.NoMemory) }
    ensures whole { IsCode (C.code code.now) }
{
    'units: for unit in 0..code.units() {
        let Some(header) = code.unit(unit) else {
            unreachable!()
        };
        verify_unit(alloc, code, unit, &header)?;
    }
    Ok(())
}
