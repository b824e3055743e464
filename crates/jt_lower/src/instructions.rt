//! Builds instructions. A function returns `None` if an operand does not fit its field.

ghost use Rattle.std.specs.Prelude.{◌≡◌, ◌≤◌, ◌^◌, MatchOption, ℕ};
ghost use Rattle.jt_ids.specs.LoopTable.{field_id};
ghost use Rattle.jt_image.specs.declared.instruction.Instruction.TheVariants as op;
ghost use Rattle.jt_ir.specs.View.{slot_view, nary_op_view};
ghost use Rattle.jt_lower.specs.Lower.{nary_op, flag, load_of, store_of};
ghost use Rattle.jt_lower.specs.Emission.{Given, StandsFor};

use jt_ids::{LoopField, OpId};
use jt_image::Instruction;
use jt_ir::{NaryOp, Slot};

/// Returns a number as a field.
fn field(number: usize) -> Option<u32>
    ensures { MatchOption result (2 ^ 32 ≤ number) (λ n. n ≡ number) }
{
    u32::try_from(number).ok()
}

/// Returns the instruction that pushes a constant.
pub(crate) fn constant_of(place: usize) -> Option<Instruction>
    ensures { Given result (op.Const place) }
{
    field(place).map(|constant| Instruction::Const { constant })
}

/// Returns the instruction that appends a text constant to the innermost buffer.
pub fn data_of(place: usize) -> Option<Instruction>
    ensures { Given result (op.Data place) }
{
    field(place).map(|constant| Instruction::Data { constant })
}

/// Returns the instruction that pushes the value of a slot.
pub(crate) fn load_of(slot: Slot) -> Option<Instruction>
    ensures { Given result (load_of (slot_view slot)) }
{
    match slot {
        Slot::Local(place) => field(place).map(|local| Instruction::Load { local }),
        Slot::Global(place) => field(place).map(|global| Instruction::GLoad { global }),
    }
}

/// Returns the instruction that pops a value into a slot.
pub fn store_of(slot: Slot) -> Option<Instruction>
    ensures { Given result (store_of (slot_view slot)) }
{
    match slot {
        Slot::Local(place) => field(place).map(|local| Instruction::Store { local }),
        Slot::Global(place) => field(place).map(|global| Instruction::GStore { global }),
    }
}

/// Returns the instruction that calls a routine.
pub fn call_of(routine: usize) -> Option<Instruction>
    ensures { Given result (op.Call routine) }
{
    field(routine).map(|unit| Instruction::Call { unit })
}

/// Returns the instruction that pops a value and pushes its `count` items.
pub fn unpack_of(count: usize) -> Option<Instruction>
    ensures { Given result (op.Unpack count) }
{
    field(count).map(|values| Instruction::Unpack { values })
}

/// Returns the instruction that jumps to a point.
pub(crate) fn jump_of(point: usize) -> Option<Instruction>
    ensures { Given result (op.Jump point) }
{
    field(point).map(|target| Instruction::Jump { target })
}

/// Returns the instruction that pops a value and jumps to a point if it is false.
pub(crate) fn test_of(point: usize) -> Option<Instruction>
    ensures { Given result (op.JumpIfFalse point) }
{
    field(point).map(|target| Instruction::JumpIfFalse { target })
}

/// Returns the instruction that takes the next item of a loop, or jumps to a point if no item is
/// left.
pub(crate) fn turn_of(point: usize) -> Option<Instruction>
    ensures { Given result (op.LoopNext point) }
{
    field(point).map(|target| Instruction::LoopNext { target })
}

/// Returns the instruction that pushes a field of the loop below `above` entries.
pub(crate) fn loop_get_of(loop_field: LoopField, above: usize) -> Option<Instruction>
    ensures { (h : ℕ) → StandsFor above h → Given result (op.LoopGet (field_id loop_field) h) }
{
    let above = field(above)?;
    Some(Instruction::LoopGet {
        field: loop_field.id(),
        above,
    })
}

/// Returns the flag of an output or a capture: 1 if escaping is on, else 0.
pub fn flag(escaping: bool) -> u8
    ensures { result ≡ flag escaping }
{
    if escaping { 1 } else { 0 }
}

/// Returns the instruction that makes one value of `count` values. For a required value it is an
/// operator that fails for undefined.
#[tactic(auto, using(crate::proofs::RowCode::halved))]
pub(crate) fn made_of(made: NaryOp, count: usize) -> Option<Instruction>
    ensures { Given result (nary_op (nary_op_view made) count) }
{
    match made {
        NaryOp::Operator(operator) => Some(Instruction::Op {
            operator: operator.id(),
        }),
        NaryOp::Test(test) => Some(Instruction::Test {
            test: test.id(),
            values: u16::try_from(count).ok()?,
        }),
        NaryOp::Filter { filter, escaping } => Some(Instruction::Filter {
            filter: filter.id(),
            values: u16::try_from(count).ok()?,
            flag: u32::from(flag(escaping)),
        }),
        NaryOp::List => field(count).map(|items| Instruction::MakeList { items }),
        NaryOp::Map => field(count / 2).map(|entries| Instruction::MakeMap { entries }),
        NaryOp::Required => Some(Instruction::Op {
            operator: OpId::Negate.id(),
        }),
    }
}
