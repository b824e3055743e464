//! Emits the code that stores a value into targets, and the start of a turn of a loop.

ghost use Rattle.std.specs.Prelude.{None};
ghost use Rattle.jt_image.specs.declared.instruction.Instruction.TheVariants as op;
ghost use Rattle.jt_ir.specs.View.{targets_view};
ghost use Rattle.jt_lower.specs.Asm.{both, one};
ghost use Rattle.jt_lower.specs.Lower.{take_asm, stores_asm};
ghost use Rattle.jt_lower.specs.Emission.{tag_view, PutsFor};
ghost use Rattle.jt_codegen.specs.internal.Statements.{slots_view};

use jt_image::{Instruction, LoopField};
use jt_ir::{Place, Slot, Targets};
use jt_lower::{Emitter, store_of, unpack_of};
use std::alloc::AllocError;

/// Emits code that pops a value and stores it into targets.
pub(crate) fn emit_targets(
    code: &mut Emitter,
    tag: Option<Place>,
    targets: &Targets,
) -> Result<(), AllocError>
    ensures { PutsFor code.old (λ templates.
        take_asm (tag_view templates tag) (targets_view targets.now)) result code.new }
{
    match targets {
        Targets::One(slot) => {
            code.put(tag, store_of(*slot))?;
            Ok(())
        }
        Targets::Several(slots) => {
            code.put(tag, unpack_of(slots.len()))?;
            emit_stores(code, tag, slots)?;
            Ok(())
        }
    }
}

/// Emits code that pops values and stores them into slots, the last value first. A value without a
/// slot is dropped.
fn emit_stores(
    code: &mut Emitter,
    tag: Option<Place>,
    slots: &[Option<Slot>],
) -> Result<(), AllocError>
    ensures { PutsFor code.old (λ templates.
        stores_asm (tag_view templates tag) (slots_view slots.now)) result code.new }
{
    for at in (0..slots.len()).rev() {
        match slots[at] {
            Some(slot) => code.put(tag, store_of(slot))?,
            None => code.put(tag, Some(Instruction::Drop))?,
        }
    }
    Ok(())
}

/// Emits the start of a turn, which stores the current item into the targets.
pub(crate) fn emit_item(
    code: &mut Emitter,
    tag: Option<Place>,
    targets: &Targets,
) -> Result<(), AllocError>
    ensures { PutsFor code.old (λ templates. both (one (tag_view templates tag) (op.LoopGet 0 0))
        (take_asm (tag_view templates tag) (targets_view targets.now))) result code.new }
{
    let item = Instruction::LoopGet {
        field: LoopField::Item.id(),
        above: 0,
    };
    code.put(tag, Some(item))?;
    emit_targets(code, tag, targets)?;
    Ok(())
}
