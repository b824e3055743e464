//! Finds the points to which jumps lead.
ghost use Rattle.std.specs.Prelude.{◌≡◌, ◌<◌, ℕ, IfOk, false, length, slice_index_or};
ghost use Rattle.std.specs.Prelude.{slice_set, true};
ghost use Rattle.jt_show.specs.Listing.{is_target};
ghost use Rattle.jt_show.specs.Listing as listing;

use jt_image::{Instruction, UnitCode};
use std::alloc::{AllocError, Global};

/// Returns for each of the `count` points of a unit whether some instruction may jump there.
pub(crate) fn jump_targets(
    alloc: Global,
    code: &UnitCode<'_>,
    count: usize,
) -> Result<Vec<bool>, AllocError>
    requires { length code.now ≡ count }
    ensures len { IfOk result (λ v. length v.items ≡ count) }
    ensures each { IfOk result (λ v. (point : ℕ) → point < count
        → slice_index_or v.items point false ≡ is_target code.now point) }
{
    let mut found = vec![in alloc; false; count]?;
    'points: for point in 0..count {
        let Some(instruction) = code.get(point) else {
            unreachable!()
        };
        if let Some(target) = target_of(instruction) {
            mark(&mut found, target);
        }
    }
    Ok(found)
}

/// Sets the mark of a point, if the point exists.
fn mark(found: &mut Vec<bool>, point: u32)
    ensures { found.new.items ≡ slice_set found.old.items point true }
{
    let point = point as usize;
    if point < found.len() {
        found[point] = true;
    }
}

/// Returns the point to which an instruction may jump.
fn target_of(instruction: Instruction) -> Option<u32>
    ensures { result ≡ listing.target_of instruction }
{
    match instruction {
        Instruction::Jump { target } => Some(target),
        Instruction::JumpIfFalse { target } => Some(target),
        Instruction::JumpIfTrue { target } => Some(target),
        Instruction::LoopNext { target } => Some(target),
        _ => None,
    }
}
