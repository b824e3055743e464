//! Moves instructions to the indices of constants in a table that has each constant once.

ghost use Rattle.std.specs.Prelude.{◌≡◌, List, Some, map};
ghost use Rattle.jt_image.specs.Code.{Section};
ghost use Rattle.jt_image.specs.declared.instruction.Instruction.{Instruction as SpecInstruction};
ghost use Rattle.jt_image.specs.Reading.{instruction_of};
ghost use Rattle.jt_image.specs.Parts.{each_of, section_of_unit};
ghost use Rattle.jt_constants.specs.Merged.{moved, with_indices, moved_unit};

use jt_image::{Instr, Unit};

/// The opcode of an instruction that pushes a constant.
const CONST: u8 = 1;

/// The opcode of an instruction that writes a constant.
const DATA: u8 = 9;

/// Replaces the index of a constant in each instruction of the units by its new index.
pub fn move_constants(units: &mut [Unit], indices: &[u32])
    ensures { (sections : List Section)
        → each_of section_of_unit units.old ≡ Some sections
        → each_of section_of_unit units.new ≡ Some (map (moved_unit indices.now) sections) }
{
    for at in 0..units.len() {
        move_unit(&mut units[at], indices);
    }
}

/// Replaces the index of a constant in each instruction of a unit by its new index.
fn move_unit(unit: &mut Unit, indices: &[u32])
    ensures { (u : Section)
        → section_of_unit unit.old ≡ Some u
        → section_of_unit unit.new ≡ Some (moved_unit indices.now u) }
{
    move_instructions(&mut unit.code, indices);
}

/// Replaces the index of a constant in each of the instructions by its new index.
fn move_instructions(code: &mut [Instr], indices: &[u32])
    ensures { (is : List SpecInstruction)
        → each_of instruction_of code.old ≡ Some is
        → each_of instruction_of code.new ≡ Some (map (with_indices indices.now) is) }
{
    for at in 0..code.len() {
        code[at] = moved_instruction(code[at], indices);
    }
}

/// Returns the instruction with the new index of the constant that it names, if it names one.
fn moved_instruction(instruction: Instr, indices: &[u32]) -> Instr
    ensures { (i : SpecInstruction)
        → instruction_of instruction ≡ Some i
        → instruction_of result ≡ Some (with_indices indices.now i) }
{
    let Instr { op, a, b, c } = instruction;
    if op == CONST || op == DATA {
        Instr {
            op,
            a,
            b,
            c: moved(c, indices),
        }
    } else {
        instruction
    }
}

/// Returns the new index for an index. An index outside `indices` stays.
fn moved(index: u32, indices: &[u32]) -> u32
    ensures { result ≡ moved indices.now index }
{
    match indices.get(index as usize) {
        Some(new) => *new,
        None => index,
    }
}
