//! Reads the instructions of a unit in place.
ghost use Rattle.std.specs.Prelude.{◌≡◌, ◌≤◌, length, slice_get};
ghost use Rattle.jt_image.specs.InPlace.{instructions_in, fields_in};

use crate::instruction::Instruction;
use crate::wire::Instr;
use std::marker::Model;

/// The number of bytes of an instruction.
const INSTRUCTION_BYTES: usize = 8;

/// The instructions of a unit, which are read in place on demand. It borrows the bytes that spell
/// them.
#[derive(Drop)]
pub struct UnitCode<'a> {
    pub(crate) code: &'a [u8],
    pub(crate) len: u32,
}

impl<'a> Model for UnitCode<'a> {
    ghost use Rattle.std.specs.Prelude.{◌≡◌, List, length};
    ghost use Rattle.jt_image.specs.declared.instruction.Instruction.{Instruction};

    ghost Value = { List Instruction };

    ghost use Rattle.jt_image.specs.InPlace.{instructions_in};

    ghost view = { λ s. instructions_in s.len s.code.now };

    ghost invariant = { λ s. length (instructions_in s.len s.code.now) ≡ s.len };
}

impl<'a> UnitCode<'a> {
    /// Returns the instruction at a point.
    #[inline(always)]
    pub fn get(&self, point: usize) -> Option<Instruction>
        ensures { result ≡ slice_get self.now point }
    {
        instruction_in(self.code, self.len, point)
    }
}

// Decodes the instruction at `point`, if `point` is below `len`.
#[inline(always)]
fn instruction_in(code: &[u8], len: u32, point: usize) -> Option<Instruction>
    requires { length (instructions_in len code.now) ≡ len }
    ensures { result ≡ slice_get (instructions_in len code.now) point }
{
    if point >= len as usize {
        return None;
    }
    let (_, front) = code.split_at(INSTRUCTION_BYTES * point);
    Some(fields_of(front).known())
}

fn fields_of(front: &[u8]) -> Instr
    requires { 8 ≤ length front.now }
    ensures { result ≡ fields_in front.now }
{
    Instr {
        op: front[0],
        a: front[1],
        b: u16::from_le_bytes([front[2], front[3]]),
        c: u32::from_le_bytes([front[4], front[5], front[6], front[7]]),
    }
}
