//! Builds the code of a unit, with jumps that are patched when their target is known.

ghost use Rattle.std.specs.Prelude.{◌≤◌, length};

use crate::instructions::{jump_of, test_of, turn_of};
use jt_image::{Instr, Instruction};
use jt_ir::Place;
use std::alloc::{AllocError, Global};

/// The number of instructions for which there is room in a unit at first.
const USUAL_INSTRUCTIONS: usize = 32;

/// The code of a unit under construction.
#[derive(Drop)]
pub struct Emitter {
    /// The instructions, by their fields.
    pub code: Vec<Instr>,
    /// The place of the tag of each instruction; `None` for a jump and for an instruction outside
    /// tags.
    pub places: Vec<Option<Place>>,
    /// The greatest number of instructions.
    pub limit: usize,
    /// The flag that the limit was exceeded or an operand did not fit its field. If it is set, the
    /// code has no meaning.
    pub overflowed: bool,
    pub ghost within: { length code.items ≤ limit },
}

impl Emitter {
    ghost use Rattle.std.specs.Prelude.{◌≡◌, false, List, [], IfOk, OnOk};
    ghost use Rattle.jt_image.specs.declared.instruction.Instruction.TheVariants as op;
    ghost use Rattle.jt_ast.specs.Expressions.{Text};
    ghost use Rattle.jt_lower.specs.Asm.{one};
    ghost use Rattle.jt_lower.specs.Emission.{Given, tag_view, Puts, Reserves, Patches, Ends};
    ghost use Rattle.jt_lower.specs.Emission.{EndsTurns};

    /// Returns an emitter without instructions that takes at most `limit` of them.
    ///
    /// # Errors
    ///
    /// `AllocError` if a growth is refused.
    pub fn new(alloc: Global, limit: usize) -> Result<Emitter, AllocError>
        ensures empty { IfOk result (λ e. e.code.items ≡ []) }
        ensures nowhere { IfOk result (λ e. e.places.items ≡ []) }
        ensures limited { IfOk result (λ e. e.limit ≡ limit) }
        ensures whole { IfOk result (λ e. e.overflowed ≡ false) }
    {
        Ok(Emitter {
            code: Vec::with_capacity(alloc, USUAL_INSTRUCTIONS)?,
            places: Vec::with_capacity(alloc, USUAL_INSTRUCTIONS)?,
            limit,
            overflowed: false,
        })
    }

    /// Appends an instruction of a tag. `None` represents an instruction with an operand that does
    /// not fit its field; it sets `overflowed`.
    ///
    /// # Errors
    ///
    /// `AllocError` if a growth is refused.
    pub fn put(
        &mut self,
        tag: Option<Place>,
        instruction: Option<Instruction>,
    ) -> Result<(), AllocError>
        ensures { OnOk result ((templates : List Text) (i : Instruction)
            → Given instruction i
            → Puts templates self.old (one (tag_view templates tag) i) self.new) }
    {
        match instruction {
            Some(known) => self.push(tag, known)?,
            None => self.overflowed = true,
        }
        Ok(())
    }

    /// Appends an instruction of a tag, or sets `overflowed` if the limit is reached.
    fn push(&mut self, tag: Option<Place>, instruction: Instruction) -> Result<(), AllocError>
        ensures { OnOk result ((templates : List Text)
            → Puts templates self.old (one (tag_view templates tag) instruction) self.new) }
    {
        if self.code.len() < self.limit {
            self.code.push(instruction.wire())?;
            self.places.push(tag)?;
        } else {
            self.overflowed = true;
        }
        Ok(())
    }

    /// Appends a jump whose target is patched later, and returns its point.
    fn reserve(&mut self, jump: Instruction) -> Result<usize, AllocError>
        ensures { IfOk result (λ point. Reserves self.old jump point self.new) }
    {
        let point = self.code.len();
        self.push(None, jump)?;
        Ok(point)
    }

    /// Replaces the instruction at `point`, if it exists. `None` sets `overflowed`, as in `put`.
    fn patch(&mut self, point: usize, instruction: Option<Instruction>)
        ensures { (i : Instruction) → Given instruction i → Patches self.old point i self.new }
    {
        match instruction {
            Some(known) => self.replace(point, known),
            None => self.overflowed = true,
        }
    }

    /// Replaces the instruction at `point`, if it exists.
    fn replace(&mut self, point: usize, instruction: Instruction)
        ensures { Patches self.old point instruction self.new }
    {
        if point < self.code.len() {
            self.code[point] = instruction.wire();
        }
    }

    /// Appends a test that jumps over the code for a true value, and returns its point. Its target
    /// is patched later.
    ///
    /// # Errors
    ///
    /// `AllocError` if a growth is refused.
    pub fn begin_choice(&mut self) -> Result<usize, AllocError>
        ensures { IfOk result (λ choice. Reserves self.old (op.JumpIfFalse 0) choice self.new) }
    {
        let choice = self.reserve(Instruction::JumpIfFalse { target: 0 })?;
        Ok(choice)
    }

    /// Appends the jump out of a branch and returns its point. Patches the test at `choice` to go
    /// to the point after this jump.
    ///
    /// # Errors
    ///
    /// `AllocError` if a growth is refused.
    pub fn end_branch(&mut self, choice: usize) -> Result<usize, AllocError>
        ensures { IfOk result (λ last. Ends self.old choice last self.new) }
    {
        let last = self.reserve(Instruction::Jump { target: 0 })?;
        let past = test_of(self.code.len());
        self.patch(choice, past);
        Ok(last)
    }

    /// Patches the jump at `last` to go to the end of the code.
    pub fn close(&mut self, last: usize)
        ensures { Patches self.old last (op.Jump (length self.old.code.items)) self.new }
    {
        let past = jump_of(self.code.len());
        self.patch(last, past);
    }

    /// Patches the test at `choice` to go to the end of the code. A false value has no code of its
    /// own.
    pub fn end_when(&mut self, choice: usize)
        ensures { Patches self.old choice (op.JumpIfFalse (length self.old.code.items)) self.new }
    {
        let past = test_of(self.code.len());
        self.patch(choice, past);
    }

    /// Appends the test for another turn of a loop, and returns its point. Its target is patched
    /// later.
    ///
    /// # Errors
    ///
    /// `AllocError` if a growth is refused.
    pub fn begin_turns(&mut self) -> Result<usize, AllocError>
        ensures { IfOk result (λ top. Reserves self.old (op.LoopNext 0) top self.new) }
    {
        let top = self.reserve(Instruction::LoopNext { target: 0 })?;
        Ok(top)
    }

    /// Appends the jump back to the test at `top`, and patches the test to go to the end of the
    /// code.
    ///
    /// # Errors
    ///
    /// `AllocError` if a growth is refused.
    pub fn end_turns(&mut self, top: usize) -> Result<(), AllocError>
        ensures { OnOk result (EndsTurns self.old top self.new) }
    {
        self.put(None, jump_of(top))?;
        let past = turn_of(self.code.len());
        self.patch(top, past);
        Ok(())
    }
}
