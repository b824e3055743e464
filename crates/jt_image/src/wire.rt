//! Encodes instructions, by the one table of opcodes.
ghost use Rattle.std.specs.Prelude.{◌≡◌, ◌≢◌, MatchBool, MatchOption, IfSome, None, Some};
ghost use Rattle.std.specs.Option.{IsSome};
ghost use Rattle.jt_image.specs.Spelling.{wire_of};
ghost use Rattle.jt_image.specs.IsCode.{IsInstruction};
ghost use Rattle.jt_image.specs.Reading.{instruction_of};

use crate::instruction::Instruction;

/// The four fields of an encoded instruction. A field that the instruction does not use is 0.
#[derive(Clone, Copy, PartialEq, Eq)]
pub struct Instr {
    /// The opcode.
    pub op: u8,
    /// The id of an operator, filter, test or loop field, or a flag.
    pub a: u8,
    /// A count of values.
    pub b: u16,
    /// An index, a target or a count.
    pub c: u32,
}

fn plain(op: u8) -> Instr
    ensures { result ≡ record { op = op; a = 0; b = 0; c = 0 } }
{
    Instr {
        op,
        a: 0,
        b: 0,
        c: 0,
    }
}

fn with_c(op: u8, c: u32) -> Instr
    ensures { result ≡ record { op = op; a = 0; b = 0; c = c } }
{
    Instr { op, a: 0, b: 0, c }
}

fn with_a(op: u8, a: u8) -> Instr
    ensures { result ≡ record { op = op; a = a; b = 0; c = 0 } }
{
    Instr { op, a, b: 0, c: 0 }
}

fn with_ac(op: u8, a: u8, c: u32) -> Instr
    ensures { result ≡ record { op = op; a = a; b = 0; c = c } }
{
    Instr { op, a, b: 0, c }
}

fn with_ab(op: u8, a: u8, b: u16) -> Instr
    ensures { result ≡ record { op = op; a = a; b = b; c = 0 } }
{
    Instr { op, a, b, c: 0 }
}

impl Instruction {
    /// Returns the fields of the instruction.
    pub fn wire(self) -> Instr
        ensures { result ≡ wire_of self }
    {
        match self {
            Instruction::Const { constant } => with_c(1, constant),
            Instruction::Load { local } => with_c(2, local),
            Instruction::Store { local } => with_c(3, local),
            Instruction::GLoad { global } => with_c(4, global),
            Instruction::GStore { global } => with_c(5, global),
            Instruction::Drop => plain(6),
            Instruction::Dup => plain(7),
            Instruction::Emit { flag } => with_a(8, flag),
            Instruction::Data { constant } => with_c(9, constant),
            Instruction::Jump { target } => with_c(10, target),
            Instruction::JumpIfFalse { target } => with_c(11, target),
            Instruction::JumpIfTrue { target } => with_c(12, target),
            Instruction::Op { operator } => with_a(13, operator),
            Instruction::Filter {
                filter,
                values,
                flag,
            } => Instr {
                op: 14,
                a: filter,
                b: values,
                c: flag,
            },
            Instruction::Test { test, values } => with_ab(15, test, values),
            Instruction::MakeList { items } => with_c(16, items),
            Instruction::MakeMap { entries } => with_c(17, entries),
            Instruction::LoopStart => plain(18),
            Instruction::LoopNext { target } => with_c(19, target),
            Instruction::LoopGet { field, above } => with_ac(20, field, above),
            Instruction::LoopKeep { above } => with_c(21, above),
            Instruction::LoopRewind => plain(22),
            Instruction::LoopEnd => plain(23),
            Instruction::CaptureBegin => plain(24),
            Instruction::CaptureEnd { flag } => with_a(25, flag),
            Instruction::Unpack { values } => with_c(26, values),
            Instruction::Call { unit } => with_c(27, unit),
            Instruction::Return => plain(28),
        }
    }
}

impl Instr {
    /// Returns whether the opcode is known and each field that it does not use is 0.
    #[tactic(auto, unfolding(crate::specs::Reading::instruction_of))]
    fn is_instruction(self) -> bool
        ensures { MatchBool result (IsSome (instruction_of self)) (instruction_of self ≡ None) }
    {
        let (a, b, c) = (self.a == 0, self.b == 0, self.c == 0);
        match self.op {
            1..=5 | 9..=12 | 16 | 17 | 19 | 21 | 26 | 27 => a && b,
            6 | 7 | 18 | 22 | 23 | 24 | 28 => a && b && c,
            8 | 13 | 25 => b && c,
            14 => true,
            15 => c,
            20 => b,
            _ => false,
        }
    }

    fn by_opcode(self) -> Option<Instruction>
        ensures { result ≡ instruction_of self }
    {
        if self.is_instruction() {
            Some(self.known())
        } else {
            None
        }
    }

    /// Returns the instruction with the fields, which must exist.
    #[tactic(auto, unfolding(crate::specs::Reading::instruction_of))]
    pub(crate) fn known(self) -> Instruction
        requires { IsSome (instruction_of self) }
        ensures { instruction_of self ≡ Some result }
    {
        let (a, b, c) = (self.a, self.b, self.c);
        match self.op {
            1 => Instruction::Const { constant: c },
            2 => Instruction::Load { local: c },
            3 => Instruction::Store { local: c },
            4 => Instruction::GLoad { global: c },
            5 => Instruction::GStore { global: c },
            6 => Instruction::Drop,
            7 => Instruction::Dup,
            8 => Instruction::Emit { flag: a },
            9 => Instruction::Data { constant: c },
            10 => Instruction::Jump { target: c },
            11 => Instruction::JumpIfFalse { target: c },
            12 => Instruction::JumpIfTrue { target: c },
            13 => Instruction::Op { operator: a },
            14 => Instruction::Filter {
                filter: a,
                values: b,
                flag: c,
            },
            15 => Instruction::Test { test: a, values: b },
            16 => Instruction::MakeList { items: c },
            17 => Instruction::MakeMap { entries: c },
            18 => Instruction::LoopStart,
            19 => Instruction::LoopNext { target: c },
            20 => Instruction::LoopGet { field: a, above: c },
            21 => Instruction::LoopKeep { above: c },
            22 => Instruction::LoopRewind,
            23 => Instruction::LoopEnd,
            24 => Instruction::CaptureBegin,
            25 => Instruction::CaptureEnd { flag: a },
            26 => Instruction::Unpack { values: c },
            27 => Instruction::Call { unit: c },
            28 => Instruction::Return,
            _ => unreachable!(),
        }
    }

    /// Returns the instruction with the fields, or `None` if the opcode is unknown or a field that
    /// it does not use is not 0.
    pub fn instruction(self) -> Option<Instruction>
        // The result is the one that the table of opcodes has.
        ensures table { result ≡ instruction_of self }
        // The result is the one instruction with the fields, and `None` only if no instruction has
        // them.
        ensures exact { MatchOption result ((i : Instruction) → wire_of i ≢ self)
            (λ i. wire_of i ≡ self) }
        // The fields of the instruction fit the fields of the encoding.
        ensures fits { IfSome result (λ i. IsInstruction i) }
    {
        self.by_opcode()
    }
}
