//! Appends instructions: their names and operands.
ghost use Rattle.std.specs.Prelude.{◌≡◌, ◌++◌, OnOk, codes, option_map, slice_get, string_bytes};
ghost use Rattle.std.specs.Fmt.{decimal};
ghost use Rattle.jt_image.specs.Readers.{constant_ref_view};
ghost use Rattle.jt_ids.specs.LoopTable.{field_of};
ghost use Rattle.jt_image.specs.Ids.{filter_of, test_of};
ghost use Rattle.jt_show.specs.Quoted.{quoted};
ghost use Rattle.jt_show.specs.Words.{constant_text, field_word, filter_word, test_word};
ghost use Rattle.jt_show.specs.Instructions.{instruction_name, instruction_text, label};
ghost use Rattle.jt_show.specs.Instructions.{number_text, operands, worded};
ghost use Rattle.jt_show.specs.internal.SlotNames.{AreNames, named_at};

use crate::quoting::put_quoted;
use crate::words::{capture_word, emit_word, field_word, filter_word, operator_word, test_word};
use jt_image::{Code, ConstantRef, Instruction};
use std::alloc::AllocError;
use std::fmt::Write;

/// Appends an instruction.
pub(crate) fn put_instruction<C: Code>(
    code: &C,
    slots: &[Option<&str>],
    instruction: Instruction,
    out: &mut String,
) -> Result<(), AllocError>
    requires { AreNames (C.code code.now) slots.now }
    ensures { OnOk result (string_bytes out.new
        ≡ string_bytes out.old ++ instruction_text (C.code code.now) instruction) }
{
    out.push_str(name_of(instruction))?;
    put_operands(code, slots, instruction, out)
}

/// Returns the name of an instruction.
fn name_of(instruction: Instruction) -> &'static str
    ensures { result.now ≡ instruction_name instruction }
{
    match instruction {
        Instruction::Const { .. } => "Const",
        Instruction::Load { .. } => "Load",
        Instruction::Store { .. } => "Store",
        Instruction::GLoad { .. } => "GLoad",
        Instruction::GStore { .. } => "GStore",
        Instruction::Drop => "Drop",
        Instruction::Dup => "Dup",
        Instruction::Emit { .. } => "Emit",
        Instruction::Data { .. } => "Data",
        Instruction::Jump { .. } => "Jump",
        Instruction::JumpIfFalse { .. } => "JumpIfFalse",
        Instruction::JumpIfTrue { .. } => "JumpIfTrue",
        Instruction::Op { .. } => "Op",
        Instruction::Filter { .. } => "Filter",
        Instruction::Test { .. } => "Test",
        Instruction::MakeList { .. } => "MakeList",
        Instruction::MakeMap { .. } => "MakeMap",
        Instruction::LoopStart => "LoopStart",
        Instruction::LoopNext { .. } => "LoopNext",
        Instruction::LoopGet { .. } => "LoopGet",
        Instruction::LoopKeep { .. } => "LoopKeep",
        Instruction::LoopRewind => "LoopRewind",
        Instruction::LoopEnd => "LoopEnd",
        Instruction::CaptureBegin => "CaptureBegin",
        Instruction::CaptureEnd { .. } => "CaptureEnd",
        Instruction::Unpack { .. } => "Unpack",
        Instruction::Call { .. } => "Call",
        Instruction::Return => "Return",
    }
}

/// Appends the operands of an instruction.
fn put_operands<C: Code>(
    code: &C,
    slots: &[Option<&str>],
    instruction: Instruction,
    out: &mut String,
) -> Result<(), AllocError>
    requires { AreNames (C.code code.now) slots.now }
    ensures { OnOk result (string_bytes out.new
        ≡ string_bytes out.old ++ operands (C.code code.now) instruction) }
{
    match instruction {
        Instruction::Const { constant } => put_constant_of(code, constant, out),
        Instruction::Load { local } => put_number(local, out),
        Instruction::Store { local } => put_number(local, out),
        Instruction::GLoad { global } => put_global(slots, global, out),
        Instruction::GStore { global } => put_global(slots, global, out),
        Instruction::Drop => Ok(()),
        Instruction::Dup => Ok(()),
        Instruction::Emit { flag } => put_worded(flag, emit_word(flag), out),
        Instruction::Data { constant } => put_constant_of(code, constant, out),
        Instruction::Jump { target } => put_target(target, out),
        Instruction::JumpIfFalse { target } => put_target(target, out),
        Instruction::JumpIfTrue { target } => put_target(target, out),
        Instruction::Op { operator } => put_worded(operator, operator_word(operator), out),
        Instruction::Filter {
            filter,
            values,
            flag,
        } => put_filter(filter, values, flag, out),
        Instruction::Test { test, values } => put_test(test, values, out),
        Instruction::MakeList { items } => put_number(items, out),
        Instruction::MakeMap { entries } => put_number(entries, out),
        Instruction::LoopStart => Ok(()),
        Instruction::LoopNext { target } => put_target(target, out),
        Instruction::LoopGet { field, above } => put_field(field, above, out),
        Instruction::LoopKeep { above } => put_number(above, out),
        Instruction::LoopRewind => Ok(()),
        Instruction::LoopEnd => Ok(()),
        Instruction::CaptureBegin => Ok(()),
        Instruction::CaptureEnd { flag } => put_worded(flag, capture_word(flag), out),
        Instruction::Unpack { values } => put_number(values, out),
        Instruction::Call { unit } => put_number(unit, out),
        Instruction::Return => Ok(()),
    }
}

/// Appends a number.
fn put_number(number: u32, out: &mut String) -> Result<(), AllocError>
    ensures { OnOk result (string_bytes out.new ≡ string_bytes out.old ++ number_text number) }
{
    write!(out, " {number}")
}

/// Appends a number, and in parentheses its word if it has one.
pub(crate) fn put_worded(number: u8, word: Option<&str>, out: &mut String) -> Result<(), AllocError>
    ensures { OnOk result (string_bytes out.new
        ≡ string_bytes out.old ++ worded number (option_map (λ w. w.now) word.entry)) }
{
    match word {
        Some(word) => write!(out, " {number} ({word})"),
        None => write!(out, " {number}"),
    }
}

/// Appends the label of a point.
fn put_target(point: u32, out: &mut String) -> Result<(), AllocError>
    ensures { OnOk result (string_bytes out.new
        ≡ string_bytes out.old ++ (codes " " ++ label point)) }
{
    write!(out, " L{point}")
}

/// Appends the operands of Filter.
fn put_filter(filter: u8, values: u16, flag: u32, out: &mut String) -> Result<(), AllocError>
    ensures { OnOk result (string_bytes out.new
        ≡ string_bytes out.old ++ (worded filter (option_map filter_word (filter_of filter))
        ++ (codes ", values " ++ (decimal values ++ (codes ", escaping " ++ decimal flag))))) }
{
    put_worded(filter, filter_word(filter), out)?;
    write!(out, ", values {values}, escaping {flag}")
}

/// Appends the operands of Test.
fn put_test(test: u8, values: u16, out: &mut String) -> Result<(), AllocError>
    ensures { OnOk result (string_bytes out.new
        ≡ string_bytes out.old ++ (worded test (option_map test_word (test_of test))
        ++ (codes ", values " ++ decimal values))) }
{
    put_worded(test, test_word(test), out)?;
    write!(out, ", values {values}")
}

/// Appends the operands of LoopGet.
fn put_field(field: u8, above: u32, out: &mut String) -> Result<(), AllocError>
    ensures { OnOk result (string_bytes out.new
        ≡ string_bytes out.old ++ (worded field (option_map field_word (field_of field))
        ++ (codes ", above " ++ decimal above))) }
{
    put_worded(field, field_word(field), out)?;
    write!(out, ", above {above}")
}

/// Appends the slot of a global, and in parentheses its name if it has one.
fn put_global(slots: &[Option<&str>], global: u32, out: &mut String) -> Result<(), AllocError>
    ensures { OnOk result (string_bytes out.new ≡ string_bytes out.old
        ++ worded global (option_map quoted (named_at slots.now global))) }
{
    put_number(global, out)?;
    match name_at(slots, global as usize) {
        Some(name) => put_name_of(name, out),
        None => Ok(()),
    }
}

/// Returns the name of a slot in a table.
fn name_at<'a>(slots: &[Option<&'a str>], slot: usize) -> Option<&'a str>
    ensures { option_map (λ name. name.now) result ≡ named_at slots.now slot }
{
    match slots.get(slot) {
        Some(name) => *name,
        None => None,
    }
}

/// Appends a name in parentheses.
fn put_name_of(name: &str, out: &mut String) -> Result<(), AllocError>
    ensures { OnOk result (string_bytes out.new
        ≡ string_bytes out.old ++ (codes " (" ++ (quoted name.now ++ codes ")"))) }
{
    out.push_str(" (")?;
    put_quoted(name, out)?;
    out.push_str(")")
}

/// Appends the place of a constant, and in parentheses the constant if it exists.
fn put_constant_of<C: Code>(code: &C, constant: u32, out: &mut String) -> Result<(), AllocError>
    ensures { OnOk result (string_bytes out.new ≡ string_bytes out.old
        ++ worded constant (option_map constant_text
        (slice_get (C.code code.now).constants constant))) }
{
    put_number(constant, out)?;
    match code.constant(constant as usize) {
        Some(found) => put_in_parentheses(found, out),
        None => Ok(()),
    }
}

/// Appends a constant in parentheses.
fn put_in_parentheses(constant: ConstantRef<'_>, out: &mut String) -> Result<(), AllocError>
    ensures { OnOk result (string_bytes out.new ≡ string_bytes out.old
        ++ (codes " (" ++ (constant_text (constant_ref_view constant.entry) ++ codes ")"))) }
{
    out.push_str(" (")?;
    put_constant(constant, out)?;
    out.push_str(")")
}

/// Appends a constant.
pub(crate) fn put_constant(constant: ConstantRef<'_>, out: &mut String) -> Result<(), AllocError>
    ensures { OnOk result (string_bytes out.new
        ≡ string_bytes out.old ++ constant_text (constant_ref_view constant.entry)) }
{
    match constant {
        ConstantRef::Undefined => out.push_str("undefined"),
        ConstantRef::None => out.push_str("none"),
        ConstantRef::Bool(true) => out.push_str("true"),
        ConstantRef::Bool(false) => out.push_str("false"),
        ConstantRef::Int(number) => write!(out, "{number}"),
        ConstantRef::Text(text) => put_quoted(text, out),
        ConstantRef::Markup(text) => put_markup(text, out),
    }
}

/// Appends a markup.
fn put_markup(text: &str, out: &mut String) -> Result<(), AllocError>
    ensures { OnOk result (string_bytes out.new
        ≡ string_bytes out.old ++ (codes "markup " ++ quoted text.now)) }
{
    out.push_str("markup ")?;
    put_quoted(text, out)
}
