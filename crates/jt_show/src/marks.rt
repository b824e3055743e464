//! Appends the mark at the point where the verifier refuses a unit.
ghost use Rattle.std.specs.Prelude.{◌≡◌, ◌++◌, OnOk, Some, codes, string_bytes};
ghost use Rattle.std.specs.Option.{option_and_then};
ghost use Rattle.jt_verify.specs.Entries.{values_on};
ghost use Rattle.jt_verify.specs.Search.{Refused, shape_at};
ghost use Rattle.jt_image.specs.Effect.{Shape};
ghost use Rattle.jt_show.specs.Listing.{found_or};
ghost use Rattle.jt_show.specs.Shapes.{shape_text};
ghost use Rattle.jt_show.specs.Marks as marks;
ghost use Rattle.jt_show.specs.Marks.{detail_text, kept_in, lack_text, mark_line, no_entry};
ghost use Rattle.jt_show.specs.Marks.{refusal_line};

use crate::shapes::{entry_word, put_shape};
use jt_image::{Flaw, Instruction, Kind};
use jt_verify::{ShapeRef, UnitShapes, flaw_name};
use std::alloc::AllocError;
use std::fmt::Write;

/// Appends the line of the refusal, if the point is the one of the refusal.
pub(crate) fn put_mark(
    found: &Option<UnitShapes>,
    point: usize,
    instruction: Option<Instruction>,
    out: &mut String,
) -> Result<(), AllocError>
    ensures { OnOk result (string_bytes out.new
        ≡ string_bytes out.old ++ mark_line (found_or found.now) point instruction) }
{
    let Some(found) = found else {
        return Ok(());
    };
    let Some((at, flaw)) = found.refusal() else {
        return Ok(());
    };
    if at != point {
        return Ok(());
    }
    put_refusal(found, flaw, point, instruction, out)
}

/// Appends the line of the refusal at a point.
fn put_refusal(
    found: &UnitShapes,
    flaw: Flaw,
    point: usize,
    instruction: Option<Instruction>,
    out: &mut String,
) -> Result<(), AllocError>
    ensures { (r : Refused) → found.now.refused ≡ Some r
        → r.flaw ≡ flaw
        → OnOk result (string_bytes out.new ≡ string_bytes out.old
        ++ refusal_line r instruction (shape_at found.now.shapes point)) }
{
    out.push_str("  refused ")?;
    out.push_str(flaw_name(&flaw))?;
    put_detail(found, flaw, point, instruction, out)?;
    out.push_str("\n")
}

/// Appends what a refusal is about: the other shape, or the entry that an instruction lacks.
fn put_detail(
    found: &UnitShapes,
    flaw: Flaw,
    point: usize,
    instruction: Option<Instruction>,
    out: &mut String,
) -> Result<(), AllocError>
    ensures { OnOk result (string_bytes out.new ≡ string_bytes out.old
        ++ detail_text (option_and_then (λ r. r.other) found.now.refused)
        (lack_text flaw instruction (shape_at found.now.shapes point))) }
{
    match found.other() {
        Some(other) => put_other(&other, out),
        None => put_lack(flaw, instruction, found.shape(point), out),
    }
}

/// Appends the other shape at the point of the refusal.
fn put_other(other: &ShapeRef<'_>, out: &mut String) -> Result<(), AllocError>
    ensures { OnOk result (string_bytes out.new ≡ string_bytes out.old
        ++ (codes ": a path brings " ++ shape_text other.now)) }
{
    out.push_str(": a path brings ")?;
    put_shape(other, out)
}

/// Appends for K1 and K2 the entry that an instruction lacks in a shape.
fn put_lack(
    flaw: Flaw,
    instruction: Option<Instruction>,
    shape: Option<ShapeRef<'_>>,
    out: &mut String,
) -> Result<(), AllocError>
    ensures { OnOk result (string_bytes out.new
        ≡ string_bytes out.old ++ lack_text flaw instruction shape.entry) }
{
    let Some(instruction) = instruction else {
        return Ok(());
    };
    let Some(shape) = shape else {
        return Ok(());
    };
    if !is_lack(flaw) {
        return Ok(());
    }
    put_no_entry(lacked(instruction, shape.values()), out)
}

/// Returns whether the flaw is that an instruction lacks an entry.
fn is_lack(flaw: Flaw) -> bool
    ensures { result ≡ marks.is_lack flaw }
{
    match flaw {
        Flaw::MissingOperand => true,
        Flaw::WrongKind => true,
        _ => false,
    }
}

/// Appends an entry that is missing.
fn put_no_entry(entry: (Kind, u64), out: &mut String) -> Result<(), AllocError>
    ensures { OnOk result (string_bytes out.new ≡ string_bytes out.old ++ no_entry entry) }
{
    let (kind, above) = entry;
    out.push_str(": no")?;
    out.push_str(entry_word(kind))?;
    write!(out, " below {above}")
}

/// Returns the entry that an instruction lacks in a shape with this number of values on top: its
/// kind, and the number of entries above it.
fn lacked(instruction: Instruction, values: u32) -> (Kind, u64)
    ensures { (s : Shape) → values_on s ≡ values → result ≡ marks.lacked instruction s }
{
    match instruction {
        Instruction::LoopNext { .. } => (Kind::Frame, 0),
        Instruction::LoopGet { above, .. } => (Kind::Frame, u64::from(above)),
        Instruction::LoopKeep { above } => kept_in(above, values),
        Instruction::LoopRewind => (Kind::Frame, 0),
        Instruction::LoopEnd => (Kind::Frame, 0),
        Instruction::CaptureEnd { .. } => (Kind::Capture, 0),
        _ => (Kind::Value, u64::from(values)),
    }
}

/// Returns the entry that LoopKeep lacks.
fn kept_in(above: u32, values: u32) -> (Kind, u64)
    ensures { result ≡ kept_in above values }
{
    if values == 0 {
        return (Kind::Value, 0);
    }
    (Kind::Frame, u64::from(above) + 1)
}
