//! Appends shapes: the kinds of the entries before an instruction.
ghost use Rattle.std.specs.Prelude.{◌≡◌, ◌++◌, OnOk, codes, length, string_bytes};
ghost use Rattle.jt_show.specs.Shapes as shapes;
ghost use Rattle.jt_show.specs.Shapes.{entries_text, line_end, most_marks, rest_text};
ghost use Rattle.jt_show.specs.Shapes.{shape_text, values_text};

use jt_image::Kind;
use jt_verify::ShapeRef;
use std::alloc::AllocError;
use std::fmt::Write;

/// The most loops and captures of a shape that are shown.
const MOST_MARKS: u32 = 8;

/// Appends the end of an instruction's line: its shape, if it is known.
pub(crate) fn put_line_end(shape: Option<ShapeRef<'_>>, out: &mut String) -> Result<(), AllocError>
    ensures { OnOk result (string_bytes out.new ≡ string_bytes out.old ++ line_end shape.entry) }
{
    if let Some(shape) = shape {
        out.push_str("\t")?;
        put_shape(&shape, out)?;
    }
    out.push_str("\n")
}

/// Appends a shape.
#[tactic(auto, unfolding(crate::specs::Shapes::shape_text))]
pub(crate) fn put_shape(shape: &ShapeRef<'_>, out: &mut String) -> Result<(), AllocError>
    ensures { OnOk result (string_bytes out.new ≡ string_bytes out.old ++ shape_text shape.now) }
{
    out.push_str("[")?;
    put_entries(shape, MOST_MARKS, out)?;
    out.push_str(" ]")
}

/// Appends the entries of a shape, with at most `most` loops and captures.
fn put_entries(shape: &ShapeRef<'_>, most: u32, out: &mut String) -> Result<(), AllocError>
    ensures { OnOk result (string_bytes out.new
        ≡ string_bytes out.old ++ entries_text most shape.now) }
{
    if most == 0 {
        return put_rest(shape.len(), out);
    }
    let Some((kind, below)) = shape.mark() else {
        return put_values(shape.values(), out);
    };
    put_entries(&below, most - 1, out)?;
    out.push_str(entry_word(kind))?;
    put_values(shape.values(), out)
}

/// Appends the number of the entries that are not shown, if there are any.
fn put_rest(count: usize, out: &mut String) -> Result<(), AllocError>
    ensures { OnOk result (string_bytes out.new ≡ string_bytes out.old ++ rest_text count) }
{
    if count == 0 {
        return Ok(());
    }
    write!(out, " {count} more")
}

/// Appends values that lie one above the other.
fn put_values(count: u32, out: &mut String) -> Result<(), AllocError>
    ensures { OnOk result (string_bytes out.new ≡ string_bytes out.old ++ values_text count) }
{
    match count {
        0 => Ok(()),
        1 => out.push_str(" V"),
        _ => write!(out, " V{count}"),
    }
}

/// Returns the word of a kind of entries.
pub(crate) fn entry_word(kind: Kind) -> &'static str
    ensures { result.now ≡ shapes.entry_word kind }
{
    match kind {
        Kind::Value => " V",
        Kind::Frame => " L",
        Kind::Capture => " C",
    }
}
