//! Appends the tables of a code: globals with their names, and constants.
ghost use Rattle.std.specs.Prelude.{◌≡◌, ◌++◌, OnOk, flat_map, string_bytes};
ghost use Rattle.jt_image.specs.Readers.{constant_ref_view};
ghost use Rattle.jt_show.specs.Listing.{constant_line, constants_text, globals_text, name_line};
ghost use Rattle.jt_show.specs.Listing.{numbered, version_line};

use crate::instructions::put_constant;
use crate::quoting::put_quoted;
use jt_image::{Code, ConstantRef, Version};
use std::alloc::AllocError;
use std::fmt::Write;

/// Returns the line of a version.
pub(crate) fn version_line(version: Version) -> &'static str
    ensures { result.now ≡ version_line version }
{
    match version {
        Version::One => "version 1\n",
        Version::Two => "version 2\n",
    }
}

/// Appends the number of globals, and the names.
pub(crate) fn put_globals<C: Code>(code: &C, out: &mut String) -> Result<(), AllocError>
    ensures { OnOk result (string_bytes out.new
        ≡ string_bytes out.old ++ globals_text (C.code code.now)) }
{
    let count = code.globals();
    writeln!(out, "globals {count}")?;
    put_names(code, out)
}

/// Appends the lines of the names.
fn put_names<C: Code>(code: &C, out: &mut String) -> Result<(), AllocError>
    ensures { OnOk result (string_bytes out.new
        ≡ string_bytes out.old ++ flat_map name_line (C.code code.now).names) }
{
    'names: for index in 0..code.names() {
        let Some((slot, name)) = code.name(index) else {
            unreachable!()
        };
        put_name(slot, name, out)?;
    }
    Ok(())
}

/// Appends the line of a name.
fn put_name(slot: u16, name: &str, out: &mut String) -> Result<(), AllocError>
    ensures { OnOk result (string_bytes out.new
        ≡ string_bytes out.old ++ name_line (record { slot = slot; text = name.now })) }
{
    write!(out, "  {slot}\t")?;
    put_quoted(name, out)?;
    out.push_str("\n")
}

/// Appends the number of constants, and their lines.
pub(crate) fn put_constants<C: Code>(code: &C, out: &mut String) -> Result<(), AllocError>
    ensures { OnOk result (string_bytes out.new
        ≡ string_bytes out.old ++ constants_text (C.code code.now)) }
{
    let count = code.constants();
    writeln!(out, "constants {count}")?;
    put_all_constants(code, out)
}

/// Appends the lines of the constants.
fn put_all_constants<C: Code>(code: &C, out: &mut String) -> Result<(), AllocError>
    ensures { OnOk result (string_bytes out.new
        ≡ string_bytes out.old ++ numbered constant_line 0 (C.code code.now).constants) }
{
    'constants: for index in 0..code.constants() {
        let Some(constant) = code.constant(index) else {
            unreachable!()
        };
        put_constant_line(index, constant, out)?;
    }
    Ok(())
}

/// Appends the line of a constant.
fn put_constant_line(
    index: usize,
    constant: ConstantRef<'_>,
    out: &mut String,
) -> Result<(), AllocError>
    ensures { OnOk result (string_bytes out.new
        ≡ string_bytes out.old ++ constant_line index (constant_ref_view constant.entry)) }
{
    write!(out, "  {index}\t")?;
    put_constant(constant, out)?;
    out.push_str("\n")
}
