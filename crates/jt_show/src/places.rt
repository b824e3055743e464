//! Appends the places of instructions where they change.
ghost use Rattle.std.specs.Prelude.{◌≡◌, ◌++◌, OnOk, option_map, string_bytes};
ghost use Rattle.jt_image.specs.Readers.{place_ref_view};
ghost use Rattle.jt_show.specs.Listing as listing;
ghost use Rattle.jt_show.specs.Listing.{place_line, place_text};

use crate::quoting::put_quoted;
use jt_image::PlaceRef;
use std::alloc::AllocError;
use std::fmt::Write;

/// Appends the line of a place, if it exists and is not the same as the place before.
pub(crate) fn put_place_line(
    before: Option<PlaceRef<'_>>,
    place: Option<PlaceRef<'_>>,
    out: &mut String,
) -> Result<(), AllocError>
    ensures { OnOk result (string_bytes out.new ≡ string_bytes out.old
        ++ place_line (option_map place_ref_view before.entry)
        (option_map place_ref_view place.entry)) }
{
    match place {
        Some(place) if !is_same(before, place) => put_place(place, out),
        _ => Ok(()),
    }
}

/// Returns whether the place before exists and is the same as another one.
fn is_same(before: Option<PlaceRef<'_>>, place: PlaceRef<'_>) -> bool
    ensures { result ≡ listing.is_same (option_map place_ref_view before.entry)
        (place_ref_view place.entry) }
{
    match before {
        Some(before) => before.line == place.line && before.template == place.template,
        None => false,
    }
}

/// Appends the line of a place.
fn put_place(place: PlaceRef<'_>, out: &mut String) -> Result<(), AllocError>
    ensures { OnOk result (string_bytes out.new
        ≡ string_bytes out.old ++ place_text (place_ref_view place.entry)) }
{
    out.push_str("  in ")?;
    put_quoted(place.template, out)?;
    let line = place.line;
    writeln!(out, " line {line}")
}
