//! Assembles parts into images.
ghost use Rattle.std.specs.Prelude.{◌≡◌, ◌<◌, ◌≤◌, ◌↔◌, option_map, IsTrue, IfOk, IfErr};
ghost use Rattle.std.specs.Prelude.{MatchResult, Some, None, false};
ghost use Rattle.std.specs.List.{AllByRecursion};
ghost use Rattle.jt_image.specs.Code.{Code};
ghost use Rattle.jt_image.specs.View.{name_view, names_view, unit_view, units_view, texts_view};
ghost use Rattle.jt_image.specs.View.{loc_view, locs_view, IsKnownUnit};
ghost use Rattle.jt_image.specs.IsCode.{IsSourceLoc, IsCode};
ghost use Rattle.jt_image.specs.Reading.{last_text, last_name, IsTable};
ghost use Rattle.jt_image.specs.Parts.{each_of, is_next, section_of_unit, code_of_parts, code_seen};
ghost use Rattle.jt_image.specs.Parts.{AreKnown, AreInOrder, IsUnitInOrder, AreTemplates};
ghost use Rattle.jt_image.specs.Parts.{IsRefusal, IsWritable, Starts, HasPlaces, HasTrailer};
ghost use Rattle.jt_image.specs.Parts.{FitNames, FitTexts, FitLocals, KeepsLimits, IsShort};
ghost use Rattle.jt_image.specs.internal.Layout.{FitCounts, FitTables, IsLaidOut};
ghost use Rattle.jt_image.specs.declared.error.ImageError.TheVariants.{NoMemory};

use crate::error::ImageError;
use crate::fields::follows;
use crate::image::Image;
use crate::layout::laid_out;
use crate::limits::{MAX_COUNT, MAX_LOCALS};
use crate::offsets::Offsets;
use crate::parts::{Parts, SourceLoc, Unit};
use crate::spelling::spelled;
use crate::trailer::is_line;
use crate::version::Version;
use std::alloc::{AllocError, Global};

// Returns whether each instruction of the unit has a known opcode, and 0 in each unused field.
fn is_known(unit: &Unit) -> bool
    ensures known { IsTrue result ↔ IsKnownUnit unit.now }
    ensures fits { IsTrue result → IsWritable (unit_view unit.now) }
{
    'code: for instr in &unit.code {
        if instr.instruction().is_none() {
            return false;
        }
    }
    true
}

// Returns whether each instruction of each unit has a known opcode, and 0 in each unused field. The
// units are then the units of a code.
fn are_known(units: &[Unit]) -> bool
    ensures known { IsTrue result → AreKnown units.now }
    ensures fits { IsTrue result → AllByRecursion IsWritable (units_view units.now) }
    ensures seen { IsTrue result → each_of section_of_unit units.now ≡ Some (units_view units.now) }
    ensures unknown { result ≡ false → each_of section_of_unit units.now ≡ None }
{
    units.iter().all(|unit| is_known(unit))
}

fn texts_fit(names: &[(u16, String)]) -> bool
    ensures { IsTrue result ↔ FitNames (names_view names.now) }
{
    names.iter().all(|name| name.1.len() <= MAX_COUNT)
}

fn templates_fit(templates: &[String]) -> bool
    ensures { IsTrue result ↔ FitTexts (texts_view templates.now) }
{
    templates.iter().all(|template| template.len() <= MAX_COUNT)
}

fn locals_fit(units: &[Unit]) -> bool
    ensures { IsTrue result ↔ FitLocals (units_view units.now) }
{
    units.iter().all(|unit| unit.locals <= MAX_LOCALS)
}

fn counts_fit(parts: &Parts) -> bool
    ensures { IsTrue result ↔ FitCounts (code_seen parts.now) }
{
    parts.names.len() <= MAX_COUNT
        && parts.constants.len() <= MAX_COUNT
        && parts.units.len() <= MAX_COUNT
        && parts.templates.len() <= MAX_COUNT
}

// Returns whether the tables, the texts and the numbers of locals fit their fields.
#[tactic(auto, using(crate::proofs::AssembleCorrect::limits_fit))]
fn fields_fit(parts: &Parts) -> bool
    ensures fits { IsTrue result ↔ FitTables (code_seen parts.now) }
    ensures broken { result ≡ false → ¬ (KeepsLimits (code_seen parts.now)) }
{
    counts_fit(parts)
        && texts_fit(&parts.names)
        && templates_fit(&parts.templates)
        && locals_fit(&parts.units)
}

fn starts(units: &[Unit]) -> bool
    ensures { IsTrue result ↔ Starts (units_view units.now) }
{
    match units {
        [] => false,
        [first, ..] => first.kind == 0 && first.parameters == 0,
    }
}

fn units_are_in_order(units: &[Unit]) -> bool
    ensures { IsTrue result ↔ AllByRecursion IsUnitInOrder (units_view units.now) }
{
    units.iter().all(|unit| unit.kind <= 1 && u16::from(unit.parameters) <= unit.locals)
}

fn last_text(texts: &[String]) -> Option<&str>
    ensures { option_map (λ t. t.now) result ≡ last_text (texts_view texts.now) }
{
    match texts {
        [] => None,
        [.., last] => Some(last.as_str()),
    }
}

fn templates_are_in_order(templates: &[String]) -> bool
    ensures { IsTrue result ↔ AreTemplates (texts_view templates.now) }
{
    'templates: for (index, template) in templates.iter().enumerate() {
        if !follows(last_text(&templates[..index]), template.as_str()) {
            return false;
        }
    }
    true
}

fn is_loc(templates: usize, loc: SourceLoc) -> bool
    ensures { IsTrue result ↔ IsSourceLoc templates (loc_view loc) }
{
    usize::from(loc.template) <= templates && is_line(loc.template, loc.line)
}

fn locs_are_in_order(templates: usize, locs: &[SourceLoc]) -> bool
    ensures { IsTrue result ↔ AllByRecursion (IsSourceLoc templates) (locs_view locs.now) }
{
    locs.iter().all(|loc| is_loc(templates, *loc))
}

// Returns whether the version permits the templates and the number of places.
fn are_placed(parts: &Parts, instructions: u32) -> bool
    ensures { IsTrue result ↔ HasPlaces instructions (code_seen parts.now) }
{
    match parts.version {
        Version::One => parts.templates.is_empty() && parts.places.is_empty(),
        Version::Two => parts.places.len() == instructions as usize,
    }
}

fn places_are_in_order(parts: &Parts, instructions: u32) -> bool
    ensures { IsTrue result ↔ HasTrailer instructions (code_seen parts.now) }
{
    templates_are_in_order(&parts.templates)
        && locs_are_in_order(parts.templates.len(), &parts.places)
        && are_placed(parts, instructions)
}

fn last_name(names: &[(u16, String)]) -> Option<&str>
    ensures { option_map (λ t. t.now) result ≡ last_name (names_view names.now) }
{
    match names {
        [] => None,
        [.., last] => Some(last.1.as_str()),
    }
}

// Returns whether a name may follow the names before it: its slot exists and has no name yet, and
// its text is in order.
fn is_next(globals: u16, used: &[bool], before: &[(u16, String)], name: &(u16, String)) -> bool
    requires { IsTable used.now globals (names_view before.now) }
    ensures { result ≡ is_next globals (names_view before.now) (name_view name.now) }
{
    let slot = name.0;
    slot < globals && !used[usize::from(slot)] && follows(last_name(before), name.1.as_str())
}

fn names_are_in_order(
    alloc: Global,
    globals: u16,
    names: &[(u16, String)],
) -> Result<bool, AllocError>
    requires { AllByRecursion IsShort (names_view names.now) }
    ensures { IfOk result (λ b. IsTrue b ↔ AreInOrder globals (names_view names.now)) }
{
    let mut used = vec![in alloc; false; usize::from(globals)]?;
    'names: for (index, name) in names.iter().enumerate() {
        if !is_next(globals, &used, &names[..index], name) {
            return Ok(false);
        }
        used[usize::from(name.0)] = true;
    }
    Ok(true)
}

// Returns the offsets of the parts in their spelling, and its length, if the parts are a code.
fn checked(alloc: Global, parts: &Parts) -> Result<(Offsets, usize), ImageError>
    ensures known { IfOk result (λ _. AreKnown parts.now.units.items) }
    ensures seen { IfOk result (λ _. code_of_parts parts.now ≡ Some (code_seen parts.now)) }
    ensures spelled { IfOk result (λ _. IsCode (code_seen parts.now)) }
    ensures laid { IfOk result (λ x. IsLaidOut (code_seen parts.now) x.0) }
    ensures refused { IfErr result (λ e. IsRefusal e (code_of_parts parts.now)) }
{
    if !are_known(&parts.units) {
        return Err(ImageError::BadOpcode);
    }
    if !fields_fit(parts) {
        return Err(ImageError::LimitPassed);
    }
    let (offsets, len) = laid_out(alloc, parts)?;
    let named = names_are_in_order(alloc, parts.globals, &parts.names)?;
    if !(named && starts(&parts.units) && units_are_in_order(&parts.units)) {
        return Err(ImageError::BadTable);
    }
    if !places_are_in_order(parts, offsets.instructions) {
        return Err(ImageError::BadTable);
    }
    Ok((offsets, len))
}

// Returns the image of the parts.
fn image_of(alloc: Global, parts: &Parts) -> Result<Image, ImageError>
    ensures is { IfOk result (λ i. IsCode i × (code_of_parts parts.now ≡ Some i)) }
    ensures refused { IfErr result (λ e. IsRefusal e (code_of_parts parts.now)) }
{
    let (offsets, len) = checked(alloc, parts)?;
    let bytes = spelled(alloc, parts, len)?;
    let image = Image { bytes, offsets };
    Ok(image)
}

/// Assembles an image from its parts.
///
/// # Errors
///
/// The parts are returned with the reason:
///
/// * `BadOpcode` if an opcode is unknown, or an unused field is not 0.
/// * `BadTable` if a table is not in order.
/// * `LimitPassed` if a table, a text or the image is too long.
/// * `NoMemory` if a growth is refused.
pub fn assemble(alloc: Global, parts: Parts) -> Result<Image, (Parts, ImageError)>
    // The image is the code of the parts.
    ensures ok { IfOk result (λ i. IsCode i × (code_of_parts parts ≡ Some i)) }
    // A code with a spelling is refused only for lack of memory.
    ensures only { (code : Code)
        → code_of_parts parts ≡ Some code
        → IsCode code
        → MatchResult result (λ i. i ≡ code) (λ e. e.1 ≡ NoMemory) }
    // The parts are returned unchanged.
    ensures back { IfErr result (λ e. e.0 ≡ parts) }
    // The reason holds of the code of the parts.
    ensures named { IfErr result (λ e. IsRefusal e.1 (code_of_parts parts)) }
{
    match image_of(alloc, &parts) {
        Ok(image) => Ok(image),
        Err(error) => Err((parts, error)),
    }
}
