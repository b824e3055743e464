//! Builds the parts of an image: the tables of names and constants, the code, and the place table.

ghost use Rattle.std.specs.Prelude.{◌≡◌, ◌≤◌, List, length, map, string_bytes, Some, IfOk, IfErr};
ghost use Rattle.jt_image.specs.IsCode.{total_len, max_count, max_instructions, max_locals};
ghost use Rattle.jt_image.specs.Parts.{each_of, section_of_unit, code_of_parts};
ghost use Rattle.jt_image.specs.View.{names_view};
ghost use Rattle.jt_ast.specs.Expressions.{Text};
ghost use Rattle.jt_ir.specs.View.{routine_view, program_of};
ghost use Rattle.std.specs.List.{flat_map, AllByRecursion};
ghost use Rattle.jt_lower.specs.Lower.{numbered, routine_places, compiled};
ghost use Rattle.jt_lower.specs.Fits.{ProgramFits};
ghost use Rattle.jt_lower.specs.Emission.{places_view};
ghost use Rattle.jt_codegen.specs.Passed.{RefusesImage};
ghost use Rattle.jt_codegen.specs.Units.{routine_units, max_parameters, FitsCounts, HasFewValues};
ghost use Rattle.jt_codegen.specs.Units.{RefusesUnits};
ghost use Rattle.jt_codegen.specs.declared.emission.EmitError.TheVariants.{NoMemory};

use crate::emission::{EmitError, emit_unit};
use crate::finding::Limit;
use crate::limits::check_tables;
use crate::places::place_table;
use jt_constants::{constant_table, move_constants};
use jt_image::{MAX_COUNT, MAX_INSTRUCTIONS, Parts, Unit, Version};
use jt_ir::{Place, Program, Routine};
use jt_lower::low_laws;
use std::alloc::Global;

/// Returns the parts of the image of a program.
///
/// # Errors
///
/// `Limit` if the image would pass a limit. That of bytes is not checked here.
/// `NoMemory` if a growth is refused.
pub(crate) fn parts_of(alloc: Global, program: &Program) -> Result<Parts, EmitError>
    requires fits { ProgramFits (program_of program.now) }
    requires few { HasFewValues (program_of program.now) }
    ensures emitted { IfOk result
        (λ p. code_of_parts p ≡ Some (compiled (program_of program.now))) }
    // The code is within the limit of instructions; a longer code is refused before it is built.
    ensures short { IfOk result
        (λ p. total_len (compiled (program_of program.now)).units ≤ max_instructions) }
    ensures kept { IfOk result (λ _. FitsCounts (compiled (program_of program.now))) }
    ensures refused { IfErr result (λ e. RefusesImage e (program_of program.now)) }
{
    low_laws();
    check_tables(program)?;
    let table = constant_table(alloc, &program.pool)?;
    if table.constants.len() > MAX_COUNT {
        return Err(EmitError::Limit(Limit::Constants));
    }
    let mut code = units_of(alloc, &program.routines)?;
    move_constants(&mut code.units, &table.indices);
    let named = place_table(alloc, &program.templates, &code.places)?;
    Ok(Parts {
        version: Version::Two,
        globals: program.globals as u16,
        names: names_of(alloc, &program.names)?,
        constants: table.constants,
        units: code.units,
        templates: named.templates,
        places: named.places,
    })
}

/// The units, and for each of their instructions the place of its tag, if it has one.
#[derive(Drop)]
struct Units {
    units: Vec<Unit>,
    places: Vec<Option<Place>>,
}

/// Emits the units of routines. All units together have at most `MAX_INSTRUCTIONS` instructions.
fn units_of(alloc: Global, routines: &[Routine]) -> Result<Units, EmitError>
    requires parameters { AllByRecursion (λ r. r.parameters ≤ max_parameters) routines.now }
    requires locals { AllByRecursion (λ r. r.locals ≤ max_locals) routines.now }
    ensures emitted { IfOk result (λ us. (templates : List Text)
        → each_of section_of_unit us.units.items ≡ Some (routine_units templates routines.now)) }
    ensures placed { IfOk result (λ us. (templates : List Text)
        → places_view templates us.places.items
        ≡ flat_map routine_places (map (routine_view templates) routines.now)) }
    ensures short { IfOk result (λ us. (templates : List Text)
        → total_len (routine_units templates routines.now) ≤ max_instructions) }
    ensures refused { IfErr result
        (λ e. (templates : List Text) → RefusesUnits e (routine_units templates routines.now)) }
{
    let mut units = Vec::with_capacity(alloc, routines.len())?;
    let mut places = Vec::new(alloc);
    let mut left = MAX_INSTRUCTIONS as usize;
    for routine in routines {
        let mut emitted = emit_unit(alloc, routine, left)?;
        let made = emitted.unit.code.len();
        left -= made;
        units.push(emitted.unit)?;
        places.append(&mut emitted.places)?;
    }
    Ok(Units { units, places })
}

/// Returns copies of names with their slots, counted from 0.
fn names_of(alloc: Global, names: &[String]) -> Result<Vec<(u16, String)>, EmitError>
    requires { length names.now ≤ max_count }
    ensures named { IfOk result
        (λ ns. names_view ns.items ≡ numbered 0 (map string_bytes names.now)) }
    ensures refused { IfErr result (λ e. e ≡ NoMemory) }
{
    let mut numbered = Vec::with_capacity(alloc, names.len())?;
    let mut slot: u16 = 0;
    for name in names {
        let copy = String::from_str(alloc, name)?;
        numbered.push((slot, copy))?;
        slot += 1;
    }
    Ok(numbered)
}
