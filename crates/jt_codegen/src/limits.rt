//! Checks the limits of an image that a program shows before its code is emitted.

ghost use Rattle.std.specs.Prelude.{◌≤◌, ◌↔◌, IfErr, IsTrue, OnOk};
ghost use Rattle.std.specs.List.{AllByRecursion};
ghost use Rattle.jt_image.specs.IsCode.{max_locals};
ghost use Rattle.jt_image.specs.Parts.{FitTexts};
ghost use Rattle.jt_image.specs.View.{texts_view};
ghost use Rattle.jt_ir.specs.View.{program_of};
ghost use Rattle.jt_codegen.specs.Passed.{RefusesImage};
ghost use Rattle.jt_codegen.specs.Units.{max_parameters, FitsTables};

use crate::emission::EmitError;
use crate::finding::Limit;
use jt_image::MAX_COUNT;
use jt_ir::{Program, Routine};

/// The greatest number of parameters of a unit.
const MAX_PARAMETERS: usize = 255;

/// The greatest number of locals of a unit.
const MAX_LOCALS: usize = 4_096;

/// Returns whether no name has more bytes than an image allows.
fn names_fit(names: &[String]) -> bool
    ensures { IsTrue result ↔ FitTexts (texts_view names.now) }
{
    names.iter().all(|name| name.len() <= MAX_COUNT)
}

/// Returns whether no routine has more parameters than a unit may have.
fn parameters_fit(routines: &[Routine]) -> bool
    ensures { IsTrue result ↔ AllByRecursion (λ r. r.parameters ≤ max_parameters) routines.now }
{
    routines
        .iter()
        .all(|routine| routine.parameters <= MAX_PARAMETERS)
}

/// Returns whether no routine has more locals than a unit may have.
fn locals_fit(routines: &[Routine]) -> bool
    ensures { IsTrue result ↔ AllByRecursion (λ r. r.locals ≤ max_locals) routines.now }
{
    routines.iter().all(|routine| routine.locals <= MAX_LOCALS)
}

/// Checks the limits of the tables of a program's image, and of the numbers of its units.
///
/// # Errors
///
/// `Limit` if there are too many globals or units, bytes of a name, or parameters or locals of a
/// unit.
pub(crate) fn check_tables(program: &Program) -> Result<(), EmitError>
    ensures kept { OnOk result (FitsTables (program_of program.now)) }
    ensures refused { IfErr result (λ e. RefusesImage e (program_of program.now)) }
{
    if program.globals > MAX_COUNT {
        return Err(EmitError::Limit(Limit::Globals));
    }
    if program.routines.len() > MAX_COUNT {
        return Err(EmitError::Limit(Limit::Units));
    }
    if !names_fit(&program.names) {
        return Err(EmitError::Limit(Limit::NameBytes));
    }
    if !parameters_fit(&program.routines) {
        return Err(EmitError::Limit(Limit::Parameters));
    }
    if !locals_fit(&program.routines) {
        return Err(EmitError::Limit(Limit::Locals));
    }
    Ok(())
}
