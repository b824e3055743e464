//! Adds to a fault the place of its instruction.
ghost use Rattle.std.specs.Prelude.{◌≡◌, None, IfOk, OnErr, option_map};
ghost use Rattle.jt_image.specs.IsCode.{IsCode};
ghost use Rattle.jt_image.specs.Readers.{place_ref_view, place_there};
ghost use Rattle.jt_image.specs.Run.{Next, Ends, placed};
ghost use Rattle.jt_machine.specs.Growing.{HasPlace, IsFaultAt};
ghost use Rattle.jt_machine.specs.View.{outcome_view, place_view};

use crate::outcome::{Outcome, Place};
use jt_image::{Code, PlaceRef};
use jt_value::{Fault, NoMemory};
use std::alloc::Global;

fn owned(alloc: Global, place: PlaceRef<'_>) -> Result<Place, NoMemory>
    ensures { IfOk result (λ p. place_view p ≡ place_ref_view place.entry) }
{
    Ok(Place {
        template: String::from_str(alloc, place.template)?,
        line: place.line,
    })
}

fn faulted(alloc: Global, fault: Fault, place: Option<PlaceRef<'_>>) -> Result<Outcome, NoMemory>
    ensures is { IfOk result (λ o. Ends (outcome_view o)
        ≡ placed (option_map place_ref_view place.entry)
        (Ends (outcome_view (Outcome.Fault fault None)))) }
    ensures memory { OnErr result (HasPlace (option_map place_ref_view place.entry)) }
{
    match place {
        Some(place) => Ok(Outcome::Fault(fault, Some(owned(alloc, place)?))),
        None => Ok(Outcome::Fault(fault, None)),
    }
}

/// Returns the place of the instruction at `point`, if both exist.
pub(crate) fn place_at<C: Code>(
    alloc: Global,
    code: &C,
    unit: usize,
    point: usize,
) -> Result<Option<Place>, NoMemory>
    ensures { IfOk result
        (λ p. option_map place_view p ≡ place_there (C.code code.now) unit point) }
{
    match code.place(unit, point) {
        Some(place) => Ok(Some(owned(alloc, place)?)),
        None => Ok(None),
    }
}

/// Returns the outcome. A fault gets the place of the instruction at `point`.
pub(crate) fn with_place<C: Code>(
    alloc: Global,
    code: &C,
    unit: usize,
    point: usize,
    outcome: Outcome,
) -> Result<Outcome, NoMemory>
    ensures is { IfOk result (λ o. Ends (outcome_view o)
        ≡ placed (place_there (C.code code.now) unit point) (Ends (outcome_view outcome))) }
    // Allocates only for a fault that has a place.
    ensures memory { OnErr result
        (IsFaultAt (place_there (C.code code.now) unit point) (outcome_view outcome)) }
{
    match outcome {
        Outcome::Fault(fault, _) => faulted(alloc, fault, code.place(unit, point)),
        Outcome::Text(text) => Ok(Outcome::Text(text)),
        Outcome::Spent(spent) => Ok(Outcome::Spent(spent)),
    }
}
