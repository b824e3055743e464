//! Defines what the verifier finds in a unit: the shapes of the points that it reached, and the
//! refusal, if the unit is refused.
ghost use Rattle.std.specs.Prelude.{◌≡◌, IfOk, option_map, slice_get};
ghost use Rattle.std.specs.Option.{option_and_then};
ghost use Rattle.jt_image.specs.Code.{Section};
ghost use Rattle.jt_verify.specs.Search.{shape_at, unit_found};
ghost use Rattle.jt_verify.specs.Findings.{AreTrue};

use crate::arena::Arena;
use crate::halt::Refused;
use crate::nodes::ShapeId;
use crate::shape_ref::ShapeRef;
use crate::verifier::explore;
use jt_image::{Code, Flaw};
use jt_value::NoMemory;
use std::alloc::Global;
use std::marker::Model;

/// The shapes of the points of a unit that the verifier reached, and the refusal of the unit.
#[derive(Drop)]
pub struct UnitShapes {
    pub(crate) arena: Arena,
    pub(crate) shapes: Vec<Option<ShapeId>>,
    pub(crate) refused: Option<Refused>,
}

impl Model for UnitShapes {
    ghost use Rattle.jt_verify.specs.Search.{Found};

    ghost Value = { Found };

    ghost use Rattle.jt_verify.specs.Working.{found_in, AreInside};

    ghost view = { λ s. found_in s.arena s.shapes.items s.refused };

    ghost invariant = { λ s. AreInside s.arena s.shapes.items s.refused };
}

impl UnitShapes {
    /// Returns the shape of a point, if the verifier reached the point.
    pub fn shape(&self, point: usize) -> Option<ShapeRef<'_>>
        ensures { result ≡ shape_at self.now.shapes point }
    {
        match self.shapes.get(point) {
            Some(Some(shape)) => Some(ShapeRef {
                arena: &self.arena,
                shape: *shape,
            }),
            _ => None,
        }
    }

    /// Returns the point at which the unit is refused, and the flaw.
    pub fn refusal(&self) -> Option<(usize, Flaw)>
        ensures { result ≡ option_map (λ r. (r.point, r.flaw)) self.now.refused }
    {
        match self.refused {
            Some(refused) => Some((refused.point, refused.flaw)),
            None => None,
        }
    }

    /// Returns the shape that differs from the known one at the point of the refusal, if a path
    /// brought it.
    pub fn other(&self) -> Option<ShapeRef<'_>>
        ensures { result ≡ option_and_then (λ r. r.other) self.now.refused }
    {
        match self.refused {
            Some(
                Refused {
                    other: Some(shape),
                    ..
                },
            ) => Some(ShapeRef {
                arena: &self.arena,
                shape,
            }),
            _ => None,
        }
    }
}

/// Returns what the verifier finds in a unit, if the unit exists.
///
/// # Errors
///
/// `NoMemory` if a growth is refused.
pub fn unit_shapes<C: Code>(
    alloc: Global,
    code: &C,
    unit: usize,
) -> Result<Option<UnitShapes>, NoMemory>
    // The shapes and the refusal are those of the order in which the verifier works.
    ensures found { IfOk result (λ o. o
        ≡ option_map (unit_found (C.code code.now)) (slice_get (C.code code.now).units unit)) }
    // Each shape is one that a path brings to its point. Without a refusal the unit is typed, and
    // its paths bring exactly these shapes. A refusal holds of the unit.
    ensures holds { IfOk result
        (AreTrue (C.code code.now) (slice_get (C.code code.now).units unit)) }
{
    let Some(header) = code.unit(unit) else {
        return Ok(None);
    };
    Ok(Some(explore(alloc, code, unit, &header)?))
}
