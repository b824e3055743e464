//! Compares the shape with which a path reaches a point and the shape that is known there.
ghost use Rattle.std.specs.Prelude.{◌<◌, length};
ghost use Rattle.std.specs.List.{AllByRecursion};
ghost use Rattle.jt_verify.specs.Arena.{shape_in, IsIn};
ghost use Rattle.jt_verify.specs.Differing.{Meets};
ghost use Rattle.jt_verify.specs.Working.{Arriving, path_in, table_in, IsInIf};

use crate::arena::Arena;
use crate::halt::Refused;
use crate::nodes::ShapeId;
use crate::verifier::WorkItem;
use jt_image::{Flaw, MAX_ENTRIES};

/// Compares two shapes that meet at a point.
///
/// # Errors
///
/// The flaw states how they differ: in their length, or in the kind of an entry.
fn compare_shapes(arena: &Arena, known: ShapeId, shape: ShapeId) -> Result<(), Flaw>
    requires known { IsIn arena.now known }
    requires shape { IsIn arena.now shape }
    ensures { Meets (shape_in arena.now known) (shape_in arena.now shape) result }
{
    if arena.is_equal(known, shape) {
        return Ok(());
    }
    if arena.height(known) == arena.height(shape) {
        return Err(Flaw::KindDiffers);
    }
    Err(Flaw::DepthDiffers)
}

/// Returns whether a path's shape is already known at its point. Otherwise the point is new.
///
/// # Errors
///
/// Refuses a shape that is too long, or that differs from the known one.
pub(crate) fn is_known_at(
    arena: &Arena,
    shapes: &[Option<ShapeId>],
    path: WorkItem,
) -> Result<bool, Refused>
    requires point { path.point < length shapes.now }
    requires shape { IsIn arena.now path.shape }
    requires shapes { AllByRecursion (IsInIf arena.now) shapes.now }
    ensures { Arriving arena.now (table_in arena.now shapes.now) (path_in arena.now path) result }
{
    let point = path.point;
    if arena.height(path.shape) > MAX_ENTRIES {
        return Err(Refused {
            point,
            flaw: Flaw::TooDeep,
            other: None,
        });
    }
    let Some(known) = shapes[point] else {
        return Ok(false);
    };
    match compare_shapes(arena, known, path.shape) {
        Ok(()) => Ok(true),
        Err(flaw) => Err(Refused {
            point,
            flaw,
            other: Some(path.shape),
        }),
    }
}
