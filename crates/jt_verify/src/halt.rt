//! Defines why a path through a unit does not go on.
ghost use Rattle.std.specs.Prelude.{◌≡◌};
ghost use Rattle.jt_verify.specs.declared.halt.Halt.TheVariants as halt;

use crate::nodes::ShapeId;
use jt_image::Flaw;
use std::alloc::AllocError;

/// The refusal of a unit: its point, its flaw, and the shape that differs from the known one, if a
/// path brought it.
#[derive(Clone, Copy)]
pub(crate) struct Refused {
    pub(crate) point: usize,
    pub(crate) flaw: Flaw,
    pub(crate) other: Option<ShapeId>,
}

/// The reason why a path does not go on: the unit is refused, or memory ran out.
#[derive(Clone, Copy)]
pub(crate) enum Halt {
    Refused(Refused),
    NoMemory,
}

impl From<Refused> for Halt {
    ghost from_gives = { λ r h. h ≡ halt.Refused r };

    fn from(refused: Refused) -> Halt {
        Halt::Refused(refused)
    }
}

impl From<AllocError> for Halt {
    ghost from_gives = { λ _ h. h ≡ halt.NoMemory };

    fn from(_e: AllocError) -> Halt {
        Halt::NoMemory
    }
}
