//! Defines shapes in an arena, which are read from the top.
ghost use Rattle.std.specs.Prelude.{◌≡◌, length};
ghost use Rattle.jt_verify.specs.Entries.{values_on, without_values, TopOf};

use crate::arena::Arena;
use crate::nodes::ShapeId;
use jt_image::Kind;
use std::marker::Model;

/// A shape: the kinds of the entries of an activation. Contracts see the top first.
#[derive(Drop)]
pub struct ShapeRef<'a> {
    pub(crate) arena: &'a Arena,
    pub(crate) shape: ShapeId,
}

impl<'a> Model for ShapeRef<'a> {
    ghost use Rattle.std.specs.Prelude.{List};
    ghost use Rattle.jt_image.specs.declared.kind.Kind.{Kind};

    ghost Value = { List Kind };

    ghost use Rattle.jt_verify.specs.Arena.{shape_in, IsIn};

    ghost view = { λ r. shape_in r.arena.now r.shape };

    ghost invariant = { λ r. IsIn r.arena.now r.shape };
}

impl<'a> ShapeRef<'a> {
    /// Returns the number of entries.
    pub fn len(&self) -> usize
        ensures { result ≡ length self.now }
    {
        self.arena.height(self.shape)
    }

    /// Returns the number of values above the uppermost loop or capture.
    pub fn values(&self) -> u32
        ensures { result ≡ values_on self.now }
    {
        self.arena.values(self.shape)
    }

    /// Returns the uppermost loop or capture, and the shape below it.
    pub fn mark(&self) -> Option<(Kind, ShapeRef<'a>)>
        ensures { TopOf (without_values self.now) result }
    {
        match self.arena.pop(self.arena.without_values(self.shape)) {
            Some((kind, below)) => Some((
                kind,
                ShapeRef {
                    arena: self.arena,
                    shape: below,
                },
            )),
            None => None,
        }
    }
}
