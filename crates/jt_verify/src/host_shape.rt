//! Defines shapes as values for hosts: the kinds of the entries of an activation. The verifier
//! compares the shapes of arena.rt.
ghost use Rattle.std.specs.Prelude.{◌≡◌, [], ◌∷◌, length, OnOk, OnErr, MatchResult};
ghost use Rattle.jt_verify.specs.Differing.{Differ};

use crate::refusal::Refusal;
use jt_image::{Flaw, Kind};
use jt_value::NoMemory;
use smallvec::SmallVec;
use std::alloc::Global;
use std::marker::Model;

/// The kinds of the entries of an activation. Contracts see the top first.
#[derive(Drop)]
pub struct Shape {
    // The top is last; `None` until the first entry comes with an allocator.
    entries: Option<SmallVec<Kind, 32>>,
}

impl Model for Shape {
    ghost use Rattle.std.specs.Prelude.{List};
    ghost use Rattle.jt_image.specs.declared.kind.Kind.{Kind};

    ghost Value = { List Kind };

    ghost use Rattle.jt_verify.specs.Tops.{kinds};

    ghost view = { λ s. kinds s.entries };
}

impl Shape {
    /// Returns the shape without entries.
    pub fn new() -> Shape
        ensures { result ≡ [] }
    {
        Shape { entries: None }
    }

    /// Returns the number of entries.
    pub fn len(&self) -> usize
        ensures { result ≡ length self.now }
    {
        match &self.entries {
            None => 0,
            Some(entries) => entries.len(),
        }
    }

    /// Pushes an entry.
    ///
    /// # Errors
    ///
    /// `NoMemory` if a growth was refused. The shape is then unchanged.
    pub fn push(&mut self, alloc: Global, kind: Kind) -> Result<(), NoMemory>
        ensures ok { OnOk result (self.new ≡ kind ∷ self.old) }
        ensures err { OnErr result (self.new ≡ self.old) }
    {
        match &mut self.entries {
            Some(entries) => entries.push(kind)?,
            None => {
                let mut entries = SmallVec::new(alloc);
                entries.push(kind)?;
                self.entries = Some(entries);
            }
        }
        Ok(())
    }
}

/// Joins two paths that meet: their shapes must be equal.
///
/// # Errors
///
/// - `DepthDiffers` if the lengths differ.
/// - `KindDiffers` if the lengths are equal and the kinds differ.
///
/// The refusal names unit 0 and point 0, since `join` knows no index.
pub fn join(left: &Shape, right: &Shape) -> Result<(), Refusal>
    ensures { MatchResult result (λ _. left.now ≡ right.now) (λ e. Differ left.now right.now e) }
{
    if left.len() != right.len() {
        return Err(Refusal::Flaw {
            flaw: Flaw::DepthDiffers,
            unit: 0,
            point: 0,
        });
    }
    let (Some(left), Some(right)) = (&left.entries, &right.entries) else {
        return Ok(());
    };
    if left.as_slice() != right.as_slice() {
        return Err(Refusal::Flaw {
            flaw: Flaw::KindDiffers,
            unit: 0,
            point: 0,
        });
    }
    Ok(())
}
