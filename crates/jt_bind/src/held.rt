//! Holds a resolved part that is part of nothing else yet. Its drop is not inlined, so that the
//! frames of nested parts are small.

ghost use Rattle.std.specs.Prelude.{◌≡◌};
ghost use Rattle.jt_bind.specs.internal.{IfOk};

use crate::Result;
use jt_ir::SlotExpr;
use std::alloc::Global;

/// A resolved part that is part of nothing else yet.
pub(crate) struct Held<T: Drop> {
    pub part: T,
}

impl<T: Drop> Held<T> {
    /// Returns the part.
    pub(crate) fn into_part(self) -> T
        ensures { result ≡ self.part }
    {
        let Held { part } = self;
        part
    }
}

impl<T: Drop> Drop for Held<T> {
    /// Drops the part in a frame of its own.
    #[inline(never)]
    fn drop(self) {
        let Held { part: _ } = self;
    }
}

/// Puts a resolved expression on the heap.
#[inline(never)]
pub(crate) fn boxed(alloc: Global, expr: SlotExpr) -> Result<Held<Box<SlotExpr>>>
    ensures { IfOk result (λ o. o.part.value ≡ expr) }
{
    Ok(Held {
        part: Box::new(alloc, expr)?,
    })
}
