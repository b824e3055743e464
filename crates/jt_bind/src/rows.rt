//! Builds lists of resolved expressions.

ghost use Rattle.jt_semantics.specs.Resolve as resolve;
ghost use Rattle.std.specs.Prelude.{◌++◌, ◌∷◌, ◌≡◌};
ghost use Rattle.jt_bind.specs.internal.{IfOk, [], texts, table_of, IsRow};

use crate::Result;
use crate::lookup::reading;
use crate::resolver::Resolver;
use jt_ir::{Slot, SlotExpr};
use std::alloc::Global;

/// Expressions in order; each one that is kept aside has the number of its local.
pub(crate) type Row = Vec<(Option<usize>, SlotExpr)>;

impl<'t, 'f, 's, 'a> Resolver<'t, 'f, 's, 'a> {
    /// Returns reads of the names, in their order.
    pub(crate) fn reads(&self, names: &[&str]) -> Result<Row>
        ensures { IfOk result (IsRow (resolve.reads (table_of self.now) (texts names.now))) }
    {
        let mut row = Vec::new(self.alloc);
        for name in names {
            row.push((None, reading(self.slot(name))))?;
        }
        Ok(row)
    }
}

/// Returns reads of the first locals, one for each name.
pub(crate) fn first_locals(alloc: Global, names: &[&str]) -> Result<Row>
    ensures { IfOk result (IsRow (resolve.first_locals 0 (texts names.now))) }
{
    let mut row = Vec::new(alloc);
    for local in 0..names.len() {
        row.push((None, SlotExpr::Variable(Slot::Local(local))))?;
    }
    Ok(row)
}

/// Appends an argument, which is kept aside in a local if `aside` has its number.
#[inline(never)]
pub(crate) fn put_argument(done: &mut Row, aside: Option<usize>, value: SlotExpr) -> Result<()>
    ensures { IfOk result (λ u. done.new.items ≡ done.old.items ++ (aside, value) ∷ []) }
{
    done.push((aside, value))?;
    Ok(())
}
