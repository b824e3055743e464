//! Looks up the slots of names and builds reads of them.

ghost use Rattle.jt_semantics.specs.Resolve as resolve;
ghost use Rattle.jt_ir.specs.Slots as slots;
ghost use Rattle.std.specs.Prelude.{◌≡◌};
ghost use Rattle.jt_bind.specs.internal.{IfOk, option_map, pairs_view, kept_of, table_of, PutsNone};
ghost use Rattle.jt_bind.specs.internal.{globals_in, known, slot_view, slot_in};

use crate::Result;
use crate::resolver::Resolver;
use crate::tables::Tables;
use jt_ast::Expr;
use jt_ids::LoopField;
use jt_ir::{Slot, SlotExpr};
use jt_layout::checked_sum;

/// Returns a read of the slot, or of the pool index `index` if there is no slot.
pub(crate) fn value_or(slot: Option<Slot>, index: usize) -> SlotExpr
    ensures { PutsNone (resolve.value_or (option_map slot_view slot) (known index)) result }
{
    match slot {
        Some(slot) => SlotExpr::Variable(slot),
        None => SlotExpr::Pooled(index),
    }
}

/// Returns a read of the slot, or the undefined value if there is no slot.
pub(crate) fn reading(slot: Option<Slot>) -> SlotExpr
    ensures { PutsNone (resolve.read_from (option_map slot_view slot)) result }
{
    value_or(slot, 0)
}

/// Returns the expression of a name that has no meaning.
pub(crate) fn absent() -> SlotExpr
    ensures { PutsNone slots.absent result }
{
    SlotExpr::Absent
}

/// Returns the field of the innermost loop; an unknown field is absent.
pub(crate) fn told(field: Option<LoopField>) -> SlotExpr
    ensures { PutsNone (resolve.field_from field) result }
{
    match field {
        Some(field) => SlotExpr::Field(field),
        None => SlotExpr::Absent,
    }
}

impl<'f, 'a> Tables<'f, 'a> {
    /// Returns the slot of a name among the globals of the current chain.
    pub(crate) fn global_slot(&self, name: &str) -> Option<Slot>
        ensures { option_map slot_view result ≡ slot_in name.now (globals_in self.now) }
    {
        let here = self.here();
        match here.slots.index_of(name) {
            Some(slot) => Some(Slot::Global(slot)),
            None => None,
        }
    }
}

impl<'t, 'f, 's, 'a> Resolver<'t, 'f, 's, 'a> {
    /// Returns the slot of a name: its local in the innermost scope that has it, or else its
    /// global.
    pub(crate) fn slot(&self, name: &str) -> Option<Slot>
        ensures { option_map slot_view result ≡ slot_in name.now (table_of self.now) }
    {
        let mut left = self.senv.name_scopes.len();
        while left > 0 {
            left -= 1;
            if let Some(local) = self.senv.name_scopes[left].index.index_of(name) {
                return Some(Slot::Local(local));
            }
        }
        self.tables.global_slot(name)
    }

    /// Returns the local that holds the keyword argument of the name, if there is one.
    pub(crate) fn kept(&self, pairs: &[(String, Expr)], name: &str) -> Result<Option<Slot>>
        ensures { IfOk result (λ s. option_map slot_view s
            ≡ slot_in name.now (kept_of self.now (pairs_view pairs.now))) }
    {
        let mut local = self.senv.free;
        for (key, _) in pairs {
            if key.as_str() == name {
                return Ok(Some(Slot::Local(local)));
            }
            local = checked_sum(local, 1)?;
        }
        Ok(None)
    }
}
