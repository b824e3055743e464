//! Resolves the targets of assignments and loops.

ghost use Rattle.jt_semantics.specs.Resolve as resolve;
ghost use Rattle.std.specs.Prelude.{if◌then◌else◌, ◌≡◌};
ghost use Rattle.jt_bind.specs.internal.{is_some, IfOk, None, map, option_map, names_view};
ghost use Rattle.jt_bind.specs.internal.{table_of, slot_in, slot_view, targets_view, value_in};

use crate::Result;
use crate::resolver::Resolver;
use jt_ir::{Slot, Targets};
use jt_layout::checked_sum;
use jt_names::NameIndex;
use std::alloc::Global;

impl<'t, 'f, 's, 'a> Resolver<'t, 'f, 's, 'a> {
    /// Returns the slot of a name that is set, or local 0 if it has none.
    #[tactic(auto, using(crate::proofs::slot_of_found, crate::proofs::viewed_or))]
    pub(crate) fn set_slot(&self, name: &str) -> Slot
        ensures { slot_view result ≡ resolve.slot_of name.now (table_of self.now) }
    {
        self.slot(name).unwrap_or(Slot::Local(0))
    }

    /// Returns the slot of a name, unless the name is among those that are set after it.
    fn kept_slot(&self, after: &NameIndex<'_>, name: &str) -> Option<Slot>
        ensures { option_map slot_view result ≡ (if is_some (value_in after.now.indices name.now)
            then None else slot_in name.now (table_of self.now)) }
    {
        match after.index_of(name) {
            Some(_) => None,
            None => self.slot(name),
        }
    }

    /// Returns the slots of names that are set. The last value of a repeated name counts.
    fn kept_slots(&self, names: &[String]) -> Result<Vec<Option<Slot>>>
        ensures { IfOk result (λ ss. map (option_map slot_view) ss.items
            ≡ resolve.kept_slots (table_of self.now) (names_view names.now)) }
    {
        let mut slots = Vec::with_capacity(self.alloc, names.len())?;
        let mut after = NameIndex::new(self.alloc);
        let mut left = names.len();
        while left > 0 {
            left -= 1;
            let name = names[left].as_str();
            slots.push(self.kept_slot(&after, name))?;
            after.put(name, left)?;
        }
        slots.reverse();
        Ok(slots)
    }

    /// Returns the targets of a tag that sets names.
    #[inline(never)]
    pub(crate) fn set_targets(&self, names: &[String]) -> Result<Targets>
        ensures { IfOk result (λ t. targets_view t
            ≡ resolve.set_targets (table_of self.now) (names_view names.now)) }
    {
        if let [name] = names {
            return Ok(Targets::One(self.set_slot(name)));
        }
        Ok(Targets::Several(self.kept_slots(names)?))
    }
}

/// Returns consecutive locals from `first` on, one for each name.
fn fresh_slots(alloc: Global, first: usize, names: &[String]) -> Result<Vec<Option<Slot>>>
    ensures { IfOk result
        (λ ss. map (option_map slot_view) ss.items ≡ resolve.fresh first (names_view names.now)) }
{
    let mut slots = Vec::with_capacity(alloc, names.len())?;
    let mut local = first;
    for _name in names {
        slots.push(Some(Slot::Local(local)))?;
        local = checked_sum(local, 1)?;
    }
    Ok(slots)
}

/// Returns the targets of a loop: consecutive locals from `first` on.
#[inline(never)]
pub(crate) fn fresh_targets(alloc: Global, first: usize, names: &[String]) -> Result<Targets>
    ensures { IfOk result
        (λ t. targets_view t ≡ resolve.fresh_targets first (names_view names.now)) }
{
    if let [_] = names {
        return Ok(Targets::One(Slot::Local(first)));
    }
    Ok(Targets::Several(fresh_slots(alloc, first, names)?))
}
