//! Finds the names of globals by their slots.
ghost use Rattle.std.specs.Prelude.{◌≡◌, ◌<◌, ℕ, IfOk, length};
ghost use Rattle.std.specs.Option.{option_or};
ghost use Rattle.jt_show.specs.internal.SlotNames.{AreNames, named_at, named_by};

use jt_image::Code;
use std::alloc::{AllocError, Global};

/// Returns for each slot of a global its name, if it has one.
pub(crate) fn slot_names<C: Code>(alloc: Global, code: &C) -> Result<Vec<Option<&str>>, AllocError>
    ensures { IfOk result (λ v. AreNames (C.code code.now) v.items) }
{
    let mut slots: Vec<Option<&str>> = vec![in alloc; None; usize::from(code.globals())]?;
    'names: for index in 0..code.names() {
        let Some((slot, name)) = code.name(index) else {
            unreachable!()
        };
        add_name(&mut slots, slot, name);
    }
    Ok(slots)
}

/// Sets the name of a slot if the slot exists and has none.
fn add_name<'a>(slots: &mut Vec<Option<&'a str>>, slot: u16, name: &'a str)
    ensures len { length slots.new.items ≡ length slots.old.items }
    ensures each { (s : ℕ) → s < length slots.old.items
        → named_at slots.new.items s
        ≡ option_or (named_at slots.old.items s)
        (named_by (record { slot = slot; text = name.now }) s) }
{
    let slot = usize::from(slot);
    if slot < slots.len() && slots[slot].is_none() {
        slots[slot] = Some(name);
    }
}
