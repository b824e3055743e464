//! Looks up the item of an operand at a text key. Nothing here allocates.
ghost use Rattle.std.specs.Prelude.{◌≡◌, option_map, option_copied};
ghost use Rattle.jt_value.specs.Tree as tree;
ghost use Rattle.jt_value.specs.View.{view};
ghost use Rattle.jt_op_semantics.specs.ItemOf as items;
ghost use Rattle.jt_op_semantics.specs.ItemOf.{item_of};
ghost use Rattle.jt_filters.specs.internal.Operands.{tree_of, chosen};
ghost use Rattle.jt_filter_semantics.specs.Single as single;

use crate::operand::Operand;
use jt_value::{Fault, Value};

/// Applies filter `attr`: returns the item at a text key.
#[tactic(auto, using(crate::proofs::TextKeys::by_text, crate::proofs::TextKeys::by_other))]
pub(crate) fn attribute<'a>(operand: Operand<'a>, key: &Value) -> Result<Operand<'a>, Fault>
    ensures { chosen result ≡ single.attribute (tree_of operand.entry) (view key.now) }
{
    if operand.is_undefined() {
        return Err(Fault::Undefined);
    }
    match key.as_text() {
        Some(key) => item_of(operand, key),
        None => Err(Fault::BadArgument),
    }
}

/// Returns the value of a key if the operand is a map, and undefined for any other operand. Returns
/// the fault `Undefined` if the operand is undefined itself.
#[tactic(auto, using(crate::proofs::Payloads::map_is, crate::proofs::TextKeys::others_have_none))]
pub(crate) fn item_of<'a>(operand: Operand<'a>, key: &str) -> Result<Operand<'a>, Fault>
    ensures { chosen result ≡ item_of (tree_of operand.entry) (tree.text key.now) }
{
    if let Some(map) = operand.as_map() {
        return Ok(or_undefined(map.get(key)));
    }
    if operand.is_undefined() {
        Err(Fault::Undefined)
    } else {
        Ok(Operand::Undefined)
    }
}

/// Returns the found value, or undefined.
fn or_undefined(found: Option<&Value>) -> Operand<'_>
    ensures { tree_of result ≡ items.or_undefined (option_map view (option_copied found.entry)) }
{
    match found {
        Some(value) => Operand::Value(value),
        None => Operand::Undefined,
    }
}
