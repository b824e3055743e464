//! Implements filter `replace`.
ghost use Rattle.std.specs.Prelude.{◌≡◌, ◌<◌, ◌-◌, ◌^◌, min, length, IfOk, IfErr, Ok, Err};
ghost use Rattle.std.specs.Prelude.{string_bytes};
ghost use Rattle.jt_value.specs.Tree as tree;
ghost use Rattle.jt_value.specs.View.{view};
ghost use Rattle.jt_filters.specs.internal.Operands.{tree_of};
ghost use Rattle.jt_filter_semantics.specs.Texts.{replaced, replaced_behind};

use crate::operand::Operand;
use jt_value::{Fault, NoMemory, Value};
use std::alloc::Global;

/// The texts of a replacement: the text to change, the old part and the new part.
#[derive(Clone, Copy)]
pub(crate) struct Replacement<'a> {
    text: &'a str,
    old: &'a str,
    new: &'a str,
    ghost some: { 0 < length old.now },
}

impl Replacement<'_> {
    /// Returns the length in bytes of the replaced text, at most 2^64 - 1.
    pub(crate) fn len(self) -> u64
        ensures { let r = self.entry in
            result ≡ min (length (replaced_behind 0 r.old.now r.new.now r.text.now)) (2 ^ 64 - 1) }
    {
        replaced_len(self.text, self.old, self.new)
    }

    /// Returns the replaced text as a value.
    pub(crate) fn value(self, alloc: Global) -> Result<Value, NoMemory>
        ensures { let r = self.entry in
            IfOk result (λ v.
            view v ≡ tree.text (replaced_behind 0 r.old.now r.new.now r.text.now)) }
    {
        Value::from_text(replaced_text(alloc, self.text, self.old, self.new)?)
    }
}

/// Returns the texts of a replacement, or a fault if one is not plain or the old part is empty.
#[tactic(auto, using(crate::proofs::OperandKinds::plain_is, crate::proofs::OperandKinds::others_not_replaced))]
pub(crate) fn replacement_of<'a>(
    operand: Operand<'a>,
    old: &'a Value,
    new: &'a Value,
) -> Result<Replacement<'a>, Fault>
    ensures ok { IfOk result (λ r. replaced (tree_of operand.entry) (view old.now) (view new.now)
        ≡ Ok (tree.text (replaced_behind 0 r.old.now r.new.now r.text.now))) }
    ensures fault { IfErr result
        (λ f. replaced (tree_of operand.entry) (view old.now) (view new.now) ≡ Err f) }
{
    let Some(text) = operand.as_plain() else {
        return Err(operand.operand_fault());
    };
    match (old, new) {
        (Value::Text(old), Value::Text(new)) => {
            if old.is_empty() {
                return Err(Fault::BadArgument);
            }
            Ok(Replacement { text, old, new })
        }
        _ => Err(Fault::BadArgument),
    }
}

/// Returns the length in bytes of the replaced text, at most 2^64 - 1.
fn replaced_len(text: &str, old: &str, new: &str) -> u64
    requires { 0 < length old.now }
    ensures { result ≡ min (length (replaced_behind 0 old.now new.now text.now)) (2 ^ 64 - 1) }
{
    let mut size = 0u64;
    let mut rest = text;
    while let Some((front, behind)) = rest.split_once(old) {
        size = size
            .saturating_add(front.len() as u64)
            .saturating_add(new.len() as u64);
        rest = behind;
    }
    size.saturating_add(rest.len() as u64)
}

/// Returns the replaced text.
fn replaced_text(alloc: Global, text: &str, old: &str, new: &str) -> Result<String, NoMemory>
    requires { 0 < length old.now }
    ensures { IfOk result (λ s. string_bytes s ≡ replaced_behind 0 old.now new.now text.now) }
{
    let mut replaced = String::new(alloc);
    let mut rest = text;
    while let Some((front, behind)) = rest.split_once(old) {
        replaced.push_str(front)?;
        replaced.push_str(new)?;
        rest = behind;
    }
    replaced.push_str(rest)?;
    Ok(replaced)
}
