//! Appends values to the pool.

ghost use Rattle.jt_value.specs.Tree as tree;
ghost use Rattle.jt_ir.specs.Slots as slots;
ghost use Rattle.jt_bind.specs.internal.{IfOk, IsAdded, own, view};

use crate::Result;
use jt_ir::SlotExpr;
use jt_value::Value;
use std::alloc::Global;

/// The values of a program.
pub(crate) type Pool = Vec<Value>;

/// Appends a value to the pool and returns the expression that reads it.
#[inline(never)]
pub(crate) fn add_value(pool: &mut Pool, value: Value) -> Result<SlotExpr>
    ensures { IfOk result (λ e. IsAdded (slots.pooled (own (view value))) e pool.old pool.new) }
{
    let index = pool.len();
    pool.push(value)?;
    Ok(SlotExpr::Pooled(index))
}

/// Appends a text to the pool and returns the expression that reads it.
#[inline(never)]
pub(crate) fn add_text(alloc: Global, text: &str, pool: &mut Pool) -> Result<SlotExpr>
    ensures { IfOk result
        (λ e. IsAdded (slots.pooled (own (tree.text text.now))) e pool.old pool.new) }
{
    add_value(pool, Value::text(alloc, text)?)
}
