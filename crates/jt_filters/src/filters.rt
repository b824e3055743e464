//! Applies filters to values.
ghost use Rattle.std.specs.Prelude.{◌≡◌, true, false, map, length, nat_le, Err, IfOk, IfErr};
ghost use Rattle.jt_value.specs.View.{view};
ghost use Rattle.jt_ops.specs.Limited.{limited_by, Answers};
ghost use Rattle.jt_ids.specs.FilterTable.{least_values, most_values, may_be_inner};
ghost use Rattle.jt_filter_semantics.specs.Filtering.{filtered};
ghost use Rattle.jt_filter_semantics.specs.Mapping.{as_list, gathered};
ghost use Rattle.jt_filters.specs.internal.Operands.{items_in};
ghost use Rattle.jt_filters.specs.internal.Plans.{called};
ghost use Rattle.jt_filters.specs.internal.Rows.{gives, Gives};

use crate::inner::ItemAction;
use crate::item_list::{ItemList, items_of};
use crate::maker::{Maker, letters_for};
use crate::mapping::{change_of, row_list_under};
use crate::operand::Operand;
use crate::planning::Call;
use jt_ids::FilterId;
use jt_ops::{Limits, OpError};
use jt_value::{Fault, Value};
use std::alloc::Global;

/// Applies a filter to values, the input first, under limits. `autoescape` decides whether `join`
/// keeps markup. The result's size and nesting are tested before it is built, or just afterwards if
/// it cannot be much larger than the input.
///
/// # Errors
///
/// - The fault of the filter.
/// - `TooLarge` if the result's size exceeds its limit.
/// - `TooDeep` if only its nesting exceeds its limit.
/// - `NoMemory` if a growth is refused.
pub fn apply(
    alloc: Global,
    filter: FilterId,
    values: &[Value],
    autoescape: bool,
    limits: Limits,
) -> Result<Value, OpError>
    requires least { nat_le (least_values filter) (length values.now) ≡ true }
    requires most { nat_le (length values.now) (most_values filter) ≡ true }
    ensures { Answers result
        (limited_by limits (filtered filter autoescape (map view values.now))) }
{
    match values {
        [value, arguments @ ..] => {
            let call = Call {
                filter,
                arguments,
                autoescape,
            };
            applied(alloc, call, Operand::Value(value), limits)
        }
        _ => unreachable!(),
    }
}

/// Returns the result of a call, under limits.
fn applied(
    alloc: Global,
    call: Call<'_>,
    operand: Operand<'_>,
    limits: Limits,
) -> Result<Value, OpError>
    ensures { Answers result (limited_by limits (called call.entry operand.entry)) }
{
    if call.filter.may_be_inner() {
        planned_within(alloc, call, operand, limits)
    } else {
        mapped_within(alloc, call, operand, limits)
    }
}

/// Returns the result of a filter that works on its input as a whole, under limits.
#[tactic(auto, using(crate::proofs::ApplyCorrect::built_fault))]
fn planned_within(
    alloc: Global,
    call: Call<'_>,
    operand: Operand<'_>,
    limits: Limits,
) -> Result<Value, OpError>
    requires { may_be_inner call.filter ≡ true }
    ensures { Answers result (limited_by limits (called call.entry operand.entry)) }
{
    match call.plan(operand) {
        Ok(plan) => {
            let letters = letters_for(alloc, plan.letter_count());
            plan.within(Maker::new(alloc, &letters), limits)
        },
        Err(fault) => Err(OpError::Fault(fault)),
    }
}

/// Returns the result of a filter that works on each item, under limits.
#[tactic(auto, using(crate::proofs::ApplyCorrect::built_fault))]
fn mapped_within(
    alloc: Global,
    call: Call<'_>,
    operand: Operand<'_>,
    limits: Limits,
) -> Result<Value, OpError>
    requires { may_be_inner call.filter ≡ false }
    ensures { Answers result (limited_by limits (called call.entry operand.entry)) }
{
    match row_of(call, operand) {
        Ok((items, change)) => row_list_under(alloc, items, change, limits),
        Err(fault) => Err(OpError::Fault(fault)),
    }
}

/// Returns the items of a filter that works on each item, and its action on them.
#[tactic(auto, using(crate::proofs::ItemResults::action_results))]
fn row_of<'a>(call: Call<'a>, operand: Operand<'a>) -> Result<(ItemList<'a>, ItemAction<'a>), Fault>
    requires { may_be_inner call.filter ≡ false }
    ensures gives { IfOk result (λ p. Gives p.1) }
    ensures ok { IfOk result (λ p.
        called call.entry operand.entry ≡ as_list (gathered (gives p.1) (items_in p.0))) }
    ensures fault { IfErr result (λ f. called call.entry operand.entry ≡ Err f) }
{
    let items = items_of(operand)?;
    let change = change_of(call)?;
    Ok((items, change))
}
