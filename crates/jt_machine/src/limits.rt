//! Checks values against the limits of a budget.
ghost use Rattle.std.specs.Prelude.{◌≡◌, ◌-◌, ◌^◌, None, IfSome, min, option_map};
ghost use Rattle.jt_value.specs.Tree as tree;
ghost use Rattle.jt_value.specs.Tree.{Tree, no_entries};
ghost use Rattle.jt_value.specs.View.{view, items_of};
ghost use Rattle.jt_image.specs.Run.{limit_of};
ghost use Rattle.jt_image.specs.Step.{put_entries};
ghost use Rattle.jt_machine.specs.Entries.{all_held};
ghost use Rattle.jt_machine.specs.View.{budget_view, limit_view};

use crate::entries::StackEntry;
use crate::measure::{deepest, lasting, sizes};
use jt_budget::{Budget, Spent};
use jt_value::Value;

/// Returns the limit that a value exceeds. Its size is checked before its nesting.
pub(crate) fn exceeded_limit(value: &Value, budget: &Budget) -> Option<Spent>
    ensures { option_map limit_view result ≡ limit_of (budget_view budget.now) (view value.now) }
{
    limit_by(value.size(), value.nesting(), budget)
}

/// Returns a copy of a value, if it is within the limits and can be copied.
#[inline(always)]
pub(crate) fn copy_fitting(value: &Value, left: &Budget) -> Option<Value>
    ensures same { IfSome result (λ v. view v ≡ view value.now) }
    ensures fits { IfSome result (λ v. limit_of (budget_view left.now) (view value.now) ≡ None) }
{
    if exceeded_limit(value, left).is_some() {
        return None;
    }
    value.clone().ok()
}

/// Returns the limit that a value of this size exceeds, if it is neither a list nor a map.
pub(crate) fn flat_limit(size: u64, budget: &Budget) -> Option<Spent>
    ensures { (t : Tree)
        → tree.size t ≡ size
        → tree.nesting t ≡ 0
        → option_map limit_view result ≡ limit_of (budget_view budget.now) t }
{
    limit_by(size, 0, budget)
}

// Returns the limit that a value of this size and nesting exceeds. The greatest `u64` and `u32`
// represent all greater numbers.
#[inline(always)]
#[tactic(auto, using(crate::proofs::StepLemmas::within))]
fn limit_by(size: u64, nesting: u32, budget: &Budget) -> Option<Spent>
    ensures { (t : Tree)
        → size ≡ min (tree.size t) (2 ^ 64 - 1)
        → nesting ≡ min (tree.nesting t) (2 ^ 32 - 1)
        → option_map limit_view result ≡ limit_of (budget_view budget.now) t }
{
    // The prover needs these reads, which show that the limits have fewer bits than the counts.
    let _size = budget.size;
    let _nesting = budget.nesting;
    match budget.fits(size, nesting) {
        Ok(()) => None,
        Err(spent) => Some(spent),
    }
}

/// Returns the limit that the list of the values in `entries` exceeds. The list is not built.
pub(crate) fn list_limit(entries: &[StackEntry], budget: &Budget) -> Option<Spent>
    ensures { option_map limit_view result
        ≡ limit_of (budget_view budget.now) (tree.list (items_of (all_held entries.now))) }
{
    let size = sizes(entries).saturating_add(1);
    let nesting = deepest(entries).saturating_add(1);
    limit_by(size, nesting, budget)
}

/// Returns the limit that the map of alternating keys and values exceeds. The map is not built. If
/// the list of all of them fits, the map fits. Repeated keys are searched for only if the list does
/// not fit.
pub(crate) fn map_limit(pairs: &[StackEntry], budget: &Budget) -> Option<Spent>
    ensures { option_map limit_view result ≡ limit_of (budget_view budget.now)
        (tree.map (put_entries no_entries (all_held pairs.now))) }
{
    match list_limit(pairs, budget) {
        None => None,
        Some(_) => {
            let (size, nesting) = lasting(pairs);
            limit_by(size.saturating_add(1), nesting.saturating_add(1), budget)
        }
    }
}
