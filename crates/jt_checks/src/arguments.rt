//! Checks that arguments fit the parameters of a callee, and the filters, tests and keys that the
//! arguments of a filter name.

ghost use Rattle.std.specs.Prelude.{◌≡◌, ◌≤◌, Some, None, if◌then◌else◌, length, drop, IfOk};
ghost use Rattle.std.specs.Prelude.{IfSome, option_and_then};
ghost use Rattle.jt_ast.specs.Written.{literal_text};
ghost use Rattle.jt_ast.specs.ExpressionView.{expr_view, exprs_view, pairs_view};
ghost use Rattle.jt_ast.specs.Texts.{repeated, texts};
ghost use Rattle.jt_ast.specs.StatementView.{parameters_view};
ghost use Rattle.jt_chains.specs.Uses.{count, keywords};
ghost use Rattle.jt_eval.specs.TheFilters.{the_filters};
ghost use Rattle.jt_eval.specs.Tests.{test_named};
ghost use Rattle.jt_ids.specs.FilterTable.{filter_id, named_at, position_of};
ghost use Rattle.jt_eval.specs.Inside as inside;
ghost use Rattle.jt_rules.specs.Arguments.{test_takes};
ghost use Rattle.jt_checks.specs.internal.RuleTests as rules;

use jt_ast::{Expr, Parameter, literal_text};
use jt_eval::{filter_of, filter_parameters, test_of};
use jt_ids::{ArgumentRole, FilterId};
use jt_names::{NameIndex, add_names, keyword_names, parameter_names};
use jt_rules::ScopeError;
use std::alloc::{AllocError, Global};
use std::collections::BTreeSet;

/// Returns `BadArguments` unless the arguments are right.
pub(crate) fn unless(right: bool) -> Option<ScopeError>
    ensures { result ≡ rules.unless right }
{
    (!right).then_some(ScopeError::BadArguments)
}

/// Returns whether a name occurs twice.
pub(crate) fn any_repeated(alloc: Global, names: &[&str]) -> Result<bool, AllocError>
    ensures { IfOk result (λ b. b ≡ repeated (texts names.now)) }
{
    let mut distinct = BTreeSet::new(alloc);
    add_names(&mut distinct, names)?;
    Ok(distinct.len() < names.len())
}

/// Returns whether names occur once each, and name only parameters that are `left`.
fn names_fit(alloc: Global, left: &[Parameter], names: &[&str]) -> Result<bool, AllocError>
    ensures { IfOk result
        (λ b. b ≡ rules.names_fit (parameters_view left.now) (texts names.now)) }
{
    if any_repeated(alloc, names)? {
        return Ok(false);
    }
    let known = parameter_names(alloc, left)?;
    let index = NameIndex::of(alloc, &known, 0)?;
    Ok(names.iter().all(|name| index.index_of(name).is_some()))
}

/// Returns the parameters after the ones that positional arguments fill.
#[tactic(auto, using(crate::proofs::dropped, crate::proofs::counted))]
fn left_after<'p>(parameters: &'p [Parameter], row: &[Expr]) -> &'p [Parameter]
    ensures { parameters_view result.now
        ≡ drop (count (exprs_view row.now)) (parameters_view parameters.now) }
{
    &parameters[row.len().min(parameters.len())..]
}

/// Returns whether arguments fit the parameters of a macro.
pub(crate) fn fits(
    alloc: Global,
    parameters: &[Parameter],
    row: &[Expr],
    pairs: &[(String, Expr)],
) -> Result<bool, AllocError>
    ensures { IfOk result (λ b. b ≡ rules.fits (parameters_view parameters.now)
        (count (exprs_view row.now)) (keywords (pairs_view pairs.now))) }
{
    if parameters.len() < row.len() {
        return Ok(false);
    }
    let names = keyword_names(alloc, pairs)?;
    names_fit(alloc, left_after(parameters, row), &names)
}

/// Returns the rule that the arguments of a test break.
#[tactic(auto, using(crate::proofs::counted, crate::proofs::keyless))]
pub(crate) fn test_broken(name: &str, row: &[Expr], pairs: &[(String, Expr)]) -> Option<ScopeError>
    ensures { result ≡ rules.unless
        (test_takes (test_named name.now) (exprs_view row.now) (pairs_view pairs.now)) }
{
    let test = test_of(name)?;
    unless(test.takes(row.len() + 1) && pairs.is_empty())
}

/// Returns the number of parameters up to the last one that is named, which is included, or `None`
/// if one of them is not named and has no default.
fn reached(parameters: &[Parameter], names: &[&str]) -> Option<usize>
    ensures within { IfSome result (λ n. n ≤ length parameters.now) }
    ensures value { result
        ≡ (if rules.is_filled (parameters_view parameters.now) 0 (texts names.now)
        then Some (rules.reached (parameters_view parameters.now) (texts names.now)) else None) }
{
    let mut count = 0;
    let mut filled = true;
    for left in (0..parameters.len()).rev() {
        let parameter = &parameters[left];
        let named = (&*names).contains(&parameter.name.as_str());
        if count == 0 && !named {
            continue;
        }
        count += 1;
        filled &= named || parameter.default.is_some();
    }
    filled.then_some(count)
}

/// Returns the rule that the arguments of a filter break.
#[tactic(auto, using(crate::proofs::known_filter), unfolding(jt_eval::specs::TheFilters::the_filters))]
pub(crate) fn filter_broken(
    alloc: Global,
    name: &str,
    row: &[Expr],
    pairs: &[(String, Expr)],
) -> Result<Option<ScopeError>, AllocError>
    ensures { IfOk result (λ o. o ≡ rules.unless (rules.filter_right the_filters
        (the_filters.named name.now (exprs_view row.now) (pairs_view pairs.now))
        (exprs_view row.now) (pairs_view pairs.now))) }
{
    let Some(filter) = filter_of(name, row, pairs) else {
        return Ok(None);
    };
    let right = filter_fits(alloc, filter, row, pairs)? && are_names_well(filter, row, pairs);
    Ok(unless(right))
}

/// Returns whether a filter takes these positional and keyword arguments.
#[tactic(auto, using(crate::proofs::without_keywords, crate::proofs::fits_left, crate::proofs::counted))]
fn filter_fits(
    alloc: Global,
    filter: FilterId,
    row: &[Expr],
    pairs: &[(String, Expr)],
) -> Result<bool, AllocError>
    ensures { IfOk result (λ b. b ≡ rules.filter_fits the_filters (filter_id filter)
        (count (exprs_view row.now)) (keywords (pairs_view pairs.now))) }
{
    if pairs.is_empty() {
        return Ok(filter.takes(row.len() + 1));
    }
    let parameters = filter_parameters(alloc, filter)?;
    let names = keyword_names(alloc, pairs)?;
    let left = left_after(&parameters, row);
    let Some(named) = reached(left, &names) else {
        return Ok(false);
    };
    if !filter.takes(row.len() + named + 1) {
        return Ok(false);
    }
    names_fit(alloc, left, &names)
}

/// Returns whether the named filter or test takes `values` values, the item included, and `map` may
/// call the filter. An unknown name passes: the parser refuses it.
#[tactic(auto, using(crate::proofs::alone, crate::proofs::turned))]
fn is_called_well(naming: ArgumentRole, name: &str, values: usize) -> bool
    ensures { result ≡ inside.called_well naming name.now values }
{
    match naming {
        ArgumentRole::Filter => FilterId::named(name, None).is_none_or(
            |filter| filter.may_be_inner() && filter.takes(values),
        ),
        ArgumentRole::Test => test_of(name).is_none_or(|test| test.takes(values)),
        ArgumentRole::Key => true,
    }
}

/// Returns whether an argument that names something is a text literal. A named filter or test must
/// also take `values` values.
fn is_argument_well(naming: Option<ArgumentRole>, argument: &Expr, values: usize) -> bool
    ensures { result ≡ inside.argument_well naming (literal_text (expr_view argument.now)) values }
{
    let Some(naming) = naming else {
        return true;
    };
    literal_text(argument).is_some_and(|name| is_called_well(naming, name, values))
}

/// Returns whether each positional argument that names something names it correctly. A named filter
/// or test takes the item and the arguments after its name.
fn is_row_well(filter: FilterId, row: &[Expr]) -> bool
    ensures { result ≡ inside.row_well filter 1 (exprs_view row.now) }
{
    for (index, argument) in row.iter().enumerate() {
        let values = row.len() - index;
        if !is_argument_well(filter.named_at(index + 1), argument, values) {
            return false;
        }
    }
    true
}

/// Returns the role of a keyword argument, if it names something.
fn naming_of(filter: FilterId, name: &str) -> Option<ArgumentRole>
    ensures { result ≡ option_and_then (named_at filter) (position_of filter name.now) }
{
    filter.named_at(filter.place(name)?)
}

/// Returns whether the arguments of a filter name other things correctly. A filter or test that a
/// keyword argument names takes only the item.
fn are_names_well(filter: FilterId, row: &[Expr], pairs: &[(String, Expr)]) -> bool
    ensures { result ≡ inside.names_well filter (exprs_view row.now) (pairs_view pairs.now) }
{
    if !is_row_well(filter, row) {
        return false;
    }
    for (name, value) in pairs {
        if !is_argument_well(naming_of(filter, name), value, 1) {
            return false;
        }
    }
    true
}
