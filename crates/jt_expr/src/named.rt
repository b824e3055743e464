//! Finds the names of unknown filters and tests, also in the arguments of filters.

ghost use Rattle.std.specs.Prelude.{◌≡◌, ◌||◌};
ghost use Rattle.jt_ids.specs.FilterTable.{named_at};
ghost use Rattle.jt_ast.specs.ExpressionView.{expr_view, exprs_view, pairs_view};
ghost use Rattle.jt_ast.specs.Written.{literal_text};
ghost use Rattle.jt_expr.specs.Named as spec;

use jt_ast::{Expr, filter_of, literal_text};
use jt_ids::{ArgumentRole, FilterId, TestId};

/// The kind of names that a search for unknown names looks at.
#[derive(Clone, Copy)]
pub enum Named {
    Filter,
    Test,
}

/// Returns whether a test has this name.
fn is_test(name: &str) -> bool
    ensures { result ≡ spec.is_test name.now }
{
    TestId::by_name(name).is_some()
}

/// Returns whether a filter has this name.
fn is_filter(name: &str) -> bool
    ensures { result ≡ spec.is_filter name.now }
{
    FilterId::by_name(name).is_some()
}

/// Returns whether the search is for tests and no test has this name.
fn is_unknown_test(name: &str, named: Named) -> bool
    ensures { result ≡ spec.unknown_test named name.now }
{
    match named {
        Named::Filter => false,
        Named::Test => !is_test(name),
    }
}

/// Returns whether the search is for filters and no filter has this name.
fn is_unknown_filter(name: &str, named: Named) -> bool
    ensures { result ≡ spec.unknown_filter named name.now }
{
    match named {
        Named::Filter => !is_filter(name),
        Named::Test => false,
    }
}

/// Returns whether a name with this role is an unknown name that the search is for.
fn is_unknown_naming(naming: ArgumentRole, name: &str, named: Named) -> bool
    ensures { result ≡ spec.unknown_naming named naming name.now }
{
    match naming {
        ArgumentRole::Filter => is_unknown_filter(name, named),
        ArgumentRole::Test => is_unknown_test(name, named),
        ArgumentRole::Key => false,
    }
}

/// Returns whether the argument at a position of a filter is an unknown name.
fn argument_unknown(filter: FilterId, place: usize, argument: &Expr, named: Named) -> bool
    ensures { result ≡ spec.argument_unknown named (named_at filter place)
        (literal_text (expr_view argument.now)) }
{
    let Some(naming) = filter.named_at(place) else {
        return false;
    };
    match literal_text(argument) {
        Some(name) => is_unknown_naming(naming, name, named),
        None => false,
    }
}

/// Returns whether a positional argument of a filter is an unknown name.
fn arguments_unknown(filter: FilterId, items: &[Expr], named: Named) -> bool
    ensures { result ≡ spec.arguments_unknown named filter 1 (exprs_view items.now) }
{
    for (index, argument) in items.iter().enumerate() {
        if argument_unknown(filter, index + 1, argument, named) {
            return true;
        }
    }
    false
}

/// Returns whether a positional argument of the filter is an unknown name. Returns `false` if the
/// filter itself is unknown.
fn inside_unknown(filter: Option<FilterId>, items: &[Expr], named: Named) -> bool
    ensures { result ≡ spec.inside_unknown named filter (exprs_view items.now) }
{
    match filter {
        Some(filter) => arguments_unknown(filter, items, named),
        None => false,
    }
}

/// Returns whether the name of a filter, or a name among its arguments, is unknown.
pub fn is_filter_unknown(name: &str, items: &[Expr], pairs: &[(String, Expr)], named: Named) -> bool
    ensures { result
        ≡ spec.filter_unknown named name.now (exprs_view items.now) (pairs_view pairs.now) }
{
    is_unknown_filter(name, named) || inside_unknown(filter_of(name, items, pairs), items, named)
}

/// Returns whether an expression contains an unknown name of this kind.
#[cycle(names)]
pub fn has_unknown(expr: &Expr, named: Named) -> bool
    ensures { result ≡ spec.has_unknown named (expr_view expr.now) }
{
    match expr {
        Expr::Constant(_) | Expr::Name(_) => false,
        Expr::Group(a) | Expr::Attribute(a, _) | Expr::Unary(_, a) => has_unknown(a, named),
        Expr::List(items) => any_unknown(items, named),
        Expr::Map(pairs) => any_unknown_pair(pairs, named),
        Expr::Item(a, b) => has_unknown(a, named) || has_unknown(b, named),
        Expr::Call {
            callee,
            arguments,
            keywords,
        } => has_unknown_with(callee, arguments, keywords, named),
        Expr::Filter {
            input,
            name,
            arguments,
            keywords,
        } => {
            is_filter_unknown(name, arguments, keywords, named)
                || has_unknown_with(input, arguments, keywords, named)
        }
        Expr::Test {
            value,
            name,
            arguments,
            keywords,
            ..
        } => is_unknown_test(name, named) || has_unknown_with(value, arguments, keywords, named),
        Expr::Binary { left, right, .. } => has_unknown(left, named) || has_unknown(right, named),
        Expr::When { condition, value } => {
            has_unknown(condition, named) || has_unknown(value, named)
        }
        Expr::Choice {
            condition,
            value,
            other,
        } => {
            has_unknown(condition, named) || has_unknown(value, named) || has_unknown(other, named)
        }
    }
}

/// Returns whether a value or one of its arguments contains an unknown name.
#[cycle(names)]
fn has_unknown_with(
    value: &Expr,
    arguments: &[Expr],
    keywords: &[(String, Expr)],
    named: Named,
) -> bool
    ensures { result
        ≡ (spec.has_unknown named (expr_view value.now)
        || (spec.exprs_have_unknown named (exprs_view arguments.now)
        || spec.pairs_have_unknown named (pairs_view keywords.now))) }
{
    has_unknown(value, named) || any_unknown_argument(arguments, keywords, named)
}

/// Returns whether a positional or keyword argument contains an unknown name of this kind.
#[cycle(names)]
pub fn any_unknown_argument(arguments: &[Expr], keywords: &[(String, Expr)], named: Named) -> bool
    ensures { result
        ≡ (spec.exprs_have_unknown named (exprs_view arguments.now)
        || spec.pairs_have_unknown named (pairs_view keywords.now)) }
{
    any_unknown(arguments, named) || any_unknown_pair(keywords, named)
}

/// Returns whether one of the expressions contains an unknown name of this kind.
#[cycle(names)]
pub fn any_unknown(items: &[Expr], named: Named) -> bool
    ensures { result ≡ spec.exprs_have_unknown named (exprs_view items.now) }
{
    for item in items {
        if has_unknown(item, named) {
            return true;
        }
    }
    false
}

/// Returns whether one of the values contains an unknown name of this kind.
#[cycle(names)]
pub fn any_unknown_pair(pairs: &[(String, Expr)], named: Named) -> bool
    ensures { result ≡ spec.pairs_have_unknown named (pairs_view pairs.now) }
{
    for (_, value) in pairs {
        if has_unknown(value, named) {
            return true;
        }
    }
    false
}
