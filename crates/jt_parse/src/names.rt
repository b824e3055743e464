//! Finds unknown filters and tests in a template.

ghost use Rattle.std.specs.Prelude.{◌≡◌, ◌||◌, true, false, option_map};
ghost use Rattle.std.specs.Option.{option_or};
ghost use Rattle.jt_ast.specs.ExpressionView.{expr_view, pairs_view};
ghost use Rattle.jt_expr.specs.Named.{has_unknown, pairs_have_unknown};
ghost use Rattle.jt_parse.specs.Names as spec;
ghost use Rattle.jt_ast.specs.StatementView.{stmt_view, body_view, branches_view, filter_call_view};
ghost use Rattle.jt_ast.specs.StatementView.{filter_calls_view};
ghost use Rattle.jt_parse.specs.internal.Gives.{GivesNames, GivesNamesIn};

use crate::error::ParseError;
use jt_ast::{Branch, Expr, FilterCall, Stmt};
use jt_expr::{Named, any_unknown_argument, any_unknown_pair, has_unknown, is_filter_unknown};

/// Refuses the tag of a line if it names an unknown filter or an unknown test.
fn check_tag(line: u32, filters: bool, tests: bool) -> Result<(), ParseError>
    ensures { GivesNames (spec.blamed line filters tests) result }
{
    if filters {
        return Err(ParseError::UnknownFilter { line });
    }
    if tests {
        return Err(ParseError::UnknownTest { line });
    }
    Ok(())
}

/// Refuses an expression that uses an unknown filter or test.
fn check_expression(line: u32, expr: &Expr) -> Result<(), ParseError>
    ensures { GivesNamesIn line (λ u. has_unknown u (expr_view expr.now)) result }
{
    let filters = has_unknown(expr, Named::Filter);
    let tests = has_unknown(expr, Named::Test);
    check_tag(line, filters, tests)
}

/// Returns whether a condition contains an unknown name of this kind.
fn condition_unknown(condition: &Option<Expr>, named: Named) -> bool
    ensures { result ≡ spec.condition_unknown named (option_map expr_view condition.now) }
{
    match condition {
        Some(expr) => has_unknown(expr, named),
        None => false,
    }
}

/// Refuses the tag of a loop if it uses an unknown filter or test.
fn check_loop(line: u32, over: &Expr, condition: &Option<Expr>) -> Result<(), ParseError>
    ensures { GivesNamesIn line (λ u. has_unknown u (expr_view over.now)
        || spec.condition_unknown u (option_map expr_view condition.now)) result }
{
    let filters = has_unknown(over, Named::Filter) || condition_unknown(condition, Named::Filter);
    let tests = has_unknown(over, Named::Test) || condition_unknown(condition, Named::Test);
    check_tag(line, filters, tests)
}

/// Refuses the values of a tag if they use an unknown filter or test.
fn check_values(line: u32, values: &[(String, Expr)]) -> Result<(), ParseError>
    ensures { GivesNamesIn line (λ u. pairs_have_unknown u (pairs_view values.now)) result }
{
    let filters = any_unknown_pair(values, Named::Filter);
    let tests = any_unknown_pair(values, Named::Test);
    check_tag(line, filters, tests)
}

/// Returns whether a filter or its arguments contain an unknown name of this kind.
fn filter_call_unknown(filter: &FilterCall, named: Named) -> bool
    ensures { result ≡ spec.filter_call_unknown named (filter_call_view filter.now) }
{
    is_filter_unknown(&filter.name, &filter.arguments, &filter.keywords, named)
        || any_unknown_argument(&filter.arguments, &filter.keywords, named)
}

/// Returns whether one of the filters contains an unknown name of this kind.
fn filter_calls_unknown(filters: &[FilterCall], named: Named) -> bool
    ensures { result ≡ spec.filter_calls_unknown named (filter_calls_view filters.now) }
{
    for filter in filters {
        if filter_call_unknown(filter, named) {
            return true;
        }
    }
    false
}

/// Refuses a filter tag if it uses an unknown filter or test.
fn check_filters(line: u32, filters: &[FilterCall]) -> Result<(), ParseError>
    ensures { GivesNamesIn line
        (λ u. spec.filter_calls_unknown u (filter_calls_view filters.now)) result }
{
    let unknown_filters = filter_calls_unknown(filters, Named::Filter);
    let unknown_tests = filter_calls_unknown(filters, Named::Test);
    check_tag(line, unknown_filters, unknown_tests)
}

/// Refuses an unknown filter or test in statements, at the line of the first tag with one.
#[cycle(names)]
pub(crate) fn check_body(body: &[Stmt]) -> Result<(), ParseError>
    ensures { GivesNames (spec.body_unknown (body_view body.now)) result }
{
    for statement in body {
        check_statement(statement)?;
    }
    Ok(())
}

/// Refuses an unknown filter or test in the branches of an `if` or in its `else` part.
#[cycle(names)]
fn check_choice(branches: &[Branch<Stmt>], other: &[Stmt]) -> Result<(), ParseError>
    ensures { GivesNames (option_or (spec.branch_unknown (branches_view branches.now))
        (spec.body_unknown (body_view other.now))) result }
{
    for Branch {
        line,
        condition,
        body,
    } in branches {
        check_expression(*line, condition)?;
        check_body(body)?;
    }
    check_body(other)
}

/// Refuses an unknown filter or test in a statement, its nested statements included.
#[cycle(names)]
fn check_statement(statement: &Stmt) -> Result<(), ParseError>
    ensures { GivesNames (spec.stmt_unknown (stmt_view statement.now)) result }
{
    match statement {
        Stmt::Data(_)
        | Stmt::Include { .. }
        | Stmt::Import { .. }
        | Stmt::From { .. }
        | Stmt::Extends(_, _) => Ok(()),
        Stmt::Print(line, value) | Stmt::Set { line, value, .. } => check_expression(*line, value),
        Stmt::If(branches, other) => check_choice(branches, other),
        Stmt::For {
            line,
            over,
            condition,
            body,
            other,
            ..
        } => {
            check_loop(*line, over, condition)?;
            check_body(body)?;
            check_body(other)
        }
        Stmt::With { line, values, body } => {
            check_values(*line, values)?;
            check_body(body)
        }
        Stmt::FilterBlock {
            line,
            filters,
            body,
        } => {
            check_filters(*line, filters)?;
            check_body(body)
        }
        Stmt::SetBlock { body, .. }
        | Stmt::Autoescape { body, .. }
        | Stmt::Macro { body, .. }
        | Stmt::Block { body, .. } => check_body(body),
    }
}
