//! Finds calls of `super()` in the body of a block, nested blocks excluded.

ghost use Rattle.std.specs.Prelude.{◌≡◌, option_map};
ghost use Rattle.jt_ast.specs.ExpressionView.{expr_view, exprs_view, pairs_view};
ghost use Rattle.jt_chains.specs.Supers as spec;
ghost use Rattle.jt_ast.specs.StatementView.{stmt_view, body_view, branches_view};
ghost use Rattle.jt_ast.specs.StatementView.{filter_calls_view};

use jt_ast::{Branch, Expr, FilterCall, Stmt};

/// Returns whether an expression is the name `super`.
fn is_super(expr: &Expr) -> bool
    ensures { result ≡ spec.is_super (expr_view expr.now) }
{
    match expr {
        Expr::Name(name) => name.as_str() == "super",
        _ => false,
    }
}

/// Returns whether an expression calls `super`.
#[cycle(expressions)]
fn has_super(expr: &Expr) -> bool
    ensures { result ≡ spec.has_super (expr_view expr.now) }
{
    match expr {
        Expr::Constant(_) | Expr::Name(_) => false,
        Expr::Group(a) => has_super(a),
        Expr::List(items) => any_super(items),
        Expr::Map(pairs) => any_super_pair(pairs),
        Expr::Attribute(a, _) => has_super(a),
        Expr::Item(a, b) => has_super(a) || has_super(b),
        Expr::Call {
            callee,
            arguments,
            keywords,
        } => {
            is_super(callee)
                || has_super(callee)
                || any_super(arguments)
                || any_super_pair(keywords)
        }
        Expr::Filter {
            input,
            arguments,
            keywords,
            ..
        } => has_super(input) || any_super(arguments) || any_super_pair(keywords),
        Expr::Test {
            value,
            arguments,
            keywords,
            ..
        } => has_super(value) || any_super(arguments) || any_super_pair(keywords),
        Expr::Unary(_, a) => has_super(a),
        Expr::Binary { left, right, .. } => has_super(left) || has_super(right),
        Expr::When { condition, value } => has_super(condition) || has_super(value),
        Expr::Choice {
            condition,
            value,
            other,
        } => has_super(condition) || has_super(value) || has_super(other),
    }
}

/// Returns whether one of the expressions calls `super`.
#[cycle(expressions)]
fn any_super(items: &[Expr]) -> bool
    ensures { result ≡ spec.row_super (exprs_view items.now) }
{
    for item in items {
        if has_super(item) {
            return true;
        }
    }
    false
}

/// Returns whether one of the values calls `super`.
#[cycle(expressions)]
fn any_super_pair(pairs: &[(String, Expr)]) -> bool
    ensures { result ≡ spec.pairs_super (pairs_view pairs.now) }
{
    for (_, value) in pairs {
        if has_super(value) {
            return true;
        }
    }
    false
}

/// Returns whether a condition calls `super`.
fn condition_super(condition: &Option<Expr>) -> bool
    ensures { result ≡ spec.condition_super (option_map expr_view condition.now) }
{
    condition.as_ref().is_some_and(has_super)
}

/// Returns whether an argument of one of the filters calls `super`.
fn filters_super(filters: &[FilterCall]) -> bool
    ensures { result ≡ spec.filter_call_super (filter_calls_view filters.now) }
{
    for filter in filters {
        if any_super(&filter.arguments) || any_super_pair(&filter.keywords) {
            return true;
        }
    }
    false
}

/// Returns whether statements call `super()`, nested blocks excluded.
pub(crate) fn calls_super(body: &[Stmt]) -> bool
    ensures { result ≡ spec.calls_super (body_view body.now) }
{
    super_line(body).is_some()
}

/// Returns the line of the first tag that calls `super()`, nested blocks excluded.
#[cycle(lines)]
pub(crate) fn super_line(body: &[Stmt]) -> Option<u32>
    ensures { result ≡ spec.super_line (body_view body.now) }
{
    for statement in body {
        if let Some(line) = statement_line(statement) {
            return Some(line);
        }
    }
    None
}

/// Returns the line of the first tag of a statement that calls `super()`, nested blocks excluded.
#[cycle(lines)]
fn statement_line(statement: &Stmt) -> Option<u32>
    ensures { result ≡ spec.stmt_super_line (stmt_view statement.now) }
{
    match statement {
        Stmt::Data(_)
        | Stmt::Macro { .. }
        | Stmt::Include { .. }
        | Stmt::Import { .. }
        | Stmt::From { .. }
        | Stmt::Extends(_, _)
        | Stmt::Block { .. } => None,
        Stmt::Print(line, value) | Stmt::Set { line, value, .. } => {
            line_if(has_super(value), *line)
        }
        Stmt::If(branches, other) => branch_line(branches).or(super_line(other)),
        Stmt::For {
            line,
            over,
            condition,
            body,
            other,
            ..
        } => {
            let inside = super_line(body).or(super_line(other));
            line_if(has_super(over) || condition_super(condition), *line).or(inside)
        }
        Stmt::SetBlock { body, .. } | Stmt::Autoescape { body, .. } => super_line(body),
        Stmt::With { line, values, body } => {
            line_if(any_super_pair(values), *line).or(super_line(body))
        }
        Stmt::FilterBlock {
            line,
            filters,
            body,
        } => line_if(filters_super(filters), *line).or(super_line(body)),
    }
}

/// Returns the line of the first tag of branches that calls `super()`, nested blocks excluded.
#[cycle(lines)]
fn branch_line(branches: &[Branch<Stmt>]) -> Option<u32>
    ensures { result ≡ spec.branches_super_line (branches_view branches.now) }
{
    for Branch {
        line,
        condition,
        body,
    } in branches {
        if has_super(condition) {
            return Some(*line);
        }
        if let Some(line) = super_line(body) {
            return Some(line);
        }
    }
    None
}

/// Returns the line if the condition is true.
fn line_if(condition: bool, line: u32) -> Option<u32>
    ensures { result ≡ spec.line_if condition line }
{
    if condition { Some(line) } else { None }
}
