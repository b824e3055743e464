//! Builds expressions from their parts.

ghost use Rattle.std.specs.Prelude.{◌≡◌, IfOk};
ghost use Rattle.jt_ast.specs.Expressions as trees;
ghost use Rattle.jt_ast.specs.ExpressionView.{literal_view, is_negated, expr_view, exprs_view};
ghost use Rattle.jt_ast.specs.ExpressionView.{pairs_view};
ghost use Rattle.std.specs.Prelude.{string_bytes, encode_utf8_all};
ghost use Rattle.std.specs.Str.{chars};
ghost use Rattle.jt_expr.specs.internal.Gives.{Makes, bytes_of, named_of, rows_of};

use crate::part::LeveledList;
use jt_ast::{BinaryOperator, Expr, Literal, Polarity, UnaryOperator};
use std::alloc::{AllocError, Global};

/// Copies a text to a new string.
///
/// # Errors
///
/// `AllocError` if a growth is refused.
pub fn copy_of(alloc: Global, text: &str) -> Result<String, AllocError>
    ensures { IfOk result (λ s. string_bytes s ≡ encode_utf8_all (chars text.now)) }
{
    String::from_str(alloc, text)
}

pub(crate) fn make_constant(alloc: Global, literal: Literal) -> Result<Box<Expr>, AllocError>
    ensures { Makes (trees.constant (literal_view literal)) result }
{
    Ok(Box::new(alloc, Expr::Constant(literal))?)
}

pub(crate) fn make_name(alloc: Global, text: &str) -> Result<Box<Expr>, AllocError>
    ensures { Makes (trees.name (bytes_of text.now)) result }
{
    let name = copy_of(alloc, text)?;
    Ok(Box::new(alloc, Expr::Name(name))?)
}

pub(crate) fn make_group(alloc: Global, inner: Box<Expr>) -> Result<Box<Expr>, AllocError>
    ensures { Makes (trees.group (expr_view inner.value)) result }
{
    Ok(Box::new(alloc, Expr::Group(inner))?)
}

pub(crate) fn make_list(alloc: Global, items: Vec<Expr>) -> Result<Box<Expr>, AllocError>
    ensures { Makes (trees.list_of (exprs_view items.items)) result }
{
    Ok(Box::new(alloc, Expr::List(items))?)
}

pub(crate) fn make_map(alloc: Global, pairs: Vec<(String, Expr)>) -> Result<Box<Expr>, AllocError>
    ensures { Makes (trees.map_of (pairs_view pairs.items)) result }
{
    Ok(Box::new(alloc, Expr::Map(pairs))?)
}

pub(crate) fn make_attribute(
    alloc: Global,
    a: Box<Expr>,
    text: &str,
) -> Result<Box<Expr>, AllocError>
    ensures { Makes (trees.attribute (expr_view a.value) (bytes_of text.now)) result }
{
    let name = copy_of(alloc, text)?;
    Ok(Box::new(alloc, Expr::Attribute(a, name))?)
}

pub(crate) fn make_item(
    alloc: Global,
    a: Box<Expr>,
    index: Box<Expr>,
) -> Result<Box<Expr>, AllocError>
    ensures { Makes (trees.item (expr_view a.value) (expr_view index.value)) result }
{
    Ok(Box::new(alloc, Expr::Item(a, index))?)
}

pub(crate) fn make_call(
    alloc: Global,
    callee: Box<Expr>,
    row: LeveledList,
) -> Result<Box<Expr>, AllocError>
    ensures { Makes (trees.call (expr_view callee.value) (rows_of row) (named_of row)) result }
{
    let call = Expr::Call {
        callee,
        arguments: row.items,
        keywords: row.pairs,
    };
    Ok(Box::new(alloc, call)?)
}

pub(crate) fn make_filter(
    alloc: Global,
    input: Box<Expr>,
    text: &str,
    row: LeveledList,
) -> Result<Box<Expr>, AllocError>
    ensures { Makes (trees.filter (expr_view input.value) (bytes_of text.now) (rows_of row)
        (named_of row)) result }
{
    let name = copy_of(alloc, text)?;
    let filter = Expr::Filter {
        input,
        name,
        arguments: row.items,
        keywords: row.pairs,
    };
    Ok(Box::new(alloc, filter)?)
}

pub(crate) fn make_test(
    alloc: Global,
    value: Box<Expr>,
    polarity: Polarity,
    text: &str,
    row: LeveledList,
) -> Result<Box<Expr>, AllocError>
    ensures { Makes (trees.test (expr_view value.value) (is_negated polarity) (bytes_of text.now)
        (rows_of row) (named_of row)) result }
{
    let name = copy_of(alloc, text)?;
    let test = Expr::Test {
        value,
        polarity,
        name,
        arguments: row.items,
        keywords: row.pairs,
    };
    Ok(Box::new(alloc, test)?)
}

pub(crate) fn make_unary(
    alloc: Global,
    op: UnaryOperator,
    a: Box<Expr>,
) -> Result<Box<Expr>, AllocError>
    ensures { Makes (trees.unary op (expr_view a.value)) result }
{
    Ok(Box::new(alloc, Expr::Unary(op, a))?)
}

pub(crate) fn make_binary(
    alloc: Global,
    operator: BinaryOperator,
    left: Box<Expr>,
    right: Box<Expr>,
) -> Result<Box<Expr>, AllocError>
    ensures { Makes (trees.binary operator (expr_view left.value) (expr_view right.value)) result }
{
    let binary = Expr::Binary {
        operator,
        left,
        right,
    };
    Ok(Box::new(alloc, binary)?)
}

pub(crate) fn make_when(
    alloc: Global,
    condition: Box<Expr>,
    value: Box<Expr>,
) -> Result<Box<Expr>, AllocError>
    ensures { Makes (trees.when (expr_view condition.value) (expr_view value.value)) result }
{
    Ok(Box::new(alloc, Expr::When { condition, value })?)
}

pub(crate) fn make_choice(
    alloc: Global,
    condition: Box<Expr>,
    value: Box<Expr>,
    other: Box<Expr>,
) -> Result<Box<Expr>, AllocError>
    ensures { Makes (trees.choice (expr_view condition.value) (expr_view value.value)
        (expr_view other.value)) result }
{
    let choice = Expr::Choice {
        condition,
        value,
        other,
    };
    Ok(Box::new(alloc, choice)?)
}
