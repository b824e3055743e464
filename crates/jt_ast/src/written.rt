//! Finds the texts and filters that parts of an expression denote, as written.

ghost use Rattle.std.specs.Prelude.{◌≡◌, option_map};
ghost use Rattle.jt_ast.specs.Expressions.{no_exprs};
ghost use Rattle.jt_ast.specs.ExpressionView.{expr_view, exprs_view, pairs_view};
ghost use Rattle.jt_ast.specs.Written as spec;

use crate::expression::{Expr, Literal};
use jt_ids::FilterId;

/// Returns the text of a text literal. An expression in parentheses is not a literal.
pub fn literal_text(expr: &Expr) -> Option<&str>
    ensures { option_map (λ s. s.now) result ≡ spec.literal_text (expr_view expr.now) }
{
    match expr {
        Expr::Constant(Literal::Text(text)) => Some(text.as_str()),
        _ => None,
    }
}

/// Returns the name of the only argument if it is a keyword argument.
fn only_name<'a>(items: &[Expr], pairs: &'a [(String, Expr)]) -> Option<&'a str>
    ensures { option_map (λ s. s.now) result
        ≡ spec.only_name (exprs_view items.now) (pairs_view pairs.now) }
{
    match items {
        [] => single_name(pairs),
        _ => None,
    }
}

/// Returns the name of the only keyword argument.
fn single_name(pairs: &[(String, Expr)]) -> Option<&str>
    ensures { option_map (λ s. s.now) result ≡ spec.only_name no_exprs (pairs_view pairs.now) }
{
    match pairs {
        [] => None,
        [(name, _)] => Some(name.as_str()),
        _ => None,
    }
}

/// Returns the filter that a name denotes when it is called with these arguments, or `None` if no
/// filter has the name. `map` with the keyword `attribute` as its only argument denotes another
/// filter than `map`.
pub fn filter_of(name: &str, items: &[Expr], pairs: &[(String, Expr)]) -> Option<FilterId>
    ensures { result ≡ spec.filter_written name.now (exprs_view items.now) (pairs_view pairs.now) }
{
    FilterId::named(name, only_name(items, pairs))
}
