//! Defines expressions with their height.

ghost use Rattle.std.specs.Prelude.{◌≡◌};
ghost use Rattle.jt_ast.specs.Expressions.{levels, exprs_levels, pairs_levels};
ghost use Rattle.jt_ast.specs.ExpressionView.{expr_view, exprs_view, pairs_view};

use jt_ast::Expr;

/// An expression with its height, which is its number of levels.
#[derive(Drop)]
pub struct LeveledExpr {
    pub expr: Box<Expr>,
    pub height: usize,
    ghost counted: { height ≡ levels (expr_view expr.value) },
}

/// The items and keyed pairs of a sequence, with the greatest height of each.
#[derive(Drop)]
pub struct LeveledList {
    pub items: Vec<Expr>,
    pub pairs: Vec<(String, Expr)>,
    pub items_height: usize,
    pub pairs_height: usize,
    ghost items_counted: { items_height ≡ exprs_levels (exprs_view items.items) },
    ghost pairs_counted: { pairs_height ≡ pairs_levels (pairs_view pairs.items) },
}
