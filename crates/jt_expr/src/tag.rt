//! Parses the expression that the tokens of a tag spell.

ghost use Rattle.std.specs.Prelude.{◌≡◌, ◌≤◌, ◌<◌, map, IfOk, MatchResult, IsErrOf, []};
ghost use Rattle.jt_scan.specs.View.{token_view};
ghost use Rattle.jt_ast.specs.Expressions as trees;
ghost use Rattle.jt_ast.specs.Expressions.{levels};
ghost use Rattle.jt_ast.specs.ExpressionView.{expr_view};
ghost use Rattle.jt_expr.specs.Grammar.{Spells, whole};
ghost use Rattle.jt_expr.specs.Promises.{Reads};

use crate::cursor::Cursor;
use crate::error::ExprError;
use crate::grammar;
use crate::part::LeveledExpr;
use crate::rows::NestedForm;
use jt_ast::Expr;
use jt_scan::Token;
use std::alloc::Global;

/// Parses all tokens as one expression of at most `limit` levels.
///
/// # Errors
///
/// - `Syntax` if the tokens spell no expression.
/// - `TooDeep` if each expression that they spell has more than `limit` levels.
/// - `NoMemory` if a growth is refused.
pub fn expression(alloc: Global, tokens: &[Token<'_>], limit: u8) -> Result<Expr, ExprError>
    // The tokens spell the returned tree, which has at most `limit` levels.
    ensures spelled { IfOk result (λ found.
        Spells whole (expr_view found) (map token_view tokens.now)
        × (levels (expr_view found) ≤ limit)) }
    // If the tokens spell a tree of at most `limit` levels, the result is this tree or `NoMemory`.
    ensures only { (tree : trees.Expr)
        → Spells whole tree (map token_view tokens.now)
        → levels tree ≤ limit
        → MatchResult result (λ found. expr_view found ≡ tree) (λ e. e ≡ ExprError.NoMemory) }
    // The tokens spell no other tree, whatever its depth.
    ensures alone { IfOk result
        (λ found. (tree : trees.Expr)
        → Spells whole tree (map token_view tokens.now)
        → tree ≡ expr_view found) }
    // After `Syntax`: the tokens spell no tree, whatever its depth.
    ensures syntax { IsErrOf result ExprError.Syntax
        → (tree : trees.Expr) → Spells whole tree (map token_view tokens.now) → ⊥ }
    // After `TooDeep`: each tree that the tokens spell has more than `limit` levels.
    ensures deep { IsErrOf result ExprError.TooDeep
        → (tree : trees.Expr)
        → Spells whole tree (map token_view tokens.now)
        → limit < levels tree }
{
    read_all(alloc, tokens, limit)
}

/// Parses the whole token list as one expression and refuses tokens that are left over.
fn read_all(alloc: Global, tokens: &[Token<'_>], limit: u8) -> Result<Expr, ExprError>
    ensures { Reads expr_view (Spells whole) (λ v. v ≡ []) levels limit
        (map token_view tokens.now) result [] }
{
    let mut rest = Cursor::new(tokens);
    let LeveledExpr { expr, .. } = grammar::read(alloc, &mut rest, limit, NestedForm::Whole)?;
    if rest.left() > 0 {
        return Err(ExprError::Syntax);
    }
    Ok(Box::into_inner(expr))
}
