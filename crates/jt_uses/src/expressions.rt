//! Lists the uses in expressions.

ghost use Rattle.std.specs.Prelude.{◌≡◌, ◌++◌, if◌then◌else◌, [], IfOk};
ghost use Rattle.jt_ast.specs.ExpressionView.{expr_view, exprs_view, pairs_view};
ghost use Rattle.jt_uses.specs.Uses as uses;
ghost use Rattle.jt_uses.specs.Uses.{expr_uses, row_uses, pair_uses, is_loop, inside_callee};
ghost use Rattle.jt_uses.specs.Uses.{place_at};
ghost use Rattle.jt_uses.specs.internal.Adds.{Adds};

use crate::site::{Place, Use, UseList};
use jt_ast::Expr;
use std::alloc::AllocError;

/// Returns whether an expression is the bare name `loop`.
fn is_loop_name(expr: &Expr) -> bool
    ensures { result ≡ is_loop (expr_view expr.now) }
{
    match expr {
        Expr::Name(name) => name.as_str() == "loop",
        _ => false,
    }
}

/// Returns whether an expression is a bare name.
fn is_name(expr: &Expr) -> bool
    ensures { result ≡ uses.is_name (expr_view expr.now) }
{
    match expr {
        Expr::Name(_) => true,
        _ => false,
    }
}

/// Returns whether an expression is a name or a field of a name.
fn is_called_by_name(expr: &Expr) -> bool
    ensures { result ≡ uses.is_called_by_name (expr_view expr.now) }
{
    match expr {
        Expr::Name(_) => true,
        Expr::Attribute(value, _) => is_name(value),
        _ => false,
    }
}

impl<'a> UseList<'a> {
    /// Appends the uses in an expression.
    #[tactic(auto, using(jt_ast::proofs::ExpressionViews::view_Map))]
    #[cycle(gather)]
    pub(crate) fn add_expression(&mut self, place: Place, expr: &'a Expr) -> Result<(), AllocError>
        ensures { IfOk result (λ _. Adds self.old self.new (expr_uses (expr_view expr.now) place)) }
    {
        match expr {
            Expr::Constant(_) => {}
            Expr::Name(name) => self.add(place, Use::Reads(name.as_str()))?,
            Expr::Group(inside) | Expr::Unary(_, inside) => self.add_expression(place, inside)?,
            Expr::List(row) => self.add_row(place, row)?,
            Expr::Map(pairs) => self.add_pairs(place, pairs)?,
            Expr::Attribute(value, field) => {
                if is_loop_name(value) {
                    self.add(place, Use::ReadsLoopField(field.as_str()))?;
                } else {
                    self.add_expression(place, value)?;
                }
            }
            Expr::Call {
                callee,
                arguments,
                keywords,
            } => {
                let made = Use::Calls {
                    callee,
                    arguments,
                    keywords,
                };
                self.add_callee(place, callee)?;
                self.add(place, made)?;
                self.add_arguments(place, arguments, keywords)?;
            }
            Expr::Filter {
                input,
                name,
                arguments,
                keywords,
            } => {
                let made = Use::Filters {
                    name: name.as_str(),
                    arguments,
                    keywords,
                };
                self.add(place, made)?;
                self.add_expression(place, input)?;
                self.add_arguments(place, arguments, keywords)?;
            }
            Expr::Test {
                value,
                name,
                arguments,
                keywords,
                ..
            } => {
                let made = Use::Tests {
                    name: name.as_str(),
                    arguments,
                    keywords,
                };
                self.add(place, made)?;
                self.add_expression(place, value)?;
                self.add_arguments(place, arguments, keywords)?;
            }
            Expr::Item(first, second)
            | Expr::Binary {
                left: first,
                right: second,
                ..
            }
            | Expr::When {
                condition: first,
                value: second,
            } => {
                self.add_expression(place, first)?;
                self.add_expression(place, second)?;
            }
            Expr::Choice {
                condition,
                value,
                other,
            } => {
                self.add_expression(place, condition)?;
                self.add_expression(place, value)?;
                self.add_expression(place, other)?;
            }
        }
        Ok(())
    }

    /// Appends the uses in a callee that is no name and no field of a name.
    #[cycle(gather)]
    fn add_callee(&mut self, place: Place, callee: &'a Expr) -> Result<(), AllocError>
        ensures { IfOk result (λ _. Adds self.old self.new
            (if uses.is_called_by_name (expr_view callee.now) then []
            else expr_uses (expr_view callee.now)
            (place_at place.line (inside_callee place.around)))) }
    {
        if is_called_by_name(callee) {
            return Ok(());
        }
        self.add_expression(place.in_a_callee(), callee)
    }

    /// Appends the uses in positional and keyword arguments.
    #[cycle(gather)]
    pub(crate) fn add_arguments(
        &mut self,
        place: Place,
        row: &'a [Expr],
        pairs: &'a [(String, Expr)],
    ) -> Result<(), AllocError>
        ensures { IfOk result (λ _. Adds self.old self.new
            (row_uses (exprs_view row.now) place ++ pair_uses (pairs_view pairs.now) place)) }
    {
        self.add_row(place, row)?;
        self.add_pairs(place, pairs)
    }

    /// Appends the uses in a list of expressions.
    #[cycle(gather)]
    fn add_row(&mut self, place: Place, row: &'a [Expr]) -> Result<(), AllocError>
        ensures { IfOk result (λ _. Adds self.old self.new (row_uses (exprs_view row.now) place)) }
    {
        for expr in row {
            self.add_expression(place, expr)?;
        }
        Ok(())
    }

    /// Appends the uses in the values of pairs.
    #[cycle(gather)]
    pub(crate) fn add_pairs(
        &mut self,
        place: Place,
        pairs: &'a [(String, Expr)],
    ) -> Result<(), AllocError>
        ensures { IfOk result (λ _. Adds self.old self.new
            (pair_uses (pairs_view pairs.now) place)) }
    {
        for (_, value) in pairs {
            self.add_expression(place, value)?;
        }
        Ok(())
    }
}
