//! Resolves values that strict templates require: printed values, the values of loops, the operands
//! of `~`, and the inputs of filters.

ghost use Rattle.jt_ast.specs.ExpressionView.{expr_view};
ghost use Rattle.jt_ir.specs.Slots as slots;
ghost use Rattle.jt_semantics.specs.Expressions as meant;
ghost use Rattle.jt_semantics.specs.Operators as operators;
ghost use Rattle.std.specs.Prelude.{◌&&◌, ◌≡◌};
ghost use Rattle.jt_bind.specs.internal.{IfOk, IsAdded, MadeOfOne, Some, cenv_in, filter_id};
ghost use Rattle.jt_bind.specs.internal.{required_of};

use crate::Result;
use crate::pool::Pool;
use crate::resolver::Resolver;
use jt_ast::{BinaryOperator, Expr};
use jt_ids::FilterId;
use jt_ir::{NaryOp, SlotExpr};
use std::alloc::Global;

/// Returns the expression, whose undefined value is a fault if `required` holds.
#[inline(never)]
pub(crate) fn required_if(alloc: Global, required: bool, inside: SlotExpr) -> Result<SlotExpr>
    ensures { IfOk result (MadeOfOne (slots.required_if required) inside) }
{
    if required {
        let row = vec![in alloc; (None, inside)]?;
        Ok(SlotExpr::Made(NaryOp::Required, row))
    } else {
        Ok(inside)
    }
}

impl<'t, 'f, 's, 'a> Resolver<'t, 'f, 's, 'a> {
    /// Returns whether the templates are strict.
    pub(crate) fn is_strict(&self) -> bool
        ensures { result ≡ (cenv_in self.now.tables.now).strict }
    {
        self.tables.chain().strict
    }

    /// Resolves the value of a loop, which strict templates require.
    #[inline(never)]
    pub(crate) fn resolve_required(&self, value: &Expr, pool: &mut Pool) -> Result<SlotExpr>
        ensures { IfOk result (λ e. IsAdded (required_of self.now (expr_view value.now)) e pool.old
            pool.new) }
    {
        let resolved = self.resolve_expression(value, pool)?;
        required_if(self.alloc, self.is_strict(), resolved)
    }

    /// Returns whether a filter requires its input: in strict templates each filter but `default`.
    pub(crate) fn requires_input(&self, filter: FilterId) -> bool
        ensures { result ≡ meant.requires_input (cenv_in self.now.tables.now).strict
            (Some (filter_id filter)) }
    {
        self.is_strict() && !matches!(filter, FilterId::Default)
    }

    /// Returns whether an operator requires its operands: in strict templates `~`.
    pub(crate) fn requires_operands(&self, operator: BinaryOperator) -> bool
        ensures { result ≡ (cenv_in self.now.tables.now).strict && operators.joins operator }
    {
        self.is_strict() && matches!(operator, BinaryOperator::Concatenate)
    }
}
