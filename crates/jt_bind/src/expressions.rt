//! Resolves expressions: names to slots, and literals and keys to indices of a pool.

ghost use Rattle.jt_ast.specs.ExpressionView.{expr_view};
ghost use Rattle.jt_ast.specs.Expressions as trees;
ghost use Rattle.jt_ir.specs.Slots as slots;
ghost use Rattle.jt_semantics.specs.Operators as operators;
ghost use Rattle.jt_semantics.specs.Resolve.{operation_of};
ghost use Rattle.jt_bind.specs.internal.{cycle_of, none, filter_row_of, entries_of, IfOk, Some};
ghost use Rattle.jt_bind.specs.internal.{length, exprs_view, is_negated, literal_view, pairs_view};
ghost use Rattle.jt_bind.specs.internal.{IsResolved, RowAdds, RowPuts, asides_of, by_name};
ghost use Rattle.jt_bind.specs.internal.{by_position, filled_of, expr_of, given_of, row_of};
ghost use Rattle.jt_bind.specs.internal.{IsAdded, literal, filter_id, own, nary_op_view, true};

use crate::Result;
use crate::callee::{Callee, Signature};
use crate::held::{Held, boxed};
use crate::lookup::{absent, reading, told};
use crate::operator_forms::{
    OperatorForm, apply_shortcut, chosen, form_of, item_in_turn, join, literal_value, on_one,
    range_of, turned, unary_operation,
};
use crate::pool::{Pool, add_text, add_value};
use crate::required::required_if;
use crate::resolver::{Arguments, Resolver};
use crate::rows::{Row, put_argument};
use jt_ast::{BinaryOperator, Expr, Literal, Polarity};
use jt_eval::{filter_of, test_of};
use jt_ids::{FilterId, LoopField, OpId};
use jt_ir::{NaryOp, SlotExpr};
use jt_layout::checked_sum;
use jt_names::is_loop_name;
use std::slice;

impl<'t, 'f, 's, 'a> Resolver<'t, 'f, 's, 'a> {
    /// Resolves an expression.
    #[tactic(auto, using(crate::proofs::expression_views, crate::proofs::expression_depths))]
    #[cycle(expressions)]
    pub(crate) fn resolve_expression(&self, expr: &Expr, pool: &mut Pool) -> Result<SlotExpr>
        ensures { IfOk result (λ e. IsResolved self.now (expr_view expr.now) e pool.old pool.new) }
    {
        match expr {
            Expr::Constant(literal) => self.resolve_constant(literal, pool),
            Expr::Name(name) => Ok(reading(self.slot(name.as_str()))),
            Expr::Group(inside) => self.resolve_expression(inside, pool),
            Expr::List(row) => self.resolve_made(NaryOp::List, row, &[], pool),
            Expr::Map(pairs) => self.resolve_map(pairs, pool),
            Expr::Attribute(value, key) => self.resolve_attribute(value, key, pool),
            Expr::Item(value, index) => {
                let op = NaryOp::Operator(OpId::Item);
                self.resolve_made(op, slice::from_ref(value), slice::from_ref(index), pool)
            }
            Expr::Call {
                callee: called,
                arguments: row,
                keywords: pairs,
            } => self.resolve_call(called, Arguments { row, pairs }, pool),
            Expr::Filter {
                input: value,
                name,
                arguments: row,
                keywords: pairs,
            } => self.resolve_filter(value, name, Arguments { row, pairs }, pool),
            Expr::Test {
                value,
                polarity,
                name,
                arguments: row,
                ..
            } => self.resolve_test(value, *polarity, name, row, pool),
            Expr::Unary(operator, operand) => {
                let op = NaryOp::Operator(unary_operation(*operator));
                self.resolve_made(op, slice::from_ref(operand), &[], pool)
            }
            Expr::Binary {
                operator,
                left,
                right,
            } => self.resolve_binary(*operator, left, right, pool),
            Expr::When { condition, value } => self.resolve_when(condition, value, pool),
            Expr::Choice {
                condition,
                value,
                other,
            } => self.resolve_choice(condition, value, other, pool),
        }
    }

    /// Resolves a literal.
    #[inline(never)]
    fn resolve_constant(&self, constant: &Literal, pool: &mut Pool) -> Result<SlotExpr>
        ensures { IfOk result (λ e. IsAdded (slots.pooled (own (literal
            (literal_view constant.now)))) e pool.old pool.new) }
    {
        add_value(pool, literal_value(self.alloc, constant)?)
    }

    /// Resolves expressions and those after them, and applies an operation to all.
    #[cycle(expressions)]
    #[inline(never)]
    fn resolve_made(
        &self,
        op: NaryOp,
        first: &[Expr],
        rest: &[Expr],
        pool: &mut Pool,
    ) -> Result<SlotExpr>
        ensures { IfOk result (λ e. IsAdded (slots.made (nary_op_view op)
            (row_of self.now (exprs_view first.now) (row_of self.now (exprs_view rest.now)
            none))) e pool.old pool.new) }
    {
        let mut operands = Held {
            part: Vec::with_capacity(self.alloc, first.len() + rest.len())?,
        };
        self.resolve_row(first, &mut operands.part, pool)?;
        self.resolve_row(rest, &mut operands.part, pool)?;
        Ok(SlotExpr::Made(op, operands.into_part()))
    }

    /// Resolves a map.
    #[cycle(expressions)]
    #[inline(never)]
    fn resolve_map(&self, pairs: &[(String, Expr)], pool: &mut Pool) -> Result<SlotExpr>
        ensures { IfOk result (λ e. IsResolved self.now
            (trees.map_of (pairs_view pairs.now)) e pool.old pool.new) }
    {
        let mut entries = Held {
            part: Vec::new(self.alloc),
        };
        self.resolve_entries(pairs, &mut entries.part, pool)?;
        Ok(SlotExpr::Made(NaryOp::Map, entries.into_part()))
    }

    /// Resolves an attribute, or a field of `loop`.
    #[cycle(expressions)]
    #[inline(never)]
    fn resolve_attribute(&self, value: &Expr, key: &str, pool: &mut Pool) -> Result<SlotExpr>
        ensures { IfOk result (λ e. IsResolved self.now
            (trees.attribute (expr_view value.now) key.now) e pool.old pool.new) }
    {
        if is_loop_name(value) {
            return Ok(told(LoopField::by_name(key)));
        }
        let mut operands = Held {
            part: Vec::with_capacity(self.alloc, 2)?,
        };
        self.resolve_row(slice::from_ref(value), &mut operands.part, pool)?;
        let item_key = add_text(self.alloc, key, pool)?;
        put_argument(&mut operands.part, None, item_key)?;
        Ok(SlotExpr::Made(NaryOp::Operator(OpId::Item), operands.into_part()))
    }

    /// Resolves a binary operator.
    #[cycle(expressions)]
    #[inline(never)]
    fn resolve_binary(
        &self,
        operator: BinaryOperator,
        left: &Expr,
        right: &Expr,
        pool: &mut Pool,
    ) -> Result<SlotExpr>
        ensures { IfOk result (λ e. IsResolved self.now (trees.binary operator (expr_view left.now)
            (expr_view right.now)) e pool.old pool.new) }
    {
        if self.requires_operands(operator) {
            return self.resolve_joined(left, right, pool);
        }
        let (first, rest) = (slice::from_ref(left), slice::from_ref(right));
        match form_of(self.senv.escaping, operator) {
            OperatorForm::Operation(op) => {
                self.resolve_made(NaryOp::Operator(op), first, rest, pool)
            }
            OperatorForm::Negation(op) => {
                let inside = self.resolve_made(NaryOp::Operator(op), first, rest, pool)?;
                on_one(self.alloc, OpId::Not, inside)
            }
            OperatorForm::Shortcut(operator) => {
                let first = self.resolve_boxed(left, pool)?;
                let second = self.resolve_boxed(right, pool)?;
                Ok(apply_shortcut(operator, first, second))
            }
        }
    }

    /// Resolves the operator `~` of strict templates, which requires both operands.
    #[cycle(expressions)]
    #[inline(never)]
    fn resolve_joined(&self, left: &Expr, right: &Expr, pool: &mut Pool) -> Result<SlotExpr>
        ensures { IfOk result (λ e. IsAdded (operation_of (operators.join self.now.senv.escaping)
            (slots.required_if true (expr_of self.now (expr_view left.now)))
            (slots.required_if true (expr_of self.now (expr_view right.now)))) e pool.old
            pool.new) }
    {
        let mut operands = Held {
            part: Vec::with_capacity(self.alloc, 2)?,
        };
        self.resolve_operand(left, true, &mut operands.part, pool)?;
        self.resolve_operand(right, true, &mut operands.part, pool)?;
        let op = NaryOp::Operator(join(self.senv.escaping));
        Ok(SlotExpr::Made(op, operands.into_part()))
    }

    /// Resolves an operand, which is required if `required` holds, and appends it.
    #[cycle(expressions)]
    #[inline(never)]
    fn resolve_operand(
        &self,
        operand: &Expr,
        required: bool,
        done: &mut Row,
        pool: &mut Pool,
    ) -> Result<()>
        ensures { IfOk result (λ u. RowPuts (slots.item (slots.required_if required
            (expr_of self.now (expr_view operand.now)))) done.old done.new pool.old pool.new) }
    {
        let value = self.resolve_expression(operand, pool)?;
        let next = required_if(self.alloc, required, value)?;
        put_argument(done, None, next)
    }

    /// Resolves a conditional expression without an `else` part.
    #[cycle(expressions)]
    #[inline(never)]
    fn resolve_when(&self, condition: &Expr, value: &Expr, pool: &mut Pool) -> Result<SlotExpr>
        ensures { IfOk result (λ e. IsResolved self.now (trees.when (expr_view condition.now)
            (expr_view value.now)) e pool.old pool.new) }
    {
        let asked = self.resolve_boxed(condition, pool)?;
        let first = self.resolve_boxed(value, pool)?;
        let second = boxed(self.alloc, reading(None))?;
        Ok(chosen(asked, first, second))
    }

    /// Resolves a conditional expression.
    #[cycle(expressions)]
    #[inline(never)]
    fn resolve_choice(
        &self,
        condition: &Expr,
        value: &Expr,
        other: &Expr,
        pool: &mut Pool,
    ) -> Result<SlotExpr>
        ensures { IfOk result (λ e. IsResolved self.now (trees.choice (expr_view condition.now)
            (expr_view value.now) (expr_view other.now)) e pool.old pool.new) }
    {
        let asked = self.resolve_boxed(condition, pool)?;
        let first = self.resolve_boxed(value, pool)?;
        let second = self.resolve_boxed(other, pool)?;
        Ok(chosen(asked, first, second))
    }

    /// Resolves an expression and returns it on the heap.
    #[cycle(expressions)]
    #[inline(never)]
    fn resolve_boxed(&self, expr: &Expr, pool: &mut Pool) -> Result<Held<Box<SlotExpr>>>
        ensures { IfOk result (λ o. IsResolved self.now (expr_view expr.now) o.part.value
            pool.old pool.new) }
    {
        boxed(self.alloc, self.resolve_expression(expr, pool)?)
    }

    /// Resolves a test, which is negated after `is not`.
    #[cycle(expressions)]
    #[inline(never)]
    fn resolve_test(
        &self,
        value: &Expr,
        polarity: Polarity,
        name: &str,
        row: &[Expr],
        pool: &mut Pool,
    ) -> Result<SlotExpr>
        ensures { IfOk result (λ e. (ps : trees.Pairs) → IsResolved self.now
            (trees.test (expr_view value.now) (is_negated polarity) name.now (exprs_view row.now)
            ps) e pool.old pool.new) }
    {
        let Some(id) = test_of(name) else {
            return turned(self.alloc, polarity.is_negated(), absent());
        };
        let test = self.resolve_made(NaryOp::Test(id), slice::from_ref(value), row, pool)?;
        turned(self.alloc, polarity.is_negated(), test)
    }

    /// Resolves a filter.
    #[cycle(expressions)]
    #[inline(never)]
    fn resolve_filter(
        &self,
        value: &Expr,
        name: &str,
        arguments: Arguments<'_>,
        pool: &mut Pool,
    ) -> Result<SlotExpr>
        ensures { IfOk result (λ e. IsResolved self.now (trees.filter (expr_view value.now) name.now
            (by_position arguments.entry) (by_name arguments.entry)) e pool.old pool.new) }
    {
        let Some(filter) = filter_of(name, arguments.row, arguments.pairs) else {
            return Ok(absent());
        };
        let mut given = Held {
            part: Vec::new(self.alloc),
        };
        self.resolve_operand(value, self.requires_input(filter), &mut given.part, pool)?;
        self.resolve_filter_row(filter, arguments, &mut given.part, pool)?;
        let op = NaryOp::Filter {
            filter,
            escaping: self.senv.escaping,
        };
        Ok(SlotExpr::Made(op, given.into_part()))
    }

    /// Resolves the arguments of a filter after its value and appends them.
    #[cycle(expressions)]
    #[inline(never)]
    pub(crate) fn resolve_filter_row(
        &self,
        filter: FilterId,
        arguments: Arguments<'_>,
        done: &mut Row,
        pool: &mut Pool,
    ) -> Result<()>
        ensures { IfOk result (λ u. RowAdds (filter_row_of self.now (Some (filter_id filter))
            arguments.entry) none done.old done.new pool.old pool.new) }
    {
        self.resolve_given(arguments, done, pool)?;
        self.fill_filter(filter, arguments, done, pool)
    }

    /// Resolves a call.
    #[cycle(expressions)]
    #[inline(never)]
    fn resolve_call(
        &self,
        called: &Expr,
        arguments: Arguments<'_>,
        pool: &mut Pool,
    ) -> Result<SlotExpr>
        ensures { IfOk result (λ e. IsResolved self.now (trees.call (expr_view called.now)
            (by_position arguments.entry) (by_name arguments.entry)) e pool.old pool.new) }
    {
        match self.tables.callee_of(&*called)? {
            Callee::Macro(signature) => self.resolve_macro(signature, arguments, pool),
            Callee::Range => {
                let op = NaryOp::Operator(range_of(arguments.row.len()));
                self.resolve_made(op, arguments.row, &[], pool)
            }
            Callee::Super => self.super_called(),
            Callee::Block(name) => self.block_called(name),
            Callee::Cycle => self.resolve_cycle(arguments.row, pool),
            Callee::Unknown => Ok(absent()),
        }
    }

    /// Resolves the call of a macro.
    #[cycle(expressions)]
    #[inline(never)]
    fn resolve_macro(
        &self,
        signature: Signature<'_>,
        arguments: Arguments<'_>,
        pool: &mut Pool,
    ) -> Result<SlotExpr>
        ensures { IfOk result (λ e. IsAdded (slots.invoke signature.entry.unit
            self.now.senv.escaping (given_of self.now arguments.entry
            (filled_of self.now signature.entry arguments.entry))) e pool.old pool.new) }
    {
        let mut given = Held {
            part: Vec::new(self.alloc),
        };
        self.resolve_given(arguments, &mut given.part, pool)?;
        self.fill(signature, arguments, &mut given.part)?;
        let escaping = self.senv.escaping;
        Ok(SlotExpr::Invoke {
            routine: signature.unit,
            escaping,
            row: given.into_part(),
        })
    }

    /// Resolves `loop.cycle`: the item of a list at the index of the turn, modulo its length.
    #[cycle(expressions)]
    #[inline(never)]
    fn resolve_cycle(&self, row: &[Expr], pool: &mut Pool) -> Result<SlotExpr>
        ensures { IfOk result (λ e. IsAdded (cycle_of
            (expr_of self.now (trees.list_of (exprs_view row.now))) (length row.now)) e pool.old
            pool.new) }
    {
        // Without `resolve_made`, each level of nested calls has a frame less.
        let mut items = Held {
            part: Vec::with_capacity(self.alloc, row.len())?,
        };
        self.resolve_row(row, &mut items.part, pool)?;
        let list = SlotExpr::Made(NaryOp::List, items.into_part());
        item_in_turn(self.alloc, list, row.len(), pool)
    }

    /// Resolves a list of expressions and appends them.
    #[cycle(expressions)]
    #[inline(never)]
    pub(crate) fn resolve_row(&self, row: &[Expr], done: &mut Row, pool: &mut Pool) -> Result<()>
        ensures { IfOk result (λ u. RowPuts (row_of self.now (exprs_view row.now)) done.old
            done.new pool.old pool.new) }
    {
        for expr in row {
            let next = self.resolve_expression(expr, pool)?;
            put_argument(done, None, next)?;
        }
        Ok(())
    }

    /// Resolves keyword arguments and appends them; each is kept aside in a local.
    #[cycle(expressions)]
    #[inline(never)]
    pub(crate) fn resolve_asides(
        &self,
        pairs: &[(String, Expr)],
        done: &mut Row,
        pool: &mut Pool,
    ) -> Result<()>
        ensures { IfOk result (λ u. RowPuts (asides_of self.now (pairs_view pairs.now))
            done.old done.new pool.old pool.new) }
    {
        let mut senv = self.senv;
        for (_, value) in pairs {
            let here = Resolver { senv, ..*self };
            let next = here.resolve_expression(value, pool)?;
            put_argument(done, Some(senv.free), next)?;
            senv.free = checked_sum(senv.free, 1)?;
        }
        Ok(())
    }

    /// Resolves the positional arguments, then the keyword arguments.
    #[cycle(expressions)]
    fn resolve_given(&self, arguments: Arguments<'_>, done: &mut Row, pool: &mut Pool) -> Result<()>
        ensures { IfOk result (λ u. RowPuts (given_of self.now arguments.entry) done.old done.new
            pool.old pool.new) }
    {
        self.resolve_row(arguments.row, done, pool)?;
        self.resolve_asides(arguments.pairs, done, pool)
    }

    /// Resolves keys and values in turn, and appends them.
    #[cycle(expressions)]
    #[inline(never)]
    fn resolve_entries(
        &self,
        pairs: &[(String, Expr)],
        done: &mut Row,
        pool: &mut Pool,
    ) -> Result<()>
        ensures { IfOk result (λ u. RowAdds (entries_of self.now (pairs_view pairs.now)) none
            done.old done.new pool.old pool.new) }
    {
        for (key, value) in pairs {
            let entry_key = add_text(self.alloc, key.as_str(), pool)?;
            put_argument(done, None, entry_key)?;
            let next = self.resolve_expression(value, pool)?;
            put_argument(done, None, next)?;
        }
        Ok(())
    }
}
