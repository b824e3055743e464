//! Resolves statements: names to slots, and literals and data to indices of a pool.

ghost use Rattle.jt_ast.specs.ExpressionView.{expr_view};
ghost use Rattle.jt_ast.specs.StatementView.{stmt_view};
ghost use Rattle.jt_semantics.specs.Meaning.{is_set};
ghost use Rattle.jt_semantics.specs.Resolve as resolve;
ghost use Rattle.jt_ast.specs.Statements as trees;
ghost use Rattle.jt_ir.specs.Slots as slots;
ghost use Rattle.std.specs.Prelude.{if◌then◌else◌};
ghost use Rattle.jt_bind.specs.internal.{values_of, condition_in, IfOk, [], option_map, pairs_view};
ghost use Rattle.jt_bind.specs.internal.{body_view, branches_view, filter_calls_view, names_view};
ghost use Rattle.jt_bind.specs.internal.{texts, AreTurns, IsBranch, Puts, PutsStmt, line_of};
ghost use Rattle.jt_bind.specs.internal.{body_of, expr_of, inside_of, scoped_of, senv_of, stmt_of};
ghost use Rattle.jt_bind.specs.internal.{templates_of, values, Emits, IsAsked, IsHead, slot_view};
ghost use Rattle.jt_bind.specs.internal.{required_of};

use crate::Result;
use crate::emission::{
    LoopHead, SlotBody, Turns, put_assign, put_branch, put_capture, put_choice, put_filtered,
    put_loop,
};
use crate::held::Held;
use crate::pool::Pool;
use crate::resolver::{ForTag, Resolver};
use crate::scope_entry::entered;
use crate::targets::fresh_targets;
use jt_ast::{Branch, Expr, FilterCall, Stmt};
use jt_ir::{Slot, SlotBranch, SlotExpr, SlotStmt, Targets};
use jt_layout::checked_sum;
use jt_names::{keyword_names, names_of, set_names};

impl<'t, 'f, 's, 'a> Resolver<'t, 'f, 's, 'a> {
    /// Resolves statements and appends them to `done`.
    #[cycle(statements)]
    pub(crate) fn resolve_body(
        &self,
        body: &'a [Stmt],
        done: &mut SlotBody,
        pool: &mut Pool,
    ) -> Result<()>
        ensures { IfOk result (λ _. Puts self.now (body_of self.now (body_view body.now)) done.old
            done.new pool.old pool.new) }
    {
        for statement in body {
            self.resolve_statement(statement, done, pool)?;
        }
        Ok(())
    }

    /// Resolves a statement and appends it to `done`.
    #[tactic(auto, using(crate::proofs::statement_views, crate::proofs::emits_nothing))]
    #[cycle(statements)]
    #[inline(never)]
    pub(crate) fn resolve_statement(
        &self,
        statement: &'a Stmt,
        done: &mut SlotBody,
        pool: &mut Pool,
    ) -> Result<()>
        ensures { IfOk result (λ _. PutsStmt self.now (stmt_view statement.now) done.old done.new
            pool.old pool.new) }
    {
        match statement {
            Stmt::Data(text) => self.put_data(text, done, pool),
            Stmt::Print(line, value) => self.resolve_print(*line, value, done, pool),
            Stmt::If(branches, other) => self.resolve_branches(branches, other, done, pool),
            Stmt::For {
                line,
                targets,
                over,
                condition,
                body,
                other,
            } => {
                let tag = ForTag {
                    line: *line,
                    names: targets,
                    over,
                    condition,
                };
                self.resolve_for(tag, body, other, done, pool)
            }
            Stmt::Set { .. } | Stmt::SetBlock { .. } => self.resolve_if_set(statement, done, pool),
            Stmt::With { line, values, body } => self.resolve_with(body, *line, values, done, pool),
            Stmt::FilterBlock {
                line,
                filters,
                body,
            } => self.resolve_filter_block(body, *line, filters, done, pool),
            Stmt::Autoescape { escaping, body, .. } => {
                self.resolve_escaping(body, *escaping, done, pool)
            }
            Stmt::Macro { .. } => Ok(()),
            Stmt::Import { .. } => Ok(()),
            Stmt::From { .. } => Ok(()),
            Stmt::Extends(_, _) => Ok(()),
            Stmt::Include {
                line,
                name,
                missing,
                names,
            } => self.put_include(*line, name, *missing, *names, done),
            Stmt::Block { name, scoped, .. } => self.put_block(name, *scoped, done),
        }
    }

    /// Resolves a statement if it sets names, and appends it to `done`.
    #[tactic(auto, using(crate::proofs::statement_views))]
    #[cycle(statements)]
    #[inline(never)]
    pub(crate) fn resolve_if_set(
        &self,
        statement: &'a Stmt,
        done: &mut SlotBody,
        pool: &mut Pool,
    ) -> Result<()>
        ensures { IfOk result (λ _. Puts self.now (if is_set (stmt_view statement.now) then stmt_of
            self.now (stmt_view statement.now) else slots.end) done.old done.new pool.old
            pool.new) }
    {
        match statement {
            Stmt::Set {
                line,
                targets: names,
                value,
            } => {
                let targets = self.set_targets(names)?;
                let given = self.resolve_expression(value, pool)?;
                put_assign(&self.senv, *line, targets, given, done)
            }
            Stmt::SetBlock { name, body, .. } => {
                self.resolve_text(body, self.set_slot(name), done, pool)
            }
            Stmt::Data(_)
            | Stmt::Print(_, _)
            | Stmt::If(_, _)
            | Stmt::For { .. }
            | Stmt::With { .. }
            | Stmt::FilterBlock { .. }
            | Stmt::Autoescape { .. }
            | Stmt::Macro { .. }
            | Stmt::Include { .. }
            | Stmt::Import { .. }
            | Stmt::From { .. }
            | Stmt::Extends(_, _)
            | Stmt::Block { .. } => Ok(()),
        }
    }

    /// Resolves a loop and its `else` part, and emits the loop.
    #[cycle(statements)]
    #[inline(never)]
    fn resolve_for(
        &self,
        tag: ForTag<'a>,
        body: &'a [Stmt],
        other: &'a [Stmt],
        done: &mut SlotBody,
        pool: &mut Pool,
    ) -> Result<()>
        ensures { IfOk result (λ _. PutsStmt self.now (trees.for_each tag.entry.line
            (names_view tag.entry.names.now) (expr_view tag.entry.over.now)
            (option_map expr_view tag.entry.condition.now) (body_view body.now)
            (body_view other.now)) done.old done.new pool.old pool.new) }
    {
        let turns = self.resolve_turns(body, tag, pool)?;
        let last = self.resolve_whole(other, pool)?;
        put_loop(&self.senv, tag.line, turns, last, done)
    }

    /// Resolves the branches of an `if` and its `else` part, and emits the `if`.
    #[cycle(statements)]
    #[inline(never)]
    fn resolve_branches(
        &self,
        branches: &'a [Branch<Stmt>],
        other: &'a [Stmt],
        done: &mut SlotBody,
        pool: &mut Pool,
    ) -> Result<()>
        ensures { IfOk result (λ _. PutsStmt self.now (trees.choose (branches_view branches.now)
            (body_view other.now)) done.old done.new pool.old pool.new) }
    {
        let mut made = Held {
            part: Vec::with_capacity(self.alloc, branches.len())?,
        };
        for branch in branches {
            put_branch(&mut made.part, self.resolve_branch(branch, pool)?)?;
        }
        let last = self.resolve_whole(other, pool)?;
        put_choice(made.into_part(), last, done)
    }

    /// Resolves a branch of an `if`.
    #[cycle(statements)]
    #[inline(never)]
    fn resolve_branch(
        &self,
        branch: &'a Branch<Stmt>,
        pool: &mut Pool,
    ) -> Result<SlotBranch<SlotStmt>>
        ensures { IfOk result (λ b. IsBranch (templates_of self.now)
            (line_of self.now branch.now.line) (expr_of self.now (expr_view branch.now.condition))
            (body_of self.now (body_view branch.now.body.items)) b (values pool.old)
            (values pool.new)) }
    {
        let asked = self.resolve_expression(&branch.condition, pool)?;
        let taken = self.resolve_whole(&branch.body, pool)?;
        Ok(SlotBranch {
            place: self.senv.place(branch.line),
            condition: asked,
            body: taken,
        })
    }

    /// Resolves the items of a loop, its condition and its body. The targets of the loop are in
    /// locals of their own.
    #[cycle(statements)]
    #[inline(never)]
    fn resolve_turns(
        &self,
        body: &'a [Stmt],
        tag: ForTag<'a>,
        pool: &mut Pool,
    ) -> Result<Held<Turns>>
        ensures { IfOk result (λ t. AreTurns self.now.tables.now (resolve.fresh_targets
            self.now.senv.free (names_view tag.entry.names.now))
            (required_of self.now (expr_view tag.entry.over.now)) (condition_in self.now.tables.now
            (option_map expr_view tag.entry.condition.now)
            (inside_of self.now (names_view tag.entry.names.now))) (scoped_of self.now
            (body_view body.now) (inside_of self.now (names_view tag.entry.names.now))) t.part
            (values pool.old) (values pool.new)) }
    {
        let inner = entered(self.alloc, &self.senv, names_of(self.alloc, tag.names)?)?;
        let inside = Resolver {
            senv: self.senv.inside(&inner),
            ..*self
        };
        let head = self.resolve_head(&inside, tag, pool)?;
        let mut turns = Held {
            part: Turns {
                head,
                body: Vec::new(self.alloc),
            },
        };
        inside.resolve_scoped(body, &mut turns.part.body, pool)?;
        Ok(turns)
    }

    /// Resolves the items of a loop, and its condition in the environment of its body.
    #[inline(never)]
    fn resolve_head(
        &self,
        inside: &Resolver<'t, 'f, '_, 'a>,
        tag: ForTag<'a>,
        pool: &mut Pool,
    ) -> Result<Box<LoopHead>>
        ensures { IfOk result (λ h. IsHead (resolve.fresh_targets self.now.senv.free
            (names_view tag.entry.names.now)) (required_of self.now (expr_view tag.entry.over.now))
            (condition_in inside.now.tables.now (option_map expr_view tag.entry.condition.now)
            (senv_of inside.now)) h.value (values pool.old) (values pool.new)) }
    {
        let targets = fresh_targets(self.alloc, self.senv.free, tag.names)?;
        let items = self.resolve_required(tag.over, pool)?;
        let condition = inside.resolve_condition(tag.condition, pool)?;
        let head = LoopHead {
            targets,
            items,
            condition,
        };
        Ok(Box::new(self.alloc, head)?)
    }

    /// Resolves the values of a `with` tag, and its body in a scope with their names.
    #[cycle(statements)]
    #[inline(never)]
    fn resolve_with(
        &self,
        body: &'a [Stmt],
        line: u32,
        pairs: &'a [(String, Expr)],
        done: &mut SlotBody,
        pool: &mut Pool,
    ) -> Result<()>
        ensures { IfOk result (λ _. PutsStmt self.now (trees.with_values line (pairs_view pairs.now)
            (body_view body.now)) done.old done.new pool.old pool.new) }
    {
        self.resolve_values(line, pairs, done, pool)?;
        self.resolve_within(body, keyword_names(self.alloc, pairs)?, done, pool)
    }

    /// Resolves a body whose text is captured in a local, and emits a print of that text after the
    /// filters.
    #[cycle(statements)]
    #[inline(never)]
    fn resolve_filter_block(
        &self,
        body: &'a [Stmt],
        line: u32,
        filters: &[FilterCall],
        done: &mut SlotBody,
        pool: &mut Pool,
    ) -> Result<()>
        ensures { IfOk result (λ _. PutsStmt self.now (trees.filter_block line
            (filter_calls_view filters.now) (body_view body.now)) done.old done.new pool.old
            pool.new) }
    {
        let kept = Slot::Local(self.senv.free);
        let mut inside = *self;
        inside.senv.free = checked_sum(self.senv.free, 1)?;
        inside.resolve_text(body, kept, done, pool)?;
        let shown = inside.resolve_filter_calls(filters, kept, pool)?;
        put_filtered(&self.senv, line, shown, done)
    }

    /// Resolves a body in a scope of its own and appends it. The scope keeps `names` in locals from
    /// the first free one on.
    #[cycle(statements)]
    #[inline(never)]
    pub(crate) fn resolve_within(
        &self,
        body: &'a [Stmt],
        names: Vec<&'a str>,
        done: &mut SlotBody,
        pool: &mut Pool,
    ) -> Result<()>
        ensures { IfOk result (λ _. Puts self.now (scoped_of self.now (body_view body.now)
            (inside_of self.now (texts names.entry.items))) done.old done.new pool.old pool.new) }
    {
        let inner = entered(self.alloc, &self.senv, names)?;
        let inside = Resolver {
            senv: self.senv.inside(&inner),
            ..*self
        };
        inside.resolve_scoped(body, done, pool)
    }

    /// Resolves a body in a scope of its own and appends it. Each name that the body sets begins
    /// with its value outside.
    #[cycle(statements)]
    #[inline(never)]
    fn resolve_scoped(&self, body: &'a [Stmt], done: &mut SlotBody, pool: &mut Pool) -> Result<()>
        ensures { IfOk result (λ _. Puts self.now (scoped_of self.now (body_view body.now)
            (senv_of self.now)) done.old done.new pool.old pool.new) }
    {
        let names = set_names(self.alloc, body)?;
        self.put_values(1, true, &names, Slot::Local(self.senv.free), done)?;
        let inner = entered(self.alloc, &self.senv, names)?;
        let inside = Resolver {
            senv: self.senv.inside(&inner),
            ..*self
        };
        inside.resolve_body(body, done, pool)
    }

    /// Resolves a body in the current scope and returns it.
    #[cycle(statements)]
    fn resolve_whole(&self, body: &'a [Stmt], pool: &mut Pool) -> Result<SlotBody>
        ensures { IfOk result (λ ss. Emits (templates_of self.now) (body_of self.now
            (body_view body.now)) [] ss.items (values pool.old) (values pool.new)) }
    {
        let mut done = Held {
            part: Vec::new(self.alloc),
        };
        self.resolve_body(body, &mut done.part, pool)?;
        Ok(done.into_part())
    }

    /// Resolves a body in a scope of its own and emits a capture of its text in a slot.
    #[cycle(statements)]
    #[inline(never)]
    fn resolve_text(
        &self,
        body: &'a [Stmt],
        slot: Slot,
        done: &mut SlotBody,
        pool: &mut Pool,
    ) -> Result<()>
        ensures { IfOk result (λ _. Puts self.now (resolve.alone (slots.capture
            self.now.senv.escaping (slot_view slot) (scoped_of self.now (body_view body.now)
            (senv_of self.now)))) done.old done.new pool.old pool.new) }
    {
        let mut text = Held {
            part: Vec::new(self.alloc),
        };
        self.resolve_scoped(body, &mut text.part, pool)?;
        put_capture(self.senv.escaping, slot, text.into_part(), done)
    }

    /// Resolves a body in a scope and an autoescape state of its own, and appends it.
    #[cycle(statements)]
    #[inline(never)]
    fn resolve_escaping(
        &self,
        body: &'a [Stmt],
        escaping: bool,
        done: &mut SlotBody,
        pool: &mut Pool,
    ) -> Result<()>
        ensures { IfOk result (λ _. Puts self.now (scoped_of self.now (body_view body.now)
            (record (senv_of self.now) { escaping = escaping })) done.old done.new pool.old
            pool.new) }
    {
        let mut inside = *self;
        inside.senv.escaping = escaping;
        inside.resolve_scoped(body, done, pool)
    }

    /// Resolves a value and emits a print of it.
    #[inline(never)]
    fn resolve_print(
        &self,
        line: u32,
        value: &Expr,
        done: &mut SlotBody,
        pool: &mut Pool,
    ) -> Result<()>
        ensures { IfOk result (λ _. PutsStmt self.now (trees.print line (expr_view value.now))
            done.old done.new pool.old pool.new) }
    {
        let shown = self.resolve_expression(value, pool)?;
        self.put_print(line, shown, self.is_strict(), done)
    }

    /// Resolves the condition of a loop, if it has one.
    #[inline(never)]
    fn resolve_condition(
        &self,
        condition: &Option<Expr>,
        pool: &mut Pool,
    ) -> Result<Option<SlotExpr>>
        ensures { IfOk result (λ k. IsAsked (condition_in self.now.tables.now (option_map expr_view
            condition.now) (senv_of self.now)) k (values pool.old) (values pool.new)) }
    {
        match condition {
            Some(condition) => Ok(Some(self.resolve_expression(condition, pool)?)),
            None => Ok(None),
        }
    }

    /// Resolves the values of a `with` tag and stores each in a local. All values are resolved
    /// outside the scope of the tag.
    #[inline(never)]
    fn resolve_values(
        &self,
        line: u32,
        pairs: &[(String, Expr)],
        done: &mut SlotBody,
        pool: &mut Pool,
    ) -> Result<()>
        ensures { IfOk result (λ _. Puts self.now (values_of self.now (pairs_view pairs.now) line
            slots.end) done.old done.new pool.old pool.new) }
    {
        let mut senv = self.senv;
        for (_, value) in pairs {
            let here = Resolver { senv, ..*self };
            let given = here.resolve_expression(value, pool)?;
            let target = Targets::One(Slot::Local(senv.free));
            put_assign(&senv, line, target, given, done)?;
            senv.free = checked_sum(senv.free, 1)?;
        }
        Ok(())
    }
}
