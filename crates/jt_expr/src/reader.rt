//! Reads a form without recursion: the forms that wait for a tree lie on a stack.
//!
//! specs/internal/Unwinding.antt defines how the remaining tokens are read after each move. Read
//! first: `read_within`.

ghost use Rattle.std.specs.Prelude.{◌≡◌, ◌≤◌, ◌^◌, length};
ghost use Rattle.jt_expr.specs.Cursor.{ahead};
ghost use Rattle.jt_expr.specs.Promises.{tree_of};
ghost use Rattle.jt_expr.specs.internal.Gives.{ReadsBy, by_rule, form_of};
ghost use Rattle.jt_expr.specs.internal.Moves as moves;
ghost use Rattle.jt_expr.specs.internal.Pending.{GivesMove, Proper, complete, forms_of, goal_of};
ghost use Rattle.jt_expr.specs.internal.Pending.{form_view, level_view, move_view, nests, waits};
ghost use Rattle.jt_expr.specs.internal.Unwinding.{Falls, GivesProgress, outcome_of, steps_left};

use crate::cursor::Cursor;
use crate::error::ExprError;
use crate::grammar::Grammar;
use crate::part::LeveledExpr;
use crate::pending::{Level, Pending, Progress, Reader, Step};
use crate::rows::NestedForm;
use std::alloc::Global;

impl<'a> Reader<'a> {
    /// Returns the rules for the innermost form.
    fn rules(&self) -> Grammar
        ensures { result.below ≡ self.now.below }
    {
        Grammar {
            alloc: self.alloc,
            below: self.below,
        }
    }

    /// Returns the level of the tree that is being read.
    fn goal(&self) -> Level
        ensures { level_view result
            ≡ goal_of (level_view self.now.entry) (forms_of self.now.pending.items) }
    {
        match self.pending.last() {
            Some(form) => form.awaited(),
            None => self.entry,
        }
    }

    /// Begins the tree that the innermost form waits for.
    fn begin(&self, cursor: &mut Cursor<'a>) -> Result<Step<'a>, ExprError>
        ensures { GivesMove (by_rule moves.begin self.now.below
            (goal_of (level_view self.now.entry) (forms_of self.now.pending.items))
            (ahead cursor.old)) result (ahead cursor.new) }
    {
        self.rules().begin(cursor, self.goal())
    }

    /// Pushes a form that waits for a tree inside the same nested form.
    fn wait(
        &mut self,
        cursor: &mut Cursor<'a>,
        form: Pending<'a>,
    ) -> Result<Progress<'a>, ExprError>
        requires { Proper (waits (form_view form)) }
        ensures gives { GivesProgress (outcome_of self.old (waits (form_view form.entry))
            (ahead cursor.old)) result self.new (ahead cursor.new) }
        ensures falls { Falls (steps_left (length self.old.pending.items)
            (waits (form_view form.entry)) (ahead cursor.old)) result self.new
            (ahead cursor.new) }
    {
        self.pending.push(form)?;
        Ok(Progress::Moved(self.begin(cursor)?))
    }

    /// Pushes a form that waits for a tree that is one level deeper.
    fn nest(
        &mut self,
        cursor: &mut Cursor<'a>,
        form: Pending<'a>,
    ) -> Result<Progress<'a>, ExprError>
        requires { Proper (nests (form_view form)) }
        ensures gives { GivesProgress (outcome_of self.old (nests (form_view form.entry))
            (ahead cursor.old)) result self.new (ahead cursor.new) }
        ensures falls { Falls (steps_left (length self.old.pending.items)
            (nests (form_view form.entry)) (ahead cursor.old)) result self.new
            (ahead cursor.new) }
    {
        if self.below == 0 {
            drop(form);
            return Err(ExprError::TooDeep);
        }
        self.below -= 1;
        self.pending.push(form)?;
        Ok(Progress::Moved(self.begin(cursor)?))
    }

    /// Passes a complete tree to a looser level, which the next token continues if one does, or to
    /// the innermost form.
    fn complete(
        &mut self,
        cursor: &mut Cursor<'a>,
        level: Level,
        tree: LeveledExpr,
    ) -> Result<Progress<'a>, ExprError>
        ensures gives { GivesProgress (outcome_of self.old (complete (level_view level)
            (tree_of tree)) (ahead cursor.old)) result self.new (ahead cursor.new) }
        ensures falls { Falls (steps_left (length self.old.pending.items)
            (complete (level_view level) (tree_of tree)) (ahead cursor.old)) result self.new
            (ahead cursor.new) }
    {
        let goal = self.goal();
        if !level.admits(goal) {
            let next = level.towards(cursor.continued(), goal);
            return Ok(Progress::Moved(Step::Grown(next, tree)));
        }
        let Some(form) = self.pending.pop() else {
            return Ok(Progress::Done(tree));
        };
        self.below += form.deeper();
        Ok(Progress::Moved(self.rules().resume(cursor, form, tree)?))
    }

    /// Makes one move.
    fn advance(
        &mut self,
        cursor: &mut Cursor<'a>,
        step: Step<'a>,
    ) -> Result<Progress<'a>, ExprError>
        requires { Proper (move_view step) }
        ensures gives { GivesProgress (outcome_of self.old (move_view step.entry)
            (ahead cursor.old)) result self.new (ahead cursor.new) }
        ensures falls { Falls (steps_left (length self.old.pending.items) (move_view step.entry)
            (ahead cursor.old)) result self.new (ahead cursor.new) }
    {
        match step {
            Step::Grown(level, tree) => {
                let step = self.rules().grow(cursor, level, tree)?;
                Ok(Progress::Moved(step))
            }
            Step::Complete(level, tree) => self.complete(cursor, level, tree),
            Step::Wait(form) => self.wait(cursor, form),
            Step::Nest(form) => self.nest(cursor, form),
        }
    }
}

/// Reads a form of at most `limit` levels from the next tokens.
///
/// # Errors
///
/// - `Syntax` if the tokens do not begin with such a form.
/// - `TooDeep` if each such form has more than `limit` levels.
/// - `NoMemory` if a growth is refused.
pub(crate) fn read_within(
    alloc: Global,
    cursor: &mut Cursor<'_>,
    limit: usize,
    form: NestedForm,
) -> Result<LeveledExpr, ExprError>
    requires { limit ≤ 2 ^ 32 }
    ensures { ReadsBy (form_of limit form) cursor.old result cursor.new }
{
    if limit == 0 {
        return Err(ExprError::TooDeep);
    }
    let mut reader = Reader {
        alloc,
        entry: form.level(),
        below: limit - 1,
        pending: Vec::new(alloc),
    };
    let mut step = reader.begin(cursor)?;
    'moves: loop {
        step = match reader.advance(cursor, step)? {
            Progress::Moved(next) => next,
            Progress::Done(tree) => return Ok(tree),
        };
    }
}
