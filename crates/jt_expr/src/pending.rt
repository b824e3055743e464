//! Defines the precedence levels, the forms that wait for a tree, and the moves of a reader.

ghost use Rattle.std.specs.Prelude.{◌≡◌, ◌<◌, ◌+◌, ◌^◌, nat_le};
ghost use Rattle.jt_expr.specs.internal.Pending.{awaited, deeper, depth, form_view, forms_of};
ghost use Rattle.jt_expr.specs.internal.Pending.{level_view};
ghost use Rattle.jt_expr.specs.internal.Pending.{Leads, looser, owned, owner_view, rank};
ghost use Rattle.jt_expr.specs.internal.Pending as pending;
ghost use Rattle.jt_expr.specs.Grammar.{next};
ghost use Rattle.jt_expr.specs.Promises.{level_of_form};

use crate::part::{LeveledExpr, LeveledList};
use crate::rows::{NestedForm, SequenceKind};
use jt_ast::{BinaryOperator, Polarity, UnaryOperator};
use std::alloc::Global;

/// A precedence level of the grammar. The tightest one is first.
#[derive(Clone, Copy)]
pub enum Level {
    Postfix,
    Signed,
    Postscript,
    Power,
    Product,
    Concatenation,
    Sum,
    Comparison,
    Inversion,
    Conjunction,
    Disjunction,
    Whole,
}

impl Level {
    /// Returns the number of tighter levels.
    fn rank(self) -> u8
        ensures { result ≡ rank (level_view self) }
    {
        self as u8
    }

    /// Returns whether the level is not tighter than the other one.
    pub(crate) fn admits(self, other: Level) -> bool
        ensures { result ≡ nat_le (rank (level_view other)) (rank (level_view self)) }
    {
        other.rank() <= self.rank()
    }

    /// Returns the next looser level.
    fn looser(self) -> Level
        ensures { level_view result ≡ looser (level_view self) }
    {
        match self {
            Level::Postfix => Level::Signed,
            Level::Signed => Level::Postscript,
            Level::Postscript => Level::Power,
            Level::Power => Level::Product,
            Level::Product => Level::Concatenation,
            Level::Concatenation => Level::Sum,
            Level::Sum => Level::Comparison,
            Level::Comparison => Level::Inversion,
            Level::Inversion => Level::Conjunction,
            Level::Conjunction => Level::Disjunction,
            Level::Disjunction | Level::Whole => Level::Whole,
        }
    }

    /// Returns a looser level, at most `goal`. It skips levels that are tighter than `continued`,
    /// the level that the next token continues.
    pub(crate) fn towards(self, continued: Level, goal: Level) -> Level
        requires { rank (level_view self) < rank (level_view goal) }
        ensures { Leads (level_view self) (level_view continued) (level_view goal)
            (level_view result) }
    {
        let next = self.looser();
        let farthest = if continued.admits(goal) {
            goal
        } else {
            continued
        };
        if farthest.admits(next) {
            farthest
        } else {
            next
        }
    }

    /// Returns the level of the operands of a level's operators.
    fn operand(self) -> Level
        ensures { level_view result ≡ next (level_view self) }
    {
        match self {
            Level::Whole => Level::Disjunction,
            Level::Disjunction => Level::Conjunction,
            Level::Conjunction => Level::Inversion,
            Level::Inversion => Level::Comparison,
            Level::Comparison => Level::Sum,
            Level::Sum => Level::Concatenation,
            Level::Concatenation => Level::Product,
            Level::Product => Level::Power,
            Level::Power => Level::Postscript,
            Level::Postscript => Level::Signed,
            Level::Signed | Level::Postfix => Level::Postfix,
        }
    }
}

impl NestedForm {
    /// Returns the level of the form.
    pub(crate) fn level(self) -> Level
        ensures { level_view result ≡ level_of_form self }
    {
        match self {
            NestedForm::Whole => Level::Whole,
            NestedForm::Disjunction => Level::Disjunction,
            NestedForm::Inversion => Level::Inversion,
            NestedForm::Signed => Level::Signed,
            NestedForm::Postfix => Level::Postfix,
        }
    }
}

/// Returns the level of a prefix operator and of its operand.
pub(crate) fn prefix_level(op: UnaryOperator) -> Level
    ensures { level_view result ≡ pending.prefix_level op }
{
    match op {
        UnaryOperator::Not => Level::Inversion,
        UnaryOperator::Negate | UnaryOperator::Plus => Level::Signed,
    }
}

/// The form that the parts of a sequence belong to.
#[derive(Drop)]
pub enum Owner<'a> {
    List,
    Map,
    Call(LeveledExpr),
    Filter(LeveledExpr, &'a str),
    Test(LeveledExpr, Polarity, &'a str),
}

impl Owner<'_> {
    /// Returns the level of the form.
    pub(crate) fn level(&self) -> Level
        ensures { level_view result ≡ owned (owner_view self.now) }
    {
        match self {
            Owner::List | Owner::Map | Owner::Call(_) => Level::Postfix,
            Owner::Filter(..) | Owner::Test(..) => Level::Postscript,
        }
    }
}

/// A sequence in brackets that is being read.
#[derive(Drop)]
pub struct Sequence<'a> {
    pub owner: Owner<'a>,
    pub kind: SequenceKind,
    /// The greatest number of elements that may follow.
    pub turns: usize,
    /// The parts that were read.
    pub found: LeveledList,
}

/// A form that waits for a tree.
#[derive(Drop)]
pub enum Pending<'a> {
    /// An expression in parentheses.
    Group,
    /// A sequence that waits for a part, and the key of that part.
    Part(Sequence<'a>, Option<String>),
    /// A value that waits for its index.
    Item(LeveledExpr),
    /// A prefix operator that waits for its operand.
    Prefix(UnaryOperator),
    /// A test that waits for its argument, which has no parentheses.
    Argument(LeveledExpr, Polarity, &'a str),
    /// The value and the condition of an inline `if` that waits for its `else` part.
    Else(LeveledExpr, LeveledExpr),
    /// An operator of the level that waits for its right operand.
    Operand(Level, BinaryOperator, LeveledExpr),
    /// The value of an inline `if` that waits for its condition.
    Condition(LeveledExpr),
}

impl<'a> Pending<'a> {
    /// Returns the level of the tree that the form waits for.
    pub(crate) fn awaited(&self) -> Level
        ensures { level_view result ≡ awaited (form_view self.now) }
    {
        match self {
            Pending::Prefix(op) => prefix_level(*op),
            Pending::Argument(..) => Level::Postfix,
            Pending::Operand(level, ..) => level.operand(),
            Pending::Condition(_) => Level::Disjunction,
            Pending::Group | Pending::Part(..) | Pending::Item(_) | Pending::Else(..) => {
                Level::Whole
            }
        }
    }

    /// Returns the number of levels that the awaited tree is deeper: 0 or 1.
    pub(crate) fn deeper(&self) -> usize
        ensures { result ≡ deeper (form_view self.now) }
    {
        match self {
            Pending::Operand(..) | Pending::Condition(_) => 0,
            _ => 1,
        }
    }
}

/// A move of a reader.
#[derive(Drop)]
pub enum Step<'a> {
    /// A tree of the level, which the next tokens may extend.
    Grown(Level, LeveledExpr),
    /// A tree of the level, which the next tokens do not extend.
    Complete(Level, LeveledExpr),
    /// A form that waits for a tree inside the same nested form.
    Wait(Pending<'a>),
    /// A form that waits for a tree that is one level deeper.
    Nest(Pending<'a>),
}

/// The result of one step of a reader.
#[derive(Drop)]
pub enum Progress<'a> {
    /// The next move.
    Moved(Step<'a>),
    /// The tree of the outermost form.
    Done(LeveledExpr),
}

/// A reader of one form, and the forms inside it that are not finished.
#[derive(Drop)]
pub struct Reader<'a> {
    pub alloc: Global,
    /// The level of the outermost form.
    pub entry: Level,
    /// The greatest number of levels that a form inside the innermost one may have.
    pub below: usize,
    /// The forms that wait for a tree. The innermost one is the last one.
    pub pending: Vec<Pending<'a>>,
    ghost bounded: { below + depth (forms_of pending.items) < 2 ^ 32 },
}
