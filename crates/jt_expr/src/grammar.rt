//! Builds trees from their parts within a limit on levels, and reads the arguments of filters.
//!
//! Read first: `Grammar`, then moves.rt.

ghost use Rattle.std.specs.Prelude.{◌≡◌, ◌<◌, ◌^◌, length};
ghost use Rattle.std.specs.Str.{chars};
ghost use Rattle.jt_ast.specs.Expressions as trees;
ghost use Rattle.jt_ast.specs.ExpressionView.{is_negated, literal_view};
ghost use Rattle.jt_expr.specs.internal.Reading as spec;
ghost use Rattle.jt_expr.specs.Grammar as grammar;
ghost use Rattle.jt_expr.specs.internal.Elements as elements;
ghost use Rattle.jt_expr.specs.Cursor.{ahead};
ghost use Rattle.jt_ast.specs.Expressions.{levels};
ghost use Rattle.jt_expr.specs.Grammar.{Spells, Arguments};
ghost use Rattle.jt_expr.specs.Promises.{Reads, EndsAt, OpensNone, parts_levels};
ghost use Rattle.jt_expr.specs.Promises.{level_of_form, parts_view, tree_of};
ghost use Rattle.jt_expr.specs.internal.Gives.{Gives, GivesParts, GivesKeyed, GivesElement};
ghost use Rattle.jt_expr.specs.internal.Gives.{GivesKey, GivesPartKey};
ghost use Rattle.jt_expr.specs.internal.Gives.{Around, Builds, Fits, row_view, bytes_of, rows_of};
ghost use Rattle.jt_expr.specs.internal.Gives.{named_of};
ghost use Rattle.jt_expr.specs.internal.Gives.{by_rule, FollowsParts};

use crate::builders;
use crate::cursor::Cursor;
use crate::error::ExprError;
use crate::part::{LeveledExpr, LeveledList};
use crate::reader::read_within;
use crate::rows::{KeyedExpr, ListElement, NestedForm, SequenceKind};
use crate::words::{is_reserved, literal_of};
use jt_ast::{BinaryOperator, Literal, Polarity, UnaryOperator};
use jt_scan::{Sign, text_value};
use std::alloc::Global;

/// The rules of the grammar for one nested form.
#[derive(Drop)]
pub struct Grammar {
    pub alloc: Global,
    /// The greatest number of levels that a form inside it may have.
    pub below: usize,
    ghost small: { below < 2 ^ 32 },
}

impl Grammar {
    /// Returns the levels of a form whose parts have `inside` levels, and refuses too many of them.
    fn around(&self, inside: usize) -> Result<usize, ExprError>
        ensures { Around self.now.below inside result }
    {
        if inside > self.below {
            return Err(ExprError::TooDeep);
        }
        Ok(inside + 1)
    }

    /// Builds a constant.
    pub(crate) fn constant(&self, literal: Literal) -> Result<LeveledExpr, ExprError>
        ensures { Builds (trees.constant (literal_view literal)) result }
    {
        let expr = builders::make_constant(self.alloc, literal)?;
        Ok(LeveledExpr { expr, height: 1 })
    }

    /// Builds `(a)`.
    pub(crate) fn group(&self, value: LeveledExpr) -> Result<LeveledExpr, ExprError>
        ensures { Fits self.now.below (trees.group (tree_of value)) result }
    {
        let height = self.around(value.height)?;
        let expr = builders::make_group(self.alloc, value.expr)?;
        Ok(LeveledExpr { expr, height })
    }

    /// Builds a list.
    pub(crate) fn list(&self, parts: LeveledList) -> Result<LeveledExpr, ExprError>
        ensures { Fits self.now.below (trees.list_of (rows_of parts)) result }
    {
        let height = self.around(parts.items_height)?;
        let expr = builders::make_list(self.alloc, parts.items)?;
        Ok(LeveledExpr { expr, height })
    }

    /// Builds a map.
    pub(crate) fn map(&self, parts: LeveledList) -> Result<LeveledExpr, ExprError>
        ensures { Fits self.now.below (trees.map_of (named_of parts)) result }
    {
        let height = self.around(parts.pairs_height)?;
        let expr = builders::make_map(self.alloc, parts.pairs)?;
        Ok(LeveledExpr { expr, height })
    }

    /// Builds `a.k`.
    pub(crate) fn attribute(&self, value: LeveledExpr, name: &str) -> Result<LeveledExpr, ExprError>
        ensures { Fits self.now.below (trees.attribute (tree_of value) (bytes_of name.now)) result }
    {
        let height = self.around(value.height)?;
        let expr = builders::make_attribute(self.alloc, value.expr, name)?;
        Ok(LeveledExpr { expr, height })
    }

    /// Builds `a[b]`.
    pub(crate) fn item(
        &self,
        value: LeveledExpr,
        index: LeveledExpr,
    ) -> Result<LeveledExpr, ExprError>
        ensures { Fits self.now.below (trees.item (tree_of value) (tree_of index)) result }
    {
        let height = self.around(value.height.max(index.height))?;
        let expr = builders::make_item(self.alloc, value.expr, index.expr)?;
        Ok(LeveledExpr { expr, height })
    }

    /// Builds `a(..)`.
    pub(crate) fn call(
        &self,
        value: LeveledExpr,
        arguments: LeveledList,
    ) -> Result<LeveledExpr, ExprError>
        ensures { Fits self.now.below
            (trees.call (tree_of value) (rows_of arguments) (named_of arguments)) result }
    {
        let height = self.around(value.height.max(arguments.height()))?;
        let expr = builders::make_call(self.alloc, value.expr, arguments)?;
        Ok(LeveledExpr { expr, height })
    }

    /// Builds `a|f(..)`.
    pub(crate) fn filter(
        &self,
        value: LeveledExpr,
        name: &str,
        arguments: LeveledList,
    ) -> Result<LeveledExpr, ExprError>
        ensures { Fits self.now.below (trees.filter (tree_of value) (bytes_of name.now)
            (rows_of arguments) (named_of arguments)) result }
    {
        let height = self.around(value.height.max(arguments.height()))?;
        let expr = builders::make_filter(self.alloc, value.expr, name, arguments)?;
        Ok(LeveledExpr { expr, height })
    }

    /// Builds `a is t(..)` or `a is not t(..)`.
    pub(crate) fn test(
        &self,
        value: LeveledExpr,
        polarity: Polarity,
        name: &str,
        arguments: LeveledList,
    ) -> Result<LeveledExpr, ExprError>
        ensures { Fits self.now.below (trees.test (tree_of value) (is_negated polarity)
            (bytes_of name.now) (rows_of arguments) (named_of arguments)) result }
    {
        let height = self.around(value.height.max(arguments.height()))?;
        let expr = builders::make_test(self.alloc, value.expr, polarity, name, arguments)?;
        Ok(LeveledExpr { expr, height })
    }

    /// Builds a prefix operator with its operand.
    pub(crate) fn unary(
        &self,
        op: UnaryOperator,
        operand: LeveledExpr,
    ) -> Result<LeveledExpr, ExprError>
        ensures { Fits self.now.below (trees.unary op (tree_of operand)) result }
    {
        let height = self.around(operand.height)?;
        let expr = builders::make_unary(self.alloc, op, operand.expr)?;
        Ok(LeveledExpr { expr, height })
    }

    /// Builds an infix operator with its operands.
    pub(crate) fn binary(
        &self,
        op: BinaryOperator,
        left: LeveledExpr,
        right: LeveledExpr,
    ) -> Result<LeveledExpr, ExprError>
        ensures { Fits self.now.below (trees.binary op (tree_of left) (tree_of right)) result }
    {
        let height = self.around(left.height.max(right.height))?;
        let expr = builders::make_binary(self.alloc, op, left.expr, right.expr)?;
        Ok(LeveledExpr { expr, height })
    }

    /// Builds `a if c`.
    pub(crate) fn when(
        &self,
        condition: LeveledExpr,
        value: LeveledExpr,
    ) -> Result<LeveledExpr, ExprError>
        ensures { Fits self.now.below (trees.when (tree_of condition) (tree_of value)) result }
    {
        let height = self.around(condition.height.max(value.height))?;
        let expr = builders::make_when(self.alloc, condition.expr, value.expr)?;
        Ok(LeveledExpr { expr, height })
    }

    /// Builds `a if c else b`.
    pub(crate) fn choice(
        &self,
        condition: LeveledExpr,
        value: LeveledExpr,
        other: LeveledExpr,
    ) -> Result<LeveledExpr, ExprError>
        ensures { Fits self.now.below
            (trees.choice (tree_of condition) (tree_of value) (tree_of other)) result }
    {
        let height = self.around(condition.height.max(value.height.max(other.height)))?;
        let expr = builders::make_choice(self.alloc, condition.expr, value.expr, other.expr)?;
        Ok(LeveledExpr { expr, height })
    }

    /// Reads the key of a part, if it has one.
    fn key(&self, cursor: &mut Cursor<'_>, row: SequenceKind) -> Result<Option<String>, ExprError>
        ensures { GivesKey (spec.key_at (row_view row) (ahead cursor.old)) (ahead cursor.old) result
            (ahead cursor.new) }
    {
        match row {
            SequenceKind::Items => Ok(None),
            SequenceKind::Entries => match cursor.entry_key() {
                Some(raw) => Ok(Some(text_value(self.alloc, raw)?)),
                None => Ok(None),
            },
            SequenceKind::Arguments | SequenceKind::Keywords => match cursor.keyword() {
                Some(name) => Ok(Some(builders::copy_of(self.alloc, name)?)),
                None => Ok(None),
            },
        }
    }

    /// Reads the key of a part, and refuses a part without a key if it needs one.
    pub(crate) fn part_key(
        &self,
        cursor: &mut Cursor<'_>,
        row: SequenceKind,
    ) -> Result<Option<String>, ExprError>
        ensures { GivesPartKey (row_view row) (ahead cursor.old) result (ahead cursor.new) }
    {
        let key = self.key(cursor, row)?;
        if key.is_none() && !row.takes_plain() {
            return Err(ExprError::Syntax);
        }
        Ok(key)
    }

    /// Reads one part of a sequence.
    #[tactic(auto, unfolding(crate::specs::internal::Reading::part))]
    fn part(&self, cursor: &mut Cursor<'_>, row: SequenceKind) -> Result<KeyedExpr, ExprError>
        ensures { GivesKeyed (by_rule spec.part self.now.below (row_view row) (ahead cursor.old))
            result (ahead cursor.new) }
    {
        let key = self.part_key(cursor, row)?;
        let part = read_within(self.alloc, cursor, self.below, NestedForm::Whole)?;
        Ok(KeyedExpr { key, part })
    }

    /// Reads one element of a sequence, with the sign after it.
    #[tactic(auto, unfolding(crate::specs::internal::Elements::element, crate::specs::internal::Reading::expect))]
    fn element(&self, cursor: &mut Cursor<'_>, row: SequenceKind) -> Result<ListElement, ExprError>
        ensures { GivesElement (by_rule elements.element self.now.below (row_view row)
            (ahead cursor.old)) result (ahead cursor.new) }
    {
        if cursor.eat(row.closer()) {
            return Ok(ListElement::Closed);
        }
        let keyed = self.part(cursor, row)?;
        if cursor.eat(Sign::Comma) {
            return Ok(ListElement::Further(keyed));
        }
        if !cursor.eat(row.closer()) {
            return Err(ExprError::Syntax);
        }
        Ok(ListElement::Last(keyed))
    }

    /// Reads a sequence up to its closing sign.
    fn row(&self, cursor: &mut Cursor<'_>, first: SequenceKind) -> Result<LeveledList, ExprError>
        ensures { GivesParts (by_rule spec.row self.now.below (length (ahead cursor.old))
            (row_view first) (ahead cursor.old)) result (ahead cursor.new) }
    {
        let mut found = LeveledList::new(self.alloc);
        let mut row = first;
        for _turn in 0..cursor.left() {
            match self.element(cursor, row)? {
                ListElement::Closed => return Ok(found),
                ListElement::Last(keyed) => {
                    found.push(keyed)?;
                    return Ok(found);
                }
                ListElement::Further(keyed) => {
                    row = row.behind_key(&keyed.key);
                    found.push(keyed)?;
                }
            }
        }
        Err(ExprError::Syntax)
    }

    /// Builds the constant or the name that a word spells.
    pub(crate) fn word(&self, cursor: &mut Cursor<'_>, word: &str) -> Result<LeveledExpr, ExprError>
        ensures { Gives (by_rule spec.word_by self.now.below (grammar.literal_of (chars word.now))
            (chars word.now) (ahead cursor.old)) result (ahead cursor.new) }
    {
        if let Some(literal) = literal_of(word) {
            return Ok(LeveledExpr {
                expr: builders::make_constant(self.alloc, literal)?,
                height: 1,
            });
        }
        if is_reserved(word) {
            return Err(ExprError::Syntax);
        }
        Ok(LeveledExpr {
            expr: builders::make_name(self.alloc, word)?,
            height: 1,
        })
    }

    /// Reads the arguments of a filter in parentheses, if there are any.
    #[tactic(auto, unfolding(crate::specs::internal::Reading::arguments_at))]
    fn arguments(&self, cursor: &mut Cursor<'_>) -> Result<LeveledList, ExprError>
        ensures { FollowsParts spec.arguments_at self.now.below cursor.old result cursor.new }
    {
        if cursor.eat(Sign::LeftParen) {
            self.row(cursor, SequenceKind::Arguments)
        } else {
            Ok(LeveledList::new(self.alloc))
        }
    }
}

/// Reads a form of at most `limit` levels from the next tokens.
///
/// # Errors
///
/// - `Syntax` if the tokens do not begin with such a form.
/// - `TooDeep` if each such form has more than `limit` levels.
/// - `NoMemory` if a growth is refused.
pub fn read(
    alloc: Global,
    cursor: &mut Cursor<'_>,
    limit: u8,
    form: NestedForm,
) -> Result<LeveledExpr, ExprError>
    ensures promises { Reads tree_of (Spells (level_of_form form)) (EndsAt (level_of_form form))
        levels limit (ahead cursor.old) result (ahead cursor.new) }
{
    read_within(alloc, cursor, usize::from(limit), form)
}

/// Reads the arguments of a filter in parentheses, if there are any. Each has at most `limit`
/// levels.
///
/// # Errors
///
/// - `Syntax` if the tokens after a `(` are no arguments.
/// - `TooDeep` if an argument has more than `limit` levels.
/// - `NoMemory` if a growth is refused.
pub fn arguments(
    alloc: Global,
    cursor: &mut Cursor<'_>,
    limit: u8,
) -> Result<LeveledList, ExprError>
    ensures promises { Reads parts_view Arguments OpensNone parts_levels limit (ahead cursor.old)
        result (ahead cursor.new) }
{
    Grammar {
        alloc,
        below: usize::from(limit),
    }
    .arguments(cursor)
}
