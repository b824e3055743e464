//! Defines the nested forms, and the sequences of parts in brackets.

ghost use Rattle.std.specs.Prelude.{◌≡◌, OnOk, Some, None, option_map, string_bytes};
ghost use Rattle.jt_expr.specs.Grammar as grammar;
ghost use Rattle.jt_ast.specs.ExpressionView.{expr_view};
ghost use Rattle.jt_expr.specs.Promises.{parts_levels, parts_view};
ghost use Rattle.jt_expr.specs.internal.Gives.{row_view, keyed_view};
ghost use Rattle.jt_expr.specs.internal.Collecting.{then_part};

use crate::part::{LeveledExpr, LeveledList};
use jt_scan::Sign;
use std::alloc::{AllocError, Global};

/// An expression, with its key if it has one.
#[derive(Drop)]
pub struct KeyedExpr {
    pub key: Option<String>,
    pub part: LeveledExpr,
}

impl LeveledList {
    pub(crate) fn new(alloc: Global) -> LeveledList
        ensures { parts_view result ≡ grammar.no_parts }
    {
        LeveledList {
            items: Vec::new(alloc),
            pairs: Vec::new(alloc),
            items_height: 0,
            pairs_height: 0,
        }
    }

    /// Returns the greatest number of levels of the parts.
    pub(crate) fn height(&self) -> usize
        ensures { result ≡ parts_levels (parts_view self.now) }
    {
        self.items_height.max(self.pairs_height)
    }

    /// Appends a part without a key.
    fn push_item(&mut self, part: LeveledExpr) -> Result<(), AllocError>
        ensures { OnOk result (parts_view self.new
            ≡ then_part (parts_view self.old) (None, expr_view part.expr.value)) }
    {
        let LeveledExpr { expr, height } = part;
        self.items.push(Box::into_inner(expr))?;
        self.items_height = self.items_height.max(height);
        Ok(())
    }

    /// Appends a part with a key.
    fn push_pair(&mut self, key: String, part: LeveledExpr) -> Result<(), AllocError>
        ensures { OnOk result (parts_view self.new
            ≡ then_part (parts_view self.old)
            (Some (string_bytes key), expr_view part.expr.value)) }
    {
        let LeveledExpr { expr, height } = part;
        self.pairs.push((key, Box::into_inner(expr)))?;
        self.pairs_height = self.pairs_height.max(height);
        Ok(())
    }

    /// Appends a part.
    pub(crate) fn push(&mut self, added: KeyedExpr) -> Result<(), AllocError>
        ensures { OnOk result
            (parts_view self.new ≡ then_part (parts_view self.old) (keyed_view added)) }
    {
        let KeyedExpr { key, part } = added;
        match key {
            Some(key) => self.push_pair(key, part),
            None => self.push_item(part),
        }
    }
}

/// One element of a sequence, and whether the sequence continues.
#[derive(Drop)]
pub enum ListElement {
    /// The closing sign alone.
    Closed,
    /// The last part and the closing sign.
    Last(KeyedExpr),
    /// A part and a comma.
    Further(KeyedExpr),
}

/// A form that is read one level deeper.
#[derive(Clone, Copy)]
pub enum NestedForm {
    Whole,
    Disjunction,
    Inversion,
    Signed,
    Postfix,
}

/// The kind of a sequence in brackets.
#[derive(Clone, Copy)]
pub enum SequenceKind {
    /// The items of a list.
    Items,
    /// The entries of a map.
    Entries,
    /// The arguments of a call, filter or test.
    Arguments,
    /// The arguments after a keyword argument.
    Keywords,
}

impl SequenceKind {
    /// Returns the closing sign of the sequence.
    pub(crate) fn closer(self) -> Sign
        ensures { result ≡ grammar.closer (row_view self) }
    {
        match self {
            SequenceKind::Items => Sign::RightBracket,
            SequenceKind::Entries => Sign::RightBrace,
            SequenceKind::Arguments | SequenceKind::Keywords => Sign::RightParen,
        }
    }

    /// Returns whether the sequence may have parts without a key.
    pub(crate) fn takes_plain(self) -> bool
        ensures { result ≡ grammar.takes_plain (row_view self) }
    {
        matches!(self, SequenceKind::Items | SequenceKind::Arguments)
    }

    /// Returns the kind of the rest of the sequence after a part with this key.
    pub(crate) fn behind_key(self, key: &Option<String>) -> SequenceKind
        ensures { row_view result
            ≡ grammar.behind_key (row_view self) (option_map string_bytes key.now) }
    {
        match (self, key) {
            (SequenceKind::Arguments, Some(_)) => SequenceKind::Keywords,
            (row, _) => row,
        }
    }
}
