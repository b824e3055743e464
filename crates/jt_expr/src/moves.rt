//! Makes the moves of a reader: each one takes tokens and leaves a tree or a form that waits.
//!
//! Read first: specs/internal/Moves.antt, which states each move.

ghost use Rattle.std.specs.Prelude.{◌≡◌, ℕ, suc, codes, encode_utf8_all, Ok};
ghost use Rattle.std.specs.Str.{chars};
ghost use Rattle.jt_scan.specs.Literals.{unescaped};
ghost use Rattle.jt_ast.specs.Expressions as trees;
ghost use Rattle.jt_expr.specs.Grammar.{Tokens, postscript};
ghost use Rattle.jt_ast.specs.ExpressionView.{is_negated};
ghost use Rattle.jt_expr.specs.Cursor.{ahead};
ghost use Rattle.jt_expr.specs.Front as front;
ghost use Rattle.jt_expr.specs.Promises.{parts_view, tree_of};
ghost use Rattle.jt_expr.specs.internal.Gives.{Builds, Fits, Gives, by_rule, bytes_of};
ghost use Rattle.jt_expr.specs.internal.Gives.{keyed_view, row_view};
ghost use Rattle.jt_expr.specs.internal.Reading.{ParseResult, cap};
ghost use Rattle.jt_expr.specs.internal.Moves as moves;
ghost use Rattle.jt_expr.specs.internal.Pending.{FitsMove, GivesMove, complete, form_view, grown};
ghost use Rattle.jt_expr.specs.internal.Pending.{grows};
ghost use Rattle.jt_expr.specs.internal.Pending.{level_view, move_view};
ghost use Rattle.jt_expr.specs.internal.Pending.{operated, owned, owner_view, owning};

use crate::cursor::Cursor;
use crate::error::ExprError;
use crate::grammar::Grammar;
use crate::part::{LeveledExpr, LeveledList};
use crate::pending::{Level, Owner, Pending, Sequence, Step, prefix_level};
use crate::rows::{KeyedExpr, SequenceKind};
use crate::words::is_reserved;
use jt_ast::{Literal, Polarity, UnaryOperator};
use jt_scan::{Sign, Token, text_value};

/// Returns the polarity of a test; `negated` is set if `not` precedes its name.
fn polarity_of(negated: bool) -> Polarity
    ensures { is_negated result ≡ negated }
{
    if negated {
        Polarity::IsNot
    } else {
        Polarity::Is
    }
}

/// Returns the move after a tree of the level that the next tokens may extend.
fn grown<'a>(level: Level, tree: Result<LeveledExpr, ExprError>) -> Result<Step<'a>, ExprError>
    ensures fits { (below : ℕ) (t : trees.Expr) → Fits below t tree
        → FitsMove below (grown (level_view level) t) t result }
    ensures gives { (o : ParseResult trees.Expr) (new : Tokens) → Gives o tree new
        → GivesMove (grows (level_view level) o) result new }
    ensures builds { (t : trees.Expr) (new : Tokens) → Builds t tree
        → GivesMove (Ok (grown (level_view level) t, new)) result new }
    ensures caps { (below : ℕ) (t : trees.Expr) (new : Tokens) → Fits below t tree
        → GivesMove (cap (trees.levels t) (suc below) (grown (level_view level) t) new) result new }
{
    Ok(Step::Grown(level, tree?))
}

/// Returns the move after a tree of the level that the next tokens do not extend.
fn completed<'a>(level: Level, tree: Result<LeveledExpr, ExprError>) -> Result<Step<'a>, ExprError>
    ensures { (below : ℕ) (t : trees.Expr) (new : Tokens) → Fits below t tree
        → GivesMove (cap (trees.levels t) (suc below) (complete (level_view level) t) new) result
        new }
{
    Ok(Step::Complete(level, tree?))
}

/// Returns the move after an operator of the level has both operands.
fn operated<'a>(level: Level, tree: LeveledExpr) -> Step<'a>
    ensures { move_view result ≡ operated (level_view level) (tree_of tree) }
{
    match level {
        Level::Comparison => Step::Complete(level, tree),
        _ => Step::Grown(level, tree),
    }
}

impl Grammar {
    /// Begins a form of the level.
    #[tactic(auto, unfolding(crate::specs::internal::Moves::begin))]
    pub(crate) fn begin<'a>(
        &self,
        cursor: &mut Cursor<'a>,
        goal: Level,
    ) -> Result<Step<'a>, ExprError>
        ensures { GivesMove (by_rule moves.begin self.now.below (level_view goal)
            (ahead cursor.old)) result (ahead cursor.new) }
    {
        if goal.admits(Level::Inversion) && cursor.eat_word("not") {
            Ok(Step::Nest(Pending::Prefix(UnaryOperator::Not)))
        } else if goal.admits(Level::Signed) && cursor.eat(Sign::Minus) {
            Ok(Step::Nest(Pending::Prefix(UnaryOperator::Negate)))
        } else if goal.admits(Level::Signed) && cursor.eat(Sign::Plus) {
            Ok(Step::Nest(Pending::Prefix(UnaryOperator::Plus)))
        } else {
            self.primary(cursor)
        }
    }

    /// Begins a primary, which is the operand of postfix forms.
    #[tactic(auto, unfolding(crate::specs::internal::Moves::primary))]
    fn primary<'a>(&self, cursor: &mut Cursor<'a>) -> Result<Step<'a>, ExprError>
        ensures { GivesMove (by_rule moves.primary self.now.below (ahead cursor.old)) result
            (ahead cursor.new) }
    {
        match cursor.take() {
            Some(Token::Name(word)) => grown(Level::Postfix, self.word(cursor, word)),
            Some(Token::Number(value)) => {
                grown(Level::Postfix, self.constant(Literal::Number(value)))
            }
            Some(Token::Text(raw)) => grown(Level::Postfix, self.text(raw)),
            Some(Token::Sign(sign)) => self.opened(cursor, sign),
            None => Err(ExprError::Syntax),
        }
    }

    /// Builds the constant that a text literal spells, given its characters in the source.
    fn text(&self, raw: &str) -> Result<LeveledExpr, ExprError>
        ensures { Builds (trees.constant (trees.text (encode_utf8_all (unescaped (chars raw.now)))))
            result }
    {
        let text = text_value(self.alloc, raw)?;
        self.constant(Literal::Text(text))
    }

    /// Begins an expression in parentheses, a list or a map, after its opening sign.
    fn opened<'a>(&self, cursor: &mut Cursor<'a>, sign: Sign) -> Result<Step<'a>, ExprError>
        ensures { GivesMove (by_rule moves.begun_by self.now.below sign (ahead cursor.old)) result
            (ahead cursor.new) }
    {
        match sign {
            Sign::LeftParen => Ok(Step::Nest(Pending::Group)),
            Sign::LeftBracket => self.sequence(cursor, Owner::List, SequenceKind::Items),
            Sign::LeftBrace => self.sequence(cursor, Owner::Map, SequenceKind::Entries),
            _ => Err(ExprError::Syntax),
        }
    }

    /// Begins a sequence, after its opening sign.
    fn sequence<'a>(
        &self,
        cursor: &mut Cursor<'a>,
        owner: Owner<'a>,
        kind: SequenceKind,
    ) -> Result<Step<'a>, ExprError>
        ensures { GivesMove (by_rule moves.opens self.now.below (owner_view owner.entry)
            (row_view kind) (ahead cursor.old)) result (ahead cursor.new) }
    {
        let turns = cursor.left();
        let found = LeveledList::new(self.alloc);
        let sequence = Sequence {
            owner,
            kind,
            turns,
            found,
        };
        self.begin_element(cursor, sequence)
    }

    /// Begins the next element of a sequence, or ends the sequence.
    #[tactic(auto, unfolding(crate::specs::internal::Moves::element))]
    fn begin_element<'a>(
        &self,
        cursor: &mut Cursor<'a>,
        sequence: Sequence<'a>,
    ) -> Result<Step<'a>, ExprError>
        ensures { GivesMove (by_rule moves.element self.now.below (owner_view sequence.entry.owner)
            (row_view sequence.entry.kind) sequence.entry.turns (parts_view sequence.entry.found)
            (ahead cursor.old)) result (ahead cursor.new) }
    {
        if sequence.turns == 0 {
            drop(sequence);
            return Err(ExprError::Syntax);
        }
        if cursor.eat(sequence.kind.closer()) {
            return self.ends(sequence.owner, sequence.found);
        }
        let key = self.part_key(cursor, sequence.kind)?;
        let rest = Sequence {
            turns: sequence.turns - 1,
            ..sequence
        };
        Ok(Step::Nest(Pending::Part(rest, key)))
    }

    /// Ends a sequence: builds the form around its parts.
    fn ends<'a>(&self, owner: Owner<'a>, found: LeveledList) -> Result<Step<'a>, ExprError>
        ensures { let tree = owning (owner_view owner.entry) (parts_view found) in
            FitsMove self.now.below (grown (owned (owner_view owner.entry)) tree) tree result }
    {
        grown(owner.level(), self.owned(owner, found))
    }

    /// Builds the form around the parts of a sequence.
    fn owned(&self, owner: Owner<'_>, found: LeveledList) -> Result<LeveledExpr, ExprError>
        ensures { Fits self.now.below (owning (owner_view owner.entry) (parts_view found)) result }
    {
        match owner {
            Owner::List => self.list(found),
            Owner::Map => self.map(found),
            Owner::Call(callee) => self.call(callee, found),
            Owner::Filter(input, name) => self.filter(input, name, found),
            Owner::Test(value, polarity, name) => self.test(value, polarity, name, found),
        }
    }

    /// Begins the form that extends a tree of the level, or completes the tree if no form does.
    #[tactic(auto, unfolding(crate::specs::internal::Moves::grow))]
    pub(crate) fn grow<'a>(
        &self,
        cursor: &mut Cursor<'a>,
        level: Level,
        tree: LeveledExpr,
    ) -> Result<Step<'a>, ExprError>
        ensures { GivesMove (by_rule moves.grow self.now.below (level_view level) (tree_of tree)
            (ahead cursor.old)) result (ahead cursor.new) }
    {
        match level {
            Level::Postfix => self.postfix(cursor, tree),
            Level::Postscript => self.postscript(cursor, tree),
            Level::Whole => Ok(self.condition(cursor, tree)),
            _ => Ok(self.chain(cursor, level, tree)),
        }
    }

    /// Takes an attribute, or begins an item or a call, if one follows.
    #[tactic(auto, unfolding(crate::specs::internal::Moves::postfix_move))]
    fn postfix<'a>(&self, cursor: &mut Cursor<'a>, tree: LeveledExpr) -> Result<Step<'a>, ExprError>
        ensures { GivesMove (by_rule moves.postfix_move self.now.below (tree_of tree)
            (ahead cursor.old)) result (ahead cursor.new) }
    {
        if cursor.eat(Sign::Dot) {
            self.attribute_named(cursor, tree)
        } else if cursor.eat(Sign::LeftBracket) {
            Ok(Step::Nest(Pending::Item(tree)))
        } else if cursor.eat(Sign::LeftParen) {
            self.sequence(cursor, Owner::Call(tree), SequenceKind::Arguments)
        } else {
            Ok(Step::Complete(Level::Postfix, tree))
        }
    }

    /// Takes the name of an attribute, after its dot.
    fn attribute_named<'a>(
        &self,
        cursor: &mut Cursor<'a>,
        tree: LeveledExpr,
    ) -> Result<Step<'a>, ExprError>
        ensures { GivesMove (by_rule moves.attribute_move self.now.below (tree_of tree)
            (ahead cursor.old)) result (ahead cursor.new) }
    {
        let name = cursor.word()?;
        grown(Level::Postfix, self.attribute(tree, name))
    }

    /// Begins a filter or a test, if one follows.
    #[tactic(auto, unfolding(crate::specs::internal::Moves::postscript_move))]
    fn postscript<'a>(
        &self,
        cursor: &mut Cursor<'a>,
        tree: LeveledExpr,
    ) -> Result<Step<'a>, ExprError>
        ensures { GivesMove (by_rule moves.postscript_move self.now.below (tree_of tree)
            (ahead cursor.old)) result (ahead cursor.new) }
    {
        if cursor.eat(Sign::Pipe) {
            self.filter_named(cursor, tree)
        } else if cursor.eat_word("is") {
            self.test_named(cursor, tree)
        } else {
            Ok(Step::Complete(Level::Postscript, tree))
        }
    }

    /// Begins a filter, after its `|`.
    #[tactic(auto, unfolding(crate::specs::internal::Moves::filter_move, crate::specs::internal::Reading::name_at))]
    fn filter_named<'a>(
        &self,
        cursor: &mut Cursor<'a>,
        tree: LeveledExpr,
    ) -> Result<Step<'a>, ExprError>
        ensures { GivesMove (by_rule moves.filter_move self.now.below (tree_of tree)
            (ahead cursor.old)) result (ahead cursor.new) }
    {
        let name = cursor.word()?;
        if is_reserved(name) {
            return Err(ExprError::Syntax);
        }
        self.argument_list(cursor, Owner::Filter(tree, name))
    }

    /// Begins a test, after the word `is`.
    #[tactic(auto, unfolding(crate::specs::internal::Moves::test_move))]
    fn test_named<'a>(
        &self,
        cursor: &mut Cursor<'a>,
        tree: LeveledExpr,
    ) -> Result<Step<'a>, ExprError>
        ensures { GivesMove (by_rule moves.test_move self.now.below
            (front.says (codes "not") (ahead cursor.old)) (tree_of tree) (ahead cursor.old)) result
            (ahead cursor.new) }
    {
        let polarity = polarity_of(cursor.eat_word("not"));
        let name = cursor.word()?;
        if cursor.begins_argument() {
            return Ok(Step::Nest(Pending::Argument(tree, polarity, name)));
        }
        self.argument_list(cursor, Owner::Test(tree, polarity, name))
    }

    /// Begins the arguments of a filter or a test, or ends the filter or the test if it has no
    /// arguments.
    #[tactic(auto, unfolding(crate::specs::internal::Moves::arguments_move))]
    fn argument_list<'a>(
        &self,
        cursor: &mut Cursor<'a>,
        owner: Owner<'a>,
    ) -> Result<Step<'a>, ExprError>
        ensures { GivesMove (by_rule moves.arguments_move self.now.below (owner_view owner.entry)
            (ahead cursor.old)) result (ahead cursor.new) }
    {
        if cursor.eat(Sign::LeftParen) {
            self.sequence(cursor, owner, SequenceKind::Arguments)
        } else {
            self.ends(owner, LeveledList::new(self.alloc))
        }
    }

    /// Takes an operator of the level, if one follows.
    #[tactic(auto, unfolding(crate::specs::internal::Moves::chain_move))]
    fn chain<'a>(&self, cursor: &mut Cursor<'a>, level: Level, tree: LeveledExpr) -> Step<'a>
        ensures { by_rule moves.chain_move self.now.below (level_view level) (tree_of tree)
            (ahead cursor.old) ≡ Ok (move_view result, ahead cursor.new) }
    {
        match cursor.operator(level) {
            Some(op) => Step::Wait(Pending::Operand(level, op, tree)),
            None => Step::Complete(level, tree),
        }
    }

    /// Begins the condition of an inline `if`, if one follows.
    #[tactic(auto, unfolding(crate::specs::internal::Moves::if_move))]
    fn condition<'a>(&self, cursor: &mut Cursor<'a>, tree: LeveledExpr) -> Step<'a>
        ensures { by_rule moves.if_move self.now.below (tree_of tree) (ahead cursor.old)
            ≡ Ok (move_view result, ahead cursor.new) }
    {
        if cursor.eat_word("if") {
            Step::Wait(Pending::Condition(tree))
        } else {
            Step::Complete(Level::Whole, tree)
        }
    }

    /// Resumes a form with the tree that it waits for.
    #[tactic(auto, unfolding(crate::specs::internal::Moves::resume))]
    pub(crate) fn resume<'a>(
        &self,
        cursor: &mut Cursor<'a>,
        form: Pending<'a>,
        tree: LeveledExpr,
    ) -> Result<Step<'a>, ExprError>
        ensures { GivesMove (by_rule moves.resume self.now.below (form_view form.entry)
            (tree_of tree) (ahead cursor.old)) result (ahead cursor.new) }
    {
        match form {
            Pending::Group => self.end_group(cursor, tree),
            Pending::Part(sequence, key) => {
                self.end_part(cursor, sequence, KeyedExpr { key, part: tree })
            }
            Pending::Item(value) => self.end_item(cursor, value, tree),
            Pending::Prefix(op) => completed(prefix_level(op), self.unary(op, tree)),
            Pending::Argument(value, polarity, name) => {
                self.end_argument(value, polarity, name, tree)
            }
            Pending::Else(value, condition) => {
                completed(Level::Whole, self.choice(condition, value, tree))
            }
            Pending::Operand(level, op, left) => {
                Ok(operated(level, self.binary(op, left, tree)?))
            }
            Pending::Condition(value) => self.end_condition(cursor, value, tree),
        }
    }

    /// Ends an expression in parentheses.
    #[tactic(auto, unfolding(crate::specs::internal::Moves::end_group, crate::specs::internal::Reading::expect))]
    fn end_group<'a>(
        &self,
        cursor: &mut Cursor<'a>,
        tree: LeveledExpr,
    ) -> Result<Step<'a>, ExprError>
        ensures { GivesMove (by_rule moves.end_group self.now.below (tree_of tree)
            (ahead cursor.old)) result (ahead cursor.new) }
    {
        if !cursor.eat(Sign::RightParen) {
            return Err(ExprError::Syntax);
        }
        grown(Level::Postfix, self.group(tree))
    }

    /// Ends an item, after its index.
    #[tactic(auto, unfolding(crate::specs::internal::Moves::end_item, crate::specs::internal::Reading::expect))]
    fn end_item<'a>(
        &self,
        cursor: &mut Cursor<'a>,
        value: LeveledExpr,
        index: LeveledExpr,
    ) -> Result<Step<'a>, ExprError>
        ensures { GivesMove (by_rule moves.end_item self.now.below (tree_of value) (tree_of index)
            (ahead cursor.old)) result (ahead cursor.new) }
    {
        if !cursor.eat(Sign::RightBracket) {
            return Err(ExprError::Syntax);
        }
        grown(Level::Postfix, self.item(value, index))
    }

    /// Ends a part of a sequence: begins the next element, or ends the sequence.
    #[tactic(auto, unfolding(crate::specs::internal::Moves::end_part, crate::specs::internal::Reading::expect))]
    fn end_part<'a>(
        &self,
        cursor: &mut Cursor<'a>,
        sequence: Sequence<'a>,
        keyed: KeyedExpr,
    ) -> Result<Step<'a>, ExprError>
        ensures { GivesMove (by_rule moves.end_part self.now.below (owner_view sequence.entry.owner)
            (row_view sequence.entry.kind) sequence.entry.turns (parts_view sequence.entry.found)
            (keyed_view keyed).0 (keyed_view keyed).1 (ahead cursor.old)) result
            (ahead cursor.new) }
    {
        let mut sequence = sequence;
        let closer = sequence.kind.closer();
        sequence.kind = sequence.kind.behind_key(&keyed.key);
        sequence.found.push(keyed)?;
        if cursor.eat(Sign::Comma) {
            return self.begin_element(cursor, sequence);
        }
        if !cursor.eat(closer) {
            drop(sequence);
            return Err(ExprError::Syntax);
        }
        self.ends(sequence.owner, sequence.found)
    }

    /// Ends a test, after its argument without parentheses.
    fn end_argument<'a>(
        &self,
        value: LeveledExpr,
        polarity: Polarity,
        name: &str,
        argument: LeveledExpr,
    ) -> Result<Step<'a>, ExprError>
        ensures { let tree = trees.test (tree_of value) (is_negated polarity) (bytes_of name.now)
            (trees.expr (tree_of argument) trees.no_exprs) trees.no_pairs in
            FitsMove self.now.below (grown postscript tree) tree result }
    {
        let mut found = LeveledList::new(self.alloc);
        found.push(KeyedExpr {
            key: None,
            part: argument,
        })?;
        let test = self.test(value, polarity, name, found)?;
        Ok(Step::Grown(Level::Postscript, test))
    }

    /// Begins the `else` part of an inline `if`, or ends the `if` if no `else` follows.
    #[tactic(auto, unfolding(crate::specs::internal::Moves::end_condition))]
    fn end_condition<'a>(
        &self,
        cursor: &mut Cursor<'a>,
        value: LeveledExpr,
        condition: LeveledExpr,
    ) -> Result<Step<'a>, ExprError>
        ensures { GivesMove (by_rule moves.end_condition self.now.below (tree_of value)
            (tree_of condition) (ahead cursor.old)) result (ahead cursor.new) }
    {
        if cursor.eat_word("else") {
            return Ok(Step::Nest(Pending::Else(value, condition)));
        }
        completed(Level::Whole, self.when(condition, value))
    }
}
