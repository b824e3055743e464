//! Defines a cursor over the tokens of a tag.

ghost use Rattle.std.specs.Prelude.{◌≡◌, drop, length, map};
ghost use Rattle.jt_scan.specs.View.{token_view};
ghost use Rattle.jt_scan.specs.Words.{letters_of};
ghost use Rattle.jt_expr.specs.Front as front;
ghost use Rattle.jt_expr.specs.internal.Reading as reading;
ghost use Rattle.jt_expr.specs.Grammar as grammar;
ghost use Rattle.jt_expr.specs.Cursor.{ahead, Passes, Takes, TakesSign, TakesAName};
ghost use Rattle.std.specs.Str.{chars};
ghost use Rattle.jt_expr.specs.internal.Pending.{joined, level_view, sign_level, word_level};
ghost use Rattle.jt_expr.specs.internal.Gives.{Operates, OperatesAt, OperatesIf, NamesBy, TextsBy};
ghost use Rattle.jt_expr.specs.internal.Gives.{GivesWord};

use crate::error::ExprError;
use crate::pending::Level;
use crate::words::{is_operand, is_reserved};
use jt_ast::BinaryOperator;
use jt_scan::{Sign, Token, is_word};

/// The tokens of a tag that have not been read yet.
#[derive(Drop)]
pub struct Cursor<'a> {
    rest: &'a [Token<'a>],
}

impl<'a> Cursor<'a> {
    /// Creates a cursor over all tokens of a tag.
    pub fn new(tokens: &'a [Token<'a>]) -> Cursor<'a>
        ensures { ahead result ≡ map token_view tokens.now }
    {
        Cursor { rest: tokens }
    }

    /// Returns the number of remaining tokens.
    pub fn left(&self) -> usize
        ensures { result ≡ length (ahead self.now) }
    {
        self.rest.len()
    }

    /// Returns whether the next token is this sign.
    pub(crate) fn sees(&self, sign: Sign) -> bool
        ensures { result ≡ front.sees sign (ahead self.now) }
    {
        match self.rest {
            [Token::Sign(found), ..] => code(*found) == code(sign),
            _ => false,
        }
    }

    /// Returns whether the next token is this word.
    pub(crate) fn says(&self, word: &str) -> bool
        ensures { result ≡ front.says (letters_of word.now) (ahead self.now) }
    {
        match self.rest {
            [Token::Name(found), ..] => is_word(found, word),
            _ => false,
        }
    }

    /// Returns whether the token after the next one is this word.
    fn then_says(&self, word: &str) -> bool
        ensures { result ≡ front.says (letters_of word.now) (drop 1 (ahead self.now)) }
    {
        match self.rest {
            [_, Token::Name(found), ..] => is_word(found, word),
            _ => false,
        }
    }

    /// Returns the tightest level whose forms the next token may continue, or `Whole`.
    pub(crate) fn continued(&self) -> Level
        ensures { level_view result ≡ joined (ahead self.now) }
    {
        match self.rest {
            [Token::Sign(sign), ..] => sign_level(*sign),
            [Token::Name(word), ..] => word_level(word),
            _ => Level::Whole,
        }
    }

    /// Returns whether the next token begins the argument of a test without parentheses.
    pub(crate) fn begins_argument(&self) -> bool
        ensures { result ≡ grammar.begins_argument (ahead self.now) }
    {
        match self.rest {
            [Token::Name(word), ..] => is_operand(word),
            [Token::Sign(sign), ..] => matches!(*sign, Sign::LeftBracket | Sign::LeftBrace),
            [_, ..] => true,
            [] => false,
        }
    }

    /// Takes the next token.
    pub fn take(&mut self) -> Option<Token<'a>>
        ensures { Takes (ahead self.old) result (ahead self.new) }
    {
        match self.rest {
            [first, rest @ ..] => {
                self.rest = rest;
                Some(*first)
            }
            [] => None,
        }
    }

    /// Takes the sign if it is the next token, and returns whether it was.
    pub fn eat(&mut self, sign: Sign) -> bool
        ensures found { result ≡ front.sees sign (ahead self.old) }
        ensures rest { Passes (front.sees sign) self.old self.new }
    {
        let found = self.sees(sign);
        if found {
            self.take();
        }
        found
    }

    /// Takes the word if it is the next token, and returns whether it was.
    pub fn eat_word(&mut self, word: &str) -> bool
        ensures found { result ≡ front.says (letters_of word.now) (ahead self.old) }
        ensures rest { Passes (front.says (letters_of word.now)) self.old self.new }
    {
        let found = self.says(word);
        if found {
            self.take();
        }
        found
    }

    /// Takes the sign.
    ///
    /// # Errors
    ///
    /// `Syntax` if the next token is not this sign.
    pub fn expect(&mut self, sign: Sign) -> Result<(), ExprError>
        ensures { TakesSign sign (ahead self.old) result (ahead self.new) }
    {
        if self.eat(sign) {
            Ok(())
        } else {
            Err(ExprError::Syntax)
        }
    }

    /// Takes a word, which may be reserved.
    #[tactic(auto, unfolding(crate::specs::internal::Reading::word_at))]
    pub(crate) fn word(&mut self) -> Result<&'a str, ExprError>
        ensures { GivesWord (reading.word_at (ahead self.old)) result (ahead self.new) }
    {
        match self.take() {
            Some(Token::Name(word)) => Ok(word),
            _ => Err(ExprError::Syntax),
        }
    }

    /// Takes a name.
    ///
    /// # Errors
    ///
    /// `Syntax` if the next token is no name or a reserved word.
    pub fn name(&mut self) -> Result<&'a str, ExprError>
        ensures { TakesAName (ahead self.old) result (ahead self.new) }
    {
        match self.take() {
            Some(Token::Name(name)) if !is_reserved(name) => Ok(name),
            _ => Err(ExprError::Syntax),
        }
    }

    /// Takes a name and the `=` after it, if they are next.
    #[tactic(auto, unfolding(crate::specs::internal::Reading::keyword))]
    pub(crate) fn keyword(&mut self) -> Option<&'a str>
        ensures { NamesBy reading.keyword self.old result self.new }
    {
        match self.rest {
            [Token::Name(name), Token::Sign(Sign::Assign), rest @ ..] if !is_reserved(name) => {
                self.rest = rest;
                Some(*name)
            }
            _ => None,
        }
    }

    /// Takes a text literal and the colon after it, if they are next.
    #[tactic(auto, unfolding(crate::specs::internal::Reading::entry_key))]
    pub(crate) fn entry_key(&mut self) -> Option<&'a str>
        ensures { TextsBy reading.entry_key self.old result self.new }
    {
        match self.rest {
            [Token::Text(raw), Token::Sign(Sign::Colon), rest @ ..] => {
                self.rest = rest;
                Some(*raw)
            }
            _ => None,
        }
    }

    /// Takes an operator of the level, if one is next.
    #[tactic(auto, unfolding(crate::specs::internal::Reading::operator))]
    pub(crate) fn operator(&mut self, level: Level) -> Option<BinaryOperator>
        ensures { OperatesAt (level_view level) self.old result self.new }
    {
        match level {
            Level::Disjunction => self.word_operator("or", BinaryOperator::Or),
            Level::Conjunction => self.word_operator("and", BinaryOperator::And),
            Level::Comparison => self.comparison(),
            Level::Sum => self.sum_operator(),
            Level::Concatenation => self.sign_operator(Sign::Tilde, BinaryOperator::Concatenate),
            Level::Product => self.product_operator(),
            Level::Power => self.sign_operator(Sign::Power, BinaryOperator::Power),
            Level::Whole | Level::Inversion | Level::Postscript | Level::Signed | Level::Postfix =>
                None,
        }
    }

    /// Takes the word of an operator, if it is next.
    fn word_operator(&mut self, word: &str, op: BinaryOperator) -> Option<BinaryOperator>
        ensures { OperatesIf (front.says (letters_of word.now) (ahead self.old)) op self.old result
            self.new }
    {
        if !self.eat_word(word) {
            return None;
        }
        Some(op)
    }

    /// Takes the sign of an operator, if it is next.
    fn sign_operator(&mut self, sign: Sign, op: BinaryOperator) -> Option<BinaryOperator>
        ensures { OperatesIf (front.sees sign (ahead self.old)) op self.old result self.new }
    {
        if !self.eat(sign) {
            return None;
        }
        Some(op)
    }

    /// Takes a comparison operator, `in` or `not in`, if one is next.
    #[tactic(auto, unfolding(crate::specs::internal::Reading::operator))]
    fn comparison(&mut self) -> Option<BinaryOperator>
        ensures { OperatesAt grammar.comparison self.old result self.new }
    {
        if self.eat(Sign::Equal) {
            Some(BinaryOperator::Equal)
        } else if self.eat(Sign::NotEqual) {
            Some(BinaryOperator::NotEqual)
        } else if self.eat(Sign::Less) {
            Some(BinaryOperator::Less)
        } else if self.eat(Sign::LessEqual) {
            Some(BinaryOperator::LessOrEqual)
        } else if self.eat(Sign::Greater) {
            Some(BinaryOperator::Greater)
        } else if self.eat(Sign::GreaterEqual) {
            Some(BinaryOperator::GreaterOrEqual)
        } else if self.eat_word("in") {
            Some(BinaryOperator::In)
        } else {
            self.not_in()
        }
    }

    /// Takes `not in`, if both words are next. A `not` alone is not taken.
    fn not_in(&mut self) -> Option<BinaryOperator>
        ensures { Operates (reading.not_in (ahead self.old)) (ahead self.old) result
            (ahead self.new) }
    {
        if !self.says("not") || !self.then_says("in") {
            return None;
        }
        self.take();
        self.take();
        Some(BinaryOperator::NotIn)
    }

    /// Takes `+` or `-`, if one is next.
    #[tactic(auto, unfolding(crate::specs::internal::Reading::operator))]
    fn sum_operator(&mut self) -> Option<BinaryOperator>
        ensures { OperatesAt grammar.sum self.old result self.new }
    {
        if self.eat(Sign::Plus) {
            Some(BinaryOperator::Add)
        } else if self.eat(Sign::Minus) {
            Some(BinaryOperator::Subtract)
        } else {
            None
        }
    }

    /// Takes `*`, `//` or `%`, if one is next.
    #[tactic(auto, unfolding(crate::specs::internal::Reading::operator))]
    fn product_operator(&mut self) -> Option<BinaryOperator>
        ensures { OperatesAt grammar.product self.old result self.new }
    {
        if self.eat(Sign::Times) {
            Some(BinaryOperator::Multiply)
        } else if self.eat(Sign::FloorDivide) {
            Some(BinaryOperator::FloorDivide)
        } else if self.eat(Sign::Percent) {
            Some(BinaryOperator::Remainder)
        } else {
            None
        }
    }
}

/// Returns the level of the forms that a sign after a tree continues, or `Whole` if it continues
/// none.
fn sign_level(sign: Sign) -> Level
    ensures { level_view result ≡ sign_level sign }
{
    match sign {
        Sign::Dot | Sign::LeftBracket | Sign::LeftParen => Level::Postfix,
        Sign::Pipe => Level::Postscript,
        Sign::Power => Level::Power,
        Sign::Times | Sign::FloorDivide | Sign::Percent => Level::Product,
        Sign::Tilde => Level::Concatenation,
        Sign::Plus | Sign::Minus => Level::Sum,
        Sign::Equal | Sign::NotEqual | Sign::Less => Level::Comparison,
        Sign::LessEqual | Sign::Greater | Sign::GreaterEqual => Level::Comparison,
        Sign::Assign | Sign::Comma | Sign::Colon | Sign::LeftBrace => Level::Whole,
        Sign::RightParen | Sign::RightBracket | Sign::RightBrace => Level::Whole,
    }
}

/// Returns the level of the forms that a word after a tree continues, or `Whole` if it continues
/// none.
fn word_level(word: &str) -> Level
    ensures { level_view result ≡ word_level (chars word.now) }
{
    if is_word(word, "is") {
        Level::Postscript
    } else if is_word(word, "in") || is_word(word, "not") {
        Level::Comparison
    } else if is_word(word, "and") {
        Level::Conjunction
    } else if is_word(word, "or") {
        Level::Disjunction
    } else {
        Level::Whole
    }
}

/// Returns the discriminant of a sign.
fn code(sign: Sign) -> u8
    ensures { result ≡ front.code sign }
{
    sign as u8
}
