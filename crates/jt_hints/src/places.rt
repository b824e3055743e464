//! Defines what stands before a token of a tag.

ghost use Rattle.std.specs.Prelude.{◌≡◌, OnOk};
ghost use Rattle.jt_hints.specs.Forms as spec;

use crate::statement_words::is_operator_word;
use jt_scan::{Sign, Token};
use std::alloc::{AllocError, Global};

/// The role of an open bracket.
#[derive(Clone, Copy)]
pub enum Bracket {
    /// `(` around an expression.
    Group,
    /// `(` around arguments, which follows an operand.
    Call,
    /// `[` around a key, which follows an operand.
    Index,
    /// `[` around the items of a list.
    List,
    /// `{`
    Map,
}

/// The kind of the token before a place.
#[derive(Clone, Copy, PartialEq, Eq)]
pub enum Before {
    /// A text literal.
    Text,
    /// A number.
    Number,
    /// A name or a closing bracket, with which an operand ends.
    Operand,
    /// `|`
    Bar,
    /// The name of a filter, after `|`.
    Filter,
    /// Nothing, an operator, or another sign or word after which an operand may begin.
    Operator,
}

/// The kind of a tag, by where its expressions stand.
#[derive(Clone, Copy)]
pub enum TagForm {
    /// An expression at once, as in `{{ e }}` and after `if`.
    Expression,
    /// An expression after `in`.
    Loop,
    /// An expression after `=`.
    Set,
    /// Parameters, each with a constant after its `=`.
    Macro,
    /// Another form.
    Other,
}

/// What stands before a token of a tag.
#[derive(Drop)]
pub struct Place {
    /// The form of the tag.
    pub form: TagForm,
    /// The open brackets. The innermost is the last.
    pub brackets: Vec<Bracket>,
    /// The token before.
    pub before: Before,
    /// Whether a comparison stands before, in the expression that goes on here.
    pub compared: bool,
    /// Whether the tag's expression has begun, if it is outside all brackets.
    pub valued: bool,
}

/// Returns whether a sign closes a bracket.
fn closes(sign: Sign) -> bool
    ensures { result ≡ spec.closes sign }
{
    matches!(
        sign,
        Sign::RightParen | Sign::RightBracket | Sign::RightBrace
    )
}

/// Returns whether a sign compares.
pub(crate) fn compares(sign: Sign) -> bool
    ensures { result ≡ spec.compares sign }
{
    matches!(
        sign,
        Sign::Less
            | Sign::Greater
            | Sign::Equal
            | Sign::NotEqual
            | Sign::LessEqual
            | Sign::GreaterEqual
    )
}

/// Returns whether a comparison ends before a sign.
fn ends_comparison(sign: Sign) -> bool
    ensures { result ≡ spec.ends_comparison sign }
{
    matches!(
        sign,
        Sign::LeftParen
            | Sign::RightParen
            | Sign::LeftBracket
            | Sign::RightBracket
            | Sign::LeftBrace
            | Sign::RightBrace
            | Sign::Comma
            | Sign::Colon
            | Sign::Assign
    )
}

/// Returns the kind of a token by itself, for the place after it.
fn kind_of(token: Token<'_>) -> Before
    ensures { result ≡ spec.kind_of token.entry }
{
    match token {
        Token::Text(_) => Before::Text,
        Token::Number(_) => Before::Number,
        Token::Name(word) if is_operator_word(word) => Before::Operator,
        Token::Name(_) => Before::Operand,
        Token::Sign(Sign::Pipe) => Before::Bar,
        Token::Sign(sign) if closes(sign) => Before::Operand,
        Token::Sign(_) => Before::Operator,
    }
}

impl Before {
    /// Returns the kind of a token, for the place after it. A name after `|` is that of a filter.
    fn after(self, token: Token<'_>) -> Before
        ensures { result ≡ spec.kind_after self token.entry }
    {
        match (self, token) {
            (Before::Bar, Token::Name(_)) => Before::Filter,
            _ => kind_of(token),
        }
    }

    /// Returns whether an operand ends before the place.
    pub(crate) fn ends_operand(self) -> bool
        ensures { result ≡ spec.ends_operand self }
    {
        matches!(
            self,
            Before::Text | Before::Number | Before::Operand | Before::Filter
        )
    }

    /// Returns the role of the bracket that a sign opens, if it opens one.
    fn bracket(self, sign: Sign) -> Option<Bracket>
        ensures { result ≡ spec.bracket_of self sign }
    {
        match (sign, self.ends_operand()) {
            (Sign::LeftParen, true) => Some(Bracket::Call),
            (Sign::LeftParen, false) => Some(Bracket::Group),
            (Sign::LeftBracket, true) => Some(Bracket::Index),
            (Sign::LeftBracket, false) => Some(Bracket::List),
            (Sign::LeftBrace, _) => Some(Bracket::Map),
            _ => None,
        }
    }
}

impl Place {
    ghost use Rattle.jt_hints.specs.internal.PlaceView.{place_view};

    /// Returns the place before the first token of a tag, or behind the first word of a statement.
    pub(crate) fn at_start(alloc: Global, form: TagForm) -> Place
        ensures { place_view result ≡ spec.start form }
    {
        Place {
            form,
            brackets: Vec::new(alloc),
            before: Before::Operator,
            compared: false,
            valued: matches!(form, TagForm::Expression),
        }
    }

    /// Returns the innermost open bracket.
    pub(crate) fn innermost(&self) -> Option<Bracket>
        ensures { result ≡ spec.innermost (place_view self.now) }
    {
        self.brackets.last().copied()
    }

    /// Opens or closes the bracket that a token opens or closes.
    fn pass_bracket(&mut self, token: Token<'_>) -> Result<(), AllocError>
        ensures brackets { OnOk result (self.new.brackets.items
            ≡ spec.brackets_after (place_view self.old) token.entry) }
        ensures rest { self.new ≡ record self.old { brackets = self.new.brackets } }
    {
        let Token::Sign(sign) = token else {
            return Ok(());
        };
        if let Some(bracket) = self.before.bracket(sign) {
            self.brackets.push(bracket)?;
        } else if closes(sign) {
            self.brackets.pop();
        }
        Ok(())
    }

    /// Returns whether a comparison stands before the place after a token.
    fn is_compared_after(&self, token: Token<'_>) -> bool
        ensures { result ≡ spec.is_compared_after (place_view self.now) token.entry }
    {
        match token {
            Token::Sign(sign) if compares(sign) => true,
            Token::Sign(sign) => self.compared && !ends_comparison(sign),
            Token::Name("and" | "or" | "if" | "else") => false,
            _ => self.compared,
        }
    }

    /// Returns whether the tag's expression has begun after a token.
    fn is_valued_after(&self, token: Token<'_>) -> bool
        ensures { result ≡ spec.is_valued_after (place_view self.now) token.entry }
    {
        let begins = match (self.form, token) {
            (TagForm::Loop, Token::Name("in")) => self.brackets.is_empty(),
            (TagForm::Set, Token::Sign(Sign::Assign)) => self.brackets.is_empty(),
            _ => false,
        };
        self.valued || begins
    }

    /// Moves the place behind a token.
    pub(crate) fn pass(&mut self, token: Token<'_>) -> Result<(), AllocError>
        ensures { OnOk result (place_view self.new ≡ spec.after (place_view self.old) token.entry) }
    {
        let compared = self.is_compared_after(token);
        let valued = self.is_valued_after(token);
        self.pass_bracket(token)?;
        self.before = self.before.after(token);
        self.compared = compared;
        self.valued = valued;
        Ok(())
    }
}
