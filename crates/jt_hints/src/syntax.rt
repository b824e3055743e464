//! Finds the form that the tokens of a tag have and the language does not.

ghost use Rattle.std.specs.Prelude.{◌≡◌, IfOk};
ghost use Rattle.jt_hints.specs.Forms as spec;

use crate::head_forms::head_hint;
use crate::place_forms::{end_hint, token_hint};
use crate::places::{Place, TagForm};
use crate::statement_words::form_of;
use jt_scan::{TagKind, Token};
use std::alloc::{AllocError, Global};

/// A form that a writer of templates may expect and the language does not have.
#[derive(Clone, Copy, Debug, Drop, PartialEq, Eq)]
pub enum SyntaxHint {
    /// `x[1:2]`
    Slice,
    /// `(a, b)`
    Tuple,
    /// `1.5`
    Fraction,
    /// `x.0`
    NumberAfterDot,
    /// `a < b < c`
    ChainedComparison,
    /// `{{ x = 1 }}`
    Assignment,
    /// `[x for x in xs]`
    Comprehension,
    /// `f(*xs)`
    Unpacking,
    /// `a || b`
    DoubledBar,
    /// `"a" "b"`
    AdjacentTexts,
    /// `"%s" % (x)`
    Formatting,
    /// `{a: 1}`
    UnquotedKey,
    /// `{{ }}`
    EmptyTag,
    /// `[1,, 2]`
    MissingItem,
    /// `{{ 1 + }}`
    MissingExpression,
    /// `{{ (a }}`
    MissingParen,
    /// `{{ [a }}`
    MissingSquare,
    /// `{{ {"a": 1 }}`
    MissingBrace,
    /// `{{ a) }}`
    UnopenedBracket,
    /// `{{ x| }}`
    MissingFilter,
    /// `{{ x|join ", " }}`
    ArgumentsWithoutParens,
    /// `[1 2]`
    MissingComma,
    /// `{{ 1 2 }}`
    MissingOperator,
    /// `a..b`
    RangeDots,
    /// `{{ {{ x }} }}`
    NestedTag,
    /// `{% set x == 1 %}`
    SetByComparison,
    /// `{% macro m(a, b=a) %}`
    DefaultIsNoConstant,
    /// `{% include "t" ignore mising %}`
    IgnoreMissing,
    /// `{% autoescape on %}`
    AutoescapeValue,
    /// `{% else if c %}`, `{% elseif c %}` or `{% elsif c %}`
    ElseIf,
    /// `{% do e %}`
    Do,
    /// `{% trans %}`, `{% pluralize %}` or `{% endtrans %}`
    Trans,
    /// `{% call m() %}` or `{% endcall %}`
    CallBlock,
    /// `{% break %}`
    Break,
    /// `{% continue %}`
    Continue,
    /// `{% debug %}`
    Debug,
    /// `{% print e %}`
    Print,
    /// A tag whose first word begins no statement of the language or of Jinja.
    UnknownStatement,
    /// `{% include x %}`
    ExpressionAsName,
    /// `{% import "l" as m with context %}`
    WithContext,
    /// `{% for x in xs recursive %}`
    RecursiveLoop,
    /// `{% set x.y = 1 %}`
    AttributeTarget,
}

impl SyntaxHint {
    /// Returns what an explanation says of the form.
    pub fn sentence(self) -> &'static str
        ensures { result.now ≡ spec.sentence self }
    {
        match self {
            SyntaxHint::Slice => {
                "there are no slices: take items by number, or choose them in a loop by loop.index"
            }
            SyntaxHint::Tuple => {
                "there are no tuples: lists are written in [ ], and targets without parentheses"
            }
            SyntaxHint::Fraction => {
                "there are no fractions: numbers are whole, and // divides and rounds down"
            }
            SyntaxHint::NumberAfterDot => "a name follows a dot: write x[0] in place of x.0",
            SyntaxHint::ChainedComparison => "comparisons are not chained: write a < b and b < c",
            SyntaxHint::Assignment => "= belongs to set and to named arguments: == compares",
            SyntaxHint::Comprehension => {
                "there are no comprehensions: use filters as map and select, or a for tag"
            }
            SyntaxHint::Unpacking => {
                "arguments are written one by one: * and ** do not unpack lists and maps"
            }
            SyntaxHint::DoubledBar => "|| is no operator: write or",
            SyntaxHint::AdjacentTexts => "texts side by side are not joined: write ~ between them",
            SyntaxHint::Formatting => "% does not format texts: join the parts by ~",
            SyntaxHint::UnquotedKey => "a key of a map is a text in quotes, as in {\"a\": 1}",
            SyntaxHint::EmptyTag => "this tag is empty",
            SyntaxHint::MissingItem => "an expression is missing before a comma",
            SyntaxHint::MissingExpression => {
                "an expression is missing: an operator, a bracket or the tag ends without one"
            }
            SyntaxHint::MissingParen => "a ) is missing",
            SyntaxHint::MissingSquare => "a ] is missing",
            SyntaxHint::MissingBrace => "a } is missing",
            SyntaxHint::UnopenedBracket => "a bracket is closed that is not open",
            SyntaxHint::MissingFilter => "the name of a filter is missing after |",
            SyntaxHint::ArgumentsWithoutParens => {
                "a filter's arguments stand in parentheses, as in x|join(\", \")"
            }
            SyntaxHint::MissingComma => "a comma is missing between two items",
            SyntaxHint::MissingOperator => "an operator is missing between two values",
            SyntaxHint::RangeDots => "numbers from a to b - 1 are range(a, b)",
            SyntaxHint::NestedTag => "no tag stands in a tag: write the expression alone",
            SyntaxHint::SetByComparison => "set gives a value by =, and == compares",
            SyntaxHint::DefaultIsNoConstant => {
                "a parameter's default is a constant: a number, a text, true, false or none"
            }
            SyntaxHint::IgnoreMissing => "the words are ignore missing",
            SyntaxHint::AutoescapeValue => "autoescape takes true or false",
            SyntaxHint::ElseIf => "the word is elif",
            SyntaxHint::Do => {
                "set takes the value of an expression, and values are never changed in place"
            }
            SyntaxHint::Trans => "the host passes the translated texts",
            SyntaxHint::CallBlock => {
                "keep the body by a set block, and pass it to the macro as an argument"
            }
            SyntaxHint::Break => "a loop visits all its items: choose them by if in its for tag",
            SyntaxHint::Continue => "put the rest of the loop's body into an if statement",
            SyntaxHint::Debug => "print single values",
            SyntaxHint::Print => "a value is printed by {{ .. }}",
            SyntaxHint::UnknownStatement => "no statement begins with this word",
            SyntaxHint::ExpressionAsName => {
                "a template's name is a text in quotes: choose one of several by if"
            }
            SyntaxHint::WithContext => {
                "imported macros see no names of the importer: pass values as arguments"
            }
            SyntaxHint::RecursiveLoop => "loops are not recursive: a macro may call itself",
            SyntaxHint::AttributeTarget => {
                "set binds a plain name: there is no namespace, and no value is changed"
            }
        }
    }
}

/// Returns the first form that stands in the tokens from the first place of a tag on, or at their
/// end.
#[tactic(auto, using(crate::proofs::HintLaws::hint_behind, crate::proofs::HintLaws::hint_here, crate::proofs::HintLaws::hint_at_end))]
fn first_hint(
    alloc: Global,
    form: TagForm,
    tokens: &[Token<'_>],
) -> Result<Option<SyntaxHint>, AllocError>
    ensures { IfOk result (λ hint. hint ≡ spec.first_hint (spec.start form) tokens.now) }
{
    let mut place = Place::at_start(alloc, form);
    let mut rest = tokens;
    'tokens: while let [token, behind @ ..] = rest {
        if let Some(hint) = token_hint(&place, *token, behind) {
            return Ok(Some(hint));
        }
        place.pass(*token)?;
        rest = behind;
    }
    Ok(end_hint(&place))
}

/// Returns the form that the tokens of a tag have and the language does not: the first from the
/// left, after the forms of the statement's first word. A tag without such a form may still be no
/// tag of the language.
///
/// # Errors
///
/// `AllocError` if a growth is refused.
pub fn syntax_hint(
    alloc: Global,
    kind: TagKind,
    tokens: &[Token<'_>],
) -> Result<Option<SyntaxHint>, AllocError>
    ensures { IfOk result (λ hint. hint ≡ spec.syntax_hint kind tokens.now) }
{
    match (kind, tokens) {
        (_, []) => Ok(Some(SyntaxHint::EmptyTag)),
        (TagKind::Variable, _) => first_hint(alloc, TagForm::Expression, tokens),
        (TagKind::Block, [Token::Name(word), rest @ ..]) => match head_hint(word, rest) {
            Some(hint) => Ok(Some(hint)),
            None => first_hint(alloc, form_of(word), rest),
        },
        (TagKind::Block, _) => Ok(None),
    }
}
