//! Finds the forms at a place of a tag.

ghost use Rattle.std.specs.Prelude.{◌≡◌};
ghost use Rattle.jt_hints.specs.Forms as spec;
ghost use Rattle.jt_hints.specs.internal.PlaceView.{place_view};

use crate::places::{Before, Bracket, Place, TagForm, compares};
use crate::statement_words::is_operator_word;
use crate::syntax::SyntaxHint;
use jt_scan::{Sign, Token};

/// Returns the hint if the condition holds.
fn hint_if(holds: bool, hint: SyntaxHint) -> Option<SyntaxHint>
    ensures { result ≡ spec.hint_if holds hint }
{
    if holds { Some(hint) } else { None }
}

/// Returns whether the place is in the tag's expression, outside all brackets.
fn is_at_top(place: &Place) -> bool
    ensures { result ≡ spec.is_at_top (place_view place.now) }
{
    place.valued && place.brackets.is_empty()
}

/// Returns the hint for a colon.
fn colon_hint(place: &Place) -> Option<SyntaxHint>
    ensures { result ≡ spec.colon_hint (place_view place.now) }
{
    match (place.innermost(), place.before) {
        (Some(Bracket::Index), _) => Some(SyntaxHint::Slice),
        (Some(Bracket::Map), Before::Text) => None,
        (Some(Bracket::Map), _) => Some(SyntaxHint::UnquotedKey),
        _ => None,
    }
}

/// Returns the hint for a comma.
fn comma_hint(place: &Place) -> Option<SyntaxHint>
    ensures { result ≡ spec.comma_hint (place_view place.now) }
{
    if place.before == Before::Operator {
        return Some(SyntaxHint::MissingItem);
    }
    let in_group = matches!(place.innermost(), Some(Bracket::Group));
    hint_if(in_group || is_at_top(place), SyntaxHint::Tuple)
}

/// Returns whether a name is that of a constant.
fn is_constant(name: &str) -> bool
    ensures { result ≡ spec.is_constant name.now }
{
    matches!(name, "true" | "false" | "none" | "True" | "False" | "None")
}

/// Returns the hint for the default of a parameter, given the tokens after its `=`.
fn default_hint(rest: &[Token<'_>]) -> Option<SyntaxHint>
    ensures { result ≡ spec.default_hint rest.now }
{
    match rest {
        [Token::Name(name), ..] => hint_if(!is_constant(name), SyntaxHint::DefaultIsNoConstant),
        [Token::Sign(Sign::LeftBracket | Sign::LeftBrace), ..] => {
            Some(SyntaxHint::DefaultIsNoConstant)
        }
        _ => None,
    }
}

/// Returns the hint for a `=`, given the tokens after it.
fn assign_hint(place: &Place, rest: &[Token<'_>]) -> Option<SyntaxHint>
    ensures { result ≡ spec.assign_hint (place_view place.now) rest.now }
{
    if matches!(place.form, TagForm::Macro) {
        return default_hint(rest);
    }
    let assigns = match place.innermost() {
        Some(Bracket::Call) => false,
        Some(_) => true,
        None => place.valued,
    };
    hint_if(assigns, SyntaxHint::Assignment)
}

/// Returns the hint for a dot, given the tokens after it.
fn dot_hint(place: &Place, rest: &[Token<'_>]) -> Option<SyntaxHint>
    ensures { result ≡ spec.dot_hint (place_view place.now) rest.now }
{
    match (place.before, rest) {
        (_, [Token::Sign(Sign::Dot), ..]) => Some(SyntaxHint::RangeDots),
        (Before::Number, [Token::Number(_), ..]) => Some(SyntaxHint::Fraction),
        (_, [Token::Number(_), ..]) => Some(SyntaxHint::NumberAfterDot),
        _ => None,
    }
}

/// Returns the hint for a `%`, given the tokens after it.
fn percent_hint(place: &Place, rest: &[Token<'_>]) -> Option<SyntaxHint>
    ensures { result ≡ spec.percent_hint (place_view place.now) rest.now }
{
    match (place.before, rest) {
        (Before::Text, [Token::Sign(Sign::LeftParen), ..]) => Some(SyntaxHint::Formatting),
        _ => None,
    }
}

/// Returns the hint for a `*` or a `**`.
fn star_hint(place: &Place) -> Option<SyntaxHint>
    ensures { result ≡ spec.star_hint (place_view place.now) }
{
    match (place.innermost(), place.before) {
        (Some(Bracket::Call), Before::Operator) => Some(SyntaxHint::Unpacking),
        _ => None,
    }
}

/// Returns the hint for a bracket whose closing sign is missing.
fn missing(bracket: Bracket) -> SyntaxHint
    ensures { result ≡ spec.missing bracket }
{
    match bracket {
        Bracket::Group | Bracket::Call => SyntaxHint::MissingParen,
        Bracket::Index | Bracket::List => SyntaxHint::MissingSquare,
        Bracket::Map => SyntaxHint::MissingBrace,
    }
}

/// Returns whether a sign closes a bracket.
fn is_closed_by(bracket: Bracket, sign: Sign) -> bool
    ensures { result ≡ spec.is_closed_by bracket sign }
{
    matches!(
        (bracket, sign),
        (Bracket::Group | Bracket::Call, Sign::RightParen)
            | (Bracket::Index | Bracket::List, Sign::RightBracket)
            | (Bracket::Map, Sign::RightBrace)
    )
}

/// Returns the hint for a sign that closes a bracket.
fn close_hint(place: &Place, sign: Sign) -> Option<SyntaxHint>
    ensures { result ≡ spec.close_hint (place_view place.now) sign }
{
    let Some(open) = place.innermost() else {
        return Some(SyntaxHint::UnopenedBracket);
    };
    if !is_closed_by(open, sign) {
        return Some(missing(open));
    }
    let needs = matches!(open, Bracket::Group | Bracket::Index);
    hint_if(
        needs && place.before == Before::Operator,
        SyntaxHint::MissingExpression,
    )
}

/// Returns the hint for a `{`, given the tokens after it.
fn brace_hint(rest: &[Token<'_>]) -> Option<SyntaxHint>
    ensures { result ≡ spec.brace_hint rest.now }
{
    match rest {
        [Token::Sign(Sign::LeftBrace | Sign::Percent), ..] => Some(SyntaxHint::NestedTag),
        _ => None,
    }
}

/// Returns the hint for a sign that may compare.
fn compare_hint(place: &Place, sign: Sign) -> Option<SyntaxHint>
    ensures { result ≡ spec.compare_hint (place_view place.now) sign }
{
    let names = matches!(place.form, TagForm::Set) && !place.valued && place.brackets.is_empty();
    if names && matches!(sign, Sign::Equal) {
        return Some(SyntaxHint::SetByComparison);
    }
    hint_if(
        place.compared && compares(sign),
        SyntaxHint::ChainedComparison,
    )
}

/// Returns the hint for a sign that does not follow `|`, given the tokens after it.
fn plain_sign_hint(place: &Place, sign: Sign, rest: &[Token<'_>]) -> Option<SyntaxHint>
    ensures { result ≡ spec.plain_sign_hint (place_view place.now) sign rest.now }
{
    match sign {
        Sign::Colon => colon_hint(place),
        Sign::Comma => comma_hint(place),
        Sign::Assign => assign_hint(place, rest),
        Sign::Dot => dot_hint(place, rest),
        Sign::Percent => percent_hint(place, rest),
        Sign::Times | Sign::Power => star_hint(place),
        Sign::LeftBrace => brace_hint(rest),
        Sign::RightParen | Sign::RightBracket | Sign::RightBrace => close_hint(place, sign),
        _ => compare_hint(place, sign),
    }
}

/// Returns the hint for a sign, given the tokens after it.
fn sign_hint(place: &Place, sign: Sign, rest: &[Token<'_>]) -> Option<SyntaxHint>
    ensures { result ≡ spec.sign_hint (place_view place.now) sign rest.now }
{
    match (place.before, sign) {
        (Before::Bar, Sign::Pipe) => Some(SyntaxHint::DoubledBar),
        (Before::Bar, _) => Some(SyntaxHint::MissingFilter),
        _ => plain_sign_hint(place, sign, rest),
    }
}

/// Returns whether the items in a bracket are separated by commas.
fn has_items(bracket: Option<Bracket>) -> bool
    ensures { result ≡ spec.has_items bracket }
{
    matches!(bracket, Some(Bracket::Call | Bracket::List | Bracket::Map))
}

/// Returns the hint for two values side by side.
fn beside_hint(place: &Place) -> Option<SyntaxHint>
    ensures { result ≡ spec.beside_hint (place_view place.now) }
{
    if has_items(place.innermost()) {
        return Some(SyntaxHint::MissingComma);
    }
    hint_if(
        place.valued || !place.brackets.is_empty(),
        SyntaxHint::MissingOperator,
    )
}

/// Returns the hint for a text.
fn text_hint(place: &Place) -> Option<SyntaxHint>
    ensures { result ≡ spec.text_after place.now.before (place_view place.now) }
{
    match place.before {
        Before::Bar => Some(SyntaxHint::MissingFilter),
        Before::Filter => Some(SyntaxHint::ArgumentsWithoutParens),
        Before::Text if has_items(place.innermost()) => Some(SyntaxHint::MissingComma),
        Before::Text => Some(SyntaxHint::AdjacentTexts),
        Before::Number => beside_hint(place),
        Before::Operand | Before::Operator => None,
    }
}

/// Returns the hint for a number.
fn number_hint(place: &Place) -> Option<SyntaxHint>
    ensures { result ≡ spec.number_after place.now.before (place_view place.now) }
{
    match place.before {
        Before::Bar => Some(SyntaxHint::MissingFilter),
        Before::Filter => Some(SyntaxHint::ArgumentsWithoutParens),
        Before::Text | Before::Number => beside_hint(place),
        Before::Operand | Before::Operator => None,
    }
}

/// Returns the hint for a name.
fn name_hint(place: &Place, name: &str) -> Option<SyntaxHint>
    ensures { result ≡ spec.name_hint (place_view place.now) name.now }
{
    let loops = name == "for" && place.before.ends_operand();
    if loops && !place.brackets.is_empty() {
        return Some(SyntaxHint::Comprehension);
    }
    match place.before {
        Before::Text | Before::Number if !is_operator_word(name) => beside_hint(place),
        _ => None,
    }
}

/// Returns the hint for the token at a place, given the tokens after it.
pub(crate) fn token_hint(place: &Place, token: Token<'_>, rest: &[Token<'_>]) -> Option<SyntaxHint>
    ensures { result ≡ spec.token_hint (place_view place.now) token.entry rest.now }
{
    match token {
        Token::Sign(sign) => sign_hint(place, sign, rest),
        Token::Name(name) => name_hint(place, name),
        Token::Text(_) => text_hint(place),
        Token::Number(_) => number_hint(place),
    }
}

/// Returns the hint for the end of a tag at a place.
pub(crate) fn end_hint(place: &Place) -> Option<SyntaxHint>
    ensures { result ≡ spec.end_hint (place_view place.now) }
{
    if let Some(open) = place.innermost() {
        return Some(missing(open));
    }
    match place.before {
        Before::Bar => Some(SyntaxHint::MissingFilter),
        Before::Operator => hint_if(place.valued, SyntaxHint::MissingExpression),
        _ => None,
    }
}
