//! Decides which tokens may stand at a place, and to which place they lead.
//!
//! Read first: `next`, and specs/internal/Moves.antt, which states each decision.

ghost use Rattle.std.specs.Prelude.{◌≡◌};
ghost use Rattle.jt_syntax.specs.internal.Moves as spec;

use crate::frames::{
    Bracket, Clause, Comparison, Ending, Follow, Frame, Move, Place, Prefixes, Row,
};
use crate::kinds::Kind;
use jt_scan::Sign;

/// Returns the move of a sign that begins an operand.
fn operand_sign(frame: Frame, sign: Sign) -> Option<Move>
    ensures { result ≡ spec.operand_sign frame sign }
{
    match sign {
        Sign::Minus | Sign::Plus => Some(Move::To(Place::Operand(Prefixes::Signs), frame)),
        Sign::LeftParen => {
            let group = Frame::fresh(Bracket::Group);
            Some(Move::Opens(Place::Operand(Prefixes::All), group))
        }
        Sign::LeftBracket => {
            let list = Bracket::Sequence(Row::Items, Follow::Postfix);
            Some(Move::Opens(Place::Part, Frame::fresh(list)))
        }
        Sign::LeftBrace => {
            let map = Bracket::Sequence(Row::Entries, Follow::Postfix);
            Some(Move::Opens(Place::Part, Frame::fresh(map)))
        }
        _ => None,
    }
}

/// Returns the move of a token that begins an operand.
fn operand(prefixes: Prefixes, frame: Frame, kind: Kind) -> Option<Move>
    ensures { result ≡ spec.operand prefixes frame kind }
{
    match (kind, prefixes) {
        (Kind::Name | Kind::Constant | Kind::Number | Kind::Text, _) => {
            Some(Move::To(Place::Behind(Ending::Postfix), frame))
        }
        (Kind::Not, Prefixes::All) => Some(Move::To(Place::Operand(Prefixes::All), frame)),
        (Kind::Sign(sign), _) => operand_sign(frame, sign),
        _ => None,
    }
}

/// Returns the move of a token that begins a part of a sequence, or closes the sequence.
fn part(row: Row, frame: Frame, kind: Kind) -> Option<Move>
    ensures { result ≡ spec.part row frame kind }
{
    match (row, kind) {
        (Row::Items, Kind::Sign(Sign::RightBracket)) => Some(Move::Closes),
        (Row::Items, _) => operand(Prefixes::All, frame, kind),
        (Row::Entries, Kind::Sign(Sign::RightBrace)) => Some(Move::Closes),
        (Row::Entries, Kind::Text) => Some(Move::To(Place::Colon, frame)),
        (Row::Entries, _) => None,
        (Row::Arguments | Row::Keywords, Kind::Sign(Sign::RightParen)) => Some(Move::Closes),
        (Row::Arguments, Kind::Name) => Some(Move::To(Place::Behind(Ending::Keyword), frame)),
        (Row::Arguments, _) => operand(Prefixes::All, frame, kind),
        (Row::Keywords, Kind::Name) => Some(Move::To(Place::Assign, frame)),
        (Row::Keywords, _) => None,
    }
}

/// Returns the move of a token in a sequence that begins a part, or closes the sequence.
fn part_in(frame: Frame, kind: Kind) -> Option<Move>
    ensures { result ≡ spec.part_in frame.bracket frame kind }
{
    match frame.bracket {
        Bracket::Sequence(row, _) => part(row, frame, kind),
        Bracket::Outermost | Bracket::Group | Bracket::Item => None,
    }
}

/// Returns the move of the `=` after the name of a keyword argument.
fn assigned(bracket: Bracket) -> Option<Move>
    ensures { result ≡ spec.assigned bracket }
{
    match bracket {
        Bracket::Sequence(_, follow) => {
            let keywords = Bracket::Sequence(Row::Keywords, follow);
            Some(Move::To(Place::Operand(Prefixes::All), Frame::fresh(keywords)))
        }
        Bracket::Outermost | Bracket::Group | Bracket::Item => None,
    }
}

/// Returns the move of a comparison operator.
fn compared(frame: Frame) -> Option<Move>
    ensures { result ≡ spec.compared frame.comparison frame }
{
    match frame.comparison {
        Comparison::Open => {
            let taken = frame.with(Comparison::Taken);
            Some(Move::To(Place::Operand(Prefixes::Signs), taken))
        }
        Comparison::Taken => None,
    }
}

/// Returns the move of the `not` of `not in`.
fn negated(frame: Frame) -> Option<Move>
    ensures { result ≡ spec.negated frame.comparison frame }
{
    match frame.comparison {
        Comparison::Open => Some(Move::To(Place::In, frame)),
        Comparison::Taken => None,
    }
}

/// Returns the move of a comma.
fn separated(bracket: Bracket) -> Option<Move>
    ensures { result ≡ spec.separated bracket }
{
    match bracket {
        Bracket::Sequence(..) => Some(Move::To(Place::Part, Frame::fresh(bracket))),
        Bracket::Outermost | Bracket::Group | Bracket::Item => None,
    }
}

/// Returns whether the sign closes the bracket.
fn closes(bracket: Bracket, sign: Sign) -> bool
    ensures { result ≡ spec.closes bracket sign }
{
    matches!(
        (bracket, sign),
        (
            Bracket::Group | Bracket::Sequence(Row::Arguments | Row::Keywords, _),
            Sign::RightParen
        ) | (
            Bracket::Item | Bracket::Sequence(Row::Items, _),
            Sign::RightBracket
        ) | (Bracket::Sequence(Row::Entries, _), Sign::RightBrace)
    )
}

/// Returns the move of a sign behind a complete operand.
fn onward_sign(frame: Frame, sign: Sign) -> Option<Move>
    ensures { result ≡ spec.onward_sign frame sign }
{
    match sign {
        Sign::Pipe => Some(Move::To(Place::Filter, frame)),
        Sign::Power | Sign::Times | Sign::FloorDivide | Sign::Percent | Sign::Tilde => {
            Some(Move::To(Place::Operand(Prefixes::Signs), frame))
        }
        Sign::Plus | Sign::Minus => Some(Move::To(Place::Operand(Prefixes::Signs), frame)),
        Sign::Equal | Sign::NotEqual | Sign::Less => compared(frame),
        Sign::LessEqual | Sign::Greater | Sign::GreaterEqual => compared(frame),
        Sign::Comma => separated(frame.bracket),
        Sign::RightParen | Sign::RightBracket | Sign::RightBrace => {
            if closes(frame.bracket, sign) {
                Some(Move::Closes)
            } else {
                None
            }
        }
        Sign::Assign | Sign::Dot | Sign::Colon => None,
        Sign::LeftParen | Sign::LeftBracket | Sign::LeftBrace => None,
    }
}

/// Returns the move of an `if` or `else` behind a complete operand.
fn chosen(frame: Frame, kind: Kind) -> Option<Move>
    ensures { result ≡ spec.chosen frame.clause frame kind }
{
    let place = Place::Operand(Prefixes::All);
    match (frame.clause, kind) {
        (Clause::Value, Kind::If) => {
            let condition = Frame {
                bracket: frame.bracket,
                clause: Clause::Condition,
                comparison: Comparison::Open,
            };
            Some(Move::To(place, condition))
        }
        (Clause::Condition, Kind::Else) => Some(Move::To(place, Frame::fresh(frame.bracket))),
        _ => None,
    }
}

/// Returns the move of a token behind a complete filter, test or operand.
fn onward(frame: Frame, kind: Kind) -> Option<Move>
    ensures { result ≡ spec.onward frame kind }
{
    match kind {
        Kind::Is => Some(Move::To(Place::Test, frame)),
        Kind::And | Kind::Or => {
            let open = frame.with(Comparison::Open);
            Some(Move::To(Place::Operand(Prefixes::All), open))
        }
        Kind::Not => negated(frame),
        Kind::In => compared(frame),
        Kind::If | Kind::Else => chosen(frame, kind),
        Kind::Sign(sign) => onward_sign(frame, sign),
        Kind::Name | Kind::Constant | Kind::Number | Kind::Text => None,
    }
}

/// Returns the move of the `(` before arguments.
fn arguments(follow: Follow) -> Move
    ensures { result ≡ spec.opened follow }
{
    let bracket = Bracket::Sequence(Row::Arguments, follow);
    Move::Opens(Place::Part, Frame::fresh(bracket))
}

/// Returns the move of a token behind a form that an attribute, an item or a call may follow.
fn postfix(frame: Frame, kind: Kind) -> Option<Move>
    ensures { result ≡ spec.postfix frame kind }
{
    match kind {
        Kind::Sign(Sign::Dot) => Some(Move::To(Place::Attribute, frame)),
        Kind::Sign(Sign::LeftBracket) => {
            let item = Frame::fresh(Bracket::Item);
            Some(Move::Opens(Place::Operand(Prefixes::All), item))
        }
        Kind::Sign(Sign::LeftParen) => Some(arguments(Follow::Postfix)),
        _ => onward(frame, kind),
    }
}

/// Returns the move of a token behind the name of a test.
fn test_name(frame: Frame, kind: Kind) -> Option<Move>
    ensures { result ≡ spec.test_name frame kind }
{
    match kind {
        Kind::Sign(Sign::LeftParen) => Some(arguments(Follow::Postscript)),
        Kind::Name | Kind::Constant | Kind::Number | Kind::Text => {
            operand(Prefixes::Signs, frame, kind)
        }
        Kind::Sign(Sign::LeftBracket | Sign::LeftBrace) => operand(Prefixes::Signs, frame, kind),
        _ => onward(frame, kind),
    }
}

/// Returns the move of a token behind an operand.
fn behind(ending: Ending, frame: Frame, kind: Kind) -> Option<Move>
    ensures { result ≡ spec.behind ending frame kind }
{
    match (ending, kind) {
        (Ending::Keyword, Kind::Sign(Sign::Assign)) => assigned(frame.bracket),
        (Ending::Keyword | Ending::Postfix, _) => postfix(frame, kind),
        (Ending::FilterName, Kind::Sign(Sign::LeftParen)) => Some(arguments(Follow::Postscript)),
        (Ending::FilterName | Ending::Postscript, _) => onward(frame, kind),
        (Ending::TestName, _) => test_name(frame, kind),
    }
}

/// Returns the move of a word that names an attribute or a test.
fn named(ending: Ending, frame: Frame, kind: Kind) -> Option<Move>
    ensures { result ≡ spec.named ending frame kind }
{
    if kind.is_word() {
        Some(Move::To(Place::Behind(ending), frame))
    } else {
        None
    }
}

/// Returns the move of a token at a place, or `None` if it may not stand there.
pub(crate) fn next(place: Place, frame: Frame, kind: Kind) -> Option<Move>
    ensures { result ≡ spec.next place frame kind }
{
    match (place, kind) {
        (Place::Operand(prefixes), _) => operand(prefixes, frame, kind),
        (Place::Part, _) => part_in(frame, kind),
        (Place::Colon, Kind::Sign(Sign::Colon)) => {
            Some(Move::To(Place::Operand(Prefixes::All), frame))
        }
        (Place::Assign, Kind::Sign(Sign::Assign)) => assigned(frame.bracket),
        (Place::Attribute, _) => named(Ending::Postfix, frame, kind),
        (Place::Filter, Kind::Name) => Some(Move::To(Place::Behind(Ending::FilterName), frame)),
        (Place::Test, Kind::Not) => Some(Move::To(Place::NegatedTest, frame)),
        (Place::Test | Place::NegatedTest, _) => named(Ending::TestName, frame, kind),
        (Place::In, Kind::In) => {
            let taken = frame.with(Comparison::Taken);
            Some(Move::To(Place::Operand(Prefixes::Signs), taken))
        }
        (Place::Behind(ending), _) => behind(ending, frame, kind),
        (Place::Colon | Place::Assign | Place::Filter | Place::In, _) => None,
    }
}

/// Returns the place behind the closing sign of a bracket.
pub(crate) fn closed(bracket: Bracket) -> Place
    ensures { result ≡ spec.closed bracket }
{
    match bracket {
        Bracket::Sequence(_, Follow::Postscript) => Place::Behind(Ending::Postscript),
        Bracket::Sequence(_, Follow::Postfix) => Place::Behind(Ending::Postfix),
        Bracket::Outermost | Bracket::Group | Bracket::Item => Place::Behind(Ending::Postfix),
    }
}
