//! Follows the tokens of an expression from place to place.

ghost use Rattle.std.specs.Prelude.{◌≡◌, IfOk, map};
ghost use Rattle.std.specs.Option.{is_some};
ghost use Rattle.jt_scan.specs.View.{token_view};
ghost use Rattle.jt_syntax.specs.Prefixes.{Reports};
ghost use Rattle.jt_syntax.specs.internal.States as spec;

use crate::frames::{Bracket, Ending, Frame, Move, Place, Prefixes};
use crate::kinds::{Kind, kind_of};
use crate::moves::{closed, next};
use crate::wanted::Wanted;
use jt_scan::{Sign, Token};
use std::alloc::{AllocError, Global};

/// Whether a token may stand at its place.
#[derive(Clone, Copy, Debug, PartialEq, Eq)]
pub enum Standing {
    Fits,
    Stuck,
}

/// The open brackets of the tokens so far, and the place behind them.
#[derive(Drop)]
pub struct Prefix {
    place: Place,
    /// The innermost open bracket.
    frame: Frame,
    /// The open brackets around it. The innermost one is the last one.
    outer: Vec<Frame>,
}

impl Prefix {
    /// Returns the place of the first token.
    pub(crate) fn start(alloc: Global) -> Prefix
        ensures { spec.view result ≡ spec.start }
    {
        Prefix {
            place: Place::Operand(Prefixes::All),
            frame: Frame::fresh(Bracket::Outermost),
            outer: Vec::new(alloc),
        }
    }

    /// Makes a move.
    fn make(&mut self, step: Move) -> Result<Standing, AllocError>
        ensures { IfOk result (spec.Makes (spec.made step (spec.view self.old))
            (spec.view self.new)) }
    {
        match step {
            Move::To(place, frame) => {
                self.place = place;
                self.frame = frame;
            }
            Move::Opens(place, frame) => {
                self.outer.push(self.frame)?;
                self.place = place;
                self.frame = frame;
            }
            Move::Closes => {
                let Some(frame) = self.outer.pop() else {
                    return Ok(Standing::Stuck);
                };
                self.place = closed(self.frame.bracket);
                self.frame = frame;
            }
        }
        Ok(Standing::Fits)
    }

    /// Takes a token of the kind, if it may stand at the place.
    pub(crate) fn take(&mut self, kind: Kind) -> Result<Standing, AllocError>
        ensures { IfOk result (spec.Makes (spec.step (spec.view self.old) kind)
            (spec.view self.new)) }
    {
        match next(self.place, self.frame, kind) {
            Some(step) => self.make(step),
            None => Ok(Standing::Stuck),
        }
    }

    /// Returns whether a token of the kind may stand at the place.
    fn allows(&self, kind: Kind) -> bool
        ensures { result ≡ is_some (spec.step (spec.view self.now) kind) }
    {
        match next(self.place, self.frame, kind) {
            Some(Move::Closes) => !self.outer.is_empty(),
            Some(Move::To(..) | Move::Opens(..)) => true,
            None => false,
        }
    }

    /// Returns the closing sign that may stand at the place, if one may.
    fn closer(&self) -> Option<Sign>
        ensures { result ≡ spec.closer_at (spec.view self.now) }
    {
        if self.allows(Kind::Sign(Sign::RightParen)) {
            Some(Sign::RightParen)
        } else if self.allows(Kind::Sign(Sign::RightBracket)) {
            Some(Sign::RightBracket)
        } else if self.allows(Kind::Sign(Sign::RightBrace)) {
            Some(Sign::RightBrace)
        } else {
            None
        }
    }

    /// Returns what may stand at the place.
    pub(crate) fn wanted(&self) -> Wanted
        ensures { result ≡ spec.wanted (spec.view self.now) }
    {
        Wanted {
            operand: self.allows(Kind::Number),
            operator: self.allows(Kind::Sign(Sign::Tilde)),
            comma: self.allows(Kind::Sign(Sign::Comma)),
            closer: self.closer(),
        }
    }

    /// Returns whether the tokens so far are an expression.
    fn is_complete(&self) -> bool
        ensures { result ≡ spec.is_complete (spec.view self.now) }
    {
        match (self.place, self.frame.bracket) {
            (Place::Behind(_), Bracket::Outermost) => true,
            _ => false,
        }
    }
}

/// Returns the position of the first token at which no expression goes on: the tokens before it
/// begin an expression, and with it they begin none. Returns the number of tokens if they begin an
/// expression and are none, and `None` if they are one.
///
/// # Errors
///
/// `AllocError` if a growth is refused.
pub fn stuck_at(alloc: Global, tokens: &[Token<'_>]) -> Result<Option<usize>, AllocError>
    ensures { IfOk result (Reports (map token_view tokens.now)) }
{
    let mut prefix = Prefix::start(alloc);
    let mut position = 0;
    for token in tokens {
        match prefix.take(kind_of(*token))? {
            Standing::Fits => {}
            Standing::Stuck => return Ok(Some(position)),
        }
        position += 1;
    }
    Ok(if prefix.is_complete() {
        None
    } else {
        Some(position)
    })
}
