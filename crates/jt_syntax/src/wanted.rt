//! Finds what may stand behind tokens that begin an expression.

ghost use Rattle.std.specs.Prelude.{IfOk, map};
ghost use Rattle.jt_scan.specs.View.{token_view};
ghost use Rattle.jt_syntax.specs.Prefixes.{ReportsWanted};

use crate::kinds::kind_of;
use crate::prefix::{Prefix, Standing};
use jt_scan::{Sign, Token};
use std::alloc::{AllocError, Global};

/// What may stand behind tokens that begin an expression.
#[derive(Clone, Copy, Debug, PartialEq, Eq)]
pub struct Wanted {
    /// Whether a number may, and so a name or another operand.
    pub operand: bool,
    /// Whether `~` may, and so another operator of its kind.
    pub operator: bool,
    /// Whether a comma may.
    pub comma: bool,
    /// The closing sign that may, if one may.
    pub closer: Option<Sign>,
}

/// Returns what may stand behind the tokens, or `None` if they begin no expression.
///
/// # Errors
///
/// `AllocError` if a growth is refused.
pub fn wanted_behind(alloc: Global, tokens: &[Token<'_>]) -> Result<Option<Wanted>, AllocError>
    ensures { IfOk result (ReportsWanted (map token_view tokens.now)) }
{
    let mut prefix = Prefix::start(alloc);
    for token in tokens {
        match prefix.take(kind_of(*token))? {
            Standing::Fits => {}
            Standing::Stuck => return Ok(None),
        }
    }
    Ok(Some(prefix.wanted()))
}
