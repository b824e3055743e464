//! Finds the end of raw text.

ghost use Rattle.std.specs.Prelude.{◌≡◌, codes};
ghost use Rattle.std.specs.Str.{chars};
ghost use Rattle.jt_scan.specs.internal.PartView.{IsFound, IsRest, IsSplit};
ghost use Rattle.jt_scan.specs.Cut as cut;

use crate::marks::{read_closer, read_mark};
use crate::segment::{Marks, TagKind};
use crate::text::{before, behind_pair, behind_space, first};

/// Returns the rest of a text after the word `endraw`, if the text begins with it.
fn behind_endraw(text: &str) -> Option<&str>
    ensures { IsRest (cut.after_word (codes "endraw") (chars text.now)) result }
{
    behind_pair(
        behind_pair(behind_pair(text, 'e', 'n')?, 'd', 'r')?,
        'a',
        'w',
    )
}

/// Reads an `endraw` tag. Returns its marks and the rest of the text.
#[tactic(auto, unfolding(crate::specs::Cut::endraw_at))]
pub(crate) fn read_endraw(text: &str) -> Option<(Marks, &str)>
    ensures { IsFound (λ a. a) (cut.endraw_at (chars text.now)) result }
{
    let inside = behind_pair(text, '{', '%')?;
    let (opening, more) = read_mark(inside);
    let named = behind_endraw(behind_space(more))?;
    let (closing, rest) = read_closer(behind_space(named), TagKind::Block)?;
    Some((Marks { opening, closing }, rest))
}

/// Returns whether a text begins with an `endraw` tag.
fn ends_raw(text: &str) -> bool
    ensures { result ≡ cut.ends_raw (chars text.now) }
{
    read_endraw(text).is_some()
}

/// Splits a text before its first `endraw` tag, or at its end if it has none.
pub(crate) fn split_raw(text: &str) -> (&str, &str)
    ensures { IsSplit cut.ends_raw text.now result }
{
    let mut rest = text;
    'raw: while let Some((_c, more)) = first(rest) {
        if ends_raw(rest) {
            return (before(text, rest), rest);
        }
        rest = more;
    }
    (text, rest)
}
