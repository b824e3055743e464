//! Defines the open brackets of a list of tokens, and the places in the innermost one.

ghost use Rattle.std.specs.Prelude.{◌≡◌};
ghost use Rattle.jt_syntax.specs.internal.Moves as spec;

/// The kind of a sequence in brackets.
#[derive(Clone, Copy, Debug, PartialEq, Eq)]
pub enum Row {
    /// The items of a list.
    Items,
    /// The entries of a map.
    Entries,
    /// The arguments of a call, filter or test.
    Arguments,
    /// The arguments after the name of a keyword argument.
    Keywords,
}

/// What may follow the closing sign of a sequence.
#[derive(Clone, Copy, Debug, PartialEq, Eq)]
pub enum Follow {
    /// An attribute, an item or a call, or what may follow a filter.
    Postfix,
    /// A filter, a test, an operator or an inline `if`.
    Postscript,
}

/// An open bracket.
#[derive(Clone, Copy, Debug, PartialEq, Eq)]
pub enum Bracket {
    /// No bracket.
    Outermost,
    /// The `(` of an expression in parentheses.
    Group,
    /// The `[` of an item.
    Item,
    /// The opening sign of a sequence.
    Sequence(Row, Follow),
}

/// A part of an inline `if`.
#[derive(Clone, Copy, Debug, PartialEq, Eq)]
pub enum Clause {
    /// What `if` may follow.
    Value,
    /// What follows `if`, which `else` may follow.
    Condition,
}

/// Whether a comparison operator may follow.
#[derive(Clone, Copy, Debug, PartialEq, Eq)]
pub enum Comparison {
    Open,
    Taken,
}

/// The innermost open bracket, with what precedes the place in its innermost expression.
#[derive(Clone, Copy, Debug, PartialEq, Eq)]
pub struct Frame {
    pub bracket: Bracket,
    pub clause: Clause,
    pub comparison: Comparison,
}

impl Frame {
    /// Returns a bracket with nothing inside it yet.
    pub(crate) fn fresh(bracket: Bracket) -> Frame
        ensures { result ≡ spec.fresh bracket }
    {
        Frame {
            bracket,
            clause: Clause::Value,
            comparison: Comparison::Open,
        }
    }

    /// Returns the frame with another state of its comparison.
    pub(crate) fn with(self, comparison: Comparison) -> Frame
        ensures { result ≡ spec.with_comparison self comparison }
    {
        Frame { comparison, ..self }
    }
}

/// The prefix operators that may begin an operand.
#[derive(Clone, Copy, Debug, PartialEq, Eq)]
pub enum Prefixes {
    /// `not`, `-` and `+`.
    All,
    /// `-` and `+`.
    Signs,
}

/// What an operand ends with.
#[derive(Clone, Copy, Debug, PartialEq, Eq)]
pub enum Ending {
    /// A name that may be the name of a keyword argument.
    Keyword,
    /// A form that an attribute, an item or a call may follow.
    Postfix,
    /// The name of a filter.
    FilterName,
    /// The name of a test.
    TestName,
    /// A filter or a test that is complete.
    Postscript,
}

/// What may stand at a place.
#[derive(Clone, Copy, Debug, PartialEq, Eq)]
pub enum Place {
    /// An operand.
    Operand(Prefixes),
    /// A part of a sequence, or its closing sign.
    Part,
    /// The colon after the key of an entry.
    Colon,
    /// The `=` after the name of a keyword argument.
    Assign,
    /// The name of an attribute.
    Attribute,
    /// The name of a filter.
    Filter,
    /// The name of a test, or `not`.
    Test,
    /// The name of a test after `is not`.
    NegatedTest,
    /// The `in` of `not in`.
    In,
    /// What follows an operand.
    Behind(Ending),
}

/// What a token does to the open brackets.
#[derive(Clone, Copy, Debug, PartialEq, Eq)]
pub enum Move {
    /// The innermost bracket stays open.
    To(Place, Frame),
    /// A bracket opens.
    Opens(Place, Frame),
    /// The innermost bracket closes.
    Closes,
}
