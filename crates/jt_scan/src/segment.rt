//! Defines segments and tokens, which are slices of their source.

use crate::options::Options;

/// A sign, by its spelling.
#[derive(Clone, Copy, Debug, PartialEq, Eq)]
pub enum Sign {
    /// `+`
    Plus,
    /// `-`
    Minus,
    /// `*`
    Times,
    /// `%`
    Percent,
    /// `~`
    Tilde,
    /// `<`
    Less,
    /// `>`
    Greater,
    /// `=`
    Assign,
    /// `.`
    Dot,
    /// `,`
    Comma,
    /// `:`
    Colon,
    /// `|`
    Pipe,
    /// `(`
    LeftParen,
    /// `)`
    RightParen,
    /// `[`
    LeftBracket,
    /// `]`
    RightBracket,
    /// `{`
    LeftBrace,
    /// `}`
    RightBrace,
    /// `**`
    Power,
    /// `//`
    FloorDivide,
    /// `==`
    Equal,
    /// `!=`
    NotEqual,
    /// `<=`
    LessEqual,
    /// `>=`
    GreaterEqual,
}

/// A token of a tag.
#[derive(Clone, Copy, Debug, PartialEq, Eq)]
pub enum Token<'a> {
    /// A name or a reserved word.
    Name(&'a str),
    /// The value of a number.
    Number(i64),
    /// The source characters between the quotes of a text literal;
    /// [`text_value`](crate::text_value) returns their value.
    Text(&'a str),
    Sign(Sign),
}

/// The kind of a tag.
#[derive(Clone, Copy, Debug, PartialEq, Eq)]
pub enum TagKind {
    /// `{{ .. }}`
    Variable,
    /// `{% .. %}`
    Block,
}

/// A mark directly inside a delimiter.
#[derive(Clone, Copy, Debug, PartialEq, Eq)]
pub enum Mark {
    /// No mark.
    Absent,
    /// `-`
    Minus,
    /// `+`
    Plus,
}

/// The marks of a tag.
#[derive(Clone, Copy, Debug, PartialEq, Eq)]
pub struct Marks {
    /// The mark directly after the opener.
    pub opening: Mark,
    /// The mark directly before the closer.
    pub closing: Mark,
}

/// A variable or a block tag.
#[derive(Debug, Drop)]
pub struct Tag<'a> {
    /// The kind of the tag.
    pub kind: TagKind,
    /// The marks inside its delimiters.
    pub marks: Marks,
    /// The line of the tag's first `{`, counted from 1.
    pub line: u32,
    /// The tokens between the delimiters.
    pub tokens: Vec<Token<'a>>,
}

/// The content of a segment.
#[derive(Debug, Drop)]
pub enum SegmentKind<'a> {
    /// Text outside tags, never empty.
    Data(&'a str),
    /// A variable or block tag other than `raw` and `endraw`.
    Tag(Tag<'a>),
    /// `{# .. #}`: its marks, and the text between the delimiters.
    Comment(Marks, &'a str),
    /// `{% raw %} .. {% endraw %}`: the marks of the `raw` tag, the text, and the marks of the
    /// `endraw` tag.
    Raw(Marks, &'a str, Marks),
}

/// A part of a source.
#[derive(Debug, Drop)]
pub struct Segment<'a> {
    /// The options that the source is read with.
    pub options: Options,
    pub part: SegmentKind<'a>,
}
