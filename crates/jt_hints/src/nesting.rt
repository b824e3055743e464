//! Finds the statement that is never closed, and the tag that closes or continues none.

ghost use Rattle.std.specs.Prelude.{◌≡◌, ◌==◌, IfOk, OnOk};
ghost use Rattle.jt_hints.specs.Nesting as spec;

use jt_scan::{Segment, SegmentKind, Sign, TagKind, Token};
use std::alloc::{AllocError, Global};

/// A statement that has a body.
#[derive(Clone, Copy, Debug, Drop, PartialEq, Eq)]
pub enum Statement {
    If,
    For,
    Set,
    With,
    Filter,
    Autoescape,
    Macro,
    Block,
}

impl Statement {
    /// Returns whether both are one kind of statement.
    pub(crate) fn is(self, other: Statement) -> bool
        ensures { result ≡ (spec.position self == spec.position other) }
    {
        self as u8 == other as u8
    }

    /// Returns the sentence for a statement that is never closed.
    fn unclosed(self) -> &'static str
        ensures { result.now ≡ spec.unclosed_sentence self }
    {
        match self {
            Statement::If => "this statement is never closed: endif is missing",
            Statement::For => "this statement is never closed: endfor is missing",
            Statement::Set => "this statement is never closed: endset is missing",
            Statement::With => "this statement is never closed: endwith is missing",
            Statement::Filter => "this statement is never closed: endfilter is missing",
            Statement::Autoescape => "this statement is never closed: endautoescape is missing",
            Statement::Macro => "this statement is never closed: endmacro is missing",
            Statement::Block => "this statement is never closed: endblock is missing",
        }
    }

    /// Returns the sentence for a tag that would close another statement than the innermost.
    fn to_close(self) -> &'static str
        ensures { result.now ≡ spec.other_sentence self }
    {
        match self {
            Statement::If => "an if statement is open here: endif has to come first",
            Statement::For => "a for statement is open here: endfor has to come first",
            Statement::Set => "a set statement is open here: endset has to come first",
            Statement::With => "a with statement is open here: endwith has to come first",
            Statement::Filter => "a filter statement is open here: endfilter has to come first",
            Statement::Autoescape => {
                "an autoescape statement is open here: endautoescape has to come first"
            }
            Statement::Macro => "a macro statement is open here: endmacro has to come first",
            Statement::Block => "a block statement is open here: endblock has to come first",
        }
    }
}

/// A reason why the statements of a template do not nest.
#[derive(Clone, Copy, Debug, Drop, PartialEq, Eq)]
pub enum NestingHint {
    /// A statement that is never closed.
    Unclosed(Statement),
    /// A tag that closes or continues a statement, while none is open.
    NothingOpen,
    /// A tag that closes or continues another statement than the innermost open one, and the line
    /// of that one.
    OtherOpen { statement: Statement, line: u32 },
}

impl NestingHint {
    /// Returns what an explanation says of the reason.
    pub fn sentence(self) -> &'static str
        ensures { result.now ≡ spec.sentence self }
    {
        match self {
            NestingHint::Unclosed(statement) => statement.unclosed(),
            NestingHint::NothingOpen => {
                "this tag closes or continues a statement, and none is open here"
            }
            NestingHint::OtherOpen { statement, .. } => statement.to_close(),
        }
    }
}

/// An open statement, with the line of its first tag.
#[derive(Clone, Copy)]
pub struct Opened {
    pub statement: Statement,
    pub line: u32,
}

/// What a tag does to the open statements.
#[derive(Clone, Copy)]
pub enum Role {
    Opens(Statement),
    Closes(Statement),
    /// `elif`
    ContinuesIf,
    /// `else`
    ContinuesIfOrFor,
    /// Nothing.
    Stands,
}

/// Returns whether a token is `=`.
fn is_assign(token: Token<'_>) -> bool
    ensures { result ≡ spec.is_assign token.entry }
{
    matches!(token, Token::Sign(Sign::Assign))
}

/// Returns what a `set` tag does, given the tokens after its first word.
fn set_role(tokens: &[Token<'_>]) -> Role
    ensures { result ≡ spec.set_role tokens.now }
{
    for token in tokens {
        if is_assign(*token) {
            return Role::Stands;
        }
    }
    Role::Opens(Statement::Set)
}

/// Returns what a block tag does, by its first word and by the tokens after it.
fn role_of(word: &str, tokens: &[Token<'_>]) -> Role
    ensures { result ≡ spec.role_of word.now tokens.now }
{
    match word {
        "if" => Role::Opens(Statement::If),
        "for" => Role::Opens(Statement::For),
        "set" => set_role(tokens),
        "with" => Role::Opens(Statement::With),
        "filter" => Role::Opens(Statement::Filter),
        "autoescape" => Role::Opens(Statement::Autoescape),
        "macro" => Role::Opens(Statement::Macro),
        "block" => Role::Opens(Statement::Block),
        "elif" => Role::ContinuesIf,
        "else" => Role::ContinuesIfOrFor,
        _ => closing_role(word),
    }
}

/// Returns what a block tag does that opens and continues no statement, by its first word.
fn closing_role(word: &str) -> Role
    ensures { result ≡ spec.closing_role word.now }
{
    match word {
        "endif" => Role::Closes(Statement::If),
        "endfor" => Role::Closes(Statement::For),
        "endset" => Role::Closes(Statement::Set),
        "endwith" => Role::Closes(Statement::With),
        "endfilter" => Role::Closes(Statement::Filter),
        "endautoescape" => Role::Closes(Statement::Autoescape),
        "endmacro" => Role::Closes(Statement::Macro),
        "endblock" => Role::Closes(Statement::Block),
        _ => Role::Stands,
    }
}

/// Returns what a segment does, and its line if it is a tag.
pub(crate) fn role_in(segment: &Segment<'_>) -> (Role, u32)
    ensures { result ≡ spec.role_in segment.now }
{
    let SegmentKind::Tag(tag) = &segment.part else {
        return (Role::Stands, 0);
    };
    match (tag.kind, tag.tokens.as_slice()) {
        (TagKind::Block, [Token::Name(word), rest @ ..]) => (role_of(word, rest), tag.line),
        _ => (Role::Stands, tag.line),
    }
}

/// Returns the hint for a tag that does not fit the innermost open statement.
fn misfit(innermost: Option<Opened>, fits: bool) -> Option<NestingHint>
    ensures { result ≡ spec.misfit innermost fits }
{
    match innermost {
        None => Some(NestingHint::NothingOpen),
        Some(_) if fits => None,
        Some(Opened { statement, line }) => Some(NestingHint::OtherOpen { statement, line }),
    }
}

/// Returns whether the innermost open statement is of a kind.
fn is_open(innermost: Option<Opened>, statement: Statement) -> bool
    ensures { result ≡ spec.is_open innermost statement }
{
    match innermost {
        Some(opened) => opened.statement.is(statement),
        None => false,
    }
}

/// Returns the hint for a tag, if it does not fit the innermost open statement.
fn clash(innermost: Option<Opened>, role: Role) -> Option<NestingHint>
    ensures { result ≡ spec.clash innermost role }
{
    match role {
        Role::Closes(statement) => misfit(innermost, is_open(innermost, statement)),
        Role::ContinuesIf => misfit(innermost, is_open(innermost, Statement::If)),
        Role::ContinuesIfOrFor => {
            let is_if = is_open(innermost, Statement::If);
            misfit(innermost, is_if || is_open(innermost, Statement::For))
        }
        Role::Opens(_) | Role::Stands => None,
    }
}

/// Opens or closes a statement, as a tag at the line does.
pub(crate) fn pass(opened: &mut Vec<Opened>, role: Role, line: u32) -> Result<(), AllocError>
    ensures { OnOk result (opened.new.items ≡ spec.opened_after opened.old.items role line) }
{
    match role {
        Role::Opens(statement) => opened.push(Opened { statement, line })?,
        Role::Closes(_) => {
            opened.pop();
        }
        _ => {}
    }
    Ok(())
}

/// Returns the hint for the end of a source, if the innermost open statement begins at the line.
fn unclosed(innermost: Option<Opened>, line: u32) -> Option<NestingHint>
    ensures { result ≡ spec.unclosed innermost line }
{
    match innermost {
        Some(opened) if opened.line == line => Some(NestingHint::Unclosed(opened.statement)),
        _ => None,
    }
}

/// Returns the reason why the statements of a template do not nest, if it is found at the line: the
/// first tag that closes or continues no open statement, or the innermost statement that is never
/// closed.
///
/// # Errors
///
/// `AllocError` if a growth is refused.
pub fn nesting_hint(
    alloc: Global,
    segments: &[Segment<'_>],
    line: u32,
) -> Result<Option<NestingHint>, AllocError>
    ensures { IfOk result (λ hint. hint ≡ spec.nesting_hint segments.now line) }
{
    let mut opened = Vec::new(alloc);
    for segment in segments {
        let (role, here) = role_in(segment);
        if let Some(hint) = clash(opened.last().copied(), role) {
            return Ok(if here == line { Some(hint) } else { None });
        }
        pass(&mut opened, role, here)?;
    }
    Ok(unclosed(opened.last().copied(), line))
}
