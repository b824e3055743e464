//! Defines open statements, whose end has not been read yet.

ghost use Rattle.std.specs.Prelude.{◌≡◌, ◌∷◌, [], List, ℕ, suc, ◌+◌, length, bytes_eq, IfOk};
ghost use Rattle.std.specs.Prelude.{MatchOption, Ok};
ghost use Rattle.std.specs.Str.{chars};
ghost use Rattle.jt_scan.specs.Cut as cut;
ghost use Rattle.jt_expr.specs.Grammar.{Spells, whole};
ghost use Rattle.jt_ast.specs.ExpressionView.{expr_view};
ghost use Rattle.jt_ast.specs.Expressions.{levels};
ghost use Rattle.jt_ast.specs.Statements.{Body, Branches, choose, end};
ghost use Rattle.jt_parse.specs.Tags as tags;
ghost use Rattle.jt_parse.specs.internal.Reading as reading;
ghost use Rattle.jt_ast.specs.StatementView.{stmt_view, body_view, branches_view};
ghost use Rattle.jt_parse.specs.internal.HeadView.{loop_view, opening_view};
ghost use Rattle.jt_parse.specs.internal.Gives.{GivesKind, GivesOnly, Opens, seen};
ghost use Rattle.jt_parse.specs.internal.Gives.{open_stmt_view, open_stmt_by};
ghost use Rattle.jt_parse.specs.internal.Gives.{open_stmts_view};

use crate::error::ParseError;
use crate::expression::is_name;
use crate::opening_tags::{BlockStart, LoopHead};
use jt_ast::{Branch, Expr, Stmt};
use jt_scan::{Token, is_word};
use std::alloc::{AllocError, Global};
use std::mem;

/// The kind of an open statement, with the parts of it that were parsed.
#[derive(Drop)]
pub enum OpenKind {
    /// A branch of an `if`.
    Branch {
        /// The branches before it.
        branches: Vec<Branch<Stmt>>,
        line: u32,
        condition: Expr,
    },
    /// The `else` part of an `if` with these branches.
    Else(Vec<Branch<Stmt>>),
    /// A loop.
    Loop(LoopHead),
    /// The `else` part of a loop with this body.
    LoopElse(LoopHead, Vec<Stmt>),
    /// A statement with a body, neither `if` nor loop.
    BlockStart(BlockStart),
}

/// An open statement.
#[derive(Drop)]
pub struct OpenStmt {
    /// The statements before it in the same body.
    pub before: Vec<Stmt>,
    /// The line of its first tag.
    pub line: u32,
    pub kind: OpenKind,
}

/// Appends a statement to a body.
pub(crate) fn push_statement(body: &mut Vec<Stmt>, statement: Stmt) -> Result<(), AllocError>
    ensures { IfOk result (λ u. body_view body.new.items
        ≡ reading.then_one (body_view body.old.items) (stmt_view statement)) }
{
    body.push(statement)?;
    Ok(())
}

/// Appends a branch.
fn with_branch(
    branches: Vec<Branch<Stmt>>,
    line: u32,
    condition: Expr,
    body: Vec<Stmt>,
) -> Result<Vec<Branch<Stmt>>, AllocError>
    ensures { IfOk result (λ all. branches_view all.items ≡ reading.then_branch
        (branches_view branches.items) line (expr_view condition) (body_view body.items)) }
{
    let mut branches = branches;
    branches.push(Branch {
        line,
        condition,
        body,
    })?;
    Ok(branches)
}

/// Returns the branch with this condition that follows the given ones.
fn opened_branch(
    branches: Result<Vec<Branch<Stmt>>, AllocError>,
    line: u32,
    condition: Result<Expr, ParseError>,
) -> Result<OpenKind, ParseError>
    ensures { (before : Body) (opening n : ℕ) (ts : List cut.Token) (fs : List reading.OpenStmt)
        (done : Branches) → IfOk branches (λ all. branches_view all.items ≡ done)
        → GivesOnly expr_view (λ e. Spells whole e ts) (λ e. suc (length fs) + levels e) n condition
        → GivesKind (reading.After (λ e. Spells whole e ts) (λ e. suc (length fs) + levels e) n
        (λ e. reading.state end (reading.in_branch before done line e ∷ fs))) before opening fs
        result }
{
    let condition = condition?;
    let branches = branches?;
    Ok(OpenKind::Branch {
        branches,
        line,
        condition,
    })
}

/// Returns the `else` part that follows the branches.
fn opened_else(branches: Result<Vec<Branch<Stmt>>, AllocError>) -> Result<OpenKind, ParseError>
    ensures { (before : Body) (opening : ℕ) (fs : List reading.OpenStmt) (done : Branches)
        → IfOk branches (λ all. branches_view all.items ≡ done)
        → GivesKind (λ o. o ≡ Ok (reading.state end (reading.in_else before done ∷ fs))) before
        opening fs result }
{
    Ok(OpenKind::Else(branches?))
}

/// Returns the branch that follows a branch with this body. A statement without branches is
/// refused first, and then a condition that was not read.
pub(crate) fn next_branch(
    kind: OpenKind,
    body: Vec<Stmt>,
    line: u32,
    condition: Result<Expr, ParseError>,
) -> Result<OpenKind, ParseError>
    ensures { (before : Body) (opening n : ℕ) (ts : List cut.Token) (fs : List reading.OpenStmt)
        → GivesOnly expr_view (λ e. Spells whole e ts) (λ e. suc (length fs) + levels e) n condition
        → GivesKind (reading.ElifTag n line ts (body_view body.items)
        (open_stmt_by before opening kind ∷ fs)) before opening fs result }
{
    match kind {
        OpenKind::Branch {
            branches,
            line: first,
            condition: last,
        } => opened_branch(with_branch(branches, first, last, body), line, condition),
        other => {
            drop(other);
            Err(ParseError::Syntax { line })
        }
    }
}

/// Returns the `else` part that follows a branch or a loop with this body, and refuses another
/// statement.
pub(crate) fn else_part(kind: OpenKind, body: Vec<Stmt>, line: u32) -> Result<OpenKind, ParseError>
    ensures { (before : Body) (opening : ℕ) (fs : List reading.OpenStmt)
        → GivesKind (λ o. o ≡ reading.else_by (body_view body.items)
        (open_stmt_by before opening kind ∷ fs)) before opening fs result }
{
    match kind {
        OpenKind::Branch {
            branches,
            line: first,
            condition,
        } => opened_else(with_branch(branches, first, condition, body)),
        OpenKind::Loop(head) => Ok(OpenKind::LoopElse(head, body)),
        other => {
            drop(other);
            Err(ParseError::Syntax { line })
        }
    }
}

/// Pops the innermost open statement.
pub(crate) fn pop_open_stmt(open_stmts: &mut Vec<OpenStmt>) -> Option<OpenStmt>
    ensures { MatchOption result (open_stmts_view open_stmts.old.items ≡ [])
        (λ f. Opens f open_stmts.new.items open_stmts.old.items) }
{
    open_stmts.pop()
}

/// Pushes an open statement, which becomes the innermost one.
pub(crate) fn push_open_stmt(
    open_stmts: &mut Vec<OpenStmt>,
    open_stmt: OpenStmt,
) -> Result<(), AllocError>
    ensures { IfOk result (λ u. Opens open_stmt open_stmts.old.items open_stmts.new.items) }
{
    open_stmts.push(open_stmt)?;
    Ok(())
}

/// Builds an `if` from its branches and its `else` part.
fn if_statement(branches: Vec<Branch<Stmt>>, other: Vec<Stmt>) -> Stmt
    ensures { stmt_view result ≡ choose (branches_view branches.items) (body_view other.items) }
{
    Stmt::If(branches, other)
}

/// Builds a loop from its first tag, its body and its `else` part.
fn for_statement(line: u32, head: LoopHead, body: Vec<Stmt>, other: Vec<Stmt>) -> Stmt
    ensures { stmt_view result
        ≡ tags.looped line (loop_view head) (body_view body.items) (body_view other.items) }
{
    let LoopHead {
        targets,
        over,
        condition,
    } = head;
    Stmt::For {
        line,
        targets,
        over,
        condition,
        body,
        other,
    }
}

/// Builds a statement from its first tag and its body.
fn enclosing(line: u32, opening: BlockStart, body: Vec<Stmt>) -> Stmt
    ensures { stmt_view result ≡ tags.made line (opening_view opening) (body_view body.items) }
{
    match opening {
        BlockStart::Text(name) => Stmt::SetBlock { line, name, body },
        BlockStart::Values(values) => Stmt::With { line, values, body },
        BlockStart::Filters(filters) => Stmt::FilterBlock {
            line,
            filters,
            body,
        },
        BlockStart::Escaping(escaping) => Stmt::Autoescape {
            line,
            escaping,
            body,
        },
        BlockStart::Macro(name, parameters) => Stmt::Macro {
            line,
            name,
            parameters,
            body,
        },
        BlockStart::Block {
            name,
            scoped,
            required,
        } => Stmt::Block {
            line,
            name,
            scoped,
            required,
            body,
        },
    }
}

/// Builds an `if` without an `else` part. Its last branch is given by line, condition and body.
fn ended_branch(
    alloc: Global,
    branches: Vec<Branch<Stmt>>,
    line: u32,
    condition: Expr,
    body: Vec<Stmt>,
) -> Result<Stmt, AllocError>
    ensures { IfOk result (λ s. stmt_view s ≡ choose (reading.then_branch
        (branches_view branches.items) line (expr_view condition) (body_view body.items)) end) }
{
    let all = with_branch(branches, line, condition, body)?;
    Ok(if_statement(all, Vec::new(alloc)))
}

/// Builds the statement that an open statement and its last body make.
fn finished(alloc: Global, line: u32, kind: OpenKind, body: Vec<Stmt>) -> Result<Stmt, AllocError>
    ensures { (before : Body) → IfOk result (λ s. stmt_view s
        ≡ reading.finished (body_view body.items) (open_stmt_by before line kind)) }
{
    match kind {
        OpenKind::Branch {
            branches,
            line: first,
            condition,
        } => ended_branch(alloc, branches, first, condition, body),
        OpenKind::Else(branches) => Ok(if_statement(branches, body)),
        OpenKind::Loop(head) => Ok(for_statement(line, head, body, Vec::new(alloc))),
        OpenKind::LoopElse(head, inside) => Ok(for_statement(line, head, inside, body)),
        OpenKind::BlockStart(opening) => Ok(enclosing(line, opening, body)),
    }
}

/// Ends an open statement with the given body. `body` becomes the statements before it, followed by
/// the statement that ends.
pub(crate) fn close_open_stmt(
    alloc: Global,
    open_stmt: OpenStmt,
    body: &mut Vec<Stmt>,
) -> Result<(), AllocError>
    ensures { IfOk result (λ u. body_view body.new.items
        ≡ reading.then_one (reading.before (open_stmt_view open_stmt))
        (reading.finished (body_view body.old.items) (open_stmt_view open_stmt))) }
{
    let OpenStmt { before, line, kind } = open_stmt;
    let inside = mem::replace(body, before);
    let statement = finished(alloc, line, kind, inside)?;
    push_statement(body, statement)
}

/// Returns the line of the innermost open statement, if there is one.
pub(crate) fn unclosed(open_stmts: Vec<OpenStmt>) -> Option<u32>
    ensures { MatchOption result (open_stmts_view open_stmts.items ≡ [])
        (λ l. (f : reading.OpenStmt) × (fs : List reading.OpenStmt)
        × (open_stmts_view open_stmts.items ≡ f ∷ fs)) }
{
    let mut open_stmts = open_stmts;
    match pop_open_stmt(&mut open_stmts) {
        Some(open_stmt) => {
            let line = open_stmt.line;
            drop(open_stmt);
            Some(line)
        }
        None => None,
    }
}

/// Returns whether an end tag may have these tokens after its word: none, or the name of its block.
fn names_end(opening: &BlockStart, tokens: &[Token<'_>]) -> bool
    ensures { result ≡ reading.names_end (opening_view opening.now) (seen tokens.now) }
{
    match (opening, tokens) {
        (_, []) => true,
        (BlockStart::Block { name, .. }, [Token::Name(found)]) => is_name(found, name),
        _ => false,
    }
}

/// Returns whether a word ends a statement with this first tag.
fn is_end_of(opening: &BlockStart, word: &str) -> bool
    ensures { result ≡ bytes_eq (chars word.now) (tags.end_word (opening_view opening.now)) }
{
    match opening {
        BlockStart::Text(_) => is_word(word, "endset"),
        BlockStart::Values(_) => is_word(word, "endwith"),
        BlockStart::Filters(_) => is_word(word, "endfilter"),
        BlockStart::Escaping(_) => is_word(word, "endautoescape"),
        BlockStart::Macro(_, _) => is_word(word, "endmacro"),
        BlockStart::Block { .. } => is_word(word, "endblock"),
    }
}

/// Returns whether the tag with this word and these tokens ends an open statement.
pub(crate) fn ends_open_stmt(open_stmt: &OpenStmt, word: &str, tokens: &[Token<'_>]) -> bool
    ensures { result ≡ reading.ends_open_stmt (chars word.now) (seen tokens.now)
        (open_stmt_view open_stmt.now) }
{
    match &open_stmt.kind {
        OpenKind::Branch { .. } | OpenKind::Else(_) => is_word(word, "endif") && tokens.is_empty(),
        OpenKind::Loop(_) | OpenKind::LoopElse(_, _) => is_word(word, "endfor")
            && tokens.is_empty(),
        OpenKind::BlockStart(opening) => is_end_of(opening, word) && names_end(opening, tokens),
    }
}

/// Returns whether a word ends some kind of statement.
pub(crate) fn is_end_word(word: &str) -> bool
    ensures { result ≡ reading.is_end_word (chars word.now) }
{
    is_word(word, "endif")
        || is_word(word, "endfor")
        || is_word(word, "endset")
        || is_word(word, "endwith")
        || is_word(word, "endfilter")
        || is_word(word, "endautoescape")
        || is_word(word, "endmacro")
        || is_word(word, "endblock")
}
