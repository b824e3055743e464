//! Parses segments into a syntax tree.
//!
//! The parser reads the segments in order and keeps a stack of open statements. It does not recurse
//! into statements, so that a deeply nested source does not exhaust the call stack.

ghost use Rattle.std.specs.Prelude.{◌≡◌, ◌≤◌, ◌-◌, ◌+◌, suc, length, nat_lt, None, true, false};
ghost use Rattle.std.specs.Prelude.{[], ◌∷◌, IfOk, IfErr, MatchResult};
ghost use Rattle.std.specs.Str.{chars};
ghost use Rattle.jt_scan.specs.Cut.{weight_of};
ghost use Rattle.jt_scan.specs.View.{segment_view, cut_of};
ghost use Rattle.jt_parse.specs.Names.{body_unknown};
ghost use Rattle.jt_ast.specs.Statements as trees;
ghost use Rattle.jt_ast.specs.Statements.{Body, body_levels, body_weight};
ghost use Rattle.jt_ast.specs.Sizes.{body_bytes};
ghost use Rattle.jt_parse.specs.Bytes.{bytes_of};
ghost use Rattle.jt_parse.specs.Grammar.{Spelled};
ghost use Rattle.jt_parse.specs.Kept as kept;
ghost use Rattle.jt_parse.specs.internal.Reading as reading;
ghost use Rattle.jt_parse.specs.internal.Reading.{HeadTag, PrintTag};
ghost use Rattle.jt_ast.specs.StatementView.{body_of};
ghost use Rattle.jt_parse.specs.View.{pieces_of};
ghost use Rattle.jt_parse.specs.internal.HeadView.{head_view};
ghost use Rattle.jt_parse.specs.internal.SideView.{side_view};
ghost use Rattle.jt_ast.specs.Expressions.{levels};
ghost use Rattle.jt_ast.specs.ExpressionView.{expr_view};
ghost use Rattle.jt_expr.specs.Grammar.{Spells, whole};
ghost use Rattle.jt_parse.specs.internal.Gives.{GivesState, GivesBody, GivesKnown, GivesOnly};
ghost use Rattle.jt_parse.specs.internal.Gives.{Moves, RunsOver};
ghost use Rattle.jt_parse.specs.internal.Gives.{body_in};
ghost use Rattle.jt_parse.specs.internal.Gives.{open_in, seen, open_stmt_by, open_stmt_view};
ghost use Rattle.jt_parse.specs.internal.Gives.{open_stmts_view, state_view};
ghost use Rattle.jt_parse.specs.Refusals.{IsRefusal, max_levels};
ghost use Rattle.jt_parse.specs.declared.error.ParseError.TheVariants as error;

use crate::error::ParseError;
use crate::expression::{expression, head};
use crate::kept::{Neighbour, kept, side_ahead, side_behind};
use crate::names::check_body;
use crate::open_stmts::{
    OpenKind, OpenStmt, close_open_stmt, else_part, ends_open_stmt, is_end_word, next_branch,
    pop_open_stmt, push_open_stmt, push_statement, unclosed,
};
use crate::opening_tags::Head;
use crate::positions::check_positions;
use jt_ast::{Expr, Stmt, Template};
use jt_expr::{copy_of, expression_laws};
use jt_scan::{Segment, SegmentKind, TagKind, Token, is_word};
use std::alloc::{AllocError, Global};
use std::mem;

/// The greatest number of levels of statements and expressions in a template.
const MAX_LEVELS: usize = 100;

/// The state of the parser: the finished statements and the stack of open ones.
#[derive(Drop)]
struct Parser {
    alloc: Global,
    /// The statements of the innermost open body.
    body: Vec<Stmt>,
    /// The open statements; the innermost one is last.
    open_stmts: Vec<OpenStmt>,
}

/// Returns the number of levels that an expression may have inside a statement that `outer`
/// statements enclose.
fn levels_left(outer: usize, line: u32) -> Result<u8, ParseError>
    ensures left { IfOk result
        (λ n. (n ≡ max_levels - suc outer) × (nat_lt outer max_levels ≡ true)) }
    ensures refused { IfErr result
        (λ e. (e ≡ error.TooDeep line) × (nat_lt outer max_levels ≡ false)) }
{
    if outer < MAX_LEVELS {
        Ok((MAX_LEVELS - outer - 1) as u8)
    } else {
        Err(ParseError::TooDeep { line })
    }
}

impl Parser {
    /// Returns the number of open statements.
    fn depth(&self) -> usize
        ensures { result ≡ length (open_in self.now) }
    {
        self.open_stmts.len()
    }

    /// Parses an expression inside the open statements.
    fn expression(&self, line: u32, tokens: &[Token<'_>]) -> Result<Expr, ParseError>
        ensures { GivesOnly expr_view (λ e. Spells whole e (seen tokens.now))
            (λ e. suc (length (open_in self.now)) + levels e) max_levels result }
    {
        let levels = levels_left(self.depth(), line)?;
        expression(self.alloc, tokens, levels, line)
    }

    /// Reads `{{ e }}`.
    fn print_tag(&mut self, line: u32, tokens: &[Token<'_>]) -> Result<(), ParseError>
        ensures { Moves (PrintTag max_levels line (seen tokens.now)) self.old result self.new }
    {
        let printed = self.expression(line, tokens)?;
        push_statement(&mut self.body, Stmt::Print(line, printed))?;
        Ok(())
    }

    /// Opens a statement.
    fn open(&mut self, line: u32, kind: OpenKind) -> Result<(), AllocError>
        ensures { IfOk result (λ u. state_view self.new ≡ reading.state trees.end
            (open_stmt_by (body_in self.old) line kind ∷ open_in self.old)) }
    {
        let before = mem::replace(&mut self.body, Vec::new(self.alloc));
        push_open_stmt(&mut self.open_stmts, OpenStmt { before, line, kind })
    }

    /// Adds the statement that a first tag makes, or opens it if it has a body.
    fn headed(&mut self, line: u32, head: Head) -> Result<(), AllocError>
        ensures { IfOk result (λ u.
            state_view self.new ≡ reading.headed line (head_view head) (state_view self.old)) }
    {
        match head {
            Head::Statement(statement) => push_statement(&mut self.body, statement),
            Head::If(condition) => {
                let branches = Vec::new(self.alloc);
                let kind = OpenKind::Branch {
                    branches,
                    line,
                    condition,
                };
                self.open(line, kind)
            }
            Head::Loop(head) => self.open(line, OpenKind::Loop(head)),
            Head::BlockStart(opening) => self.open(line, OpenKind::BlockStart(opening)),
        }
    }

    /// Reads the first tag of a statement.
    fn head_tag(&mut self, line: u32, word: &str, tokens: &[Token<'_>]) -> Result<(), ParseError>
        ensures { Moves (HeadTag max_levels line (chars word.now) (seen tokens.now)) self.old
            result self.new }
    {
        let levels = levels_left(self.depth(), line)?;
        let head = head(self.alloc, word, tokens, levels, line)?;
        self.headed(line, head)?;
        Ok(())
    }

    /// Reads `{% elif c %}`.
    fn elif_tag(&mut self, line: u32, tokens: &[Token<'_>]) -> Result<(), ParseError>
        ensures { GivesState (reading.ElifTag max_levels line (seen tokens.now)
            (body_in self.old) (open_in self.old)) result self.new }
    {
        let Some(
            OpenStmt {
                before,
                line: opening,
                kind,
            },
        ) = pop_open_stmt(&mut self.open_stmts)
        else {
            return Err(ParseError::Syntax { line });
        };
        let condition = self.expression(line, tokens);
        let body = mem::replace(&mut self.body, Vec::new(self.alloc));
        let kind = next_branch(kind, body, line, condition)?;
        let open_stmt = OpenStmt {
            before,
            line: opening,
            kind,
        };
        push_open_stmt(&mut self.open_stmts, open_stmt)?;
        Ok(())
    }

    /// Begins the `else` part of the innermost open statement.
    fn else_by(&mut self, line: u32) -> Result<(), ParseError>
        ensures { GivesState (λ o. o ≡ reading.else_by (body_in self.old) (open_in self.old)) result
            self.new }
    {
        let Some(
            OpenStmt {
                before,
                line: opening,
                kind,
            },
        ) = pop_open_stmt(&mut self.open_stmts)
        else {
            return Err(ParseError::Syntax { line });
        };
        let body = mem::replace(&mut self.body, Vec::new(self.alloc));
        let kind = else_part(kind, body, line)?;
        let open_stmt = OpenStmt {
            before,
            line: opening,
            kind,
        };
        push_open_stmt(&mut self.open_stmts, open_stmt)?;
        Ok(())
    }

    /// Reads `{% else %}`.
    #[tactic(auto, unfolding(crate::specs::internal::Reading::else_tag))]
    fn else_tag(&mut self, line: u32, tokens: &[Token<'_>]) -> Result<(), ParseError>
        ensures { GivesState (λ o. o ≡ reading.else_tag (seen tokens.now)
            (body_in self.old) (open_in self.old)) result self.new }
    {
        if !tokens.is_empty() {
            return Err(ParseError::Syntax { line });
        }
        self.else_by(line)
    }

    /// Ends the given open statement, and refuses a tag that does not end it.
    #[tactic(auto, unfolding(crate::specs::internal::Reading::end_tag))]
    fn close(
        &mut self,
        open_stmt: OpenStmt,
        line: u32,
        word: &str,
        tokens: &[Token<'_>],
    ) -> Result<(), ParseError>
        ensures { GivesState (λ o. o ≡ reading.end_tag (chars word.now) (seen tokens.now)
            (body_in self.old) (open_stmt_view open_stmt ∷ open_in self.old)) result self.new }
    {
        if !ends_open_stmt(&open_stmt, word, tokens) {
            drop(open_stmt);
            return Err(ParseError::Syntax { line });
        }
        Ok(close_open_stmt(self.alloc, open_stmt, &mut self.body)?)
    }

    /// Reads an end tag, which must end the innermost open statement.
    #[tactic(auto, unfolding(crate::specs::internal::Reading::end_tag))]
    fn end_tag(&mut self, line: u32, word: &str, tokens: &[Token<'_>]) -> Result<(), ParseError>
        ensures { GivesState (λ o. o ≡ reading.end_tag (chars word.now) (seen tokens.now)
            (body_in self.old) (open_in self.old)) result self.new }
    {
        match pop_open_stmt(&mut self.open_stmts) {
            Some(open_stmt) => self.close(open_stmt, line, word, tokens),
            None => Err(ParseError::Syntax { line }),
        }
    }

    /// Reads a block tag, given its first word.
    #[tactic(auto, unfolding(crate::specs::internal::Reading::role))]
    fn block_tag(&mut self, line: u32, word: &str, tokens: &[Token<'_>]) -> Result<(), ParseError>
        ensures { Moves (reading.BlockTag (reading.role (chars word.now)) max_levels line
            (chars word.now) (seen tokens.now)) self.old result self.new }
    {
        if is_word(word, "elif") {
            self.elif_tag(line, tokens)
        } else if is_word(word, "else") {
            self.else_tag(line, tokens)
        } else if is_end_word(word) {
            self.end_tag(line, word, tokens)
        } else {
            self.head_tag(line, word, tokens)
        }
    }

    /// Reads a variable or block tag.
    fn tag(&mut self, kind: TagKind, line: u32, tokens: &[Token<'_>]) -> Result<(), ParseError>
        ensures { GivesState (reading.Steps max_levels (state_view self.old)
            (kept.tag kind line (seen tokens.now))) result self.new }
    {
        match kind {
            TagKind::Variable => self.print_tag(line, tokens),
            TagKind::Block => match tokens {
                [Token::Name(word), rest @ ..] => self.block_tag(line, word, rest),
                _ => Err(ParseError::Syntax { line }),
            },
        }
    }

    /// Adds a trimmed text, unless it is empty.
    fn text(&mut self, text: &str) -> Result<(), ParseError>
        ensures { RunsOver (kept.with_text (chars text.now) []) self.old result self.new }
    {
        if text.is_empty() {
            return Ok(());
        }
        let copy = copy_of(self.alloc, text)?;
        push_statement(&mut self.body, Stmt::Data(copy))?;
        Ok(())
    }

    /// Reads one segment between two neighbours.
    fn step(
        &mut self,
        segment: &Segment<'_>,
        left: Neighbour,
        right: Neighbour,
    ) -> Result<(), ParseError>
        ensures { RunsOver (kept.with_segment segment.now.options (side_view left) (side_view right)
            (segment_view segment.now) []) self.old result self.new }
    {
        let options = segment.options;
        match &segment.part {
            SegmentKind::Data(text) => self.text(kept(text, options, left, right)),
            SegmentKind::Tag(tag) => self.tag(tag.kind, tag.line, &tag.tokens),
            SegmentKind::Comment(_, _) => Ok(()),
            SegmentKind::Raw(marks, text, ends) => {
                let left = Neighbour::Block(marks.closing);
                let right = Neighbour::Block(ends.opening);
                self.text(kept(text, options, left, right))
            }
        }
    }
}

/// Parses all segments into statements.
fn read(alloc: Global, segments: &[Segment<'_>]) -> Result<Vec<Stmt>, ParseError>
    ensures { GivesBody (reading.Parsed max_levels (pieces_of segments.now)) result }
{
    let mut parser = Parser {
        alloc,
        body: Vec::new(alloc),
        open_stmts: Vec::new(alloc),
    };
    let mut left = Neighbour::Nothing;
    let mut rest = segments;
    'segments: while let [segment, behind @ ..] = rest {
        parser.step(segment, left, side_ahead(behind))?;
        left = side_behind(&segment.part);
        rest = behind;
    }
    match unclosed(parser.open_stmts) {
        Some(line) => Err(ParseError::Syntax { line }),
        None => Ok(parser.body),
    }
}

/// Reads segments into a template, and checks the positions of statements and the names of filters
/// and tests.
fn read_known(alloc: Global, segments: &[Segment<'_>]) -> Result<Template, ParseError>
    ensures { GivesKnown (reading.Parsed max_levels (pieces_of segments.now)) result }
{
    let body = read(alloc, segments)?;
    check_positions(&body)?;
    check_body(&body)?;
    Ok(Template::new(body))
}

/// Parses the segments of a template. The text between tags is trimmed, and each filter and each
/// test is known.
///
/// # Errors
///
/// Each error but `NoMemory` has the line of the tag with the error. For a statement that is never
/// closed, it is the line of its first tag.
///
/// - `Syntax` if the segments spell no tree.
/// - `TooDeep` if each tree that they spell has more than 100 levels.
/// - `UnknownFilter` if the first tag with an unknown name has an unknown filter.
/// - `UnknownTest` if the first tag with an unknown name has an unknown test, but no unknown
///   filter.
/// - `NoMemory` if a growth is refused.
pub fn parse(alloc: Global, segments: &[Segment<'_>]) -> Result<Template, ParseError>
    ensures spelled { IfOk result (λ template.
        Spelled (body_of template) (pieces_of segments.now)
        × (body_levels (body_of template) ≤ max_levels)) }
    ensures known { IfOk result (λ template. body_unknown (body_of template) ≡ None) }
    ensures only { (body : Body)
        → Spelled body (pieces_of segments.now)
        → body_levels body ≤ max_levels
        → body_unknown body ≡ None
        → MatchResult result (λ template. body_of template ≡ body) (λ e. e ≡ error.NoMemory) }
    ensures refused { IfErr result (λ e. IsRefusal e (pieces_of segments.now)) }
    ensures weighs { IfOk result
        (λ template. body_weight (body_of template) ≤ weight_of (cut_of segments.now)) }
    ensures short { IfOk result
        (λ template. body_bytes (body_of template) ≤ bytes_of (cut_of segments.now)) }
{
    expression_laws();
    read_known(alloc, segments)
}

/// Parses the segments of a template as `parse` does, but accepts unknown filters and tests.
///
/// # Errors
///
/// - `Syntax` or `TooDeep` as for `parse`.
/// - `NoMemory` if a growth is refused.
pub fn parse_unchecked(alloc: Global, segments: &[Segment<'_>]) -> Result<Template, ParseError>
    ensures { IfOk result (λ template.
        Spelled (body_of template) (pieces_of segments.now)
        × (body_levels (body_of template) ≤ max_levels)) }
{
    let statements = read(alloc, segments)?;
    check_positions(&statements)?;
    Ok(Template::new(statements))
}
