//! Notes what is suspicious in a chain.

ghost use Rattle.std.specs.Prelude.{◌≡◌, ◌++◌, IfOk, List, Option, option_copied, option_map};
ghost use Rattle.jt_ast.specs.ExpressionView.{expr_view};
ghost use Rattle.jt_ast.specs.Texts.{texts};
ghost use Rattle.jt_chains.specs.TemplateFiles.{file_view};
ghost use Rattle.jt_chains.specs.View.{chain_view};
ghost use Rattle.jt_value.specs.ContextView.{pairs_of};
ghost use Rattle.jt_names.specs.Names.{AreIndices};
ghost use Rattle.jt_notes.specs.Notes as spec;
ghost use Rattle.jt_notes.specs.Views.{kind_view, notes_view, tag_view};
ghost use Rattle.jt_notes.specs.internal.Facts.{AreAbove, AreFacts};

use crate::names::{blocks_above, bound_names, has_name};
use crate::paths::{MissingName, missing_name, printed_path};
use crate::tags::{Tag, tags_in};
use jt_ast::Expr;
use jt_chains::{Chain, TemplateFile};
use jt_names::NameIndex;
use jt_value::{Context, Text, Value};
use std::alloc::{AllocError, Global};

/// What is suspicious about a tag.
#[derive(Drop)]
pub enum NoteKind<'a> {
    /// A print of a path that has no value.
    BlankPrint {
        path: Vec<&'a str>,
        /// The number of the path's first names that have a value. The next one has none.
        found: usize,
        /// The entries of the context, or of the value of these names. None of them has the next
        /// name.
        beside: &'a [(Text, Value)],
    },
    /// A block of this name that no template above has, so that it is not printed.
    LostBlock(&'a str),
}

/// A note: the template and the line of a tag, and what is suspicious about it.
#[derive(Drop)]
pub struct Note<'a> {
    pub template: &'a str,
    pub line: u32,
    pub kind: NoteKind<'a>,
}

/// Returns what is suspicious about a print, if its path has no value in the context.
fn blank_print<'a>(
    alloc: Global,
    bound: &NameIndex<'_>,
    context: &'a Context,
    printed: &'a Expr,
) -> Result<Option<NoteKind<'a>>, AllocError>
    ensures { (xs : List spec.Text) → AreIndices 0 xs bound.now.indices
        → IfOk result (λ kind. option_map kind_view kind
        ≡ spec.blank_print xs (pairs_of context.now) (expr_view printed.now)) }
{
    let Some(path) = printed_path(alloc, printed)? else {
        return Ok(None);
    };
    if is_bound(bound, &path) {
        return Ok(None);
    }
    match missing_name(context, &path) {
        Some(MissingName { index, beside }) => Ok(Some(NoteKind::BlankPrint {
            path,
            found: index,
            beside,
        })),
        None => Ok(None),
    }
}

/// Returns whether an index has the first name of a path.
fn is_bound(bound: &NameIndex<'_>, path: &[&str]) -> bool
    ensures { (xs : List spec.Text) → AreIndices 0 xs bound.now.indices
        → result ≡ spec.begins_with xs (texts path.now) }
{
    match path {
        [name, ..] => has_name(bound, name),
        [] => false,
    }
}

/// Returns what is suspicious about a block, if the template extends another one, and no template
/// above has the block.
fn lost_block<'a>(above: &Option<NameIndex<'_>>, name: &'a str) -> Option<NoteKind<'a>>
    ensures { (ns : Option (List spec.Text)) → AreAbove above.now ns
        → option_map kind_view result ≡ spec.lost_block ns name.now }
{
    match above {
        Some(blocks) if !has_name(blocks, name) => Some(NoteKind::LostBlock(name)),
        _ => None,
    }
}

/// What decides which tags of a template are suspicious: the names that templates bind, the
/// context, if there is one, and the blocks above the template, if it extends another one.
#[derive(Drop)]
struct Known<'a, 'b> {
    bound: &'b NameIndex<'a>,
    context: Option<&'a Context>,
    above: Option<NameIndex<'a>>,
}

/// Returns what is suspicious about a tag.
fn kind_of<'a>(
    alloc: Global,
    known: &Known<'a, '_>,
    tag: Tag<'a>,
) -> Result<Option<NoteKind<'a>>, AllocError>
    ensures { (f : spec.Facts) → AreFacts known.now f → IfOk result
        (λ kind. option_map kind_view kind ≡ spec.kind_of f (tag_view tag.entry)) }
{
    match tag {
        Tag::Print(_, printed) => match known.context {
            Some(context) => blank_print(alloc, known.bound, context, printed),
            None => Ok(None),
        },
        Tag::Block(_, name) => Ok(lost_block(&known.above, name)),
    }
}

/// Adds the notes on the tags of a template.
fn add_notes<'a>(
    alloc: Global,
    known: &Known<'a, '_>,
    file: &'a TemplateFile,
    found: &mut Vec<Note<'a>>,
) -> Result<(), AllocError>
    ensures { (f : spec.Facts) → AreFacts known.now f → IfOk result (λ _.
        notes_view found.new.items
        ≡ notes_view found.old.items ++ spec.notes_in f (file_view file.now)) }
{
    let tags = tags_in(alloc, file.template.body())?;
    for tag in &tags {
        if let Some(kind) = kind_of(alloc, known, *tag)? {
            found.push(Note {
                template: file.name.as_str(),
                line: line_of(*tag),
                kind,
            })?;
        }
    }
    Ok(())
}

/// Returns the line of a tag.
fn line_of(tag: Tag<'_>) -> u32
    ensures { result ≡ spec.line_of (tag_view tag.entry) }
{
    match tag {
        Tag::Print(line, _) | Tag::Block(line, _) => line,
    }
}

/// Adds the notes on a template of a chain.
fn add_notes_on<'a, 'b>(
    alloc: Global,
    chain: &'a Chain,
    bound: &'b NameIndex<'a>,
    context: Option<&'a Context>,
    file: &'a TemplateFile,
    found: &mut Vec<Note<'a>>,
) -> Result<(), AllocError>
    ensures { AreIndices 0 (spec.bound_names (chain_view chain.now)) bound.now.indices
        → IfOk result (λ _. notes_view found.new.items ≡ notes_view found.old.items
        ++ spec.notes_on (chain_view chain.now) (option_map pairs_of (option_copied context.entry))
        (file_view file.now)) }
{
    let known = Known {
        bound,
        context,
        above: blocks_above(alloc, chain, file)?,
    };
    add_notes(alloc, &known, file, found)
}

/// Returns what is suspicious in a chain for a context: the prints that have no value in it, and
/// the blocks that no template above has. Without a context it is the blocks alone. The notes are
/// in the order of the chain's templates, and of the tags in each.
///
/// # Errors
///
/// `AllocError` if a growth is refused.
pub fn notes_on<'a>(
    alloc: Global,
    chain: &'a Chain,
    context: Option<&'a Context>,
) -> Result<Vec<Note<'a>>, AllocError>
    ensures { IfOk result (λ notes. notes_view notes.items
        ≡ spec.notes (chain_view chain.now) (option_map pairs_of (option_copied context.entry))) }
{
    let bound = bound_names(alloc, chain)?;
    let mut found = Vec::new(alloc);
    for file in &chain.templates {
        add_notes_on(alloc, chain, &bound, context, file, &mut found)?;
    }
    Ok(found)
}
