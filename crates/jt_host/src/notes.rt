//! Writes the notes on a chain as lines.

ghost use Rattle.std.specs.Prelude.{◌≡◌, ◌++◌, [], IfOk, map, option_copied, option_map};
ghost use Rattle.std.specs.Prelude.{string_bytes, take};
ghost use Rattle.jt_ast.specs.Texts.{texts};
ghost use Rattle.jt_chains.specs.View.{chain_view};
ghost use Rattle.jt_value.specs.ContextView.{pairs_of};
ghost use Rattle.jt_notes.specs.Views.{kind_view, note_view, notes_view};
ghost use Rattle.jt_host.specs.Calls.{HasNotes};
ghost use Rattle.jt_host.specs.Notes as spec;
ghost use Rattle.jt_host.specs.Suggestions.{or_meant};
ghost use Rattle.jt_host.specs.Templates.{source_of};

use crate::calls::EntryTemplate;
use crate::subjects::quoted;
use jt_chains::Chain;
use jt_hints::nearest;
use jt_inherit::link;
use jt_notes::{Note, NoteKind, names_above, notes_on};
use jt_value::{Context, NoMemory, Text, Value};
use std::alloc::{AllocError, Global};

/// The greatest number of notes that are shown.
const MAX_NOTES: usize = 20;

/// Returns the lines of the first 20 notes on a chain for a context. Without a context they are
/// about blocks alone.
fn notes_text(alloc: Global, chain: &Chain, context: Option<&Context>) -> Result<String, AllocError>
    ensures { IfOk result (λ text. string_bytes text ≡ spec.notes_text (chain_view chain.now)
        (option_map pairs_of (option_copied context.entry))) }
{
    let notes = notes_on(alloc, chain, context)?;
    lines_of_notes(alloc, chain, first_notes(&notes))
}

/// Returns the notes on the chain of an entry that compiles, as lines.
///
/// # Errors
///
/// `NoMemory` if a growth is refused.
pub(crate) fn linked_notes(
    alloc: Global,
    entry: &EntryTemplate<'_>,
    context: Option<&Context>,
) -> Result<String, NoMemory>
    ensures { IfOk result (λ text. HasNotes (source_of entry.now.templates.now) entry.now.name.now
        entry.now.options (option_map pairs_of (option_copied context.entry)) (string_bytes text)) }
{
    let EntryTemplate {
        name,
        templates,
        options,
    } = *entry;
    match link(alloc, name, templates, options) {
        Ok(chain) => Ok(notes_text(alloc, &chain, context)?),
        Err(_) => Err(NoMemory),
    }
}

/// Returns a text with the notes appended.
///
/// # Errors
///
/// `NoMemory` if a growth is refused.
pub(crate) fn with_notes(text: String, notes: &str) -> Result<String, NoMemory>
    ensures { IfOk result (λ whole. string_bytes whole ≡ string_bytes text ++ notes.now) }
{
    let mut whole = text;
    whole.push_str(notes)?;
    Ok(whole)
}

/// Returns the first 20 notes.
fn first_notes<'n, 'a>(notes: &'n [Note<'a>]) -> &'n [Note<'a>]
    ensures { notes_view result.now ≡ take 20 (notes_view notes.now) }
{
    &notes[..MAX_NOTES.min(notes.len())]
}

/// Returns a line for each note.
fn lines_of_notes(alloc: Global, chain: &Chain, notes: &[Note<'_>]) -> Result<String, AllocError>
    ensures { IfOk result (λ text. string_bytes text
        ≡ spec.lines_of_notes (chain_view chain.now) (notes_view notes.now)) }
{
    let mut text = String::new(alloc);
    for note in notes {
        let line = note_line(alloc, chain, note)?;
        text.push_str(&line)?;
    }
    Ok(text)
}

/// Returns the line of a note.
fn note_line(alloc: Global, chain: &Chain, note: &Note<'_>) -> Result<String, AllocError>
    ensures { IfOk result (λ text. string_bytes text
        ≡ spec.note_line (chain_view chain.now) (note_view note.now)) }
{
    let words = note_words(alloc, chain, note)?;
    let template = note.template;
    let line = note.line;
    format!(in alloc; "note: {template}:{line}{words}\n")
}

/// Returns what a note says of its tag.
fn note_words(alloc: Global, chain: &Chain, note: &Note<'_>) -> Result<String, AllocError>
    ensures { IfOk result (λ text. string_bytes text ≡ spec.note_words (chain_view chain.now)
        note.now.template.now (kind_view note.now.kind)) }
{
    match &note.kind {
        NoteKind::BlankPrint {
            path,
            found,
            beside,
        } => blank_words(alloc, path, *found, *beside),
        NoteKind::LostBlock(name) => lost_words(alloc, chain, note.template, *name),
    }
}

/// Returns what is said of a block that no template above has.
fn lost_words(
    alloc: Global,
    chain: &Chain,
    template: &str,
    name: &str,
) -> Result<String, AllocError>
    ensures { IfOk result (λ text. string_bytes text
        ≡ spec.lost_words (chain_view chain.now) template.now name.now) }
{
    let above = names_above(alloc, chain, template)?;
    let block = quoted(alloc, name)?;
    let meant = meant_words(alloc, nearest(name, &above))?;
    format!(in alloc; " has the block{block}, which no template that it extends has{meant}")
}

/// Returns what is said of a print that has no value.
fn blank_words(
    alloc: Global,
    path: &[&str],
    found: usize,
    beside: &[(Text, Value)],
) -> Result<String, AllocError>
    ensures { IfOk result (λ text. string_bytes text
        ≡ spec.blank_words (texts path.now) found (map (λ entry. entry.0) beside.now)) }
{
    let printed = quoted_path(alloc, path)?;
    let reason = blank_reason(alloc, path, found)?;
    let names = names_of(alloc, beside)?;
    let meant = meant_words(alloc, nearest(name_at(path, found), &names))?;
    format!(in alloc; " prints{printed}{reason}{meant}")
}

/// Returns why a path has no value, whose first `found` names have one.
fn blank_reason(alloc: Global, path: &[&str], found: usize) -> Result<String, AllocError>
    ensures { IfOk result (λ text. string_bytes text ≡ spec.blank_reason (texts path.now) found) }
{
    if found == 0 {
        return String::from_str(alloc, ", which is not in the context");
    }
    let value = quoted_path(alloc, first_names(path, found))?;
    let key = quoted(alloc, name_at(path, found))?;
    format!(in alloc; ", and{value} has no key{key}")
}

/// Returns the name that was probably meant, as it is said.
fn meant_words(alloc: Global, meant: Option<&str>) -> Result<String, AllocError>
    ensures { IfOk result (λ text. string_bytes text
        ≡ or_meant (option_map (λ x. x.now) meant.entry) []) }
{
    match meant {
        Some(name) => {
            let name = quoted(alloc, name)?;
            format!(in alloc; "; did you mean{name}?")
        }
        None => Ok(String::new(alloc)),
    }
}

/// Returns a path in quotes after a space, with dots between its names.
fn quoted_path(alloc: Global, path: &[&str]) -> Result<String, AllocError>
    ensures { IfOk result (λ text. string_bytes text ≡ spec.quoted_path (texts path.now)) }
{
    let path = dotted(alloc, path)?;
    quoted(alloc, &path)
}

/// Returns the names of a path with dots between them.
fn dotted(alloc: Global, path: &[&str]) -> Result<String, AllocError>
    ensures { IfOk result (λ text. string_bytes text ≡ spec.dotted (texts path.now)) }
{
    let [first, keys @ ..] = path else {
        return Ok(String::new(alloc));
    };
    let mut text = String::from_str(alloc, *first)?;
    for key in keys {
        text.push_str(".")?;
        text.push_str(*key)?;
    }
    Ok(text)
}

/// Returns the name of a path at an index.
fn name_at<'a>(path: &[&'a str], index: usize) -> &'a str
    ensures { result.now ≡ spec.name_at (texts path.now) index }
{
    match path.get(index) {
        Some(name) => *name,
        None => "",
    }
}

/// Returns the first `count` names of a path.
fn first_names<'p, 'a>(path: &'p [&'a str], count: usize) -> &'p [&'a str]
    ensures { texts result.now ≡ take count (texts path.now) }
{
    &path[..count.min(path.len())]
}

/// Returns the names of entries.
fn names_of(alloc: Global, entries: &[(Text, Value)]) -> Result<Vec<&str>, AllocError>
    ensures { IfOk result (λ names. texts names.items ≡ map (λ entry. entry.0) entries.now) }
{
    let mut names = Vec::with_capacity(alloc, entries.len())?;
    for (name, _) in entries {
        names.push(name.as_str())?;
    }
    Ok(names)
}
