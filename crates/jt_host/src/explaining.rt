//! Explains, in words, why an entry does not compile.

ghost use Rattle.std.specs.Prelude.{◌≡◌, IfOk, option_map, string_bytes};
ghost use Rattle.jt_codegen.specs.declared.Explained.{Explained};
ghost use Rattle.jt_host.specs.Calls.{AreNotes, ExplainsTo, GivesExplanation};
ghost use Rattle.jt_host.specs.Explanations as spec;
ghost use Rattle.jt_host.specs.Templates.{source_of};

use crate::call_error::CallError;
use crate::calls::EntryTemplate;
use crate::clues::{Clues, clues_for};
use crate::explanation::{Explanation, TemplateRefusal};
use crate::marks::mark;
use crate::notes::{linked_notes, with_notes};
use crate::reasons::{name_of_chain, text_of_scope};
use crate::refusal_code::code_of;
use crate::sentences::sentence_of;
use crate::source_lines::source_line;
use crate::subjects::{marked_name, quoted_subject, subject_name};
use crate::suggestions::suggestion_of;
use crate::syntax_hints::reason_text;
use crate::templates::Templates;
use crate::token_marks::{TokenMark, marks_under, stray_text, token_of};
use jt_codegen::{CompileError, Explained, Finding, TagPlace, explain};
use jt_inherit::Library;
use jt_scan::Options;
use jt_value::NoMemory;
use std::alloc::{AllocError, Global};

/// Explains the entry: returns the lines for a person, and the parts of the refusal if it does not
/// compile. The text is `ok` if it compiles. Otherwise the first line has the place, the code and
/// the name of the refusal and what it is about, as far as they are known. The line of the source
/// follows if the place is known, with marks under the name. The last line states the rule.
///
/// # Errors
///
/// `NoMemory` if a growth is refused.
pub fn explanation_of(alloc: Global, entry: &EntryTemplate<'_>) -> Result<Explanation, CallError>
    ensures { GivesExplanation (source_of entry.now.templates.now) entry.now.name.now
        entry.now.options result }
{
    let EntryTemplate {
        name,
        templates,
        options,
    } = *entry;
    let explained = explain(alloc, name, templates, options)?;
    match explanation_for(alloc, templates, options, explained) {
        Ok(explanation) => Ok(explanation),
        Err(_) => Err(CallError::NoMemory),
    }
}

/// Returns the lines for a person that explain the entry, as [`explanation_of`] has them. If it
/// compiles, a line follows for each of the first 20 blocks that no template above has.
///
/// # Errors
///
/// `NoMemory` if a growth is refused.
pub fn explained(alloc: Global, entry: &EntryTemplate<'_>) -> Result<String, CallError>
    ensures { ExplainsTo (source_of entry.now.templates.now) entry.now.name.now entry.now.options
        result }
{
    let Explanation { text, refusal } = explanation_of(alloc, entry)?;
    let notes = notes_beside(alloc, entry, &refusal)?;
    Ok(with_notes(text, &notes)?)
}

/// Returns the notes on an entry, if it is not refused.
///
/// # Errors
///
/// `NoMemory` if a growth is refused.
#[tactic(auto, using(crate::proofs::NotesTold::notes_of_compiled, crate::proofs::NotesTold::notes_of_refused))]
fn notes_beside(
    alloc: Global,
    entry: &EntryTemplate<'_>,
    refusal: &Option<TemplateRefusal>,
) -> Result<String, NoMemory>
    ensures { (found : Explained) → spec.IsRefusalOf found refusal.now → IfOk result (λ notes.
        AreNotes (source_of entry.now.templates.now) entry.now.name.now entry.now.options found
        (string_bytes notes)) }
{
    match refusal {
        Some(_) => Ok(String::new(alloc)),
        None => linked_notes(alloc, entry, None),
    }
}

/// Returns the lines and the parts of what is explained.
fn explanation_for(
    alloc: Global,
    templates: &Templates,
    options: Options,
    explained: Explained,
) -> Result<Explanation, AllocError>
    ensures { IfOk result (spec.IsExplanationOf (source_of templates.now) options explained) }
{
    let clues = clues_for(alloc, templates, options, &explained)?;
    let text = text_of(alloc, templates, options, &explained, &clues)?;
    let refusal = match explained {
        Explained::Compiles => None,
        Explained::Refused(finding) => Some(refusal_of(alloc, finding)?),
    };
    Ok(Explanation { text, refusal })
}

/// Returns the parts of a finding.
fn refusal_of(alloc: Global, finding: Finding) -> Result<TemplateRefusal, AllocError>
    ensures { IfOk result (spec.HasParts finding) }
{
    let subject = subject_name(alloc, &finding.subject)?;
    Ok(TemplateRefusal {
        code: code_of(&finding.error),
        place: finding.place,
        subject,
    })
}

/// Returns the lines that an explanation prints.
fn text_of(
    alloc: Global,
    templates: &Templates,
    options: Options,
    explained: &Explained,
    clues: &Clues,
) -> Result<String, AllocError>
    ensures { IfOk result (λ text. string_bytes text
        ≡ spec.told (source_of templates.now) options clues.now explained.now) }
{
    match explained {
        Explained::Compiles => String::from_str(alloc, "ok\n"),
        Explained::Refused(finding) => lines_of(alloc, templates, options, finding, clues),
    }
}

/// Returns the lines of a finding.
fn lines_of(
    alloc: Global,
    templates: &Templates,
    options: Options,
    finding: &Finding,
    clues: &Clues,
) -> Result<String, AllocError>
    ensures { IfOk result (λ text. string_bytes text
        ≡ spec.finding_lines (source_of templates.now) options clues.now finding.now) }
{
    let heading = heading_of(alloc, finding, clues)?;
    let source = shown_source(alloc, templates, options, finding, clues)?;
    let marks = shown_marks(alloc, templates, options, finding, clues)?;
    let rule = rule_text(alloc, finding, clues)?;
    format!(in alloc; "{heading}\n{source}{marks}  {rule}\n")
}

/// Returns the reason of an error of syntax, if the sources show it, and otherwise the rule with a
/// suggestion.
fn rule_text(alloc: Global, finding: &Finding, clues: &Clues) -> Result<String, AllocError>
    ensures { IfOk result (λ text. string_bytes text ≡ spec.rule_text clues.now finding.now) }
{
    if let Some(hint) = clues.hint {
        return reason_text(alloc, hint, &clues.meant);
    }
    let sentence = sentence_of(alloc, finding)?;
    let suggestion = suggestion_of(alloc, finding, clues)?;
    let stray = stray_text(alloc, &clues.mark)?;
    format!(in alloc; "{sentence}{suggestion}{stray}")
}

/// Returns the template and the line of the marks, or else of the tag.
fn shown_place(alloc: Global, finding: &Finding, clues: &Clues) -> Result<String, AllocError>
    ensures { IfOk result (λ text. string_bytes text
        ≡ spec.shown_place clues.now.mark finding.now.place) }
{
    match (&clues.mark, &finding.place) {
        (Some(marked), Some(TagPlace { template, .. })) => {
            let line = token_of(marked).line;
            format!(in alloc; "{template}:{line}: ")
        }
        _ => place_text(alloc, &finding.place),
    }
}

/// Returns the line of the source that has the marks, or else that of the tag.
fn shown_source(
    alloc: Global,
    templates: &Templates,
    options: Options,
    finding: &Finding,
    clues: &Clues,
) -> Result<String, AllocError>
    ensures { IfOk result (λ text. string_bytes text
        ≡ spec.shown_source (source_of templates.now) options clues.now.mark finding.now.place) }
{
    match (&clues.mark, &finding.place) {
        (Some(marked), Some(_)) => {
            let TokenMark { before, rest, .. } = token_of(marked);
            format!(in alloc; "  {before}{rest}\n")
        }
        _ => source_text(alloc, templates, options, &finding.place),
    }
}

/// Returns the marks under a word of a tag, or else under the name in the line of the tag.
fn shown_marks(
    alloc: Global,
    templates: &Templates,
    options: Options,
    finding: &Finding,
    clues: &Clues,
) -> Result<String, AllocError>
    ensures { IfOk result (λ text. string_bytes text
        ≡ spec.shown_marks (source_of templates.now) options clues.now.mark finding.now) }
{
    match (&clues.mark, &finding.place) {
        (Some(marked), Some(_)) => marks_under(alloc, token_of(marked)),
        _ => marks_text(alloc, templates, options, finding),
    }
}

/// Returns the first line of a finding, without its end.
fn heading_of(alloc: Global, finding: &Finding, clues: &Clues) -> Result<String, AllocError>
    ensures { IfOk result (λ text. string_bytes text ≡ spec.heading clues.now finding.now) }
{
    let place = shown_place(alloc, finding, clues)?;
    let name = name_of(&finding.error);
    let subject = quoted_subject(alloc, &finding.subject)?;
    format!(in alloc; "{place}{name}{subject}")
}

/// Returns the template and the line before a refusal, or the empty text if they are not known.
pub(crate) fn place_text(alloc: Global, place: &Option<TagPlace>) -> Result<String, AllocError>
    ensures { IfOk result (λ text. string_bytes text ≡ spec.place_text place.now) }
{
    match place {
        Some(TagPlace { template, line }) => format!(in alloc; "{template}:{line}: "),
        None => Ok(String::new(alloc)),
    }
}

/// Returns the line of the source at a place. Returns an empty text if the template has no source.
fn line_at(
    alloc: Global,
    templates: &Templates,
    options: Options,
    place: &TagPlace,
) -> Result<String, AllocError>
    ensures { IfOk result (λ text. string_bytes text
        ≡ spec.line_at (source_of templates.now) options place.now) }
{
    let source = templates.source(&place.template).unwrap_or("");
    source_line(alloc, source, options, place.line)
}

/// Returns the line of the source at a place, behind two spaces, or the empty text if the place is
/// not known.
pub(crate) fn source_text(
    alloc: Global,
    templates: &Templates,
    options: Options,
    place: &Option<TagPlace>,
) -> Result<String, AllocError>
    ensures { IfOk result (λ text. string_bytes text
        ≡ spec.source_text (source_of templates.now) options place.now) }
{
    match place {
        Some(place) => {
            let source = line_at(alloc, templates, options, place)?;
            format!(in alloc; "  {source}\n")
        }
        None => Ok(String::new(alloc)),
    }
}

/// Returns the marks under the name that a finding is about, or the empty text if the place or the
/// name is not known, or if the name does not stand in the line.
fn marks_text(
    alloc: Global,
    templates: &Templates,
    options: Options,
    finding: &Finding,
) -> Result<String, AllocError>
    ensures { IfOk result (λ text. string_bytes text
        ≡ spec.marks_text (source_of templates.now) options finding.now) }
{
    let Some(place) = &finding.place else {
        return Ok(String::new(alloc));
    };
    match marked_name(alloc, &finding.subject)? {
        Some(name) => {
            let line = line_at(alloc, templates, options, place)?;
            mark(alloc, &line, &name)
        }
        None => Ok(String::new(alloc)),
    }
}

/// Returns the code and the name of a refusal, without its place.
fn name_of(error: &CompileError) -> &'static str
    ensures { result.now ≡ spec.error_name error.now }
{
    match error {
        CompileError::Chain(error) => name_of_chain(error),
        CompileError::Scope(error) => text_of_scope(*error),
        CompileError::CodeTooLong => "G1 CodeTooLong",
        CompileError::NoMemory => "G2 NoMemory",
        CompileError::StackTooDeep => "G3 StackTooDeep",
    }
}
