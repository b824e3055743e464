//! Explains, in words, how a run of an entry ends.

ghost use Rattle.std.specs.Prelude.{◌≡◌, IfOk, string_bytes};
ghost use Rattle.jt_value.specs.ContextView.{pairs_of};
ghost use Rattle.jt_host.specs.RunExplanations as spec;
ghost use Rattle.jt_host.specs.Templates.{source_of};

use crate::call_error::CallError;
use crate::calls::EntryTemplate;
use crate::explaining::{explained, place_text, source_text};
use crate::notes::{linked_notes, with_notes};
use crate::rendering::{RenderError, render};
use crate::templates::Templates;
use jt_budget::{Budget, Spent};
use jt_codegen::TagPlace;
use jt_machine::{Outcome, Place};
use jt_scan::Options;
use jt_turns::limit_text;
use jt_value::{Context, Fault, NoMemory};
use std::alloc::{AllocError, Global};

/// Returns what is to say of an entry and of its run for a context, in lines for a person. If the
/// entry does not compile, the lines are those of `explained`. If its run ends with a text, the
/// first line is `ok`, and a line follows for each of the first 20 notes: prints that have no value
/// in the context, and blocks that no template above has. Otherwise the first line has the place
/// and the name of the fault, or the spent number. The line of the source follows if the place is
/// known. The last line states the reason.
///
/// # Errors
///
/// `NoMemory` if a growth is refused.
pub fn explained_run(
    alloc: Global,
    entry: &EntryTemplate<'_>,
    context: &Context,
    budget: Budget,
) -> Result<String, CallError>
    ensures { spec.ExplainsRunTo (source_of entry.now.templates.now) entry.now.name.now
        entry.now.options (pairs_of context.now) budget result }
{
    let EntryTemplate {
        name,
        templates,
        options,
    } = *entry;
    let outcome = match render(alloc, name, templates, options, context, budget) {
        Ok(outcome) => outcome,
        Err(RenderError::NoMemory) => return Err(CallError::NoMemory),
        Err(RenderError::Compile(_)) => return explained(alloc, entry),
    };
    let notes = notes_after(alloc, entry, context, &outcome)?;
    let text = ending_text(alloc, templates, options, budget, outcome)?;
    Ok(with_notes(text, &notes)?)
}

/// Returns the notes on an entry for a context, if its run ended with a text.
///
/// # Errors
///
/// `NoMemory` if a growth is refused.
fn notes_after(
    alloc: Global,
    entry: &EntryTemplate<'_>,
    context: &Context,
    outcome: &Outcome,
) -> Result<String, NoMemory>
    ensures { IfOk result (λ notes. spec.AreEndNotes (source_of entry.now.templates.now)
        entry.now.name.now entry.now.options (pairs_of context.now) outcome.now
        (string_bytes notes)) }
{
    match outcome {
        Outcome::Text(_) => linked_notes(alloc, entry, Some(context)),
        Outcome::Fault(_, _) | Outcome::Spent(_) => Ok(String::new(alloc)),
    }
}

/// Returns the lines of a run that ended so.
fn ending_text(
    alloc: Global,
    templates: &Templates,
    options: Options,
    budget: Budget,
    outcome: Outcome,
) -> Result<String, NoMemory>
    ensures { IfOk result (λ text. string_bytes text
        ≡ spec.ending_lines (source_of templates.now) options budget outcome) }
{
    match outcome {
        Outcome::Text(_) => Ok(String::from_str(alloc, "ok\n")?),
        Outcome::Fault(fault, place) => {
            let place = tag_place(place);
            Ok(fault_lines(alloc, templates, options, fault, &place)?)
        }
        Outcome::Spent(spent) => Ok(spent_lines(alloc, budget, spent)?),
    }
}

/// Returns the place of a fault as that of its tag.
fn tag_place(place: Option<Place>) -> Option<TagPlace>
    ensures { result ≡ spec.tag_place place }
{
    match place {
        Some(Place { template, line }) => Some(TagPlace { template, line }),
        None => None,
    }
}

/// Returns the lines of a fault.
fn fault_lines(
    alloc: Global,
    templates: &Templates,
    options: Options,
    fault: Fault,
    place: &Option<TagPlace>,
) -> Result<String, AllocError>
    ensures { IfOk result (λ text. string_bytes text
        ≡ spec.fault_lines (source_of templates.now) options fault place.now) }
{
    let at = place_text(alloc, place)?;
    let name = fault.text();
    let source = source_text(alloc, templates, options, place)?;
    let sentence = sentence_of_fault(fault);
    format!(in alloc; "{at}{name}\n{source}  {sentence}\n")
}

/// Returns the lines of a spent number.
fn spent_lines(alloc: Global, budget: Budget, spent: Spent) -> Result<String, AllocError>
    ensures { IfOk result (λ text. string_bytes text ≡ spec.spent_lines budget spent) }
{
    let name = limit_text(spent);
    let number = number_of(budget, spent);
    let sentence = sentence_of_spent(spent);
    format!(in alloc; "spent {name} {number}\n  {sentence}\n")
}

/// Returns a number of a budget.
fn number_of(budget: Budget, spent: Spent) -> u64
    ensures { result ≡ spec.number_of budget spent }
{
    match spent {
        Spent::Fuel => budget.fuel,
        Spent::Depth => u64::from(budget.depth),
        Spent::Output => budget.output,
        Spent::Size => u64::from(budget.size),
        Spent::Nesting => u64::from(budget.nesting),
    }
}

/// Returns the reason of a fault.
fn sentence_of_fault(fault: Fault) -> &'static str
    ensures { result.now ≡ spec.fault_sentence fault }
{
    match fault {
        Fault::BadType => "an operator, a filter or a test here does not take this kind of value",
        Fault::Undefined => {
            "a value is needed here and is undefined: is a name misspelled or not in the context?"
        }
        Fault::Overflow => {
            "a number here is outside of -9223372036854775808 to 9223372036854775807"
        }
        Fault::ZeroDivide => "a number is divided by 0 here",
        Fault::Unprintable => "a list or a map is needed as printed text here: join its items",
        Fault::NotIterable => {
            "the items of a number, a truth value or none are asked for here: they have none"
        }
        Fault::Unpack => "a value here has another number of items than there are names for them",
        Fault::Range => "range is called with a step of 0 here",
        Fault::BadArgument => "a filter here does not take an argument of this kind",
    }
}

/// Returns the reason why a number of the budget was spent.
fn sentence_of_spent(spent: Spent) -> &'static str
    ensures { result.now ≡ spec.spent_sentence spent }
{
    match spent {
        Spent::Fuel => "the instructions of the run would cost more than this number",
        Spent::Depth => "more calls of macros, blocks and includes would be open at the same time",
        Spent::Output => "more bytes would be written, with those of texts that are kept",
        Spent::Size => "a value would be larger than this number",
        Spent::Nesting => "lists and maps would be nested deeper in a value than this number",
    }
}
