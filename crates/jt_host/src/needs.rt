//! Lists what an entry needs, one need in a line.

ghost use Rattle.std.specs.Prelude.{◌≡◌, ◌++◌, map, string_bytes, IfOk};
ghost use Rattle.jt_host.specs.Calls.{ListsNeeds};
ghost use Rattle.jt_host.specs.NeedsText.{lines_of, needs_text};
ghost use Rattle.jt_host.specs.Templates.{source_of};

use crate::call_error::CallError;
use crate::calls::{EntryTemplate, needs_of};
use jt_codegen::Needs;
use std::alloc::{AllocError, Global};

/// Lists what the entry needs, as `needs_of` returns it: a line `name ..`, `template ..` or
/// `missing ..` for each name of a context, each template that was read, and each missing one.
///
/// # Errors
///
/// - `Template` if the compiler refuses the templates.
/// - `NoMemory` if a growth is refused.
pub fn listed_needs(alloc: Global, entry: &EntryTemplate<'_>) -> Result<String, CallError>
    ensures { ListsNeeds (source_of entry.now.templates.now) entry.now.name.now entry.now.options
        result }
{
    let needs = needs_of(alloc, entry)?;
    match lines_of_needs(alloc, &needs) {
        Ok(text) => Ok(text),
        Err(_) => Err(CallError::NoMemory),
    }
}

/// Returns the lines of needs.
fn lines_of_needs(alloc: Global, needs: &Needs) -> Result<String, AllocError>
    ensures { IfOk result (λ text. string_bytes text ≡ needs_text needs.now) }
{
    let mut text = String::new(alloc);
    push_lines(&mut text, "name ", &needs.names)?;
    push_lines(&mut text, "template ", &needs.templates)?;
    push_lines(&mut text, "missing ", &needs.missing)?;
    Ok(text)
}

/// Appends a line for each name, which begins with `word`.
fn push_lines(text: &mut String, word: &str, names: &[String]) -> Result<(), AllocError>
    ensures { IfOk result (λ _. string_bytes text.new
        ≡ string_bytes text.old ++ lines_of word.now (map string_bytes names.now)) }
{
    for name in names {
        text.push_str(word)?;
        text.push_str(name)?;
        text.push_str("\n")?;
    }
    Ok(())
}
