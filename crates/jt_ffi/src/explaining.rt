//! Explains why an entry does not compile, for calls over bytes and over handles.
ghost use Rattle.std.specs.Prelude.{◌≡◌, Some, option_map};
ghost use Rattle.jt_host.specs.Templates.{source_of};
ghost use Rattle.jt_ffi.specs.Calls.{Explains};
ghost use Rattle.jt_ffi.specs.Handles.{ExplainsFrom, ExplainsHeld};

use crate::calls::{FfiEntry, given};
use crate::error::FfiError;
use crate::shared::Shared;
use jt_host::{EntryTemplate, Explanation, Options, Templates, explanation_of};
use std::alloc::Global;

/// Explains the entry.
pub(crate) fn explained(
    alloc: Global,
    entry: &FfiEntry<'_>,
    options: Options,
) -> Result<Explanation, FfiError>
    ensures { Explains entry.now.lengths.now entry.now.texts.now entry.now.name.now options
        result }
{
    let (templates, name) = given(alloc, entry)?;
    let entry = EntryTemplate {
        name,
        templates: &templates,
        options,
    };
    Ok(explanation_of(alloc, &entry)?)
}

/// Explains a template of the held library.
pub(crate) fn explain_held(
    alloc: Global,
    library: &Option<Box<Shared>>,
    entry: &[u8],
    options: Options,
) -> Result<Explanation, FfiError>
    ensures { ExplainsHeld (option_map (λ b. b.value) library.now) entry.now options result }
{
    let Some(library) = library else {
        return Err(FfiError::NotHeld);
    };
    explain_shared(alloc, library, entry, options)
}

/// Explains a template of `library`, if that is a library.
fn explain_shared(
    alloc: Global,
    library: &Shared,
    entry: &[u8],
    options: Options,
) -> Result<Explanation, FfiError>
    ensures { ExplainsHeld (Some library.now) entry.now options result }
{
    match library {
        Shared::Library(templates) => explain_from(alloc, templates, entry, options),
        Shared::Image(_) => Err(FfiError::NotHeld),
    }
}

/// Explains the template `entry`.
fn explain_from(
    alloc: Global,
    templates: &Templates,
    entry: &[u8],
    options: Options,
) -> Result<Explanation, FfiError>
    ensures { ExplainsFrom (source_of templates.now) entry.now options result }
{
    let Ok(name) = std::str::from_utf8(entry) else {
        return Err(FfiError::NotText);
    };
    let entry = EntryTemplate {
        name,
        templates,
        options,
    };
    Ok(explanation_of(alloc, &entry)?)
}
