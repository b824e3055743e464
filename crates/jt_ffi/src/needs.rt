//! Lists what a template of a held library needs.
ghost use Rattle.std.specs.Prelude.{Some, option_map};
ghost use Rattle.jt_host.specs.Templates.{source_of};
ghost use Rattle.jt_ffi.specs.Needs.{NeedsFrom, NeedsHeld};

use crate::error::FfiError;
use crate::shared::Shared;
use jt_host::{EntryTemplate, Options, Templates, listed_needs};
use std::alloc::Global;

/// Lists what a template of the held library needs.
pub(crate) fn list_held(
    alloc: Global,
    library: &Option<Box<Shared>>,
    entry: &[u8],
    options: Options,
) -> Result<Vec<u8>, FfiError>
    ensures { NeedsHeld (option_map (λ b. b.value) library.now) entry.now options result }
{
    let Some(library) = library else {
        return Err(FfiError::NotHeld);
    };
    list_shared(alloc, library, entry, options)
}

/// Lists what a template of `library` needs, if that is a library.
fn list_shared(
    alloc: Global,
    library: &Shared,
    entry: &[u8],
    options: Options,
) -> Result<Vec<u8>, FfiError>
    ensures { NeedsHeld (Some library.now) entry.now options result }
{
    match library {
        Shared::Library(templates) => list_from(alloc, templates, entry, options),
        Shared::Image(_) => Err(FfiError::NotHeld),
    }
}

/// Lists what the template `entry` needs.
fn list_from(
    alloc: Global,
    templates: &Templates,
    entry: &[u8],
    options: Options,
) -> Result<Vec<u8>, FfiError>
    ensures { NeedsFrom (source_of templates.now) entry.now options result }
{
    let Ok(name) = std::str::from_utf8(entry) else {
        return Err(FfiError::NotText);
    };
    let entry = EntryTemplate {
        name,
        templates,
        options,
    };
    Ok(listed_needs(alloc, &entry)?.into_bytes())
}
