//! Collects the names of a program and counts its globals.

ghost use Rattle.jt_semantics.specs.Layout as layout;
ghost use Rattle.jt_semantics.specs.Programs as programs;
ghost use Rattle.std.specs.Prelude.{◌≡◌};
ghost use Rattle.jt_bind.specs.internal.{IfOk, map, string_bytes, texts, cenv_in, order_in};
ghost use Rattle.jt_bind.specs.internal.{namespace_at, files_view};

use crate::Result;
use crate::tables::Tables;
use jt_chains::TemplateFile;
use jt_layout::checked_sum;
use std::alloc::Global;

/// Copies names to owned strings.
fn strings_of(alloc: Global, names: &[&str]) -> Result<Vec<String>>
    ensures { IfOk result (λ ss. map string_bytes ss.items ≡ texts names.now) }
{
    let mut strings = Vec::with_capacity(alloc, names.len())?;
    for name in names {
        strings.push(String::from_str(alloc, *name)?)?;
    }
    Ok(strings)
}

/// Returns the names of templates.
pub(crate) fn template_names(alloc: Global, files: &[TemplateFile]) -> Result<Vec<String>>
    ensures { IfOk result
        (λ ss. map string_bytes ss.items ≡ map (λ t. t.name) (files_view files.now)) }
{
    let mut strings = Vec::with_capacity(alloc, files.len())?;
    for file in files {
        strings.push(String::from_str(alloc, file.name.as_str())?)?;
    }
    Ok(strings)
}

/// Returns the names of the entry's chain, in the order of their slots.
pub(crate) fn entry_names(alloc: Global, tables: &Tables<'_, '_>) -> Result<Vec<String>>
    ensures { IfOk result (λ ss. map string_bytes ss.items ≡ layout.names (cenv_in tables.now)
        (order_in tables.now) (namespace_at (order_in tables.now) 0)) }
{
    tables.stands();
    strings_of(alloc, &tables.at(0).names)
}

/// Returns the number of globals of the chains.
#[tactic(auto, using(crate::proofs::namespaces_left, crate::proofs::list_lemmas))]
pub(crate) fn count_globals(tables: &Tables<'_, '_>) -> Result<usize>
    ensures { IfOk result (λ n. n ≡ programs.count_globals (cenv_in tables.now)
        (order_in tables.now) (order_in tables.now)) }
{
    let mut globals = 0;
    for namespace in tables.namespaces() {
        globals = checked_sum(globals, namespace.names.len())?;
    }
    Ok(globals)
}
