//! Finds the chains and libraries that an entry reaches.

ghost use Rattle.std.specs.Prelude.{◌≡◌, ◌+◌, ◌<◌, false, length, OnOk, IfOk, IfErr, option_map};
ghost use Rattle.std.specs.Prelude.{string_bytes};
ghost use Rattle.jt_chains.specs.Indices.{namespace_at};
ghost use Rattle.jt_inherit.specs.internal.Found.{IsDone, IsFirst, IsFound, root_of};
ghost use Rattle.jt_inherit.specs.internal.Found.{found_namespaces, found_paths, found_templates};
ghost use Rattle.jt_inherit.specs.Findings as findings;
ghost use Rattle.jt_inherit.specs.Findings.{IsFinding};
ghost use Rattle.jt_inherit.specs.internal.Placing as spec;
ghost use Rattle.jt_inherit.specs.internal.Placing.{IsNoLibrary, IsOfImport, LeadsAt};
ghost use Rattle.jt_inherit.specs.internal.Placing.{leading_at, name_at};
ghost use Rattle.jt_inherit.specs.internal.Numbers.{key_view};
ghost use Rattle.jt_inherit.specs.internal.Tags.{place_view, test_of};

use crate::error::ChainError;
use crate::extends_path::read_namespace;
use crate::finding::{ChainFinding, ChainSubject, TagPlace};
use crate::including::{next_namespaces, read_needs, with_needs};
use crate::library::Library;
use crate::sets::{NamespaceKey, Namespaces};
use crate::store::TemplateStore;
use crate::tags::{Wanted, first_at};
use jt_scan::Options;
use std::alloc::{AllocError, Global};

/// The state of the search: the templates, chains and libraries that were found.
#[derive(Drop)]
pub(crate) struct Discovery {
    /// The templates that were read, each once.
    pub(crate) store: TemplateStore,
    /// The chains and libraries that were found, each once.
    pub(crate) namespaces: Namespaces,
    /// The indices of the templates of each chain or library that was followed.
    pub(crate) extends_paths: Vec<Vec<usize>>,
    /// The numbers of the chains and libraries that each followed one includes or imports.
    pub(crate) next: Vec<Vec<usize>>,
}

/// Returns the state that holds only the entry's chain.
fn begin(alloc: Global, entry: &str) -> Result<Discovery, AllocError>
    ensures { IfOk result (λ f. IsFirst entry.now f) }
{
    let mut namespaces = Namespaces::new(alloc);
    let name = String::from_str(alloc, entry)?;
    namespaces.put(
        alloc,
        NamespaceKey {
            name,
            is_library: false,
        },
    )?;
    Ok(Discovery {
        store: TemplateStore::new(alloc),
        namespaces,
        extends_paths: Vec::new(alloc),
        next: Vec::new(alloc),
    })
}

/// Returns the name of the chain or library of a number.
pub(crate) fn name_of(alloc: Global, found: &Discovery, number: usize) -> Result<String, AllocError>
    requires { number < length (found_namespaces found.now) }
    ensures { IfOk result
        (λ name. string_bytes name ≡ name_at (found_namespaces found.now) number) }
{
    String::from_str(alloc, &found.namespaces.get(number).name)
}

/// Returns the use that leads to a chain or library.
fn wanted_for(namespace: &NamespaceKey) -> Wanted<'_>
    ensures { test_of result ≡ findings.leads_to (key_view namespace.now) }
{
    if namespace.is_library {
        return Wanted::Imports(&namespace.name);
    }
    Wanted::Includes(&namespace.name)
}

/// Returns the place of the first tag in the chain or library `from` that leads to `to`, or `None`
/// if there is none.
pub(crate) fn leading_tag(
    alloc: Global,
    found: &Discovery,
    from: usize,
    to: usize,
) -> Result<Option<TagPlace>, AllocError>
    requires from { from < length found.now.extends_paths.items }
    requires to { to < length (found_namespaces found.now) }
    ensures { IfOk result (λ p. option_map place_view p ≡ leading_at (found_templates found.now)
        (found_paths found.now) (namespace_at (found_namespaces found.now) to) from) }
{
    let wanted = wanted_for(found.namespaces.get(to));
    first_at(
        alloc,
        &found.store.files,
        &found.extends_paths[from],
        wanted,
    )
}

/// Returns the place of the first tag that leads to the chain or library of a number.
fn place_of(alloc: Global, found: &Discovery, number: usize) -> Result<Option<TagPlace>, AllocError>
    requires { number < length (found_namespaces found.now) }
    ensures { IfOk result (LeadsAt (found_templates found.now) (found_paths found.now)
        (namespace_at (found_namespaces found.now) number)) }
{
    for from in 0..found.extends_paths.len() {
        if let Some(place) = leading_tag(alloc, found, from, number)? {
            return Ok(Some(place));
        }
    }
    Ok(None)
}

/// Returns the finding of the library of a number, which holds something other than macros, with
/// the first tag that imports it.
fn import_finding(
    alloc: Global,
    found: &Discovery,
    number: usize,
) -> Result<ChainFinding, AllocError>
    requires { number < length (found_namespaces found.now) }
    ensures { IfOk result (IsOfImport (found_templates found.now) (found_paths found.now)
        (namespace_at (found_namespaces found.now) number)) }
{
    let place = place_of(alloc, found, number)?;
    let name = name_of(alloc, found, number)?;
    Ok(ChainFinding {
        error: ChainError::NotALibrary,
        place,
        subject: Some(ChainSubject::Template(name)),
    })
}

/// Returns whether a namespace is a library that was not read or holds something other than macros.
fn is_no_library(found: &Discovery, namespace: &NamespaceKey) -> bool
    ensures { result ≡ spec.is_no_library (found_templates found.now) (key_view namespace.now) }
{
    if !namespace.is_library {
        return false;
    }
    match found.store.find(&namespace.name) {
        Some(index) => !found.store.files[index].is_library(),
        None => true,
    }
}

/// Refuses the library of a number if it holds something other than macros.
fn check_library(alloc: Global, found: &Discovery, number: usize) -> Result<(), ChainFinding>
    requires { number < length (found_namespaces found.now) }
    ensures kept { OnOk result (spec.is_no_library (found_templates found.now)
        (namespace_at (found_namespaces found.now) number) ≡ false) }
    ensures refused { IfErr result (IsNoLibrary (found_templates found.now) (found_paths found.now)
        (namespace_at (found_namespaces found.now) number)) }
{
    if is_no_library(found, found.namespaces.get(number)) {
        return Err(import_finding(alloc, found, number)?);
    }
    Ok(())
}

/// Follows the next chain or library: reads its templates and the templates that they include or
/// import.
fn follow<L: Library>(
    alloc: Global,
    found: &mut Discovery,
    library: &L,
    options: Options,
) -> Result<(), ChainFinding>
    requires found { IsFound (L.sources library.now) options found.old }
    requires more { length found.old.extends_paths.items < length (found_namespaces found.old) }
    ensures found { OnOk result
        (IsFound (L.sources library.now) options found.new) }
    ensures one { OnOk result
        (length found.new.extends_paths.items ≡ length found.old.extends_paths.items + 1) }
    ensures root { OnOk result (root_of found.new ≡ root_of found.old) }
    ensures refused { IfErr result
        (IsFinding (L.sources library.now) (root_of found.old) options) }
{
    let number = found.extends_paths.len();
    check_library(alloc, found, number)?;
    let namespace = found.namespaces.get(number);
    let extends_path = read_namespace(alloc, &mut found.store, namespace, library, options)?;
    let path = with_needs(alloc, &found.store, extends_path)?;
    read_needs(alloc, &mut found.store, &path, library, options)?;
    let next = next_namespaces(alloc, &found.store, &mut found.namespaces, &path)?;
    found.extends_paths.push(path.extends_path)?;
    found.next.push(next)?;
    Ok(())
}

/// Finds the chains and libraries that an entry reaches, in breadth-first order.
pub(crate) fn discover<L: Library>(
    alloc: Global,
    entry: &str,
    library: &L,
    options: Options,
) -> Result<Discovery, ChainFinding>
    ensures done { IfOk result
        (IsDone (L.sources library.now) options entry.now) }
    ensures refused { IfErr result
        (IsFinding (L.sources library.now) entry.now options) }
{
    let mut found = begin(alloc, entry)?;
    'chains: while found.extends_paths.len() < found.namespaces.len() {
        follow(alloc, &mut found, library, options)?;
    }
    Ok(found)
}
