//! Reads the templates that a chain includes and imports, and finds the chains and libraries that
//! they begin.

ghost use Rattle.std.specs.Prelude.{◌≡◌, ◌≤◌, ◌++◌, ◌∷◌, [], true, false, length, OnErr, OnOk};
ghost use Rattle.std.specs.Prelude.{IfOk, IfErr, map, string_bytes};
ghost use Rattle.std.specs.List.{AllByRecursion};
ghost use Rattle.jt_ast.specs.StatementView.{body_view};
ghost use Rattle.jt_chains.specs.Along.{AreIndices};
ghost use Rattle.jt_inherit.specs.internal.Found.{imports_along, needs_along, IsMet, IsFaultAt};
ghost use Rattle.jt_inherit.specs.internal.Found.{IsPutFault, AreNamespaces, AreNext, AddsNext};
ghost use Rattle.jt_inherit.specs.internal.Found.{IsNextFault, IsNextFinding, chains_of, lead_to};
ghost use Rattle.jt_inherit.specs.internal.Found.{leads_to, IsUnmet, HasNeeds, keyed_view};
ghost use Rattle.jt_inherit.specs.internal.Found.{keyed_needs};
ghost use Rattle.jt_inherit.specs.internal.Views.{its_files, its_templates, namespaces_view};
ghost use Rattle.jt_chains.specs.Chain.{libraries_in, listed};
ghost use Rattle.jt_chains.specs.Needs.{AddsNeeds, library_need, need_view, needed};
ghost use Rattle.jt_chains.specs.TemplateFiles.{files_view};
ghost use Rattle.jt_inherit.specs.internal.Numbers.{key_view};
ghost use Rattle.jt_inherit.specs.internal.ExtendsPaths.{AreKnown, HasRead, names};

use crate::error::ChainError;
use crate::finding::ChainFinding;
use crate::library::Library;
use crate::placing::{included_finding, need_finding};
use crate::sets::{NamespaceKey, Namespaces};
use crate::store::TemplateStore;
use jt_ast::Stmt;
use jt_chains::{NeededTemplate, TemplateFile, includes_at};
use jt_scan::Options;
use std::alloc::{AllocError, Global};

/// The greatest number of chains that an entry may reach, its own included.
const MAX_CHAINS: usize = 1024;

/// An include or an import: the chain or library that it leads to, and whether the template may be
/// missing.
#[derive(Drop)]
pub(crate) struct KeyedNeed {
    pub(crate) namespace: NamespaceKey,
    pub(crate) ignoring: bool,
}

/// The indices of the templates of a chain or library, and their includes and imports.
#[derive(Drop)]
pub(crate) struct FollowedPath {
    pub(crate) extends_path: Vec<usize>,
    pub(crate) needs: Vec<KeyedNeed>,
}

/// Returns the import of a library.
fn imported(name: &str) -> NeededTemplate<'_>
    ensures { need_view result ≡ library_need name.now }
{
    NeededTemplate {
        name,
        ignoring: false,
        is_library: true,
    }
}

/// Adds the imports of a template, in the order of the source.
fn add_imports<'a>(found: &mut Vec<NeededTemplate<'a>>, body: &'a [Stmt]) -> Result<(), AllocError>
    ensures { IfOk result (λ _. AddsNeeds found.old.items found.new.items
        (map library_need (libraries_in (body_view body.now)))) }
{
    for statement in body {
        match statement {
            Stmt::Import { library, .. } | Stmt::From { library, .. } => {
                found.push(imported(library))?
            }
            _ => {}
        }
    }
    Ok(())
}

/// Adds the imports of the templates at `indices`.
#[tactic(auto, using(jt_chains::proofs::TemplatesByIndex::along_turn, jt_chains::proofs::TemplatesByIndex::file_at, jt_chains::proofs::TemplatesByIndex::index_within))]
fn add_imports_at<'a>(
    files: &'a [TemplateFile],
    indices: &[usize],
    found: &mut Vec<NeededTemplate<'a>>,
) -> Result<(), AllocError>
    requires { AreIndices (files_view files.now) indices.now }
    ensures { IfOk result (λ _. AddsNeeds found.old.items found.new.items
        (imports_along (files_view files.now) indices.now)) }
{
    for index in indices {
        add_imports(found, files[*index].template.body())?;
    }
    Ok(())
}

/// Returns an include or import with a name of its own.
fn keyed(alloc: Global, need: NeededTemplate<'_>) -> Result<KeyedNeed, AllocError>
    ensures { IfOk result (λ n. keyed_view n ≡ need_view need.entry) }
{
    Ok(KeyedNeed {
        namespace: NamespaceKey {
            name: String::from_str(alloc, need.name)?,
            is_library: need.is_library,
        },
        ignoring: need.ignoring,
    })
}

/// Returns the includes and imports of the templates at `indices`.
fn needs_at(
    alloc: Global,
    files: &[TemplateFile],
    indices: &[usize],
) -> Result<Vec<KeyedNeed>, AllocError>
    requires { AreIndices (files_view files.now) indices.now }
    ensures { IfOk result
        (λ needs. keyed_needs needs.items ≡ needs_along (files_view files.now) indices.now) }
{
    let mut found = includes_at(alloc, files, indices)?;
    add_imports_at(files, indices, &mut found)?;
    let mut needs = Vec::with_capacity(alloc, found.len())?;
    for need in &found {
        needs.push(keyed(alloc, *need)?)?;
    }
    Ok(needs)
}

/// Returns a path with the includes and imports of its templates.
pub(crate) fn with_needs(
    alloc: Global,
    store: &TemplateStore,
    extends_path: Vec<usize>,
) -> Result<FollowedPath, AllocError>
    requires { AreIndices (its_files store.now) extends_path.items }
    ensures told { IfOk result (HasNeeds (its_files store.now)) }
    ensures same { IfOk result (λ path. path.extends_path ≡ extends_path) }
{
    let needs = needs_at(alloc, &store.files, &extends_path)?;
    Ok(FollowedPath {
        extends_path,
        needs,
    })
}

/// Reads an included or imported template unless it was read before. A missing template is skipped
/// if it may be missing.
fn read_need<L: Library>(
    alloc: Global,
    store: &mut TemplateStore,
    need: &KeyedNeed,
    library: &L,
    options: Options,
) -> Result<(), ChainError>
    requires { AreKnown (L.sources library.now) options
        (its_files store.old) }
    ensures read { OnOk result (HasRead (L.sources library.now) options
        (its_files store.old) (its_files store.new) (string_bytes need.now.namespace.name ∷ [])) }
    ensures met { OnOk result (IsMet (L.sources library.now)
        (names (its_files store.new)) (keyed_view need.now)) }
    ensures same { OnErr result (its_files store.new ≡ its_files store.old) }
    ensures refused { IfErr result (λ e.
        IsFaultAt (L.sources library.now) options (keyed_view need.now) e) }
{
    match store.read(alloc, &need.namespace.name, library, options) {
        Ok(_index) => Ok(()),
        Err(ChainError::Missing) if need.ignoring => Ok(()),
        Err(refusal) => Err(refusal),
    }
}

/// Reads the included and imported templates of a path that were not read before.
pub(crate) fn read_needs<L: Library>(
    alloc: Global,
    store: &mut TemplateStore,
    path: &FollowedPath,
    library: &L,
    options: Options,
) -> Result<(), ChainFinding>
    requires known { AreKnown (L.sources library.now) options
        (its_files store.old) }
    requires path { HasNeeds (its_files store.old) path.now }
    // Each new name is included or imported.
    ensures read { OnOk result (HasRead (L.sources library.now) options
        (its_files store.old) (its_files store.new)
        (needed true (keyed_needs path.now.needs.items))) }
    ensures met { OnOk result (AllByRecursion (IsMet (L.sources library.now)
        (names (its_files store.new))) (keyed_needs path.now.needs.items)) }
    ensures refused { IfErr result (IsUnmet (L.sources library.now) options
        (its_files store.old) path.now.extends_path.items) }
{
    for need in &path.needs {
        match read_need(alloc, store, need, library, options) {
            Ok(()) => {}
            Err(error) => return Err(need_finding(alloc, store, path, need, error)?),
        }
    }
    Ok(())
}

/// Returns a copy of a key.
fn copy_of(alloc: Global, namespace: &NamespaceKey) -> Result<NamespaceKey, AllocError>
    ensures { IfOk result (λ k. key_view k ≡ key_view namespace.now) }
{
    Ok(NamespaceKey {
        name: String::from_str(alloc, &namespace.name)?,
        is_library: namespace.is_library,
    })
}

/// Appends a chain or a library that is new.
#[tactic(auto, using(crate::proofs::NumberTables::library_more, crate::proofs::NumberTables::chain_more))]
fn put_new(
    alloc: Global,
    namespaces: &mut Namespaces,
    namespace: &NamespaceKey,
) -> Result<(), ChainError>
    requires new { listed (key_view namespace.now) (namespaces_view namespaces.old) ≡ false }
    requires few { length (chains_of (namespaces_view namespaces.old)) ≤ MAX_CHAINS }
    ensures put { OnOk result
        (namespaces_view namespaces.new
        ≡ namespaces_view namespaces.old ++ key_view namespace.now ∷ []) }
    ensures few { OnOk result (length (chains_of (namespaces_view namespaces.new)) ≤ MAX_CHAINS) }
    ensures refused { IfErr result
        (IsPutFault (namespaces_view namespaces.old) (key_view namespace.now)
        (string_bytes namespace.now.name)) }
{
    let key = copy_of(alloc, namespace)?;
    if namespace.is_library {
        namespaces.put(alloc, key)?;
        return Ok(());
    }
    if namespaces.count_chains() == MAX_CHAINS {
        return Err(ChainError::ChainTooLong);
    }
    namespaces.put(alloc, key)?;
    Ok(())
}

/// Returns the number of a chain or a library, which is appended if it is new.
fn number_of(
    alloc: Global,
    namespaces: &mut Namespaces,
    namespace: &NamespaceKey,
) -> Result<usize, ChainError>
    requires { AreNamespaces (namespaces_view namespaces.old) }
    ensures next { IfOk result (λ i. AreNext (namespaces_view namespaces.old)
        (namespaces_view namespaces.new) (key_view namespace.now ∷ []) (i ∷ [])) }
    ensures refused { IfErr result (IsNextFault (namespaces_view namespaces.old)
        (key_view namespace.now ∷ []) (string_bytes namespace.now.name)) }
{
    if let Some(number) = namespaces.find(namespace) {
        return Ok(number);
    }
    let number = namespaces.len();
    put_new(alloc, namespaces, namespace)?;
    Ok(number)
}

/// Adds the number of an included chain or an imported library, if its template was read.
fn add_number(
    alloc: Global,
    store: &TemplateStore,
    namespaces: &mut Namespaces,
    numbers: &mut Vec<usize>,
    need: &KeyedNeed,
) -> Result<(), ChainError>
    requires { AreNamespaces (namespaces_view namespaces.old) }
    ensures next { OnOk result
        (AddsNext (namespaces_view namespaces.old) (namespaces_view namespaces.new)
        (leads_to (its_files store.now) need.now) numbers.old.items numbers.new.items) }
    ensures refused { IfErr result (IsNextFault (namespaces_view namespaces.old)
        (leads_to (its_files store.now) need.now) (string_bytes need.now.namespace.name)) }
{
    let Some(_index) = store.find(&need.namespace.name) else {
        return Ok(());
    };
    let number = number_of(alloc, namespaces, &need.namespace)?;
    numbers.push(number)?;
    Ok(())
}

/// Returns the numbers of the chains and libraries that the templates on a path lead to. New chains
/// and libraries are appended to `namespaces`.
pub(crate) fn next_namespaces(
    alloc: Global,
    store: &TemplateStore,
    namespaces: &mut Namespaces,
    path: &FollowedPath,
) -> Result<Vec<usize>, ChainFinding>
    requires path { HasNeeds (its_files store.now) path.now }
    requires namespaces { AreNamespaces (namespaces_view namespaces.old) }
    ensures next { IfOk result
        (λ numbers. AreNext (namespaces_view namespaces.old) (namespaces_view namespaces.new)
        (lead_to (its_files store.now) path.now) numbers.items) }
    ensures refused { IfErr result (IsNextFinding (namespaces_view namespaces.old)
        (lead_to (its_files store.now) path.now)
        (its_templates store.now path.now.extends_path.items)) }
{
    let mut numbers = Vec::new(alloc);
    for need in &path.needs {
        match add_number(alloc, store, namespaces, &mut numbers, need) {
            Ok(()) => {}
            Err(ChainError::ChainTooLong) => {
                return Err(included_finding(alloc, store, path, need)?);
            }
            Err(_) => return Err(ChainFinding::without_place(ChainError::NoMemory)),
        }
    }
    Ok(numbers)
}
