//! Finds the place and the subject of an error at the name of a template.

ghost use Rattle.std.specs.Prelude.{◌≡◌, ◌+◌, ◌<◌, map, drop, length, IfOk, string_bytes};
ghost use Rattle.jt_inherit.specs.internal.ExtendsPaths.{names};
ghost use Rattle.jt_inherit.specs.internal.Views.{its_templates};
ghost use Rattle.jt_inherit.specs.internal.Placing.{IsCycle, IsIncludedMore, IsLong, IsNamed};
ghost use Rattle.jt_inherit.specs.internal.Placing.{IsOfNeed, need_test};
ghost use Rattle.jt_inherit.specs.internal.Tags.{test_of};

use crate::error::ChainError;
use crate::finding::{ChainFinding, ChainSubject, TagPlace};
use crate::including::{FollowedPath, KeyedNeed};
use crate::store::TemplateStore;
use crate::tags::{Wanted, first_at};
use std::alloc::{AllocError, Global};

/// A name that is asked for, and the place of the tag that asks for it. The entry's name has no
/// such tag.
#[derive(Drop)]
pub(crate) struct AskedName {
    pub(crate) name: String,
    pub(crate) place: Option<TagPlace>,
}

/// Returns the finding of an error of the template of a name. An error of the source has neither
/// place nor subject.
pub(crate) fn name_finding(asked: AskedName, error: ChainError) -> ChainFinding
    ensures { IsNamed asked error result }
{
    match error {
        ChainError::Missing | ChainError::BadName => ChainFinding {
            error,
            place: asked.place,
            subject: Some(ChainSubject::Template(asked.name)),
        },
        _ => ChainFinding::without_place(error),
    }
}

/// Returns the finding of a path that would have more templates than a chain may have.
pub(crate) fn long_finding(asked: AskedName) -> ChainFinding
    ensures { IsLong asked result }
{
    ChainFinding {
        error: ChainError::ChainTooLong,
        place: asked.place,
        subject: Some(ChainSubject::Templates(asked.name)),
    }
}

/// Returns the names of the templates at `indices`.
fn names_along(
    alloc: Global,
    store: &TemplateStore,
    indices: &[usize],
) -> Result<Vec<String>, AllocError>
    ensures { IfOk result (λ found. map string_bytes found.items
        ≡ names (its_templates store.now indices.now)) }
{
    let mut names = Vec::with_capacity(alloc, indices.len())?;
    for index in indices {
        let Some(file) = store.files.get(*index) else {
            continue;
        };
        names.push(String::from_str(alloc, &file.name)?)?;
    }
    Ok(names)
}

/// Returns the finding of a path that comes back to its template at `start`, which has the name.
pub(crate) fn cycle_finding(
    alloc: Global,
    store: &TemplateStore,
    extends_path: &[usize],
    start: usize,
    asked: AskedName,
) -> Result<ChainFinding, AllocError>
    requires { start < length extends_path.now }
    ensures { IfOk result (IsCycle asked
        (names (its_templates store.now (drop (start + 1) extends_path.now)))) }
{
    let rest = names_along(alloc, store, &extends_path[start + 1..])?;
    Ok(ChainFinding {
        error: ChainError::ExtendsCycle,
        place: asked.place,
        subject: Some(ChainSubject::Ring {
            name: asked.name,
            rest,
        }),
    })
}

/// Returns the use that asks for a template: if the error is that the template is missing, the
/// template may not be.
fn wanted_need<'a>(name: &'a str, error: &ChainError) -> Wanted<'a>
    ensures { test_of result ≡ need_test name.now error.now }
{
    match error {
        ChainError::Missing => Wanted::Needs(name),
        _ => Wanted::Asks(name),
    }
}

/// Returns the finding of an error at a template that the templates on a path ask for.
pub(crate) fn need_finding(
    alloc: Global,
    store: &TemplateStore,
    path: &FollowedPath,
    need: &KeyedNeed,
    error: ChainError,
) -> Result<ChainFinding, AllocError>
    ensures { IfOk result (IsOfNeed (its_templates store.now path.now.extends_path.items)
        (string_bytes need.now.namespace.name) error) }
{
    let name = need.namespace.name.as_str();
    let place = first_at(
        alloc,
        &store.files,
        &path.extends_path,
        wanted_need(name, &error),
    )?;
    let name = String::from_str(alloc, name)?;
    Ok(name_finding(AskedName { name, place }, error))
}

/// Returns the finding of a chain that is one too many, which the templates on a path include.
pub(crate) fn included_finding(
    alloc: Global,
    store: &TemplateStore,
    path: &FollowedPath,
    need: &KeyedNeed,
) -> Result<ChainFinding, AllocError>
    ensures { IfOk result (IsIncludedMore (its_templates store.now path.now.extends_path.items)
        (string_bytes need.now.namespace.name)) }
{
    let name = need.namespace.name.as_str();
    let place = first_at(
        alloc,
        &store.files,
        &path.extends_path,
        Wanted::Includes(name),
    )?;
    let name = String::from_str(alloc, name)?;
    Ok(ChainFinding {
        error: ChainError::ChainTooLong,
        place,
        subject: Some(ChainSubject::Chains(name)),
    })
}
