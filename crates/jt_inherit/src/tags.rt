//! Finds the tags that a finding names.

ghost use Rattle.std.specs.Prelude.{◌≡◌, ◌≤◌, true, false, length, option_map, IfOk, MatchOption};
ghost use Rattle.jt_chains.specs.Along.{templates_at};
ghost use Rattle.jt_chains.specs.TemplateFiles.{file_view, files_view};
ghost use Rattle.jt_chains.specs.View.{its_templates};
ghost use Rattle.jt_inherit.specs.Findings as findings;
ghost use Rattle.jt_inherit.specs.Findings.{all_uses, uses_in};
ghost use Rattle.jt_inherit.specs.internal.Tags.{test_of, tags, tags_view, tag_view, place_view};
ghost use Rattle.jt_inherit.specs.internal.Tags.{AreFirst, has_call, place_in, with_name, place_of};
ghost use Rattle.jt_uses.specs.UseView.{use_view, sites_view};

use crate::finding::TagPlace;
use crate::supers::super_line;
use jt_chains::TemplateFile;
use jt_names::ChainFacts;
use jt_uses::{Use, UseSite, uses_of};
use std::alloc::{AllocError, Global};

/// What a tag does that a finding looks for.
#[derive(Clone, Copy)]
pub(crate) enum Wanted<'a> {
    /// It extends, includes or imports the template.
    Asks(&'a str),
    /// It does so, and the template may not be missing.
    Needs(&'a str),
    /// It extends the template.
    Extends(&'a str),
    /// It includes the template.
    Includes(&'a str),
    /// It imports the library.
    Imports(&'a str),
    /// It binds a name to the macro of the library.
    BindsMacro { library: &'a str, name: &'a str },
    /// It is a block of the name.
    Block(&'a str),
    /// It defines the name as a macro or by an import.
    Defines(&'a str),
}

/// A use and the name of its template.
#[derive(Clone, Copy)]
pub(crate) struct FoundTag<'a> {
    pub(crate) template: &'a str,
    pub(crate) site: UseSite<'a>,
}

impl<'a> FoundTag<'a> {
    /// Returns the place of the tag.
    pub(crate) fn place(self, alloc: Global) -> Result<TagPlace, AllocError>
        ensures { IfOk result (λ p. place_view p ≡ place_of (tag_view self.entry)) }
    {
        self.place_on(alloc, self.site.place.line)
    }

    /// Returns the place of a line of the tag's template.
    pub(crate) fn place_on(self, alloc: Global, line: u32) -> Result<TagPlace, AllocError>
        ensures { IfOk result (λ p. place_view p ≡ (self.entry.template.now, line)) }
    {
        Ok(TagPlace {
            template: String::from_str(alloc, self.template)?,
            line,
        })
    }

    /// Returns whether the tag is a required block.
    pub(crate) fn is_required(self) -> bool
        ensures { result ≡ findings.is_required (tag_view self.entry).1.made }
    {
        match self.site.made {
            Use::DeclaresBlock { required, .. } => required,
            _ => false,
        }
    }

    /// Returns the line of the first tag that calls `super()`, if this is a block with such a tag.
    /// Nested blocks do not count.
    pub(crate) fn super_line(self) -> Option<u32>
        ensures { MatchOption result (has_call (tag_view self.entry).1.made ≡ false)
            (λ n. findings.calls_super_at n (tag_view self.entry).1.made ≡ true) }
    {
        match self.site.made {
            Use::DeclaresBlock { body, .. } => super_line(body),
            _ => None,
        }
    }
}

/// Returns whether a use is a wanted one.
fn is_wanted(wanted: Wanted<'_>, made: Use<'_>) -> bool
    ensures { result ≡ test_of wanted.entry (use_view made.entry) }
{
    match (wanted, made) {
        (Wanted::Asks(one) | Wanted::Needs(one) | Wanted::Extends(one), Use::Extends(name))
        | (Wanted::Asks(one) | Wanted::Needs(one) | Wanted::Imports(one), Use::Imports(name))
        | (Wanted::Asks(one) | Wanted::Includes(one), Use::Includes { name, .. })
        | (Wanted::Block(one), Use::DeclaresBlock { name, .. })
        | (
            Wanted::Defines(one),
            Use::DeclaresMacro { name, .. }
            | Use::BindsLibrary { name, .. }
            | Use::BindsMacro { name, .. },
        ) => name == one,
        (Wanted::Needs(one), Use::Includes { name, missing, .. }) => {
            !missing.is_ignored() && name == one
        }
        (
            Wanted::BindsMacro { library: one, name },
            Use::BindsMacro {
                library,
                called,
                ..
            },
        ) => library == one && called == name,
        _ => false,
    }
}

/// Returns the tags of the wanted ones among the uses of a template, in the order of the source.
pub(crate) fn tags_among<'a>(
    alloc: Global,
    template: &'a str,
    uses: &[UseSite<'a>],
    wanted: Wanted<'_>,
) -> Result<Vec<FoundTag<'a>>, AllocError>
    ensures { IfOk result (λ found. tags_view found.items
        ≡ tags (test_of wanted.entry) (with_name template.now (sites_view uses.now))) }
{
    let mut found = Vec::new(alloc);
    for site in uses {
        if is_wanted(wanted, site.made) {
            found.push(FoundTag {
                template,
                site: *site,
            })?;
        }
    }
    Ok(found)
}

/// Returns the tags of the wanted uses of the templates of a chain at `indices`, in their order.
pub(crate) fn tags_at<'a>(
    alloc: Global,
    facts: &ChainFacts<'a>,
    indices: &[usize],
    wanted: Wanted<'_>,
) -> Result<Vec<FoundTag<'a>>, AllocError>
    ensures { IfOk result (λ found. tags_view found.items ≡ tags (test_of wanted.entry)
        (all_uses (templates_at (its_templates facts.now.chain.now) indices.now))) }
{
    let mut found = Vec::new(alloc);
    for index in indices {
        let Some(file) = facts.chain.templates.get(*index) else {
            continue;
        };
        let mut more = tags_among(alloc, &file.name, facts.uses_at(*index), wanted)?;
        found.append(&mut more)?;
    }
    Ok(found)
}

/// Returns the place of the first of some tags.
pub(crate) fn first_place(
    alloc: Global,
    found: &[FoundTag<'_>],
) -> Result<Option<TagPlace>, AllocError>
    ensures { IfOk result (λ p. option_map place_view p ≡ place_in 0 (tags_view found.now)) }
{
    match found.first() {
        Some(tag) => Ok(Some(tag.place(alloc)?)),
        None => Ok(None),
    }
}

/// Returns the tags of the wanted uses of a template whose uses are not known yet.
fn tags_of<'a>(
    alloc: Global,
    file: &'a TemplateFile,
    wanted: Wanted<'_>,
) -> Result<Vec<FoundTag<'a>>, AllocError>
    ensures { IfOk result (λ found. tags_view found.items
        ≡ tags (test_of wanted.entry) (uses_in (file_view file.now))) }
{
    let uses = uses_of(alloc, file.template.body())?;
    tags_among(alloc, &file.name, &uses, wanted)
}

/// Returns the place of the first wanted use of the templates at `indices`, whose uses are not
/// known yet.
pub(crate) fn first_at(
    alloc: Global,
    files: &[TemplateFile],
    indices: &[usize],
    wanted: Wanted<'_>,
) -> Result<Option<TagPlace>, AllocError>
    ensures { IfOk result (λ p. option_map place_view p ≡ place_in 0 (tags (test_of wanted.entry)
        (all_uses (templates_at (files_view files.now) indices.now)))) }
{
    for index in indices {
        let Some(file) = files.get(*index) else {
            continue;
        };
        let found = tags_of(alloc, file, wanted)?;
        let place = first_place(alloc, &found)?;
        if place.is_some() {
            return Ok(place);
        }
    }
    Ok(None)
}

/// Returns the places of the first two of some tags.
pub(crate) fn two_places(
    alloc: Global,
    found: &[FoundTag<'_>],
) -> Result<(TagPlace, TagPlace), AllocError>
    requires two { 2 ≤ length found.now }
    ensures { IfOk result (AreFirst found.now) }
{
    let first = found[0].place(alloc)?;
    let later = found[1].place(alloc)?;
    Ok((first, later))
}
