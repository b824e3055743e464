//! Builds the place table of an image: the template names, and an encoded place per instruction.

ghost use Rattle.std.specs.Prelude.{◌≡◌, ◌≤◌, ◌∷◌, [], length, map, IfOk, IfErr};
ghost use Rattle.std.specs.List.{AllByRecursion};
ghost use Rattle.jt_image.specs.IsCode.{max_count};
ghost use Rattle.jt_image.specs.View.{texts_view, loc_view, locs_view};
ghost use Rattle.jt_ir.specs.View.{place_view};
ghost use Rattle.jt_lower.specs.Emission.{tag_view};
ghost use Rattle.jt_ast.specs.Texts.{all_inserted, texts};
ghost use Rattle.jt_lower.specs.SourceLocs.{templates_in, templates_of, number_of, loc_of};
ghost use Rattle.jt_semantics.specs.Ascends.{Ascends};
ghost use Rattle.jt_codegen.specs.internal.Naming.{named_places, IsNamed, HasLast, numbers_among};
ghost use Rattle.jt_codegen.specs.Units.{RefusesTemplates};

use crate::emission::EmitError;
use crate::finding::Limit;
use jt_image::{MAX_COUNT, SourceLoc};
use jt_ir::Place;
use std::alloc::{AllocError, Global};
use std::collections::BTreeSet;

/// The place table of an image: its template names, and one encoded place per instruction.
#[derive(Drop)]
pub(crate) struct PlaceTable {
    /// The names of the templates that places refer to, strictly ascending.
    pub(crate) templates: Vec<String>,
    /// The encoded places, one per instruction.
    pub(crate) places: Vec<SourceLoc>,
}

/// Builds the place table for the places of all instructions; `templates` are the names of the
/// program's templates.
///
/// # Errors
///
/// * `Limit` if places refer to more templates than an image may have.
/// * `NoMemory` if a growth is refused.
pub(crate) fn place_table(
    alloc: Global,
    templates: &[String],
    places: &[Option<Place>],
) -> Result<PlaceTable, EmitError>
    ensures named { IfOk result
        (λ p. texts_view p.templates.items ≡ templates_of (named_places templates.now places.now)) }
    ensures told { IfOk result (λ p. let places = named_places templates.now places.now in
        locs_view p.places.items ≡ map (loc_of (templates_of places)) places) }
    ensures few { IfOk result
        (λ p. length (templates_of (named_places templates.now places.now)) ≤ max_count) }
    ensures refused { IfErr result
        (λ e. RefusesTemplates e (templates_of (named_places templates.now places.now))) }
{
    let named = named_templates(alloc, templates, places)?;
    if named.len() > MAX_COUNT {
        return Err(EmitError::Limit(Limit::Templates));
    }
    let locs = locs_of(alloc, templates, &named, places)?;
    let names = copies_of(alloc, &named)?;
    Ok(PlaceTable {
        templates: names,
        places: locs,
    })
}

/// Returns the name of the template of a place.
fn template_at(templates: &[String], place: Place) -> &str
    ensures { result.now ≡ (place_view (texts_view templates.now) place).template }
{
    match templates.get(place.template) {
        Some(name) => name.as_str(),
        None => "",
    }
}

/// Returns the distinct templates that places refer to, in ascending order.
fn named_templates<'a>(
    alloc: Global,
    templates: &'a [String],
    places: &[Option<Place>],
) -> Result<Vec<&'a str>, AllocError>
    ensures { IfOk result
        (λ ns. texts ns.items ≡ templates_of (named_places templates.now places.now)) }
{
    let mut named = NamedTemplates {
        names: BTreeSet::new(alloc),
        last: None,
    };
    for tag in places {
        named.add(templates, *tag)?;
    }
    named.names.into_iter().collect(alloc)
}

/// The templates that places refer to.
#[derive(Drop)]
struct NamedTemplates<'a> {
    /// The names of the templates.
    names: BTreeSet<&'a str>,
    /// The index of the template that was added last. Most places have the template of the place
    /// before them.
    last: Option<usize>,
}

impl<'a> NamedTemplates<'a> {
    /// Adds the template of a place, if the place exists.
    fn add(&mut self, templates: &'a [String], tag: Option<Place>) -> Result<(), AllocError>
        requires { HasLast (texts_view templates.now) self.old }
        ensures added { IfOk result (λ u. texts self.new.names.keys
            ≡ all_inserted (templates_in (tag_view (texts_view templates.now) tag ∷ []))
            (texts self.old.names.keys)) }
        ensures last { IfOk result (λ u. HasLast (texts_view templates.now) self.new) }
    {
        if let Some(place) = tag {
            if self.last != Some(place.template) {
                self.names.insert(template_at(templates, place))?;
                self.last = Some(place.template);
            }
        }
        Ok(())
    }
}

/// Returns the number of the ascending names `named` before `name`, or the length of `named` if
/// `name` is missing.
fn number_of(name: &str, named: &[&str]) -> usize
    requires ascend { Ascends (texts named.now) }
    ensures { result ≡ number_of name.now (texts named.now) }
{
    named.binary_search(&name).unwrap_or(named.len())
}

/// Returns for each template the number of the ascending names `named` before its name.
fn numbers_of(alloc: Global, templates: &[String], named: &[&str]) -> Result<Vec<usize>, AllocError>
    requires ascend { Ascends (texts named.now) }
    ensures { IfOk result (λ ns.
        ns.items ≡ numbers_among (texts named.now) (texts_view templates.now)) }
{
    let mut numbers = Vec::with_capacity(alloc, templates.len())?;
    for name in templates {
        numbers.push(number_of(name, named))?;
    }
    Ok(numbers)
}

/// Encodes each place by the number of its template among `named`.
fn locs_of(
    alloc: Global,
    templates: &[String],
    named: &[&str],
    places: &[Option<Place>],
) -> Result<Vec<SourceLoc>, AllocError>
    requires few { length named.now ≤ max_count }
    requires ascend { Ascends (texts named.now) }
    requires named { AllByRecursion (IsNamed (texts named.now))
        (named_places templates.now places.now) }
    ensures { IfOk result (λ ss. locs_view ss.items
        ≡ map (loc_of (texts named.now)) (named_places templates.now places.now)) }
{
    let numbers = numbers_of(alloc, templates, named)?;
    let mut locs = Vec::with_capacity(alloc, places.len())?;
    for tag in places {
        locs.push(loc_of(templates, named, &numbers, *tag))?;
    }
    Ok(locs)
}

/// Encodes a place by the number of its template, counted from 1. `numbers` has for each template
/// the number of names before its name.
fn loc_of(templates: &[String], named: &[&str], numbers: &[usize], tag: Option<Place>) -> SourceLoc
    requires few { length named.now ≤ max_count }
    requires numbers { numbers.now ≡ numbers_among (texts named.now) (texts_view templates.now) }
    requires ascend { Ascends (texts named.now) }
    requires named { IsNamed (texts named.now) (tag_view (texts_view templates.now) tag) }
    ensures { loc_view result ≡ loc_of (texts named.now) (tag_view (texts_view templates.now) tag) }
{
    match tag {
        None => SourceLoc {
            template: 0,
            line: 0,
        },
        Some(place) => {
            let before = match numbers.get(place.template) {
                Some(number) => *number,
                None => number_of(template_at(templates, place), named),
            };
            SourceLoc {
                template: (before + 1) as u16,
                line: place.line,
            }
        }
    }
}

/// Returns copies of names.
fn copies_of(alloc: Global, names: &[&str]) -> Result<Vec<String>, AllocError>
    ensures { IfOk result (λ ns. texts_view ns.items ≡ texts names.now) }
{
    let mut copies = Vec::with_capacity(alloc, names.len())?;
    for name in names {
        let copy = String::from_str(alloc, *name)?;
        copies.push(copy)?;
    }
    Ok(copies)
}
