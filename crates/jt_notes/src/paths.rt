//! Finds the path that a tag prints, and the first of its names that has no value in a context.

ghost use Rattle.std.specs.Prelude.{◌≡◌, ◌<◌, IfOk, length, map, option_map};
ghost use Rattle.jt_ast.specs.ExpressionView.{expr_view};
ghost use Rattle.jt_ast.specs.Texts.{texts};
ghost use Rattle.jt_value.specs.Entries.{keys};
ghost use Rattle.jt_value.specs.ContextView.{pairs_of};
ghost use Rattle.jt_value.specs.View.{view};
ghost use Rattle.jt_notes.specs.Notes as spec;
ghost use Rattle.jt_notes.specs.internal.Missing.{missing_view};

use jt_ast::{Expr, literal_text};
use jt_value::{Context, Text, Value, ValueMap};
use std::alloc::{AllocError, Global};

/// Returns the path with a key appended.
fn longer<'a>(path: Option<Vec<&'a str>>, key: &'a str) -> Result<Option<Vec<&'a str>>, AllocError>
    ensures { IfOk result (λ p. option_map (λ v. texts v.items) p
        ≡ spec.longer (option_map (λ v. texts v.items) path.entry) key.now) }
{
    let Some(mut path) = path else {
        return Ok(None);
    };
    path.push(key)?;
    Ok(Some(path))
}

/// Returns the path that an expression is, if it is a name, or keys of the value of a name.
fn path_of(alloc: Global, expr: &Expr) -> Result<Option<Vec<&str>>, AllocError>
    ensures { IfOk result (λ p. option_map (λ v. texts v.items) p
        ≡ spec.path_of (expr_view expr.now)) }
{
    match expr {
        Expr::Name(name) => {
            let mut path = Vec::new(alloc);
            path.push(name.as_str())?;
            Ok(Some(path))
        }
        Expr::Attribute(value, key) => longer(path_of(alloc, value)?, key.as_str()),
        Expr::Item(value, index) => match literal_text(index) {
            Some(key) => longer(path_of(alloc, value)?, key),
            None => Ok(None),
        },
        _ => Ok(None),
    }
}

/// Returns whether a filter of this name replaces an undefined value.
fn is_default(name: &str) -> bool
    ensures { result ≡ spec.is_default name.now }
{
    name == "default" || name == "d"
}

/// Returns the path that is printed, under any filters but `default`.
pub(crate) fn printed_path(alloc: Global, expr: &Expr) -> Result<Option<Vec<&str>>, AllocError>
    ensures { IfOk result (λ p. option_map (λ v. texts v.items) p
        ≡ spec.printed_path (expr_view expr.now)) }
{
    match expr {
        Expr::Group(inner) => printed_path(alloc, inner),
        Expr::Filter { input, name, .. } => {
            if is_default(name) {
                return Ok(None);
            }
            printed_path(alloc, input)
        }
        _ => path_of(alloc, expr),
    }
}

/// The first name of a path that has no value.
#[derive(Clone, Copy)]
pub(crate) struct MissingName<'a> {
    /// Its index in the path.
    pub index: usize,
    /// The entries of the context, or of the map before it. None of them has this name.
    pub beside: &'a [(Text, Value)],
}

/// Returns the entries of a map.
#[tactic(auto, using(crate::proofs::EntryNames::keys_of_entries))]
fn entries_of_map(entries: &ValueMap) -> &[(Text, Value)]
    ensures { map (λ entry. entry.0) result.now ≡ keys entries.now }
{
    entries.entries()
}

/// Returns the entries of a context.
#[tactic(auto, using(crate::proofs::EntryNames::names_of_pairs))]
fn entries_of_context(context: &Context) -> &[(Text, Value)]
    ensures { map (λ entry. entry.0) result.now ≡ map (λ entry. entry.0) (pairs_of context.now) }
{
    context.entries()
}

/// Returns the first key of a path that a map on it does not have. The value is that of the path's
/// first name.
fn missing_key<'a>(value: &'a Value, path: &[&str]) -> Option<MissingName<'a>>
    ensures { option_map missing_view result
        ≡ spec.missing_key 1 (view value.now) (spec.rest (texts path.now)) }
{
    let mut value = value;
    for index in 1..path.len() {
        let Value::Map(map) = value else {
            return None;
        };
        match map.get(path[index]) {
            Some(inner) => value = inner,
            None => {
                let beside = entries_of_map(map);
                return Some(MissingName { index, beside });
            }
        }
    }
    None
}

/// Returns the first name of a path that has no value in the context.
pub(crate) fn missing_name<'a>(context: &'a Context, path: &[&str]) -> Option<MissingName<'a>>
    ensures { option_map missing_view result
        ≡ spec.missing_name (pairs_of context.now) (texts path.now) }
{
    let [name, ..] = path else {
        return None;
    };
    match context.get(name) {
        Some(value) => missing_key(value, path),
        None => Some(MissingName {
            index: 0,
            beside: entries_of_context(context),
        }),
    }
}
