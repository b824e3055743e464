//! Collects the different names that uses read or bind, and the names of included templates.

ghost use Rattle.std.specs.Prelude.{◌≡◌, filter_map, option_map, IfOk};
ghost use Rattle.jt_ast.specs.ExpressionView.{expr_view};
ghost use Rattle.jt_ast.specs.Texts.{texts};
ghost use Rattle.jt_chains.specs.Chain.{is_loop};
ghost use Rattle.jt_uses.specs.UseView.{site_view, sites_view};
ghost use Rattle.jt_names.specs.Names.{Puts};
ghost use Rattle.jt_names.specs.internal.UsedNames.{name_included, name_used};

use crate::ordered::add_name;
use jt_ast::Expr;
use jt_uses::{Use, UseSite};
use std::alloc::{AllocError, Global};
use std::collections::BTreeSet;

/// Returns whether an expression is the bare name `loop`.
pub fn is_loop_name(expr: &Expr) -> bool
    ensures { result ≡ is_loop (expr_view expr.now) }
{
    match expr {
        Expr::Name(name) => name.as_str() == "loop",
        _ => false,
    }
}

/// Which names of a template are collected.
#[derive(Clone, Copy)]
pub(crate) enum NamesOf {
    /// The names that it reads or binds.
    Template,
    /// The names that its scopes bind.
    Scopes,
}

/// Returns the name that a use reads or binds, if names of its kind are collected.
fn name_used<'a>(of: NamesOf, site: &UseSite<'a>) -> Option<&'a str>
    ensures { option_map (λ x. x.now) result ≡ name_used of (site_view site.now) }
{
    match (of, site.made) {
        (NamesOf::Template, Use::Reads(name)) if !site.place.around.in_callee => Some(name),
        (NamesOf::Template, Use::Binds(name)) => Some(name),
        (NamesOf::Scopes, Use::Binds(name)) if site.place.around.in_scope => Some(name),
        _ => None,
    }
}

/// Adds the names that uses read or bind, or only those that they bind in scopes.
pub(crate) fn add_used<'a>(
    names: &mut BTreeSet<&'a str>,
    of: NamesOf,
    uses: &[UseSite<'a>],
) -> Result<(), AllocError>
    ensures { IfOk result
        (λ _. Puts names.old names.new (filter_map (name_used of) (sites_view uses.now))) }
{
    for site in uses {
        if let Some(name) = name_used(of, site) {
            add_name(names, name)?;
        }
    }
    Ok(())
}

/// Returns the names of the templates that uses include, once for each include, in their order.
pub(crate) fn names_included<'a>(
    alloc: Global,
    uses: &[UseSite<'a>],
) -> Result<Vec<&'a str>, AllocError>
    ensures { IfOk result
        (λ names. texts names.items ≡ filter_map name_included (sites_view uses.now)) }
{
    let mut found = Vec::new(alloc);
    for site in uses {
        if let Use::Includes { name, .. } = site.made {
            found.push(name)?;
        }
    }
    Ok(found)
}
