//! Lists the names in parts of a tree, in their order.

ghost use Rattle.std.specs.Prelude.{◌≡◌, IfOk};
ghost use Rattle.jt_ast.specs.ExpressionView.{pairs_view};
ghost use Rattle.jt_ast.specs.StatementView.{names_view};
ghost use Rattle.jt_ast.specs.Texts.{texts};
ghost use Rattle.jt_chains.specs.Uses.{keywords};
ghost use Rattle.jt_names.specs.Names.{parameter_names, Adds};

use jt_ast::{Expr, Parameter};
use std::alloc::{AllocError, Global};

/// Adds the names as borrowed texts.
pub(crate) fn add_names_of<'a>(
    found: &mut Vec<&'a str>,
    names: &'a [String],
) -> Result<(), AllocError>
    ensures { IfOk result (λ _. Adds found.old found.new (names_view names.now)) }
{
    for name in names {
        found.push(name.as_str())?;
    }
    Ok(())
}

/// Returns the names as borrowed texts, in their order.
pub fn names_of<'a>(alloc: Global, names: &'a [String]) -> Result<Vec<&'a str>, AllocError>
    ensures { IfOk result (λ ns. texts ns.items ≡ names_view names.now) }
{
    let mut found = Vec::with_capacity(alloc, names.len())?;
    add_names_of(&mut found, names)?;
    Ok(found)
}

/// Returns the names of keyword arguments, or the keys of a map.
pub fn keyword_names<'a>(
    alloc: Global,
    pairs: &'a [(String, Expr)],
) -> Result<Vec<&'a str>, AllocError>
    ensures { IfOk result (λ ns. texts ns.items ≡ keywords (pairs_view pairs.now)) }
{
    let mut names = Vec::with_capacity(alloc, pairs.len())?;
    for (name, _) in pairs {
        names.push(name.as_str())?;
    }
    Ok(names)
}

/// Returns the names of parameters.
pub fn parameter_names<'a>(
    alloc: Global,
    parameters: &'a [Parameter],
) -> Result<Vec<&'a str>, AllocError>
    ensures { IfOk result (λ ns. texts ns.items ≡ parameter_names parameters.now) }
{
    let mut names = Vec::with_capacity(alloc, parameters.len())?;
    for parameter in parameters {
        names.push(parameter.name.as_str())?;
    }
    Ok(names)
}
