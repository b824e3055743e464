//! Returns tests by their names, and the parameters of filters.

ghost use Rattle.std.specs.Prelude.{◌≡◌, ◌∷◌, [], option_map, IfOk};
ghost use Rattle.jt_ast.specs.ExpressionView.{literal_view};
ghost use Rattle.jt_ast.specs.StatementView.{parameter_view, parameters_view};
ghost use Rattle.jt_ids.specs.declared.filter_id.FilterId.TheVariants as filter;
ghost use Rattle.jt_eval.specs.Tests as tests;
ghost use Rattle.jt_eval.specs.TheFilters as the;

use jt_ast::{Literal, Parameter};
use jt_ids::{FilterId, TestId};
use std::alloc::{AllocError, Global};

/// Returns the test of a name, or `None` if no test has it.
pub fn test_of(name: &str) -> Option<TestId>
    ensures { result ≡ tests.test_named name.now }
{
    TestId::by_name(name)
}

/// Returns the parameters of a filter after its input, in order of position, each with its default.
///
/// # Errors
///
/// `AllocError` if a growth is refused.
pub fn filter_parameters(alloc: Global, filter: FilterId) -> Result<Vec<Parameter>, AllocError>
    ensures { IfOk result
        (λ parameters. parameters_view parameters.items ≡ the.filter_parameters filter) }
{
    match filter {
        FilterId::Attr => one(alloc, "name", None),
        FilterId::Default => default_parameters(alloc),
        FilterId::Int => one(alloc, "default", Some(Literal::Number(0))),
        FilterId::Join => {
            let empty = String::new(alloc);
            one(alloc, "d", Some(Literal::Text(empty)))
        }
        FilterId::Replace => replace_parameters(alloc),
        FilterId::Sort => one(alloc, "reverse", Some(Literal::Truth(false))),
        FilterId::MapAttribute => one(alloc, "attribute", None),
        _ => Ok(Vec::new(alloc)),
    }
}

/// Returns the parameters of `default`.
fn default_parameters(alloc: Global) -> Result<Vec<Parameter>, AllocError>
    ensures { IfOk result
        (λ parameters. parameters_view parameters.items ≡ the.filter_parameters filter.Default) }
{
    let empty = String::new(alloc);
    let value = parameter(alloc, "default_value", Some(Literal::Text(empty)))?;
    let falsy = parameter(alloc, "boolean", Some(Literal::Truth(false)))?;
    Ok(vec![in alloc; value, falsy]?)
}

/// Returns the parameters of `replace`.
fn replace_parameters(alloc: Global) -> Result<Vec<Parameter>, AllocError>
    ensures { IfOk result
        (λ parameters. parameters_view parameters.items ≡ the.filter_parameters filter.Replace) }
{
    let old = parameter(alloc, "old", None)?;
    let new = parameter(alloc, "new", None)?;
    Ok(vec![in alloc; old, new]?)
}

/// Returns a list of one parameter.
fn one(alloc: Global, name: &str, default: Option<Literal>) -> Result<Vec<Parameter>, AllocError>
    ensures { IfOk result (λ parameters. parameters_view parameters.items
        ≡ record { name = name.now; default = option_map literal_view default } ∷ []) }
{
    let only = parameter(alloc, name, default)?;
    Ok(vec![in alloc; only]?)
}

/// Returns a parameter with its default.
fn parameter(alloc: Global, name: &str, default: Option<Literal>) -> Result<Parameter, AllocError>
    ensures { IfOk result (λ p.
        parameter_view p ≡ record { name = name.now; default = option_map literal_view default }) }
{
    let name = String::from_str(alloc, name)?;
    Ok(Parameter { name, default })
}
