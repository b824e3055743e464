//! Checks the static rules of uses and finds the first broken one, in the order of the source.

ghost use Rattle.std.specs.Prelude.{◌≡◌, IfOk, option_map, slice_get};
ghost use Rattle.jt_ast.specs.ExpressionView.{expr_view};
ghost use Rattle.jt_ast.specs.StatementView.{parameters_view};
ghost use Rattle.jt_checks.specs.FindingView.{finding_view};
ghost use Rattle.jt_checks.specs.internal.RuleTests as rules;
ghost use Rattle.jt_uses.specs.UseView.{site_view, sites_view};
ghost use Rattle.jt_checks.specs.internal.ScopeView.{in_scope};

use crate::arguments::{any_repeated, filter_broken, test_broken, unless};
use crate::calls::{call_broken, callee_of};
use crate::finding::{Finding, subject_of};
use crate::scope::Scope;
use jt_ast::{Expr, Parameter};
use jt_ids::LoopField;
use jt_names::{is_loop_name, parameter_names};
use jt_rules::ScopeError;
use jt_uses::{Enclosing, Use, UseSite};
use std::alloc::{AllocError, Global};

/// The greatest number of parameters of a macro.
const MAX_PARAMETERS: usize = 255;

/// Returns the rule that a name breaks when it is read by itself.
fn read_alone(name: &str) -> Option<ScopeError>
    ensures { result ≡ rules.read_alone name.now }
{
    match name {
        "loop" => Some(ScopeError::LoopOutside),
        "self" | "super" | "range" => Some(ScopeError::NotCallable),
        _ => None,
    }
}

/// Returns the rule that a name breaks when it is read as a value, or bound.
fn used(scope: &Scope<'_, '_>, name: &str) -> Option<ScopeError>
    ensures { result ≡ in_scope rules.used scope.now name.now }
{
    let is_macro = scope.given(name).is_some();
    read_alone(name).or(is_macro.then_some(ScopeError::MacroAsValue))
}

/// Returns whether a callee is `loop` itself, a field of it other than `cycle`, or `cycle` outside
/// a loop.
fn misuses_loop(callee: &Expr, around: Enclosing) -> bool
    ensures { result ≡ rules.misuses_loop (expr_view callee.now) around }
{
    match callee {
        Expr::Name(name) => name.as_str() == "loop",
        Expr::Attribute(value, field) => {
            is_loop_name(value) && (field.as_str() != "cycle" || !around.in_loop)
        }
        _ => false,
    }
}

/// Returns the rule that a macro breaks by its name and the number and the names of its parameters.
fn macro_broken(
    alloc: Global,
    name: &str,
    parameters: &[Parameter],
) -> Result<Option<ScopeError>, AllocError>
    ensures { IfOk result
        (λ o. o ≡ rules.macro_broken name.now (parameters_view parameters.now)) }
{
    let names = parameter_names(alloc, parameters)?;
    let again = unless(!any_repeated(alloc, &names)?);
    let many = (MAX_PARAMETERS < parameters.len()).then_some(ScopeError::TooManySlots);
    Ok(read_alone(name).or(again.or(many)))
}

/// Returns the rule that a use breaks.
fn site_broken<'a>(
    scope: &Scope<'_, 'a>,
    site: &UseSite<'a>,
) -> Result<Option<ScopeError>, AllocError>
    ensures { IfOk result (λ o. o ≡ in_scope rules.use_broken scope.now
        (site_view site.now).made (site_view site.now).place.around) }
{
    let around = site.place.around;
    match site.made {
        Use::Reads(name) | Use::Binds(name) => Ok(used(scope, name)),
        Use::ReadsLoopField(field) => {
            let right = around.in_loop && LoopField::by_name(field).is_some();
            Ok((!right).then_some(ScopeError::LoopOutside))
        }
        Use::Calls {
            callee,
            arguments,
            keywords,
        } => {
            if misuses_loop(callee, around) {
                return Ok(Some(ScopeError::LoopOutside));
            }
            let called = callee_of(scope, callee);
            call_broken(scope, around, called, arguments, keywords)
        }
        Use::Filters {
            name,
            arguments,
            keywords,
        } => filter_broken(scope.alloc, name, arguments, keywords),
        Use::Tests {
            name,
            arguments,
            keywords,
        } => Ok(test_broken(name, arguments, keywords)),
        Use::DeclaresMacro {
            name,
            parameters,
            ..
        } => macro_broken(scope.alloc, name, parameters),
        Use::BindsLibrary { name, .. } | Use::BindsMacro { name, .. } => Ok(read_alone(name)),
        Use::DeclaresBlock { .. } | Use::Includes { .. } | Use::Imports(_) | Use::Extends(_) => {
            Ok(None)
        }
    }
}

/// Returns the finding at a use of a template, if the use breaks a rule.
fn site_finding<'a>(
    scope: &Scope<'_, 'a>,
    template: &'a str,
    site: &UseSite<'a>,
) -> Result<Option<Finding<'a>>, AllocError>
    ensures { IfOk result (λ o. option_map finding_view o
        ≡ in_scope rules.site_finding scope.now template.now (site_view site.now)) }
{
    let Some(subject) = subject_of(site) else {
        return Ok(None);
    };
    let Some(rule) = site_broken(scope, site)? else {
        return Ok(None);
    };
    Ok(Some(Finding {
        rule,
        template,
        line: site.place.line,
        subject,
    }))
}

/// Returns the first finding at the uses of a template.
pub(crate) fn uses_broken<'a>(
    scope: &Scope<'_, 'a>,
    template: &'a str,
    uses: &[UseSite<'a>],
) -> Result<Option<Finding<'a>>, AllocError>
    ensures { IfOk result (λ o. option_map finding_view o
        ≡ in_scope rules.uses_broken scope.now template.now (sites_view uses.now)) }
{
    for site in uses {
        if let Some(finding) = site_finding(scope, template, site)? {
            return Ok(Some(finding));
        }
    }
    Ok(None)
}

/// Returns the line of the binding after the first `count` ones, if there is one. `set`, `for`,
/// `with` and parameters bind names.
pub(crate) fn binding_line(uses: &[UseSite<'_>], count: usize) -> Option<u32>
    ensures { result ≡ slice_get (rules.lines_bound (sites_view uses.now)) count }
{
    let mut left = count;
    for site in uses {
        if let Use::Binds(_) = site.made {
            if left == 0 {
                return Some(site.place.line);
            }
            left -= 1;
        }
    }
    None
}
