//! Finds the name of an unknown filter or test in the source of a template.

ghost use Rattle.std.specs.Prelude.{◌≡◌, IfOk, IfSome, Some, option_map, string_bytes};
ghost use Rattle.jt_ast.specs.ExpressionView.{expr_view, exprs_view, pairs_view};
ghost use Rattle.jt_ast.specs.Written.{literal_text};
ghost use Rattle.jt_ast.specs.StatementView.{body_of};
ghost use Rattle.jt_uses.specs.Uses.{body_uses, outside};
ghost use Rattle.jt_uses.specs.UseView.{use_view, site_view, sites_view};
ghost use Rattle.jt_expr.specs.Named as names;
ghost use Rattle.jt_codegen.specs.Unknown.{HasUses, StandsAt};
ghost use Rattle.jt_codegen.specs.internal.UnknownNames as spec;

use jt_ast::{Expr, Template, filter_of, literal_text};
use jt_expr::Named;
use jt_ids::{ArgumentRole, FilterId, TestId};
use jt_parse::{ParseError, parse_unchecked};
use jt_scan::{Options, ScanError, Source, scan};
use jt_uses::{Use, UseSite, uses_of};
use std::alloc::{AllocError, Global};

/// Returns whether a filter has the name.
fn is_filter(name: &str) -> bool
    ensures { result ≡ names.is_filter name.now }
{
    FilterId::by_name(name).is_some()
}

/// Returns whether a test has the name.
fn is_test(name: &str) -> bool
    ensures { result ≡ names.is_test name.now }
{
    TestId::by_name(name).is_some()
}

/// Returns whether the search is for filters and none has the name.
fn is_unknown_filter(named: Named, name: &str) -> bool
    ensures { result ≡ names.unknown_filter named name.now }
{
    match named {
        Named::Filter => !is_filter(name),
        Named::Test => false,
    }
}

/// Returns whether the search is for tests and none has the name.
fn is_unknown_test(named: Named, name: &str) -> bool
    ensures { result ≡ names.unknown_test named name.now }
{
    match named {
        Named::Filter => false,
        Named::Test => !is_test(name),
    }
}

/// Returns whether an argument with this role names an unknown filter or test.
fn is_unknown_argument(named: Named, role: Option<ArgumentRole>, name: &str) -> bool
    ensures { result ≡ names.argument_unknown named role (Some name.now) }
{
    match role {
        Some(ArgumentRole::Filter) => is_unknown_filter(named, name),
        Some(ArgumentRole::Test) => is_unknown_test(named, name),
        Some(ArgumentRole::Key) | None => false,
    }
}

/// Returns the text of an argument with this role if it names an unknown filter or test.
fn argument_name(named: Named, role: Option<ArgumentRole>, argument: &Expr) -> Option<&str>
    ensures { option_map (λ x. x.now) result
        ≡ spec.argument_name named role (literal_text (expr_view argument.now)) }
{
    match literal_text(argument) {
        Some(name) if is_unknown_argument(named, role, name) => Some(name),
        _ => None,
    }
}

/// Returns the first unknown filter or test that an argument of the filter names.
fn unknown_argument<'a>(named: Named, filter: FilterId, arguments: &'a [Expr]) -> Option<&'a str>
    ensures { option_map (λ x. x.now) result
        ≡ spec.unknown_argument named filter 1 (exprs_view arguments.now) }
{
    for (index, argument) in arguments.iter().enumerate() {
        if let Some(name) = argument_name(named, filter.named_at(index + 1), argument) {
            return Some(name);
        }
    }
    None
}

/// Returns the unknown filter or test that a filter names, by its own name or in its arguments.
fn unknown_in_filter<'a>(
    named: Named,
    name: &'a str,
    arguments: &'a [Expr],
    keywords: &[(String, Expr)],
) -> Option<&'a str>
    ensures { option_map (λ x. x.now) result ≡ spec.unknown_in_filter named name.now
        (exprs_view arguments.now) (pairs_view keywords.now) }
{
    if is_unknown_filter(named, name) {
        return Some(name);
    }
    match filter_of(name, arguments, keywords) {
        Some(filter) => unknown_argument(named, filter, arguments),
        None => None,
    }
}

/// Returns the unknown filter or test that a use names.
fn unknown_in<'a>(named: Named, made: Use<'a>) -> Option<&'a str>
    ensures { option_map (λ x. x.now) result ≡ spec.unknown_in named (use_view made.entry) }
{
    match made {
        Use::Filters {
            name,
            arguments,
            keywords,
        } => unknown_in_filter(named, name, arguments, keywords),
        Use::Tests { name, .. } if is_unknown_test(named, name) => Some(name),
        _ => None,
    }
}

/// Returns the unknown filter or test that a use names, if the use stands at the line.
fn unknown_here<'a>(named: Named, line: u32, site: &UseSite<'a>) -> Option<&'a str>
    ensures { option_map (λ x. x.now) result
        ≡ spec.unknown_here named line (site_view site.now) }
{
    if site.place.line == line {
        unknown_in(named, site.made)
    } else {
        None
    }
}

/// Returns the first unknown filter or test that a use at the line names.
fn unknown_at<'a>(named: Named, line: u32, uses: &[UseSite<'a>]) -> Option<&'a str>
    ensures { option_map (λ x. x.now) result
        ≡ spec.unknown_at named line (sites_view uses.now) }
{
    for site in uses {
        if let Some(name) = unknown_here(named, line, site) {
            return Some(name);
        }
    }
    None
}

/// Returns the tree that a source spells, whatever its filters and tests are. Returns `None` if it
/// spells none.
fn tree_of(alloc: Global, text: &str, options: Options) -> Result<Option<Template>, AllocError>
    ensures { IfOk result (λ t. IfSome t (λ template.
        HasUses options text.now (λ sites. sites ≡ body_uses (body_of template) outside))) }
{
    let source = match Source::new(alloc, text, options) {
        Ok(source) => source,
        Err(ScanError::NoMemory) => return Err(AllocError),
        Err(_) => return Ok(None),
    };
    let segments = match scan(alloc, &source) {
        Ok(segments) => segments,
        Err(ScanError::NoMemory) => return Err(AllocError),
        Err(_) => return Ok(None),
    };
    match parse_unchecked(alloc, &segments) {
        Ok(template) => Ok(Some(template)),
        Err(ParseError::NoMemory) => Err(AllocError),
        Err(_) => Ok(None),
    }
}

/// Returns the unknown filter or test, as `named` says, that a tag at the line of a source names.
#[tactic(auto, using(crate::proofs::UnknownNames::stands_there))]
pub(crate) fn find_unknown(
    alloc: Global,
    text: &str,
    options: Options,
    line: u32,
    named: Named,
) -> Result<Option<String>, AllocError>
    ensures { IfOk result (λ o. IfSome o (λ x.
        HasUses options text.now (StandsAt line named (string_bytes x)))) }
{
    let Some(template) = tree_of(alloc, text, options)? else {
        return Ok(None);
    };
    let uses = uses_of(alloc, template.body())?;
    match unknown_at(named, line, &uses) {
        Some(name) => Ok(Some(String::from_str(alloc, name)?)),
        None => Ok(None),
    }
}
