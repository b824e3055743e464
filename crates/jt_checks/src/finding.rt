//! Defines a finding: a broken rule, and where it is broken.

ghost use Rattle.std.specs.Prelude.{◌≡◌, option_map};
ghost use Rattle.jt_ast.specs.ExpressionView.{expr_view};
ghost use Rattle.jt_checks.specs.Findings as findings;
ghost use Rattle.jt_checks.specs.FindingView.{subject_view};
ghost use Rattle.jt_uses.specs.UseView.{site_view};

use jt_ast::Expr;
use jt_rules::ScopeError;
use jt_uses::{Use, UseSite};

/// What a broken rule is about.
#[derive(Clone, Copy, Debug, PartialEq, Eq)]
pub enum Subject<'a> {
    /// A name that is read or bound.
    Name(&'a str),
    /// A field of `loop` that is read.
    LoopField(&'a str),
    /// A callee that is a name.
    CalledName(&'a str),
    /// A callee that is a field of a name.
    CalledField { of: &'a str, field: &'a str },
    /// A callee that is any other expression.
    CalledExpression,
    /// A filter, by its name.
    Filter(&'a str),
    /// A test, by its name.
    Test(&'a str),
    /// A macro that is declared, by its name.
    Macro(&'a str),
    /// The number of names that a template binds.
    Bindings,
    /// The number of names that the chains read or bind.
    Names,
}

/// A broken rule of a template, the line of the tag that breaks it, counted from 1, and what it is
/// about.
#[derive(Clone, Copy, Debug, PartialEq, Eq)]
pub struct Finding<'a> {
    pub rule: ScopeError,
    pub template: &'a str,
    pub line: u32,
    pub subject: Subject<'a>,
}

/// Returns the callee of a call as a subject.
fn called(callee: &Expr) -> Subject<'_>
    ensures { subject_view result ≡ findings.called (expr_view callee.now) }
{
    match callee {
        Expr::Name(name) => Subject::CalledName(name.as_str()),
        Expr::Attribute(value, field) => match &**value {
            Expr::Name(of) => Subject::CalledField {
                of: of.as_str(),
                field: field.as_str(),
            },
            _ => Subject::CalledExpression,
        },
        _ => Subject::CalledExpression,
    }
}

/// Returns what the rules of a use are about. Returns `None` if the use has no rules.
pub(crate) fn subject_of<'a>(site: &UseSite<'a>) -> Option<Subject<'a>>
    ensures { option_map subject_view result ≡ findings.subject_of (site_view site.now).made }
{
    match site.made {
        Use::Reads(name)
        | Use::Binds(name)
        | Use::BindsLibrary { name, .. }
        | Use::BindsMacro { name, .. } => Some(Subject::Name(name)),
        Use::ReadsLoopField(field) => Some(Subject::LoopField(field)),
        Use::Calls { callee, .. } => Some(called(callee)),
        Use::Filters { name, .. } => Some(Subject::Filter(name)),
        Use::Tests { name, .. } => Some(Subject::Test(name)),
        Use::DeclaresMacro { name, .. } => Some(Subject::Macro(name)),
        Use::DeclaresBlock { .. } | Use::Includes { .. } | Use::Imports(_) | Use::Extends(_) => {
            None
        }
    }
}
