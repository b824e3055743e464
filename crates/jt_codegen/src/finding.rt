//! Defines what an explanation says: the error, and where and in what the templates break a rule.

ghost use Rattle.std.specs.Prelude.{◌≡◌, IfOk, Some};
ghost use Rattle.jt_checks.specs.FindingView as view;
ghost use Rattle.jt_codegen.specs.Explaining.{IsBroken, subject_view};
ghost use Rattle.jt_codegen.specs.Passed.{error_of, most_of};

use crate::error::CompileError;
use jt_inherit::{ChainSubject, TagPlace};
use jt_scopes as scopes;
use std::alloc::{AllocError, Global};

/// What an error is about, by the names in the template.
#[derive(Debug, Drop, PartialEq, Eq)]
pub enum Subject {
    /// A name that is read or bound.
    Name(String),
    /// A field of `loop` that is read.
    LoopField(String),
    /// A callee that is a name.
    CalledName(String),
    /// A callee that is a field of a name.
    CalledField { of: String, field: String },
    /// A callee that is any other expression.
    CalledExpression,
    /// A filter, by its name.
    Filter(String),
    /// A test, by its name.
    Test(String),
    /// A macro that is declared, by its name.
    Macro(String),
    /// The number of names that a template binds.
    Bindings,
    /// The number of names that the chains read or bind.
    Names,
    /// What a rule of chains is about.
    Chain(ChainSubject),
    /// A limit that the image would pass.
    Limit(Limit),
}

/// A limit of an image.
#[derive(Clone, Copy, Debug, PartialEq, Eq)]
pub enum Limit {
    /// The number of constants.
    Constants,
    /// The number of units. Each chain, block body and macro has one.
    Units,
    /// The number of instructions.
    Instructions,
    /// The number of templates that places refer to.
    Templates,
    /// The number of bytes of a name.
    NameBytes,
    /// The number of bytes of the image.
    Bytes,
    /// The number of globals.
    Globals,
    /// The number of parameters of a unit.
    Parameters,
    /// The number of locals of a unit.
    Locals,
    /// The number of stack entries of a unit.
    Entries,
}

impl Limit {
    /// Returns the greatest number that the limit allows.
    pub fn most(self) -> u32
        ensures { result ≡ most_of self }
    {
        match self {
            Limit::Constants | Limit::Units | Limit::Templates => 65_535,
            Limit::NameBytes | Limit::Globals => 65_535,
            Limit::Instructions => 262_144,
            Limit::Bytes => 16_777_216,
            Limit::Parameters => 255,
            Limit::Locals => 4_096,
            Limit::Entries => 1_024,
        }
    }

    /// Returns the error of `compile` for code that passes the limit.
    pub(crate) fn error(self) -> CompileError
        ensures { result ≡ error_of self }
    {
        match self {
            Limit::Entries => CompileError::StackTooDeep,
            _ => CompileError::CodeTooLong,
        }
    }
}

/// An error of `compile` with the place of the tag and what the error is about, if they are known.
/// Both are known for each rule of names and calls. The place is known for a source that cannot be
/// read, and the limit for an image that would be too large. For a rule of chains they are what
/// `link` and `check_chains` return.
#[derive(Debug, Drop, PartialEq, Eq)]
pub struct Finding {
    pub error: CompileError,
    pub place: Option<TagPlace>,
    pub subject: Option<Subject>,
}

/// What `explain` says of an entry.
#[derive(Debug, Drop, PartialEq, Eq)]
pub enum Explained {
    /// The entry compiles.
    Compiles,
    /// The entry does not compile.
    Refused(Finding),
}

impl Finding {
    /// Returns the finding of a limit that the image would pass.
    pub(crate) fn of_limit(limit: Limit) -> Self
        ensures { result ≡ record
            { error = error_of limit; place = None; subject = Some (Subject.Limit limit) } }
    {
        Finding {
            error: limit.error(),
            place: None,
            subject: Some(Subject::Limit(limit)),
        }
    }

    /// Returns the finding of a broken rule of names and calls.
    pub(crate) fn of_rule(alloc: Global, found: &scopes::Finding<'_>) -> Result<Self, AllocError>
        ensures { IfOk result (IsBroken (view.finding_view found.now)) }
    {
        let template = String::from_str(alloc, found.template)?;
        let subject = owned(alloc, found.subject)?;
        Ok(Finding {
            error: CompileError::Scope(found.rule),
            place: Some(TagPlace {
                template,
                line: found.line,
            }),
            subject: Some(subject),
        })
    }
}

/// Returns a copy of a subject that owns its names.
fn owned(alloc: Global, subject: scopes::Subject<'_>) -> Result<Subject, AllocError>
    ensures { IfOk result (λ s. subject_view s ≡ Some (view.subject_view subject.entry)) }
{
    match subject {
        scopes::Subject::Name(name) => Ok(Subject::Name(String::from_str(alloc, name)?)),
        scopes::Subject::LoopField(field) => {
            Ok(Subject::LoopField(String::from_str(alloc, field)?))
        }
        scopes::Subject::CalledName(name) => {
            Ok(Subject::CalledName(String::from_str(alloc, name)?))
        }
        scopes::Subject::CalledField { of, field } => {
            let of = String::from_str(alloc, of)?;
            let field = String::from_str(alloc, field)?;
            Ok(Subject::CalledField { of, field })
        }
        scopes::Subject::CalledExpression => Ok(Subject::CalledExpression),
        scopes::Subject::Filter(name) => Ok(Subject::Filter(String::from_str(alloc, name)?)),
        scopes::Subject::Test(name) => Ok(Subject::Test(String::from_str(alloc, name)?)),
        scopes::Subject::Macro(name) => Ok(Subject::Macro(String::from_str(alloc, name)?)),
        scopes::Subject::Bindings => Ok(Subject::Bindings),
        scopes::Subject::Names => Ok(Subject::Names),
    }
}
