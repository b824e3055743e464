//! Prints what a refusal is about.

ghost use Rattle.std.specs.Prelude.{◌≡◌, IfOk, option_map, string_bytes};
ghost use Rattle.jt_host.specs.Subjects as spec;

use jt_codegen::{ChainSubject, Subject};
use jt_turns::shown_text;
use std::alloc::{AllocError, Global};

/// Returns the name that a broken rule of chains is about.
fn chain_name(subject: &ChainSubject) -> &str
    ensures { result.now ≡ spec.chain_name subject.now }
{
    match subject {
        ChainSubject::Template(name)
        | ChainSubject::Macro { name, .. }
        | ChainSubject::Block(name)
        | ChainSubject::BlockTwice { name, .. }
        | ChainSubject::Super { block: name, .. }
        | ChainSubject::Ring { name, .. }
        | ChainSubject::NameTwice { name, .. }
        | ChainSubject::Templates(name)
        | ChainSubject::Chains(name) => name.as_str(),
    }
}

/// Returns the name that a refusal is about, if it has one.
pub(crate) fn subject_name(
    alloc: Global,
    subject: &Option<Subject>,
) -> Result<Option<String>, AllocError>
    ensures { IfOk result (λ name. option_map string_bytes name ≡ spec.subject_name subject.now) }
{
    match subject {
        Some(
            Subject::Name(name)
            | Subject::LoopField(name)
            | Subject::CalledName(name)
            | Subject::Filter(name)
            | Subject::Test(name)
            | Subject::Macro(name),
        ) => Ok(Some(String::from_str(alloc, name)?)),
        Some(Subject::CalledField { of, field }) => Ok(Some(format!(in alloc; "{of}.{field}")?)),
        Some(Subject::Chain(subject)) => Ok(Some(String::from_str(alloc, chain_name(subject))?)),
        Some(Subject::CalledExpression | Subject::Bindings | Subject::Names | Subject::Limit(_))
        | None => Ok(None),
    }
}

/// Returns the words under which an explanation puts its marks, if there are any: the name that a
/// refusal is about, or `super`.
pub(crate) fn marked_name(
    alloc: Global,
    subject: &Option<Subject>,
) -> Result<Option<String>, AllocError>
    ensures { IfOk result (λ name. option_map string_bytes name ≡ spec.marked_name subject.now) }
{
    match subject {
        Some(Subject::Chain(ChainSubject::Super { .. })) => {
            Ok(Some(String::from_str(alloc, "super")?))
        }
        _ => subject_name(alloc, subject),
    }
}

/// Returns a name in quotes after a space. Control characters are shown by their codes.
pub(crate) fn quoted(alloc: Global, name: &str) -> Result<String, AllocError>
    ensures { IfOk result (λ text. string_bytes text ≡ spec.quoted name.now) }
{
    let name = shown_text(alloc, name)?;
    format!(in alloc; " \"{name}\"")
}

/// Returns what a refusal is about, in quotes after a space, or the empty text if it has no name.
pub(crate) fn quoted_subject(alloc: Global, subject: &Option<Subject>) -> Result<String, AllocError>
    ensures { IfOk result (λ text. string_bytes text ≡ spec.subject_text subject.now) }
{
    match subject_name(alloc, subject)? {
        Some(name) => quoted(alloc, &name),
        None => Ok(String::new(alloc)),
    }
}
