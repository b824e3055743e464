//! Finds what a writer of templates probably meant, and what to write in place of what the language
//! leaves out.

ghost use Rattle.std.specs.Prelude.{◌≡◌, IfOk, map, option_map, string_bytes};
ghost use Rattle.jt_host.specs.Suggestions as spec;

use crate::clues::Clues;
use crate::subjects::quoted;
use jt_codegen::{ChainError, ChainSubject, CompileError, Finding, ScopeError, Subject, TagPlace};
use jt_hints::{
    field_arguments, filter_arguments, filter_names, function_arguments, left_out_filter,
    left_out_function, left_out_loop_field, left_out_method, left_out_test, nearest,
    test_arguments, test_names,
};
use jt_ids::LoopField;
use std::alloc::{AllocError, Global};

static LOOP_NAMES: [&str; 9] = [
    "index",
    "index0",
    "revindex",
    "revindex0",
    "first",
    "last",
    "length",
    "previtem",
    "nextitem",
];

/// Returns the names by which templates read the fields of `loop`.
fn loop_names() -> &'static [&'static str]
    ensures { map (λ x. x.now) result.now ≡ spec.loop_names }
{
    &LOOP_NAMES
}

/// Returns what to write in place of an unknown filter or test, if Jinja has it.
fn word_advice(subject: &Option<Subject>) -> Option<&'static str>
    ensures { option_map (λ x. x.now) result ≡ spec.word_advice subject.now }
{
    match subject {
        Some(Subject::Filter(name)) => left_out_filter(name),
        Some(Subject::Test(name)) => left_out_test(name),
        _ => None,
    }
}

/// Returns what to write in place of a function of Jinja or a method of Python.
fn callee_advice(subject: &Option<Subject>) -> Option<&'static str>
    ensures { option_map (λ x. x.now) result ≡ spec.callee_advice subject.now }
{
    match subject {
        Some(Subject::CalledName(name)) => left_out_function(name),
        Some(Subject::CalledField { field, .. }) => left_out_method(field),
        _ => None,
    }
}

/// Returns what to write in place of a field of `loop` that is read or called.
fn loop_advice(subject: &Option<Subject>) -> Option<&'static str>
    ensures { option_map (λ x. x.now) result ≡ spec.loop_advice subject.now }
{
    match subject {
        Some(Subject::LoopField(field)) => left_out_loop_field(field),
        Some(Subject::CalledField { field, .. }) => left_out_loop_field(field),
        _ => None,
    }
}

/// Returns what the filter, test, function or field takes whose arguments do not fit.
fn arguments_advice(subject: &Option<Subject>) -> Option<&'static str>
    ensures { option_map (λ x. x.now) result ≡ spec.arguments_advice subject.now }
{
    match subject {
        Some(Subject::Filter(name)) => filter_arguments(name),
        Some(Subject::Test(name)) => test_arguments(name),
        Some(Subject::CalledName(name)) => function_arguments(name),
        Some(Subject::CalledField { of, field }) => field_arguments(of, field),
        _ => None,
    }
}

/// Returns what to write in place of what the language leaves out, or what takes other arguments.
fn advice_of(error: &CompileError, subject: &Option<Subject>) -> Option<&'static str>
    ensures { option_map (λ x. x.now) result ≡ spec.advice error.now subject.now }
{
    match error {
        CompileError::Chain(ChainError::Parse(..)) => word_advice(subject),
        CompileError::Chain(ChainError::BadName) => Some(
            "a name has 1 to 255 bytes, no backslash, and no part between / that is empty, . or ..",
        ),
        CompileError::Scope(ScopeError::NotCallable) => callee_advice(subject),
        CompileError::Scope(ScopeError::LoopOutside) => loop_advice(subject),
        CompileError::Scope(ScopeError::BadArguments) => arguments_advice(subject),
        _ => None,
    }
}

/// Returns the filter or test that a name probably means.
fn near_word(subject: &Option<Subject>) -> Option<&'static str>
    ensures { option_map (λ x. x.now) result ≡ spec.near_word subject.now }
{
    match subject {
        Some(Subject::Filter(name)) => nearest(name, filter_names()),
        Some(Subject::Test(name)) => nearest(name, test_names()),
        _ => None,
    }
}

/// Returns the field of `loop` that a name probably means, if it is no field.
fn near_field(field: &str) -> Option<&'static str>
    ensures { option_map (λ x. x.now) result ≡ spec.near_field field.now }
{
    match LoopField::by_name(field) {
        Some(_) => None,
        None => nearest(field, loop_names()),
    }
}

/// Returns the name that the name of a finding probably means.
fn near_name(error: &CompileError, subject: &Option<Subject>) -> Option<&'static str>
    ensures { option_map (λ x. x.now) result ≡ spec.near error.now subject.now }
{
    match error {
        CompileError::Chain(ChainError::Parse(..)) => near_word(subject),
        CompileError::Scope(ScopeError::LoopOutside) => match subject {
            Some(Subject::LoopField(field)) => near_field(field),
            _ => None,
        },
        _ => None,
    }
}

/// Returns what to write in place of the method that is called.
fn method_advice(clues: &Clues) -> Option<&'static str>
    ensures { option_map (λ x. x.now) result ≡ spec.method_advice clues.now }
{
    match &clues.method {
        Some(name) => left_out_method(name),
        None => None,
    }
}

/// Returns what the macro takes whose arguments do not fit.
fn macro_advice(clues: &Clues) -> Option<&str>
    ensures { option_map (λ x. x.now) result ≡ spec.macro_advice clues.now }
{
    match &clues.takes {
        Some(words) => Some(words.as_str()),
        None => None,
    }
}

/// Returns what to write: the advice on a word, or else on a method, or else on a macro.
fn advice_text<'a>(finding: &Finding, clues: &'a Clues) -> Option<&'a str>
    ensures { option_map (λ x. x.now) result ≡ spec.advice_text clues.now finding.now }
{
    match (
        advice_of(&finding.error, &finding.subject),
        method_advice(clues),
    ) {
        (Some(words), _) => Some(words),
        (None, Some(words)) => Some(words),
        (None, None) => macro_advice(clues),
    }
}

/// Returns the known name that was probably meant, or else that of the sources.
fn meant_text<'a>(finding: &Finding, clues: &'a Clues) -> Option<&'a str>
    ensures { option_map (λ x. x.now) result ≡ spec.meant_text clues.now finding.now }
{
    match (near_name(&finding.error, &finding.subject), &clues.meant) {
        (Some(name), _) => Some(name),
        (None, Some(name)) => Some(name.as_str()),
        (None, None) => None,
    }
}

/// Returns the place of the first one of two, after the words for it.
fn place_after(alloc: Global, words: &str, place: &TagPlace) -> Result<String, AllocError>
    ensures { IfOk result (λ text. string_bytes text ≡ spec.place_after words.now place.now) }
{
    let TagPlace { template, line } = place;
    format!(in alloc; "{words}{template}:{line}")
}

/// Returns the names of a ring of templates, each after a comma.
fn ring_text(alloc: Global, names: &[String]) -> Result<String, AllocError>
    ensures { IfOk result (λ text. string_bytes text ≡ spec.ring_text names.now) }
{
    let mut text = String::new(alloc);
    for name in names {
        let name = quoted(alloc, name)?;
        let piece = format!(in alloc; ",{name}")?;
        text.push_str(&piece)?;
    }
    Ok(text)
}

/// Returns the second place or the further names that a broken rule of chains is about, or the
/// empty text if there are none.
fn chain_text(alloc: Global, subject: &ChainSubject) -> Result<String, AllocError>
    ensures { IfOk result (λ text. string_bytes text ≡ spec.chain_text subject.now) }
{
    match subject {
        ChainSubject::BlockTwice { first, .. } | ChainSubject::NameTwice { first, .. } => {
            place_after(alloc, "; the first one is at ", first)
        }
        ChainSubject::Super { opened, .. } => place_after(alloc, "; it begins at ", opened),
        ChainSubject::Ring { rest, .. } => ring_text(alloc, rest),
        _ => Ok(String::new(alloc)),
    }
}

/// Returns the second place or the further names that a refusal is about, or the empty text if
/// there are none.
fn further_text(alloc: Global, subject: &Option<Subject>) -> Result<String, AllocError>
    ensures { IfOk result (λ text. string_bytes text ≡ spec.further_text subject.now) }
{
    match subject {
        Some(Subject::Chain(subject)) => chain_text(alloc, subject),
        _ => Ok(String::new(alloc)),
    }
}

/// Returns what follows the sentence of a finding: what to write, or else the name that was
/// probably meant, or else the second place or the further names that it is about.
pub(crate) fn suggestion_of(
    alloc: Global,
    finding: &Finding,
    clues: &Clues,
) -> Result<String, AllocError>
    ensures { IfOk result (λ text. string_bytes text ≡ spec.suggestion clues.now finding.now) }
{
    if let Some(words) = advice_text(finding, clues) {
        return format!(in alloc; "; {words}");
    }
    match meant_text(finding, clues) {
        Some(name) => {
            let name = quoted(alloc, name)?;
            format!(in alloc; "; did you mean{name}?")
        }
        None => further_text(alloc, &finding.subject),
    }
}
