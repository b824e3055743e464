//! Finds the name in the sources that the name of a refusal probably means, the method that is
//! called, and what a macro takes.

ghost use Rattle.std.specs.Prelude.{◌≡◌, IfOk, IfSome, option_map, string_bytes};
ghost use Rattle.jt_host.specs.Meant as spec;
ghost use Rattle.jt_host.specs.Templates.{source_of};

use crate::templates::Templates;
use jt_codegen::{
    ChainError, ChainSubject, CompileError, Explained, Finding, ParseError, ScopeError, Subject,
};
use jt_hints::{
    NameKind, called_method, defined_names, layout_named, library_named, macro_arguments, nearest,
    statement_names, unknown_statement,
};
use jt_inherit::Library;
use jt_scan::{Options, ScanError, Segment, Source, scan};
use std::alloc::{AllocError, Global};

/// What is sought in the source of a template.
#[derive(Clone, Copy)]
pub enum Sought<'a> {
    /// The nearest one of the names of a kind.
    Near(NameKind, &'a str),
    /// The library that an import tag binds to a name.
    Library(&'a str),
    /// The template that the source extends.
    Layout,
    /// The first method of a Python value that the tags at a line call.
    Method(u32),
    /// The word of a statement that is nearest to the first one of a tag at a line.
    Statement(u32),
    /// What the macro of a name takes.
    Macro(&'a str),
}

/// The templates of a library, and the options under which they are read.
#[derive(Clone, Copy)]
struct Sources<'a> {
    templates: &'a Templates,
    options: Options,
}

/// Returns a copy of a text.
fn copied(alloc: Global, text: Option<&str>) -> Result<Option<String>, AllocError>
    ensures { IfOk result (λ copy. option_map string_bytes copy
        ≡ option_map (λ x. x.now) text.entry) }
{
    match text {
        Some(text) => Ok(Some(String::from_str(alloc, text)?)),
        None => Ok(None),
    }
}

/// Returns the word of a statement that is nearest to the first one of the tags at the line that
/// begins none.
fn near_statement(line: u32, segments: &[Segment<'_>]) -> Option<&'static str>
    ensures { option_map (λ x. x.now) result ≡ spec.near_statement line segments.now }
{
    match unknown_statement(line, segments) {
        Some(word) => nearest(word, statement_names()),
        None => None,
    }
}

/// Returns what is sought, if the segments have it.
fn found_in(
    alloc: Global,
    segments: &[Segment<'_>],
    sought: Sought<'_>,
) -> Result<Option<String>, AllocError>
    ensures { IfOk result (λ found. option_map string_bytes found
        ≡ spec.found_in (spec.wanted sought.entry) segments.now) }
{
    match sought {
        Sought::Near(kind, name) => {
            let names = defined_names(alloc, kind, segments)?;
            copied(alloc, nearest(name, &names))
        }
        Sought::Library(name) => copied(alloc, library_named(name, segments)),
        Sought::Layout => copied(alloc, layout_named(segments)),
        Sought::Method(line) => copied(alloc, called_method(line, segments)),
        Sought::Statement(line) => copied(alloc, near_statement(line, segments)),
        Sought::Macro(name) => macro_arguments(alloc, name, segments),
    }
}

/// Returns what is sought, if the source has it. Returns `None` if the source is not cut into
/// segments.
fn found_at(
    alloc: Global,
    text: &str,
    options: Options,
    sought: Sought<'_>,
) -> Result<Option<String>, AllocError>
    ensures { IfOk result (λ found. IfSome found (λ y.
        spec.HasFound options text.now (spec.wanted sought.entry) (string_bytes y))) }
{
    let source = match Source::new(alloc, text, options) {
        Ok(source) => source,
        Err(ScanError::NoMemory) => return Err(AllocError),
        Err(_) => return Ok(None),
    };
    match scan(alloc, &source) {
        Ok(segments) => found_in(alloc, &segments, sought),
        Err(ScanError::NoMemory) => Err(AllocError),
        Err(_) => Ok(None),
    }
}

/// Returns what is sought, if the source of the template has it.
fn found_by(
    alloc: Global,
    sources: Sources<'_>,
    template: &str,
    sought: Sought<'_>,
) -> Result<Option<String>, AllocError>
    ensures { IfOk result (λ found. IfSome found (λ y.
        spec.IsFound (source_of sources.entry.templates.now) sources.entry.options template.now
        (spec.wanted sought.entry) (string_bytes y))) }
{
    match sources.templates.source(template) {
        Some(source) => found_at(alloc, source, sources.options, sought),
        None => Ok(None),
    }
}

/// Returns the field that was probably meant: of `self` a block of the template, and of a library
/// that the template imports one of its macros.
fn near_field(
    alloc: Global,
    sources: Sources<'_>,
    template: &str,
    of: &str,
    field: &str,
) -> Result<Option<String>, AllocError>
    ensures { IfOk result (λ found. IfSome found (λ y.
        spec.IsFieldNear (source_of sources.entry.templates.now) sources.entry.options
        template.now of.now field.now (string_bytes y))) }
{
    if of == "self" {
        return found_by(
            alloc,
            sources,
            template,
            Sought::Near(NameKind::Block, field),
        );
    }
    match found_by(alloc, sources, template, Sought::Library(of))? {
        Some(library) => {
            let sought = Sought::Near(NameKind::PublicMacro, field);
            found_by(alloc, sources, &library, sought)
        }
        None => Ok(None),
    }
}

/// Returns the name of a callee that was probably meant: one of the template, or of the template
/// that it extends.
fn near_name(
    alloc: Global,
    sources: Sources<'_>,
    template: &str,
    name: &str,
) -> Result<Option<String>, AllocError>
    ensures { IfOk result (λ found. IfSome found (λ y.
        spec.IsNameNear (source_of sources.entry.templates.now) sources.entry.options
        template.now name.now (string_bytes y))) }
{
    let sought = Sought::Near(NameKind::Callee, name);
    if let Some(near) = found_by(alloc, sources, template, sought)? {
        return Ok(Some(near));
    }
    match found_by(alloc, sources, template, Sought::Layout)? {
        Some(layout) => found_by(alloc, sources, &layout, sought),
        None => Ok(None),
    }
}

/// Returns the callee that was probably meant in a template.
fn near_callee(
    alloc: Global,
    sources: Sources<'_>,
    template: &str,
    subject: &Subject,
) -> Result<Option<String>, AllocError>
    ensures { IfOk result (λ found. IfSome found (λ y.
        spec.IsCalleeNear (source_of sources.entry.templates.now) sources.entry.options
        template.now subject.now (string_bytes y))) }
{
    match subject {
        Subject::CalledName(name) => near_name(alloc, sources, template, name),
        Subject::CalledField { of, field } => near_field(alloc, sources, template, of, field),
        _ => Ok(None),
    }
}

/// Returns the template, or the macro of a library, that was probably meant.
fn near_of_chain(
    alloc: Global,
    sources: Sources<'_>,
    error: &ChainError,
    subject: &Subject,
) -> Result<Option<String>, AllocError>
    ensures { IfOk result (λ found. IfSome found (λ y.
        spec.IsNearOfChain (source_of sources.entry.templates.now) sources.entry.options
        error.now subject.now (string_bytes y))) }
{
    match (error, subject) {
        (ChainError::Missing, Subject::Chain(ChainSubject::Template(name))) => {
            sources.templates.nearest_name(alloc, name)
        }
        (ChainError::NoMacro, Subject::Chain(ChainSubject::Macro { library, name })) => {
            let sought = Sought::Near(NameKind::PublicMacro, name.as_str());
            found_by(alloc, sources, library, sought)
        }
        _ => Ok(None),
    }
}

/// Returns the name in the sources that the name of a finding probably means.
fn meant_by(
    alloc: Global,
    sources: Sources<'_>,
    finding: &Finding,
) -> Result<Option<String>, AllocError>
    ensures { IfOk result (λ found. IfSome found (λ y.
        spec.IsMeantBy (source_of sources.entry.templates.now) sources.entry.options finding.now
        (string_bytes y))) }
{
    if let CompileError::Chain(
        ChainError::Parse(name, ParseError::Syntax { line }),
    ) = &finding.error
    {
        return found_by(alloc, sources, name, Sought::Statement(*line));
    }
    let Some(subject) = &finding.subject else {
        return Ok(None);
    };
    match (&finding.error, &finding.place) {
        (CompileError::Chain(error), _) => near_of_chain(alloc, sources, error, subject),
        (CompileError::Scope(ScopeError::NotCallable), Some(place)) => {
            near_callee(alloc, sources, &place.template, subject)
        }
        _ => Ok(None),
    }
}

/// Returns the name in the sources that the name of a refusal probably means.
pub(crate) fn meant_for(
    alloc: Global,
    templates: &Templates,
    options: Options,
    explained: &Explained,
) -> Result<Option<String>, AllocError>
    ensures { IfOk result (λ found. IfSome found (λ y.
        spec.IsMeantFor (source_of templates.now) options explained.now (string_bytes y))) }
{
    match explained {
        Explained::Compiles => Ok(None),
        Explained::Refused(finding) => meant_by(alloc, Sources { templates, options }, finding),
    }
}

/// Returns the method that is called at the place of a callee that is neither a name nor a field of
/// a name.
fn method_by(
    alloc: Global,
    sources: Sources<'_>,
    finding: &Finding,
) -> Result<Option<String>, AllocError>
    ensures { IfOk result (λ found. IfSome found (λ y.
        spec.IsMethodBy (source_of sources.entry.templates.now) sources.entry.options finding.now
        (string_bytes y))) }
{
    let Finding {
        error: CompileError::Scope(ScopeError::NotCallable),
        place: Some(place),
        subject: Some(Subject::CalledExpression),
    } = finding
    else {
        return Ok(None);
    };
    found_by(alloc, sources, &place.template, Sought::Method(place.line))
}

/// Returns the method of a Python value for which an entry does not compile, if its callee has no
/// name.
pub(crate) fn method_for(
    alloc: Global,
    templates: &Templates,
    options: Options,
    explained: &Explained,
) -> Result<Option<String>, AllocError>
    ensures { IfOk result (λ found. IfSome found (λ y.
        spec.IsMethodFor (source_of templates.now) options explained.now (string_bytes y))) }
{
    match explained {
        Explained::Compiles => Ok(None),
        Explained::Refused(finding) => method_by(alloc, Sources { templates, options }, finding),
    }
}

/// Returns what the macro takes that a field of a library is.
fn taken_by_field(
    alloc: Global,
    sources: Sources<'_>,
    template: &str,
    of: &str,
    field: &str,
) -> Result<Option<String>, AllocError>
    ensures { IfOk result (λ found. IfSome found (λ y.
        spec.IsTakenByField (source_of sources.entry.templates.now) sources.entry.options
        template.now of.now field.now (string_bytes y))) }
{
    match found_by(alloc, sources, template, Sought::Library(of))? {
        Some(library) => found_by(alloc, sources, &library, Sought::Macro(field)),
        None => Ok(None),
    }
}

/// Returns what the macro of a name takes: one of the template, or of the template that it extends.
fn taken_by_name(
    alloc: Global,
    sources: Sources<'_>,
    template: &str,
    name: &str,
) -> Result<Option<String>, AllocError>
    ensures { IfOk result (λ found. IfSome found (λ y.
        spec.IsTakenByName (source_of sources.entry.templates.now) sources.entry.options
        template.now name.now (string_bytes y))) }
{
    let sought = Sought::Macro(name);
    if let Some(taken) = found_by(alloc, sources, template, sought)? {
        return Ok(Some(taken));
    }
    match found_by(alloc, sources, template, Sought::Layout)? {
        Some(layout) => found_by(alloc, sources, &layout, sought),
        None => Ok(None),
    }
}

/// Returns what the macro takes whose arguments do not fit.
fn taken_by(
    alloc: Global,
    sources: Sources<'_>,
    finding: &Finding,
) -> Result<Option<String>, AllocError>
    ensures { IfOk result (λ found. IfSome found (λ y.
        spec.IsTakenBy (source_of sources.entry.templates.now) sources.entry.options finding.now
        (string_bytes y))) }
{
    let Finding {
        error: CompileError::Scope(ScopeError::BadArguments),
        place: Some(place),
        subject: Some(subject),
    } = finding
    else {
        return Ok(None);
    };
    match subject {
        Subject::CalledName(name) => taken_by_name(alloc, sources, &place.template, name),
        Subject::CalledField { of, field } => {
            taken_by_field(alloc, sources, &place.template, of, field)
        }
        _ => Ok(None),
    }
}

/// Returns what the macro takes for whose arguments an entry does not compile.
pub(crate) fn taken_for(
    alloc: Global,
    templates: &Templates,
    options: Options,
    explained: &Explained,
) -> Result<Option<String>, AllocError>
    ensures { IfOk result (λ found. IfSome found (λ y.
        spec.IsTakenFor (source_of templates.now) options explained.now (string_bytes y))) }
{
    match explained {
        Explained::Compiles => Ok(None),
        Explained::Refused(finding) => taken_by(alloc, Sources { templates, options }, finding),
    }
}
