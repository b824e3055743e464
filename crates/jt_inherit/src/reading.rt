//! Reads a template: scans and parses its source.

ghost use Rattle.std.specs.Prelude.{◌≡◌, ◌≤◌, length, string_bytes, IfOk, IfErr};
ghost use Rattle.jt_ast.specs.Sizes.{body_bytes};
ghost use Rattle.jt_ast.specs.Statements.{Body, body_weight};
ghost use Rattle.jt_ast.specs.StatementView.{body_of};
ghost use Rattle.jt_inherit.specs.Chains.{IsTree, IsRead, IsOnly};
ghost use Rattle.jt_inherit.specs.internal.Faults.{IsFault, IsFaultOf, IsScan, IsParse};
ghost use Rattle.jt_chains.specs.Names.{IsName};
ghost use Rattle.jt_chains.specs.TemplateFiles.{file_view};
ghost use Rattle.jt_inherit.specs.internal.ExtendsPaths.{IsWithin};

use crate::error::ChainError;
use crate::library::Library;
use crate::names::is_name;
use jt_ast::Template;
use jt_chains::TemplateFile;
use jt_parse::{ParseError, parse};
use jt_scan::{Options, ScanError, Source, scan};
use std::alloc::Global;

/// Reads the template `name` from the library.
pub(crate) fn read_file<L: Library>(
    alloc: Global,
    name: &str,
    library: &L,
    options: Options,
) -> Result<TemplateFile, ChainError>
    ensures named { IfOk result (λ p. string_bytes p.name ≡ name.now) }
    ensures read { IfOk result (λ p.
        IsRead (L.sources library.now) options (file_view p)) }
    ensures only { IfOk result (λ p.
        IsOnly (L.sources library.now) options (file_view p)) }
    ensures within { IfOk result (λ p. IsWithin (L.sources library.now) (file_view p)) }
    ensures refused { IfErr result (λ e.
        IsFaultOf e (L.sources library.now) name.now options) }
    ensures missing { result ≡ Err ChainError.Missing → IsName name.now }
{
    if !is_name(name) {
        return Err(ChainError::BadName);
    }
    let Some(source) = library.source(name) else {
        return Err(ChainError::Missing);
    };
    let template = template_of(alloc, name, source, options)?;
    let name = String::from_str(alloc, name)?;
    Ok(TemplateFile::new(alloc, name, template)?)
}

/// Scans and parses the source of the template `name`.
fn template_of(
    alloc: Global,
    name: &str,
    text: &str,
    options: Options,
) -> Result<Template, ChainError>
    ensures spelled { IfOk result (λ t. IsTree options text.now (body_of t)) }
    ensures only { (b : Body) → IsTree options text.now b → IfOk result (λ t. b ≡ body_of t) }
    ensures refused { IfErr result (λ e. IsFault e name.now options text.now) }
    ensures weighs { IfOk result (λ t. body_weight (body_of t) ≤ length text.now) }
    ensures short { IfOk result (λ t. body_bytes (body_of t) ≤ length text.now) }
{
    let source = match Source::new(alloc, text, options) {
        Ok(source) => source,
        Err(refusal) => return Err(unscanned(alloc, name, refusal)),
    };
    let segments = match scan(alloc, &source) {
        Ok(segments) => segments,
        Err(refusal) => return Err(unscanned(alloc, name, refusal)),
    };
    match parse(alloc, segments.as_slice()) {
        Ok(template) => Ok(template),
        Err(refusal) => Err(unparsed(alloc, name, refusal)),
    }
}

/// Converts an error of the scanner and adds the template's name to it.
fn unscanned(alloc: Global, name: &str, refusal: ScanError) -> ChainError
    ensures { IsScan name.now refusal result }
{
    if refusal == ScanError::NoMemory {
        return ChainError::NoMemory;
    }
    match String::from_str(alloc, name) {
        Ok(name) => ChainError::Scan(name, refusal),
        Err(_) => ChainError::NoMemory,
    }
}

/// Converts an error of the parser and adds the template's name to it.
fn unparsed(alloc: Global, name: &str, refusal: ParseError) -> ChainError
    ensures { IsParse name.now refusal result }
{
    if refusal == ParseError::NoMemory {
        return ChainError::NoMemory;
    }
    match String::from_str(alloc, name) {
        Ok(name) => ChainError::Parse(name, refusal),
        Err(_) => ChainError::NoMemory,
    }
}
