//! Explains why an entry does not compile.

ghost use Rattle.std.specs.Prelude.{IfOk};
ghost use Rattle.jt_chains.specs.View.{chain_view};
ghost use Rattle.jt_rules.specs.CompileEnv.{cenv_of};
ghost use Rattle.jt_rules.specs.Rules.{KeepsRules};
ghost use Rattle.jt_codegen.specs.Explaining.{IsExplained, IsOfChain, IsUnknown};
ghost use Rattle.jt_codegen.specs.internal.Asked.{Asked, IsChainOf, IsFaultOf, IsLinkedOf};
ghost use Rattle.jt_codegen.specs.internal.Asked.{asked_of};
ghost use Rattle.jt_codegen.specs.internal.ErrorsAlone.{StatesError};
ghost use Rattle.jt_inherit.specs.Findings.{Says};

use crate::compiling::compile_program;
use crate::emission::EmitError;
use crate::error::CompileError;
use crate::finding::{Explained, Finding, Subject};
use crate::linking::{checked_facts, linked_chain};
use crate::unknown::find_unknown;
use jt_bind::resolved;
use jt_chains::Chain;
use jt_checks::find_broken;
use jt_expr::Named;
use jt_inherit::{ChainError, ChainFinding, Library, TagPlace};
use jt_names::ChainFacts;
use jt_parse::ParseError;
use jt_scan::Options;
use jt_value::NoMemory;
use std::alloc::{AllocError, Global};

/// Explains whether the entry of a library compiles, with all templates that it reaches. If it does
/// not, the finding states the broken rule, with the place and the name where they are known.
///
/// # Errors
///
/// `NoMemory` if a growth is refused.
pub fn explain<L: Library>(
    alloc: Global,
    entry: &str,
    library: &L,
    options: Options,
) -> Result<Explained, NoMemory>
    ensures { IfOk result (IsExplained (L.sources library.now) entry.now options) }
{
    match linked_chain(alloc, entry, library, options) {
        Ok(chain) => explain_linked(alloc, entry, library, options, &chain),
        Err(found) => explain_refused(alloc, entry, library, options, found),
    }
}

/// Explains whether a linked chain compiles.
///
/// # Errors
///
/// `NoMemory` if a growth is refused.
fn explain_linked<L: Library>(
    alloc: Global,
    entry: &str,
    library: &L,
    options: Options,
    chain: &Chain,
) -> Result<Explained, NoMemory>
    requires { IsLinkedOf (asked_of (L.sources library.now) entry.now options)
        (chain_view chain.now) }
    ensures { IfOk result (IsExplained (L.sources library.now) entry.now options) }
{
    match checked_facts(alloc, chain) {
        Ok(facts) => explain_facts(alloc, &facts),
        Err(found) => explain_refused(alloc, entry, library, options, found),
    }
}

/// Explains the error of a chain.
///
/// # Errors
///
/// `NoMemory` if that is the error, or if a growth is refused.
fn explain_refused<L: Library>(
    alloc: Global,
    entry: &str,
    library: &L,
    options: Options,
    found: ChainFinding,
) -> Result<Explained, NoMemory>
    requires { IsFaultOf (asked_of (L.sources library.now) entry.now options) found }
    ensures { IfOk result (IsExplained (L.sources library.now) entry.now options) }
{
    let found = chain_finding(alloc, entry, library, options, found)?;
    Ok(Explained::Refused(found))
}

/// Explains whether a chain compiles that keeps the rules of chains.
///
/// # Errors
///
/// `NoMemory` if a growth is refused.
fn explain_facts(alloc: Global, facts: &ChainFacts<'_>) -> Result<Explained, NoMemory>
    requires of { (asked : Asked) × IsChainOf asked (chain_view facts.now.chain.now) }
    ensures { (asked : Asked) → IsChainOf asked (chain_view facts.now.chain.now) → IfOk result
        (IsExplained asked.given asked.entry asked.options) }
{
    match find_broken(alloc, facts)? {
        Some(found) => Ok(Explained::Refused(Finding::of_rule(alloc, &found)?)),
        None => explain_image(alloc, facts),
    }
}

/// Explains whether the image of a chain that keeps all rules is within its limits.
///
/// # Errors
///
/// `NoMemory` if a growth is refused.
fn explain_image(alloc: Global, facts: &ChainFacts<'_>) -> Result<Explained, NoMemory>
    requires of { (asked : Asked) × IsChainOf asked (chain_view facts.now.chain.now) }
    requires kept { KeepsRules (cenv_of (chain_view facts.now.chain.now))
        (chain_view facts.now.chain.now).order }
    ensures { (asked : Asked) → IsChainOf asked (chain_view facts.now.chain.now) → IfOk result
        (IsExplained asked.given asked.entry asked.options) }
{
    let program = resolved(alloc, facts)?;
    match compile_program(alloc, &program) {
        Ok(_image) => Ok(Explained::Compiles),
        Err(EmitError::Limit(limit)) => Ok(Explained::Refused(Finding::of_limit(limit))),
        Err(EmitError::NoMemory) => Err(NoMemory),
    }
}

/// Returns the finding of a rule of chains that is broken.
///
/// # Errors
///
/// `NoMemory` if that is the error, or if a growth is refused.
fn chain_finding<L: Library>(
    alloc: Global,
    entry: &str,
    library: &L,
    options: Options,
    found: ChainFinding,
) -> Result<Finding, NoMemory>
    requires { Says (L.sources library.now) entry.now options found.place found.subject
        found.error }
    ensures { IfOk result (IsOfChain (L.sources library.now) entry.now options found.error) }
{
    let ChainFinding {
        error,
        place,
        subject,
    } = found;
    if error == ChainError::NoMemory {
        return Err(NoMemory);
    }
    match subject {
        Some(subject) => Ok(Finding {
            error: CompileError::Chain(error),
            place,
            subject: Some(Subject::Chain(subject)),
        }),
        None => source_finding(alloc, library, options, error),
    }
}

/// Returns the finding of an error of a chain that has no subject of its own: that of a source that
/// spells no tree has its place.
///
/// # Errors
///
/// `NoMemory` if a growth is refused.
fn source_finding<L: Library>(
    alloc: Global,
    library: &L,
    options: Options,
    error: ChainError,
) -> Result<Finding, NoMemory>
    ensures { IfOk result (StatesError (L.sources library.now) options error) }
{
    let subject = unknown_name(alloc, library, options, &error)?;
    let place = match error.place() {
        Some((template, line)) => Some(TagPlace {
            template: String::from_str(alloc, template)?,
            line,
        }),
        None => None,
    };
    Ok(Finding {
        error: CompileError::Chain(error),
        place,
        subject,
    })
}

/// Returns the unknown filter or test, if that is the error, as the source has it.
fn unknown_name<L: Library>(
    alloc: Global,
    library: &L,
    options: Options,
    error: &ChainError,
) -> Result<Option<Subject>, AllocError>
    ensures { IfOk result (IsUnknown (L.sources library.now) options error.now) }
{
    let ChainError::Parse(name, error) = error else {
        return Ok(None);
    };
    let Some(source) = library.source(name) else {
        return Ok(None);
    };
    match error {
        ParseError::UnknownFilter { line } => {
            let found = find_unknown(alloc, source, options, *line, Named::Filter)?;
            Ok(found.map(Subject::Filter))
        }
        ParseError::UnknownTest { line } => {
            let found = find_unknown(alloc, source, options, *line, Named::Test)?;
            Ok(found.map(Subject::Test))
        }
        _ => Ok(None),
    }
}
