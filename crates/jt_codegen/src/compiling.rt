//! Compiles templates to images.

ghost use Rattle.std.specs.Prelude.{◌≡◌, map, string_bytes, IfOk, IfErr};
ghost use Rattle.jt_inherit.specs.Small.{IsSmall};
ghost use Rattle.jt_ir.specs.View.{program_of};
ghost use Rattle.jt_codegen.specs.Compiled.{IsCompiled};
ghost use Rattle.jt_codegen.specs.Refusals.{Breaks, NamesLimit, of_emit};
ghost use Rattle.jt_codegen.specs.internal.Asked.{Asked, IsProgramOf, PassesOf};

use crate::emission::EmitError;
use crate::entries::fits_entries;
use crate::error::CompileError;
use crate::finding::Limit;
use crate::image::image_of;
use crate::linking::{checked_facts, linked_chain};
use jt_image::{Image, MAX_ENTRIES, code_laws};
use jt_inherit::Library;
use jt_ir::Program;
use jt_lower::low_laws;
use jt_scan::Options;
use jt_scopes::resolve_facts;
use jt_semantics::program_laws;
use std::alloc::Global;

/// Compiles the entry of a library, with all templates that it reaches, to an image of version 2.
///
/// # Errors
///
/// * `Chain` if the entry has no chain in the library.
/// * `Scope` if the chain breaks a rule of names or calls.
/// * `CodeTooLong` if the image would pass a limit.
/// * `StackTooDeep` if a unit would need more than 1,024 stack entries.
/// * `NoMemory` if a growth is refused.
pub fn compile<L: Library>(
    alloc: Global,
    entry: &str,
    library: &L,
    options: Options,
) -> Result<Image, CompileError>
    // The code of version 2 is typed and agrees with the meaning of the entry's lawful chain.
    ensures compiled { IfOk result
        (λ image. IsCompiled (L.sources library.now) entry.now options image) }
    // The refusal holds of the library and the entry.
    ensures refused { IfErr result (λ e. Breaks (L.sources library.now) entry.now options e) }
    // A refusal names no limit if the chain is small.
    ensures small { IfErr result
        (λ e. NamesLimit e → ¬ (IsSmall (L.sources library.now) entry.now options)) }
{
    let chain = linked_chain(alloc, entry, library, options)?;
    let facts = checked_facts(alloc, &chain)?;
    let program = resolve_facts(alloc, &facts)?;
    let image = compile_program(alloc, &program)?;
    Ok(image)
}

/// Compiles the program of an entry to an image.
///
/// # Errors
///
/// `Limit` if the image would pass a limit.
/// `NoMemory` if a growth is refused.
pub(crate) fn compile_program(alloc: Global, program: &Program) -> Result<Image, EmitError>
    requires { (asked : Asked) × IsProgramOf asked (program_of program.now) }
    ensures compiled { (asked : Asked) → IsProgramOf asked (program_of program.now) → IfOk result
        (λ image. IsCompiled asked.given asked.entry asked.options image) }
    ensures names { IfOk result (λ image. map (λ name. name.text) image.names
        ≡ map string_bytes program.now.names.items) }
    ensures refused { (asked : Asked) → IsProgramOf asked (program_of program.now) → IfErr result
        (λ e. PassesOf asked e) }
    ensures small { (asked : Asked) → IsProgramOf asked (program_of program.now) → IfErr result
        (λ e. NamesLimit (of_emit e) → ¬ (IsSmall asked.given asked.entry asked.options)) }
{
    code_laws();
    low_laws();
    program_laws();
    if !fits_entries(&program.routines, MAX_ENTRIES) {
        return Err(EmitError::Limit(Limit::Entries));
    }
    image_of(alloc, program)
}
