//! Tests sources that strangers change. Each beginning and each change of one byte of a template
//! has a letter:
//!
//!     S P C V G  the compiler refuses it
//!     t f s      it is compiled, accepted, and its run ends with a text, a fault or a spent number
//!     -          it is not a text
//!     9 !        an error: lack of memory, an image that is not accepted

use crate::changes::{Lettered, print_letters};
use crate::images::letter_of_end;
use crate::memory_library::{MemoryLibrary, context_of, options_of, templates_of, unfolded};
use crate::positions::Positions;
use crate::stop::Stop;
use jt_budget::Budget;
use jt_codegen::{CompileError, compile};
use jt_host::context_from_json;
use jt_image::Image;
use jt_machine::run;
use jt_scan::Options;
use jt_value::Context;
use jt_verify::verify;
use std::alloc::{AllocError, Global};

/// The budget of the runs.
const SMALL: Budget = Budget {
    fuel: 2_000,
    depth: 8,
    output: 1_000,
    size: 1_000,
    nesting: 8,
};

/// The template to change, with its library, its options and the context of the runs.
#[derive(Drop)]
struct SourceTrial<'a, 'b> {
    memory_library: &'a MemoryLibrary<'b>,
    index: usize,
    options: Options,
    context: &'a Context,
}

impl Lettered for SourceTrial<'_, '_> {
    fn letter(&self, alloc: Global, bytes: &[u8]) -> Result<char, Stop> {
        let Ok(source) = std::str::from_utf8(bytes) else {
            return Ok('-');
        };
        let memory_library = replaced(alloc, self.memory_library, self.index, source)?;
        match compile(alloc, "t", &memory_library, self.options) {
            Ok(image) => ended(alloc, image, self.context),
            Err(CompileError::NoMemory) => Ok('9'),
            Err(refusal) => {
                let code = format!(in alloc; "{refusal}")?;
                Ok(code.chars().next().unwrap_or('?'))
            }
        }
    }
}

/// Prints the letters of each template of a row at some positions.
pub(crate) fn source_answers(rt: &HostRuntime, of: &str) -> Result<(), Stop> {
    let (places, row) = Positions::read(of)?;
    let text = unfolded(rt.alloc(), row)?;
    row_answers(rt, text.as_str(), places)
}

/// Prints the letters of the templates of a row.
fn row_answers(rt: &HostRuntime, row: &str, places: Positions) -> Result<(), Stop> {
    let context = context_in(rt.alloc(), context_of(row))?;
    let memory_library = templates_of(rt.alloc(), row)?;
    all_answers(rt, &memory_library, options_of(row), &context, places)
}

fn context_in(alloc: Global, json: &str) -> Result<Context, Stop> {
    context_from_json(alloc, json).map_err(|_| Stop::Other)
}

/// Prints the letters of each template of a library.
fn all_answers<'x>(
    rt: &HostRuntime,
    memory_library: &'x MemoryLibrary<'_>,
    options: Options,
    context: &'x Context,
    places: Positions,
) -> Result<(), Stop> {
    for (index, (name, source)) in memory_library.templates.iter().enumerate() {
        let trial = SourceTrial {
            memory_library,
            index,
            options,
            context,
        };
        let label = format!(in rt.alloc(); "{name} ")?;
        print_letters(rt, label.as_str(), &trial, places, source.as_bytes())?;
    }
    Ok(())
}

/// Returns the library with another source in place of one.
fn replaced<'a>(
    alloc: Global,
    memory_library: &MemoryLibrary<'a>,
    index: usize,
    source: &'a str,
) -> Result<MemoryLibrary<'a>, AllocError> {
    let mut templates = Vec::new(alloc);
    for (at, (name, before)) in memory_library.templates.iter().enumerate() {
        templates.push((*name, if at == index { source } else { *before }))?;
    }
    Ok(MemoryLibrary { templates })
}

fn ended(alloc: Global, image: Image, context: &Context) -> Result<char, Stop> {
    let Ok(verified) = verify(alloc, image) else {
        return Ok('!');
    };
    Ok(letter_of_end(&run(alloc, &verified, context, SMALL)?))
}
