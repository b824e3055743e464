//! Defines what the sources show of a refusal beyond its finding.

ghost use Rattle.std.specs.Prelude.{IfOk};
ghost use Rattle.jt_host.specs.Clues as spec;
ghost use Rattle.jt_host.specs.Templates.{source_of};

use crate::meant::{meant_for, method_for, taken_for};
use crate::syntax_hints::{SourceHint, hint_for};
use crate::templates::Templates;
use crate::token_marks::{Marked, mark_for};
use jt_codegen::Explained;
use jt_scan::Options;
use std::alloc::{AllocError, Global};

/// What the sources show of a refusal beyond its finding.
#[derive(Debug, Drop, PartialEq, Eq)]
pub struct Clues {
    /// The reason of an error of syntax.
    pub hint: Option<SourceHint>,
    /// The name in the sources that was probably meant.
    pub meant: Option<String>,
    /// The method that is called, if the callee is neither a name nor a field of a name.
    pub method: Option<String>,
    /// What the macro takes whose arguments do not fit.
    pub takes: Option<String>,
    /// What the marks are under.
    pub mark: Option<Marked>,
}

/// Returns what the sources show of a refusal beyond its finding.
pub(crate) fn clues_for(
    alloc: Global,
    templates: &Templates,
    options: Options,
    explained: &Explained,
) -> Result<Clues, AllocError>
    ensures { IfOk result (spec.AreCluesFor (source_of templates.now) options explained.now) }
{
    let hint = hint_for(alloc, templates, options, explained)?;
    let meant = meant_for(alloc, templates, options, explained)?;
    let method = method_for(alloc, templates, options, explained)?;
    let takes = taken_for(alloc, templates, options, explained)?;
    let mark = mark_for(alloc, templates, options, explained)?;
    Ok(Clues {
        hint,
        meant,
        method,
        takes,
        mark,
    })
}
