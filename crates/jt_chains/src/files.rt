//! Defines the templates that were read.

ghost use Rattle.std.specs.Prelude.{◌≡◌, List, Some, if◌then◌else◌, IfOk, OnOk, option_map};
ghost use Rattle.std.specs.Prelude.{is_some, string_bytes};
ghost use Rattle.std.specs.BTreeMap.{get_by_text};
ghost use Rattle.std.specs.Str.{bytes_eq};
ghost use Rattle.std.proofs.Props.{props};
ghost use Rattle.jt_ast.specs.Expressions.{Text};
ghost use Rattle.jt_ast.specs.StatementView.{stmt_view, body_view, body_of};
ghost use Rattle.jt_chains.specs.Chain as chain;
ghost use Rattle.jt_chains.specs.Parts.{macro_view, name_at};
ghost use Rattle.jt_chains.specs.Tables as spec;
ghost use Rattle.jt_chains.specs.Tables.{IsTable, library_macros};

use crate::definitions::{holds_macros, is_private};
use crate::parts::Macro;
use jt_ast::{Stmt, Template};
use std::alloc::{AllocError, Global};
use std::collections::BTreeMap;

/// A template that was read, with its name.
#[derive(Drop)]
pub struct TemplateFile {
    pub name: String,
    pub template: Template,
    /// The index of the first macro statement of each name, if the template is a library.
    macros: Option<BTreeMap<String, usize>>,
    ghost table: { IsTable (body_of template) macros } by { Prim.hlevel props },
}

impl TemplateFile {
    /// Creates a template file and, for a library, the table of its macros.
    pub fn new(alloc: Global, name: String, template: Template) -> Result<TemplateFile, AllocError>
        ensures name { IfOk result (λ file. file.name ≡ name) }
        ensures template { IfOk result (λ file. file.template ≡ template) }
    {
        let macros = macro_table(alloc, template.body())?;
        Ok(TemplateFile {
            name,
            template,
            macros,
        })
    }

    /// Returns whether the template is a library.
    pub fn is_library(&self) -> bool
        ensures { result ≡ chain.holds_macros (body_of self.now.template) }
    {
        self.macros.is_some()
    }

    /// Returns the macro of this name that the template offers to importers, if it is a library.
    /// `index` is the index of the template among all that were read.
    pub fn public_macro(&self, index: usize, name: &str) -> Option<Macro<'_>>
        ensures { (ts : List chain.Template) → option_map (macro_view ts) result
            ≡ chain.public_macro name.now
            (library_macros (name_at ts index) (body_of self.now.template)) }
    {
        if is_private(name) {
            return None;
        }
        let statement = self.macros.as_ref()?.get(name)?;
        as_macro(index, self.template.body().get(*statement)?)
    }

    /// Returns whether the template is a library that offers the macro to importers.
    pub fn gives(&self, name: &str) -> bool
        ensures { result ≡ is_some (chain.public_macro name.now
            (library_macros (string_bytes self.now.name) (body_of self.now.template))) }
    {
        self.public_macro(0, name).is_some()
    }
}

/// Returns the macro that a statement defines, if it is a `macro` tag. `index` is the index of its
/// template.
fn as_macro(index: usize, statement: &Stmt) -> Option<Macro<'_>>
    ensures { (ts : List chain.Template) → option_map (macro_view ts) result
        ≡ spec.as_macro (name_at ts index) (stmt_view statement.now) }
{
    match statement {
        Stmt::Macro {
            name,
            parameters,
            body,
            ..
        } => Some(Macro {
            name: name.as_str(),
            template: index,
            parameters: parameters.as_slice(),
            body: body.as_slice(),
        }),
        _ => None,
    }
}

/// Maps a name to an index and replaces an earlier entry of the name.
fn put(
    alloc: Global,
    table: &mut BTreeMap<String, usize>,
    name: &str,
    index: usize,
) -> Result<(), AllocError>
    ensures { OnOk result ((x : Text)
        → get_by_text table.new x
        ≡ (if bytes_eq name.now x then Some index else get_by_text table.old x)) }
{
    table.insert(String::from_str(alloc, name)?, index)?;
    Ok(())
}

/// Returns a map from each macro name of a library to the index of its first macro statement, which
/// replaces a linear search. Returns `None` if the statements are no library.
fn macro_table(alloc: Global, body: &[Stmt]) -> Result<Option<BTreeMap<String, usize>>, AllocError>
    ensures { IfOk result (λ t. IsTable (body_view body.now) t) }
{
    if !holds_macros(body) {
        return Ok(None);
    }
    let mut table = BTreeMap::new(alloc);
    let mut left = body.len();
    while left > 0 {
        left -= 1;
        if let Stmt::Macro { name, .. } = &body[left] {
            put(alloc, &mut table, name, left)?;
        }
    }
    Ok(Some(table))
}
