//! Collects the defined names of a chain: its own macros, imported macros, and libraries.

ghost use Rattle.std.specs.Prelude.{◌≡◌, ◌<◌, ◌++◌, length, option_map, not, IfOk};
ghost use Rattle.std.specs.List.{list_any};
ghost use Rattle.jt_ast.specs.StatementView.{stmt_view, body_view, given_view};
ghost use Rattle.jt_ast.specs.Texts.{texts};
ghost use Rattle.jt_chains.specs.Chain as chains;
ghost use Rattle.jt_chains.specs.Chain.{macros, all_given_from, imports_in};
ghost use Rattle.jt_chains.specs.Chain.{libraries, own, imports, a_library};
ghost use Rattle.jt_chains.specs.Along.{along};
ghost use Rattle.jt_chains.specs.TemplateFiles.{files_view};
ghost use Rattle.jt_chains.specs.Parts.{macro_view, macros_view};
ghost use Rattle.jt_chains.specs.Indices.{index_of};
ghost use Rattle.jt_chains.specs.Named.{Adds, names_view};
ghost use Rattle.jt_chains.specs.View.{NoneBeyond, namespace_in, its_sources, its_templates};

use crate::chain::Chain;
use crate::files::TemplateFile;
use crate::parts::{Macro, body_of_file};
use jt_ast::Stmt;
use std::alloc::{AllocError, Global};

/// The definition of a name: a macro of its own chain or library, a macro of another library, by
/// the library's name, or a library.
#[derive(Clone, Copy)]
pub enum Definition<'a> {
    Own(Macro<'a>),
    Imported(&'a str, Macro<'a>),
    Library(&'a str),
}

/// A name and its definition.
#[derive(Clone, Copy)]
pub struct DefinedName<'a> {
    pub name: &'a str,
    pub given: Definition<'a>,
}

fn is_space(byte: u8) -> bool
    ensures { result ≡ chains.is_space byte }
{
    byte == 32 || (9 <= byte && byte < 14)
}

/// Returns whether a text holds only whitespace.
fn is_blank(text: &str) -> bool
    ensures { result ≡ not (list_any (λ c. not (chains.is_space c)) text.now) }
{
    !text.bytes().any(|byte| !is_space(byte))
}

/// Returns whether a library may hold the statement.
fn of_a_library(statement: &Stmt) -> bool
    ensures { result ≡ chains.of_a_library (stmt_view statement.now) }
{
    match statement {
        Stmt::Macro { .. } => true,
        Stmt::Data(text) => is_blank(text),
        _ => false,
    }
}

/// Returns whether a library may hold all of these statements.
pub fn holds_macros(body: &[Stmt]) -> bool
    ensures { result ≡ chains.holds_macros (body_view body.now) }
{
    body.iter().all(of_a_library)
}

/// Returns the index of the template of this name, or the number of templates if it does not exist.
pub fn file_named(chain: &Chain, name: &str) -> usize
    ensures { result ≡ index_of (its_templates chain.now) name.now }
{
    chain
        .indices
        .get(name)
        .copied()
        .unwrap_or(chain.templates.as_slice().len())
}

/// Returns whether a name is private: it begins with `_`.
pub fn is_private(name: &str) -> bool
    ensures { result ≡ chains.is_private name.now }
{
    name.as_bytes().first().is_some_and(|first| *first == b'_')
}

/// Adds the names that a `from` tag binds. A macro that the library lacks adds none.
fn add_from<'a>(
    chain: &'a Chain,
    library: &'a str,
    names: &'a [(String, String)],
    found: &mut Vec<DefinedName<'a>>,
) -> Result<(), AllocError>
    ensures { IfOk result (λ _. Adds (its_templates chain.now) found.old.items found.new.items
        (λ h. all_given_from (its_sources chain.now) library.now (given_view names.now))) }
{
    for (name, given) in names {
        if let Some(one) = chain.library_macro(library, name) {
            found.push(DefinedName {
                name: given.as_str(),
                given: Definition::Imported(library, one),
            })?;
        }
    }
    Ok(())
}

/// Adds the names that the imports of a template bind.
fn add_imports<'a>(
    chain: &'a Chain,
    body: &'a [Stmt],
    found: &mut Vec<DefinedName<'a>>,
) -> Result<(), AllocError>
    ensures { IfOk result (λ _. Adds (its_templates chain.now) found.old.items found.new.items
        (λ h. imports_in (its_sources chain.now) (body_view body.now))) }
{
    for statement in body {
        match statement {
            Stmt::Import { library, name, .. } => found.push(DefinedName {
                name: name.as_str(),
                given: Definition::Library(library.as_str()),
            })?,
            Stmt::From {
                library,
                macros,
                ..
            } => add_from(chain, library, macros, found)?,
            _ => {}
        }
    }
    Ok(())
}

impl Chain {
    /// Returns the defined names of a chain or a library: the names of `macros`, which are its own,
    /// then the names that its imports bind. Returns none if `namespace` is out of range.
    #[tactic(auto, using(crate::proofs::TemplatesByIndex::along_turn, crate::proofs::TemplatesByIndex::imports_from))]
    pub fn definitions<'a>(
        &'a self,
        alloc: Global,
        namespace: usize,
        macros: &[Macro<'a>],
    ) -> Result<Vec<DefinedName<'a>>, AllocError>
        ensures there { namespace < length self.now.namespaces.items → IfOk result (λ names.
            names_view (its_templates self.now) (namespace_in self.now namespace) names.items
            ≡ own (namespace_in self.now namespace)
            (macros_view (its_templates self.now) macros.now)
            ++ imports (its_sources self.now) (namespace_in self.now namespace)) }
        ensures nowhere { NoneBeyond self.now namespace result }
    {
        let mut names = Vec::new(alloc);
        if self.namespaces.len() <= namespace {
            return Ok(names);
        }
        for one in macros {
            names.push(DefinedName {
                name: one.name,
                given: Definition::Own(*one),
            })?;
        }
        for index in self.indices_of(namespace) {
            add_imports(self, body_of_file(&self.templates, *index), &mut names)?;
        }
        Ok(names)
    }

    /// Returns the names of the libraries that a chain imports, once for each import tag. Returns
    /// none if `namespace` is out of range.
    #[tactic(auto, using(crate::proofs::TemplatesByIndex::along_turn, crate::proofs::TemplatesByIndex::libraries_from))]
    pub fn libraries(&self, alloc: Global, namespace: usize) -> Result<Vec<&str>, AllocError>
        ensures there { namespace < length self.now.namespaces.items → IfOk result (λ names.
            texts names.items
            ≡ libraries (its_sources self.now) (namespace_in self.now namespace)) }
        ensures nowhere { NoneBeyond self.now namespace result }
    {
        let mut found = Vec::new(alloc);
        for index in self.indices_of(namespace) {
            for statement in body_of_file(&self.templates, *index) {
                if let Stmt::Import { library, .. } | Stmt::From { library, .. } = statement {
                    found.push(library.as_str())?;
                }
            }
        }
        Ok(found)
    }

    /// Returns the macro of this name that the library offers to importers.
    #[tactic(auto, using(crate::proofs::TemplatesByIndex::file_at, crate::proofs::TemplatesByIndex::library_at, crate::proofs::TemplatesByIndex::library_nowhere))]
    pub fn library_macro(&self, library: &str, name: &str) -> Option<Macro<'_>>
        ensures { option_map (macro_view (its_templates self.now)) result
            ≡ chains.public_macro name.now (macros (its_sources self.now) (a_library library.now)) }
    {
        let index = file_named(self, library);
        self.templates.get(index)?.public_macro(index, name)
    }
}
