//! Stores the templates that were read: each one once, indexed by name.

ghost use Rattle.std.specs.Prelude.{◌≡◌, false, map};
ghost use Rattle.jt_ast.specs.Texts.{repeated};
ghost use Rattle.jt_chains.specs.TemplateFiles.{files_view};
ghost use Rattle.jt_inherit.specs.internal.Numbers.{AreNumbers, AreNumbers-prop, is_named};

use crate::error::ChainError;
use crate::library::Library;
use crate::reading::read_file;
use jt_chains::TemplateFile;
use jt_scan::Options;
use std::alloc::{AllocError, Global};
use std::collections::BTreeMap;

/// The templates that were read, each one once, indexed by name.
#[derive(Drop)]
pub(crate) struct TemplateStore {
    /// The templates, in the order of reading.
    pub(crate) files: Vec<TemplateFile>,
    /// The index in `files` of each template, by its name.
    pub(crate) indices: BTreeMap<String, usize>,
    ghost once: { repeated (map (λ t. t.name) (files_view files.items)) ≡ false },
    ghost indexed: { AreNumbers is_named files.items
        indices } by { AreNumbers-prop is_named files.items indices },
}

impl TemplateStore {
    ghost use Rattle.std.specs.Prelude.{◌++◌, ◌∷◌, [], slice_get, string_bytes, Some};
    ghost use Rattle.std.specs.Prelude.{OnErr, OnOk, IfOk, IfErr};
    ghost use Rattle.jt_ast.specs.Texts.{among};
    ghost use Rattle.jt_chains.specs.TemplateFiles.{file_view};
    ghost use Rattle.jt_inherit.specs.internal.ExtendsPaths.{AreKnown, HasRead, names};
    ghost use Rattle.jt_inherit.specs.internal.Faults.{IsFaultOf};
    ghost use Rattle.jt_inherit.specs.internal.Views.{its_files};
    ghost use Rattle.jt_inherit.specs.internal.Numbers.{FindsIn};
    ghost use Rattle.jt_chains.specs.Names.{IsName};

    /// Returns a store without templates.
    pub(crate) fn new(alloc: Global) -> TemplateStore
        ensures { result.files.items ≡ [] }
    {
        TemplateStore {
            files: Vec::new(alloc),
            indices: BTreeMap::new(alloc),
        }
    }

    /// Returns the index of the template of a name.
    pub(crate) fn find(&self, name: &str) -> Option<usize>
        ensures { FindsIn among (names (its_files self.now)) name.now result }
    {
        self.indices.get(name).copied()
    }

    /// Appends a template whose name is new.
    fn add(&mut self, alloc: Global, file: TemplateFile) -> Result<(), AllocError>
        requires { among (string_bytes file.name) (names (its_files self.old)) ≡ false }
        ensures added { OnOk result
            (its_files self.new ≡ its_files self.old ++ file_view file ∷ []) }
        ensures same { OnErr result (its_files self.new ≡ its_files self.old) }
    {
        let index = self.files.len();
        let name = String::from_str(alloc, &file.name)?;
        self.files.reserve(1)?;
        self.indices.insert(name, index)?;
        self.files.push(file)?;
        Ok(())
    }

    /// Returns the index of the template `name`, and reads the template if it was not read yet.
    pub(crate) fn read<L: Library>(
        &mut self,
        alloc: Global,
        name: &str,
        library: &L,
        options: Options,
    ) -> Result<usize, ChainError>
        requires { AreKnown (L.sources library.now) options
            (its_files self.old) }
        ensures read { OnOk result (HasRead (L.sources library.now) options
            (its_files self.old) (its_files self.new) (name.now ∷ [])) }
        ensures index { IfOk result
            (λ i. slice_get (names (its_files self.new)) i ≡ Some name.now) }
        ensures refused { IfErr result (λ e.
            IsFaultOf e (L.sources library.now) name.now options) }
        ensures same { OnErr result (its_files self.new ≡ its_files self.old) }
        ensures missing { result ≡ Err ChainError.Missing → IsName name.now }
    {
        if let Some(index) = self.find(name) {
            return Ok(index);
        }
        let index = self.files.len();
        let file = read_file(alloc, name, library, options)?;
        self.add(alloc, file)?;
        Ok(index)
    }
}
