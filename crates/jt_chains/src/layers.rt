//! Lists the templates of a chain.

ghost use Rattle.std.specs.Prelude.{◌≡◌, ◌<◌, ◌≤◌, [], length, map, IfOk};
ghost use Rattle.jt_chains.specs.Along.{layers_along};
ghost use Rattle.jt_chains.specs.Chain.{templates};
ghost use Rattle.jt_chains.specs.TemplateFiles.{files_view};
ghost use Rattle.jt_chains.specs.Layers.{layer_view};
ghost use Rattle.jt_chains.specs.View.{NoneBeyond, namespace_in, its_sources, its_templates};
ghost use Rattle.jt_chains.specs.internal.AreFrom.{AreFrom};

use crate::chain::Chain;
use crate::files::TemplateFile;
use crate::parts::body_of_file;
use jt_ast::Stmt;
use std::alloc::{AllocError, Global};

/// A template of a chain: its index among all that were read, and its statements.
#[derive(Clone, Copy)]
pub struct Layer<'a> {
    pub template: usize,
    pub body: &'a [Stmt],
}

impl Chain {
    /// Returns the indices of the templates of a chain, from the entry to the root. Returns none if
    /// `namespace` is out of range.
    #[tactic(auto, using(crate::proofs::TemplatesByIndex::indices_of_namespace))]
    pub(crate) fn indices_of(&self, namespace: usize) -> &[usize]
        ensures there { namespace < length self.now.namespaces.items →
            AreFrom (its_templates self.now) result.now
            (templates (its_sources self.now) (namespace_in self.now namespace)) }
        ensures nowhere { length self.now.namespaces.items ≤ namespace → result.now ≡ [] }
    {
        match self.namespaces.get(namespace) {
            Some(found) => &found.templates,
            None => &[],
        }
    }

    /// Returns the templates of a chain, from the entry to the root. Returns an empty list if
    /// `namespace` is out of range.
    #[tactic(auto, using(crate::proofs::TemplatesByIndex::along_turn, crate::proofs::TemplatesByIndex::layers_from))]
    pub fn layers(&self, alloc: Global, namespace: usize) -> Result<Vec<Layer<'_>>, AllocError>
        ensures there { namespace < length self.now.namespaces.items → IfOk result (λ found.
            map (layer_view (its_templates self.now)) found.items
            ≡ templates (its_sources self.now) (namespace_in self.now namespace)) }
        ensures nowhere { NoneBeyond self.now namespace result }
    {
        let indices = self.indices_of(namespace);
        let mut found = Vec::with_capacity(alloc, indices.len())?;
        for index in indices {
            found.push(Layer {
                template: *index,
                body: body_of_file(&self.templates, *index),
            })?;
        }
        Ok(found)
    }
}
