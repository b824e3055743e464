//! Holds sources of templates by their names.

ghost use Rattle.std.specs.Prelude.{◌≡◌, ◌≢◌, ℕ, List, IfOk, IfSome, OnOk, string_bytes};
ghost use Rattle.jt_host.specs.Meant.{IsTemplateNear};
ghost use Rattle.jt_host.specs.Templates.{source_of};

use jt_hints::nearest;
use jt_inherit::Library;
use std::alloc::{AllocError, Global};
use std::collections::BTreeMap;

/// A library over a map: the sources of templates by their names.
#[derive(Drop)]
pub struct Templates {
    sources: BTreeMap<String, String>,
}

impl Templates {
    /// Returns a library without templates.
    pub fn new(alloc: Global) -> Templates
        ensures { (name : List ℕ) → source_of result name ≡ None }
    {
        Templates {
            sources: BTreeMap::new(alloc),
        }
    }

    /// Sets the source of the template `name`.
    ///
    /// # Errors
    ///
    /// `AllocError` if a growth is refused.
    pub fn insert(&mut self, name: String, source: String) -> Result<(), AllocError>
        ensures taken { OnOk result
            (source_of self.new (string_bytes name) ≡ Some (string_bytes source)) }
        ensures others { OnOk result ((other : List ℕ)
            → other ≢ string_bytes name
            → source_of self.new other ≡ source_of self.old other) }
    {
        self.sources.insert(name, source)?;
        Ok(())
    }

    /// Returns the names of the templates, in order.
    fn names(&self, alloc: Global) -> Result<Vec<&str>, AllocError> {
        let mut names = Vec::with_capacity(alloc, self.sources.len())?;
        for name in self.sources.keys() {
            names.push(name.as_str())?;
        }
        Ok(names)
    }

    /// Returns the template that a name probably means, if there is one.
    pub(crate) fn nearest_name(
        &self,
        alloc: Global,
        name: &str,
    ) -> Result<Option<String>, AllocError>
        ensures { IfOk result (λ found. IfSome found (λ y.
            IsTemplateNear (source_of self.now) name.now (string_bytes y))) }
    {
        let names = self.names(alloc)?;
        let Some(near) = nearest(name, &names) else {
            return Ok(None);
        };
        match self.source(near) {
            Some(_) => Ok(Some(String::from_str(alloc, near)?)),
            None => Ok(None),
        }
    }
}

impl Library for Templates {
    ghost sources = { source_of };

    fn source(&self, name: &str) -> Option<&str> {
        match self.sources.get(name) {
            Some(source) => Some(source.as_str()),
            None => None,
        }
    }
}
