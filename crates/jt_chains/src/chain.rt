//! Defines the chain of an entry, with the chains and libraries that its includes and imports
//! reach.

ghost use Rattle.std.specs.Prelude.{◌≡◌, ◌<◌, true, false, length, map};
ghost use Rattle.std.specs.List.{AllByRecursion-prop};
ghost use Rattle.std.specs.Coded.{Coded-set, coded_ℕ, coded_list, coded_option};
ghost use Rattle.jt_chains.specs.Chain.{sources_in};
ghost use Rattle.jt_chains.specs.Includes.{InOrder, InOrder-prop, begins_with_chain};
ghost use Rattle.jt_chains.specs.TemplateFiles.{AreWhole, files_view, namespace_view};
ghost use Rattle.jt_chains.specs.Tables.{AreAt};
ghost use Rattle.jt_ast.specs.Texts.{repeated};

use crate::files::TemplateFile;
use std::collections::BTreeMap;

/// A chain or a library. A chain has the name of its entry and the indices of its templates, from
/// the entry to the root. A library has its own name and the index of its one template.
#[derive(Drop)]
pub struct Namespace {
    pub name: String,
    pub is_library: bool,
    pub templates: Vec<usize>,
}

/// The chain of an entry, with the chains and libraries that its includes and imports reach.
#[derive(Drop)]
pub struct Chain {
    /// The templates that were read, each once.
    pub templates: Vec<TemplateFile>,
    /// The chains and libraries, each before the ones that it leads to. The entry's chain is the
    /// first.
    pub namespaces: Vec<Namespace>,
    /// Whether text outside `autoescape` tags is escaped.
    pub autoescape: bool,
    /// Whether an undefined value is a fault where a value is required.
    pub strict: bool,
    /// The index in `templates` of each template, by its name.
    pub indices: BTreeMap<String, usize>,
    pub ghost once: { repeated (map (λ t. t.name) (files_view templates.items)) ≡ false },
    pub ghost some: { 0 < length namespaces.items },
    pub ghost begins: { begins_with_chain (map namespace_view namespaces.items) ≡ true },
    pub ghost order: { InOrder (sources_in (files_view templates.items))
        (map namespace_view namespaces.items) } by { InOrder-prop _ _ },
    pub ghost whole: { AreWhole (files_view templates.items)
        namespaces.items } by { AllByRecursion-prop _
            (λ _. Coded-set (coded_list (coded_option (coded_list coded_ℕ))) _ _) _ },
    pub ghost indexed: { AreAt (files_view templates.items) indices },
}
