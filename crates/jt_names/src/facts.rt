//! Defines the facts of a chain: what is known of its templates and of the chains and libraries.
//! They are collected once, and each later step borrows them.

ghost use Rattle.std.specs.Prelude.{◌≡◌, ◌<◌, length};
ghost use Rattle.jt_ast.specs.Texts.{ascending};
ghost use Rattle.jt_chains.specs.Along.{body_at};
ghost use Rattle.jt_chains.specs.Chain.{a_library, blocks_in};
ghost use Rattle.jt_chains.specs.Parts.{blocks_view, name_at};
ghost use Rattle.jt_chains.specs.Uses.{own_names};
ghost use Rattle.jt_chains.specs.View.{its_sources, its_templates};
ghost use Rattle.jt_uses.specs.Uses.{body_uses, outside};
ghost use Rattle.jt_uses.specs.UseView.{sites_view};
ghost use Rattle.jt_names.specs.FactsOfChains.{AllKnown};
ghost use Rattle.jt_names.specs.FactsAreProps.{is_prop};

use crate::index::NameIndex;
use crate::templates::TemplateFacts;
use jt_chains::{Block, Chain, DefinedName, Definition, Macro, file_named};
use jt_uses::UseSite;
use std::collections::BTreeMap;

/// What is known of a chain or a library.
#[derive(Drop)]
pub struct NamespaceFacts<'a> {
    /// The different names that its templates read or bind, in ascending order.
    pub names: Vec<&'a str>,
    /// The different names that its scopes bind, in ascending order.
    pub scope_names: Vec<&'a str>,
    /// Its macros, the entry template's first.
    pub macros: Vec<Macro<'a>>,
    /// All names that mean a macro or a library, its own macros first, repeated names too.
    pub defined: Vec<DefinedName<'a>>,
    /// The definition of each name that stands for a macro or a library.
    pub given: BTreeMap<&'a str, Definition<'a>>,
    /// The bodies of its blocks, the entry template's first.
    pub blocks: Vec<Block<'a>>,
    /// The index of the first body of each block, by its name.
    pub first_bodies: NameIndex<'a>,
    /// The names of the templates that it includes, once for each tag, the entry template's first.
    pub includes: Vec<&'a str>,
}

/// What is known of a chain and of all that it reaches. The type itself keeps that the facts are
/// those of the chain.
#[derive(Drop)]
pub struct ChainFacts<'a> {
    pub chain: &'a Chain,
    /// The facts of each template, by its index.
    pub templates: Vec<TemplateFacts<'a>>,
    /// The facts of each chain and library, by its index.
    pub namespaces: Vec<NamespaceFacts<'a>>,
    pub ghost known: { AllKnown chain.now templates.items namespaces.items } by { is_prop _ _ _ },
}

impl<'a> ChainFacts<'a> {
    /// Returns the uses of the template at `index`.
    pub fn uses_at(&self, index: usize) -> &[UseSite<'a>]
        requires { index < length self.now.chain.now.templates.items }
        ensures { sites_view result.now
            ≡ body_uses (body_at (its_templates self.now.chain.now) index) outside }
    {
        &self.templates[index].uses
    }

    /// Returns the bodies of the blocks of the template at `index`.
    pub fn blocks_at(&self, index: usize) -> &[Block<'a>]
        requires { index < length self.now.chain.now.templates.items }
        ensures { blocks_view (its_templates self.now.chain.now) result.now
            ≡ blocks_in (name_at (its_templates self.now.chain.now) index)
            (body_at (its_templates self.now.chain.now) index) self.now.chain.now.autoescape }
    {
        &self.templates[index].blocks
    }

    /// Returns the number of different names that a library reads or binds, or 0 if there is no
    /// library of this name.
    pub fn count_in_library(&self, library: &str) -> usize
        ensures { result ≡ length
            (ascending (own_names (its_sources self.now.chain.now) (a_library library.now))) }
    {
        let index = file_named(self.chain, library);
        match self.chain.templates.get(index) {
            Some(file) if file.is_library() => self.templates[index].names.as_slice().len(),
            _ => 0,
        }
    }
}
