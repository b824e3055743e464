//! Defines maps from names to indices, and to definitions.

ghost use Rattle.std.specs.Prelude.{◌≡◌, List, map, option_map, IfOk, Some, None, if◌then◌else◌};
ghost use Rattle.std.specs.Str.{bytes_eq};
ghost use Rattle.jt_ast.specs.Texts.{texts};
ghost use Rattle.jt_chains.specs.Chain as chains;
ghost use Rattle.jt_chains.specs.Chain.{Template, given_to, Text};
ghost use Rattle.jt_chains.specs.Named.{given_view, names_view};
ghost use Rattle.jt_chains.specs.Parts.{blocks_view};
ghost use Rattle.jt_names.specs.Names.{value_in, AreIndices};

use jt_chains::{Block, DefinedName, Definition};
use std::alloc::{AllocError, Global};
use std::collections::BTreeMap;

/// Maps `name` to `value`, replacing its earlier entry.
pub fn set_entry<'a, V: Drop>(
    map: &mut BTreeMap<&'a str, V>,
    name: &'a str,
    value: V,
) -> Result<(), AllocError>
    ensures { IfOk result (λ _. (x : Text)
        → value_in map.new x
        ≡ (if bytes_eq name.now x then Some value else value_in map.old x)) }
{
    map.insert(name, value)?;
    Ok(())
}

/// An index for each name of a set.
#[derive(Drop)]
pub struct NameIndex<'a> {
    pub indices: BTreeMap<&'a str, usize>,
}

impl<'a> NameIndex<'a> {
    /// Returns a map without names.
    pub fn new(alloc: Global) -> Self
        ensures { (x : Text) → value_in result.indices x ≡ None }
    {
        NameIndex {
            indices: BTreeMap::new(alloc),
        }
    }

    /// Returns the map from names to consecutive indices from `first` on. The first occurrence of a
    /// repeated name counts.
    ///
    /// # Errors
    ///
    /// `AllocError` if a growth is refused or a number overflows.
    pub fn of(alloc: Global, names: &[&'a str], first: usize) -> Result<Self, AllocError>
        ensures { IfOk result (λ i. AreIndices first (texts names.now) i.indices) }
    {
        let mut index = NameIndex::new(alloc);
        let mut left = names.len();
        while left > 0 {
            left -= 1;
            index.put(names[left], first.checked_add(left).ok_or(AllocError)?)?;
        }
        Ok(index)
    }

    /// Maps `name` to `index`, replacing its earlier entry.
    pub fn put(&mut self, name: &'a str, index: usize) -> Result<(), AllocError>
        ensures { IfOk result (λ u. (x : Text)
            → value_in self.new.indices x
            ≡ (if bytes_eq name.now x then Some index else value_in self.old.indices x)) }
    {
        set_entry(&mut self.indices, name, index)
    }

    /// Returns the index of a name.
    pub fn index_of(&self, name: &str) -> Option<usize>
        ensures { result ≡ value_in self.now.indices name.now }
    {
        self.indices.get(name).copied()
    }
}

/// Returns the index of the first body of each block, by the name of the block.
pub(crate) fn first_bodies<'a>(
    alloc: Global,
    blocks: &[Block<'a>],
) -> Result<NameIndex<'a>, AllocError>
    ensures { IfOk result (λ i. (ts : List Template)
        → AreIndices 0 (map (λ b. b.name) (blocks_view ts blocks.now)) i.indices) }
{
    let mut firsts = NameIndex::new(alloc);
    let mut left = blocks.len();
    while left > 0 {
        left -= 1;
        firsts.put(blocks[left].name, left)?;
    }
    Ok(firsts)
}

/// Returns the definitions by their names. The first definition of a repeated name counts.
pub(crate) fn definitions_of<'a>(
    alloc: Global,
    given: &[DefinedName<'a>],
) -> Result<BTreeMap<&'a str, Definition<'a>>, AllocError>
    ensures { IfOk result (λ m. (ts : List Template) (h : chains.Namespace) (x : Text)
        → option_map (given_view ts h) (value_in m x)
        ≡ given_to x (names_view ts h given.now)) }
{
    let mut definitions = BTreeMap::new(alloc);
    let mut left = given.len();
    while left > 0 {
        left -= 1;
        let first = &given[left];
        set_entry(&mut definitions, first.name, first.given)?;
    }
    Ok(definitions)
}
