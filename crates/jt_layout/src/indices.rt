//! Indexes chains and libraries by their names, and the macros and the bodies of one of them.

ghost use Rattle.std.specs.Prelude.{◌≡◌, ◌+◌, ◌&&◌, List, length, map, IfOk};
ghost use Rattle.std.specs.List.{list_any};
ghost use Rattle.std.specs.Option.{is_some};
ghost use Rattle.std.specs.Str.{bytes_eq};
ghost use Rattle.jt_ast.specs.Expressions.{Text};
ghost use Rattle.jt_chains.specs.Chain.{Template};
ghost use Rattle.jt_chains.specs.Parts.{block_view, macro_view};
ghost use Rattle.jt_chains.specs.TemplateFiles.{namespace_view};
ghost use Rattle.jt_semantics.specs.Layout.{counted_from, defaults_of};
ghost use Rattle.jt_names.specs.Names.{value_in};
ghost use Rattle.jt_layout.specs.internal.Layouts.{namespace_named, first_namespace};
ghost use Rattle.jt_layout.specs.internal.Layouts.{defaults_from, nexts};

use crate::count::checked_sum;
use jt_chains::{Block, Macro, Namespace};
use jt_names::NameIndex;
use jt_value::NoMemory;
use std::alloc::Global;

/// Returns the indices by name of the libraries if `libraries` is true, or of the chains otherwise.
/// A chain and a library may have the same name.
pub(crate) fn namespace_index<'a>(
    alloc: Global,
    namespaces: &'a [Namespace],
    libraries: bool,
) -> Result<NameIndex<'a>, NoMemory>
    ensures { IfOk result (λ i. (x : Text)
        → value_in i.indices x
        ≡ first_namespace (namespace_named libraries x) 0 (map namespace_view namespaces.now)) }
{
    let mut indices = NameIndex::new(alloc);
    for index in (0..namespaces.len()).rev() {
        let namespace = &namespaces[index];
        if namespace.is_library != libraries {
            continue;
        }
        indices.put(namespace.name.as_str(), index)?;
    }
    Ok(indices)
}

/// Returns the pool index of each macro's first default, from `first` on, and the first index after
/// all defaults.
pub(crate) fn default_indices(
    alloc: Global,
    macros: &[Macro<'_>],
    first: usize,
) -> Result<(Vec<usize>, usize), NoMemory>
    ensures indexed { IfOk result (λ d. (ts : List Template)
        → d.0.items ≡ defaults_from first (map (macro_view ts) macros.now)) }
    ensures ended { IfOk result (λ d. (ts : List Template)
        → d.1 ≡ first + length (defaults_of (map (macro_view ts) macros.now))) }
{
    let mut indices = Vec::with_capacity(alloc, macros.len())?;
    let mut end = first;
    for entry in macros {
        indices.push(end)?;
        end = checked_sum(end, entry.parameters.len())?;
    }
    Ok((indices, end))
}

/// Returns for each body the index of the next body of its block that is not required.
pub(crate) fn next_bodies(
    alloc: Global,
    blocks: &[Block<'_>],
) -> Result<Vec<Option<usize>>, NoMemory>
    ensures { IfOk result (λ ns.
        (ts : List Template) → ns.items ≡ nexts (counted_from 0 (map (block_view ts) blocks.now))) }
{
    let mut given = NameIndex::new(alloc);
    let mut next = vec![in alloc; None; blocks.len()]?;
    for index in (0..blocks.len()).rev() {
        let block = &blocks[index];
        next[index] = given.index_of(block.name);
        if block.required {
            continue;
        }
        given.put(block.name, index)?;
    }
    Ok(next)
}

/// Returns the names of the blocks that have a `scoped` tag.
pub(crate) fn scoped_blocks<'a>(
    alloc: Global,
    blocks: &[Block<'a>],
) -> Result<NameIndex<'a>, NoMemory>
    ensures { IfOk result (λ i. (ts : List Template) (x : Text)
        → is_some (value_in i.indices x)
        ≡ list_any (λ b. b.scoped && bytes_eq b.name x) (map (block_view ts) blocks.now)) }
{
    let mut scoped = NameIndex::new(alloc);
    for block in blocks {
        if !block.scoped {
            continue;
        }
        scoped.put(block.name, 0)?;
    }
    Ok(scoped)
}
