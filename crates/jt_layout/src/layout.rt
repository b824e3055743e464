//! Lays out the chains and libraries that an entry's includes and imports reach.

ghost use Rattle.std.specs.Prelude.{◌≡◌, ◌<◌, ◌+◌, length, IfOk};
ghost use Rattle.jt_ast.specs.Texts.{texts};
ghost use Rattle.jt_layout.specs.internal.Layouts.{StandsAt, IsLaidAt, its_names};
ghost use Rattle.jt_layout.specs.NamespaceLayout.{IsLaidOut};

use crate::collected::{gather, take_names};
use crate::count::checked_sum;
use crate::indices::{default_indices, namespace_index, next_bodies, scoped_blocks};
use crate::namespace_layout::NamespaceLayout;
use crate::namespace_tables::NamespaceTables;
use jt_chains::macro_names;
use jt_names::{ChainFacts, NameIndex};
use jt_value::NoMemory;
use std::alloc::Global;

/// The first slot, the first unit and the first pool index of a default that the chains before a
/// chain do not use.
#[derive(Clone, Copy)]
struct FirstFree {
    slot: usize,
    unit: usize,
    default: usize,
}

/// Lays out one chain or library. Returns its layout and the first free numbers after it.
fn lay_chain<'f, 'a>(
    alloc: Global,
    facts: &'f ChainFacts<'a>,
    namespace: usize,
    names: Vec<&'a str>,
    front: FirstFree,
) -> Result<(NamespaceLayout<'f, 'a>, FirstFree), NoMemory>
    requires stands { namespace < length facts.now.chain.now.namespaces.items }
    requires named { texts names.items ≡ its_names facts.now.chain.now namespace }
    requires front { StandsAt facts.now.chain.now namespace front }
    ensures namespace_layout { IfOk result (λ p. IsLaidAt facts.now.chain.now namespace p.0) }
    ensures behind { IfOk result (λ p. StandsAt facts.now.chain.now (namespace + 1) p.1) }
{
    let itself = &facts.chain.namespaces[namespace];
    let known = &facts.namespaces[namespace];
    let slots = NameIndex::of(alloc, &names, front.slot)?;
    let macros = macro_names(alloc, &known.macros)?;
    let called = NameIndex::of(alloc, &macros, 0)?;
    let (defaults, default) = default_indices(alloc, &known.macros, front.default)?;
    let next_bodies = next_bodies(alloc, &known.blocks)?;
    let scoped = scoped_blocks(alloc, &known.blocks)?;
    // A library is never rendered, so it has no unit of its own.
    let macro_unit = checked_sum(front.unit, usize::from(!itself.is_library))?;
    let body_unit = checked_sum(macro_unit, known.macros.len())?;
    let behind = FirstFree {
        slot: checked_sum(front.slot, names.len())?,
        unit: checked_sum(body_unit, known.blocks.len())?,
        default,
    };
    let namespace_layout = NamespaceLayout {
        is_library: itself.is_library,
        known,
        names,
        slots,
        first_slot: front.slot,
        unit: front.unit,
        macro_unit,
        body_unit,
        called,
        defaults,
        next_bodies,
        scoped,
    };
    Ok((namespace_layout, behind))
}

/// Lays out the chains and libraries in order. The entry's chain is selected.
///
/// # Errors
///
/// `NoMemory` if a growth is refused or a number overflows.
pub fn lay_out<'f, 'a>(
    alloc: Global,
    facts: &'f ChainFacts<'a>,
) -> Result<NamespaceTables<'f, 'a>, NoMemory>
    ensures namespace_layout { IfOk result (λ tables. IsLaidOut tables) }
    ensures chain { IfOk result (λ tables. tables.chain.now ≡ facts.now.chain.now) }
    ensures first { IfOk result (λ tables. tables.namespace ≡ 0) }
    ensures all { IfOk result (λ tables.
        length tables.namespaces.items ≡ length facts.now.chain.now.namespaces.items) }
{
    let chain = facts.chain;
    let indices = namespace_index(alloc, &chain.namespaces, false)?;
    let libraries = namespace_index(alloc, &chain.namespaces, true)?;
    let mut collected = gather(alloc, facts)?;
    let mut namespaces = Vec::with_capacity(alloc, chain.namespaces.len())?;
    let mut front = FirstFree {
        slot: 0,
        unit: 0,
        default: 1,
    };
    for namespace in 0..chain.namespaces.len() {
        let names = take_names(alloc, &mut collected, &chain.namespaces[namespace]);
        let (laid, behind) = lay_chain(alloc, facts, namespace, names, front)?;
        namespaces.push(laid)?;
        front = behind;
    }
    Ok(NamespaceTables {
        chain,
        namespaces,
        indices,
        libraries,
        units: front.unit,
        namespace: 0,
    })
}
