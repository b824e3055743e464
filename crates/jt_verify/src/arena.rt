//! Stores the shapes of a unit, each once.
ghost use Rattle.std.specs.Prelude.{◌≡◌, ℕ, List, ◌+◌, ◌-◌, ◌^◌, ◌<◌, ◌≤◌, [], ◌∷◌, ◌++◌, length};
ghost use Rattle.std.specs.Prelude.{slice_get, slice_set, IfOk, OnOk, OnErr};
ghost use Rattle.jt_image.specs.Effect.{may_return, pushes};
ghost use Rattle.jt_image.specs.Typed.{max_entries};
ghost use Rattle.jt_verify.specs.Entries.{values_on, without_values};
ghost use Rattle.jt_verify.specs.Arena.{TellsEqual, shape_in, IsIn, Holds, IsAdded};
ghost use Rattle.jt_verify.specs.Arena.{IsKept, StandsFor, Pops, PopsMany, kind_of};
ghost use Rattle.jt_verify.specs.Arena.{lists_of, IsArena};

use crate::nodes::{
    Link, Node, NonValue, NonValueEntry, ShapeId, digits, find, is_same, jump_on, node_at, node_of,
};
use jt_image::{Flaw, Kind};
use smallvec::SmallVec;
use std::alloc::{AllocError, Global};
use std::marker::Model;

/// The shapes of a unit, each stored once. Contracts see the shape of each node.
#[derive(Drop)]
pub(crate) struct Arena {
    nodes: SmallVec<Node, 32>,
    // Three links for each node and for number 0. One leads to the first entry on the node, and two
    // lead to further entries on the node below it.
    links: SmallVec<u32, 128>,
}

impl Model for Arena {
    ghost use Rattle.std.specs.Prelude.{List};
    ghost use Rattle.jt_image.specs.declared.kind.Kind.{Kind};

    ghost Value = { List (List Kind) };

    ghost use Rattle.jt_verify.specs.Arena.{lists_of, IsArena};

    ghost view = { λ a. lists_of a.nodes.items };

    ghost invariant = { λ a. IsArena a.nodes.items a.links.items };
}

impl Arena {
    /// Returns the arena of the empty shape.
    pub(crate) fn new(alloc: Global) -> Result<Arena, AllocError>
        ensures { IfOk result (λ a. a ≡ [] ∷ []) }
    {
        Ok(Arena {
            nodes: SmallVec::new(alloc),
            links: SmallVec::from_slice(alloc, &[0; 3])?,
        })
    }

    /// Returns the number of entries of a shape.
    pub(crate) fn height(&self, shape: ShapeId) -> usize
        requires { IsIn self.now shape }
        ensures length { result ≡ length (shape_in self.now shape) }
        ensures fits { result < 2 ^ 33 }
    {
        shape.values as usize + node_of(self.nodes.as_slice(), shape.node).height as usize
    }

    /// Returns whether two shapes are equal.
    pub(crate) fn is_equal(&self, left: ShapeId, right: ShapeId) -> bool
        requires left { IsIn self.now left }
        requires right { IsIn self.now right }
        ensures { TellsEqual (shape_in self.now left) (shape_in self.now right) result }
    {
        // The prover needs this read, which shows the arena's invariant.
        let _nodes = &self.nodes;
        is_same(left, right)
    }

    /// Returns the top entry of a shape, and the shape below it.
    pub(crate) fn pop(&self, shape: ShapeId) -> Option<(Kind, ShapeId)>
        requires { IsIn self.now shape }
        ensures { Pops self.now (shape_in self.now shape) result }
    {
        let nodes = self.nodes.as_slice();
        if shape.values > 0 {
            return Some((
                Kind::Value,
                ShapeId {
                    values: shape.values - 1,
                    node: shape.node,
                },
            ));
        }
        if shape.node == 0 {
            return None;
        }
        let node = node_at(nodes, shape.node);
        Some((node.mark.kind(), node.below))
    }

    /// Returns the shape below the top `count` values, or a flaw if they are not all values.
    pub(crate) fn pop_values(&self, shape: ShapeId, count: usize) -> Result<ShapeId, Flaw>
        requires { IsIn self.now shape }
        ensures { PopsMany self.now count (shape_in self.now shape) result }
    {
        // The prover needs this read, which shows the arena's invariant.
        let _nodes = &self.nodes;
        if count <= shape.values as usize {
            return Ok(ShapeId {
                values: shape.values - count as u32,
                node: shape.node,
            });
        }
        if shape.node == 0 {
            return Err(Flaw::MissingOperand);
        }
        Err(Flaw::WrongKind)
    }

    /// Returns the number of values above the uppermost loop or capture.
    pub(crate) fn values(&self, shape: ShapeId) -> u32
        requires { IsIn self.now shape }
        ensures { result ≡ values_on (shape_in self.now shape) }
    {
        // The prover needs this read, which shows the arena's invariant.
        let _nodes = &self.nodes;
        shape.values
    }

    /// Returns the shape from the uppermost loop or capture down.
    pub(crate) fn without_values(&self, shape: ShapeId) -> ShapeId
        requires { IsIn self.now shape }
        ensures { Holds self.now result (without_values (shape_in self.now shape)) }
    {
        // The prover needs this read, which shows the arena's invariant.
        let _nodes = &self.nodes;
        ShapeId {
            values: 0,
            node: shape.node,
        }
    }

    /// Returns a shape with `count` more values on top. It has at most one entry more than a shape
    /// may have.
    pub(crate) fn push_values(&self, shape: ShapeId, count: u32) -> ShapeId
        requires within { IsIn self.now shape }
        requires small { length (shape_in self.now shape) + count ≤ max_entries + 1 }
        ensures { Holds self.now result (pushes count (shape_in self.now shape)) }
    {
        ShapeId {
            values: shape.values + count,
            node: shape.node,
        }
    }

    /// Returns the kind of the entry that lies below `above` others.
    pub(crate) fn kind_below(&self, shape: ShapeId, above: u32) -> Option<Kind>
        requires { IsIn self.now shape }
        ensures { result ≡ slice_get (shape_in self.now shape) above }
    {
        kind_in(self.nodes.as_slice(), shape, above)
    }

    /// Pushes an entry that is not a value onto a shape that is not full. All earlier shapes are
    /// kept.
    pub(crate) fn push(&mut self, shape: ShapeId, mark: NonValue) -> Result<ShapeId, AllocError>
        requires within { IsIn self.old shape }
        requires small { length (shape_in self.old shape) < max_entries }
        ensures ok { IfOk result
            (λ h. Holds self.new h (kind_of mark ∷ shape_in self.old shape)) }
        ensures kept { IsKept self.old self.new }
    {
        let height = self.height(shape) as u32 + 1;
        let node = push_in(&mut self.nodes, &mut self.links, shape, mark, height)?;
        Ok(ShapeId { values: 0, node })
    }
}

// Returns the kind of the entry that lies below `above` others, from the nodes of an arena.
fn kind_in(nodes: &[Node], shape: ShapeId, above: u32) -> Option<Kind>
    requires arena { (ls : List ℕ) × IsArena nodes.now ls }
    requires within { IsIn (lists_of nodes.now) shape }
    ensures { result ≡ slice_get (shape_in (lists_of nodes.now) shape) above }
{
    let mut rest = shape;
    let mut left = above;
    'marks: while left >= rest.values && rest.node != 0 {
        let node = node_at(nodes, rest.node);
        let under = left - rest.values;
        if under == 0 {
            return Some(node.mark.kind());
        }
        let between = node.height - node_of(nodes, node.jump.to).height;
        if under >= between {
            left = under - between;
            rest = ShapeId {
                values: 0,
                node: node.jump.to,
            };
        } else {
            left = under - 1;
            rest = node.below;
        }
    }
    if left < rest.values {
        Some(Kind::Value)
    } else {
        None
    }
}

// Returns the number of the node for an entry on a shape. Adds the node unless it exists.
fn push_in(
    nodes: &mut SmallVec<Node, 32>,
    links: &mut SmallVec<u32, 128>,
    shape: ShapeId,
    mark: NonValue,
    height: u32,
) -> Result<u32, AllocError>
    requires arena { IsArena nodes.old.items links.old.items }
    requires within { IsIn (lists_of nodes.old.items) shape }
    requires height { height ≡ length (shape_in (lists_of nodes.old.items) shape) + 1 }
    ensures arena { IsArena nodes.new.items links.new.items }
    ensures kept { IsKept (lists_of nodes.old.items) (lists_of nodes.new.items) }
    ensures node { IfOk result (λ k. StandsFor (lists_of nodes.new.items) k
        (kind_of mark ∷ shape_in (lists_of nodes.old.items) shape)) }
{
    match find(
        nodes.as_slice(),
        links.as_slice(),
        NonValueEntry { mark, below: shape },
        3 * shape.node as usize,
        digits(mark, shape.values),
    ) {
        Link::To(node) => Ok(node),
        Link::Vacant(index) => {
            let below = shape;
            let jump = jump_on(nodes.as_slice(), below.node);
            let added = Node {
                mark,
                below,
                height,
                jump,
            };
            let node = add(nodes, links, added, index)?;
            Ok(node)
        }
    }
}

// Adds a node, lets the link at `index` lead to it, and returns its number.
fn add(
    nodes: &mut SmallVec<Node, 32>,
    links: &mut SmallVec<u32, 128>,
    added: Node,
    index: usize,
) -> Result<u32, AllocError>
    requires { index < length links.old.items }
    ensures ok { IfOk result (λ k.
        IsAdded nodes.old.items nodes.new.items links.old.items links.new.items added index k) }
    ensures err { OnErr result
        ((nodes.new.items ≡ nodes.old.items) × (links.new.items ≡ links.old.items)) }
{
    let Ok(last) = u32::try_from(nodes.len()) else {
        return Err(AllocError);
    };
    let Some(node) = last.checked_add(1) else {
        return Err(AllocError);
    };
    nodes.reserve(1)?;
    links.extend_from_slice(&[0; 3])?;
    nodes.push_reserved(added);
    links[index] = node;
    Ok(node)
}
