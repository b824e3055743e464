//! Defines the nodes of an arena, and the links that lead to a node from the node below it.
ghost use Rattle.std.specs.Prelude.{◌≡◌, ◌≢◌, ◌+◌, ◌-◌, ◌*◌, ◌<◌, ◌≤◌, [], length, get_or};
ghost use Rattle.std.specs.Prelude.{slice_get, Some, MatchBool};
ghost use Rattle.jt_verify.specs.Arena.{kind_of, digit_of, lists_of, IsUnder, IsAt};
ghost use Rattle.jt_verify.specs.Arena.{AreJumps, AreLinks, Finding};

use jt_image::Kind;

/// An entry that is not a value.
#[derive(Clone, Copy, PartialEq, Eq)]
pub(crate) enum NonValue {
    Frame,
    Capture,
}

impl NonValue {
    /// Returns the kind of the entry.
    pub(crate) fn kind(self) -> Kind
        ensures { result ≡ kind_of self }
    {
        match self {
            NonValue::Frame => Kind::Frame,
            NonValue::Capture => Kind::Capture,
        }
    }
}

/// The id of a shape in an arena: `values` values on top of a node. Number 0 is no node: then
/// nothing lies below the values.
#[derive(Clone, Copy)]
pub(crate) struct ShapeId {
    pub(crate) values: u32,
    pub(crate) node: u32,
}

/// A link down to a lower node, or to number 0. It descends `over` nodes.
#[derive(Clone, Copy)]
pub(crate) struct SkipLink {
    pub(crate) to: u32,
    pub(crate) over: u32,
}

/// A node: an entry that is not a value, the shape below it, the height up to and with the entry,
/// and a skip link.
#[derive(Clone, Copy)]
pub(crate) struct Node {
    pub(crate) mark: NonValue,
    pub(crate) below: ShapeId,
    pub(crate) height: u32,
    pub(crate) jump: SkipLink,
}

impl Node {
    // Returns the placeholder for number 0.
    fn none() -> Node
        ensures { (result.height ≡ 0) × (result.jump.to ≡ 0) }
    {
        Node {
            mark: NonValue::Frame,
            below: ShapeId { values: 0, node: 0 },
            height: 0,
            jump: SkipLink { to: 0, over: 0 },
        }
    }
}

impl Default for Node {
    fn default() -> Node {
        Node::none()
    }
}

/// An entry that is not a value, on top of a shape.
#[derive(Clone, Copy)]
pub(crate) struct NonValueEntry {
    pub(crate) mark: NonValue,
    pub(crate) below: ShapeId,
}

/// The result of a lookup: a node, or the index of the vacant link that would lead to it.
#[derive(Clone, Copy)]
pub(crate) enum Link {
    To(u32),
    Vacant(usize),
}

/// Returns whether two shape ids are equal.
pub(crate) fn is_same(left: ShapeId, right: ShapeId) -> bool
    ensures { MatchBool result (left ≡ right) (left ≢ right) }
{
    left.values == right.values && left.node == right.node
}

/// Returns the node of a number, counted from 1.
pub(crate) fn node_at(nodes: &[Node], node: u32) -> Node
    requires some { 0 < node }
    requires within { node ≤ length nodes.now }
    ensures { slice_get nodes.now (node - 1) ≡ Some result }
{
    nodes[node as usize - 1]
}

/// Returns the node of a number. Number 0 has a placeholder with height 0 and no skip link down.
pub(crate) fn node_of(nodes: &[Node], node: u32) -> Node
    requires { node ≤ length nodes.now }
    ensures { IsAt nodes.now node result }
{
    if node == 0 {
        return Node::none();
    }
    node_at(nodes, node)
}

/// Returns the skip link for a new node on top of `below`. Two links of equal length merge into
/// one, so that a few steps lead from any node to any node below it.
pub(crate) fn jump_on(nodes: &[Node], below: u32) -> SkipLink
    requires within { below ≤ length nodes.now }
    requires jumps { AreJumps nodes.now }
    ensures older { result.to ≤ below }
    ensures under { IsUnder (lists_of nodes.now) result.to (get_or (lists_of nodes.now) below []) }
{
    let near = node_of(nodes, below).jump;
    let far = node_of(nodes, near.to).jump;
    if near.over == far.over {
        return SkipLink {
            to: far.to,
            over: far.over.saturating_mul(2).saturating_add(1),
        };
    }
    SkipLink { to: below, over: 1 }
}

// Returns the number of the node to which a link leads, or 0.
fn link_at(links: &[u32], index: usize) -> u32
    requires { index < length links.now }
    ensures { result ≡ get_or links.now index 0 }
{
    links[index]
}

// Returns whether a node is this entry on this shape.
fn is_entry(node: Node, wanted: NonValueEntry) -> bool
    ensures { MatchBool result ((node.mark ≡ wanted.mark) × (node.below ≡ wanted.below))
        (node.mark ≡ wanted.mark → node.below ≢ wanted.below) }
{
    node.mark == wanted.mark && is_same(node.below, wanted.below)
}

/// Returns the binary digits by which an entry is looked up among the entries on one node. The
/// lowest digit is its kind; the other digits are the number of values between.
pub(crate) fn digits(mark: NonValue, values: u32) -> usize
    ensures { result ≡ 2 * values + digit_of mark }
{
    match mark {
        NonValue::Frame => 2 * values as usize,
        NonValue::Capture => 2 * values as usize + 1,
    }
}

/// Looks up an entry on a shape, from the link at `index` on. At each node that is another entry,
/// the next digit selects the link to follow.
pub(crate) fn find(
    nodes: &[Node],
    links: &[u32],
    wanted: NonValueEntry,
    index: usize,
    digits: usize,
) -> Link
    requires links { AreLinks (length nodes.now) links.now }
    requires index { index < 3 * (length nodes.now + 1) }
    ensures { Finding nodes.now links.now wanted.mark wanted.below index digits result }
{
    let next = link_at(links, index);
    if next == 0 {
        return Link::Vacant(index);
    }
    let node = node_at(nodes, next);
    if is_entry(node, wanted) {
        return Link::To(next);
    }
    let further = 3 * next as usize + 1 + digits % 2;
    find(nodes, links, wanted, further, digits / 2)
}
