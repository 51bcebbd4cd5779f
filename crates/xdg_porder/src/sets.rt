//! Sets of nodes by where they stand.

ghost use Rattle.std.specs.Prelude.{◌≡◌, ◌<◌, ◌≤◌, ◌↔◌, ℕ, true, IsTrue};
ghost use Rattle.xdg_nodeset.specs.Tables.{InTable};
ghost use Rattle.xdg_facts.specs.Rises.{has};
ghost use Rattle.xdg_porder.specs.Across.{Crosses};

use xdg_base::NodeId;
use xdg_graph::{set_at, up_to};
use xdg_nodeset::NodeSet;

/// Whether a set has no node.
pub(crate) fn is_empty(set: NodeSet) -> bool
    ensures { IsTrue result ↔ ((v : ℕ) → has set v ≡ true → ⊥) }
{
    match set.first() {
        Some(_) => false,
        None => true,
    }
}

/// The nodes from one on.
fn from(node: NodeId) -> NodeSet
    requires { node.0 < 128 }
    ensures { (v : ℕ) → (has result v ≡ true) ↔ ((node.0 ≤ v) × (v < 128)) }
{
    let mut nodes = NodeSet::between(node, NodeId(127));
    nodes.insert(node);
    nodes.insert(NodeId(127));
    nodes
}

/// The nodes at or left of one of some nodes.
pub(crate) fn left_of(ends: NodeSet) -> NodeSet
    ensures { (v : ℕ) → (has result v ≡ true) ↔ ((w : ℕ) × (has ends w ≡ true) × (v ≤ w)) }
{
    match ends.iter().next_back() {
        Some(end) => up_to(end),
        None => NodeSet::empty(),
    }
}

/// The nodes at or right of one of some nodes.
pub(crate) fn right_of(ends: NodeSet) -> NodeSet
    ensures { (v : ℕ) → (has result v ≡ true) ↔ ((w : ℕ) × (has ends w ≡ true) × ((w ≤ v) × (v < 128))) }
{
    match ends.first() {
        Some(end) => from(end),
        None => NodeSet::empty(),
    }
}

/// The nodes that a table has for some nodes.
pub(crate) fn all_below(nodes: NodeSet, table: &[NodeSet; 128]) -> NodeSet
    ensures { (x : ℕ) → (has result x ≡ true) ↔ ((v : ℕ) × (has nodes v ≡ true) × InTable table.now v x) }
{
    let mut below = NodeSet::empty();
    for node in nodes.iter() {
        below = below.union(&set_at(table, node));
    }
    below
}

/// Those of some nodes between which and u a node is none of them.
pub(crate) fn crossed(u: NodeId, reached: NodeSet) -> NodeSet
    requires { u.0 < 128 }
    ensures { (x : ℕ) → (has result x ≡ true) ↔ ((x < 128) × (has reached x ≡ true) × Crosses u.0 reached x) }
{
    let mut known = reached;
    known.insert(u);
    let right = right_of(from(u).minus(&known));
    let left = left_of(up_to(u).minus(&known));
    left.union(&right).meet(&reached)
}
