//! Sets of nodes as what is so at each node.

ghost use Rattle.std.specs.Prelude.{◌≡◌, ◌⊎◌, ◌↔◌, ◌<◌, ℕ, true, not};
ghost use Rattle.xdg_facts.specs.Rises.{has};
ghost use Rattle.xdg_problem.specs.Truths.{HasTruth};
ghost use Rattle.xdg_formula_value.specs.Rows.{Joined, open_in};

use xdg_base::NodeId;
use xdg_graph::up_to;
use xdg_nodeset::NodeSet;

/// All nodes that a sentence can have, or none.
pub(crate) fn constant(all: bool) -> NodeSet
    ensures { (v : ℕ) → v < 128 → has result v ≡ all }
{
    if all {
        return up_to(NodeId(127));
    }
    NodeSet::empty()
}

/// The nodes that a set hasn't.
pub(crate) fn opposite(set: NodeSet) -> NodeSet
    ensures { (v : ℕ) → v < 128 → has result v ≡ not (has set v) }
{
    constant(true).minus(&set)
}

/// A set, or the nodes that it hasn't.
pub(crate) fn told(truth: bool, set: NodeSet) -> NodeSet
    ensures { (v : ℕ) → v < 128 → HasTruth truth (has set v ≡ true) ↔ (has result v ≡ true) }
{
    if truth {
        return set;
    }
    opposite(set)
}

/// A set, with a node where something holds.
pub(crate) fn kept(set: NodeSet, node: u8, holds: bool) -> NodeSet
    requires { node < 128 }
    ensures { (v : ℕ) → (has result v ≡ true) ↔ ((has set v ≡ true) ⊎ ((v ≡ node) × (holds ≡ true))) }
{
    let mut more = set;
    if holds {
        more.insert(NodeId(node));
    }
    more
}

/// Those of some nodes at which two sets together are still open, where the first is known.
pub(crate) fn still_open(both: bool, care: NodeSet, set: NodeSet) -> NodeSet
    ensures { (v : ℕ) → has result v ≡ open_in both care set v }
{
    if both {
        return care.meet(&set);
    }
    care.minus(&set)
}

/// The nodes of both sets, or of either.
pub(crate) fn joined(both: bool, a: NodeSet, b: NodeSet) -> NodeSet
    ensures { (v : ℕ) → (has result v ≡ true) ↔ Joined both (has a v ≡ true) (has b v ≡ true) }
{
    if both {
        return a.meet(&b);
    }
    a.union(&b)
}
