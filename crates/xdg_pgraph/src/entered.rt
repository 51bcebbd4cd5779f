//! The nodes into which edges lead.

ghost use Rattle.std.specs.Prelude.{◌≡◌, ◌<◌, ◌==◌, ◌↔◌, ◌||◌, ◌&&◌, ℕ, IsTrue, List, Contains};
ghost use Rattle.xdg_facts.specs.Rises.{has};
ghost use Rattle.xdg_problem.specs.declared.analysis.Edge.{Edge as Arrow};
ghost use Rattle.xdg_problem.specs.Paths.{roots};
ghost use Rattle.xdg_store.specs.States.{Known};
ghost use Rattle.xdg_graph.specs.Edges.{edges_of};
ghost use Rattle.xdg_pgraph.specs.Entering.{Enters, Tells, Leaving, Labelled, more_of, some_of};
ghost use Rattle.xdg_pgraph.specs.Planes.{IsPlane};
ghost use Rattle.xdg_pgraph.specs.Seeking.{RootsAre};

use crate::bundle::{Bundle, Way, ends};
use crate::plane::Plane;
use xdg_base::NodeId;
use xdg_graph::Which;
use xdg_nodeset::NodeSet;
use xdg_store::Store;

/// How many edges lead into a node.
#[derive(Clone, Copy, Debug)]
pub(crate) enum Count {
    /// No edge.
    Nothing,
    /// One edge alone.
    One,
    /// More than one edge.
    More,
}

/// The nodes into which some edges lead: one at least, and more than one.
#[derive(Clone, Copy, Debug)]
pub(crate) struct Entered {
    pub some: NodeSet,
    pub more: NodeSet,
}

impl Entered {
    /// No edge leads anywhere.
    pub(crate) fn nowhere() -> Entered
        ensures { Tells (λ (e : Arrow). ⊥) result }
    {
        Entered {
            some: NodeSet::empty(),
            more: NodeSet::empty(),
        }
    }

    /// With a node into which so many edges lead.
    pub(crate) fn with(&self, node: &NodeSet, count: Count) -> Entered
        ensures some { (n : ℕ) → has result.some n ≡ (has self.now.some n || (has node.now n && some_of count)) }
        ensures more { (n : ℕ) → has result.more n ≡ (has self.now.more n || (has node.now n && more_of count)) }
    {
        match count {
            Count::Nothing => *self,
            Count::One => Entered {
                some: self.some.union(node),
                more: self.more,
            },
            Count::More => Entered {
                some: self.some.union(node),
                more: self.more.union(node),
            },
        }
    }

    /// What other edges add.
    fn merged(&self, other: &Entered) -> Entered
        ensures some { (n : ℕ) → has result.some n ≡ (has self.now.some n || has other.now.some n) }
        ensures more { (n : ℕ) → has result.more n ≡ (has self.now.more n || (has other.now.more n || (has self.now.some n && has other.now.some n))) }
    {
        Entered {
            some: self.some.union(&other.some),
            more: self
                .more
                .union(&other.more.union(&self.some.meet(&other.some))),
        }
    }
}

/// What the edges with a label out of a node lead to.
fn entered_with(store: &Store, plane: &Plane, which: Which, mother: u8, label: u8) -> Entered
    requires plane { IsPlane store.now.parts plane.now }
    requires known { Known store.now }
    requires mother { mother < plane.now.nodes }
    ensures { Tells (Labelled (edges_of which store.now.parts store.now.now plane.now.dim.0) mother label) result }
{
    let bundle = Bundle {
        way: Way::Out,
        node: mother,
        label,
    };
    Entered {
        some: ends(store, plane, which, bundle),
        more: NodeSet::empty(),
    }
}

/// What the edges out of a node lead to.
pub(crate) fn entered_from(store: &Store, plane: &Plane, which: Which, mother: u8) -> Entered
    requires plane { IsPlane store.now.parts plane.now }
    requires known { Known store.now }
    requires mother { mother < plane.now.nodes }
    ensures { Tells (Leaving (edges_of which store.now.parts store.now.now plane.now.dim.0) mother) result }
{
    let mut entered = Entered::nowhere();
    for label in 0..plane.labels {
        entered = entered.merged(&entered_with(store, plane, which, mother, label));
    }
    entered
}

/// The set of one node.
pub(crate) fn alone(node: u8) -> NodeSet
    requires { node < 128 }
    ensures { (n : ℕ) → has result n ≡ (n == node) }
{
    let mut nodes = NodeSet::empty();
    nodes.insert(NodeId(node));
    nodes
}

/// Nodes without mother.
#[derive(Clone, Copy, Debug)]
pub(crate) enum Roots {
    /// No node.
    Nothing,
    /// This node alone.
    One(u8),
    /// More than one node.
    More,
}

/// The nodes into which no edge leads, by those into which some do.
pub(crate) fn find_roots(store: &Store, plane: &Plane, some: &NodeSet) -> Roots
    requires plane { IsPlane store.now.parts plane.now }
    ensures { (edges : List Arrow) → ((n : ℕ) → IsTrue (has some.now n) ↔ Enters (Contains edges) n) → RootsAre (roots plane.now.nodes edges) result }
{
    let nodes = store.all_nodes().minus(some);
    let Some(root) = nodes.first() else {
        return Roots::Nothing;
    };
    if nodes.len() > 1 {
        return Roots::More;
    }
    Roots::One(root.0)
}
