//! The edges near which something was lost.

ghost use Rattle.std.specs.Prelude.{◌≡◌, ◌<◌, ℕ, true, false};
ghost use Rattle.xdg_facts.specs.Rises.{has};
ghost use Rattle.xdg_problem.specs.Places.{nodes};
ghost use Rattle.xdg_problem.specs.Problems.{IsGroup};
ghost use Rattle.xdg_rules.specs.Rules.{IsClosedFor};
ghost use Rattle.xdg_store.specs.States.{Known};
ghost use Rattle.xdg_propcore.specs.Standing.{Held, HeldIf};
ghost use Rattle.xdg_graph.specs.Edges.{edge_labels};
ghost use Rattle.xdg_plink.specs.Family.{IsLinking};
ghost use Rattle.xdg_plink.specs.Untouched.{AreNear, AreOthersDone, HasJoins, HasLinks, IsFree};

use crate::asking::asks_edges;
use crate::way::way_of;
use xdg_base::{DimId, LabelId, NodeId};
use xdg_nodeset::NodeSet;
use xdg_problem::{Group, Linking, dim_of};
use xdg_propcore::Touched;
use xdg_store::{Mark, Store};

/// Edges of the first dimension: all out of some nodes, and those from some nodes to some others.
#[derive(Clone, Copy, Debug)]
pub struct Near {
    /// The nodes out of which all lead.
    pub mothers: NodeSet,
    /// The nodes from which those to `ends` lead.
    pub starts: NodeSet,
    /// The nodes to which those from `starts` lead.
    pub ends: NodeSet,
}

/// All nodes.
#[tactic(auto, using(xdg_propcore::proofs::Touches::words_all))]
fn every() -> NodeSet
    ensures { (n : ℕ) → n < 128 → has result n ≡ true }
{
    NodeSet::from_words(u64::MAX, u64::MAX)
}

impl Near {
    /// All edges.
    fn all() -> Near
        ensures { (u v : ℕ) → u < 128 → IsFree result u v → ⊥ }
    {
        Near {
            mothers: every(),
            starts: NodeSet::empty(),
            ends: NodeSet::empty(),
        }
    }

    /// Whether there are none.
    pub(crate) fn is_empty(&self) -> bool
        ensures { result ≡ true → (u v : ℕ) → IsFree self.now u v }
    {
        self.mothers.union(&self.ends).len() == 0
    }

    /// Whether there may be some out of a node.
    pub(crate) fn leads_from(&self, node: NodeId) -> bool
        requires { node.0 < 128 }
        ensures { result ≡ false → (v : ℕ) → IsFree self.now node.0 v }
    {
        if self.mothers.contains(node) {
            return true;
        }
        if self.ends.len() == 0 {
            return false;
        }
        self.starts.contains(node)
    }

    /// The daughters of a node by those of them with a label that may be present, and maybe more.
    pub(crate) fn daughters(
        &self,
        store: &Store,
        dim: DimId,
        node: NodeId,
        label: LabelId,
    ) -> NodeSet
        requires known { Known store.now }
        requires node { node.0 < nodes store.now.parts }
        requires label { label.0 < edge_labels store.now.parts dim.0 }
        ensures { AreNear self.now store.now.parts store.now.now dim.0 node.0 label.0 result }
    {
        let daughters = store.daughters_may(dim, node, label);
        if self.mothers.contains(node) {
            return daughters;
        }
        daughters.meet(&self.ends)
    }
}

/// Those whose nodes a path may have linked that was lost: all, where an edge was lost.
fn near_paths(lost: &Touched) -> Near
    ensures { (u v : ℕ) → u < 128 → IsFree result u v → (has lost.now.entries u ≡ true → ⊥) × ((x : ℕ) → has lost.now.daughters x ≡ true → ⊥) }
{
    let none = NodeSet::empty();
    if lost.daughters.len() == 0 {
        return Near {
            mothers: lost.entries,
            starts: none,
            ends: none,
        };
    }
    Near::all()
}

/// Those at which a way of linking may take more, by what was lost of entries and of edges of the second dimension.
fn near_links(way: Linking, lost: &Touched) -> Near
    ensures { HasLinks result way lost.now }
{
    let nodes = every();
    match way {
        Linking::End => Near {
            mothers: lost.entries,
            starts: nodes,
            ends: lost.daughters,
        },
        Linking::Daughter => Near {
            mothers: lost.entries,
            starts: lost.mothers,
            ends: lost.daughters,
        },
        Linking::Mother => Near {
            mothers: lost.entries,
            starts: lost.daughters,
            ends: lost.mothers,
        },
        Linking::BelowStart => near_paths(lost),
        Linking::AboveStart => near_paths(lost),
        Linking::Sisters => Near {
            mothers: lost.entries.union(&lost.daughters),
            starts: nodes,
            ends: lost.daughters,
        },
    }
}

/// Those at which a principle that keeps edges apart may take more, by what was lost of both dimensions.
fn near_joins(first: &Touched, second: &Touched) -> Near
    ensures { HasJoins result first.now second.now }
{
    let starts = first.mothers.union(&second.mothers);
    let ends = first.daughters.union(&second.daughters);
    Near {
        mothers: second.entries,
        starts,
        ends,
    }
}

/// Those at which a principle use may take something that took nothing at a mark.
fn near_lost(store: &Store, group: &Group, mark: Mark) -> Near
    requires known { Known store.now }
    requires group { IsGroup store.now.parts group.now }
    requires family { IsLinking group.now.principle }
    requires held { Held (λ parts box. IsClosedFor parts group.now box) store.now mark }
    ensures { AreOthersDone result store.now.parts group.now store.now.now }
{
    let second_dim = dim_of(group, 1);
    let mut second = Touched::none();
    second.gather(store, mark, second_dim);
    if asks_edges(&group.principle) {
        return near_links(way_of(&group.principle), &second);
    }
    let first_dim = dim_of(group, 0);
    let mut first = Touched::none();
    first.gather(store, mark, first_dim);
    near_joins(&first, &second)
}

/// Those at which a principle use may take something that took nothing at a mark, or all, if there is none.
#[tactic(auto, using(crate::proofs::Others::others_none))]
pub(crate) fn near_since(store: &Store, group: &Group, since: &Option<Mark>) -> Near
    requires known { Known store.now }
    requires group { IsGroup store.now.parts group.now }
    requires family { IsLinking group.now.principle }
    requires held { HeldIf (λ parts box. IsClosedFor parts group.now box) store.now since.now }
    ensures { AreOthersDone result store.now.parts group.now store.now.now }
{
    match *since {
        Some(mark) => near_lost(store, group, mark),
        None => Near::all(),
    }
}
