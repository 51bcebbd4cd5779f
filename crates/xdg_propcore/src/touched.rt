//! What has lost values.

ghost use Rattle.std.specs.Prelude.{◌≡◌, ℕ, ◌<◌, true, length};
ghost use Rattle.xdg_facts.specs.Rises.{has};
ghost use Rattle.xdg_store.specs.States.{Known};
ghost use Rattle.xdg_propcore.specs.Standing.{box_at};
ghost use Rattle.xdg_propcore.specs.Touching.{Grows, HasAll, HasTouched, IsSmall, Marks};
ghost use Rattle.xdg_nodeset.specs.Tables.{InTable};

use xdg_base::{DimId, LabelId, NodeId};
use xdg_nodeset::NodeSet;
use xdg_store::{Decision, Mark, Store};

/// The nodes that have lost values, by what was lost of them: entries, values of attributes on a dimension, or values of its edges.
#[derive(Clone, Copy, Debug)]
pub struct Touched {
    /// The nodes that have lost an entry.
    pub entries: NodeSet,
    /// The nodes that have lost a value of an attribute.
    pub attrs: NodeSet,
    /// The nodes that have lost a value of an edge out of them.
    pub mothers: NodeSet,
    /// The nodes that have lost a value of an edge into them.
    pub daughters: NodeSet,
    /// For each label the nodes that have lost a value of an edge with it out of them.
    pub out: [NodeSet; 32],
    /// For each label the nodes that have lost a value of an edge with it into them.
    pub into: [NodeSet; 32],
}

/// A set with a node more.
#[tactic(auto, using(crate::proofs::Touches::with_here, crate::proofs::Touches::with_stays))]
fn with_node(nodes: NodeSet, node: NodeId) -> NodeSet
    requires { node.0 < 128 }
    ensures here { has result node.0 ≡ true }
    ensures stays { (n : ℕ) → has nodes n ≡ true → has result n ≡ true }
{
    let mut more = nodes;
    more.insert(node);
    more
}

/// Adds a node to one of the sets of a table.
#[tactic(auto, using(crate::proofs::Touches::entry_here, crate::proofs::Touches::entry_stays))]
fn insert(table: &mut [NodeSet; 32], label: LabelId, node: NodeId)
    requires label { label.0 < 32 }
    requires node { node.0 < 128 }
    ensures here { InTable table.new label.0 node.0 }
    ensures stays { (l n : ℕ) → InTable table.old l n → InTable table.new l n }
{
    let place = usize::from(label.0);
    table[place] = with_node(table[place], node);
}

impl Touched {
    /// No node.
    #[inline(always)]
    pub fn none() -> Touched {
        let none = NodeSet::empty();
        Touched {
            entries: none,
            attrs: none,
            mothers: none,
            daughters: none,
            out: [none; 32],
            into: [none; 32],
        }
    }

    /// All nodes, of all.
    pub fn all() -> Touched
        ensures { HasAll result }
    {
        let all = NodeSet::from_words(u64::MAX, u64::MAX);
        Touched {
            entries: all,
            attrs: all,
            mothers: all,
            daughters: all,
            out: [all; 32],
            into: [all; 32],
        }
    }

    /// Adds the nodes of a decision, if it is one on an entry, or on an attribute or an edge of the dimension.
    fn add(&mut self, dim: DimId, decision: Decision)
        requires { IsSmall decision }
        ensures grows { Grows self.old self.new }
        ensures marks { Marks self.new dim.0 decision }
    {
        match decision {
            Decision::Entry(node) => {
                self.entries = with_node(self.entries, node);
            }
            Decision::Attr(on, node, _) => {
                if on.0 != dim.0 {
                    return;
                }
                self.attrs = with_node(self.attrs, node);
            }
            Decision::Place(edge) => {
                if edge.dim.0 != dim.0 {
                    return;
                }
                self.mothers = with_node(self.mothers, edge.mother);
                self.daughters = with_node(self.daughters, edge.daughter);
                insert(&mut self.out, edge.label, edge.mother);
                insert(&mut self.into, edge.label, edge.daughter);
            }
        }
    }

    /// Adds those that have lost values since a mark, of attributes and edges of a dimension. The table is large, so it is filled where it is.
    pub fn gather(&mut self, store: &Store, since: Mark, dim: DimId)
        requires { since < length store.now.history }
        ensures touched { HasTouched store.now.parts dim.0 (box_at store.now since) store.now.now self.new }
        ensures known { Known store.now }
    {
        let removed = store.removed_since(since);
        for decision in removed {
            self.add(dim, *decision);
        }
    }
}
