//! An analysis of a sentence.

ghost use Rattle.std.specs.Prelude.{◌↔◌, IsTrue};
ghost use Rattle.xdg_problem.specs.Analyses.{Before};
ghost use Rattle.xdg_problem.specs.EdgeOrder.{IsEdgeOrder};

use xdg_base::{DimId, EntryNo, LabelId, List, NodeId};

/// A labelled edge of one dimension, from mother to daughter.
#[derive(Clone, Copy, Debug)]
pub struct Edge {
    pub dim: DimId,
    pub mother: NodeId,
    pub label: LabelId,
    pub daughter: NodeId,
}

/// A multigraph over the words of a sentence (Debusmann 2006, chapter 3): one lexical entry a node, the
/// values of the attributes, and the edges of all dimensions.
#[derive(Debug, Drop)]
pub struct Analysis {
    /// The entry of each node.
    pub entries: List<EntryNo>,
    /// The number of the value of each attribute, by dimension, node and attribute.
    pub attrs: List<u16>,
    /// The edges, by dimension, mother, label and daughter.
    pub edges: List<Edge>,
}

/// Whether one edge is decided before another: by dimension, mother, label and daughter. Of two edges one comes
/// first, or they are the same.
pub fn is_before(a: &Edge, b: &Edge) -> bool
    ensures exact { IsTrue result ↔ Before a.now b.now }
    ensures order { IsEdgeOrder Before }
{
    if a.dim.0 != b.dim.0 {
        return a.dim.0 < b.dim.0;
    }
    if a.mother.0 != b.mother.0 {
        return a.mother.0 < b.mother.0;
    }
    if a.label.0 != b.label.0 {
        return a.label.0 < b.label.0;
    }
    a.daughter.0 < b.daughter.0
}
