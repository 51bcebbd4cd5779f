//! Decisions, named by what is decided.

use xdg_base::{AttrId, DimId, NodeId};
use xdg_problem::Edge;

/// A decision on a sentence.
#[derive(Clone, Copy, Debug)]
pub enum Decision {
    /// The entry of a node.
    Entry(NodeId),
    /// The value of an attribute of a node.
    Attr(DimId, NodeId, AttrId),
    /// Whether an edge is present.
    Place(Edge),
}
