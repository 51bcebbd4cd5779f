//! Where the bits of a decision stand among the words.

ghost use Rattle.std.specs.Prelude.{◌≡◌, ◌≤◌, ◌<◌};
ghost use Rattle.xdg_store.specs.Layout.{entry_row, attr_row, edge_row};

use xdg_base::{AttrId, DimId, LabelId, NodeId};

/// The bit of a node's first candidate.
pub(crate) fn entry_row(node: NodeId) -> usize
    ensures { result ≡ entry_row node.0 }
{
    node.0 as usize * 1024
}

/// The bit of the first value of an attribute of a node, in a sentence of so many nodes.
pub(crate) fn attr_row(nodes: usize, dim: DimId, node: NodeId, attr: AttrId) -> usize
    requires { nodes ≤ 128 }
    ensures { result ≡ attr_row nodes dim.0 node.0 attr.0 }
{
    let block = nodes * 1024 + (dim.0 as usize * nodes + node.0 as usize) * 16384;
    block + attr.0 as usize * 1024
}

/// The bit that says whether the edge to the node 0 with a label may be present, in a sentence of so many nodes. Those
/// for the other daughters follow it.
pub(crate) fn edge_row(nodes: usize, dim: DimId, mother: NodeId, label: LabelId) -> usize
    requires { nodes ≤ 128 }
    ensures { result ≡ edge_row nodes dim.0 mother.0 label.0 }
{
    let block = nodes * 1024 + (dim.0 as usize * nodes + mother.0 as usize) * 16384;
    block + (8192 + label.0 as usize * 256)
}
