//! The nodes of a set, one after another.

ghost use Rattle.std.specs.Prelude.{◌≡◌};
ghost use Rattle.std.specs.Iterator.{YieldsFirstBy, YieldsLastBy, item_count};

use crate::set::NodeSet;
use std::marker::Model;
use xdg_base::NodeId;

/// The nodes of a set that are still to come, from the least on, or from the greatest back.
#[derive(Clone, Debug, Drop)]
pub struct NodeIter {
    left: NodeSet,
}

impl Model for NodeIter {
    ghost use Rattle.std.specs.Prelude.{ℕ, List};

    ghost Value = { List ℕ };

    ghost view = { λ nodes. nodes.left };
}

impl NodeIter {
    pub(crate) fn over(left: NodeSet) -> NodeIter
        ensures { result ≡ left }
    {
        NodeIter { left }
    }
}

impl Iterator for NodeIter {
    type Item = NodeId;

    ghost next_gives = { YieldsFirstBy (λ node. node.0) (λ left. left) };

    ghost remaining = { item_count (λ left. left) };

    fn next(&mut self) -> Option<NodeId> {
        let node = self.left.first()?;
        self.left.remove(node);
        Some(node)
    }
}

impl DoubleEndedIterator for NodeIter {
    ghost next_back_gives = { YieldsLastBy (λ node. node.0) (λ left. left) };

    fn next_back(&mut self) -> Option<NodeId> {
        let node = self.left.last()?;
        self.left.remove(node);
        Some(node)
    }
}
