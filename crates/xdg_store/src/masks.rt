//! Rows of bits as sets of nodes.

ghost use Rattle.std.specs.Prelude.{◌≡◌, ℕ, ◌<◌, ◌≤◌, ◌+◌, ◌*◌, ◌%◌, length, nat_lt};
ghost use Rattle.xdg_facts.specs.Rises.{has};
ghost use Rattle.xdg_store.specs.Layout.{is_set};

use xdg_base::NodeId;
use xdg_nodeset::NodeSet;
use xdg_trail::Trail;

/// The nodes below a number.
pub(crate) fn nodes_below(count: usize) -> NodeSet
    requires { count ≤ 128 }
    ensures { (node : ℕ) → has result node ≡ nat_lt node count }
{
    let mut nodes = NodeSet::empty();
    for node in 0..count as u8 {
        nodes.insert(NodeId(node));
    }
    nodes
}

/// The nodes whose bits are set in the row of 128 bits that starts with a bit, the first of a word.
pub(crate) fn row_nodes(trail: &Trail, start: usize) -> NodeSet
    requires first { start % 64 ≡ 0 }
    requires within { start + 128 ≤ 64 * length trail.now.words }
    ensures { (node : ℕ) → node < 128 → has result node ≡ is_set trail.now.words (start + node) }
{
    let place = start / 64;
    NodeSet::from_words(trail.word(place), trail.word(place + 1))
}
