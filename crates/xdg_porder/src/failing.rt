//! Whether a test of an order that takes yields along is decided and fails.

ghost use Rattle.std.specs.Prelude.{◌≡◌, ◌<◌, ◌↔◌, ℕ, true, IsTrue};
ghost use Rattle.xdg_problem.specs.Arguments.{truth_of};
ghost use Rattle.xdg_problem.specs.Places.{nodes};
ghost use Rattle.xdg_rules.specs.Rules.{FailsTest};
ghost use Rattle.xdg_porder.specs.Items.{IsOrdering};

use crate::yields::{are_settled, fails_at};
use xdg_base::NodeId;
use xdg_graph::{Which, node_count, note_above};
use xdg_nodeset::NodeSet;
use xdg_problem::{Group, dim_of};
use xdg_store::Store;

/// Whether the test of some node is decided and fails.
pub(crate) fn fails_test(store: &Store, group: &Group) -> bool
    requires at { IsOrdering group.now store.now }
    requires yields { truth_of group.now.truths 0 ≡ true }
    ensures { IsTrue result ↔ FailsTest store.now.parts group.now store.now.now }
{
    if !are_settled(store, group) {
        return false;
    }
    let mut table = [NodeSet::empty(); 128];
    note_above(&mut table, store, Which::May, dim_of(group, 0));
    for u in 0..node_count(store) {
        if fails_at(store, group, &table, NodeId(u)) {
            return true;
        }
    }
    false
}
