//! What a use of order or projectivity gives to read.

ghost use Rattle.std.specs.Prelude.{◌≡◌, ◌<◌, ◌≤◌, ◌↔◌, IsTrue, length};
ghost use Rattle.xdg_problem.specs.declared.parts.Principle.TheVariants as principles;
ghost use Rattle.xdg_problem.specs.Arguments.{first_dim};
ghost use Rattle.xdg_store.specs.States.{Known};
ghost use Rattle.xdg_graph.specs.Edges.{edge_labels};
ghost use Rattle.xdg_porder.specs.Items.{label_at};

use xdg_base::LabelId;
use xdg_graph::labels_of;
use xdg_problem::{Group, Principle, dim_of};
use xdg_store::Store;

/// Whether a principle use is one of order.
pub(crate) fn is_order(group: &Group) -> bool
    ensures { IsTrue result ↔ (group.now.principle ≡ principles.Order) }
{
    match &group.principle {
        Principle::Order => true,
        _ => false,
    }
}

/// The label at a place of the order.
pub(crate) fn label_at(group: &Group, place: usize) -> LabelId
    requires { place < length group.now.order }
    ensures { result.0 ≡ label_at group.now place }
{
    group.order.as_slice()[place]
}

/// How many labels the edges of the dimension of a principle use can have.
pub(crate) fn label_count(store: &Store, group: &Group) -> u8
    ensures count { result ≡ edge_labels store.now.parts (first_dim group.now) }
    ensures small { result ≤ 32 }
    ensures known { Known store.now }
{
    labels_of(store, dim_of(group, 0))
}
