//! What holds of two nodes.

ghost use Rattle.std.specs.Prelude.{◌≡◌, ◌≤◌, ◌<◌, ◌↔◌, ℕ, true};
ghost use Rattle.xdg_facts.specs.Rises.{has};
ghost use Rattle.xdg_problem.specs.Places.{nodes};
ghost use Rattle.xdg_problem.specs.Truths.{bound, HasTruth, AreNodes, stands};
ghost use Rattle.xdg_formula_value.specs.Filling.{ArePaths};
ghost use Rattle.xdg_formula_value.specs.Pairs.{Along, IsPairOf, Relates, edges_for};
ghost use Rattle.xdg_formula_value.specs.Rows.{IsRow};

use crate::paths::{Paths, far};
use crate::rows::{constant, kept, opposite, told};
use crate::way::Way;
use xdg_base::{DimId, LabelId, NodeId};
use xdg_graph::{Which, daughters_by, labels_of, mothers_by, node_count, up_to};
use xdg_nodeset::NodeSet;
use xdg_problem::{Binding, node_of};
use xdg_store::Store;

/// What may hold of two nodes.
#[derive(Clone, Copy, Debug)]
pub enum Pair {
    /// On the dimension an edge with the label leads from the first to the second.
    Edge(DimId, LabelId),
    /// On the dimension a path leads from the first to the second.
    Path(DimId),
    /// The first stands before the second.
    Left,
    /// Both are one.
    Same,
}

/// The nodes before a node.
fn nodes_before(node: NodeId) -> NodeSet
    requires { node.0 < 128 }
    ensures { (v : ℕ) → (has result v ≡ true) ↔ (v < node.0) }
{
    let mut front = up_to(node);
    front.remove(node);
    front
}

/// A node alone.
pub(crate) fn only(node: NodeId) -> NodeSet
    requires { node.0 < 128 }
    ensures { (v : ℕ) → (has result v ≡ true) ↔ (v ≡ node.0) }
{
    let mut one = NodeSet::empty();
    one.insert(node);
    one
}

/// The nodes that edges with a label join to a node, one way.
fn joined_by(
    store: &Store,
    which: Which,
    way: Way,
    dim: DimId,
    label: LabelId,
    node: NodeId,
) -> NodeSet
    requires node { node.0 < nodes store.now.parts }
    ensures { IsRow (nodes store.now.parts) (Along way (Relates (Pair.Edge dim label) which store.now.parts store.now.now) node.0) result }
{
    if label.0 >= labels_of(store, dim) {
        return NodeSet::empty();
    }
    match way {
        Way::Down => daughters_by(store, which, dim, node, label),
        Way::Up => mothers_by(store, which, dim, node, label),
    }
}

/// The nodes to which a node is related, or which are related to it.
fn related(
    store: &Store,
    paths: &Paths,
    pair: Pair,
    which: Which,
    way: Way,
    node: NodeId,
) -> NodeSet
    requires paths { ArePaths store.now paths.now }
    requires pair { IsPairOf store.now.parts pair }
    requires node { node.0 < nodes store.now.parts }
    ensures { IsRow (nodes store.now.parts) (Along way (Relates pair which store.now.parts store.now.now) node.0) result }
{
    // Each store holds a box.
    let _ = store.turns();
    match pair {
        Pair::Edge(dim, label) => joined_by(store, which, way, dim, label, node),
        Pair::Path(dim) => match way {
            Way::Down => far(store, paths.below, Way::Down, which, dim, node),
            Way::Up => far(store, paths.above, Way::Up, which, dim, node),
        },
        Pair::Left => match way {
            Way::Down => opposite(up_to(node)),
            Way::Up => nodes_before(node),
        },
        Pair::Same => only(node),
    }
}

/// The nodes that are related to themselves. It looks at each.
fn to_itself(store: &Store, paths: &Paths, pair: Pair, which: Which) -> NodeSet
    requires paths { ArePaths store.now paths.now }
    requires pair { IsPairOf store.now.parts pair }
    ensures { IsRow (nodes store.now.parts) (λ v. Relates pair which store.now.parts store.now.now v v) result }
{
    let mut row = NodeSet::empty();
    for node in 0..node_count(store) {
        let there = related(store, paths, pair, which, Way::Down, NodeId(node)).contains(NodeId(
            node,
        ));
        row = kept(row, node, there);
    }
    row
}

/// The nodes for which a name has to stand so that what two names stand for is related.
fn related_row(
    store: &Store,
    paths: &Paths,
    binding: &Binding,
    name: u8,
    pair: Pair,
    which: Which,
    first: u8,
    second: u8,
) -> NodeSet
    requires paths { ArePaths store.now paths.now }
    requires pair { IsPairOf store.now.parts pair }
    requires nodes { AreNodes store.now.parts (stands binding.now) }
    ensures { IsRow (nodes store.now.parts)
        (λ v. Relates pair which store.now.parts store.now.now (bound (stands binding.now) name v first) (bound (stands binding.now) name v second)) result }
{
    if first == name {
        if second == name {
            return to_itself(store, paths, pair, which);
        }
        return related(store, paths, pair, which, Way::Up, node_of(binding, second));
    }
    let row = related(
        store,
        paths,
        pair,
        which,
        Way::Down,
        node_of(binding, first),
    );
    if second == name {
        return row;
    }
    constant(row.contains(node_of(binding, second)))
}

/// The edges that make something true, or that leave it possible.
fn edges_for(truth: bool) -> Which
    ensures { result ≡ edges_for truth }
{
    if truth {
        return Which::Must;
    }
    Which::May
}

/// The nodes for which a name has to stand so that the box makes true, or false, that what two names stand for is related.
pub(crate) fn pair_row(
    store: &Store,
    paths: &Paths,
    binding: &Binding,
    name: u8,
    pair: Pair,
    first: u8,
    second: u8,
    truth: bool,
) -> NodeSet
    requires paths { ArePaths store.now paths.now }
    requires pair { IsPairOf store.now.parts pair }
    requires nodes { AreNodes store.now.parts (stands binding.now) }
    ensures { IsRow (nodes store.now.parts)
        (λ v. HasTruth truth
        (Relates pair (edges_for truth) store.now.parts store.now.now (bound (stands binding.now) name v first) (bound (stands binding.now) name v second)))
        result }
{
    let row = related_row(
        store,
        paths,
        binding,
        name,
        pair,
        edges_for(truth),
        first,
        second,
    );
    told(truth, row)
}
