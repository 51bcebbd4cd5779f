//! The rules of valency: the numbers of edges with a label out of a node and into it are some that its entry allows.

ghost use Rattle.std.specs.Prelude.{◌≡◌, ◌<◌, ◌↔◌, [], ℕ, IsTrue, cond, false, slice_index_or, true};
ghost use Rattle.xdg_facts.specs.Rises.{has};
ghost use Rattle.xdg_problem.specs.declared.parts.Principle.TheVariants as principles;
ghost use Rattle.xdg_problem.specs.Analyses.{IsPlace};
ghost use Rattle.xdg_problem.specs.Arguments.{first_dim, label_count};
ghost use Rattle.xdg_problem.specs.Boxes.{edge_decision};
ghost use Rattle.xdg_problem.specs.Places.{nodes};
ghost use Rattle.xdg_problem.specs.Problems.{IsGroup};
ghost use Rattle.xdg_store.specs.States.{Known};
ghost use Rattle.xdg_propcore.specs.Passes.{Clears, IsQuiet};
ghost use Rattle.xdg_propcore.specs.Sweeps.{Sweeps};
ghost use Rattle.xdg_pgraph.specs.Allowances.{AreAllowances, HasClasses};
ghost use Rattle.xdg_pgraph.specs.Bounding.{NoneBarred};
ghost use Rattle.xdg_pgraph.specs.Bundles.{AreLabelsDone, Barred, IsBundleDone, IsLabelDone, IsWayDone, OpenTo, edge_to};
ghost use Rattle.xdg_pgraph.specs.Planes.{IsPlane};
ghost use Rattle.xdg_pgraph.specs.Untouched.{AreOthersDone, IsTouched, side};

use crate::allowances::{Allowances, Class};
use crate::bounds::{barred_entries, has_none_within, said_of};
use crate::bundle::{Bundle, FarNodes, Way, features_of, numbers_at};
use crate::plane::Plane;
use xdg_base::NodeId;
use xdg_graph::entry_count;
use xdg_nodeset::NodeSet;
use xdg_problem::{Edge, Group};
use xdg_propcore::{Pass, Touched};
use xdg_store::Store;

/// Takes the entries of a node away that allow no number between two counts. It looks at them one by one.
fn take_one_by_one(
    store: &mut Store,
    pass: &mut Pass,
    group: &Group,
    bundle: Bundle,
    least: usize,
    most: usize,
)
    requires known { Known store.old }
    requires node { bundle.node < nodes store.old.parts }
    ensures clears { Clears (Barred store.old.parts group.now bundle least most) pass.old store.old pass.new store.new }
    ensures known { Known store.new }
{
    let candidates = features_of(group, bundle.node);
    let count = entry_count(store.problem().parts(), NodeId(bundle.node));
    for place in 0..count {
        if !store.entry_in(NodeId(bundle.node), place) {
            continue;
        }
        if !has_none_within(numbers_at(candidates, bundle, place), least, most) {
            continue;
        }
        pass.remove_entry(store, NodeId(bundle.node), place);
    }
}

/// The same, all at once by the classes of the bundle, if it has some.
#[inline(never)]
fn take_entries(
    store: &mut Store,
    pass: &mut Pass,
    group: &Group,
    bundle: Bundle,
    classes: &[Class],
    least: usize,
    most: usize,
)
    requires known { Known store.old }
    requires node { bundle.node < nodes store.old.parts }
    requires classes { HasClasses store.old.parts group.now bundle classes.now }
    ensures clears { Clears (Barred store.old.parts group.now bundle least most) pass.old store.old pass.new store.new }
    ensures known { Known store.new }
{
    if classes.is_empty() || most < least {
        take_one_by_one(store, pass, group, bundle, least, most);
        return;
    }
    let barred = barred_entries(group, bundle, classes, least, most);
    pass.remove_entries(store, NodeId(bundle.node), 0, barred);
}

/// The same, where some entry may be one of them.
#[inline(always)]
fn take_entries_if(
    store: &mut Store,
    pass: &mut Pass,
    group: &Group,
    bundle: Bundle,
    classes: &[Class],
    least: usize,
    most: usize,
    wanted: bool,
)
    requires known { Known store.old }
    requires node { bundle.node < nodes store.old.parts }
    requires classes { HasClasses store.old.parts group.now bundle classes.now }
    requires others { wanted ≡ false → NoneBarred group.now bundle least most store.old.now }
    ensures clears { Clears (Barred store.old.parts group.now bundle least most) pass.old store.old pass.new store.new }
    ensures known { Known store.new }
{
    if !wanted {
        return;
    }
    take_entries(store, pass, group, bundle, classes, least, most);
}

/// Takes away that an edge is present, or that it is absent.
fn take_value(store: &mut Store, pass: &mut Pass, edge: Edge, present: bool)
    requires place { IsPlace store.old.parts edge }
    ensures clears { Clears (λ d v. (d ≡ edge_decision store.old.parts edge) × (v ≡ cond present 0 1)) pass.old store.old pass.new store.new }
    ensures known { Known store.new }
{
    if present {
        pass.forbid(store, edge);
        return;
    }
    pass.force(store, edge);
}

/// Takes away that the edges to some nodes are present, or that they are absent.
#[inline(never)]
fn take_open(
    store: &mut Store,
    pass: &mut Pass,
    plane: &Plane,
    bundle: Bundle,
    others: NodeSet,
    present: bool,
)
    requires plane { IsPlane store.old.parts plane.now }
    requires known { Known store.old }
    requires places { (other : ℕ) → has others other ≡ true → IsPlace store.old.parts (edge_to bundle.way plane.now.dim.0 bundle.node bundle.label other) }
    ensures clears { Clears (OpenTo store.old.parts plane.now.dim.0 bundle others (cond present 0 1)) pass.old store.old pass.new store.new }
    ensures known { Known store.new }
{
    for other in others.iter() {
        take_value(store, pass, bundle.edge(plane, other.0), present);
    }
}

/// The same, where it is wanted.
#[inline(always)]
fn take_open_if(
    store: &mut Store,
    pass: &mut Pass,
    plane: &Plane,
    bundle: Bundle,
    others: NodeSet,
    present: bool,
    wanted: bool,
)
    requires plane { IsPlane store.old.parts plane.now }
    requires known { Known store.old }
    requires places { (other : ℕ) → has others other ≡ true → IsPlace store.old.parts (edge_to bundle.way plane.now.dim.0 bundle.node bundle.label other) }
    ensures clears { Clears (λ d v. (wanted ≡ true) × OpenTo store.old.parts plane.now.dim.0 bundle others (cond present 0 1) d v) pass.old store.old pass.new
        store.new }
    ensures known { Known store.new }
{
    if !wanted {
        return;
    }
    take_open(store, pass, plane, bundle, others, present);
}

/// Takes what valency takes at a bundle: that further edges are present, where as many must be as the entries allow at most, that
/// they are absent, where only as many may be as the entries want at least, and entries.
#[inline(never)]
fn take_bundle(
    store: &mut Store,
    pass: &mut Pass,
    plane: &Plane,
    group: &Group,
    allowances: &Allowances,
    bundle: Bundle,
)
    requires plane { IsPlane store.old.parts plane.now }
    requires dim { plane.now.dim.0 ≡ first_dim group.now }
    requires known { Known store.old }
    requires group { IsGroup store.old.parts group.now }
    requires principle { group.now.principle ≡ principles.Valency }
    requires fits { AreAllowances store.old.parts group.now allowances.now }
    requires node { bundle.node < plane.now.nodes }
    requires label { bundle.label < label_count store.old.parts plane.now.dim.0 }
    ensures { Sweeps group.now (IsBundleDone bundle.way store.old.parts group.now bundle.node bundle.label) pass.old store.old pass.new store.new }
{
    let far = FarNodes::of(store, plane, bundle);
    let open = far.may.minus(&far.must);
    let least = far.must.len();
    let most = far.may.len();
    let classes = allowances.classes(bundle);
    let said = said_of(store, group, bundle, classes, least, most);
    if !said.takes(&open) {
        return;
    }
    take_open_if(store, pass, plane, bundle, open, true, said.full);
    take_open_if(store, pass, plane, bundle, open, false, said.needed);
    take_entries_if(
        store,
        pass,
        group,
        bundle,
        classes,
        least,
        most,
        said.barred,
    );
}

/// The nodes that have lost values of edges out of them, or into them, by their labels.
fn side(touched: &Touched, way: Way) -> &[NodeSet; 32]
    ensures { result.now ≡ side way touched.now }
{
    match way {
        Way::Out => &touched.out,
        Way::In => &touched.into,
    }
}

/// The nodes that a table has for a label.
fn nodes_at(table: &[NodeSet; 32], label: u8) -> NodeSet
    requires { label < 32 }
    ensures { result ≡ slice_index_or table.now label [] }
{
    table[usize::from(label)]
}

/// The nodes of the sentence at which something was lost of the bundle with a label: an entry, or a value of an edge.
fn touched_nodes(store: &Store, touched: &Touched, way: Way, label: u8) -> NodeSet
    requires { label < 32 }
    ensures { (node : ℕ) → IsTrue (has result node) ↔ ((node < nodes store.now.parts) × IsTouched way touched.now node label) }
{
    let edges = nodes_at(side(touched, way), label);
    let lost = touched.entries.union(&edges);
    lost.meet(&store.all_nodes())
}

/// Takes what valency takes at the bundles with a label out of all nodes, or into them. Where nothing was lost of a bundle nothing
/// is left to take there.
fn take_way(
    store: &mut Store,
    pass: &mut Pass,
    plane: &Plane,
    group: &Group,
    allowances: &Allowances,
    touched: &Touched,
    way: Way,
    label: u8,
)
    requires plane { IsPlane store.old.parts plane.now }
    requires dim { plane.now.dim.0 ≡ first_dim group.now }
    requires known { Known store.old }
    requires group { IsGroup store.old.parts group.now }
    requires principle { group.now.principle ≡ principles.Valency }
    requires fits { AreAllowances store.old.parts group.now allowances.now }
    requires label { label < label_count store.old.parts plane.now.dim.0 }
    requires others { IsQuiet pass.old → AreOthersDone touched.now store.old.parts group.now store.old.now }
    ensures { Sweeps group.now (IsWayDone way store.old.parts group.now label) pass.old store.old pass.new store.new }
{
    let nodes = touched_nodes(store, touched, way, label);
    for node in nodes.iter() {
        let bundle = Bundle {
            way,
            node: node.0,
            label,
        };
        take_bundle(store, pass, plane, group, allowances, bundle);
    }
}

/// The same, out of them and into them.
fn take_label(
    store: &mut Store,
    pass: &mut Pass,
    plane: &Plane,
    group: &Group,
    allowances: &Allowances,
    touched: &Touched,
    label: u8,
)
    requires plane { IsPlane store.old.parts plane.now }
    requires dim { plane.now.dim.0 ≡ first_dim group.now }
    requires known { Known store.old }
    requires group { IsGroup store.old.parts group.now }
    requires principle { group.now.principle ≡ principles.Valency }
    requires fits { AreAllowances store.old.parts group.now allowances.now }
    requires label { label < label_count store.old.parts plane.now.dim.0 }
    requires others { IsQuiet pass.old → AreOthersDone touched.now store.old.parts group.now store.old.now }
    ensures { Sweeps group.now (IsLabelDone store.old.parts group.now label) pass.old store.old pass.new store.new }
{
    take_way(
        store,
        pass,
        plane,
        group,
        allowances,
        touched,
        Way::Out,
        label,
    );
    take_way(
        store,
        pass,
        plane,
        group,
        allowances,
        touched,
        Way::In,
        label,
    );
}

/// Takes what valency takes on a dimension with so many labels, label by label.
pub(crate) fn take_valency(
    store: &mut Store,
    pass: &mut Pass,
    plane: &Plane,
    group: &Group,
    allowances: &Allowances,
    touched: &Touched,
    labels: u8,
)
    requires plane { IsPlane store.old.parts plane.now }
    requires dim { plane.now.dim.0 ≡ first_dim group.now }
    requires known { Known store.old }
    requires group { IsGroup store.old.parts group.now }
    requires principle { group.now.principle ≡ principles.Valency }
    requires fits { AreAllowances store.old.parts group.now allowances.now }
    requires labels { labels ≡ label_count store.old.parts plane.now.dim.0 }
    requires others { IsQuiet pass.old → AreOthersDone touched.now store.old.parts group.now store.old.now }
    ensures { Sweeps group.now (AreLabelsDone labels store.old.parts group.now) pass.old store.old pass.new store.new }
{
    for label in 0..labels {
        take_label(store, pass, plane, group, allowances, touched, label);
    }
}
