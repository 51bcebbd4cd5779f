//! What a box says of the attributes and the entries of nodes.

ghost use Rattle.std.specs.Prelude.{◌≡◌, ◌≤◌, ◌<◌, ◌↔◌, true, IsTrue, length};
ghost use Rattle.xdg_problem.specs.Arguments.{attr_count, value_count};
ghost use Rattle.xdg_problem.specs.Boxes.{IsOnly, attr_decision};
ghost use Rattle.xdg_problem.specs.Claims.{IsTable};
ghost use Rattle.xdg_problem.specs.Places.{nodes};
ghost use Rattle.xdg_problem.specs.Problems.{IsProblem};
ghost use Rattle.xdg_problem.specs.Truths.{bound, says, HasTruth, AreNodes, stands};
ghost use Rattle.xdg_rules.specs.Rules.{EachEntry};
ghost use Rattle.xdg_rules.specs.Worths.{EachValue};
ghost use Rattle.xdg_store.specs.InRange.{HasValue};
ghost use Rattle.xdg_store.specs.States.{Known};
ghost use Rattle.xdg_formula_value.specs.Rows.{AreFirst, IsRowOn};

use crate::rows::{constant, kept};
use xdg_base::{AttrId, DimId, List, NodeId};
use xdg_graph::entry_count;
use xdg_nodeset::NodeSet;
use xdg_problem::{Binding, Parts, node_of};
use xdg_store::Store;

/// How many values an attribute has.
fn value_count(parts: &Parts, dim: DimId, attr: AttrId) -> u16
    requires problem { IsProblem parts.now }
    requires dim { dim.0 < length parts.now.dims }
    requires attr { attr.0 < attr_count parts.now dim.0 }
    ensures count { result ≡ value_count parts.now dim.0 attr.0 }
    ensures small { result ≤ 1024 }
{
    let plan = &parts.dims.as_slice()[usize::from(dim.0)];
    plan.attrs.as_slice()[usize::from(attr.0)].values.len() as u16
}

/// Whether no value of a node's attribute remains but one. It looks at each value once.
fn is_only(store: &Store, node: NodeId, dim: DimId, attr: AttrId, value: u16) -> bool
    requires { HasValue store.now.parts node.0 dim.0 attr.0 value }
    ensures exact { IsTrue result ↔ IsOnly store.now.now (attr_decision store.now.parts dim.0 node.0 attr.0) value }
    ensures known { Known store.now }
{
    for other in 0..value_count(store.problem().parts(), dim, attr) {
        if other == value {
            continue;
        }
        if store.attr_in(node, dim, attr, other) {
            return false;
        }
    }
    true
}

/// Whether each value of a node's attribute that remains is this one, or none is.
fn attr_told(store: &Store, node: NodeId, dim: DimId, attr: AttrId, value: u16, truth: bool) -> bool
    requires { HasValue store.now.parts node.0 dim.0 attr.0 value }
    ensures exact { IsTrue result ↔ EachValue store.now.now (attr_decision store.now.parts dim.0 node.0 attr.0) (λ v. HasTruth truth (v ≡ value)) }
    ensures known { Known store.now }
{
    if truth {
        return is_only(store, node, dim, attr, value);
    }
    !store.attr_in(node, dim, attr, value)
}

/// Of some nodes, those for which a name has to stand so that the box makes true, or false, that an attribute has a value.
pub(crate) fn attr_row(
    store: &Store,
    binding: &Binding,
    name: u8,
    node: u8,
    dim: DimId,
    attr: AttrId,
    value: u16,
    truth: bool,
    care: NodeSet,
) -> NodeSet
    requires care { AreFirst (nodes store.now.parts) care }
    requires dim { dim.0 < length store.now.parts.dims }
    requires attr { attr.0 < attr_count store.now.parts dim.0 }
    requires value { value < value_count store.now.parts dim.0 attr.0 }
    requires nodes { AreNodes store.now.parts (stands binding.now) }
    ensures { IsRowOn care
        (λ v. EachValue store.now.now (attr_decision store.now.parts dim.0 (bound (stands binding.now) name v node) attr.0) (λ x. HasTruth truth (x ≡ value)))
        result }
{
    if node != name {
        return constant(attr_told(store, node_of(binding, node), dim, attr, value, truth));
    }
    let mut row = NodeSet::empty();
    for one in care.iter() {
        row = kept(row, one.0, attr_told(store, one, dim, attr, value, truth));
    }
    row
}

/// What a table says for a candidate of a node.
fn says(table: &List<List<bool>>, node: NodeId, place: u16) -> bool
    ensures { result ≡ says table.now node.0 place }
{
    let Some(row) = table.get(node.0 as usize) else {
        return false;
    };
    match row.get(place as usize) {
        Some(truth) => *truth,
        None => false,
    }
}

/// Whether a table says the same for each remaining entry of a node. It looks at each entry once.
fn entries_told(store: &Store, node: NodeId, table: &List<List<bool>>, truth: bool) -> bool
    requires { node.0 < nodes store.now.parts }
    ensures exact { IsTrue result ↔ EachEntry store.now.now node.0 (λ c. HasTruth truth (says table.now node.0 c ≡ true)) }
    ensures known { Known store.now }
{
    for place in 0..entry_count(store.problem().parts(), node) {
        if !store.entry_in(node, place) {
            continue;
        }
        if says(table, node, place) != truth {
            return false;
        }
    }
    true
}

/// Of some nodes, those for which a name has to stand so that the box makes true, or false, what a table says of entries.
pub(crate) fn feat_row(
    store: &Store,
    binding: &Binding,
    name: u8,
    node: u8,
    table: &List<List<bool>>,
    truth: bool,
    care: NodeSet,
) -> NodeSet
    requires care { AreFirst (nodes store.now.parts) care }
    requires nodes { AreNodes store.now.parts (stands binding.now) }
    ensures { IsRowOn care
        (λ v. EachEntry store.now.now (bound (stands binding.now) name v node)
        (λ c. HasTruth truth (says table.now (bound (stands binding.now) name v node) c ≡ true)))
        result }
{
    if node != name {
        return constant(entries_told(store, node_of(binding, node), table, truth));
    }
    let mut row = NodeSet::empty();
    for one in care.iter() {
        row = kept(row, one.0, entries_told(store, one, table, truth));
    }
    row
}
