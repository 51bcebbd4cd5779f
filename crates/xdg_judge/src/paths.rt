//! Edges that join two nodes.

ghost use Rattle.std.specs.Prelude.{◌≡◌, ℕ, ◌<◌, ◌⊎◌, ◌↔◌, true, [], IsTrue, Contains, slice_index_or};
ghost use Rattle.std.specs.List.{Any};
ghost use Rattle.xdg_facts.specs.Rises.{has};
ghost use Rattle.xdg_judge.specs.Joining.{IsEnd, IsLed};
ghost use Rattle.xdg_nodeset.specs.Tables.{Meet};

use crate::links::Links;
use xdg_base::NodeId;
use xdg_nodeset::{NodeSet, overlap};

/// How an edge joins a node u to a node v.
#[derive(Clone, Copy, Debug)]
pub enum Way {
    /// It leads into v.
    Into,
    /// It leads from u to v.
    Straight,
    /// It leads from u to v or to a node above v.
    First,
    /// It leads from u, or from a node below u, to v.
    Last,
    /// It leads from a mother of u to v.
    Sister,
}

/// Whether a number is in a list.
pub fn is_member(numbers: &[u16], number: usize) -> bool
    ensures { IsTrue result ↔ Contains numbers.now number }
{
    numbers.iter().any(|member| number == usize::from(*member))
}

/// A set with one node more.
#[tactic(auto, using(xdg_facts::proofs::Sets::one_more))]
fn including(set: NodeSet, node: u8) -> NodeSet
    requires { node < 128 }
    ensures { (x : ℕ) → (has result x ≡ true) ↔ ((has set x ≡ true) ⊎ (node ≡ x)) }
{
    let mut set = set;
    set.insert(NodeId(node));
    set
}

/// Whether the set at a label has a node in common with another set.
#[tactic(auto, using(xdg_nodeset::proofs::Meetings::no_set, xdg_nodeset::proofs::Meetings::some_set))]
fn meets_at(sets: &[NodeSet; 32], label: u16, nodes: NodeSet) -> bool
    ensures { IsTrue result ↔ Meet (slice_index_or sets.now label []) nodes }
{
    match sets.get(usize::from(label)) {
        Some(set) => overlap(*set, nodes),
        None => false,
    }
}

/// Whether the set at one of some labels has a node in common with another set.
#[tactic(auto, using(xdg_nodeset::proofs::Meetings::none_steps))]
fn meets(sets: &[NodeSet; 32], labels: &[u16], nodes: NodeSet) -> bool
    ensures { IsTrue result ↔ Any (λ label. Meet (slice_index_or sets.now label []) nodes) labels.now }
{
    for label in labels {
        if meets_at(sets, *label, nodes) {
            return true;
        }
    }
    false
}

/// The nodes at which an edge that joins u to v in a way may have its other end.
#[tactic(auto, using(xdg_facts::proofs::Sets::only_end))]
fn ends(links: &Links, way: Way, u: u8, v: u8) -> NodeSet
    requires u_within { u < 128 }
    requires v_within { v < 128 }
    ensures { (x : ℕ) → (has result x ≡ true) ↔ IsEnd way links.now u v x }
{
    match way {
        Way::Into => links.up.next[usize::from(v)],
        Way::Straight => including(NodeSet::empty(), v),
        Way::First => including(links.up.far[usize::from(v)], v),
        Way::Last => including(links.down.far[usize::from(u)], u),
        Way::Sister => links.up.next[usize::from(u)],
    }
}

/// Whether some edge with one of the labels joins u to v in a way.
pub fn is_joined(links: &Links, way: Way, labels: &[u16], u: u8, v: u8) -> bool
    requires u_within { u < 128 }
    requires v_within { v < 128 }
    ensures { IsTrue result ↔ IsLed way links.now labels.now u v }
{
    let ends = ends(links, way, u, v);
    match way {
        Way::Straight => meets(&links.down.by_label[usize::from(u)], labels, ends),
        Way::First => meets(&links.down.by_label[usize::from(u)], labels, ends),
        Way::Into => meets(&links.up.by_label[usize::from(v)], labels, ends),
        Way::Last => meets(&links.up.by_label[usize::from(v)], labels, ends),
        Way::Sister => meets(&links.up.by_label[usize::from(v)], labels, ends),
    }
}
