//! What the entries of a node say that remain.

ghost use Rattle.std.specs.Prelude.{◌≡◌, ◌≤◌, ◌<◌, ◌↔◌, [], IsTrue, Contains, length, slice_index_or};
ghost use Rattle.xdg_problem.specs.Features.{map_row};
ghost use Rattle.xdg_problem.specs.Places.{nodes};
ghost use Rattle.xdg_problem.specs.Problems.{IsProblem};
ghost use Rattle.xdg_rules.specs.Rules.{EachEntry};
ghost use Rattle.xdg_store.specs.States.{Known};

use crate::features::{is_member, row_of};
use xdg_base::{LabelId, NodeId};
use xdg_problem::{Group, Parts};
use xdg_store::Store;

/// How many candidates a node has.
pub fn entry_count(parts: &Parts, node: NodeId) -> u16
    requires problem { IsProblem parts.now }
    requires node { node.0 < nodes parts.now }
    ensures count { result ≡ length (slice_index_or parts.now.candidates node.0 []) }
    ensures small { result ≤ 1024 }
{
    parts.candidates.as_slice()[node.0 as usize].len() as u16
}

/// Whether the set that each remaining entry of a node has at a label has a number. It looks at each entry once.
pub fn each_entry_has(
    store: &Store,
    group: &Group,
    node: NodeId,
    label: LabelId,
    number: u16,
) -> bool
    requires { node.0 < nodes store.now.parts }
    ensures exact { IsTrue result ↔ EachEntry store.now.now node.0 (λ c. Contains (map_row group.now node.0 c label.0) number) }
    ensures known { Known store.now }
{
    for place in 0..entry_count(store.problem().parts(), node) {
        if store.entry_in(node, place) && !is_member(row_of(group, node, place, label), number) {
            return false;
        }
    }
    true
}

/// Whether the set that each remaining entry of a node has at a label has a member. It looks at each entry once.
pub fn each_entry_has_some(store: &Store, group: &Group, node: NodeId, label: LabelId) -> bool
    requires { node.0 < nodes store.now.parts }
    ensures exact { IsTrue result ↔ EachEntry store.now.now node.0 (λ c. 0 < length (map_row group.now node.0 c label.0)) }
    ensures known { Known store.now }
{
    for place in 0..entry_count(store.problem().parts(), node) {
        if store.entry_in(node, place) && row_of(group, node, place, label).len() == 0 {
            return false;
        }
    }
    true
}
