//! What a search for a tuple that is refused may skip.

ghost use Rattle.std.specs.Prelude.{◌≡◌, ◌<◌, ◌≤◌, ℕ, [], ◌∷◌, true, IsTrue, IfSome, AllPairs};
ghost use Rattle.xdg_problem.specs.declared.conditions.Condition.TheVariants as conditions;
ghost use Rattle.xdg_problem.specs.Arguments.{first_dim};
ghost use Rattle.xdg_problem.specs.Asking.{IsBetween, IsInItem};
ghost use Rattle.xdg_problem.specs.Paths.{edges_on, Above, IsDaughterBy};
ghost use Rattle.xdg_problem.specs.Places.{nodes};
ghost use Rattle.xdg_judge.specs.Searching.{tuple_for, second_size, third_size};
ghost use Rattle.xdg_judge.specs.Views.{IsView};
ghost use Rattle.xdg_judge.specs.Verdicts.{AsksHere};

use crate::asking::is_in_item;
use crate::links::{leads_nowhere, leads_to_all};
use crate::reads::{attr_of, value_of};
use crate::view::View;
use xdg_base::{LabelId, NodeId};
use xdg_nodeset::NodeSet;
use xdg_problem::{Condition, truth_of};

/// Whether u has no daughter with a label on the first dimension.
fn has_no_daughter(view: &View, u: u8, label: u8) -> bool
    requires view { IsView view.now.parts.now view.now.group.now view.now.analysis.now view.now.first_dim view.now.second_dim view.now.first view.now.second }
    requires u_within { u < nodes view.now.parts.now }
    ensures { IsTrue result → (v : ℕ) → IsDaughterBy (edges_on (first_dim view.now.group.now) view.now.analysis.now.edges) u label v → ⊥ }
{
    leads_nowhere(&view.first.down.by_label, u, label)
}

/// Whether u is above each node between u and v on the first dimension.
fn encloses(view: &View, u: u8, v: u8) -> bool
    requires view { IsView view.now.parts.now view.now.group.now view.now.analysis.now view.now.first_dim view.now.second_dim view.now.first view.now.second }
    requires u_within { u < nodes view.now.parts.now }
    requires v_within { v < nodes view.now.parts.now }
    ensures { IsTrue result → (w : ℕ) → IsBetween u v w → Above (edges_on (first_dim view.now.group.now) view.now.analysis.now.edges) u w }
{
    let between = NodeSet::between(NodeId(u), NodeId(v));
    leads_to_all(&view.first.down.far, u, between)
}

/// Whether projectivity holds of u and v and each node.
fn skips_between(view: &View, u: u8, v: u8) -> bool
    requires view { IsView view.now.parts.now view.now.group.now view.now.analysis.now view.now.first_dim view.now.second_dim view.now.first view.now.second }
    requires u_within { u < nodes view.now.parts.now }
    requires v_within { v < nodes view.now.parts.now }
    ensures { IsTrue result → (w : ℕ) → AsksHere view.now.parts.now view.now.group.now view.now.analysis.now conditions.Between (u ∷ v ∷ w ∷ []) }
{
    if !view.is_daughter(u, v) {
        return true;
    }
    encloses(view, u, v)
}

/// The place behind the nodes of an item of u, where none of them stands before a place; behind that place, where there
/// are none.
fn passed(view: &View, yields: bool, own: u16, u: u8, label: u8, bound: u8) -> Option<u8>
    requires view { IsView view.now.parts.now view.now.group.now view.now.analysis.now view.now.first_dim view.now.second_dim view.now.first view.now.second }
    requires u_within { u < nodes view.now.parts.now }
    ensures { IfSome result
        (λ next. (bound ≤ next)
        × ((x : ℕ) → x < nodes view.now.parts.now
        → IsInItem (edges_on (first_dim view.now.group.now) view.now.analysis.now.edges) (yields ≡ true) own u label x → (bound ≤ x) × (x < next))) }
{
    if own != u16::from(label) && has_no_daughter(view, u, label) {
        return Some(bound);
    }
    let size = view.parts.words.len() as u8;
    let mut next = bound;
    for x in 0..size {
        if is_in_item(view, yields, own, u, label, x) {
            if x < bound {
                return None;
            }
            next = x + 1;
        }
    }
    Some(next)
}

/// Whether each node of an item of u stands to the left of each node of a later item.
fn settles(view: &View, labels: &[LabelId], yields: bool, own: u16, u: u8) -> bool
    requires view { IsView view.now.parts.now view.now.group.now view.now.analysis.now view.now.first_dim view.now.second_dim view.now.first view.now.second }
    requires u_within { u < nodes view.now.parts.now }
    ensures { IsTrue result → (x y : ℕ) → x < nodes view.now.parts.now → y < nodes view.now.parts.now
        → AllPairs
        (λ earlier later. IsInItem (edges_on (first_dim view.now.group.now) view.now.analysis.now.edges) (yields ≡ true) own u earlier.0 x
        → IsInItem (edges_on (first_dim view.now.group.now) view.now.analysis.now.edges) (yields ≡ true) own u later.0 y → x < y)
        labels.now }
{
    let mut bound = 0;
    for label in labels {
        let Some(next) = passed(view, yields, own, u, label.0, bound) else {
            return false;
        };
        bound = next;
    }
    true
}

/// Whether the order holds of u and each two nodes.
fn skips_order(view: &View, u: u8) -> bool
    requires view { IsView view.now.parts.now view.now.group.now view.now.analysis.now view.now.first_dim view.now.second_dim view.now.first view.now.second }
    requires u_within { u < nodes view.now.parts.now }
    ensures { IsTrue result → (x y : ℕ) → x < nodes view.now.parts.now → y < nodes view.now.parts.now
        → AsksHere view.now.parts.now view.now.group.now view.now.analysis.now conditions.Order (u ∷ x ∷ y ∷ []) }
{
    let own = value_of(
        view.parts,
        view.analysis,
        view.first_dim,
        u,
        attr_of(view.group, 0),
    );
    let yields = truth_of(view.group, 0);
    settles(view, view.group.order.as_slice(), yields, own, u)
}

/// Whether a search may skip all tuples that begin with a number, since each of them passes.
pub fn skips_two(view: &View, condition: Condition, u: u8) -> bool
    requires view { IsView view.now.parts.now view.now.group.now view.now.analysis.now view.now.first_dim view.now.second_dim view.now.first view.now.second }
    requires u_within { u < nodes view.now.parts.now }
    ensures { IsTrue result → (x y : ℕ) → x < second_size condition view.now.parts.now view.now.group.now
        → y < third_size condition view.now.parts.now view.now.group.now
        → AsksHere view.now.parts.now view.now.group.now view.now.analysis.now condition (tuple_for condition u x y) }
{
    match condition {
        Condition::Order => skips_order(view, u),
        _ => false,
    }
}

/// Whether a search may skip all tuples that begin with two numbers, since each of them passes.
pub fn skips_one(view: &View, condition: Condition, u: u8, x: u8) -> bool
    requires view { IsView view.now.parts.now view.now.group.now view.now.analysis.now view.now.first_dim view.now.second_dim view.now.first view.now.second }
    requires u_within { u < nodes view.now.parts.now }
    requires x_within { x < second_size condition view.now.parts.now view.now.group.now }
    ensures { IsTrue result → (y : ℕ) → AsksHere view.now.parts.now view.now.group.now view.now.analysis.now condition (tuple_for condition u x y) }
{
    match condition {
        Condition::Between => skips_between(view, u, x),
        Condition::Agree => has_no_daughter(view, u, x),
        Condition::Govern => has_no_daughter(view, u, x),
        Condition::Link => has_no_daughter(view, u, x),
        _ => false,
    }
}
