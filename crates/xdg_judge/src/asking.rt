//! What a condition asks of one tuple.

ghost use Rattle.std.specs.Prelude.{◌≡◌, ◌<◌, ◌⊎◌, ◌↔◌, [], ◌∷◌, true, false, IsTrue, Contains, Some, slice_index, AllPairs};
ghost use Rattle.xdg_problem.specs.declared.conditions.Condition.TheVariants as conditions;
ghost use Rattle.xdg_problem.specs.Arguments.{first_dim, second_dim, truth_of};
ghost use Rattle.xdg_problem.specs.Asking.{AsksBy, AsksLink, IsBetween, IsInItem, IsLinked};
ghost use Rattle.xdg_problem.specs.Vectors.{entry_places};
ghost use Rattle.xdg_problem.specs.Features.{in_row, map_row, out_row};
ghost use Rattle.xdg_problem.specs.Paths.{edges_on, Above};
ghost use Rattle.xdg_problem.specs.Places.{nodes};
ghost use Rattle.xdg_judge.specs.Counting.{IsTally};
ghost use Rattle.xdg_judge.specs.Searching.{IsSearched, tuple_for, second_size, third_size};
ghost use Rattle.xdg_judge.specs.Views.{IsView};
ghost use Rattle.xdg_judge.specs.Verdicts.{AsksHere};

use crate::counts::counted;
use crate::paths::{Way, is_joined, is_member};
use crate::reads::{attr_of, row_of, value_of};
use crate::view::View;
use xdg_base::LabelId;
use xdg_problem::{Condition, Linking, Principle, truth_of};

/// Whether a number of edges with a label into v is one that its entry allows.
fn passes_in(view: &View, v: u8, label: u8, count: usize) -> bool
    requires view { IsView view.now.parts.now view.now.group.now view.now.analysis.now view.now.first_dim view.now.second_dim view.now.first view.now.second }
    requires v_within { v < nodes view.now.parts.now }
    ensures { IsTrue result
        ↔ Contains (in_row view.now.group.now v (slice_index (entry_places view.now.parts.now.candidates view.now.analysis.now.entries) v) label) count }
{
    let (node, label) = (usize::from(v), usize::from(label));
    is_member(row_of(view.group, node, view.candidate(v), 0, label), count)
}

/// Whether a number of edges with a label out of v is one that its entry allows.
fn passes_out(view: &View, v: u8, label: u8, count: usize) -> bool
    requires view { IsView view.now.parts.now view.now.group.now view.now.analysis.now view.now.first_dim view.now.second_dim view.now.first view.now.second }
    requires v_within { v < nodes view.now.parts.now }
    ensures { IsTrue result
        ↔ Contains (out_row view.now.group.now v (slice_index (entry_places view.now.parts.now.candidates view.now.analysis.now.entries) v) label) count }
{
    let (node, label) = (usize::from(v), usize::from(label));
    is_member(row_of(view.group, node, view.candidate(v), 1, label), count)
}

/// Whether v has a value that its entry allows.
fn passes_agr(view: &View, v: u8) -> bool
    requires view { IsView view.now.parts.now view.now.group.now view.now.analysis.now view.now.first_dim view.now.second_dim view.now.first view.now.second }
    requires v_within { v < nodes view.now.parts.now }
    ensures { IsTrue result ↔ AsksHere view.now.parts.now view.now.group.now view.now.analysis.now conditions.Agr (v ∷ []) }
{
    let allowed = row_of(view.group, usize::from(v), view.candidate(v), 0, 0);
    let value = value_of(
        view.parts,
        view.analysis,
        view.first_dim,
        v,
        attr_of(view.group, 0),
    );
    is_member(allowed, usize::from(value))
}

/// Whether w stands strictly between u and v.
fn is_between(u: u8, v: u8, w: u8) -> bool
    ensures { IsTrue result ↔ IsBetween u v w }
{
    (u < w && w < v) || (v < w && w < u)
}

/// Whether w, where it stands between u and its daughter v, is below u.
fn passes_between(view: &View, u: u8, v: u8, w: u8) -> bool
    requires view { IsView view.now.parts.now view.now.group.now view.now.analysis.now view.now.first_dim view.now.second_dim view.now.first view.now.second }
    requires u_within { u < nodes view.now.parts.now }
    requires v_within { v < nodes view.now.parts.now }
    requires w_within { w < nodes view.now.parts.now }
    ensures { IsTrue result ↔ AsksHere view.now.parts.now view.now.group.now view.now.analysis.now conditions.Between (u ∷ v ∷ w ∷ []) }
{
    if !view.is_daughter(u, v) {
        return true;
    }
    if !is_between(u, v, w) {
        return true;
    }
    view.is_above(u, w)
}

/// Whether v has the same value as u, where u asks for agreement at the label of its edge.
fn passes_agree(view: &View, u: u8, label: u8, v: u8) -> bool
    requires view { IsView view.now.parts.now view.now.group.now view.now.analysis.now view.now.first_dim view.now.second_dim view.now.first view.now.second }
    requires u_within { u < nodes view.now.parts.now }
    requires v_within { v < nodes view.now.parts.now }
    ensures { IsTrue result ↔ AsksHere view.now.parts.now view.now.group.now view.now.analysis.now conditions.Agree (u ∷ label ∷ v ∷ []) }
{
    if !view.is_daughter_by(u, label, v) {
        return true;
    }
    let labels = row_of(view.group, usize::from(u), view.candidate(u), 0, 0);
    if !is_member(labels, usize::from(label)) {
        return true;
    }
    let dim = view.first_dim;
    let wanted = value_of(view.parts, view.analysis, dim, u, attr_of(view.group, 0));
    let value = value_of(view.parts, view.analysis, dim, v, attr_of(view.group, 1));
    wanted == value
}

/// Whether v has one of the values that u governs at the label of its edge.
fn passes_govern(view: &View, u: u8, label: u8, v: u8) -> bool
    requires view { IsView view.now.parts.now view.now.group.now view.now.analysis.now view.now.first_dim view.now.second_dim view.now.first view.now.second }
    requires u_within { u < nodes view.now.parts.now }
    requires v_within { v < nodes view.now.parts.now }
    ensures { IsTrue result ↔ AsksHere view.now.parts.now view.now.group.now view.now.analysis.now conditions.Govern (u ∷ label ∷ v ∷ []) }
{
    if !view.is_daughter_by(u, label, v) {
        return true;
    }
    let allowed = row_of(
        view.group,
        usize::from(u),
        view.candidate(u),
        0,
        usize::from(label),
    );
    if allowed.len() == 0 {
        return true;
    }
    let value = value_of(
        view.parts,
        view.analysis,
        view.first_dim,
        v,
        attr_of(view.group, 0),
    );
    is_member(allowed, usize::from(value))
}

/// Whether v, where it is below u on the first dimension, is below u on the second.
fn passes_below(view: &View, u: u8, v: u8) -> bool
    requires view { IsView view.now.parts.now view.now.group.now view.now.analysis.now view.now.first_dim view.now.second_dim view.now.first view.now.second }
    requires u_within { u < nodes view.now.parts.now }
    requires v_within { v < nodes view.now.parts.now }
    ensures { IsTrue result ↔ AsksHere view.now.parts.now view.now.group.now view.now.analysis.now conditions.Below (u ∷ v ∷ []) }
{
    if !view.is_above(u, v) {
        return true;
    }
    view.is_second_above(u, v)
}

/// Whether v, where a path from w to it on the second dimension ends with a label that w blocks, is below w on the first.
fn passes_blocked(view: &View, w: u8, v: u8) -> bool
    requires view { IsView view.now.parts.now view.now.group.now view.now.analysis.now view.now.first_dim view.now.second_dim view.now.first view.now.second }
    requires w_within { w < nodes view.now.parts.now }
    requires v_within { v < nodes view.now.parts.now }
    ensures { IsTrue result ↔ AsksHere view.now.parts.now view.now.group.now view.now.analysis.now conditions.Blocked (w ∷ v ∷ []) }
{
    if view.is_above(w, v) {
        return true;
    }
    let labels = row_of(view.group, usize::from(w), view.candidate(w), 0, 0);
    !is_joined(&view.second, Way::Last, labels, w, v)
}

/// Whether x stands in the item of u that has a label.
pub fn is_in_item(view: &View, yields: bool, own: u16, u: u8, label: u8, x: u8) -> bool
    requires view { IsView view.now.parts.now view.now.group.now view.now.analysis.now view.now.first_dim view.now.second_dim view.now.first view.now.second }
    requires u_within { u < nodes view.now.parts.now }
    requires x_within { x < nodes view.now.parts.now }
    ensures { IsTrue result ↔ IsInItem (edges_on (first_dim view.now.group.now) view.now.analysis.now.edges) (yields ≡ true) own u label x }
{
    if own == u16::from(label) && x == u {
        return true;
    }
    if view.is_daughter_by(u, label, x) {
        return true;
    }
    if !yields {
        return false;
    }
    is_joined(&view.first, Way::First, &[u16::from(label)], u, x)
}

/// Whether no label at which x stands in an item of u comes before one at which y does.
fn is_ordered(view: &View, labels: &[LabelId], yields: bool, own: u16, u: u8, x: u8, y: u8) -> bool
    requires view { IsView view.now.parts.now view.now.group.now view.now.analysis.now view.now.first_dim view.now.second_dim view.now.first view.now.second }
    requires u_within { u < nodes view.now.parts.now }
    requires x_within { x < nodes view.now.parts.now }
    requires y_within { y < nodes view.now.parts.now }
    ensures { IsTrue result
        ↔ AllPairs
        (λ earlier later. IsInItem (edges_on (first_dim view.now.group.now) view.now.analysis.now.edges) (yields ≡ true) own u earlier.0 x
        → IsInItem (edges_on (first_dim view.now.group.now) view.now.analysis.now.edges) (yields ≡ true) own u later.0 y → ⊥)
        labels.now }
{
    let mut seen = false;
    for label in labels {
        if seen && is_in_item(view, yields, own, u, label.0, y) {
            return false;
        }
        if is_in_item(view, yields, own, u, label.0, x) {
            seen = true;
        }
    }
    true
}

/// Whether x is u or below it.
fn is_near(view: &View, u: u8, x: u8) -> bool
    requires view { IsView view.now.parts.now view.now.group.now view.now.analysis.now view.now.first_dim view.now.second_dim view.now.first view.now.second }
    requires u_within { u < nodes view.now.parts.now }
    requires x_within { x < nodes view.now.parts.now }
    ensures { IsTrue result ↔ ((x ≡ u) ⊎ Above (edges_on (first_dim view.now.group.now) view.now.analysis.now.edges) u x) }
{
    if x == u {
        return true;
    }
    view.is_above(u, x)
}

/// Whether x stands to the left of y, where the order puts an item of u in which x stands before one in which y stands.
fn passes_order(view: &View, u: u8, x: u8, y: u8) -> bool
    requires view { IsView view.now.parts.now view.now.group.now view.now.analysis.now view.now.first_dim view.now.second_dim view.now.first view.now.second }
    requires u_within { u < nodes view.now.parts.now }
    requires x_within { x < nodes view.now.parts.now }
    requires y_within { y < nodes view.now.parts.now }
    ensures { IsTrue result ↔ AsksHere view.now.parts.now view.now.group.now view.now.analysis.now conditions.Order (u ∷ x ∷ y ∷ []) }
{
    if x < y {
        return true;
    }
    if !is_near(view, u, x) {
        return true;
    }
    if !is_near(view, u, y) {
        return true;
    }
    let own = value_of(
        view.parts,
        view.analysis,
        view.first_dim,
        u,
        attr_of(view.group, 0),
    );
    let yields = truth_of(view.group, 0);
    is_ordered(view, view.group.order.as_slice(), yields, own, u, x, y)
}

/// Whether edges of the second dimension link u to its daughter v in a way, with one of some labels.
fn is_linked(view: &View, way: Linking, labels: &[u16], u: u8, v: u8) -> bool
    requires view { IsView view.now.parts.now view.now.group.now view.now.analysis.now view.now.first_dim view.now.second_dim view.now.first view.now.second }
    requires u_within { u < nodes view.now.parts.now }
    requires v_within { v < nodes view.now.parts.now }
    ensures { IsTrue result ↔ IsLinked way (edges_on (second_dim view.now.group.now) view.now.analysis.now.edges) u labels.now v }
{
    let links = &view.second;
    match way {
        Linking::End => is_joined(links, Way::Into, labels, u, v),
        Linking::Daughter => is_joined(links, Way::Straight, labels, u, v),
        Linking::Mother => is_joined(links, Way::Straight, labels, v, u),
        Linking::BelowStart => is_joined(links, Way::First, labels, u, v),
        Linking::AboveStart => is_joined(links, Way::First, labels, v, u),
        Linking::Sisters => is_joined(links, Way::Sister, labels, u, v),
    }
}

/// Whether edges of the second dimension link u to its daughter v in a way, with one of the labels that u has for a label, if it has any.
fn links_by(view: &View, way: Linking, u: u8, label: u8, v: u8) -> bool
    requires view { IsView view.now.parts.now view.now.group.now view.now.analysis.now view.now.first_dim view.now.second_dim view.now.first view.now.second }
    requires u_within { u < nodes view.now.parts.now }
    requires v_within { v < nodes view.now.parts.now }
    ensures { IsTrue result
        ↔ AsksBy (Some way) (edges_on (second_dim view.now.group.now) view.now.analysis.now.edges) u
        (map_row view.now.group.now u (slice_index (entry_places view.now.parts.now.candidates view.now.analysis.now.entries) u) label) v }
{
    let labels = row_of(
        view.group,
        usize::from(u),
        view.candidate(u),
        0,
        usize::from(label),
    );
    if labels.len() == 0 {
        return true;
    }
    is_linked(view, way, labels, u, v)
}

/// Whether the principle finds on the second dimension what it asks for an edge from u to v with a label on the first.
fn links(view: &View, u: u8, label: u8, v: u8) -> bool
    requires view { IsView view.now.parts.now view.now.group.now view.now.analysis.now view.now.first_dim view.now.second_dim view.now.first view.now.second }
    requires u_within { u < nodes view.now.parts.now }
    requires v_within { v < nodes view.now.parts.now }
    ensures { IsTrue result
        ↔ AsksLink view.now.group.now.principle view.now.group.now (slice_index (entry_places view.now.parts.now.candidates view.now.analysis.now.entries) u)
        (edges_on (second_dim view.now.group.now) view.now.analysis.now.edges) u label v }
{
    match &view.group.principle {
        Principle::LinkingNotDaughter => {
            let labels = row_of(view.group, usize::from(u), view.candidate(u), 0, 0);
            if !is_member(labels, usize::from(label)) {
                return true;
            }
            !view.is_second_daughter(u, v)
        }
        Principle::LinkingEnd => links_by(view, Linking::End, u, label, v),
        Principle::LinkingDaughter => links_by(view, Linking::Daughter, u, label, v),
        Principle::LinkingMother => links_by(view, Linking::Mother, u, label, v),
        Principle::LinkingBelowStart => links_by(view, Linking::BelowStart, u, label, v),
        Principle::LinkingAboveStart => links_by(view, Linking::AboveStart, u, label, v),
        Principle::LinkingSisters => links_by(view, Linking::Sisters, u, label, v),
        _ => true,
    }
}

/// Whether an edge from u to v with a label on the first dimension is linked as the principle asks.
fn passes_link(view: &View, u: u8, label: u8, v: u8) -> bool
    requires view { IsView view.now.parts.now view.now.group.now view.now.analysis.now view.now.first_dim view.now.second_dim view.now.first view.now.second }
    requires u_within { u < nodes view.now.parts.now }
    requires v_within { v < nodes view.now.parts.now }
    ensures { IsTrue result ↔ AsksHere view.now.parts.now view.now.group.now view.now.analysis.now conditions.Link (u ∷ label ∷ v ∷ []) }
{
    if !view.is_daughter_by(u, label, v) {
        return true;
    }
    links(view, u, label, v)
}

/// Whether a condition lets a tuple pass, which is given by three numbers, the last of them 0 where it is shorter, and by
/// the counts of edges.
pub fn passes(
    view: &View,
    counts: &[[usize; 128]; 128],
    condition: Condition,
    u: u8,
    x: u8,
    y: u8,
) -> bool
    requires view { IsView view.now.parts.now view.now.group.now view.now.analysis.now view.now.first_dim view.now.second_dim view.now.first view.now.second }
    requires counts { IsTally condition (edges_on (first_dim view.now.group.now) view.now.analysis.now.edges) counts.now }
    requires searched { IsSearched condition }
    requires u_within { u < nodes view.now.parts.now }
    requires x_within { x < second_size condition view.now.parts.now view.now.group.now }
    requires y_within { y < third_size condition view.now.parts.now view.now.group.now }
    ensures { IsTrue result ↔ AsksHere view.now.parts.now view.now.group.now view.now.analysis.now condition (tuple_for condition u x y) }
{
    match condition {
        Condition::Cycle => !view.is_above(u, u),
        Condition::Roots => true,
        Condition::Mothers => counted(counts, 0, u) <= 1,
        Condition::Pair => counted(counts, u, x) <= 1,
        Condition::InCount => passes_in(view, u, x, counted(counts, u, x)),
        Condition::OutCount => passes_out(view, u, x, counted(counts, u, x)),
        Condition::Order => passes_order(view, u, x, y),
        Condition::Between => passes_between(view, u, x, y),
        Condition::Agr => passes_agr(view, u),
        Condition::Agree => passes_agree(view, u, x, y),
        Condition::Govern => passes_govern(view, u, x, y),
        Condition::Below => passes_below(view, u, x),
        Condition::Blocked => passes_blocked(view, u, x),
        Condition::Link => passes_link(view, u, x, y),
        Condition::Rule => true,
        Condition::Bound => true,
    }
}
