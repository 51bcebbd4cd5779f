//! What the loss of values can have changed: a formula is looked at only under bindings under which it looks at a decision that lost some.

ghost use Rattle.std.specs.Prelude.{◌≡◌, ◌<◌, ◌↔◌, IfSome, IsTrue, map, true};
ghost use Rattle.xdg_facts.specs.Rises.{has};
ghost use Rattle.xdg_problem.specs.Analyses.{IsPlace};
ghost use Rattle.xdg_problem.specs.Claims.{IsOf, claim, claims_of};
ghost use Rattle.xdg_problem.specs.Places.{nodes};
ghost use Rattle.xdg_problem.specs.Truths.{unbound, AreNodes, stands};
ghost use Rattle.xdg_rules.specs.Worths.{Makes};
ghost use Rattle.xdg_store.specs.Decisions.{IsDecision};
ghost use Rattle.xdg_propcore.specs.Standing.{box_at};
ghost use Rattle.xdg_formula_value.specs.Filling.{ArePaths};
ghost use Rattle.xdg_formula_value.specs.Lost.{AgreeBut, AsksIf, Concerns, ConcernsSome, Finds, HasEarlier, LosesOne, OnNames, Seen};
ghost use Rattle.xdg_formula_value.specs.Lost.{IsAttrOf, IsEdgeOf, IsEntryOf};

use crate::along::found_path;
use crate::lost::{fewer, found};
use crate::names::{is_named, outside};
use crate::paths::Paths;
use xdg_base::{AttrId, DimId, LabelId, NodeId};
use xdg_nodeset::NodeSet;
use xdg_problem::{Binding, Edge, Formula, bind, none_bound};
use xdg_store::{Decision, Mark, Store};

/// Whether some nodes for free names, and for others those of a binding, let the box make a formula true, or false, where a name that is
/// one of some stands for a node.
fn found_named(
    store: &Store,
    paths: &Paths,
    binding: &Binding,
    free: NodeSet,
    names: NodeSet,
    name: u8,
    node: NodeId,
    formula: &Formula,
    truth: bool,
) -> bool
    requires paths { ArePaths store.now paths.now }
    requires is_of { IsOf store.now.parts (claim formula.now) }
    requires nodes { AreNodes store.now.parts (stands binding.now) }
    requires node { node.0 < nodes store.now.parts }
    ensures { Finds store.now.parts store.now.now (claim formula.now) truth
        (λ b. AgreeBut free (stands binding.now) b × (has names name ≡ true → b name ≡ node.0)) result }
{
    if !is_named(names, name) {
        return found(store, paths, binding, free, formula, truth);
    }
    let here = bind(binding, name, node.0);
    found(store, paths, &here, fewer(free, name), formula, truth)
}

/// The same, where a decision is that of the entry of the node for which a name stands.
fn found_entry(
    store: &Store,
    paths: &Paths,
    free: NodeSet,
    names: NodeSet,
    decision: Decision,
    name: u8,
    formula: &Formula,
    truth: bool,
) -> bool
    requires paths { ArePaths store.now paths.now }
    requires is_of { IsOf store.now.parts (claim formula.now) }
    requires decision { IsDecision store.now.parts decision }
    ensures { Finds store.now.parts store.now.now (claim formula.now) truth
        (λ b. AgreeBut free unbound b × OnNames names (λ a. IsEntryOf decision (a name)) b) result }
{
    // Each store holds a box.
    let _ = store.turns();
    match decision {
        Decision::Entry(node) => {
            found_named(
                store,
                paths,
                &none_bound(),
                free,
                names,
                name,
                node,
                formula,
                truth,
            )
        }
        Decision::Attr(_, _, _) => false,
        Decision::Place(_) => false,
    }
}

/// Whether an attribute of a dimension is another.
fn is_attr(on: DimId, which: AttrId, dim: DimId, attr: AttrId) -> bool
    ensures { IsTrue result ↔ ((on.0 ≡ dim.0) × (which.0 ≡ attr.0)) }
{
    on.0 == dim.0 && which.0 == attr.0
}

/// The same, where a decision is that of an attribute of the node for which a name stands.
fn found_attr(
    store: &Store,
    paths: &Paths,
    free: NodeSet,
    names: NodeSet,
    decision: Decision,
    name: u8,
    dim: DimId,
    attr: AttrId,
    formula: &Formula,
    truth: bool,
) -> bool
    requires paths { ArePaths store.now paths.now }
    requires is_of { IsOf store.now.parts (claim formula.now) }
    requires decision { IsDecision store.now.parts decision }
    ensures { Finds store.now.parts store.now.now (claim formula.now) truth
        (λ b. AgreeBut free unbound b × OnNames names (λ a. IsAttrOf decision dim.0 (a name) attr.0) b) result }
{
    // Each store holds a box.
    let _ = store.turns();
    match decision {
        Decision::Entry(_) => false,
        Decision::Attr(on, node, which) => {
            if !is_attr(on, which, dim, attr) {
                return false;
            }
            found_named(
                store,
                paths,
                &none_bound(),
                free,
                names,
                name,
                node,
                formula,
                truth,
            )
        }
        Decision::Place(_) => false,
    }
}

/// Whether an edge is on a dimension and has a label.
fn has_label(edge: Edge, dim: DimId, label: LabelId) -> bool
    ensures { IsTrue result ↔ ((edge.dim.0 ≡ dim.0) × (edge.label.0 ≡ label.0)) }
{
    edge.dim.0 == dim.0 && edge.label.0 == label.0
}

/// The same, where two names stand for the nodes of an edge.
fn found_ends(
    store: &Store,
    paths: &Paths,
    free: NodeSet,
    names: NodeSet,
    edge: Edge,
    mother: u8,
    daughter: u8,
    formula: &Formula,
    truth: bool,
) -> bool
    requires paths { ArePaths store.now paths.now }
    requires is_of { IsOf store.now.parts (claim formula.now) }
    requires place { IsPlace store.now.parts edge }
    ensures { Finds store.now.parts store.now.now (claim formula.now) truth
        (λ b. AgreeBut free unbound b × OnNames names (λ a. (edge.mother.0 ≡ a mother) × (edge.daughter.0 ≡ a daughter)) b) result }
{
    if mother == daughter {
        return false;
    }
    if !is_named(names, mother) {
        return found_named(
            store,
            paths,
            &none_bound(),
            free,
            names,
            daughter,
            edge.daughter,
            formula,
            truth,
        );
    }
    let here = bind(&none_bound(), mother, edge.mother.0);
    found_named(
        store,
        paths,
        &here,
        fewer(free, mother),
        names,
        daughter,
        edge.daughter,
        formula,
        truth,
    )
}

/// The same, where a decision is that of an edge with a label of which they are the nodes.
fn found_edge(
    store: &Store,
    paths: &Paths,
    free: NodeSet,
    names: NodeSet,
    decision: Decision,
    dim: DimId,
    mother: u8,
    label: LabelId,
    daughter: u8,
    formula: &Formula,
    truth: bool,
) -> bool
    requires paths { ArePaths store.now paths.now }
    requires is_of { IsOf store.now.parts (claim formula.now) }
    requires decision { IsDecision store.now.parts decision }
    ensures { Finds store.now.parts store.now.now (claim formula.now) truth
        (λ b. AgreeBut free unbound b × OnNames names (λ a. IsEdgeOf decision dim.0 (a mother) label.0 (a daughter)) b) result }
{
    match decision {
        Decision::Entry(_) => false,
        Decision::Attr(_, _, _) => false,
        Decision::Place(edge) => {
            if !has_label(edge, dim, label) {
                return false;
            }
            found_ends(
                store, paths, free, names, edge, mother, daughter, formula, truth,
            )
        }
    }
}

/// Whether some nodes for free names let the box make a formula true, or false, where a decision is one at which a part of it looks, or one
/// with which paths for which it asks may be new since a mark, or gone. For which nodes some of the names stand follows from the decision. It
/// notes where not all was seen.
#[cycle(about)]
#[tactic(auto, using(crate::proofs::Claiming::the_claims))]
fn found_about(
    store: &Store,
    paths: &Paths,
    free: NodeSet,
    names: NodeSet,
    decision: Decision,
    part: &Formula,
    formula: &Formula,
    truth: bool,
    since: Mark,
    seen: &mut bool,
) -> bool
    requires paths { ArePaths store.now paths.now }
    requires is_of { IsOf store.now.parts (claim formula.now) }
    requires decision { IsDecision store.now.parts decision }
    requires earlier { HasEarlier store.now since }
    ensures seen { seen.new ≡ true → seen.old ≡ true }
    ensures finds { Finds store.now.parts store.now.now (claim formula.now) truth
        (Seen seen.new (λ b. AgreeBut free unbound b
        × OnNames names (Concerns store.now.parts (box_at store.now since) store.now.now decision (claim part.now)) b)) result }
{
    match part {
        Formula::Not(inner) => {
            let body = inner.get();
            found_about(
                store, paths, free, names, decision, body, formula, truth, since, seen,
            )
        }
        Formula::And(parts) => {
            let parts = parts.as_slice();
            found_among(
                store, paths, free, names, decision, parts, formula, truth, since, seen,
            )
        }
        Formula::Or(parts) => {
            let parts = parts.as_slice();
            found_among(
                store, paths, free, names, decision, parts, formula, truth, since, seen,
            )
        }
        Formula::Every(name, inner) => {
            let body = inner.get();
            let rest = outside(names, *name);
            found_about(
                store, paths, free, rest, decision, body, formula, truth, since, seen,
            )
        }
        Formula::Any(name, inner) => {
            let body = inner.get();
            let rest = outside(names, *name);
            found_about(
                store, paths, free, rest, decision, body, formula, truth, since, seen,
            )
        }
        Formula::Edge(dim, mother, label, daughter) => {
            found_edge(
                store, paths, free, names, decision, *dim, *mother, *label, *daughter, formula,
                truth,
            )
        }
        Formula::Above(dim, upper, lower) => {
            found_path(
                store, paths, free, names, decision, *dim, *upper, *lower, formula, truth, since,
                seen,
            )
        }
        Formula::Left(_, _) => false,
        Formula::Same(_, _) => false,
        Formula::Attr(name, dim, attr, _) => {
            found_attr(
                store, paths, free, names, decision, *name, *dim, *attr, formula, truth,
            )
        }
        Formula::Feat(name, _) => {
            found_entry(store, paths, free, names, decision, *name, formula, truth)
        }
    }
}

/// The same, where it is one of some parts that looks at the decision.
#[cycle(about)]
#[tactic(auto, using(xdg_problem::specs::declared::formula::Formula::TheViews::the_lemmas, crate::proofs::Concerning::touched_steps))]
fn found_among(
    store: &Store,
    paths: &Paths,
    free: NodeSet,
    names: NodeSet,
    decision: Decision,
    parts: &[Formula],
    formula: &Formula,
    truth: bool,
    since: Mark,
    seen: &mut bool,
) -> bool
    requires paths { ArePaths store.now paths.now }
    requires is_of { IsOf store.now.parts (claim formula.now) }
    requires decision { IsDecision store.now.parts decision }
    requires earlier { HasEarlier store.now since }
    ensures seen { seen.new ≡ true → seen.old ≡ true }
    ensures finds { Finds store.now.parts store.now.now (claim formula.now) truth
        (Seen seen.new (λ b. AgreeBut free unbound b
        × OnNames names (ConcernsSome store.now.parts (box_at store.now since) store.now.now decision (claims_of (map claim parts.now))) b)) result }
{
    for part in parts {
        if found_about(
            store, paths, free, names, decision, part, formula, truth, since, seen,
        ) {
            return true;
        }
    }
    false
}

/// Whether some nodes for names let the box make a formula true, or false, where they didn't let an earlier box, or None where that wasn't
/// seen. It looks only where a part of the formula looks at a decision that has lost values, or where paths are new or gone with it, and
/// makes no tables of paths.
pub(crate) fn found_since(
    store: &Store,
    names: NodeSet,
    formula: &Formula,
    truth: bool,
    since: Mark,
) -> Option<bool>
    requires is_of { IsOf store.now.parts (claim formula.now) }
    requires asks { AsksIf (LosesOne store.now.parts (box_at store.now since) store.now.now) (claim formula.now) }
    requires earlier { HasEarlier store.now since }
    ensures { IfSome result (λ found. Finds store.now.parts store.now.now (claim formula.now) truth
        (λ b. AgreeBut names unbound b × (Makes store.now.parts (box_at store.now since) (claim formula.now) truth b → ⊥)) found) }
{
    let paths = Paths::of(store, None, None);
    let mut seen = true;
    for decision in store.removed_since(since) {
        if found_about(
            store, &paths, names, names, *decision, formula, formula, truth, since, &mut seen,
        ) {
            return Some(true);
        }
    }
    if !seen {
        return None;
    }
    Some(false)
}
