//! What new paths and gone ones can have changed: they lead along an edge that was lost, so one end lies above the mother and one below
//! the daughter.

ghost use Rattle.std.specs.Prelude.{◌≡◌, ◌<◌, ◌↔◌, ℕ, IsTrue, true};
ghost use Rattle.xdg_facts.specs.Rises.{has};
ghost use Rattle.xdg_problem.specs.Analyses.{IsPlace};
ghost use Rattle.xdg_problem.specs.Claims.{IsOf, claim};
ghost use Rattle.xdg_problem.specs.Truths.{unbound};
ghost use Rattle.xdg_graph.specs.Edges.{edges_of};
ghost use Rattle.xdg_store.specs.Decisions.{IsDecision};
ghost use Rattle.xdg_propcore.specs.Standing.{box_at};
ghost use Rattle.xdg_formula_value.specs.Filling.{ArePaths};
ghost use Rattle.xdg_formula_value.specs.Lost.{AgreeBut, Finds, HasEarlier, IsBy, IsMade, MovesPath, OnNames, Passes, Seen};

use crate::kept::are_paths_kept;
use crate::lost::{fewer, found};
use crate::names::is_named;
use crate::pair::only;
use crate::paths::Paths;
use crate::reach::reach_with;
use crate::way::Way;
use xdg_base::DimId;
use xdg_graph::{Which, node_count};
use xdg_nodeset::NodeSet;
use xdg_problem::{Edge, Formula, bind, none_bound};
use xdg_store::{Decision, Mark, Store};

/// So many ends of paths at most, and a look goes to all of them.
const FEW: usize = 4;

/// Whether some nodes for free names let the box make a formula true, or false, where a name that is one of some stands for a node of a
/// set.
fn found_within(
    store: &Store,
    paths: &Paths,
    free: NodeSet,
    names: NodeSet,
    name: u8,
    ends: NodeSet,
    formula: &Formula,
    truth: bool,
) -> bool
    requires paths { ArePaths store.now paths.now }
    requires is_of { IsOf store.now.parts (claim formula.now) }
    ensures { Finds store.now.parts store.now.now (claim formula.now) truth
        (λ b. AgreeBut free unbound b × (has names name ≡ true → has ends (b name) ≡ true)) result }
{
    // Each store holds a sentence of at least one word.
    let _ = node_count(store);
    if !is_named(names, name) {
        return found(store, paths, &none_bound(), free, formula, truth);
    }
    let rest = fewer(free, name);
    for node in paths.all.meet(&ends).iter() {
        let here = bind(&none_bound(), name, node.0);
        if found(store, paths, &here, rest, formula, truth) {
            return true;
        }
    }
    false
}

/// Whether a name is one of some and stands for a node of a set that has few.
fn is_few(names: NodeSet, name: u8, ends: NodeSet) -> bool {
    is_named(names, name) && ends.len() <= FEW
}

/// Whether some nodes for free names let the box make a formula true, or false, where a name stands for a node of an edge: the lower name for
/// the daughter, if it's one of some names, else the upper one for the mother.
fn found_near(
    store: &Store,
    paths: &Paths,
    free: NodeSet,
    names: NodeSet,
    edge: Edge,
    upper: u8,
    lower: u8,
    formula: &Formula,
    truth: bool,
) -> bool
    requires paths { ArePaths store.now paths.now }
    requires is_of { IsOf store.now.parts (claim formula.now) }
    requires place { IsPlace store.now.parts edge }
    ensures { IsTrue result → IsMade store.now.parts store.now.now (claim formula.now) truth }
{
    if is_named(names, lower) {
        return found_within(
            store,
            paths,
            free,
            names,
            lower,
            only(edge.daughter),
            formula,
            truth,
        );
    }
    found_within(
        store,
        paths,
        free,
        names,
        upper,
        only(edge.mother),
        formula,
        truth,
    )
}

/// The edges by which paths are new with an edge that must be, or gone with one that may not be.
fn edges_by(store: &Store, edge: Edge) -> Which
    requires { IsPlace store.now.parts edge }
    ensures { IsBy result store.now.parts store.now.now edge }
{
    if store.must(edge) {
        return Which::Must;
    }
    Which::May
}

/// Whether some nodes for free names let the box make a formula true, or false, where paths along some edges and one edge more lead from the
/// node for a name to that for another. It goes to the nodes for one of the names where they are few, and else only to that which is next to
/// the edge; then not all was seen.
fn found_along(
    store: &Store,
    paths: &Paths,
    free: NodeSet,
    names: NodeSet,
    which: Which,
    dim: DimId,
    edge: Edge,
    upper: u8,
    lower: u8,
    formula: &Formula,
    truth: bool,
    seen: &mut bool,
) -> bool
    requires paths { ArePaths store.now paths.now }
    requires is_of { IsOf store.now.parts (claim formula.now) }
    requires place { IsPlace store.now.parts edge }
    ensures seen { seen.new ≡ true → seen.old ≡ true }
    ensures finds { Finds store.now.parts store.now.now (claim formula.now) truth
        (Seen seen.new (λ b. AgreeBut free unbound b
        × OnNames names (λ a. Passes (edges_of which store.now.parts store.now.now dim.0) edge (a upper) (a lower)) b)) result }
{
    let under = reach_with(store, Way::Down, which, dim, edge.daughter);
    if is_few(names, lower, under) {
        return found_within(store, paths, free, names, lower, under, formula, truth);
    }
    let over = reach_with(store, Way::Up, which, dim, edge.mother);
    if is_few(names, upper, over) {
        return found_within(store, paths, free, names, upper, over, formula, truth);
    }
    *seen = false;
    found_near(
        store, paths, free, names, edge, upper, lower, formula, truth,
    )
}

/// The same, where the paths from the node for a name to that for another may be new since a mark, or gone, with a decision.
pub(crate) fn found_path(
    store: &Store,
    paths: &Paths,
    free: NodeSet,
    names: NodeSet,
    decision: Decision,
    dim: DimId,
    upper: u8,
    lower: u8,
    formula: &Formula,
    truth: bool,
    since: Mark,
    seen: &mut bool,
) -> bool
    requires paths { ArePaths store.now paths.now }
    requires is_of { IsOf store.now.parts (claim formula.now) }
    requires decision { IsDecision store.now.parts decision }
    requires earlier { HasEarlier store.now since }
    ensures seen { seen.new ≡ true → seen.old ≡ true }
    ensures finds { Finds store.now.parts store.now.now (claim formula.now) truth
        (Seen seen.new (λ b. AgreeBut free unbound b
        × OnNames names (λ a. MovesPath store.now.parts (box_at store.now since) store.now.now decision dim.0 (a upper) (a lower)) b)) result }
{
    match decision {
        Decision::Entry(_) => false,
        Decision::Attr(_, _, _) => false,
        Decision::Place(edge) => {
            if are_paths_kept(store, dim, since) {
                return false;
            }
            let which = edges_by(store, edge);
            found_along(
                store, paths, free, names, which, dim, edge, upper, lower, formula, truth, seen,
            )
        }
    }
}
