//! From the box of a prefix to that of the prefix and one number more.

ghost use Rattle.std.specs.Prelude.{◌≡◌, ◌<◌, ℕ, List, ◌++◌, ◌∷◌, [], true, length, map, slice_index};
ghost use Rattle.xdg_problem.specs.Places.{places};
ghost use Rattle.xdg_problem.specs.Problems.{IsProblem};
ghost use Rattle.xdg_problem.specs.Vectors.{shape};
ghost use Rattle.xdg_propcore.specs.Steps.{Extends};
ghost use Rattle.xdg_store.specs.States.{Known};
ghost use Rattle.std.specs.Int.{bit_at};
ghost use Rattle.xdg_propcore.specs.Kinds.{kind_of};
ghost use Rattle.xdg_store.specs.Decisions.{IsDecision, number_of};
ghost use Rattle.xdg_store.specs.Naming.{LosesOf};
ghost use Rattle.xdg_propcore.specs.Uses.{AllStandIn};
ghost use Rattle.xdg_stream.specs.Levels.{AllStill, IsLevel, Narrows, Restricts};

use crate::decision::{decision_at, remove_others};
use xdg_problem::{Edge, Problem};
use xdg_propcore::{Agenda, Fixpoint, Propagator, Wake, settle_since};
use xdg_store::{Change, Decision, Store};

/// Takes all values of a decision away but one, 64 at a time, if that one remains. It answers whether others were taken; where
/// the value doesn't remain, some may be.
fn restrict(store: &mut Store, decision: Decision, size: u16, value: u16) -> Change
    requires is { IsDecision store.old.parts decision }
    requires size { size ≡ slice_index (shape store.old.parts) (number_of store.old.parts decision) }
    requires value { value < size }
    requires known { Known store.old }
    ensures extends { Extends store.old store.new }
    ensures restricts { Restricts result store.old.now store.new.now (number_of store.old.parts decision) value }
    ensures only { LosesOf store.old.now store.new.now (number_of store.old.parts decision) }
    ensures known { Known store.new }
{
    let mut change = Change::Same;
    for block in 0..size.div_ceil(64) {
        match remove_others(store, decision, block, value) {
            Change::Same => {}
            Change::Changed => change = Change::Changed,
            Change::Emptied => return Change::Emptied,
        }
    }
    change
}

/// The kind of the values of a decision.
fn kind_of(problem: &Problem, decision: Decision) -> Wake
    requires problem { IsProblem problem.now }
    requires is { IsDecision problem.now decision }
    ensures { bit_at result.0 (kind_of problem.now (number_of problem.now decision)) ≡ 1 }
{
    match decision {
        Decision::Entry(_) => Wake::entries(),
        Decision::Attr(dim, _, _) => Wake::attrs(dim),
        Decision::Place(edge) => Wake::edges(edge.dim),
    }
}

/// From the greatest closed box of a prefix to that of the prefix and a number for the next decision, if there is one.
pub(crate) fn narrow<P: Propagator>(
    store: &mut Store,
    props: &[P],
    agenda: &mut Agenda,
    decision: Decision,
    size: u16,
    value: u16,
) -> bool
    requires stand { AllStandIn P.stands props.now store.old.parts }
    requires agenda { agenda.old ≡ map P.kinds props.now }
    requires is { IsDecision store.old.parts decision }
    requires size { size ≡ slice_index (shape store.old.parts) (number_of store.old.parts decision) }
    requires value { value < size }
    requires still { AllStill P.still props.now store.old.parts store.old.now }
    requires known { Known store.old }
    ensures extends { Extends store.old store.new }
    ensures still { result ≡ true → AllStill P.still props.now store.new.parts store.new.now }
    ensures narrows { (p : List ℕ) → length p ≡ number_of store.old.parts decision → IsLevel store.old.parts p store.old.now
        → Narrows result store.old.parts (p ++ value ∷ []) store.new.now }
    ensures known { Known store.new }
    ensures agenda { agenda.new ≡ agenda.old }
{
    let since = store.mark();
    let lost = kind_of(store.problem(), decision);
    match restrict(store, decision, size, value) {
        Change::Same => true,
        Change::Changed => match settle_since(store, props, agenda, since, lost) {
            Fixpoint::Settled => true,
            Fixpoint::Dead => false,
        },
        Change::Emptied => false,
    }
}

/// The same, by the number of the decision. How many decisions there are on the sentence is given, and its edge places.
pub(crate) fn lengthen<P: Propagator>(
    store: &mut Store,
    props: &[P],
    agenda: &mut Agenda,
    decisions: usize,
    edge_places: &[Edge],
    at: usize,
    value: u16,
) -> bool
    requires stand { AllStandIn P.stands props.now store.old.parts }
    requires agenda { agenda.old ≡ map P.kinds props.now }
    requires decisions { decisions ≡ length (shape store.old.parts) }
    requires listed { edge_places.now ≡ places store.old.parts }
    requires within { at < length (shape store.old.parts) }
    requires value { value < slice_index (shape store.old.parts) at }
    requires still { AllStill P.still props.now store.old.parts store.old.now }
    requires known { Known store.old }
    ensures extends { Extends store.old store.new }
    ensures still { result ≡ true → AllStill P.still props.now store.new.parts store.new.now }
    ensures narrows { (p : List ℕ) → length p ≡ at → IsLevel store.old.parts p store.old.now → Narrows result store.old.parts (p ++ value ∷ []) store.new.now }
    ensures known { Known store.new }
    ensures agenda { agenda.new ≡ agenda.old }
{
    let problem = store.problem();
    let decision = decision_at(problem, decisions, edge_places, at);
    let size = problem.value_count(at) as u16;
    narrow(store, props, agenda, decision, size, value)
}
