//! Runs of decisions that have one value left.

ghost use Rattle.std.specs.Prelude.{◌≡◌, ℕ, ◌<◌, ◌≤◌, ◌+◌, ◌-◌, IfSome, length, slice_index};
ghost use Rattle.std.specs.Vec.{vec_capacity};
ghost use Rattle.xdg_problem.specs.Places.{places};
ghost use Rattle.xdg_problem.specs.Vectors.{shape};
ghost use Rattle.xdg_store.specs.States.{Known};
ghost use Rattle.xdg_store.specs.Decisions.{IsDecision, number_of};
ghost use Rattle.xdg_stream.specs.Runs.{IsAlone, Adds};

use crate::decision::{decision_at, first_edge, remains};
use crate::edge_runs::add_edges;
use xdg_problem::Edge;
use xdg_store::{Decision, Mark, Store};

/// The value of a decision that remains, if no other one does.
fn last_value(store: &Store, decision: Decision, size: u16) -> Option<u16>
    requires is { IsDecision store.now.parts decision }
    requires size { size ≡ slice_index (shape store.now.parts) (number_of store.now.parts decision) }
    requires known { Known store.now }
    ensures { IfSome result (λ value. IsAlone store.now.now (number_of store.now.parts decision) value) }
{
    let mut found = None;
    for value in 0..size {
        if !remains(store, decision, value) {
            continue;
        }
        if found.is_some() {
            return None;
        }
        found = Some(value);
    }
    found
}

/// The same, by the number of the decision. How many decisions there are on the sentence is given, and its edge places.
fn alone(store: &Store, decisions: usize, edge_places: &[Edge], at: usize) -> Option<u16>
    requires decisions { decisions ≡ length (shape store.now.parts) }
    requires listed { edge_places.now ≡ places store.now.parts }
    requires within { at < length (shape store.now.parts) }
    requires known { Known store.now }
    ensures { IfSome result (λ value. IsAlone store.now.now at value) }
{
    let problem = store.problem();
    let decision = decision_at(problem, decisions, edge_places, at);
    let size = problem.value_count(at) as u16;
    last_value(store, decision, size)
}

/// Adds what `add_alone` adds, as far as it comes before the decisions on edges.
fn add_first(
    store: &Store,
    decisions: usize,
    edge_places: &[Edge],
    mark: Mark,
    marks: &mut Vec<Mark>,
    numbers: &mut Vec<u16>,
    most: u64,
) -> u64
    requires decisions { decisions ≡ length (shape store.now.parts) }
    requires listed { edge_places.now ≡ places store.now.parts }
    requires known { Known store.now }
    requires count { length marks.old.items ≡ length numbers.old.items + 1 }
    requires for_numbers { length (shape store.now.parts) ≤ vec_capacity numbers.old }
    requires for_marks { length (shape store.now.parts) < vec_capacity marks.old }
    ensures adds { Adds store.now.now mark marks.old.items numbers.old.items marks.new.items numbers.new.items most result }
    ensures number_room { vec_capacity numbers.new ≡ vec_capacity numbers.old }
    ensures mark_room { vec_capacity marks.new ≡ vec_capacity marks.old }
{
    let first = first_edge(store, decisions, edge_places);
    let mut added = 0;
    for at in numbers.len()..first {
        if added == most {
            return added;
        }
        let Some(value) = alone(store, decisions, edge_places, at) else {
            return added;
        };
        marks.push_reserved(mark);
        numbers.push_reserved(value);
        added += 1;
    }
    added
}

/// Adds to a prefix, whose box the store has, the numbers of the next decisions that have one value left, and so many of them
/// at most. Each gets the mark of that box. It answers how many.
pub(crate) fn add_alone(
    store: &Store,
    decisions: usize,
    edge_places: &[Edge],
    mark: Mark,
    marks: &mut Vec<Mark>,
    numbers: &mut Vec<u16>,
    most: u64,
) -> u64
    requires decisions { decisions ≡ length (shape store.now.parts) }
    requires listed { edge_places.now ≡ places store.now.parts }
    requires known { Known store.now }
    requires count { length marks.old.items ≡ length numbers.old.items + 1 }
    requires for_numbers { length (shape store.now.parts) ≤ vec_capacity numbers.old }
    requires for_marks { length (shape store.now.parts) < vec_capacity marks.old }
    ensures adds { Adds store.now.now mark marks.old.items numbers.old.items marks.new.items numbers.new.items most result }
    ensures number_room { vec_capacity numbers.old ≤ vec_capacity numbers.new }
    ensures mark_room { vec_capacity marks.old ≤ vec_capacity marks.new }
{
    let added = add_first(store, decisions, edge_places, mark, marks, numbers, most);
    let reached = numbers.len();
    let first = first_edge(store, decisions, edge_places);
    if reached < first {
        return added;
    }
    let more = add_edges(
        store,
        decisions,
        edge_places,
        mark,
        marks,
        numbers,
        most - added,
    );
    added + more
}

/// The last place of a mark that differs from the one before it, or 0 where there is none.
pub(crate) fn last_turn(marks: &[Mark]) -> usize
    ensures within { result ≤ length marks.now - 1 }
    ensures same { (k : ℕ) → result ≤ k → k < length marks.now → slice_index marks.now k ≡ slice_index marks.now result }
{
    let mut at = marks.len().saturating_sub(1);
    'back: while at > 0 {
        if marks[at] != marks[at - 1] {
            return at;
        }
        at -= 1;
    }
    at
}
