//! Runs of decisions on edges that have one value left, row by row.

ghost use Rattle.std.specs.Prelude.{◌≡◌, ◌<◌, ◌≤◌, ◌+◌, ◌++◌, length, replicate};
ghost use Rattle.std.specs.Vec.{vec_capacity};
ghost use Rattle.xdg_problem.specs.Places.{places};
ghost use Rattle.xdg_problem.specs.Vectors.{first_place, shape};
ghost use Rattle.xdg_store.specs.States.{Known};
ghost use Rattle.xdg_stream.specs.Runs.{Adds};

use crate::decision::first_edge;
use crate::row::{absent_from, no_row, number_in, read_row};
use xdg_problem::Edge;
use xdg_store::{Mark, Store};

/// Adds the numbers of edges that are absent, and the same mark for each.
fn add_absent(count: usize, mark: Mark, marks: &mut Vec<Mark>, numbers: &mut Vec<u16>)
    requires for_numbers { length numbers.old.items + count ≤ vec_capacity numbers.old }
    requires for_marks { length marks.old.items + count ≤ vec_capacity marks.old }
    ensures numbers { numbers.new.items ≡ numbers.old.items ++ replicate count 1 }
    ensures marks { marks.new.items ≡ marks.old.items ++ replicate count mark }
    ensures number_room { vec_capacity numbers.old ≤ vec_capacity numbers.new }
    ensures mark_room { vec_capacity marks.old ≤ vec_capacity marks.new }
{
    let numbered = numbers.resize(numbers.len() + count, 1);
    prove!(numbered.is_ok());
    let marked = marks.resize(marks.len() + count, mark);
    prove!(marked.is_ok());
}

/// Adds what `add_alone` adds, to a prefix that has the numbers of all decisions before those on edges.
#[tactic(auto, using(crate::proofs::Reading::none_read))]
pub(crate) fn add_edges(
    store: &Store,
    decisions: usize,
    edge_places: &[Edge],
    mark: Mark,
    marks: &mut Vec<Mark>,
    numbers: &mut Vec<u16>,
    most: u64,
) -> u64
    requires decisions { decisions ≡ length (shape store.now.parts) }
    requires listed { edge_places.now ≡ places store.now.parts }
    requires known { Known store.now }
    requires behind { first_place store.now.parts ≤ length numbers.old.items }
    requires count { length marks.old.items ≡ length numbers.old.items + 1 }
    requires for_numbers { length (shape store.now.parts) ≤ vec_capacity numbers.old }
    requires for_marks { length (shape store.now.parts) < vec_capacity marks.old }
    ensures adds { Adds store.now.now mark marks.old.items numbers.old.items marks.new.items numbers.new.items most result }
    ensures number_room { vec_capacity numbers.old ≤ vec_capacity numbers.new }
    ensures mark_room { vec_capacity marks.old ≤ vec_capacity marks.new }
{
    let width = store.problem().parts().words.len().saturating_sub(1);
    let first = first_edge(store, decisions, edge_places);
    let mut row = no_row();
    let mut added = 0;
    let mut place = numbers.len() - first;
    'places: while place < edge_places.len() {
        if added == most {
            return added;
        }
        let edge = edge_places[place];
        read_row(&mut row, store, edge);
        let absent = absent_from(&row, edge_places, place, width, most - added);
        if absent > 0 {
            add_absent(absent, mark, marks, numbers);
            added += absent as u64;
            place += absent;
            continue;
        }
        let Some(value) = number_in(&row, edge.daughter) else {
            return added;
        };
        marks.push_reserved(mark);
        numbers.push_reserved(value);
        added += 1;
        place += 1;
    }
    added
}
