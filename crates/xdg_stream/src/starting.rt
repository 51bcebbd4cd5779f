//! The vector of an analysis.

ghost use Rattle.std.specs.Prelude.{◌≡◌, ◌≤◌, ◌<◌, ◌+◌, ◌++◌, ◌∷◌, [], length, map, IfOk, All};
ghost use Rattle.std.specs.Option.{option_copied};
ghost use Rattle.std.specs.Vec.{vec_capacity};
ghost use Rattle.xdg_base.specs.declared.ids.EntryNo.{EntryNo};
ghost use Rattle.xdg_problem.specs.Analyses.{IsAnalysis};
ghost use Rattle.xdg_problem.specs.Places.{places};
ghost use Rattle.xdg_problem.specs.Vectors.{entry_places, place_among, vector};
ghost use Rattle.xdg_stream.specs.Streamed.{IsStart, start_vector};
ghost use Rattle.xdg_stream.specs.Vectored.{marks, stands_first};

use std::alloc::Global;
use xdg_base::{EntryNo, List, OutOfMemory};
use xdg_problem::{Analysis, Edge, Problem, SharedList};

/// The place of an entry among the candidates of its node.
fn place_of(candidates: &[EntryNo], entry: EntryNo) -> u16
    requires { length candidates.now ≤ 1024 }
    ensures { result ≡ place_among candidates.now entry }
{
    for (place, candidate) in candidates.iter().enumerate() {
        if candidate.0 == entry.0 {
            return place as u16;
        }
    }
    candidates.len() as u16
}

/// Adds the places of entries among the candidates of their nodes.
fn push_entries(numbers: &mut Vec<u16>, candidates: &[SharedList<EntryNo>], entries: &[EntryNo])
    requires small { All (λ (list : List EntryNo). length list ≤ 1024) candidates.now }
    requires room { length numbers.old.items + length candidates.now ≤ vec_capacity numbers.old }
    ensures items { numbers.new.items ≡ numbers.old.items ++ entry_places candidates.now entries.now }
    ensures room { vec_capacity numbers.new ≡ vec_capacity numbers.old }
{
    for (node, entry) in entries.iter().enumerate() {
        if node >= candidates.len() {
            return;
        }
        numbers.push_reserved(place_of(candidates[node].as_slice(), *entry));
    }
}

/// Adds the numbers of attributes' values.
fn push_attrs(numbers: &mut Vec<u16>, attrs: &[u16])
    requires { length numbers.old.items + length attrs.now ≤ vec_capacity numbers.old }
    ensures items { numbers.new.items ≡ numbers.old.items ++ attrs.now }
    ensures room { vec_capacity numbers.new ≡ vec_capacity numbers.old }
{
    for attr in attrs {
        numbers.push_reserved(*attr);
    }
}

/// Whether the first of some edges stands at a place.
fn stands(place: &Edge, edges: &[Edge]) -> bool
    ensures { result ≡ stands_first place.now edges.now }
{
    let Some(edge) = edges.first() else {
        return false;
    };
    place.dim.0 == edge.dim.0
        && place.mother.0 == edge.mother.0
        && place.label.0 == edge.label.0
        && place.daughter.0 == edge.daughter.0
}

/// Adds the numbers of the edge places: 0 where an edge is present, 1 elsewhere. The edges go in the order of the places.
fn push_marks(numbers: &mut Vec<u16>, edge_places: &[Edge], edges: &[Edge])
    requires { length numbers.old.items + length edge_places.now ≤ vec_capacity numbers.old }
    ensures items { numbers.new.items ≡ numbers.old.items ++ marks edge_places.now edges.now }
    ensures room { vec_capacity numbers.new ≡ vec_capacity numbers.old }
{
    let mut rest = edges;
    for place in edge_places {
        if stands(place, rest) {
            numbers.push_reserved(0);
            let (_, later) = rest.split_at(1);
            rest = later;
        } else {
            numbers.push_reserved(1);
        }
    }
}

/// The vector of an analysis. The edge places of the sentence are given.
fn vector_of(
    alloc: Global,
    problem: &Problem,
    edge_places: &[Edge],
    analysis: &Analysis,
) -> Result<Vec<u16>, OutOfMemory>
    requires listed { edge_places.now ≡ places problem.now }
    requires fits { IsAnalysis problem.now analysis.now }
    ensures { IfOk result (λ numbers. numbers.items ≡ vector problem.now analysis.now) }
{
    let parts = problem.parts();
    let mut numbers = Vec::with_capacity(alloc, problem.decisions() as usize)?;
    push_entries(
        &mut numbers,
        parts.candidates.as_slice(),
        analysis.entries.as_slice(),
    );
    push_attrs(&mut numbers, analysis.attrs.as_slice());
    push_marks(&mut numbers, edge_places, analysis.edges.as_slice());
    Ok(numbers)
}

/// The vector of the analysis behind which a stream begins, or the empty one where there is none.
pub(crate) fn start_of(
    alloc: Global,
    problem: &Problem,
    edge_places: &[Edge],
    after: Option<&Analysis>,
) -> Result<Vec<u16>, OutOfMemory>
    requires listed { edge_places.now ≡ places problem.now }
    requires fits { IsStart problem.now (option_copied after) }
    ensures { IfOk result (λ numbers. numbers.items ≡ start_vector problem.now (option_copied after.entry)) }
{
    match after {
        Some(analysis) => vector_of(alloc, problem, edge_places, analysis),
        None => Ok(Vec::new(alloc)),
    }
}
