//! A vector, and the analysis that it stands for.

ghost use Rattle.std.specs.Prelude.{◌≡◌, ◌≤◌, [], length, take, drop, IfOk, slice_index_or};
ghost use Rattle.std.specs.Vec.{vec_capacity};
ghost use Rattle.xdg_base.specs.declared.ids.EntryNo.{EntryNo};
ghost use Rattle.xdg_problem.specs.Places.{places};
ghost use Rattle.xdg_problem.specs.Problems.{IsProblem};
ghost use Rattle.xdg_problem.specs.Vectors.{analysis_of, chosen, entries_at, shape};

use std::alloc::Global;
use std::marker::Model;
use xdg_base::{EntryNo, List, OutOfMemory};
use xdg_problem::{Edge, Problem, SharedList};

/// A vector of decisions, whole or not, with the entries and edges that it stands for. All memory is taken at the start.
#[derive(Debug, Drop)]
pub(crate) struct Held<'a> {
    problem: &'a Problem,
    // How many decisions come before those on edges.
    first: usize,
    numbers: Vec<u16>,
    entries: Vec<EntryNo>,
    edges: Vec<Edge>,
}

impl<'a> Model for Held<'a> {
    ghost use Rattle.std.specs.Vec.{vec_capacity};
    ghost use Rattle.xdg_stream.specs.Fronted.{Fronted};
    ghost use Rattle.xdg_stream.specs.Vectored.{HasAnalysis};
    ghost use Rattle.std.specs.Coded.{codes};
    ghost use Rattle.xdg_problem.specs.contracts.formula.Formula as formula;

    ghost Value = { Fronted };

    ghost coded = { Prim.hlevel (codes, formula.the_row.coded) };

    ghost view = { λ h. record { parts = h.problem.now; numbers = h.numbers.items } };

    ghost invariant = { λ h. HasAnalysis h.problem.now h.first h.numbers.items h.entries.items h.edges.items (vec_capacity h.numbers) (vec_capacity h.entries)
        (vec_capacity h.edges) };
}

/// The candidate at a place, or entry 0 where there is none.
fn candidate_at(candidates: &[EntryNo], place: u16) -> EntryNo
    ensures { result ≡ slice_index_or candidates.now place (record { 0 = 0 }) }
{
    match candidates.get(usize::from(place)) {
        Some(entry) => *entry,
        None => EntryNo(0),
    }
}

/// Puts the numbers of a vector in the place of others, in the memory that is there.
pub(crate) fn refill_numbers(held: &mut Vec<u16>, numbers: &[u16])
    requires { length numbers.now ≤ vec_capacity held.old }
    ensures items { held.new.items ≡ numbers.now }
    ensures room { vec_capacity held.new ≡ vec_capacity held.old }
{
    if held.len() == numbers.len() {
        held.copy_from_slice(numbers);
        return;
    }
    held.clear();
    for number in numbers {
        held.push_reserved(*number);
    }
}

/// Puts the entries of a vector in the place of others, in the memory that is there.
fn refill_entries(held: &mut Vec<EntryNo>, candidates: &[SharedList<EntryNo>], numbers: &[u16])
    requires { length candidates.now ≤ vec_capacity held.old }
    ensures items { held.new.items ≡ entries_at candidates.now numbers.now }
    ensures room { vec_capacity held.new ≡ vec_capacity held.old }
{
    held.clear();
    for (node, number) in numbers.iter().enumerate() {
        if node >= candidates.len() {
            return;
        }
        held.push_reserved(candidate_at(candidates[node].as_slice(), *number));
    }
}

/// Puts the places whose number is 0 in the place of other edges, in the memory that is there.
fn refill_edges(held: &mut Vec<Edge>, edge_places: &[Edge], numbers: &[u16])
    requires { length edge_places.now ≤ vec_capacity held.old }
    ensures items { held.new.items ≡ chosen edge_places.now numbers.now }
    ensures room { vec_capacity held.new ≡ vec_capacity held.old }
{
    held.clear();
    for (place, number) in numbers.iter().enumerate() {
        if place >= edge_places.len() {
            return;
        }
        if *number != 0 {
            continue;
        }
        held.push_reserved(edge_places[place]);
    }
}

/// The numbers behind the first so many.
fn behind(numbers: &[u16], first: usize) -> &[u16]
    ensures { result.now ≡ drop first numbers.now }
{
    if numbers.len() <= first {
        return &[];
    }
    &numbers[first..]
}

/// The first so many numbers.
fn up_to(numbers: &[u16], count: usize) -> &[u16]
    ensures { result.now ≡ take count numbers.now }
{
    if numbers.len() <= count {
        return numbers;
    }
    &numbers[..count]
}

impl<'a> Held<'a> {
    /// The empty vector, with memory for each other one.
    pub(crate) fn start(
        alloc: Global,
        problem: &'a Problem,
        edge_places: &[Edge],
    ) -> Result<Held<'a>, OutOfMemory>
        requires { edge_places.now ≡ places problem.now }
        ensures empty { IfOk result (λ held. (held.parts ≡ problem.entry.now) × (held.numbers ≡ [])) }
        ensures problem { IsProblem problem.entry.now }
    {
        let parts = problem.parts();
        let decisions = problem.decisions() as usize;
        let numbers = Vec::with_capacity(alloc, decisions)?;
        let entries = Vec::with_capacity(alloc, parts.candidates.len())?;
        let edges = Vec::with_capacity(alloc, edge_places.len())?;
        Ok(Held {
            problem,
            first: decisions - edge_places.len(),
            numbers,
            entries,
            edges,
        })
    }

    /// Holds another vector. The edge places of the sentence are given.
    pub(crate) fn refill(&mut self, edge_places: &[Edge], numbers: &[u16])
        requires listed { edge_places.now ≡ places self.old.parts }
        requires short { length numbers.now ≤ length (shape self.old.parts) }
        ensures parts { self.new.parts ≡ self.old.parts }
        ensures numbers { self.new.numbers ≡ numbers.now }
    {
        let candidates = self.problem.parts().candidates.as_slice();
        refill_numbers(&mut self.numbers, numbers);
        refill_entries(&mut self.entries, candidates, numbers);
        refill_edges(&mut self.edges, edge_places, behind(numbers, self.first));
    }

    /// The entries of its analysis.
    pub(crate) fn entries(&self) -> &[EntryNo]
        ensures { result.now ≡ (analysis_of self.now.parts self.now.numbers).entries }
    {
        self.entries.as_slice()
    }

    /// The numbers of its attributes' values.
    pub(crate) fn attrs(&self) -> &[u16]
        ensures { result.now ≡ (analysis_of self.now.parts self.now.numbers).attrs }
    {
        let nodes = self.problem.parts().candidates.len();
        up_to(behind(self.numbers.as_slice(), nodes), self.first - nodes)
    }

    /// Its edges.
    pub(crate) fn edges(&self) -> &[Edge]
        ensures { result.now ≡ (analysis_of self.now.parts self.now.numbers).edges }
    {
        self.edges.as_slice()
    }
}
