//! Which of two analyses comes first.

ghost use Rattle.std.specs.Prelude.{◌≡◌, ◌↔◌, IsTrue, length, map};
ghost use Rattle.xdg_base.specs.declared.ids.EntryNo.{EntryNo};
ghost use Rattle.xdg_facts.specs.Order.{Less};
ghost use Rattle.xdg_problem.specs.Analyses.{IsAnalysis, Before};
ghost use Rattle.xdg_problem.specs.EdgeOrder.{EdgesLess};
ghost use Rattle.xdg_problem.specs.EntryNumbers.{entry_numbers};
ghost use Rattle.xdg_problem.specs.Problems.{IsProblem};
ghost use Rattle.xdg_problem.specs.Vectors.{vector};

use crate::analysis::{Analysis, Edge, is_before};
use crate::parts::Parts;
use std::cmp::Ordering;
use xdg_base::EntryNo;
use xdg_facts::compare;

/// Compares two lists of entries by their numbers.
fn compare_entries(a: &[EntryNo], b: &[EntryNo]) -> Ordering
    ensures less { (result ≡ Ordering.Less) ↔ Less (entry_numbers a.now) (entry_numbers b.now) }
    ensures equal { (result ≡ Ordering.Equal) ↔ (a.now ≡ b.now) }
    ensures greater { (result ≡ Ordering.Greater) ↔ Less (entry_numbers b.now) (entry_numbers a.now) }
{
    a.cmp(b)
}

/// Whether one list of edges comes before another.
#[tactic(auto, using(crate::proofs::EdgesCompared::edges_steps))]
fn edges_less(a: &[Edge], b: &[Edge]) -> bool
    ensures { IsTrue result ↔ EdgesLess Before a.now b.now }
{
    for (k, edge) in a.iter().enumerate() {
        if k >= b.len() {
            return true;
        }
        if is_before(edge, &b[k]) {
            return true;
        }
        if is_before(&b[k], edge) {
            return false;
        }
    }
    false
}

/// Whether an analysis comes before another: at the first decision in which they differ it has the earlier value.
#[tactic(auto, using(crate::proofs::Less::less_steps))]
pub fn comes_first(parts: &Parts, a: &Analysis, b: &Analysis) -> bool
    requires problem { IsProblem parts.now }
    requires a_fits { IsAnalysis parts.now a.now }
    requires b_fits { IsAnalysis parts.now b.now }
    ensures { IsTrue result ↔ Less (vector parts.now a.now) (vector parts.now b.now) }
{
    let _parts = parts;
    match compare_entries(a.entries.as_slice(), b.entries.as_slice()) {
        Ordering::Less => true,
        Ordering::Greater => false,
        Ordering::Equal => match compare(a.attrs.as_slice(), b.attrs.as_slice()) {
            Ordering::Less => true,
            Ordering::Greater => false,
            Ordering::Equal => edges_less(a.edges.as_slice(), b.edges.as_slice()),
        },
    }
}
