//! A problem.

ghost use Rattle.std.specs.Prelude.{◌≡◌, ◌<◌, ◌↔◌, IsTrue, length, slice_index, IfOk};
ghost use Rattle.xdg_facts.specs.Order.{Less};
ghost use Rattle.xdg_problem.specs.Analyses.{IsAnalysis};
ghost use Rattle.xdg_problem.specs.HasPlaces.{HasPlaces};
ghost use Rattle.xdg_problem.specs.OneToOne.{IsOneToOne};
ghost use Rattle.xdg_problem.specs.Places.{places};
ghost use Rattle.xdg_problem.specs.Problems.{IsProblem};
ghost use Rattle.xdg_problem.specs.Vectors.{shape, vector};

use crate::analysis::{Analysis, Edge};
use crate::parts::Parts;
use crate::{comparing, decisions, fitting, places, sizes};
use std::alloc::Global;
use std::marker::Model;
use xdg_base::{List, OutOfMemory};

/// A compiled sentence whose parts go together.
#[derive(Debug, Drop)]
pub struct Problem {
    parts: Parts,
}

impl Model for Problem {
    ghost use Rattle.xdg_problem.specs.declared.parts.Parts.{Parts};
    ghost use Rattle.xdg_problem.specs.Problems.{IsProblem};

    ghost Value = { Parts };

    ghost use Rattle.std.specs.Coded.{codes};
    ghost use Rattle.xdg_problem.specs.contracts.formula.Formula as formula;

    ghost coded = { Prim.hlevel (codes, formula.the_row.coded) };

    ghost view = { λ problem. problem.parts };

    ghost invariant = { λ problem. IsProblem problem.parts };
}

impl Problem {
    /// The problem that is made of the parts.
    pub fn of(parts: Parts) -> Problem
        requires { IsProblem parts }
        ensures { result ≡ parts }
    {
        Problem { parts }
    }

    /// The parts.
    pub fn parts(&self) -> &Parts
        ensures same { result.now ≡ self.now }
        ensures kept { IsProblem self.now }
    {
        &self.parts
    }

    /// The parts, given back.
    pub(crate) fn into_parts(self) -> Parts
        ensures same { result ≡ self }
        ensures kept { IsProblem self }
    {
        self.parts
    }

    /// How many decisions the sentence has: one for each node, attribute of a node, and place of an edge.
    pub fn decisions(&self) -> u64
        ensures { result ≡ length (shape self.now) }
    {
        decisions::count(&self.parts)
    }

    /// How many values the decision at a place has. Places count from 0: first the nodes, then the attributes by
    /// dimension, node and attribute, then the places of edges.
    pub fn value_count(&self, at: usize) -> usize
        requires { at < length (shape self.now) }
        ensures { result ≡ slice_index (shape self.now) at }
    {
        sizes::value_count(&self.parts, at)
    }

    /// Whether an analysis belongs to the sentence: each node has one of its candidates, each attribute of each node
    /// one of its values, and the edges stand at their places, in their order. No code calls it: it carries the law that
    /// such analyses and whole vectors of decisions are one to one.
    pub fn fits(&self, analysis: &Analysis) -> bool
        ensures exact { IsTrue result ↔ IsAnalysis self.now analysis.now }
        ensures one_to_one { IsOneToOne self.now }
    {
        fitting::belongs(&self.parts, analysis)
    }

    /// Whether an analysis comes before another: at the first decision in which they differ it has the earlier value. It is for
    /// the tests of crates above (`xdg_trials`).
    pub fn less(&self, a: &Analysis, b: &Analysis) -> bool
        requires a_fits { IsAnalysis self.now a.now }
        requires b_fits { IsAnalysis self.now b.now }
        ensures { IsTrue result ↔ Less (vector self.now a.now) (vector self.now b.now) }
    {
        comparing::comes_first(&self.parts, a, b)
    }

    /// The places where an edge may stand, in the order in which they are decided.
    pub fn edge_places(&self, alloc: Global) -> Result<List<Edge>, OutOfMemory>
        ensures listed { IfOk result (λ list. list ≡ places self.now) }
        ensures exact { HasPlaces self.now }
    {
        places::list(&self.parts, alloc)
    }
}
