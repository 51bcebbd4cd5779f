//! Whether an analysis belongs to a problem.

ghost use Rattle.std.specs.Prelude.{◌≡◌, ◌≤◌, ◌<◌, ◌+◌, ◌*◌, ◌↔◌, IsTrue, length, map, Contains, All};
ghost use Rattle.std.specs.List.{flat_map};
ghost use Rattle.xdg_facts.specs.Fits.{Fits};
ghost use Rattle.xdg_problem.specs.Analyses.{HasCandidates, Before, IsPlace, EdgesRise, IsAnalysis};
ghost use Rattle.xdg_problem.specs.EdgeOrder.{RisesAt};
ghost use Rattle.xdg_problem.specs.OneToOne.{IsOneToOne};
ghost use Rattle.xdg_problem.specs.Places.{below};
ghost use Rattle.xdg_problem.specs.Problems.{IsDim, IsProblem};
ghost use Rattle.xdg_problem.specs.Values.{AreValues, value_counts};

use crate::analysis::{Analysis, Edge, is_before};
use crate::parts::{AttrPlan, DimPlan, Parts};
use crate::shared::SharedList;
use xdg_base::{EntryNo, List};

/// Whether an entry is one of the candidates.
fn is_candidate(candidates: &[EntryNo], entry: EntryNo) -> bool
    ensures { IsTrue result ↔ Contains candidates.now entry }
{
    for candidate in candidates {
        if candidate.0 == entry.0 {
            return true;
        }
    }
    false
}

/// Whether each node has one of its candidates.
#[tactic(auto, using(crate::proofs::FitSteps::entries_steps))]
fn entries_fit(candidates: &[SharedList<EntryNo>], entries: &[EntryNo]) -> bool
    ensures { IsTrue result ↔ HasCandidates candidates.now entries.now }
{
    if entries.len() != candidates.len() {
        return false;
    }
    for (k, entry) in entries.iter().enumerate() {
        if !is_candidate(candidates[k].as_slice(), *entry) {
            return false;
        }
    }
    true
}

/// Whether the values are values of the attributes of a node.
#[tactic(auto, using(crate::proofs::FitSteps::node_step, crate::proofs::FitSteps::node_refused, xdg_facts::proofs::Fitting::fits_end))]
fn node_fits(attrs: &[AttrPlan], values: &[u16]) -> bool
    requires same_length { length values.now ≡ length attrs.now }
    ensures { IsTrue result ↔ Fits (map (λ attr. length attr.values) attrs.now) values.now }
{
    for (k, value) in values.iter().enumerate() {
        if *value as usize >= attrs[k].values.len() {
            return false;
        }
    }
    true
}

/// Whether the values are values of the attributes of a dimension, node by node.
#[tactic(auto, using(crate::proofs::FitSteps::dim_steps))]
fn dim_fits(plan: &DimPlan, nodes: usize, values: &[u16]) -> bool
    requires same_length { length values.now ≡ nodes * length plan.now.attrs }
    ensures { IsTrue result ↔ Fits (flat_map (λ node. value_counts plan.now) (below nodes)) values.now }
{
    let mut rest = values;
    for _node in 0..nodes {
        let (now, later) = rest.split_at(plan.attrs.len());
        if !node_fits(plan.attrs.as_slice(), now) {
            return false;
        }
        rest = later;
    }
    true
}

/// Whether the values are values of the attributes of all dimensions.
#[tactic(auto, using(crate::proofs::FitSteps::values_steps))]
fn values_fit(dims: &[DimPlan], nodes: usize, values: &[u16]) -> bool
    requires most { nodes ≤ 128 }
    requires each { All IsDim dims.now }
    ensures { IsTrue result ↔ AreValues nodes dims.now values.now }
{
    let mut rest = values;
    for plan in dims {
        let width = nodes * plan.attrs.len();
        if rest.len() < width {
            return false;
        }
        let (now, later) = rest.split_at(width);
        if !dim_fits(plan, nodes, now) {
            return false;
        }
        rest = later;
    }
    rest.is_empty()
}

/// Whether an edge may stand: its dimension has edges and its label, and it is between two different nodes.
fn may_stand(parts: &Parts, edge: &Edge) -> bool
    ensures { IsTrue result ↔ IsPlace parts.now edge.now }
{
    let nodes = parts.words.len();
    let Some(plan) = parts.dims.get(edge.dim.0 as usize) else {
        return false;
    };
    plan.graph
        && (edge.label.0 as usize) < plan.labels.len()
        && (edge.mother.0 as usize) < nodes
        && (edge.daughter.0 as usize) < nodes
        && edge.mother.0 != edge.daughter.0
}

/// Whether each edge may stand.
fn all_may_stand(parts: &Parts, edges: &[Edge]) -> bool
    ensures { IsTrue result ↔ All (IsPlace parts.now) edges.now }
{
    for edge in edges {
        if !may_stand(parts, edge) {
            return false;
        }
    }
    true
}

/// Whether the edge at a place is decided before the next.
fn rises_at(edges: &[Edge], at: usize) -> bool
    requires { at < length edges.now }
    ensures { IsTrue result ↔ RisesAt Before edges.now at }
{
    if at + 1 < edges.len() {
        is_before(&edges[at], &edges[at + 1])
    } else {
        true
    }
}

/// Whether each edge is decided before the next.
#[tactic(auto, using(crate::proofs::FitSteps::rise_step, crate::proofs::FitSteps::rise_refused, crate::proofs::FitSteps::rise_end))]
fn edges_rise(edges: &[Edge]) -> bool
    ensures { IsTrue result ↔ EdgesRise edges.now }
{
    for at in 0..edges.len() {
        if !rises_at(edges, at) {
            return false;
        }
    }
    true
}

/// Whether an analysis belongs to the sentence. Analyses and whole vectors are one to one.
#[tactic(auto, using(crate::proofs::OneToOne::one_to_one))]
pub fn belongs(parts: &Parts, analysis: &Analysis) -> bool
    requires { IsProblem parts.now }
    ensures exact { IsTrue result ↔ IsAnalysis parts.now analysis.now }
    ensures one_to_one { IsOneToOne parts.now }
{
    let nodes = parts.words.len();
    entries_fit(parts.candidates.as_slice(), analysis.entries.as_slice())
        && values_fit(parts.dims.as_slice(), nodes, analysis.attrs.as_slice())
        && all_may_stand(parts, analysis.edges.as_slice())
        && edges_rise(analysis.edges.as_slice())
}
