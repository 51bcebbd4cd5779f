//! What a principle use and an analysis give to read.

ghost use Rattle.std.specs.Prelude.{◌≡◌, ◌≤◌, ◌<◌, [], length, take, slice_index, slice_index_or, All};
ghost use Rattle.xdg_problem.specs.Arguments.{dim_of, attr_of, label_count, attr_place, attr_count};
ghost use Rattle.xdg_problem.specs.Features.{row};
ghost use Rattle.xdg_problem.specs.Places.{nodes};
ghost use Rattle.xdg_problem.specs.Problems.{IsDim, IsProblem};
ghost use Rattle.xdg_problem.specs.Vectors.{place_among, entry_places, attr_sizes};

use xdg_base::EntryNo;
use xdg_problem::{Analysis, DimPlan, Group, Parts};

/// The dimension that a dimension argument names.
pub fn dim_of(group: &Group, argument: usize) -> u8
    ensures { result ≡ dim_of group.now argument }
{
    match group.dims.get(argument) {
        Some(dim) => dim.0,
        None => 0,
    }
}

/// The attribute that an attribute argument names.
pub fn attr_of(group: &Group, argument: usize) -> u8
    ensures { result ≡ attr_of group.now argument }
{
    match group.attrs.get(argument) {
        Some(attr) => attr.0,
        None => 0,
    }
}

/// How many labels a dimension has.
pub fn label_count_of(parts: &Parts, dim: u8) -> usize
    requires { IsProblem parts.now }
    ensures value { result ≡ label_count parts.now dim }
    ensures small { result ≤ 32 }
{
    match parts.dims.get(usize::from(dim)) {
        Some(plan) => plan.labels.len(),
        None => 0,
    }
}

/// How many attributes a dimension has.
fn attr_count_of(parts: &Parts, dim: u8) -> usize
    requires { IsProblem parts.now }
    ensures value { result ≡ attr_count parts.now dim }
    ensures small { result ≤ 8 }
{
    match parts.dims.get(usize::from(dim)) {
        Some(plan) => plan.attrs.len(),
        None => 0,
    }
}

/// The row of a feature argument at a label, for a candidate of a node. It is empty where the principle use has none.
pub fn row_of(group: &Group, node: usize, candidate: usize, argument: usize, label: usize) -> &[u16]
    ensures { result.now ≡ row group.now node candidate argument label }
{
    let Some(candidates) = group.feats.get(node) else {
        return &[];
    };
    let Some(features) = candidates.get(candidate) else {
        return &[];
    };
    let Some(feature) = features.get(argument) else {
        return &[];
    };
    let Some(numbers) = feature.rows.get(label) else {
        return &[];
    };
    numbers.as_slice()
}

/// The place of an entry among candidates, and behind them where it is none.
#[tactic(auto, using(crate::proofs::Reading::place_here, crate::proofs::Reading::place_step, crate::proofs::Reading::place_end))]
fn place_among(candidates: &[EntryNo], entry: EntryNo) -> usize
    ensures { result ≡ place_among candidates.now entry }
{
    for (k, candidate) in candidates.iter().enumerate() {
        if candidate.0 == entry.0 {
            return k;
        }
    }
    candidates.len()
}

/// The place of a node's entry among its candidates.
#[tactic(auto, using(crate::proofs::Reading::candidate_read))]
pub fn candidate_of(parts: &Parts, analysis: &Analysis, node: usize) -> usize
    requires candidates { node < length parts.now.candidates }
    requires entries { node < length analysis.now.entries }
    ensures { result ≡ slice_index (entry_places parts.now.candidates analysis.now.entries) node }
{
    place_among(
        parts.candidates.as_slice()[node].as_slice(),
        analysis.entries.as_slice()[node],
    )
}

/// How many values of attributes the first dimensions have.
#[tactic(auto, using(crate::proofs::Reading::sizes_more, crate::proofs::Reading::sizes_end))]
fn values_before(dims: &[DimPlan], nodes: usize, dim: usize) -> usize
    requires most { nodes ≤ 128 }
    requires few { length dims.now ≤ 8 }
    requires each { All IsDim dims.now }
    ensures value { result ≡ length (attr_sizes nodes (take dim dims.now)) }
    ensures small { result ≤ 8192 }
{
    let mut total = 0;
    for (k, plan) in dims.iter().enumerate() {
        if k >= dim {
            return total;
        }
        total += nodes * plan.attrs.len();
    }
    total
}

/// The value of an attribute of a node.
pub fn value_of(parts: &Parts, analysis: &Analysis, dim: u8, node: u8, attr: u8) -> u16
    requires { IsProblem parts.now }
    ensures { result ≡ slice_index analysis.now.attrs (attr_place parts.now dim node attr) }
{
    let before = values_before(parts.dims.as_slice(), parts.words.len(), usize::from(dim));
    let within = usize::from(node) * attr_count_of(parts, dim) + usize::from(attr);
    match analysis.attrs.get(before + within) {
        Some(value) => *value,
        None => 0,
    }
}
