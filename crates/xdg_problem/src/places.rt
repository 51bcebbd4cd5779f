//! The places where an edge may stand, as a list.

ghost use Rattle.std.specs.Prelude.{◌≡◌, ◌≤◌, ◌<◌, ◌++◌, length, IfOk, OnOk};
ghost use Rattle.std.specs.List.{flat_map};
ghost use Rattle.xdg_problem.specs.HasPlaces.{HasPlaces};
ghost use Rattle.xdg_problem.specs.Places.{below, places, places_of, places_out};
ghost use Rattle.xdg_problem.specs.Problems.{IsProblem};

use crate::analysis::Edge;
use crate::parts::Parts;
use std::alloc::Global;
use xdg_base::{DimId, LabelId, List, NodeId, OutOfMemory};

/// Adds the places of a label out of a mother.
#[tactic(auto, using(crate::proofs::PlaceSteps::out_stays, crate::proofs::PlaceSteps::out_grows))]
fn push_out(
    out: &mut List<Edge>,
    dim: u8,
    nodes: u8,
    mother: u8,
    label: u8,
) -> Result<(), OutOfMemory>
    ensures { OnOk result (out.new ≡ out.old ++ places_out dim nodes mother label) }
{
    for daughter in 0..nodes {
        if daughter != mother {
            out.push(Edge {
                dim: DimId(dim),
                mother: NodeId(mother),
                label: LabelId(label),
                daughter: NodeId(daughter),
            })?;
        }
    }
    Ok(())
}

/// Adds the places out of a mother, label by label.
fn push_labels(
    out: &mut List<Edge>,
    dim: u8,
    nodes: u8,
    labels: u8,
    mother: u8,
) -> Result<(), OutOfMemory>
    ensures { OnOk result (out.new ≡ out.old ++ flat_map (λ label. places_out dim nodes mother label) (below labels)) }
{
    for label in 0..labels {
        push_out(out, dim, nodes, mother, label)?;
    }
    Ok(())
}

/// Adds the places of a dimension, mother by mother.
fn push_mothers(out: &mut List<Edge>, dim: u8, nodes: u8, labels: u8) -> Result<(), OutOfMemory>
    ensures { OnOk result (out.new ≡ out.old ++ places_of dim nodes labels) }
{
    for mother in 0..nodes {
        push_labels(out, dim, nodes, labels, mother)?;
    }
    Ok(())
}

/// The places where an edge may stand, in the order in which they are decided.
#[tactic(auto, using(crate::proofs::PlaceSteps::place_steps))]
pub fn list(parts: &Parts, alloc: Global) -> Result<List<Edge>, OutOfMemory>
    requires { IsProblem parts.now }
    ensures listed { IfOk result (λ list. list ≡ places parts.now) }
    ensures exact { HasPlaces parts.now }
{
    let nodes = parts.words.len() as u8;
    let mut out = List::new(alloc);
    for (dim, plan) in parts.dims.as_slice().iter().enumerate() {
        if plan.graph {
            push_mothers(&mut out, dim as u8, nodes, plan.labels.len() as u8)?;
        }
    }
    Ok(out)
}
