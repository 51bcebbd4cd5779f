//! How many nodes and labels there are.

ghost use Rattle.std.specs.Prelude.{◌≡◌, ◌≤◌};
ghost use Rattle.xdg_problem.specs.Places.{nodes};
ghost use Rattle.xdg_problem.specs.Problems.{IsProblem};
ghost use Rattle.xdg_store.specs.States.{Known};
ghost use Rattle.xdg_graph.specs.Edges.{edge_labels};

use xdg_base::DimId;
use xdg_problem::Parts;
use xdg_store::Store;

/// How many labels the edges of a dimension can have: none where it has no edges.
#[tactic(auto, using(crate::proofs::Labelled::labels_some, crate::proofs::Labelled::labels_flat, crate::proofs::Labelled::labels_none))]
pub fn edge_labels(parts: &Parts, dim: DimId) -> u8
    requires { IsProblem parts.now }
    ensures count { result ≡ edge_labels parts.now dim.0 }
    ensures small { result ≤ 32 }
{
    let Some(plan) = parts.dims.get(usize::from(dim.0)) else {
        return 0;
    };
    if !plan.graph {
        return 0;
    }
    plan.labels.len() as u8
}

/// How many labels the edges of a dimension can have, in the sentence of a store.
pub fn labels_of(store: &Store, dim: DimId) -> u8
    ensures count { result ≡ edge_labels store.now.parts dim.0 }
    ensures small { result ≤ 32 }
    ensures known { Known store.now }
{
    edge_labels(store.problem().parts(), dim)
}

/// How many nodes the sentence has.
pub fn node_count(store: &Store) -> u8
    ensures size { result ≡ nodes store.now.parts }
    ensures small { result ≤ 128 }
    ensures known { Known store.now }
{
    store.problem().parts().words.len() as u8
}
