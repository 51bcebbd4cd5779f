//! Projectivity where all edges that might be present still may be.

ghost use Rattle.std.specs.Prelude.{◌≡◌, ◌↔◌, true, IsTrue, All};
ghost use Rattle.xdg_problem.specs.declared.parts.Principle.TheVariants as principles;
ghost use Rattle.xdg_rules.specs.Rules.{IsClosedFor};
ghost use Rattle.xdg_propcore.specs.Standing.{HeldIf};
ghost use Rattle.xdg_store.specs.Decisions.{IsDecision};
ghost use Rattle.xdg_store.specs.States.{Known};
ghost use Rattle.xdg_porder.specs.Items.{IsReady};
ghost use Rattle.xdg_porder.specs.Lasting.{MayOn};

use xdg_base::DimId;
use xdg_problem::{Group, dim_of};
use xdg_store::{Decision, Mark, Store};

/// Whether a decision is none on an edge of a dimension, or the edge may be present.
fn may_on(store: &Store, dim: DimId, decision: Decision) -> bool
    requires { IsDecision store.now.parts decision }
    ensures { IsTrue result ↔ MayOn store.now.parts store.now.now dim.0 decision }
{
    match decision {
        Decision::Entry(_) => true,
        Decision::Attr(_, _, _) => true,
        Decision::Place(edge) => edge.dim.0 != dim.0 || store.may(edge),
    }
}

/// Whether it is so with each of some decisions.
fn all_may(store: &Store, dim: DimId, decisions: &[Decision]) -> bool
    requires known { Known store.now }
    requires decisions { All (IsDecision store.now.parts) decisions.now }
    ensures { IsTrue result ↔ All (MayOn store.now.parts store.now.now dim.0) decisions.now }
{
    for decision in decisions {
        if !may_on(store, dim, *decision) {
            return false;
        }
    }
    true
}

/// Whether a projectivity was still at a mark, and all edges of its dimension that might be present then still may be.
pub(crate) fn rests(store: &Store, group: &Group, since: &Option<Mark>) -> bool
    requires ready { IsReady group.now store.now }
    requires projective { group.now.principle ≡ principles.Projectivity }
    requires held { HeldIf (λ parts box. IsClosedFor parts group.now box) store.now since.now }
    ensures { IsTrue result → IsClosedFor store.now.parts group.now store.now.now }
{
    match *since {
        Some(mark) => all_may(store, dim_of(group, 0), store.removed_since(mark)),
        None => false,
    }
}
