//! Rules that go by the edges that must be present, where no more edges must be than before.

ghost use Rattle.std.specs.Prelude.{◌≡◌, ◌↔◌, ℕ, true, IfSome, IsTrue, All};
ghost use Rattle.xdg_facts.specs.Rises.{has};
ghost use Rattle.xdg_problem.specs.Arguments.{first_dim};
ghost use Rattle.xdg_rules.specs.Rules.{IsClosedFor};
ghost use Rattle.xdg_propcore.specs.Standing.{HeldIf};
ghost use Rattle.xdg_store.specs.Decisions.{IsDecision};
ghost use Rattle.xdg_store.specs.States.{Known};
ghost use Rattle.xdg_pgraph.specs.Musts.{AreMustsDone, HasDaughter, IsLost, IsMustOn, RestsIf};
ghost use Rattle.xdg_propcore.specs.Touching.{IsSmall};

use xdg_base::DimId;
use xdg_nodeset::NodeSet;
use xdg_problem::Group;
use xdg_store::{Decision, Mark, Store};

/// Whether a decision is one on an edge of a dimension that must be present.
fn is_must(store: &Store, dim: DimId, decision: Decision) -> bool
    requires { IsDecision store.now.parts decision }
    ensures { IsTrue result ↔ IsMustOn store.now.parts store.now.now dim.0 decision }
{
    match decision {
        Decision::Entry(_) => false,
        Decision::Attr(_, _, _) => false,
        Decision::Place(edge) => edge.dim.0 == dim.0 && store.must(edge),
    }
}

/// A set with the daughter of a decision more, if it is one on an edge of a dimension.
fn with_daughter(nodes: NodeSet, dim: DimId, decision: Decision) -> NodeSet
    requires { IsSmall decision }
    ensures here { HasDaughter dim.0 result decision }
    ensures stays { (n : ℕ) → has nodes n ≡ true → has result n ≡ true }
{
    match decision {
        Decision::Entry(_) => nodes,
        Decision::Attr(_, _, _) => nodes,
        Decision::Place(edge) => {
            if edge.dim.0 != dim.0 {
                return nodes;
            }
            let mut more = nodes;
            more.insert(edge.daughter);
            more
        }
    }
}

/// The daughters of the edges of a dimension on which some decisions are, where none of these edges must be present.
fn lost_daughters(store: &Store, dim: DimId, decisions: &[Decision]) -> Option<NodeSet>
    requires known { Known store.now }
    requires decisions { All (IsDecision store.now.parts) decisions.now }
    ensures { IfSome result (λ daughters. All (IsLost store.now.parts store.now.now dim.0 daughters) decisions.now) }
{
    let mut daughters = NodeSet::empty();
    for decision in decisions {
        if is_must(store, dim, *decision) {
            return None;
        }
        daughters = with_daughter(daughters, dim, *decision);
    }
    Some(daughters)
}

/// Where a principle use was still at a mark, and no edge of its dimension has become one that must be present since then, the
/// nodes into which fewer edges may lead. Then nothing is left to take by the edges that must be.
pub(crate) fn daughters_since(
    store: &Store,
    group: &Group,
    dim: DimId,
    since: &Option<Mark>,
) -> Option<NodeSet>
    requires known { Known store.now }
    requires dim { dim.0 ≡ first_dim group.now }
    requires held { HeldIf (λ parts box. IsClosedFor parts group.now box) store.now since.now }
    ensures { IfSome result (λ daughters. AreMustsDone store.now.parts group.now store.now.now × RestsIf daughters store.now.parts group.now store.now.now) }
{
    match *since {
        Some(mark) => lost_daughters(store, dim, store.removed_since(mark)),
        None => None,
    }
}
